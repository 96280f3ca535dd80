//! The database of customers.
ghost use Rattle.fp_model.specs.WellFormed.{AreDefs};
ghost use Rattle.area_runs.specs.Types.{AreCustomerTypes};
ghost use Rattle.area_runs.specs.Bank.{IsBank, IsBankDedb, KeepsNotes};
ghost use Rattle.std.specs.List.{AllByRecursion};
ghost use Rattle.std.specs.Prelude.{◌≡◌, IfOk, IfSome, IsTrue};

use fp_defs::read_defs;
use fp_exits::Exits;
use fp_model::{AreaDef, DedbDef, Defs, SegDef};
use std::alloc::Global;
use std::test::Fail;

/// Customers, with notes of which an area keeps four, and loans. The anchors 0 to 3 are the first area's, 4 to 7 the
/// second's. A customer's element has 48 bytes, so an interval holds ten of them.
const DEFINITIONS: &str = r#"regions = [1]
router = "FOLD"
[[dedb]]
name = "CUST"
randomizer = "FOLD"
ci = 512
[[dedb.segment]]
name = "CUSTOMER"
fields = [["CNO", "C", 4], ["NAME", "C", 12]]
[[dedb.segment]]
name = "AUDIT"
parent = "CUSTOMER"
sequential = true
fields = [["WHAT", "C", 8]]
[[dedb.segment]]
name = "LOAN"
parent = "CUSTOMER"
fields = [["LNO", "C", 2], ["DUE", "P", 4]]
[[dedb.area]]
name = "AREA1"
uows = 2
base = 2
overflow = 1
capacity = 4
[[dedb.area]]
name = "AREA2"
uows = 2
base = 2
overflow = 1
capacity = 4
"#;

/// Whether these are customers, their notes and their loans.
#[tactic(auto, using(crate::proofs::BankLemmas::customer_types))]
fn are_customer_types(types: &[SegDef]) -> bool
    ensures { IsTrue result → AreCustomerTypes types.now }
{
    match types {
        [root, note, loan] => {
            root.parent.is_none()
                && !root.sequential
                && root.length == 16
                && matches!(note.parent, Some(0))
                && note.sequential
                && note.length == 8
                && matches!(loan.parent, Some(0))
                && !loan.sequential
                && loan.length == 6
        }
        _ => false,
    }
}

/// Whether areas keep notes.
fn keep_notes(areas: &[AreaDef]) -> bool
    ensures { IsTrue result → AllByRecursion KeepsNotes areas.now }
{
    for area in areas {
        if area.capacity == 0 {
            return false;
        }
    }
    true
}

/// Whether a database has customers in two areas.
fn is_bank_dedb(dedb: &DedbDef) -> bool
    ensures { IsTrue result → IsBankDedb dedb.now }
{
    dedb.ci == 512
        && dedb.areas.len() == 2
        && keep_notes(dedb.areas.as_slice())
        && are_customer_types(dedb.segments.as_slice())
}

/// Whether each of these has.
fn are_bank_dedbs(dedbs: &[DedbDef]) -> bool
    ensures { IsTrue result → AllByRecursion IsBankDedb dedbs.now }
{
    for dedb in dedbs {
        if !is_bank_dedb(dedb) {
            return false;
        }
    }
    true
}

/// Whether the only database is the one of the tests.
#[tactic(auto, using(crate::proofs::BankLemmas::is_bank))]
fn is_bank(defs: &Defs) -> bool
    requires { AreDefs defs.now }
    ensures { IsTrue result → IsBank defs.now }
{
    defs.dedbs.len() == 1 && are_bank_dedbs(defs.dedbs.as_slice())
}

/// The definitions, as they are read. None where they are others.
pub(crate) fn read_bank(alloc: Global, exits: &Exits) -> Result<Option<Defs>, Fail>
    ensures { IfOk result (λ found. IfSome found IsBank) }
{
    let defs = read_defs(alloc, DEFINITIONS.as_bytes(), exits)?;
    if is_bank(&defs) {
        Ok(Some(defs))
    } else {
        Ok(None)
    }
}
