//! Customers with sequential dependents in two areas, and what may be committed of them.
ghost use Rattle.fp_model.specs.Exits.{anchor_of};
ghost use Rattle.fp_model.specs.Order.{new_root, sequential_type};
ghost use Rattle.fp_model.specs.Shape.{has_length};
ghost use Rattle.fp_model.specs.State.{anchor_count};
ghost use Rattle.fp_model.specs.WellFormed.{AreDefs, IsDedbDef};
ghost use Rattle.fp_model.specs.declared.database.Dedb.{Dedb as DedbOf};
ghost use Rattle.past_anchors.specs.Databases.{AreDedbsOf, state_of};
ghost use Rattle.state_laws.specs.Parts.{FitsAnchorChange, FitsSeqInsert};
ghost use Rattle.std.specs.List.{AllByRecursion};
ghost use Rattle.std.specs.Prelude.{◌≡◌, ◌∷◌, [], IfOk, IfSome, List as ListOf};

use dli_tree::{Path, Step, insert, key_in};
use fp_exits::{fold_place, range_place};
use fp_model::{AnchorChange, Bytes, DedbDef, Defs, Kind, List, Root, SegDef, SeqInsert};
use std::alloc::Global;
use std::test::Fail;

/// Twelve anchors of customers, eight of them in the first area, and a database without sequential dependents.
pub(crate) const DEFINITIONS: &str = r#"regions = [1]
router = "FOLD"
[[dedb]]
name = "CUST"
randomizer = "FOLD"
ci = 512
[[dedb.segment]]
name = "CUSTOMER"
fields = [["CNO", "C", 4]]
[[dedb.segment]]
name = "AUDIT"
parent = "CUSTOMER"
sequential = true
fields = [["WHAT", "C", 8]]
[[dedb.segment]]
name = "LOAN"
parent = "CUSTOMER"
fields = [["LNO", "C", 2]]
[[dedb.area]]
name = "AREA1"
uows = 2
base = 4
overflow = 1
capacity = 3
[[dedb.area]]
name = "AREA2"
uows = 1
base = 4
overflow = 1
capacity = 2
[[dedb]]
name = "PLAIN"
randomizer = "FOLD"
ci = 512
[[dedb.segment]]
name = "ITEM"
fields = [["INO", "C", 4]]
[[dedb.area]]
name = "AREA3"
uows = 1
base = 1
overflow = 1
"#;

/// What a sequential dependent holds.
const WHAT: &[u8] = b"DEPOSIT ";

// How many anchors a database has.
fn anchor_count(def: &DedbDef) -> u64
    requires { IsDedbDef def.now }
    ensures { result ≡ anchor_count def.now }
{
    let mut count = 0;
    for area in def.areas.as_slice() {
        count += u64::from(area.uows) * u64::from(area.base);
    }
    count
}

/// The anchor of a key, if it is one of 1 to 64 bytes.
pub(crate) fn anchor_of(def: &DedbDef, key: &[u8]) -> Option<u32>
    requires { IsDedbDef def.now }
    ensures { IfSome result (λ anchor. anchor_of def.now key.now ≡ anchor) }
{
    let n = anchor_count(def);
    if key.is_empty() || key.len() > 64 || n == 0 {
        return None;
    }
    let place = match def.randomizer {
        Kind::Fold => fold_place(key, n),
        Kind::Range => range_place(key, n),
    };
    Some(place as u32)
}

// A root with these bytes, and none beside it.
fn root_alone(alloc: Global, def: &DedbDef, bytes: &[u8]) -> Result<List<Root>, Fail>
    requires { IsDedbDef def.now }
    ensures { IfOk result (λ roots. roots ≡ new_root def.now.segments bytes.now ∷ []) }
{
    let mut steps = List::new(alloc);
    steps.push(Step {
        segment: 0,
        key: Bytes::from_slice(alloc, bytes)?,
        serial: 0,
    })?;
    let path = Path { steps };
    let mut roots = List::new(alloc);
    let segment = Bytes::from_slice(alloc, bytes)?;
    if !insert(alloc, &mut roots, &def.segments, &path, segment)? {
        return Err(Fail::from("a root among none"));
    }
    Ok(roots)
}

// Whether a segment has the length of its type.
fn has_length(types: &[SegDef], segment: usize, bytes: &[u8]) -> bool
    ensures { result ≡ has_length types.now segment bytes.now }
{
    if segment < types.len() {
        bytes.len() == usize::from(types[segment].length)
    } else {
        false
    }
}

/// A customer alone at the anchor of its key.
pub(crate) fn customer(alloc: Global, defs: &Defs, bytes: &[u8]) -> Result<AnchorChange, Fail>
    requires { AreDefs defs.now }
    ensures { IfOk result (λ change. (dedbs : ListOf DedbOf) → AreDedbsOf defs.now dedbs
        → FitsAnchorChange defs.now (state_of [] dedbs) change) }
{
    let Some(def) = defs.dedbs.get(0) else {
        return Err(Fail::from("no database"));
    };
    if !has_length(def.segments.as_slice(), 0, bytes) {
        return Err(Fail::from("no customer"));
    }
    let Some(anchor) = anchor_of(def, key_in(def.segments.as_slice(), 0, bytes)) else {
        return Err(Fail::from("no key"));
    };
    let roots = root_alone(alloc, def, bytes)?;
    Ok(AnchorChange {
        dedb: 0,
        anchor,
        roots,
    })
}

// The sequential type.
fn sequential_type(types: &[SegDef]) -> Option<usize>
    ensures { result ≡ sequential_type types.now }
{
    for (at, def) in types.iter().enumerate() {
        if def.sequential {
            return Some(at);
        }
    }
    None
}

// A sequential dependent of the customer of a key.
fn dependent(alloc: Global, defs: &Defs, key: &[u8]) -> Result<SeqInsert, Fail>
    requires { AreDefs defs.now }
    ensures { IfOk result (FitsSeqInsert defs.now) }
{
    let Some(def) = defs.dedbs.get(0) else {
        return Err(Fail::from("no database"));
    };
    let Some(kind) = sequential_type(def.segments.as_slice()) else {
        return Err(Fail::from("no sequential type"));
    };
    let bytes = Bytes::from_slice(alloc, WHAT)?;
    if !has_length(def.segments.as_slice(), kind, bytes.as_slice()) {
        return Err(Fail::from("another length"));
    }
    let Some(anchor) = anchor_of(def, key) else {
        return Err(Fail::from("no key"));
    };
    let key = Bytes::from_slice(alloc, key)?;
    Ok(SeqInsert {
        dedb: 0,
        anchor,
        key,
        bytes,
    })
}

/// A sequential dependent for each of these customers.
pub(crate) fn dependents(
    alloc: Global,
    defs: &Defs,
    keys: &[&'static [u8]],
) -> Result<List<SeqInsert>, Fail>
    requires { AreDefs defs.now }
    ensures { IfOk result (AllByRecursion (FitsSeqInsert defs.now)) }
{
    let mut inserts = List::new(alloc);
    for key in keys {
        inserts.push(dependent(alloc, defs, key)?)?;
    }
    Ok(inserts)
}
