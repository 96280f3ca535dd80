//! What several modules read: exits, and the definitions and scripts of systems.
ghost use Rattle.fp_audit.specs.Setup.{CanAudit};
ghost use Rattle.fp_exits.specs.Kinds.{has_kind, kinds_of};
ghost use Rattle.fp_exits.specs.Ranges.{IsRoutable, IsSpreadable};
ghost use Rattle.fp_model.specs.Exits.{route, spread};
ghost use Rattle.fp_model.specs.WellFormed.{AreDefs};
ghost use Rattle.past_replay.specs.Setup.{IsSetup};
ghost use Rattle.std.specs.List.{AllByRecursion};
ghost use Rattle.std.specs.Prelude.{◌≡◌, IfOk, true};

use fp_defs::read_defs;
use fp_exits::{Exits, Router, Routing, Spreader, Spreading, fold_group, fold_place};
use fp_model::{Bytes, Defs, Kind, Message, Name};
use std::alloc::{AllocError, Global};
use std::test::Fail;
use txn_lang::{ScriptFault, Scripts, definitions_have_byte_numbers, parse, what_was_read_fits};

// ---- exits

fn folding_router(alloc: Global) -> Result<Router, AllocError> {
    let f: Routing = Box::new(
        alloc,
        |tran: &Name, n: u64| -> u64
            requires { IsRoutable tran.now n }
            ensures { result ≡ route Kind.Fold n tran.now }
        { fold_group(tran, n) },
    )?;
    Ok(Router::new(Kind::Fold, f))
}

fn folding_spreader(alloc: Global) -> Result<Spreader, AllocError> {
    let f: Spreading = Box::new(
        alloc,
        |key: &[u8], n: u64| -> u64
            requires { IsSpreadable key.now n }
            ensures { result ≡ spread Kind.Fold n key.now }
        { fold_place(key, n) },
    )?;
    Ok(Spreader::new(Kind::Fold, f))
}

/// Exits that fold.
pub(crate) fn exits(alloc: Global) -> Result<Exits, AllocError> {
    let mut spreaders = Vec::new(alloc);
    spreaders.push(folding_spreader(alloc)?)?;
    let mut routers = Vec::new(alloc);
    routers.push(folding_router(alloc)?)?;
    Ok(Exits::new(spreaders, routers))
}

// ---- systems

/// The two texts of a system.
#[derive(Clone, Copy)]
pub(crate) struct System {
    pub(crate) definitions: &'static str,
    pub(crate) scripts: &'static [u8],
}

/// Tellers, of whom none is loaded.
pub(crate) const TELLERS: System = System {
    definitions: r#"regions = [1]
router = "FOLD"
[[msdb]]
name = "TELLERS"
dynamic = true
fields = [["TNO", "C", 4], ["CASH", "F", 4]]
load = []
"#,
    scripts: b"TRAN HIRE
ISRT TELLERS TNO=#1 CASH=#2
IF STATUS NE ''
ROLB 3
END
REPLY 'HIRED'
TRAN DEPOSIT
FLD TELLERS KEY(#1) CASH + #2
IF STATUS NE ''
ROLB 1
END
REPLY 'NEW'
TRAN TAKETWO
FLD TELLERS KEY(#1) CASH H #2 CASH - #2
FLD TELLERS KEY(#1) CASH H #2 CASH - #2
REPLY 'TWICE'
TRAN ASK
GU TELLERS KEY(#1)
IF STATUS NE ''
REPLY 'NONE'
END
REPLY IO.CASH
TRAN SET
GHU TELLERS KEY(#1)
REPL TELLERS CASH=#2
REPLY IO.CASH
TRAN FIRE
GHU TELLERS KEY(#1)
DLET TELLERS
REPLY 'GONE'
",
};

/// The sample, with some more scripts: accounts with 100 and 50, in ACCTS 0, a teller, in TELLERS 1, and customers with
/// sequential notes and with loans, in CUST 2, in two areas of four anchors. The folding randomizer sends C001 and C009
/// to anchor 6, and C003 to anchor 0. The areas' data sets are 3 and 4.
pub(crate) const SAMPLE: System = System {
    definitions: r#"regions = [1, 1]
router = "FOLD"
[[msdb]]
name = "ACCTS"
fields = [["ACCT", "C", 4], ["BAL", "P", 4]]
load = [["A002", "50"], ["A001", "100"]]
[[msdb]]
name = "TELLERS"
dynamic = true
fields = [["TNO", "C", 4], ["CASH", "F", 4]]
load = [["T001", "0"]]
[[dedb]]
name = "CUST"
randomizer = "FOLD"
ci = 512
[[dedb.segment]]
name = "CUSTOMER"
fields = [["CNO", "C", 4], ["NAME", "C", 12]]
[[dedb.segment]]
name = "AUDIT"
parent = "CUSTOMER"
sequential = true
fields = [["WHAT", "C", 8]]
[[dedb.segment]]
name = "LOAN"
parent = "CUSTOMER"
fields = [["LNO", "C", 2], ["DUE", "P", 4]]
[[dedb.area]]
name = "AREA1"
uows = 2
base = 2
overflow = 1
capacity = 4
[[dedb.area]]
name = "AREA2"
uows = 2
base = 2
overflow = 1
capacity = 4
"#,
    scripts: b"TRAN DEPOSIT
FLD ACCTS KEY(#1) BAL + #2
IF STATUS NE ''
ROLB 1
END
REPLY 'NEW'
TRAN WDRAW
FLD ACCTS KEY(#1) BAL H #2 BAL - #2
IF STATUS NE ''
ROLB 7
END
REPLY 'PAID ' #2
TRAN ASK
GU ACCTS KEY(#1)
IF STATUS NE ''
REPLY 'NONE'
END
REPLY IO.BAL
TRAN SETBAL
GHU ACCTS KEY(#1)
REPL ACCTS BAL=#2
REPLY 'SET'
TRAN NEWCUST
ISRT CUST CUSTOMER CNO=#1 NAME=#2
IF STATUS NE ''
ROLB 2
END
REPLY 'ADDED'
TRAN NOTE
ISRT CUST CUSTOMER(#1) AUDIT WHAT=#2
IF STATUS NE ''
ROLB 3
END
REPLY 'NOTED'
TRAN LEND
ISRT CUST CUSTOMER(#1) LOAN LNO=#2 DUE=#3
REPLY 'LENT' STATUS
TRAN SHOWC
GU CUST CUSTOMER(#1)
IF STATUS NE ''
ROLB 4
END
SET OUT IO.NAME
REPEAT 10
GNP CUST AUDIT
IF STATUS NE ''
BREAK
END
SET OUT OUT & ' '
SET OUT OUT & IO.WHAT
END
REPLY OUT
TRAN TWO
GHU CUST CUSTOMER(#1)
GHU CUST CUSTOMER(#2)
REPLY 'BOTH'
TRAN LISTC
SET OUT ''
REPEAT 30
GN CUST CUSTOMER
IF STATUS NE ''
BREAK
END
IF OUT NE ''
SET OUT OUT & ' '
END
SET OUT OUT & IO.CNO
END
REPLY OUT
TRAN HIRE
ISRT TELLERS TNO=#1 CASH=0
SET A STATUS
ISRT TELLERS TNO=#1 CASH=0
REPLY A '/ ' STATUS
TRAN LETTERS
FLD ACCTS KEY(#1) BAL H #2 BAL - #2
REPLY FSAS
TRAN REPLACE
GHU ACCTS KEY(#1)
REPL ACCTS BAL=#2
REPLY IO.BAL STATUS
TRAN MOVE
GU ACCTS
GU TELLERS
SET V IO.CASH
REPL ACCTS BAL=V
REPLY IO.TNO
TRAN DEBT
ISRT TELLERS TNO=#1 CASH=-2
REPLY STATUS
TRAN COUNT
GHU TELLERS KEY(#1)
IF STATUS NE ''
REPLY 'NONE'
END
REPLY IO.CASH
TRAN ENROL
ISRT TELLERS TNO=#1 CASH='0'
IF STATUS NE ''
ROLB 3
END
REPLY 'HIRED'
TRAN BORROW
FLD ACCTS KEY('A001') BAL H #3 BAL - #3
ISRT CUST CUSTOMER(#1) LOAN LNO=#2 DUE=#3
REPLY 'LENT' STATUS
TRAN OWES
GU CUST CUSTOMER(#1) LOAN(#2)
IF STATUS NE ''
REPLY 'NOTHING'
END
REPLY IO.DUE
TRAN LEAVES
GHU CUST CUSTOMER(#1)
DLET CUST
REPLY 'GONE' STATUS
TRAN NEXT
GHNP CUST AUDIT
GU ACCTS KEY(STATUS)
REPLY STATUS
",
};

/// A system that was read, by exits that fold.
#[derive(Drop)]
pub(crate) struct Ground {
    pub(crate) exits: Exits,
    pub(crate) defs: Defs,
    pub(crate) scripts: Scripts,
}

/// The definitions of a text, by exits that fold.
pub(crate) fn defs_of(alloc: Global, text: &str) -> Result<Defs, Fail>
    ensures { IfOk result AreDefs }
{
    let exits = exits(alloc)?;
    Ok(read_defs(alloc, text.as_bytes(), &exits)?)
}

/// The definitions of the sample.
pub(crate) fn sample(alloc: Global) -> Result<Defs, Fail>
    ensures { IfOk result AreDefs }
{
    defs_of(alloc, SAMPLE.definitions)
}

// Scripts that were read under definitions.
fn scripts_of(
    alloc: Global,
    text: &[u8],
    defs: &Defs,
    exits: &Exits,
) -> Result<Scripts, ScriptFault>
    requires defs { AreDefs defs.now }
    requires spread { AllByRecursion
        (λ dedb. has_kind (kinds_of exits.now).spreaders dedb.randomizer ≡ true) defs.now.dedbs }
    ensures setup { IfOk result (λ scripts. IsSetup defs.now (kinds_of exits.now) scripts.scripts) }
    ensures can { IfOk result (λ scripts. CanAudit defs.now scripts.scripts) }
{
    definitions_have_byte_numbers();
    what_was_read_fits();
    let _exits = exits;
    parse(alloc, text, defs)
}

impl System {
    /// Reads it.
    pub(crate) fn read(&self, alloc: Global) -> Result<Ground, Fail>
        ensures setup { IfOk result
            (λ ground. IsSetup ground.defs (kinds_of ground.exits) ground.scripts.scripts) }
        ensures can { IfOk result (λ ground. CanAudit ground.defs ground.scripts.scripts) }
    {
        let exits = exits(alloc)?;
        let defs = read_defs(alloc, self.definitions.as_bytes(), &exits)?;
        let scripts = scripts_of(alloc, self.scripts, &defs, &exits)?;
        Ok(Ground {
            exits,
            defs,
            scripts,
        })
    }
}

/// A message of a terminal for a transaction.
pub(crate) fn message(alloc: Global, tran: Name, text: &[u8]) -> Result<Message, AllocError> {
    Ok(Message {
        lterm: Name(*b"T1      "),
        tran,
        text: Bytes::from_slice(alloc, text)?,
        line: Bytes::new(alloc),
        number: None,
    })
}
