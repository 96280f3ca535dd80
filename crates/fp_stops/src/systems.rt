//! The definitions, the scripts and the exits that the tests are given, and the text of the databases.
ghost use Rattle.fp_exits.specs.Ranges.{IsRoutable, IsSpreadable};
ghost use Rattle.fp_model.specs.Exits.{route, spread};
ghost use Rattle.fp_model.specs.WellFormed.{AreDefs};
ghost use Rattle.std.specs.Prelude.{◌≡◌, IfOk};

use fp_defs::read_defs;
use fp_exits::{Exits, Router, Routing, Spreader, Spreading, fold_group, fold_place};
use fp_model::{Bytes, Defs, Kind, Name};
use std::alloc::{AllocError, Global};
use std::test::Fail;

// ---- accounts and tellers

// What the definitions of accounts and tellers say before these databases, and scripts.
#[derive(Clone, Copy)]
pub(crate) struct System {
    pub(crate) head: &'static str,
    pub(crate) scripts: &'static str,
}

impl System {
    // The text of its definitions.
    pub(crate) fn definitions(self, alloc: Global) -> Result<Bytes, AllocError> {
        definitions(alloc, self.head)
    }

    // How many bytes the front of its log has, with the gate of a log without groups.
    pub(crate) fn front_length(self) -> usize {
        let definitions = self.head.len().saturating_add(DATABASES.len());
        definitions
            .saturating_add(self.scripts.len())
            .saturating_add(17)
    }
}

// One region,
pub(crate) const ONE_REGION: System = System {
    head: "regions = [1]\nrouter = \"FOLD\"\n",
    scripts: SCRIPTS,
};

// two,
pub(crate) const TWO_REGIONS: System = System {
    head: "regions = [1, 1]\nrouter = \"FOLD\"\n",
    scripts: SCRIPTS,
};

// two with two entries a group,
pub(crate) const PAIRS: System = System {
    head: "regions = [1, 1]\nrouter = \"FOLD\"\nlog_group = 2\n",
    scripts: SCRIPTS,
};

// and four, two in each of two balancing groups.
pub(crate) const FOUR_REGIONS: System = System {
    head: "regions = [1, 1, 2, 2]\nrouter = \"FOLD\"\n",
    scripts: SCRIPTS,
};

// Two accounts and a teller.
const DATABASES: &str = "[[msdb]]
name = \"ACCTS\"
fields = [[\"ACCT\", \"C\", 4], [\"BAL\", \"P\", 4]]
load = [[\"A001\", \"100\"], [\"A002\", \"50\"]]
[[msdb]]
name = \"TELLERS\"
dynamic = true
fields = [[\"TNO\", \"C\", 4], [\"CASH\", \"F\", 4]]
load = [[\"T001\", \"0\"]]
";

pub(crate) const SCRIPTS: &str = "TRAN DEPOSIT
FLD ACCTS KEY(#1) BAL + #2
IF STATUS NE ''
ROLB 1
END
REPLY 'NEW'
TRAN WDRAW
FLD ACCTS KEY(#1) BAL H #2 BAL - #2
IF STATUS NE ''
ROLB 7
END
REPLY 'PAID ' #2
TRAN ASK
GU ACCTS KEY(#1)
IF STATUS NE ''
REPLY 'NONE'
END
REPLY IO.BAL
TRAN SETBAL
GHU ACCTS KEY(#1)
REPL ACCTS BAL=#2
REPLY 'SET'
TRAN TWICE
FLD ACCTS KEY(#1) BAL + #2
IF STATUS NE ''
ROLB 2
END
FLD ACCTS KEY(#1) BAL + #2
REPLY 'TWO'
TRAN HIRE
ISRT TELLERS TNO=#1 CASH=0
SET A STATUS
ISRT TELLERS TNO=#1 CASH=0
REPLY A '/ ' STATUS
TRAN BOTH
GHU ACCTS KEY(#1)
SET A IO.BAL
GHU ACCTS KEY(#2)
REPLY A '+' IO.BAL
TRAN TWOACC
GHU ACCTS KEY(#1)
GHU ACCTS KEY(#2)
REPLY 'BOTH'
";

// Eight messages one after another: each is read, run to its end, and sealed before the next.
pub(crate) const EACH_SEALED: &str = "IN R1 R1 R1 R1 R1 R1 R1 R1 LOG
IN R1 R1 R1 R1 R1 R1 R1 R1 LOG
IN R1 R1 R1 R1 R1 R1 R1 R1 LOG
IN R1 R1 R1 R1 R1 R1 R1 R1 LOG
IN R1 R1 R1 R1 R1 R1 R1 R1 LOG
IN R1 R1 R1 R1 R1 R1 R1 R1 LOG
IN R1 R1 R1 R1 R1 R1 R1 R1 LOG
IN R1 R1 R1 R1 R1 R1 R1 R1 LOG
";

// The text of definitions of accounts and tellers, with this before the databases.
pub(crate) fn definitions(alloc: Global, head: &str) -> Result<Bytes, AllocError> {
    text_of(alloc, &[head, DATABASES])
}

// The balances of the two accounts, and how many tellers there are: T001, or T009 too, whose cash is 0.
pub(crate) type Balances = (i32, i32, u8);

// The text of these databases.
pub(crate) fn shown(alloc: Global, left: Balances) -> Result<String, AllocError> {
    let (first, second, tellers) = left;
    let hired = if tellers == 2 {
        "  TNO=T009 CASH=0\n"
    } else {
        ""
    };
    format!(in alloc;
        "msdb ACCTS 2\n  ACCT=A001 BAL={first}\n  ACCT=A002 BAL={second}\nmsdb TELLERS {tellers}\n  TNO=T001 CASH=0\n{hired}"
    )
}

// Whether a text is that of these databases.
pub(crate) fn is_shown(alloc: Global, text: &[u8], left: Balances) -> Result<bool, AllocError> {
    let wanted = shown(alloc, left)?;
    Ok(text == wanted.as_bytes())
}

// ---- definitions that are read

// Accounts with notes. Behind this stands what is loaded.
pub(crate) const NOTES: &str = "regions = [1]
router = \"FOLD\"
[[msdb]]
name = \"ACCTS\"
dynamic = true
fields = [[\"ACCT\", \"C\", 4], [\"NOTE\", \"C\", 4]]
load = ";

// The definitions of a text in parts.
pub(crate) fn defs_of(alloc: Global, parts: &[&str]) -> Result<Defs, Fail>
    ensures { IfOk result AreDefs }
{
    let text = text_of(alloc, parts)?;
    let exits = exits(alloc)?;
    Ok(read_defs(alloc, text.as_slice(), &exits)?)
}

fn text_of(alloc: Global, parts: &[&str]) -> Result<Bytes, AllocError> {
    let mut text = Bytes::new(alloc);
    for part in parts {
        text.append(part.as_bytes())?;
    }
    Ok(text)
}

// Exits that fold.
pub(crate) fn exits(alloc: Global) -> Result<Exits, AllocError> {
    let f: Spreading = Box::new(
        alloc,
        |key: &[u8], n: u64| -> u64
            requires { IsSpreadable key.now n }
            ensures { result ≡ spread Kind.Fold n key.now }
        { fold_place(key, n) },
    )?;
    let g: Routing = Box::new(
        alloc,
        |tran: &Name, n: u64| -> u64
            requires { IsRoutable tran.now n }
            ensures { result ≡ route Kind.Fold n tran.now }
        { fold_group(tran, n) },
    )?;
    let mut spreaders = Vec::new(alloc);
    spreaders.push(Spreader::new(Kind::Fold, f))?;
    let mut routers = Vec::new(alloc);
    routers.push(Router::new(Kind::Fold, g))?;
    Ok(Exits::new(spreaders, routers))
}
