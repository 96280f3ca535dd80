//! Definitions of data entry databases whose exits fold.
ghost use Rattle.fp_exits.specs.Ranges.{IsRoutable, IsSpreadable};
ghost use Rattle.fp_model.specs.Exits.{route, spread};
ghost use Rattle.fp_model.specs.WellFormed.{AreDefs};
ghost use Rattle.std.specs.Prelude.{◌≡◌, IfOk};

use fp_defs::read_defs;
use fp_exits::{Exits, Router, Routing, Spreader, Spreading, fold_group, fold_place};
use fp_model::{Defs, Kind, Name};
use std::alloc::{AllocError, Global};
use std::test::Fail;

/// Exits that fold.
fn exits(alloc: Global) -> Result<Exits, AllocError> {
    let f: Spreading = Box::new(
        alloc,
        |key: &[u8], n: u64| -> u64
            requires { IsSpreadable key.now n }
            ensures { result ≡ spread Kind.Fold n key.now }
        { fold_place(key, n) },
    )?;
    let g: Routing = Box::new(
        alloc,
        |tran: &Name, n: u64| -> u64
            requires { IsRoutable tran.now n }
            ensures { result ≡ route Kind.Fold n tran.now }
        { fold_group(tran, n) },
    )?;
    let mut spreaders = Vec::new(alloc);
    spreaders.push(Spreader::new(Kind::Fold, f))?;
    let mut routers = Vec::new(alloc);
    routers.push(Router::new(Kind::Fold, g))?;
    Ok(Exits::new(spreaders, routers))
}

/// The definitions of a text.
pub(crate) fn definitions(alloc: Global, text: &str) -> Result<Defs, Fail>
    ensures { IfOk result AreDefs }
{
    let exits = exits(alloc)?;
    Ok(read_defs(alloc, text.as_bytes(), &exits)?)
}
