//! Definitions texts.
//!
//!     === EXITS: ok | FAULT
//!     TEXT ..
//!
//! The exits that there are stand as four digits, 1 for one that is there: routers of the kinds FOLD and RANGE, then
//! spreaders of these kinds.
ghost use Rattle.fp_exits.specs.Ranges.{IsRoutable, IsSpreadable};
ghost use Rattle.fp_model.specs.Exits.{route, spread};
ghost use Rattle.fp_model.specs.WellFormed.{AreDefs};
ghost use Rattle.std.specs.Prelude.{◌≡◌, IfOk};

use crate::fault::CaseFault;
use fp_defs::{DefsFault, read_defs};
use fp_exits::{
    Exits, Router, Routing, Spreader, Spreading, fold_group, fold_place, range_group, range_place,
};
use fp_model::{Bytes, Defs, Kind, Name};
use std::alloc::{AllocError, Global};

/// The exits that an installation has.
#[derive(Clone, Copy)]
pub(crate) struct Kinds {
    folding_router: bool,
    ranging_router: bool,
    folding_spreader: bool,
    ranging_spreader: bool,
}

impl Kinds {
    /// All exits.
    pub(crate) const ALL: Kinds = Kinds {
        folding_router: true,
        ranging_router: true,
        folding_spreader: true,
        ranging_spreader: true,
    };

    // Those that four digits name.
    fn of(key: &str) -> Result<Kinds, CaseFault> {
        match key.as_bytes() {
            [a, b, c, d] => Ok(Kinds {
                folding_router: *a == b'1',
                ranging_router: *b == b'1',
                folding_spreader: *c == b'1',
                ranging_spreader: *d == b'1',
            }),
            _ => Err(CaseFault::Malformed),
        }
    }
}

/// What a definitions text comes to.
pub(crate) fn answer(alloc: Global, key: &str, text: &[u8]) -> Result<Vec<u8>, CaseFault> {
    match read(alloc, text, Kinds::of(key)?)? {
        Ok(_) => Ok(Vec::from_slice(alloc, b"ok")?),
        Err(DefsFault::Memory) => Err(CaseFault::Memory),
        Err(fault) => Ok(said(alloc, &fault)?),
    }
}

/// What is read where there are these exits.
pub(crate) fn read(
    alloc: Global,
    text: &[u8],
    kinds: Kinds,
) -> Result<Result<Defs, DefsFault>, AllocError>
    ensures { IfOk result (λ outcome. IfOk outcome AreDefs) }
{
    let mut routers = Vec::new(alloc);
    if kinds.folding_router {
        let f: Routing = Box::new(
            alloc,
            |tran: &Name, n: u64| -> u64
                requires { IsRoutable tran.now n }
                ensures { result ≡ route Kind.Fold n tran.now }
            { fold_group(tran, n) },
        )?;
        routers.push(Router::new(Kind::Fold, f))?;
    }
    if kinds.ranging_router {
        let f: Routing = Box::new(
            alloc,
            |tran: &Name, n: u64| -> u64
                requires { IsRoutable tran.now n }
                ensures { result ≡ route Kind.Range n tran.now }
            { range_group(tran, n) },
        )?;
        routers.push(Router::new(Kind::Range, f))?;
    }
    read_routed(alloc, text, routers, kinds)
}

// What is read where there are these routers, and the spreaders of these kinds.
fn read_routed(
    alloc: Global,
    text: &[u8],
    routers: Vec<Router>,
    kinds: Kinds,
) -> Result<Result<Defs, DefsFault>, AllocError>
    ensures { IfOk result (λ outcome. IfOk outcome AreDefs) }
{
    let mut spreaders = Vec::new(alloc);
    if kinds.folding_spreader {
        let f: Spreading = Box::new(
            alloc,
            |key: &[u8], n: u64| -> u64
                requires { IsSpreadable key.now n }
                ensures { result ≡ spread Kind.Fold n key.now }
            { fold_place(key, n) },
        )?;
        spreaders.push(Spreader::new(Kind::Fold, f))?;
    }
    if kinds.ranging_spreader {
        let f: Spreading = Box::new(
            alloc,
            |key: &[u8], n: u64| -> u64
                requires { IsSpreadable key.now n }
                ensures { result ≡ spread Kind.Range n key.now }
            { range_place(key, n) },
        )?;
        spreaders.push(Spreader::new(Kind::Range, f))?;
    }
    Ok(read_defs(alloc, text, &Exits::new(spreaders, routers)))
}

// What is said of a fault.
fn said(alloc: Global, fault: &DefsFault) -> Result<Vec<u8>, AllocError> {
    match fault {
        DefsFault::NotToml => Vec::from_slice(alloc, b"not TOML"),
        DefsFault::Missing(key) => joined(alloc, b"missing ", key, ""),
        DefsFault::Unknown(key) => joined(alloc, b"unknown ", key, ""),
        DefsFault::OutOfLimit(key, number) => {
            let number = format!(in alloc; " out of limit: {number}")?;
            joined(alloc, b"", key, &number)
        }
        DefsFault::Twice(name) => joined(alloc, b"twice ", name, ""),
        DefsFault::BadField(key) => joined(alloc, b"bad field ", key, ""),
        DefsFault::NoExit(Kind::Fold) => Vec::from_slice(alloc, b"no exit FOLD"),
        DefsFault::NoExit(Kind::Range) => Vec::from_slice(alloc, b"no exit RANGE"),
        DefsFault::TooLong => Vec::from_slice(alloc, b"too long"),
        DefsFault::Memory => Vec::from_slice(alloc, b"no memory"),
    }
}

// Three texts, one behind the other.
fn joined(alloc: Global, front: &[u8], name: &Bytes, back: &str) -> Result<Vec<u8>, AllocError> {
    let mut text = Vec::from_slice(alloc, front)?;
    text.extend_from_slice(name.as_slice())?;
    text.extend_from_slice(back.as_bytes())?;
    Ok(text)
}
