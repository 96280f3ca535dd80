//! Scripts texts.
//!
//!     === define NAME: ok
//!     DEFINITIONS TEXT ..
//!
//!     === NAME: ok | FAULT
//!     TEXT ..
//!
//! The first gives definitions a name, and the second reads a text by definitions that were named before.
ghost use Rattle.std.specs.Prelude.{IsTrue};
ghost use Rattle.txn_tokens.specs.Lookups.{HaveByteNumbers};

use crate::definitions::{self, Kinds};
use crate::fault::CaseFault;
use crate::texts::trimmed;
use fp_defs::DefsFault;
use fp_model::{Defs, Name};
use std::alloc::{AllocError, Global};
use txn_lang::{ScriptFault, parse};

/// Definitions with a name.
#[derive(Drop)]
pub(crate) struct Named {
    name: String,
    defs: Defs,
}

/// What a text comes to. One that gives definitions a name makes them known.
pub(crate) fn answer(
    alloc: Global,
    known: &mut Vec<Named>,
    key: &str,
    text: &[u8],
) -> Result<Vec<u8>, CaseFault> {
    if let Some(name) = key.strip_prefix("define ") {
        return define(alloc, known, name, text);
    }
    for one in known.iter() {
        if one.name.as_str() == key {
            return read(alloc, &one.defs, text);
        }
    }
    Err(CaseFault::Malformed)
}

// Gives the definitions of a text a name.
fn define(
    alloc: Global,
    known: &mut Vec<Named>,
    name: &str,
    text: &[u8],
) -> Result<Vec<u8>, CaseFault> {
    match definitions::read(alloc, text, Kinds::ALL)? {
        Ok(defs) => {
            let name = String::from_str(alloc, name)?;
            known.push(Named { name, defs })?;
            Ok(Vec::from_slice(alloc, b"ok")?)
        }
        Err(DefsFault::Memory) => Err(CaseFault::Memory),
        Err(_) => Err(CaseFault::Malformed),
    }
}

// Whether databases and segment types have numbers of one byte.
fn fits(defs: &Defs) -> bool
    ensures { IsTrue result → HaveByteNumbers defs.now }
{
    if defs.msdbs.len() > 32 || defs.dedbs.len() > 16 {
        return false;
    }
    defs.dedbs
        .as_slice()
        .iter()
        .all(|def| def.segments.len() <= 15)
}

// What a text comes to by definitions.
fn read(alloc: Global, defs: &Defs, text: &[u8]) -> Result<Vec<u8>, CaseFault> {
    if !fits(defs) {
        return Err(CaseFault::Malformed);
    }
    match parse(alloc, text, defs) {
        Ok(_) => Ok(Vec::from_slice(alloc, b"ok")?),
        Err(ScriptFault::Memory) => Err(CaseFault::Memory),
        Err(fault) => Ok(said(alloc, fault)?.into_bytes()),
    }
}

// What is said of a fault.
fn said(alloc: Global, fault: ScriptFault) -> Result<String, AllocError> {
    match fault {
        ScriptFault::Syntax(line) => format!(in alloc; "syntax at line {line}"),
        ScriptFault::UnknownName(line) => format!(in alloc; "unknown name at line {line}"),
        ScriptFault::TooDear(name, cost) => {
            format!(in alloc; "transaction {} costs {cost}", shown(&name))
        }
        ScriptFault::Twice(name) => format!(in alloc; "transaction {} twice", shown(&name)),
        ScriptFault::TooLong => format!(in alloc; "too long"),
        ScriptFault::Memory => format!(in alloc; "no memory"),
    }
}

// A name as a text.
fn shown(name: &Name) -> &str {
    str::from_utf8(trimmed(&name.0)).unwrap_or("?")
}
