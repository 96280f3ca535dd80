//! What a run is given, as texts, and how these are read.
ghost use Rattle.fp_core.specs.Relation.{IsSetup};
ghost use Rattle.fp_exits.specs.Kinds.{has_kind, kinds_of};
ghost use Rattle.fp_model.specs.LogText.{FitsFront};
ghost use Rattle.fp_model.specs.WellFormed.{AreDefs};
ghost use Rattle.log_groups.specs.Images.{as_front};
ghost use Rattle.std.specs.Prelude.{◌≡◌, [], IfOk, true};

use crate::fault::Fault;
use fp_defs::read_defs;
use fp_exits::Exits;
use fp_model::{Bytes, Defs};
use log_groups::Front;
use std::alloc::{AllocError, Global};
use txn_lang::{Scripts, definitions_have_byte_numbers, parse, what_was_read_fits};

/// What a run is given.
#[derive(Clone, Copy)]
pub struct Task<'a> {
    /// Definitions of main storage databases alone.
    pub definitions: &'a [u8],
    pub scripts: &'a [u8],
    pub schedule: &'a [u8],
    pub messages: &'a [u8],
    /// Whether the log is of format 2, in which a message may have a number.
    pub numbered: bool,
}

/// The definitions that a text is read as, which have no data entry database.
pub fn definitions(alloc: Global, text: &[u8], exits: &Exits) -> Result<Defs, Fault>
    ensures defs { IfOk result AreDefs }
    ensures no_dedbs { IfOk result (λ defs. defs.dedbs ≡ []) }
    ensures router { IfOk result (λ defs. has_kind (kinds_of exits.now).routers defs.router ≡ true) }
{
    let Ok(defs) = read_defs(alloc, text, exits) else {
        return Err(Fault::NotRead);
    };
    if !defs.dedbs.is_empty() {
        return Err(Fault::NotRead);
    }
    Ok(defs)
}

/// The scripts that a text is read as under definitions.
pub fn scripts(alloc: Global, text: &[u8], defs: &Defs) -> Result<Scripts, Fault>
    requires defs { AreDefs defs.now }
    requires no_dedbs { defs.now.dedbs ≡ [] }
    ensures setup { IfOk result (λ scripts. IsSetup defs.now scripts.scripts) }
    ensures text { IfOk result (λ scripts. scripts.text ≡ text.now) }
{
    definitions_have_byte_numbers();
    what_was_read_fits();
    match parse(alloc, text, defs) {
        Ok(scripts) => Ok(scripts),
        Err(_) => Err(Fault::NotRead),
    }
}

/// The front of each log: what it says besides its format isn't looked at.
pub(crate) fn front(alloc: Global, numbered: bool) -> Result<Front, AllocError>
    ensures { IfOk result (λ front. FitsFront (as_front front)) }
{
    let defs = Bytes::from_slice(alloc, b"D")?;
    Ok(Front {
        format: if numbered { 2 } else { 1 },
        defs,
        scripts: Bytes::new(alloc),
    })
}
