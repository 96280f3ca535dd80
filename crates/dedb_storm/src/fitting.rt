//! Whether a call fits a database: the condition of answering it.
ghost use Rattle.dedb_calls.specs.Calls.{FitsCallOn};
ghost use Rattle.dedb_calls.specs.Progress.{DedbProgress, held_in};
ghost use Rattle.fp_model.specs.DedbCalls.{type_of_path};
ghost use Rattle.fp_model.specs.Calls.{database_of};
ghost use Rattle.fp_model.specs.FitCalls.{AreFitSsas, FitsSsa};
ghost use Rattle.fp_model.specs.Order.{last_type};
ghost use Rattle.fp_model.specs.Shape.{has_length};
ghost use Rattle.std.specs.Prelude.{◌≡◌, IsTrue, option_map};

use fp_model::{Call, DedbDef, SegDef, Ssa, key_length};

fn has_length(types: &[SegDef], segment: u8, bytes: &[u8]) -> bool
    ensures { result ≡ has_length types.now segment bytes.now }
{
    let at = usize::from(segment);
    if at < types.len() {
        bytes.len() == usize::from(types[at].length)
    } else {
        false
    }
}

fn fits(types: &[SegDef], ssa: &Ssa) -> bool
    ensures { IsTrue result → FitsSsa types.now ssa.now }
{
    let at = usize::from(ssa.segment);
    if at >= types.len() {
        return false;
    }
    if types[at].sequential {
        return true;
    }
    match &ssa.key {
        Some(key) => key.len() == usize::from(key_length(types[at].fields.as_slice())),
        None => true,
    }
}

fn fit(types: &[SegDef], ssas: &[Ssa]) -> bool
    ensures { IsTrue result → AreFitSsas types.now ssas.now }
{
    match ssas {
        [] => true,
        [first, rest @ ..] => fits(types, first) && fit(types, rest),
    }
}

fn last_type(segment: u8, ssas: &[Ssa]) -> u8
    ensures { result ≡ last_type segment ssas.now }
{
    match ssas {
        [] => segment,
        [first, rest @ ..] => last_type(first.segment, rest),
    }
}

/// Whether a call fits the database of a number, where a segment of this type is held there, or none is.
pub(crate) fn fits_call(def: &DedbDef, number: u8, held: Option<u8>, call: &Call) -> bool
    ensures { IsTrue result → (work : DedbProgress)
        → held ≡ option_map (λ place. type_of_path def.now number place.path) (held_in work number)
        → FitsCallOn def.now number work call.now }
{
    let types = def.segments.as_slice();
    match call {
        Call::Get { ssas, .. } => fit(types, ssas.as_slice()),
        Call::Isrt { ssas, bytes, .. } => {
            let ssas = ssas.as_slice();
            fit(types, ssas) && has_length(types, last_type(0, ssas), bytes.as_slice())
        }
        Call::Repl { bytes, .. } => match held {
            Some(segment) => has_length(types, segment, bytes.as_slice()),
            None => true,
        },
        Call::Fld { .. } | Call::Dlet { .. } => true,
    }
}

/// The database that a call names.
pub(crate) fn database_of(call: &Call) -> u8
    ensures { result ≡ database_of call.now }
{
    match call {
        Call::Get { db, .. }
        | Call::Fld { db, .. }
        | Call::Isrt { db, .. }
        | Call::Repl { db, .. }
        | Call::Dlet { db } => *db,
    }
}
