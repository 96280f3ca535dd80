//! A queue taken back, key by key.
ghost use Rattle.fp_model.specs.FitCalls.{IsFitDeferred};
ghost use Rattle.past_segments.specs.Pasts.{databases_at};
ghost use Rattle.past_settling.specs.inside.Queues.{TakesBack, any_names, is_it, key_in, names};
ghost use Rattle.std.specs.List.{AllByRecursion};
ghost use Rattle.std.specs.Prelude.{◌≡◌, ◌<◌, length};

use crate::call::def_of;
use fp_model::{Bytes, Deferred, Defs, key_of};
use past_segments::PastSegments;

// Takes back what a key of the database of this number was given from a place on.
fn take_back_in(pasts: &mut [PastSegments], number: u8, place: u64, key: &[u8])
    requires { number < length pasts.old }
    ensures { TakesBack place (is_it number key.now) pasts.old pasts.new }
{
    pasts[usize::from(number)].take_back(place, key);
}

// The key of a segment of the database of this number.
fn key_in<'a>(defs: &Defs, number: u8, bytes: &'a Bytes) -> &'a [u8]
    requires { number < length defs.now.msdbs }
    ensures { result.now ≡ key_in defs.now.msdbs number bytes.now }
{
    key_of(def_of(defs, number).fields.as_slice(), bytes.as_slice())
}

// Takes back what the key that a call names was given from a place on.
fn take_back_call(pasts: &mut [PastSegments], defs: &Defs, place: u64, call: &Deferred)
    requires fit { IsFitDeferred defs.now.msdbs call.now }
    requires many { length pasts.old ≡ length defs.now.msdbs }
    ensures { TakesBack place (names defs.now.msdbs call.now) pasts.old pasts.new }
{
    match call {
        Deferred::Fld { msdb, key, .. } => take_back_in(pasts, *msdb, place, key.as_slice()),
        Deferred::Repl { msdb, bytes } => {
            take_back_in(pasts, *msdb, place, key_in(defs, *msdb, bytes));
        }
        Deferred::Isrt { msdb, bytes } => {
            take_back_in(pasts, *msdb, place, key_in(defs, *msdb, bytes));
        }
        Deferred::Dlet { msdb, key } => take_back_in(pasts, *msdb, place, key.as_slice()),
    }
}

/// Takes back what the keys that calls name were given from a place on.
pub(crate) fn take_back_all(pasts: &mut [PastSegments], defs: &Defs, place: u64, calls: &[Deferred])
    requires fit { AllByRecursion (IsFitDeferred defs.now.msdbs) calls.now }
    requires many { length pasts.old ≡ length defs.now.msdbs }
    ensures { TakesBack place (any_names defs.now.msdbs calls.now) pasts.old pasts.new }
{
    for at in 0..calls.len() {
        take_back_call(pasts, defs, place, &calls[at]);
    }
}
