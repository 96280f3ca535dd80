//! One call of the queue, on all databases.
ghost use Rattle.fp_model.specs.FitCalls.{FitsKey, FitsSegment, IsFitDeferred, IsFsaList};
ghost use Rattle.fp_model.specs.Settle.{with_msdb};
ghost use Rattle.fp_model.specs.State.{with_segment, without_segment};
ghost use Rattle.fp_model.specs.WellFormed.{IsMsdbDef};
ghost use Rattle.fp_model.specs.declared.calls.Deferred.TheVariants.{Fld};
ghost use Rattle.fp_model.specs.declared.definitions.MsdbDef.{MsdbDef as DefOf};
ghost use Rattle.past_segments.specs.Pasts.{ArePastsOf, databases_at};
ghost use Rattle.past_segments.specs.Times.{IsSettledBy};
ghost use Rattle.past_settling.specs.inside.Queues.{IsCall, LeavesAll, is_it, key_in, names};
ghost use Rattle.std.specs.List.{AllByRecursion};
ghost use Rattle.std.specs.Prelude.{◌≡◌, ◌<◌, OnErr, OnOk, Some, length, slice_get};

use crate::one::{put, settle_fields, take_away};
use fld_calls::SettleFault;
use fp_model::{Bytes, Deferred, Defs, MsdbDef};
use past_segments::PastSegments;
use std::alloc::{AllocError, Global};

// The definition of a database.
pub(crate) fn def_of(defs: &Defs, number: u8) -> &MsdbDef
    requires { number < length defs.now.msdbs }
    ensures { slice_get defs.now.msdbs number ≡ Some result.now }
{
    &defs.msdbs.as_slice()[usize::from(number)]
}

// Puts a segment in the database of this number.
fn put_in(
    pasts: &mut [PastSegments],
    defs: &Defs,
    number: u8,
    place: u64,
    bytes: Bytes,
) -> Result<(), AllocError>
    requires are { ArePastsOf defs.now.msdbs pasts.old }
    requires settled { AllByRecursion (IsSettledBy place) pasts.old }
    requires def { (def : DefOf) × (slice_get defs.now.msdbs number ≡ Some def) × FitsSegment bytes def }

    ensures now { OnOk result (databases_at place pasts.new
        ≡ with_msdb defs.now.msdbs number (λ def msdb. with_segment def bytes msdb) (databases_at place pasts.old)) }
    ensures leaves { LeavesAll defs.now.msdbs place (is_it number (key_in defs.now.msdbs number bytes)) pasts.old
        pasts.new }
    ensures err { OnErr result (pasts.new ≡ pasts.old) }
{
    let def = def_of(defs, number);
    put(&mut pasts[usize::from(number)], def, place, bytes)
}

// Takes a segment away from the database of this number.
fn take_away_in(
    pasts: &mut [PastSegments],
    defs: &Defs,
    number: u8,
    place: u64,
    key: &[u8],
) -> Result<(), AllocError>
    requires are { ArePastsOf defs.now.msdbs pasts.old }
    requires settled { AllByRecursion (IsSettledBy place) pasts.old }
    requires number { number < length defs.now.msdbs }

    ensures now { OnOk result (databases_at place pasts.new
        ≡ with_msdb defs.now.msdbs number (λ def msdb. without_segment def key.now msdb)
        (databases_at place pasts.old)) }
    ensures leaves { LeavesAll defs.now.msdbs place (is_it number key.now) pasts.old pasts.new }
    ensures err { OnErr result (pasts.new ≡ pasts.old) }
{
    let def = def_of(defs, number);
    take_away(&mut pasts[usize::from(number)], def, place, key)
}

// Settles a field call on the database of this number.
fn settle_fields_in(
    alloc: Global,
    pasts: &mut [PastSegments],
    defs: &Defs,
    number: u8,
    place: u64,
    key: &Bytes,
    fsas: &Bytes,
) -> Result<(), SettleFault>
    requires good { AllByRecursion IsMsdbDef defs.now.msdbs }
    requires are { ArePastsOf defs.now.msdbs pasts.old }
    requires settled { AllByRecursion (IsSettledBy place) pasts.old }
    requires def { (def : DefOf) × (slice_get defs.now.msdbs number ≡ Some def) × FitsKey key.now def }
    requires list { IsFsaList fsas.now }

    ensures call { IsCall defs.now.msdbs (Fld number key.now fsas.now) (databases_at place pasts.old) result
        (databases_at place pasts.new) }
    ensures leaves { LeavesAll defs.now.msdbs place (is_it number key.now) pasts.old pasts.new }
    ensures err { OnErr result (pasts.new ≡ pasts.old) }
{
    let def = def_of(defs, number);
    settle_fields(
        alloc,
        &mut pasts[usize::from(number)],
        def,
        place,
        key,
        fsas,
    )
}

/// Settles a call from a place on. A call that fails changes nothing.
pub(crate) fn settle_call(
    alloc: Global,
    pasts: &mut [PastSegments],
    defs: &Defs,
    place: u64,
    call: &Deferred,
) -> Result<(), SettleFault>
    requires good { AllByRecursion IsMsdbDef defs.now.msdbs }
    requires are { ArePastsOf defs.now.msdbs pasts.old }
    requires settled { AllByRecursion (IsSettledBy place) pasts.old }
    requires fit { IsFitDeferred defs.now.msdbs call.now }

    ensures call { IsCall defs.now.msdbs call.now (databases_at place pasts.old) result
        (databases_at place pasts.new) }
    ensures leaves { LeavesAll defs.now.msdbs place (names defs.now.msdbs call.now) pasts.old pasts.new }
    ensures err { OnErr result (pasts.new ≡ pasts.old) }
{
    match call {
        Deferred::Fld { msdb, key, fsas } => {
            settle_fields_in(alloc, pasts, defs, *msdb, place, key, fsas)
        }
        Deferred::Repl { msdb, bytes } => {
            put_in(pasts, defs, *msdb, place, bytes.copy()?)?;
            Ok(())
        }
        Deferred::Isrt { msdb, bytes } => {
            put_in(pasts, defs, *msdb, place, bytes.copy()?)?;
            Ok(())
        }
        Deferred::Dlet { msdb, key } => {
            take_away_in(pasts, defs, *msdb, place, key.as_slice())?;
            Ok(())
        }
    }
}
