//! One call of the queue, on its database.
ghost use Rattle.fp_model.specs.FitCalls.{FitsKey, IsFsaList};
ghost use Rattle.fp_model.specs.Fsas.{fsas_in};
ghost use Rattle.fp_model.specs.State.{key_of, segment_of, with_segment, without_segment};
ghost use Rattle.fp_model.specs.WellFormed.{IsMsdbDef, StandFrom};
ghost use Rattle.fp_model.specs.declared.definitions.MsdbDef.{MsdbDef as DefOf};
ghost use Rattle.past_segments.specs.Pasts.{IsPastOf};
ghost use Rattle.past_segments.specs.Times.{IsSettledBy, database_at};
ghost use Rattle.past_settling.specs.inside.Settling.{Gives, IsChanged, IsFieldCall, Leaves};
ghost use Rattle.std.specs.Option.{option_copied};
ghost use Rattle.std.specs.Prelude.{◌≡◌, IfSome, List as ListOf, OnErr, OnOk, length};

use fld_calls::{SettleFault, settle_list};
use fp_model::{Bytes, FieldDef, List, MsdbDef};
use past_segments::PastSegments;
use std::alloc::{AllocError, Global};

// A segment with the changes of field search arguments.
fn changed(
    alloc: Global,
    fields: &List<FieldDef>,
    fsas: &Bytes,
    segment: &[u8],
) -> Result<Bytes, SettleFault>
    requires fields { StandFrom 0 fields.now (length segment.now) }
    requires list { IsFsaList fsas.now }
    ensures { (def : DefOf) → def.fields ≡ fields.now → IsChanged def (fsas_in fsas.now) segment.now result }
{
    let mut bytes = Vec::from_slice(alloc, segment)?;
    settle_list(alloc, fields, fsas.as_slice(), &mut bytes)?;
    Ok(Bytes::from_vec(bytes))
}

/// Puts a whole segment from a place on. It fails only for want of memory.
pub(crate) fn put(
    past: &mut PastSegments,
    def: &MsdbDef,
    place: u64,
    bytes: Bytes,
) -> Result<(), AllocError>
    requires settled { IsSettledBy place past.old }
    requires is { IsPastOf def.now past.old }
    requires whole { length bytes ≡ def.now.length }

    ensures now { OnOk result (database_at place past.new ≡ with_segment def.now bytes (database_at place past.old)) }
    ensures leaves { Leaves def.now place (key_of def.now.fields bytes) past.old past.new }
    ensures err { OnErr result (past.new ≡ past.old) }
{
    past.put(place, bytes)
}

/// Takes the segment of a key away from a place on. It fails only for want of memory.
pub(crate) fn take_away(
    past: &mut PastSegments,
    def: &MsdbDef,
    place: u64,
    key: &[u8],
) -> Result<(), AllocError>
    requires settled { IsSettledBy place past.old }
    requires is { IsPastOf def.now past.old }

    ensures now { OnOk result (database_at place past.new
        ≡ without_segment def.now key.now (database_at place past.old)) }
    ensures leaves { Leaves def.now place key.now past.old past.new }
    ensures err { OnErr result (past.new ≡ past.old) }
{
    past.take_away(place, key)
}

// The segment of a key at a place.
fn look<'a>(past: &'a PastSegments, def: &MsdbDef, place: u64, key: &[u8]) -> Option<&'a [u8]>
    requires { IsPastOf def.now past.now }
    ensures segment { option_copied result ≡ segment_of def.now (database_at place past.now) key.now }
    ensures whole { IfSome result (λ segment. length segment.now ≡ def.now.length) }
{
    past.look(place, key)
}

// The bytes that a field call gives its segment at a place.
fn given(
    alloc: Global,
    past: &PastSegments,
    def: &MsdbDef,
    place: u64,
    key: &Bytes,
    fsas: &Bytes,
) -> Result<Bytes, SettleFault>
    requires is { IsPastOf def.now past.now }
    requires good { IsMsdbDef def.now }
    requires key { FitsKey key.now def.now }
    requires list { IsFsaList fsas.now }

    ensures { Gives def.now key.now fsas.now (database_at place past.now) result }
{
    let Some(segment) = look(past, def, place, key.as_slice()) else {
        return Err(SettleFault::Bad {
            place: u16::MAX,
            found: Bytes::new(alloc),
        });
    };
    changed(alloc, &def.fields, fsas, segment)
}

/// Settles a field call from a place on. A call that fails changes nothing.
pub(crate) fn settle_fields(
    alloc: Global,
    past: &mut PastSegments,
    def: &MsdbDef,
    place: u64,
    key: &Bytes,
    fsas: &Bytes,
) -> Result<(), SettleFault>
    requires settled { IsSettledBy place past.old }
    requires is { IsPastOf def.now past.old }
    requires good { IsMsdbDef def.now }
    requires key { FitsKey key.now def.now }
    requires list { IsFsaList fsas.now }

    ensures now { (defs : ListOf DefOf) → IsFieldCall defs def.now key.now fsas.now (database_at place past.old) result
        (database_at place past.new) }
    ensures leaves { Leaves def.now place key.now past.old past.new }
    ensures err { OnErr result (past.new ≡ past.old) }
{
    match given(alloc, past, def, place, key, fsas) {
        Ok(bytes) => {
            put(past, def, place, bytes)?;
            Ok(())
        }
        Err(fault) => Err(fault),
    }
}
