//! Writing a checkpoint.
ghost use Rattle.checkpoint_format.specs.Given.{checkpoint_of, format_with, terminals_of};
ghost use Rattle.fp_model.specs.CheckpointText.{AreLasts, checkpoint_rest, last_text, lasts_text, msdb_text};
ghost use Rattle.fp_model.specs.LogText.{of_format};
ghost use Rattle.fp_model.specs.Spellings.{be64};
ghost use Rattle.fp_model.specs.declared.database.Msdb.{Msdb as MsdbOf};
ghost use Rattle.msdb_store.specs.Store.{IsOf};
ghost use Rattle.std.specs.List.{AllByRecursion, flat_map, zip};
ghost use Rattle.std.specs.Option.{option_copied};
ghost use Rattle.std.specs.Prelude.{◌≡◌, ◌+◌, ◌<◌, ◌≤◌, ◌^◌, ◌∷◌, ◌++◌, IfOk, OnOk, Some, codes, length, slice_get};

use crate::Place;
use crate::terminals::put_lasts;
use balancing::Lasts;
use fp_model::{Bytes, Defs, MsdbDef};
use log_format::{put_u16, put_u32, put_u64};
use msdb_store::MsdbStore;
use std::alloc::{AllocError, Global};

// The letters and the three numbers.
fn put_head(into: &mut Bytes, format: u8, place: &Place) -> Result<(), AllocError>
    requires { format ≤ 2 }
    ensures { OnOk result (into.new
        ≡ into.old ++ (of_format (codes "IMSFPCK") format ++ be64 place.now.number ++ be64 place.now.at ++ be64
        place.now.count)) }
{
    into.append(b"IMSFPCK")?;
    into.push(b'0' + format)?;
    put_u64(into, place.number)?;
    put_u64(into, place.at)?;
    put_u64(into, place.count)
}

// One database, its segments as the store lends them.
fn put_msdb(
    into: &mut Bytes,
    def: &MsdbDef,
    msdbs: &MsdbStore,
    number: u8,
) -> Result<(), AllocError>
    requires within { number < length msdbs.now.msdbs }
    requires few { (its : MsdbOf) → slice_get msdbs.now.msdbs number ≡ Some its → length its.segments < 2 ^ 32 }
    ensures { (its : MsdbOf) → slice_get msdbs.now.msdbs number ≡ Some its
        → OnOk result (into.new ≡ into.old ++ msdb_text def.now its) }
{
    let count = msdbs.count(number);
    put_u16(into, def.length)?;
    put_u32(into, count as u32)?;
    into.reserve(count.saturating_mul(usize::from(def.length)))?; // so that they are put in one piece of memory
    for place in 0..count {
        let Some(segment) = msdbs.segment_at(number, place) else {
            unreachable!()
        };
        into.append(segment)?;
    }
    Ok(())
}

// All databases behind their number.
fn put_msdbs(into: &mut Bytes, defs: &[MsdbDef], msdbs: &MsdbStore) -> Result<(), AllocError>
    requires of { IsOf defs.now msdbs.now }
    requires few { length defs.now < 2 ^ 8 }
    requires each { AllByRecursion (λ msdb. length msdb.segments < 2 ^ 32) msdbs.now.msdbs }
    ensures { OnOk result (into.new ≡ into.old ++ (length msdbs.now.msdbs
        ∷ flat_map (λ each. msdb_text each.0 each.1) (zip defs.now msdbs.now.msdbs))) }
{
    into.push(defs.len() as u8)?;
    for (number, def) in defs.iter().enumerate() {
        put_msdb(into, def, msdbs, number as u8)?;
    }
    Ok(())
}

// The format in which these are written.
fn format_with(lasts: Option<&Lasts>) -> u8
    ensures { result ≡ format_with (option_copied lasts.entry) }
{
    match lasts {
        Some(_) => 2,
        None => 1,
    }
}

/// The bytes of a checkpoint behind its gate: of these databases as they are at a place in the log, and in format 2
/// where the last numbers of terminals are given, else in format 1. The store lends its segments; each is copied once.
pub fn body(
    alloc: Global,
    defs: &Defs,
    place: &Place,
    msdbs: &MsdbStore,
    lasts: Option<&Lasts>,
) -> Result<Bytes, AllocError>
    requires databases { IsOf defs.now.msdbs msdbs.now }
    requires few { length defs.now.msdbs < 2 ^ 8 }
    requires segments { AllByRecursion (λ msdb. length msdb.segments < 2 ^ 32) msdbs.now.msdbs }
    requires terminals { AreLasts (terminals_of (option_copied lasts)) }
    ensures { IfOk result (λ bytes. bytes
        ≡ checkpoint_rest (format_with (option_copied lasts.entry)) defs.now.msdbs
        (checkpoint_of place.now msdbs.now.msdbs (option_copied lasts.entry))) }
{
    let mut bytes = Bytes::new(alloc);
    put_head(&mut bytes, format_with(lasts), place)?;
    put_msdbs(&mut bytes, defs.msdbs.as_slice(), msdbs)?;
    if let Some(lasts) = lasts {
        put_lasts(&mut bytes, lasts)?;
    }
    Ok(bytes)
}
