//! The log of the entries: made for a front of one byte, written as entries are sealed, and read behind a restart.
ghost use Rattle.area_runs.specs.Bank.{FitsBank, HasBank};
ghost use Rattle.fp_model.specs.ItemTargets.{is_ascending};
ghost use Rattle.fp_model.specs.LogText.{FitsEntry, FitsFront, KeepsRules};
ghost use Rattle.log_groups.specs.Images.{as_front};
ghost use Rattle.std.specs.List.{AllByRecursion};
ghost use Rattle.std.specs.Prelude.{◌≡◌, ◌-◌, ◌<◌, ◌^◌, ◌≤◌, [], IfOk, IfSome, length, true};

use crate::changes::all_fit;
use dedb_area::{ApplyFault, Areas};
use fp_model::{Bytes, Defs, Entry, Item, List, Outcome};
use log_groups::{Front, Log, LogFault};
use memory_site::MemorySite;
use std::alloc::{AllocError, Global};

fn front(alloc: Global) -> Result<Front, AllocError>
    ensures { IfOk result (λ front. FitsFront (as_front front)) }
{
    Ok(Front {
        format: 1,
        defs: Bytes::from_slice(alloc, b"D")?,
        scripts: Bytes::new(alloc),
    })
}

/// The entry of a commit or of a Purge that has these items.
pub(crate) fn entry_of(alloc: Global, items: List<Item>) -> Entry
    requires order { is_ascending items ≡ true }
    requires fit { AllByRecursion FitsBank items }
    requires count { length items < 2 ^ 32 }
    ensures rules { KeepsRules result }
    ensures fits { FitsEntry result }
    ensures items { result.items ≡ items }
{
    Entry {
        from: 0,
        outcome: Outcome::Done,
        line: Bytes::new(alloc),
        reply: Bytes::new(alloc),
        notes: List::new(alloc),
        items,
    }
}

/// A new log. False where the site failed.
pub(crate) fn make_log(alloc: Global, site: &mut MemorySite) -> Result<bool, AllocError> {
    match Log::make(alloc, site, &front(alloc)?) {
        Ok(()) => Ok(true),
        Err(LogFault::Memory) => Err(AllocError),
        Err(_) => Ok(false),
    }
}

/// The log that the site has, as far as its first gate. None where the site failed, or has no log.
pub(crate) fn open_log(alloc: Global, site: &mut MemorySite) -> Result<Option<Log>, AllocError>
    ensures { IfOk result (λ found. IfSome found (λ log. log.unsealed ≡ [])) }
{
    match Log::open(alloc, site, &front(alloc)?) {
        Ok(log) => Ok(Some(log)),
        Err(LogFault::Memory) => Err(AllocError),
        Err(_) => Ok(None),
    }
}

/// Applies the items of the entry at a place. False where they can't be.
fn apply(areas: &mut Areas, defs: &Defs, items: &List<Item>, place: u64) -> Result<bool, AllocError>
    requires bank { HasBank defs.now areas.old.places }
    requires fit { AllByRecursion FitsBank items.now }
    requires place { place < 2 ^ 64 - 1 }
    ensures { areas.new.places ≡ areas.old.places }
{
    let _ = defs;
    match areas.apply(items, place) {
        Ok(()) => Ok(true),
        Err(ApplyFault::Memory) => Err(AllocError),
        Err(ApplyFault::NoImage { .. }) => Ok(false),
    }
}

/// No log of the tests has so many entries.
const MANY: u64 = 1 << 20;

/// Applies the entries of a group, of which the first is the one at a place, without those before `from`. How many
/// entries there are behind it; None where items can't be applied.
fn apply_group(
    areas: &mut Areas,
    defs: &Defs,
    entries: &List<Entry>,
    first: u64,
    from: u64,
) -> Result<Option<u64>, AllocError>
    requires { HasBank defs.now areas.old.places }
    ensures { areas.new.places ≡ areas.old.places }
{
    let mut place = first;
    for entry in entries.as_slice() {
        if place >= MANY || !all_fit(entry.items.as_slice()) {
            return Ok(None);
        }
        if place >= from && !apply(areas, defs, &entry.items, place)? {
            return Ok(None);
        }
        place += 1;
    }
    Ok(Some(place))
}

/// Tells a log where it ends. False where so many entries don't fit.
fn end_log(log: &mut Log, gate: u64, count: u64) -> bool
    requires { log.old.unsealed ≡ [] }
{
    if gate > 1 << 62 || count > gate {
        return false;
    }
    log.end_at(gate, count, 1);
    true
}

/// Applies the entries of a log from this one on, and tells the log where it ends. False where the site failed, where
/// the log is damaged, or where items can't be applied.
pub(crate) fn apply_log(
    areas: &mut Areas,
    defs: &Defs,
    log: &mut Log,
    site: &mut MemorySite,
    from: u64,
) -> Result<bool, AllocError>
    requires unsealed { log.old.unsealed ≡ [] }
    requires bank { HasBank defs.now areas.old.places }
    ensures { areas.new.places ≡ areas.old.places }
{
    let mut gate = log.gate();
    let mut count = 0;
    'groups: for _ in 0..MANY {
        match log.group_at(site, gate) {
            Ok(Some(group)) => match apply_group(areas, defs, &group.entries, count, from)? {
                Some(behind) => {
                    count = behind;
                    gate = group.next;
                }
                None => return Ok(false),
            },
            Ok(None) => return Ok(end_log(log, gate, count)),
            Err(LogFault::Memory) => return Err(AllocError),
            Err(_) => return Ok(false),
        }
    }
    Ok(false)
}
