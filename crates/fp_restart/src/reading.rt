//! Reading the groups of a log, and putting their segments.
ghost use Rattle.fp_lists.specs.Continued.{IsContinued};
ghost use Rattle.fp_model.specs.Groups.{Groups, Reads};
ghost use Rattle.fp_model.specs.Items.{AreFit, with_items, items_of};
ghost use Rattle.fp_model.specs.State.{start};
ghost use Rattle.fp_model.specs.LogText.{FitsFront, IsFormat, StartsWithFront, first_gate};
ghost use Rattle.fp_model.specs.WellFormed.{IsMsdbDef};
ghost use Rattle.fp_model.specs.declared.log.Entry.{Entry as EntryOf};
ghost use Rattle.fp_restart.specs.inside.Begun.{IsBegunBy};
ghost use Rattle.fp_restart.specs.Replayed.{AreOfSome, IsFirstBadAt, IsReadable, IsReplayed, way_to};
ghost use Rattle.fp_restart.specs.inside.Replayed.{HasNumbersOfSome, IsTaken};
ghost use Rattle.fp_restart.specs.Restarts.{IsBadAt};
ghost use Rattle.fp_restart.specs.declared.fault.RestartFault.TheVariants as faults;
ghost use Rattle.fp_site.specs.Disk.{Stays};
ghost use Rattle.log_groups.specs.Images.{BeginsFor, as_front, in_format};
ghost use Rattle.log_groups.specs.Reads.{HasGroup, ReadsOnlyLog};
ghost use Rattle.fp_model.specs.declared.definitions.MsdbDef.{MsdbDef as DefOf};
ghost use Rattle.msdb_store.specs.Store.{IsFitSegment, IsOf};
ghost use Rattle.std.specs.List.{AllByRecursion};
ghost use Rattle.std.specs.Prelude.{◌≡◌, ◌≢◌, ◌⊎◌, ◌+◌, ◌-◌, ◌<◌, ◌≤◌, ◌^◌, ℕ, [], List as ListOf, IfNone, IfOk, IfSome, IsErrOf, OnOk, false, length, max, slice_index, true};

use crate::RestartFault;
use crate::begun::Begun;
use crate::fitting::are_fit;
use crate::numbers::Numbers;
use crate::restarting::Parts;
use balancing::Lasts;
use fp_model::{Defs, Entry};
use fp_site::Site;
use log_groups::{Front, Group, Log};
use msdb_store::MsdbStore;
use std::alloc::{AllocError, Global};

// Where a data set ends at the latest.
const LIMIT: u64 = 1 << 62;

// A group that was taken: the place of the gate behind it, and how many entries it has.
#[derive(Clone, Copy)]
struct Taken {
    next: u64,
    count: u64,
}

// The log's parts, read from the front on. Nothing changes.
pub(crate) fn read_parts<T: Site>(
    alloc: Global,
    defs: &Defs,
    front: &Front,
    site: &mut T,
) -> Result<Parts, RestartFault>
    requires fits { FitsFront (as_front front.now) }
    requires each { AllByRecursion IsMsdbDef defs.now.msdbs }

    // The groups up to the first gate that isn't open are put.
    ensures replayed { T.told site.old → IfOk result (λ parts. IsReplayed defs.now ((T.disk site.old).contents 0)
        (way_to (first_gate (as_front front.now)) parts.1 parts.2) (start defs.now).msdbs parts.0.msdbs) }
    ensures closed { T.told site.old → IfOk result (λ parts. slice_index ((T.disk site.old).contents 0) parts.1.gate ≢
        1) }
    ensures readable { T.told site.old → OnOk result
        (IsReadable defs.now ((T.disk site.old).contents 0) (first_gate (as_front front.now))) }
    ensures unsealed { IfOk result (λ parts. parts.1.unsealed ≡ []) }
    ensures some { IfOk result (λ parts. AreOfSome parts.1 parts.2) }
    ensures of { IfOk result (λ parts. IsOf defs.now.msdbs parts.0) }

    // When each refusal comes.
    ensures is_format { IfOk result (λ parts. IsFormat parts.1.front_format) }
    ensures front { T.told site.old → IfOk result (λ parts. StartsWithFront ((T.disk site.old).contents 0)
        (in_format parts.1.front_format (as_front front.now))) }
    ensures foreign { T.told site.old → IsErrOf result faults.Foreign
        → BeginsFor (as_front front.now) ((T.disk site.old).contents 0) → ⊥ }
    ensures damaged { (set at : ℕ) → T.told site.old → IsErrOf result (faults.Damaged set at) →
        (set ≡ 0) × IsFirstBadAt defs.now ((T.disk site.old).contents 0) (first_gate (as_front front.now)) at }
    ensures begun { (set at : ℕ) → T.told site.old → IsErrOf result (faults.Damaged set at)
        → BeginsFor (as_front front.now) ((T.disk site.old).contents 0) }
    ensures cause { IsErrOf result faults.SiteFault → (T.faults site.old < T.faults site.new)
        ⊎ (T.faults site.new ≡ 2 ^ 64 - 1) }
    ensures stayed { (IsErrOf result faults.SiteFault → ⊥) → T.faults site.new ≡ T.faults site.old }

    // Nothing changes. Of a log with groups up to a closed gate the front, these and that gate are read at most, each
    // byte once; of any log no more than each of its bytes, and one past its end.
    ensures read { (groups : ListOf (ListOf EntryOf)) (gate : ℕ) → T.told site.old
        → Reads ((T.disk site.old).contents 0) (first_gate (as_front front.now)) (Groups groups gate)
        → T.tells_reads site.new 0 → T.bytes_read site.new 0 ≤ T.bytes_read site.old 0 + gate + 1 }
    ensures exact { T.tells_reads site.new 0 → IfOk result
        (λ parts. T.bytes_read site.new 0 ≡ T.bytes_read site.old 0 + parts.1.gate + 1) }
    ensures no_front { T.told site.old → (BeginsFor (as_front front.now) ((T.disk site.old).contents 0) → ⊥)
        → T.tells_reads site.new 0
        → T.bytes_read site.new 0 ≤ T.bytes_read site.old 0 + first_gate (as_front front.now) }
    ensures once { T.told site.old → T.tells_reads site.new 0
        → T.bytes_read site.new 0 ≤ T.bytes_read site.old 0 + length ((T.disk site.old).contents 0) + 1 }
    ensures only_log { ReadsOnlyLog (T.tells_reads site.old) (T.tells_reads site.new) (T.bytes_read site.old)
        (T.bytes_read site.new) }
    ensures stays { T.told site.old → Stays (T.disk site.old) (T.disk site.new) }
    ensures site { IsContinued T.told T.faults T.holds T.keeps site.old site.new }
{
    let mut log = Log::open(alloc, site, front)?;
    let mut store = MsdbStore::start(alloc, defs)?;
    let lasts = replay(alloc, defs, site, &mut log, &mut store)?;
    Ok((store, log, lasts))
}

// Reads the groups behind a log's gate, puts their segments, and tells the log where it ends. It gives the last number
// of each terminal.
fn replay<T: Site>(
    alloc: Global,
    defs: &Defs,
    site: &mut T,
    log: &mut Log,
    store: &mut MsdbStore,
) -> Result<Lasts, RestartFault>
    requires of { IsOf defs.now.msdbs store.old }
    requires unsealed { log.old.unsealed ≡ [] }
    requires gate { log.old.gate ≤ 2 ^ 62 }
    ensures replayed { T.told site.old → IfOk result (λ lasts. IsReplayed defs.now ((T.disk site.old).contents 0)
        (way_to log.old.gate log.new lasts) store.old.msdbs store.new.msdbs) }
    ensures front_format { OnOk result (log.new.front_format ≡ log.old.front_format) }
    ensures some { IfOk result (λ lasts. AreOfSome log.new lasts) }
    ensures closed { T.told site.old → OnOk result (slice_index ((T.disk site.old).contents 0) log.new.gate ≢ 1) }
    ensures unsealed { OnOk result (log.new.unsealed ≡ []) }
    ensures of { OnOk result (IsOf defs.now.msdbs store.new) }
    ensures damaged { (set at : ℕ) → T.told site.old → IsErrOf result (faults.Damaged set at) →
        (set ≡ 0) × IsFirstBadAt defs.now ((T.disk site.old).contents 0) log.old.gate at }
    ensures cause { IsErrOf result faults.SiteFault → (T.faults site.old < T.faults site.new)
        ⊎ (T.faults site.new ≡ 2 ^ 64 - 1) }
    ensures stayed { (IsErrOf result faults.SiteFault → ⊥) → T.faults site.new ≡ T.faults site.old }
    ensures never { IsErrOf result faults.Foreign → ⊥ }

    // Nothing changes. The groups up to a closed gate, and that gate, are read at most, each byte once.
    ensures read { (groups : ListOf (ListOf EntryOf)) (gate : ℕ) → T.told site.old
        → Reads ((T.disk site.old).contents 0) log.old.gate (Groups groups gate) → T.tells_reads site.new 0
        → T.bytes_read site.new 0 + log.old.gate ≤ T.bytes_read site.old 0 + gate + 1 }
    ensures exact { T.tells_reads site.new 0 → OnOk result
        (T.bytes_read site.new 0 + log.old.gate ≡ T.bytes_read site.old 0 + log.new.gate + 1) }
    ensures once { T.told site.old → T.tells_reads site.new 0 → T.bytes_read site.new 0 + log.old.gate
        ≤ T.bytes_read site.old 0 + max log.old.gate (length ((T.disk site.old).contents 0)) + 1 }
    ensures only_log { ReadsOnlyLog (T.tells_reads site.old) (T.tells_reads site.new) (T.bytes_read site.old)
        (T.bytes_read site.new) }
    ensures stays { T.told site.old → Stays (T.disk site.old) (T.disk site.new) }
    ensures site { IsContinued T.told T.faults T.holds T.keeps site.old site.new }
{
    let mut begun = Begun::new(alloc);
    let mut numbers = Numbers::new(alloc, log.front_format())?;
    let mut at = log.gate();
    let mut count = 0;
    loop {
        let Some(taken) = take_group(alloc, defs, site, log, &mut begun, &mut numbers, store, at)?
        else {
            log.end_at(at, count, numbers.format);
            return Ok(numbers.lasts);
        };
        at = taken.next;
        count += taken.count;
    }
}

// Reads the group behind the gate at this place, puts its segments, and adds its numbers; the intervals begun are those
// of the entries so far. None where that gate isn't open.
fn take_group<T: Site>(
    alloc: Global,
    defs: &Defs,
    site: &mut T,
    log: &mut Log,
    begun: &mut Begun,
    numbers: &mut Numbers,
    store: &mut MsdbStore,
    at: u64,
) -> Result<Option<Taken>, RestartFault>
    requires { IsOf defs.now.msdbs store.old }
    ensures taken { (earlier : ListOf EntryOf) → IsBegunBy begun.old (items_of earlier)
        → AreFit defs.now (items_of earlier)
        → T.told site.old → IfOk result (λ found. IfSome found (λ taken. IsTaken defs.now ((T.disk site.old).contents 0)
        earlier at taken.next taken.count begun.new numbers.old numbers.new store.old.msdbs store.new.msdbs)) }
    ensures goes_on { IfOk result (λ found. IfSome found
        (λ taken. (at < taken.next) × (taken.next ≤ 2 ^ 62) × (at + taken.count ≤ taken.next))) }
    ensures closed { T.told site.old → IfOk result (λ found. IfNone found
        (slice_index ((T.disk site.old).contents 0) at ≢ 1)) }
    ensures none { IfOk result (λ found. IfNone found (store.new ≡ store.old)) }
    ensures some { IfOk result (λ found. IfSome found
        (λ taken. HasNumbersOfSome taken.count numbers.old numbers.new)) }
    ensures no_more { IfOk result (λ found. IfNone found (numbers.new ≡ numbers.old)) }
    ensures of { OnOk result (IsOf defs.now.msdbs store.new) }
    ensures damaged { (earlier : ListOf EntryOf) → IsBegunBy begun.old (items_of earlier)
        → AreFit defs.now (items_of earlier)
        → (set place : ℕ) → T.told site.old → IsErrOf result (faults.Damaged set place)
        → (set ≡ 0) × (place ≡ at) × IsBadAt defs.now ((T.disk site.old).contents 0) earlier at }
    ensures cause { IsErrOf result faults.SiteFault → (T.faults site.old < T.faults site.new)
        ⊎ (T.faults site.new ≡ 2 ^ 64 - 1) }
    ensures stayed { (IsErrOf result faults.SiteFault → ⊥) → T.faults site.new ≡ T.faults site.old }
    ensures never { IsErrOf result faults.Foreign → ⊥ }
    ensures log { log.new ≡ log.old }

    // Nothing changes. The group's bytes are read once, or one byte where there is none; and whatever the answer is no
    // more, and nothing behind the log's end.
    ensures count { T.tells_reads site.new 0 → IfOk result (λ found. IfSome found
        (λ taken. T.bytes_read site.new 0 + at ≡ T.bytes_read site.old 0 + taken.next)) }
    ensures looked { T.tells_reads site.new 0 → IfOk result (λ found. IfNone found
        (T.bytes_read site.new 0 ≡ T.bytes_read site.old 0 + 1)) }
    ensures most { (entries : ListOf EntryOf) (next : ℕ) → T.told site.old
        → HasGroup ((T.disk site.old).contents 0) at entries next → T.tells_reads site.new 0
        → T.bytes_read site.new 0 + at ≤ T.bytes_read site.old 0 + next }
    ensures one { T.told site.old → slice_index ((T.disk site.old).contents 0) at ≢ 1 → T.tells_reads site.new 0
        → T.bytes_read site.new 0 ≤ T.bytes_read site.old 0 + 1 }
    ensures inside { T.told site.old → T.tells_reads site.new 0 → T.bytes_read site.new 0 + at
        ≤ T.bytes_read site.old 0 + max (at + 1) (length ((T.disk site.old).contents 0)) }
    ensures only_log { ReadsOnlyLog (T.tells_reads site.old) (T.tells_reads site.new) (T.bytes_read site.old)
        (T.bytes_read site.new) }
    ensures stays { T.told site.old → Stays (T.disk site.old) (T.disk site.new) }
    ensures site { IsContinued T.told T.faults T.holds T.keeps site.old site.new }
{
    let Some(group) = log.group_at(site, at)? else {
        return Ok(None);
    };
    if !stands_behind(&group, at) {
        // A site that tells what it holds never comes here.
        return Err(RestartFault::Damaged { set: 0, at });
    }
    if !are_fit(defs, begun, group.entries.as_slice())? {
        return Err(RestartFault::Damaged { set: 0, at });
    }
    put_entries(store, group.entries.as_slice())?;
    numbers.add(alloc, group.entries.as_slice())?;
    Ok(Some(Taken {
        next: group.next,
        count: group.entries.len() as u64,
    }))
}

// Whether a group's end is behind its gate, by more bytes than it has entries, and within a data set.
fn stands_behind(group: &Group, at: u64) -> bool
    ensures is { result ≡ true → (at < group.now.next) × (group.now.next ≤ 2 ^ 62)
        × (at + length group.now.entries ≤ group.now.next) }
    ensures not { result ≡ false → at < group.now.next → group.now.next ≤ 2 ^ 62
        → at + length group.now.entries ≤ group.now.next → ⊥ }
{
    at < group.next && group.next <= LIMIT && group.entries.len() as u64 <= group.next - at
}

// Puts the segments of these entries in their order. It fails only for want of memory; then the store is to be thrown
// away.
fn put_entries(store: &mut MsdbStore, entries: &[Entry]) -> Result<(), AllocError>
    ensures msdbs { (defs : ListOf DefOf) → IsOf defs store.old
        → AllByRecursion (IsFitSegment defs) (items_of entries.now)
        → OnOk result (store.new.msdbs ≡ with_items defs store.old.msdbs (items_of entries.now)) }
    ensures of { (defs : ListOf DefOf) → IsOf defs store.old → AllByRecursion (IsFitSegment defs) (items_of entries.now)
        → IsOf defs store.new }
{
    for entry in entries {
        store.apply(&entry.items)?;
    }
    Ok(())
}
