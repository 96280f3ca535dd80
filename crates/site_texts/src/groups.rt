//! The text of the log.
ghost use Rattle.fp_model.specs.LogText.{FitsFront};
ghost use Rattle.fp_restart.specs.declared.fault.RestartFault.TheVariants as faults;
ghost use Rattle.log_groups.specs.Images.{BeginsFor, as_front};
ghost use Rattle.log_groups.specs.Reads.{HasGroup, ReadsOnlyLog};
ghost use Rattle.fp_model.specs.Groups.{Groups, IsDamaged, Reads};
ghost use Rattle.fp_model.specs.declared.log.Entry.{Entry as EntryOf};
ghost use Rattle.site_texts.specs.inside.Groups.{AreAllSent, AreSentToDamage, IsOneSent, SendsFrom, SendsOne};
ghost use Rattle.fp_lists.specs.Continued.{IsContinued};
ghost use Rattle.site_texts.specs.Texts.{IsLogSent, IsSentToDamage, ReadsOnce, SendsGroups};
ghost use Rattle.fp_site.specs.Disk.{Stays};
ghost use Rattle.std.specs.Prelude.{◌≡◌, ◌≢◌, ◌⊎◌, ◌+◌, ◌-◌, ◌<◌, ◌≤◌, ◌^◌, ℕ, false, length, slice_index, true, IfNone, IfOk, IfSome, IsErrOf, List as ListOf, OnOk, max};

use fp_restart::RestartFault;
use fp_show::show_group;
use fp_site::Site;
use log_groups::{Front, Group, Log};
use std::alloc::Global;

// Where a data set ends at the latest.
const LIMIT: u64 = 1 << 62;

/// Sends the text of the log's groups, one after another, as each is read: so the groups before a damaged one are sent.
/// Nothing is written and nothing synced, and one group is in memory at a time.
///
/// `Foreign` comes exactly where the log begins with the open front in neither format, and nothing is sent then.
/// `Damaged` names the first gate with bytes behind it that are no group. Items aren't applied, so one that doesn't fit
/// the definitions is no damage here.
pub fn log<T: Site>(alloc: Global, front: &Front, site: &mut T) -> Result<(), RestartFault>
    requires fits { FitsFront (as_front front.now) }

    // At Ok the text of the whole log is sent, and else a first part of it.
    ensures shown { T.told site.old
        → OnOk result (IsLogSent (as_front front.now) (T.disk site.old) (T.disk site.new)) }
    ensures sends { T.told site.old → SendsGroups (as_front front.now) (T.disk site.old) (T.disk site.new) }

    // When each refusal comes.
    ensures foreign { T.told site.old → IsErrOf result faults.Foreign
        → ((T.disk site.new).sent ≡ (T.disk site.old).sent)
        × (BeginsFor (as_front front.now) ((T.disk site.old).contents 0) → ⊥) }
    ensures damaged { (set at : ℕ) → T.told site.old → IsErrOf result (faults.Damaged set at)
        → (set ≡ 0) × IsSentToDamage (as_front front.now) at (T.disk site.old) (T.disk site.new) }
    ensures cause { IsErrOf result faults.SiteFault → (T.faults site.old < T.faults site.new)
        ⊎ (T.faults site.new ≡ 2 ^ 64 - 1) }
    ensures stayed { (IsErrOf result faults.SiteFault → ⊥) → T.faults site.new ≡ T.faults site.old }

    // Each byte of the log is read once, and no other data set.
    ensures once { T.told site.old → T.tells_reads site.new 0 → ReadsOnce (as_front front.now)
        ((T.disk site.old).contents 0) (T.bytes_read site.old 0) (T.bytes_read site.new 0) }
    ensures only_log { ReadsOnlyLog (T.tells_reads site.old) (T.tells_reads site.new) (T.bytes_read site.old)
        (T.bytes_read site.new) }
    ensures site { IsContinued T.told T.faults T.holds T.keeps site.old site.new }
{
    let mut log = Log::open(alloc, site, front)?;
    let first = log.gate();
    send_groups(alloc, &mut log, site, first)
}

// How far a log was read: the next gate, how many groups stand before it, and how many entries.
#[derive(Clone, Copy)]
struct Place {
    at: u64,
    groups: u64,
    entries: u64,
}

// Sends the text of the groups from a gate on.
fn send_groups<T: Site>(
    alloc: Global,
    log: &mut Log,
    site: &mut T,
    first: u64,
) -> Result<(), RestartFault>
    requires { first ≤ 2 ^ 62 }
    ensures shown { T.told site.old → OnOk result (AreAllSent first (T.disk site.old) (T.disk site.new)) }
    ensures sends { T.told site.old → SendsFrom first (T.disk site.old) (T.disk site.new) }
    ensures damaged { (set at : ℕ) → T.told site.old → IsErrOf result (faults.Damaged set at)
        → (set ≡ 0) × AreSentToDamage first at (T.disk site.old) (T.disk site.new) }
    ensures never { IsErrOf result faults.Foreign → ⊥ }
    ensures cause { IsErrOf result faults.SiteFault → (T.faults site.old < T.faults site.new)
        ⊎ (T.faults site.new ≡ 2 ^ 64 - 1) }
    ensures stayed { (IsErrOf result faults.SiteFault → ⊥) → T.faults site.new ≡ T.faults site.old }

    // The groups up to a closed gate, and that gate, are read at most, each byte once.
    ensures read { (groups : ListOf (ListOf EntryOf)) (gate : ℕ) → T.told site.old
        → Reads ((T.disk site.old).contents 0) first (Groups groups gate) → T.tells_reads site.new 0
        → T.bytes_read site.new 0 + first ≤ T.bytes_read site.old 0 + gate + 1 }
    ensures once { T.told site.old → T.tells_reads site.new 0 → T.bytes_read site.new 0 + first
        ≤ T.bytes_read site.old 0 + max first (length ((T.disk site.old).contents 0)) + 1 }
    ensures only_log { ReadsOnlyLog (T.tells_reads site.old) (T.tells_reads site.new) (T.bytes_read site.old)
        (T.bytes_read site.new) }
    ensures site { IsContinued T.told T.faults T.holds T.keeps site.old site.new }
{
    let mut place = Place {
        at: first,
        groups: 0,
        entries: 0,
    };
    loop {
        let Some(next) = send_group(alloc, log, site, place)? else {
            return Ok(());
        };
        place = next;
    }
}

// Reads the group at a place and sends its text. None where the gate there isn't open.
fn send_group<T: Site>(
    alloc: Global,
    log: &mut Log,
    site: &mut T,
    place: Place,
) -> Result<Option<Place>, RestartFault>
    requires at { place.at ≤ 2 ^ 62 }
    requires groups { place.groups ≤ place.at }
    requires entries { place.entries ≤ place.at }
    ensures goes_on { IfOk result (λ next. IfSome next
        (λ n. (place.at < n.at) × (n.at ≤ 2 ^ 62) × (n.groups ≤ n.at) × (n.entries ≤ n.at))) }
    ensures some { T.told site.old → IfOk result (λ next. IfSome next
        (λ n. IsOneSent place n (T.disk site.old) (T.disk site.new))) }
    ensures none { T.told site.old → IfOk result (λ next. IfNone next
        ((slice_index ((T.disk site.old).contents 0) place.at ≢ 1) × Stays (T.disk site.old) (T.disk site.new))) }
    ensures part { T.told site.old → SendsOne place (T.disk site.old) (T.disk site.new) }
    ensures damaged { (set at : ℕ) → T.told site.old → IsErrOf result (faults.Damaged set at)
        → (set ≡ 0) × (at ≡ place.at) × IsDamaged ((T.disk site.old).contents 0) at
        × Stays (T.disk site.old) (T.disk site.new) }
    ensures never { IsErrOf result faults.Foreign → ⊥ }
    ensures cause { IsErrOf result faults.SiteFault → (T.faults site.old < T.faults site.new)
        ⊎ (T.faults site.new ≡ 2 ^ 64 - 1) }
    ensures stayed { (IsErrOf result faults.SiteFault → ⊥) → T.faults site.new ≡ T.faults site.old }

    // The group's bytes are read once, or one byte where there is none; and whatever the answer is no more, and nothing
    // behind the log's end.
    ensures count { T.tells_reads site.new 0 → IfOk result (λ next. IfSome next
        (λ n. T.bytes_read site.new 0 + place.at ≡ T.bytes_read site.old 0 + n.at)) }
    ensures most { (entries : ListOf EntryOf) (end : ℕ) → T.told site.old
        → HasGroup ((T.disk site.old).contents 0) place.at entries end → T.tells_reads site.new 0
        → T.bytes_read site.new 0 + place.at ≤ T.bytes_read site.old 0 + end }
    ensures one { T.told site.old → slice_index ((T.disk site.old).contents 0) place.at ≢ 1
        → T.tells_reads site.new 0 → T.bytes_read site.new 0 ≤ T.bytes_read site.old 0 + 1 }
    ensures inside { T.told site.old → T.tells_reads site.new 0 → T.bytes_read site.new 0 + place.at
        ≤ T.bytes_read site.old 0 + max (place.at + 1) (length ((T.disk site.old).contents 0)) }
    ensures only_log { ReadsOnlyLog (T.tells_reads site.old) (T.tells_reads site.new) (T.bytes_read site.old)
        (T.bytes_read site.new) }
    ensures site { IsContinued T.told T.faults T.holds T.keeps site.old site.new }
{
    let Some(group) = log.group_at(site, place.at)? else {
        return Ok(None);
    };
    if !stands_behind(&group, place.at) {
        // A site that tells what it holds never comes here.
        return Err(RestartFault::Damaged {
            set: 0,
            at: place.at,
        });
    }
    let text = show_group(alloc, place.groups, place.entries, &group.entries)?;
    site.send(text.as_slice())?;
    Ok(Some(Place {
        at: group.next,
        groups: place.groups + 1,
        entries: place.entries + group.entries.len() as u64,
    }))
}

// Whether a group's end is behind its gate, by more bytes than it has entries, and within a data set.
fn stands_behind(group: &Group, at: u64) -> bool
    ensures is { result ≡ true → (at < group.now.next) × (group.now.next ≤ 2 ^ 62)
        × (at + length group.now.entries ≤ group.now.next) }
    ensures not { result ≡ false → at < group.now.next → group.now.next ≤ 2 ^ 62
        → at + length group.now.entries ≤ group.now.next → ⊥ }
{
    at < group.next && group.next <= LIMIT && group.entries.len() as u64 <= group.next - at
}
