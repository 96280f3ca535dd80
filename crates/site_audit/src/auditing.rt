//! The audit of a log's groups.
ghost use Rattle.fp_lists.specs.Continued.{IsContinued};
ghost use Rattle.fp_audit.specs.Setup.{AreSpread, CanAudit};
ghost use Rattle.fp_audit.specs.Standing.{IsAt, rules_in};
ghost use Rattle.fp_exits.specs.Kinds.{kinds_of};
ghost use Rattle.fp_model.specs.Groups.{Groups, IsDamaged, Reads};
ghost use Rattle.fp_model.specs.History.{History, beginning};
ghost use Rattle.fp_model.specs.LogText.{FitsFront};
ghost use Rattle.fp_model.specs.declared.log.Entry.{Entry as EntryOf};
ghost use Rattle.fp_site.specs.Disk.{Stays};
ghost use Rattle.fp_site.specs.Site.{ReadsNothing};
ghost use Rattle.log_groups.specs.Images.{BeginsFor, as_front, in_format};
ghost use Rattle.log_groups.specs.Kept.{IsSound};
ghost use Rattle.log_groups.specs.Reads.{HasGroup, ReadsOnlyLog};
ghost use Rattle.site_audit.specs.inside.Judged.{AreBroken, AreRead, ComesTo, GoesOnTo, IsOneRead};
ghost use Rattle.site_audit.specs.Legal.{IsBrokenAt, IsIllegalLog, IsLegalLog};
ghost use Rattle.site_audit.specs.Verdicts.{SendsVerdict, legal_text};
ghost use Rattle.site_audit.specs.declared.fault.AuditFault.TheVariants as faults;
ghost use Rattle.site_texts.specs.Sent.{HasSent, HasSentPart};
ghost use Rattle.site_texts.specs.Texts.{ReadsOnce};
ghost use Rattle.std.specs.Prelude.{◌≡◌, ◌≢◌, ◌⊎◌, ◌+◌, ◌-◌, ◌<◌, ◌≤◌, ◌^◌, ℕ, false, length, slice_index, true, IfErr, IfNone, IfOk, IfSome, IsErrOf, List as ListOf, None, OnOk, Some, max};

use crate::AuditFault;
use fp_audit::Auditor;
use fp_exits::Exits;
use fp_model::{Bytes, Defs, Entry};
use fp_site::Site;
use log_groups::{Front, Group, Log};
use std::alloc::{AllocError, Global};
use txn_lang::Scripts;

// Where a data set ends at the latest.
const LIMIT: u64 = 1 << 62;

/// Runs the log's entries again, one after another from its first, and tells how many they are where all are legal; then
/// it sends `legal`, that number and a newline. Nothing is written and nothing synced, and one group is in memory at a
/// time, beside the databases and the values that they had.
///
/// `Foreign` comes exactly where the log begins with the open front in neither format. `Damaged` names the first gate with
/// bytes behind it that are no group, also where an entry in front of it isn't legal. Items aren't applied, so one that
/// doesn't fit the definitions is no damage here. `Illegal` names the first entry that isn't legal behind those before it,
/// of a log that can be read to its end. With neither of them is anything sent.
pub fn audit<T: Site>(
    alloc: Global,
    defs: &Defs,
    scripts: &Scripts,
    exits: &Exits,
    front: &Front,
    site: &mut T,
) -> Result<u64, AuditFault>
    requires fits { FitsFront (as_front front.now) }
    requires can { CanAudit defs.now scripts.now.scripts }
    requires spread { AreSpread defs.now (kinds_of exits.now) }

    // At Ok all entries are legal, and their number is sent.
    ensures legal { T.told site.old → IfOk result
        (λ count. IsLegalLog defs.now scripts.now.scripts (as_front front.now) ((T.disk site.old).contents 0) count) }
    ensures sent { T.told site.old → IfOk result
        (λ count. HasSent (T.disk site.old) (T.disk site.new) (legal_text count)) }
    ensures sends { T.told site.old
        → SendsVerdict defs.now scripts.now.scripts (as_front front.now) (T.disk site.old) (T.disk site.new) }

    // When each refusal comes; none but that of the site sends anything.
    ensures illegal { (entry : ℕ) → T.told site.old → IsErrOf result (faults.Illegal entry) →
        IsIllegalLog defs.now scripts.now.scripts (as_front front.now) ((T.disk site.old).contents 0) entry }
    ensures foreign { T.told site.old → IsErrOf result faults.Foreign
        → BeginsFor (as_front front.now) ((T.disk site.old).contents 0) → ⊥ }
    ensures damaged { (at : ℕ) → T.told site.old → IsErrOf result (faults.Damaged at) →
        IsBrokenAt (as_front front.now) ((T.disk site.old).contents 0) at }
    ensures silent { T.told site.old → IfErr result (λ why. ¬ (why ≡ faults.SiteFault)
        → Stays (T.disk site.old) (T.disk site.new)) }
    ensures cause { IsErrOf result faults.SiteFault → (T.faults site.old < T.faults site.new)
        ⊎ (T.faults site.new ≡ 2 ^ 64 - 1) }
    ensures stayed { (IsErrOf result faults.SiteFault → ⊥) → T.faults site.new ≡ T.faults site.old }

    // A sound log has no entry that isn't legal, and is known by the number of its entries.
    ensures never { (format entry : ℕ) (entries : ListOf EntryOf) → T.told site.old
        → IsSound defs.now scripts.now.scripts (in_format format (as_front front.now)) ((T.disk site.old).contents 0)
        entries → IsErrOf result (faults.Illegal entry) → ⊥ }
    ensures means { (format : ℕ) (entries : ListOf EntryOf) → T.told site.old
        → IsSound defs.now scripts.now.scripts (in_format format (as_front front.now)) ((T.disk site.old).contents 0)
        entries → IfOk result (λ count. count ≡ length entries) }

    // Each byte of the log is read once, and no other data set.
    ensures once { T.told site.old → T.tells_reads site.new 0 → ReadsOnce (as_front front.now)
        ((T.disk site.old).contents 0) (T.bytes_read site.old 0) (T.bytes_read site.new 0) }
    ensures only_log { ReadsOnlyLog (T.tells_reads site.old) (T.tells_reads site.new) (T.bytes_read site.old)
        (T.bytes_read site.new) }
    ensures site { IsContinued T.told T.faults T.holds T.keeps site.old site.new }
{
    let end = read_log(alloc, defs, scripts, exits, front, site)?;
    match end.illegal {
        Some(entry) => Err(AuditFault::Illegal(entry)),
        None => {
            send_legal(alloc, site, end.entries)?;
            Ok(end.entries)
        }
    }
}

// How far a log was judged: the next gate, how many entries stand before it, and the first of them that isn't legal.
#[derive(Clone, Copy)]
struct Place {
    at: u64,
    entries: u64,
    illegal: Option<u64>,
}

// Reads and judges the whole log.
fn read_log<T: Site>(
    alloc: Global,
    defs: &Defs,
    scripts: &Scripts,
    exits: &Exits,
    front: &Front,
    site: &mut T,
) -> Result<Place, AuditFault>
    requires fits { FitsFront (as_front front.now) }
    requires can { CanAudit defs.now scripts.now.scripts }
    requires spread { AreSpread defs.now (kinds_of exits.now) }
    ensures legal { T.told site.old → IfOk result (λ end. end.illegal ≡ None →
        IsLegalLog defs.now scripts.now.scripts (as_front front.now) ((T.disk site.old).contents 0) end.entries) }
    ensures illegal { (entry : ℕ) → T.told site.old → IfOk result (λ end. end.illegal ≡ Some entry →
        IsIllegalLog defs.now scripts.now.scripts (as_front front.now) ((T.disk site.old).contents 0) entry) }
    ensures foreign { T.told site.old → IsErrOf result faults.Foreign
        → BeginsFor (as_front front.now) ((T.disk site.old).contents 0) → ⊥ }
    ensures damaged { (at : ℕ) → T.told site.old → IsErrOf result (faults.Damaged at) →
        IsBrokenAt (as_front front.now) ((T.disk site.old).contents 0) at }
    ensures never { (entry : ℕ) → IsErrOf result (faults.Illegal entry) → ⊥ }
    ensures cause { IsErrOf result faults.SiteFault → (T.faults site.old < T.faults site.new)
        ⊎ (T.faults site.new ≡ 2 ^ 64 - 1) }
    ensures stayed { (IsErrOf result faults.SiteFault → ⊥) → T.faults site.new ≡ T.faults site.old }

    // Nothing changes. Each byte of the log is read once, and no other data set.
    ensures once { T.told site.old → T.tells_reads site.new 0 → ReadsOnce (as_front front.now)
        ((T.disk site.old).contents 0) (T.bytes_read site.old 0) (T.bytes_read site.new 0) }
    ensures only_log { ReadsOnlyLog (T.tells_reads site.old) (T.tells_reads site.new) (T.bytes_read site.old)
        (T.bytes_read site.new) }
    ensures stays { T.told site.old → Stays (T.disk site.old) (T.disk site.new) }
    ensures site { IsContinued T.told T.faults T.holds T.keeps site.old site.new }
{
    let mut log = Log::open(alloc, site, front)?;
    let mut auditor = Auditor::new(alloc, defs, scripts, log.format())?;
    audit_groups(&mut log, &mut auditor, exits, site)
}

// Reads and judges all groups from a log's gate on, up to the first gate that isn't open.
fn audit_groups<T: Site>(
    log: &mut Log,
    auditor: &mut Auditor,
    exits: &Exits,
    site: &mut T,
) -> Result<Place, AuditFault>
    requires gate { log.old.gate ≤ 2 ^ 62 }
    requires spread { AreSpread auditor.old.defs (kinds_of exits.now) }
    ensures whole { (format : ℕ) → IsAt auditor.old (beginning format (rules_in auditor.old).start) → T.told site.old
        → IfOk result (λ end. AreRead (rules_in auditor.old) format (IsAt auditor.new) ((T.disk site.old).contents 0)
        log.old.gate end) }
    ensures closed { T.told site.old → IfOk result
        (λ end. slice_index ((T.disk site.old).contents 0) end.at ≢ 1) }
    ensures damaged { (at : ℕ) → T.told site.old → IsErrOf result (faults.Damaged at)
        → AreBroken ((T.disk site.old).contents 0) log.old.gate at }
    ensures never { (IsErrOf result faults.Foreign → ⊥) × ((entry : ℕ) → IsErrOf result (faults.Illegal entry) → ⊥) }
    ensures cause { IsErrOf result faults.SiteFault → (T.faults site.old < T.faults site.new)
        ⊎ (T.faults site.new ≡ 2 ^ 64 - 1) }
    ensures stayed { (IsErrOf result faults.SiteFault → ⊥) → T.faults site.new ≡ T.faults site.old }

    // Nothing changes. The groups up to a gate that isn't open, and that gate, are read at most, each byte once.
    ensures read { (groups : ListOf (ListOf EntryOf)) (gate : ℕ) → T.told site.old
        → Reads ((T.disk site.old).contents 0) log.old.gate (Groups groups gate) → T.tells_reads site.new 0
        → T.bytes_read site.new 0 + log.old.gate ≤ T.bytes_read site.old 0 + gate + 1 }
    ensures once { T.told site.old → T.tells_reads site.new 0 → T.bytes_read site.new 0 + log.old.gate
        ≤ T.bytes_read site.old 0 + max log.old.gate (length ((T.disk site.old).contents 0)) + 1 }
    ensures only_log { ReadsOnlyLog (T.tells_reads site.old) (T.tells_reads site.new) (T.bytes_read site.old)
        (T.bytes_read site.new) }
    ensures stays { T.told site.old → Stays (T.disk site.old) (T.disk site.new) }
    ensures site { IsContinued T.told T.faults T.holds T.keeps site.old site.new }
{
    let mut place = Place {
        at: log.gate(),
        entries: 0,
        illegal: None,
    };
    loop {
        let Some(next) = audit_group(log, auditor, exits, site, place)? else {
            return Ok(place);
        };
        place = next;
    }
}

// Reads the group at a place, and judges its entries where those before it are legal. None where the gate there isn't
// open.
fn audit_group<T: Site>(
    log: &mut Log,
    auditor: &mut Auditor,
    exits: &Exits,
    site: &mut T,
    place: Place,
) -> Result<Option<Place>, AuditFault>
    requires at { place.at ≤ 2 ^ 62 }
    requires entries { place.entries ≤ place.at }
    requires spread { AreSpread auditor.old.defs (kinds_of exits.now) }
    ensures goes_on { IfOk result (λ next. IfSome next
        (λ n. (place.at < n.at) × (n.at ≤ 2 ^ 62) × (n.entries ≤ n.at))) }
    ensures some { T.told site.old → IfOk result (λ next. IfSome next (λ n. IsOneRead (rules_in auditor.old)
        (IsAt auditor.old) (IsAt auditor.new) ((T.disk site.old).contents 0) place n)) }
    ensures none { T.told site.old → IfOk result (λ next. IfNone next
        (slice_index ((T.disk site.old).contents 0) place.at ≢ 1)) }
    ensures kept { IfOk result (λ next. IfNone next (auditor.new ≡ auditor.old)) }
    ensures rules { rules_in auditor.new ≡ rules_in auditor.old }
    ensures defs { auditor.new.defs ≡ auditor.old.defs }
    ensures damaged { (at : ℕ) → T.told site.old → IsErrOf result (faults.Damaged at)
        → (at ≡ place.at) × IsDamaged ((T.disk site.old).contents 0) at }
    ensures never { (IsErrOf result faults.Foreign → ⊥) × ((entry : ℕ) → IsErrOf result (faults.Illegal entry) → ⊥) }
    ensures cause { IsErrOf result faults.SiteFault → (T.faults site.old < T.faults site.new)
        ⊎ (T.faults site.new ≡ 2 ^ 64 - 1) }
    ensures stayed { (IsErrOf result faults.SiteFault → ⊥) → T.faults site.new ≡ T.faults site.old }
    ensures same { log.new ≡ log.old }

    // Nothing changes. The group's bytes are read once, or one byte where there is none; and whatever the answer is no
    // more, and nothing behind the log's end.
    ensures count { T.tells_reads site.new 0 → IfOk result (λ next. IfSome next
        (λ n. T.bytes_read site.new 0 + place.at ≡ T.bytes_read site.old 0 + n.at)) }
    ensures most { (entries : ListOf EntryOf) (end : ℕ) → T.told site.old
        → HasGroup ((T.disk site.old).contents 0) place.at entries end → T.tells_reads site.new 0
        → T.bytes_read site.new 0 + place.at ≤ T.bytes_read site.old 0 + end }
    ensures one { T.told site.old → slice_index ((T.disk site.old).contents 0) place.at ≢ 1
        → T.tells_reads site.new 0 → T.bytes_read site.new 0 ≤ T.bytes_read site.old 0 + 1 }
    ensures inside { T.told site.old → T.tells_reads site.new 0 → T.bytes_read site.new 0 + place.at
        ≤ T.bytes_read site.old 0 + max (place.at + 1) (length ((T.disk site.old).contents 0)) }
    ensures only_log { ReadsOnlyLog (T.tells_reads site.old) (T.tells_reads site.new) (T.bytes_read site.old)
        (T.bytes_read site.new) }
    ensures stays { T.told site.old → Stays (T.disk site.old) (T.disk site.new) }
    ensures site { IsContinued T.told T.faults T.holds T.keeps site.old site.new }
{
    let Some(group) = log.group_at(site, place.at)? else {
        return Ok(None);
    };
    if !stands_behind(&group, place.at) {
        // A site that tells what it holds never comes here.
        return Err(AuditFault::Damaged(place.at));
    }
    let illegal = first_illegal(auditor, exits, group.entries.as_slice(), place)?;
    Ok(Some(Place {
        at: group.next,
        entries: place.entries + group.entries.len() as u64,
        illegal,
    }))
}

// The place of the first entry that isn't legal, of those before a place and these behind it.
fn first_illegal(
    auditor: &mut Auditor,
    exits: &Exits,
    entries: &[Entry],
    place: Place,
) -> Result<Option<u64>, AllocError>
    requires few { place.entries + length entries.now ≤ 2 ^ 62 }
    requires spread { AreSpread auditor.old.defs (kinds_of exits.now) }
    ensures found { IfOk result (GoesOnTo (rules_in auditor.old) (IsAt auditor.old) (IsAt auditor.new) entries.now
        place.entries place.illegal) }
    ensures rules { rules_in auditor.new ≡ rules_in auditor.old }
    ensures defs { auditor.new.defs ≡ auditor.old.defs }
{
    match place.illegal {
        Some(entry) => Ok(Some(entry)),
        None => judge(auditor, exits, entries, place.entries),
    }
}

// Hands entries to an auditor up to the first that isn't legal, and tells the place of that one. The first of them has
// this place in the log.
fn judge(
    auditor: &mut Auditor,
    exits: &Exits,
    entries: &[Entry],
    first: u64,
) -> Result<Option<u64>, AllocError>
    requires few { first + length entries.now ≤ 2 ^ 62 }
    requires spread { AreSpread auditor.old.defs (kinds_of exits.now) }
    ensures found { (h : History) → IsAt auditor.old h
        → IfOk result (ComesTo (rules_in auditor.old) (IsAt auditor.new) h entries.now first) }
    ensures rules { rules_in auditor.new ≡ rules_in auditor.old }
    ensures defs { auditor.new.defs ≡ auditor.old.defs }
{
    for (number, entry) in entries.iter().enumerate() {
        if !auditor.next(exits, entry)? {
            return Ok(Some(first + number as u64));
        }
    }
    Ok(None)
}

// Whether a group's end is behind its gate, by more bytes than it has entries, and within a data set.
fn stands_behind(group: &Group, at: u64) -> bool
    ensures is { result ≡ true → (at < group.now.next) × (group.now.next ≤ 2 ^ 62)
        × (at + length group.now.entries ≤ group.now.next) }
    ensures not { result ≡ false → at < group.now.next → group.now.next ≤ 2 ^ 62
        → at + length group.now.entries ≤ group.now.next → ⊥ }
{
    at < group.next && group.next <= LIMIT && group.entries.len() as u64 <= group.next - at
}

// Sends the line of a log whose entries, so many, are all legal.
fn send_legal<T: Site>(alloc: Global, site: &mut T, count: u64) -> Result<(), AuditFault>
    ensures sent { T.told site.old → OnOk result (HasSent (T.disk site.old) (T.disk site.new) (legal_text count)) }
    ensures part { T.told site.old → HasSentPart (T.disk site.old) (T.disk site.new) (legal_text count) }
    ensures silent { T.told site.old → IfErr result (λ why. ¬ (why ≡ faults.SiteFault)
        → Stays (T.disk site.old) (T.disk site.new)) }
    ensures never { IfErr result (λ why. (why ≡ faults.SiteFault) ⊎ (why ≡ faults.Memory)) }
    ensures cause { IsErrOf result faults.SiteFault → (T.faults site.old < T.faults site.new)
        ⊎ (T.faults site.new ≡ 2 ^ 64 - 1) }
    ensures stayed { (IsErrOf result faults.SiteFault → ⊥) → T.faults site.new ≡ T.faults site.old }
    ensures reads { ReadsNothing (T.tells_reads site.old) (T.tells_reads site.new) (T.bytes_read site.old)
        (T.bytes_read site.new) }
    ensures site { IsContinued T.told T.faults T.holds T.keeps site.old site.new }
{
    let text = legal_line(alloc, count)?;
    site.send(text.as_slice())?;
    Ok(())
}

// That line.
fn legal_line(alloc: Global, count: u64) -> Result<Bytes, AllocError>
    ensures { IfOk result (λ text. text ≡ legal_text count) }
{
    let number = count.to_string(alloc)?;
    let mut text = Bytes::from_slice(alloc, b"legal ")?;
    text.append(number.as_bytes())?;
    text.append(b"\n")?;
    Ok(text)
}
