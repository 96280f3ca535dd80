//! Reading one group behind its gate.
ghost use Rattle.fp_model.specs.Groups.{IsDamaged};
ghost use Rattle.fp_model.specs.Spellings.{be64};
ghost use Rattle.fp_model.specs.declared.log.Entry.{Entry as EntryOf};
ghost use Rattle.fp_site.specs.Disk.{Disk, Stays};
ghost use Rattle.fp_lists.specs.Continued.{IsContinued};
ghost use Rattle.fp_lists.specs.Faults.{Counts};
ghost use Rattle.log_groups.specs.Reads.{HasGroup, ReadsOnlyLog};
ghost use Rattle.log_groups.specs.inside.Reads.{HasBody, HasLength};
ghost use Rattle.log_groups.specs.declared.fault.LogFault.TheVariants as faults;
ghost use Rattle.std.specs.Prelude.{
  ◌≡◌,
  ◌≢◌,
  ◌⊎◌,
  ◌+◌,
  ◌-◌,
  ◌<◌,
  ◌≤◌,
  ◌^◌,
  ℕ,
  IfNone,
  IfOk,
  IfSome,
  IsErrOf,
  List as
      ListOf,
  drop,
  length,
  max,
  slice_index,
  take,
  true,
  false,
};

use crate::LogFault;
use fp_model::{Entry, List};
use fp_site::{Failed, Site};
use log_format::{FormatFault, entries, number_of};
use std::alloc::Global;

/// A group of the log.
#[derive(Drop)]
pub struct Group {
    pub entries: List<Entry>,
    /// The place of the gate behind it.
    pub next: u64,
}

// Whether the gate at this place is open.
fn is_open<S: Site>(site: &mut S, at: u64) -> Result<bool, Failed>
    ensures open { S.told site.old → IfOk result (λ is_open. is_open ≡ true
        → slice_index ((S.disk site.old).contents 0) at ≡ 1) }
    ensures closed { S.told site.old → IfOk result (λ is_open. is_open ≡ false
        → slice_index ((S.disk site.old).contents 0) at ≢ 1) }
    ensures cause { Counts (S.faults site.old) (S.faults site.new) result }

    // Nothing changes, and one byte is read.
    ensures count { S.tells_reads site.new 0 → IfOk result
        (λ _. S.bytes_read site.new 0 ≡ S.bytes_read site.old 0 + 1) }
    ensures most { S.tells_reads site.new 0 → S.bytes_read site.new 0 ≤ S.bytes_read site.old 0 + 1 }
    ensures stays { S.told site.old → Stays (S.disk site.old) (S.disk site.new) }
    ensures reads { ReadsOnlyLog (S.tells_reads site.old) (S.tells_reads site.new) (S.bytes_read site.old)
        (S.bytes_read site.new) }
    ensures site { IsContinued S.told S.faults S.holds S.keeps site.old site.new }
{
    let mut gate = [0u8];
    site.read_at(0, at, &mut gate)?;
    Ok(gate[0] == 1)
}

// The length of the body behind the gate at this place; None where it is 0, cut short, or passes the log's end.
fn length_at<S: Site>(site: &mut S, at: u64) -> Result<Option<u64>, Failed>
    ensures found { S.told site.old → IfOk result (λ found. IfSome found
        (HasLength ((S.disk site.old).contents 0) at)) }
    ensures none { S.told site.old → slice_index ((S.disk site.old).contents 0) at ≡ 1 →
        IfOk result (λ found. IfNone found (IsDamaged ((S.disk site.old).contents 0) at)) }
    ensures within { IfOk result (λ found. IfSome found (λ n. at + 9 + n ≤ 2 ^ 62)) }
    ensures cause { Counts (S.faults site.old) (S.faults site.new) result }

    // Nothing changes, and the eight bytes of the length are read.
    ensures count { S.tells_reads site.new 0 →
        IfOk result (λ found. IfSome found (λ _. S.bytes_read site.new 0 ≡ S.bytes_read site.old 0 + 8)) }
    ensures most { S.tells_reads site.new 0 → S.bytes_read site.new 0 ≤ S.bytes_read site.old 0 + 8 }
    ensures inside { S.told site.old → S.tells_reads site.new 0 → S.bytes_read site.new 0 ≢ S.bytes_read site.old 0
        → at + 9 ≤ length ((S.disk site.old).contents 0) }
    ensures stays { S.told site.old → Stays (S.disk site.old) (S.disk site.new) }
    ensures reads { ReadsOnlyLog (S.tells_reads site.old) (S.tells_reads site.new) (S.bytes_read site.old)
        (S.bytes_read site.new) }
    ensures site { IsContinued S.told S.faults S.holds S.keeps site.old site.new }
{
    let size = site.size(0)?;
    if size < 9 || at > size - 9 {
        return Ok(None);
    }
    let mut bytes = [0u8; 8];
    site.read_at(0, at + 1, &mut bytes)?;
    let len = number_of(&bytes);
    if len == 0 || len > size - 9 - at {
        return Ok(None);
    }
    Ok(Some(len))
}

// So many bytes of the log from this place on.
pub(crate) fn bytes_at<S: Site>(
    alloc: Global,
    site: &mut S,
    at: u64,
    len: u64,
) -> Result<Vec<u8>, LogFault>
    ensures value { S.told site.old → at + len ≤ length ((S.disk site.old).contents 0) →
        IfOk result (λ bytes. bytes.items ≡ take len (drop at ((S.disk site.old).contents 0))) }
    ensures long { IfOk result (λ bytes. length bytes.items ≡ len) }
    ensures cause { IsErrOf result faults.Failed → (S.faults site.old < S.faults site.new)
        ⊎ (S.faults site.new ≡ 2 ^ 64 - 1) }
    ensures stayed { (IsErrOf result faults.Failed → ⊥) → S.faults site.new ≡ S.faults site.old }
    ensures never { (IsErrOf result faults.Foreign → ⊥) × ((place : ℕ) → IsErrOf result (faults.Damaged place) → ⊥) }

    // Nothing changes, and these bytes are read.
    ensures count { S.tells_reads site.new 0 → IfOk result
        (λ _. S.bytes_read site.new 0 ≡ S.bytes_read site.old 0 + len) }
    ensures most { S.tells_reads site.new 0 → S.bytes_read site.new 0 ≤ S.bytes_read site.old 0 + len }
    ensures stays { S.told site.old → Stays (S.disk site.old) (S.disk site.new) }
    ensures reads { ReadsOnlyLog (S.tells_reads site.old) (S.tells_reads site.new) (S.bytes_read site.old)
        (S.bytes_read site.new) }
    ensures site { IsContinued S.told S.faults S.holds S.keeps site.old site.new }
{
    let mut bytes = vec![in alloc; 0u8; len as usize]?;
    site.read_at(0, at, &mut bytes)?;
    Ok(bytes)
}

// The body behind the gate at this place; None where its length is damage.
fn body_at<S: Site>(alloc: Global, site: &mut S, at: u64) -> Result<Option<Vec<u8>>, LogFault>
    ensures found { S.told site.old → IfOk result (λ found. IfSome found
        (λ body. HasBody ((S.disk site.old).contents 0) at body.items)) }
    ensures none { S.told site.old → slice_index ((S.disk site.old).contents 0) at ≡ 1 →
        IfOk result (λ found. IfNone found (IsDamaged ((S.disk site.old).contents 0) at)) }
    ensures within { IfOk result (λ found. IfSome found (λ body. at + 9 + length body.items ≤ 2 ^ 62)) }
    ensures cause { IsErrOf result faults.Failed → (S.faults site.old < S.faults site.new)
        ⊎ (S.faults site.new ≡ 2 ^ 64 - 1) }
    ensures stayed { (IsErrOf result faults.Failed → ⊥) → S.faults site.new ≡ S.faults site.old }
    ensures never { (IsErrOf result faults.Foreign → ⊥) × ((place : ℕ) → IsErrOf result (faults.Damaged place) → ⊥) }

    // Nothing changes, and the length and the body are read once.
    ensures count { S.tells_reads site.new 0 →
        IfOk result (λ found. IfSome found (λ body. S.bytes_read site.new 0 ≡ S.bytes_read site.old 0 + 8 + length
        body.items)) }
    ensures most { (entries : ListOf EntryOf) (next : ℕ) → S.told site.old
        → HasGroup ((S.disk site.old).contents 0) at entries next → S.tells_reads site.new 0
        → S.bytes_read site.new 0 + at + 1 ≤ S.bytes_read site.old 0 + next }
    ensures inside { S.told site.old → S.tells_reads site.new 0 → S.bytes_read site.new 0 + at + 1
        ≤ S.bytes_read site.old 0 + max (at + 1) (length ((S.disk site.old).contents 0)) }
    ensures stays { S.told site.old → Stays (S.disk site.old) (S.disk site.new) }
    ensures reads { ReadsOnlyLog (S.tells_reads site.old) (S.tells_reads site.new) (S.bytes_read site.old)
        (S.bytes_read site.new) }
    ensures site { IsContinued S.told S.faults S.holds S.keeps site.old site.new }
{
    match length_at(site, at)? {
        None => Ok(None),
        Some(len) => {
            let body = bytes_at(alloc, site, at + 9, len)?;
            Ok(Some(body))
        }
    }
}

// The group behind the gate at this place; None where that gate isn't open.
pub(crate) fn read_group<S: Site>(
    alloc: Global,
    site: &mut S,
    at: u64,
) -> Result<Option<Group>, LogFault>
    ensures some { S.told site.old → IfOk result (λ found. IfSome found
        (λ group. HasGroup ((S.disk site.old).contents 0) at group.entries group.next)) }
    ensures none { S.told site.old → IfOk result (λ found. IfNone found
        (slice_index ((S.disk site.old).contents 0) at ≢ 1)) }
    ensures damaged { (place : ℕ) → S.told site.old → IsErrOf result (faults.Damaged place) →
        (place ≡ at) × IsDamaged ((S.disk site.old).contents 0) at }
    ensures cause { IsErrOf result faults.Failed → (S.faults site.old < S.faults site.new)
        ⊎ (S.faults site.new ≡ 2 ^ 64 - 1) }
    ensures stayed { (IsErrOf result faults.Failed → ⊥) → S.faults site.new ≡ S.faults site.old }
    ensures never { IsErrOf result faults.Foreign → ⊥ }

    // Nothing changes. The group's bytes are read once, or one byte where there is none.
    ensures count { S.tells_reads site.new 0 →
        IfOk result (λ found. IfSome found (λ group. S.bytes_read site.new 0 + at ≡ S.bytes_read site.old 0 +
        group.next)) }
    ensures looked { S.tells_reads site.new 0 →
        IfOk result (λ found. IfNone found (S.bytes_read site.new 0 ≡ S.bytes_read site.old 0 + 1)) }

    // Whatever the answer is, no more is read than the group that stands there, or the gate that isn't open; and no
    // more than what stands there up to the log's end.
    ensures most { (entries : ListOf EntryOf) (next : ℕ) → S.told site.old
        → HasGroup ((S.disk site.old).contents 0) at entries next → S.tells_reads site.new 0
        → S.bytes_read site.new 0 + at ≤ S.bytes_read site.old 0 + next }
    ensures one { S.told site.old → slice_index ((S.disk site.old).contents 0) at ≢ 1 → S.tells_reads site.new 0
        → S.bytes_read site.new 0 ≤ S.bytes_read site.old 0 + 1 }
    ensures inside { S.told site.old → S.tells_reads site.new 0 → S.bytes_read site.new 0 + at
        ≤ S.bytes_read site.old 0 + max (at + 1) (length ((S.disk site.old).contents 0)) }
    ensures stays { S.told site.old → Stays (S.disk site.old) (S.disk site.new) }
    ensures reads { ReadsOnlyLog (S.tells_reads site.old) (S.tells_reads site.new) (S.bytes_read site.old)
        (S.bytes_read site.new) }
    ensures site { IsContinued S.told S.faults S.holds S.keeps site.old site.new }
{
    if !is_open(site, at)? {
        return Ok(None);
    }
    let Some(body) = body_at(alloc, site, at)? else {
        return Err(LogFault::Damaged(at));
    };
    match entries(alloc, &body) {
        Ok(entries) => {
            let next = at + 9 + body.len() as u64;
            Ok(Some(Group { entries, next }))
        }
        Err(FormatFault::Memory) => Err(LogFault::Memory),
        Err(FormatFault::BadEntry(_)) => Err(LogFault::Damaged(at)),
    }
}
