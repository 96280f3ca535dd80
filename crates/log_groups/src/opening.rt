//! Comparing a log's front.
ghost use Rattle.fp_model.specs.LogText.{FitsFront, IsFormat, StartsWithFront, first_gate};
ghost use Rattle.fp_lists.specs.Continued.{IsContinued};
ghost use Rattle.fp_site.specs.Disk.{Disk, Stays};
ghost use Rattle.log_groups.specs.Images.{BeginsFor, as_front, in_format};
ghost use Rattle.log_groups.specs.Reads.{ReadsOnlyLog};
ghost use Rattle.log_groups.specs.declared.fault.LogFault.TheVariants as faults;
ghost use Rattle.std.specs.Prelude.{◌≡◌, ◌≢◌, ◌⊎◌, ◌+◌, ◌-◌, ◌<◌, ◌≤◌, ◌^◌, ℕ, IfNone, IfOk, IfSome, IsErrOf, OnOk, length, take};

use crate::group::bytes_at;
use crate::{Front, LogFault};
use fp_site::Site;
use std::alloc::Global;

// The format in which the log begins with this front; None where it begins with it in neither. The front's own format
// doesn't count.
pub(crate) fn format_of<S: Site>(
    alloc: Global,
    site: &mut S,
    front: &Front,
) -> Result<Option<u8>, LogFault>
    requires fits { FitsFront (as_front front.now) }
    ensures some { S.told site.old → IfOk result (λ found. IfSome found (λ format.
        StartsWithFront ((S.disk site.old).contents 0) (in_format format (as_front front.now)))) }
    ensures is_format { IfOk result (λ found. IfSome found IsFormat) }
    ensures none { S.told site.old → IfOk result (λ found. IfNone found
        (BeginsFor (as_front front.now) ((S.disk site.old).contents 0) → ⊥)) }
    ensures cause { IsErrOf result faults.Failed → (S.faults site.old < S.faults site.new)
        ⊎ (S.faults site.new ≡ 2 ^ 64 - 1) }
    ensures stayed { (IsErrOf result faults.Failed → ⊥) → S.faults site.new ≡ S.faults site.old }
    ensures never { (IsErrOf result faults.Foreign → ⊥) × ((place : ℕ) → IsErrOf result (faults.Damaged place) → ⊥) }

    // Nothing changes, and no more than the front is read; where it is there it is, each byte once.
    ensures count { S.tells_reads site.new 0
        → S.bytes_read site.new 0 ≤ S.bytes_read site.old 0 + first_gate (as_front front.now) }
    ensures exact { S.tells_reads site.new 0 → IfOk result (λ found. IfSome found
        (λ _. S.bytes_read site.new 0 ≡ S.bytes_read site.old 0 + first_gate (as_front front.now))) }
    ensures inside { S.told site.old → S.tells_reads site.new 0
        → S.bytes_read site.new 0 ≤ S.bytes_read site.old 0 + length ((S.disk site.old).contents 0) }
    ensures stays { S.told site.old → Stays (S.disk site.old) (S.disk site.new) }
    ensures reads { ReadsOnlyLog (S.tells_reads site.old) (S.tells_reads site.new) (S.bytes_read site.old)
        (S.bytes_read site.new) }
    ensures site { IsContinued S.told S.faults S.holds S.keeps site.old site.new }
{
    let first = front.text(alloc, 1)?;
    let second = front.text(alloc, 2)?;
    let Some(bytes) = first_bytes(alloc, site, front.gate())? else {
        return Ok(None);
    };
    Ok(which(&bytes, first.as_slice(), second.as_slice()))
}

// So many bytes from the log's start; None where it is shorter.
fn first_bytes<S: Site>(alloc: Global, site: &mut S, len: u64) -> Result<Option<Vec<u8>>, LogFault>
    ensures some { S.told site.old → IfOk result (λ found. IfSome found
        (λ bytes. bytes.items ≡ take len ((S.disk site.old).contents 0))) }
    ensures none { S.told site.old → IfOk result (λ found. IfNone found
        (length ((S.disk site.old).contents 0) < len)) }
    ensures cause { IsErrOf result faults.Failed → (S.faults site.old < S.faults site.new)
        ⊎ (S.faults site.new ≡ 2 ^ 64 - 1) }
    ensures stayed { (IsErrOf result faults.Failed → ⊥) → S.faults site.new ≡ S.faults site.old }
    ensures never { (IsErrOf result faults.Foreign → ⊥) × ((place : ℕ) → IsErrOf result (faults.Damaged place) → ⊥) }

    // Nothing changes, and no more than so many bytes are read.
    ensures count { S.tells_reads site.new 0 → S.bytes_read site.new 0 ≤ S.bytes_read site.old 0 + len }
    ensures exact { S.tells_reads site.new 0 → IfOk result (λ found. IfSome found
        (λ _. S.bytes_read site.new 0 ≡ S.bytes_read site.old 0 + len)) }
    ensures inside { S.told site.old → S.tells_reads site.new 0
        → S.bytes_read site.new 0 ≤ S.bytes_read site.old 0 + length ((S.disk site.old).contents 0) }
    ensures stays { S.told site.old → Stays (S.disk site.old) (S.disk site.new) }
    ensures reads { ReadsOnlyLog (S.tells_reads site.old) (S.tells_reads site.new) (S.bytes_read site.old)
        (S.bytes_read site.new) }
    ensures site { IsContinued S.told S.faults S.holds S.keeps site.old site.new }
{
    if site.size(0)? < len {
        return Ok(None);
    }
    Ok(Some(bytes_at(alloc, site, 0, len)?))
}

// Which of two texts the bytes are, counted from 1; None where they are neither.
fn which(bytes: &[u8], first: &[u8], second: &[u8]) -> Option<u8>
    ensures some { IfSome result (λ place. ((place ≡ 1) × (bytes.now ≡ first.now))
        ⊎ ((place ≡ 2) × (bytes.now ≡ second.now))) }
    ensures none { IfNone result ((bytes.now ≢ first.now) × (bytes.now ≢ second.now)) }
{
    if bytes == first {
        return Some(1);
    }
    if bytes == second {
        return Some(2);
    }
    None
}
