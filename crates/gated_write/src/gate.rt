//! The gate: it is closed before the body is written, and opened behind it.
ghost use Rattle.fp_site.specs.Disk.{Disk, IsDurable, Settles, Stays, written};
ghost use Rattle.fp_site.specs.Moments.{OnlyOn, Through};
ghost use Rattle.fp_site.specs.Site.{ReadsNothing};
ghost use Rattle.fp_lists.specs.Continued.{IsContinued};
ghost use Rattle.fp_lists.specs.Faults.{Counts};
ghost use Rattle.gated_write.specs.Gates.{AreFronts, IsClosed, IsFrontOf, IsOldOrShut, IsOpened, IsReady, IsShut, IsStaged, ReadsOnly};
ghost use Rattle.std.specs.Prelude.{◌≡◌, ◌⊎◌, ◌+◌, ◌-◌, ◌<◌, ◌≤◌, ◌^◌, ◌∷◌, [], ℕ, IfOk, List as ListOf, OnOk, drop, length, slice_index, true, false};

use fp_site::{Failed, Site};

// Whether the gate at the head of a data set is there and isn't open.
fn is_shut<S: Site>(site: &mut S, set: u16) -> Result<bool, Failed>
    ensures shut { S.told site.old → IfOk result
        (λ shut. shut ≡ true → IsClosed 0 ((S.disk site.old).contents set)) }
    ensures open { S.told site.old → IfOk result (λ shut. shut ≡ false
        → (length ((S.disk site.old).contents set) ≡ 0) ⊎ (slice_index ((S.disk site.old).contents set) 0 ≡ 1)) }
    ensures cause { Counts (S.faults site.old) (S.faults site.new) result }

    // Nothing changes.
    ensures stays { S.told site.old → Stays (S.disk site.old) (S.disk site.new) }
    ensures reads { ReadsOnly set (S.tells_reads site.old) (S.tells_reads site.new) (S.bytes_read site.old)
        (S.bytes_read site.new) }
    ensures few { S.tells_reads site.new set → S.bytes_read site.new set ≤ S.bytes_read site.old set + 1 }
    ensures site { IsContinued S.told S.faults S.holds S.keeps site.old site.new }
{
    if site.size(set)? == 0 {
        return Ok(false);
    }
    let mut gate = [0u8];
    site.read_at(set, 0, &mut gate)?;
    Ok(gate[0] != 1)
}

/// Closes the gate at the head of a data set. A gate that is there and isn't open is not written again.
pub fn shut<S: Site>(site: &mut S, set: u16) -> Result<(), Failed>
    ensures shut { S.told site.old → OnOk result (IsShut set 0 (S.disk site.new)) }
    ensures rest { S.told site.old
        → OnOk result (drop 1 ((S.disk site.new).contents set) ≡ drop 1 ((S.disk site.old).contents set)) }
    ensures cause { Counts (S.faults site.old) (S.faults site.new) result }

    // No other data set changes, and nothing is sent.
    ensures only { S.told site.old → OnlyOn set (S.disk site.old) (S.disk site.new) }
    ensures reads { ReadsOnly set (S.tells_reads site.old) (S.tells_reads site.new) (S.bytes_read site.old)
        (S.bytes_read site.new) }
    ensures few { S.tells_reads site.new set → S.bytes_read site.new set ≤ S.bytes_read site.old set + 1 }
    ensures site { IsContinued S.told S.faults S.holds S.keeps site.old site.new }

    // A crash at any moment leaves the data set as a sync might have left it before, or shut.
    ensures crash { S.told site.old → Through (S.disk site.old) (S.disk site.new)
        (λ s. IsOldOrShut (S.disk site.old) set (s.images set)) }

    // So does each image that a further sync may make of what a crash may leave now.
    ensures settles { (image : ListOf ℕ) → S.told site.old → Settles (S.disk site.new) set image
        → IsOldOrShut (S.disk site.old) set image }
{
    site.sync(set)?; // what is looked at is what a crash leaves
    if is_shut(site, set)? {
        return Ok(());
    }
    site.write_at(set, 0, &[0])?;
    site.sync(set)?; // and now every crash leaves it shut
    Ok(())
}

/// Opens the gate behind which a body was written and synced.
pub fn open<S: Site>(site: &mut S, set: u16, gate: u64) -> Result<(), Failed>
    requires room { gate + 1 ≤ 2 ^ 62 }

    // At `Ok` it is open, and every crash leaves it so.
    ensures text { S.told site.old → OnOk result ((S.disk site.new).contents set
        ≡ written ((S.disk site.old).contents set) gate (1 ∷ [])) }
    ensures durable { S.told site.old → OnOk result (IsDurable (S.disk site.new) set) }
    ensures opened { (old body : ListOf ℕ) → S.told site.old → IsReady old gate body set (S.disk site.old) →
        OnOk result (IsOpened old gate body set (S.disk site.new)) }
    ensures cause { Counts (S.faults site.old) (S.faults site.new) result }

    // No other data set changes, nothing is sent or read.
    ensures only { S.told site.old → OnlyOn set (S.disk site.old) (S.disk site.new) }
    ensures reads { ReadsNothing (S.tells_reads site.old) (S.tells_reads site.new) (S.bytes_read site.old)
        (S.bytes_read site.new) }
    ensures site { IsContinued S.told S.faults S.holds S.keeps site.old site.new }

    // A crash at any moment leaves the body whole behind the gate, and so does a further sync.
    ensures crash { (old body : ListOf ℕ) → S.told site.old → IsReady old gate body set (S.disk site.old) →
        Through (S.disk site.old) (S.disk site.new) (λ s. IsStaged old gate body (s.images set)) }
    ensures settles { (old body image : ListOf ℕ) → S.told site.old → IsReady old gate body set (S.disk site.old)
        → Settles (S.disk site.new) set image → IsStaged old gate body image }

    // The bytes in front of it stay.
    ensures front { (old : ListOf ℕ) → S.told site.old → AreFronts old gate set (S.disk site.old)
        → gate ≤ length old →
        Through (S.disk site.old) (S.disk site.new) (λ s. IsFrontOf old gate (s.images set)) }
    ensures front_settles { (old : ListOf ℕ) → S.told site.old → AreFronts old gate set (S.disk site.old)
        → gate ≤ length old → AreFronts old gate set (S.disk site.new) }
{
    site.write_at(set, gate, &[1])?;
    site.sync(set) // and now every crash leaves it open
}
