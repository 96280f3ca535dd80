//! The body of a gated write.
ghost use Rattle.fp_site.specs.Disk.{Disk, IsDurable, Settles, written};
ghost use Rattle.fp_site.specs.Moments.{OnlyOn, Through};
ghost use Rattle.fp_site.specs.Site.{ReadsNothing};
ghost use Rattle.fp_lists.specs.Continued.{IsContinued};
ghost use Rattle.fp_lists.specs.Faults.{Counts};
ghost use Rattle.gated_write.specs.Gates.{AreFronts, AreUnopened, IsFrontOf, IsGatedImage, IsOpened, IsReady, IsUnopened, IsWriting, with_body};
ghost use Rattle.std.specs.Prelude.{◌≡◌, ◌⊎◌, ◌+◌, ◌-◌, ◌<◌, ◌≤◌, ◌^◌, ◌∷◌, ◌++◌, ℕ, List as ListOf, OnOk, length};

use crate::gate::open;
use fp_site::{Failed, Site};

/// Writes a piece of the body, behind the pieces that were written before. Nothing is synced.
pub fn put<S: Site>(site: &mut S, set: u16, at: u64, piece: &[u8]) -> Result<(), Failed>
    requires room { at + length piece.now ≤ 2 ^ 62 }

    // At `Ok` the piece stands there, and the body goes on by it.
    ensures text { S.told site.old → OnOk result ((S.disk site.new).contents set
        ≡ written ((S.disk site.old).contents set) at piece.now) }
    ensures wrote { (old : ListOf ℕ) (gate : ℕ) (body : ListOf ℕ) → S.told site.old
        → IsWriting old gate body set (S.disk site.old) → at ≡ gate + 1 + length body →
        OnOk result (IsWriting old gate (body ++ piece.now) set (S.disk site.new)) }
    ensures cause { Counts (S.faults site.old) (S.faults site.new) result }

    // No other data set changes, nothing is sent or read.
    ensures only { S.told site.old → OnlyOn set (S.disk site.old) (S.disk site.new) }
    ensures reads { ReadsNothing (S.tells_reads site.old) (S.tells_reads site.new) (S.bytes_read site.old)
        (S.bytes_read site.new) }
    ensures site { IsContinued S.told S.faults S.holds S.keeps site.old site.new }

    // A crash at any moment leaves what stands up to the gate, and so does a further sync of what it may leave.
    ensures crash { (old : ListOf ℕ) (gate : ℕ) → S.told site.old → AreUnopened old gate set (S.disk site.old)
        → gate < length old → gate < at →
        Through (S.disk site.old) (S.disk site.new) (λ s. IsUnopened old gate (s.images set)) }
    ensures settles { (old : ListOf ℕ) (gate : ℕ) → S.told site.old → AreUnopened old gate set (S.disk site.old)
        → gate < length old → gate < at → AreUnopened old gate set (S.disk site.new) }

    // So do the bytes in front of a gate that is absent.
    ensures front { (old : ListOf ℕ) (gate : ℕ) → S.told site.old → AreFronts old gate set (S.disk site.old)
        → gate ≤ length old → gate ≤ at →
        Through (S.disk site.old) (S.disk site.new) (λ s. IsFrontOf old gate (s.images set)) }
    ensures front_settles { (old : ListOf ℕ) (gate : ℕ) → S.told site.old → AreFronts old gate set (S.disk site.old)
        → gate ≤ length old → gate ≤ at → AreFronts old gate set (S.disk site.new) }
{
    site.write_at(set, at, piece)
}

/// Syncs the body.
pub fn finish<S: Site>(site: &mut S, set: u16) -> Result<(), Failed>
    // At `Ok` every crash leaves it, and what it stands in is as it was.
    ensures durable { S.told site.old → OnOk result (IsDurable (S.disk site.new) set) }
    ensures same { S.told site.old → (S.disk site.new).contents set ≡ (S.disk site.old).contents set }
    ensures ready { (old : ListOf ℕ) (gate : ℕ) (body : ListOf ℕ) → S.told site.old
        → IsWriting old gate body set (S.disk site.old) → OnOk result (IsReady old gate body set (S.disk site.new)) }
    ensures cause { Counts (S.faults site.old) (S.faults site.new) result }

    // No other data set changes, nothing is sent or read.
    ensures only { S.told site.old → OnlyOn set (S.disk site.old) (S.disk site.new) }
    ensures reads { ReadsNothing (S.tells_reads site.old) (S.tells_reads site.new) (S.bytes_read site.old)
        (S.bytes_read site.new) }
    ensures site { IsContinued S.told S.faults S.holds S.keeps site.old site.new }

    // A crash at any moment leaves what stands up to the gate, and so does a further sync of what it may leave.
    ensures crash { (old : ListOf ℕ) (gate : ℕ) → S.told site.old → AreUnopened old gate set (S.disk site.old) →
        Through (S.disk site.old) (S.disk site.new) (λ s. IsUnopened old gate (s.images set)) }
    ensures settles { (old : ListOf ℕ) (gate : ℕ) → S.told site.old → AreUnopened old gate set (S.disk site.old)
        → AreUnopened old gate set (S.disk site.new) }

    // So do the bytes in front of a gate that is absent.
    ensures front { (old : ListOf ℕ) (gate : ℕ) → S.told site.old → AreFronts old gate set (S.disk site.old) →
        Through (S.disk site.old) (S.disk site.new) (λ s. IsFrontOf old gate (s.images set)) }
    ensures front_settles { (old : ListOf ℕ) (gate : ℕ) → S.told site.old → AreFronts old gate set (S.disk site.old)
        → AreFronts old gate set (S.disk site.new) }
{
    site.sync(set)
}

/// Writes these bytes behind a gate, syncs, opens the gate, syncs.
pub fn write<S: Site>(site: &mut S, set: u16, gate: u64, body: &[u8]) -> Result<(), Failed>
    requires room { gate + 1 + length body.now ≤ 2 ^ 62 }

    // At `Ok` the gate is open over the body, what stood behind that stays, and every crash leaves it so. The gate may
    // have been absent, at the end of the data set.
    ensures text { S.told site.old → gate ≤ length ((S.disk site.old).contents set) → OnOk result
        ((S.disk site.new).contents set ≡ with_body ((S.disk site.old).contents set) gate body.now) }
    ensures durable { S.told site.old → OnOk result (IsDurable (S.disk site.new) set) }
    ensures opened { S.told site.old → IsDurable (S.disk site.old) set
        → gate < length ((S.disk site.old).contents set) →
        OnOk result (IsOpened ((S.disk site.old).contents set) gate body.now set (S.disk site.new)) }
    ensures cause { Counts (S.faults site.old) (S.faults site.new) result }

    // No other data set changes, nothing is sent or read.
    ensures only { S.told site.old → OnlyOn set (S.disk site.old) (S.disk site.new) }
    ensures reads { ReadsNothing (S.tells_reads site.old) (S.tells_reads site.new) (S.bytes_read site.old)
        (S.bytes_read site.new) }
    ensures site { IsContinued S.told S.faults S.holds S.keeps site.old site.new }

    // A crash at any moment leaves the gate as it was, or the bytes whole behind it.
    ensures crash { S.told site.old → IsDurable (S.disk site.old) set
        → gate < length ((S.disk site.old).contents set) → Through (S.disk site.old) (S.disk site.new)
        (λ s. IsGatedImage ((S.disk site.old).contents set) gate body.now (s.images set)) }

    // So does each image that a further sync may make of what a crash may leave now.
    ensures settles { (image : ListOf ℕ) → S.told site.old → IsDurable (S.disk site.old) set
        → gate < length ((S.disk site.old).contents set) → Settles (S.disk site.new) set image
        → IsGatedImage ((S.disk site.old).contents set) gate body.now image }

    // In each of them, also where the gate was absent, all bytes in front of it are as they were.
    ensures front { S.told site.old → IsDurable (S.disk site.old) set
        → gate ≤ length ((S.disk site.old).contents set) → Through (S.disk site.old) (S.disk site.new)
        (λ s. IsFrontOf ((S.disk site.old).contents set) gate (s.images set)) }
    ensures front_settles { S.told site.old → IsDurable (S.disk site.old) set
        → gate ≤ length ((S.disk site.old).contents set)
        → AreFronts ((S.disk site.old).contents set) gate set (S.disk site.new) }
{
    put(site, set, gate + 1, body)?;
    finish(site, set)?;
    open(site, set, gate)
}
