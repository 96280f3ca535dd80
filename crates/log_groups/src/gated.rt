//! A gated write of the log: its bytes count whole or not at all.
ghost use Rattle.fp_site.specs.Disk.{Disk, IsDurable, Settles};
ghost use Rattle.fp_site.specs.Moments.{OnlyOn, Through};
ghost use Rattle.fp_site.specs.Site.{ReadsNothing};
ghost use Rattle.fp_lists.specs.Continued.{IsContinued};
ghost use Rattle.fp_lists.specs.Faults.{Counts};
ghost use Rattle.gated_write.specs.Gates.{IsGatedImage};
ghost use Rattle.log_groups.specs.Images.{HasFrontOf, IsFrontOf};
ghost use Rattle.log_groups.specs.inside.Images.{IsGated, IsOpened};
ghost use Rattle.std.specs.Prelude.{◌≡◌, ◌⊎◌, ◌+◌, ◌-◌, ◌<◌, ◌≤◌, ◌^◌, ◌∷◌, ◌++◌, ℕ, List as ListOf, OnOk, length};

use fp_site::{Failed, Site};
use gated_write::write;

/// Writes these bytes behind a gate of the log, syncs, opens the gate, syncs.
pub(crate) fn write_gated<S: Site>(site: &mut S, gate: u64, bytes: &[u8]) -> Result<(), Failed>
    requires room { gate + 1 + length bytes.now ≤ 2 ^ 62 }

    // At `Ok` the gate is open, and every crash leaves it so.
    ensures opened { S.told site.old → gate ≤ length ((S.disk site.old).contents 0) →
        OnOk result (IsOpened ((S.disk site.old).contents 0) gate bytes.now (S.disk site.new)) }
    ensures cause { Counts (S.faults site.old) (S.faults site.new) result }

    // No other data set changes, nothing is sent or read.
    ensures only { S.told site.old → OnlyOn 0 (S.disk site.old) (S.disk site.new) }
    ensures reads { ReadsNothing (S.tells_reads site.old) (S.tells_reads site.new) (S.bytes_read site.old)
        (S.bytes_read site.new) }
    ensures site { IsContinued S.told S.faults S.holds S.keeps site.old site.new }

    // A crash at any moment leaves the gate as it was, or the bytes whole behind it.
    ensures crash { S.told site.old → IsDurable (S.disk site.old) 0 → gate < length ((S.disk site.old).contents 0) →
        Through (S.disk site.old) (S.disk site.new) (IsGated ((S.disk site.old).contents 0) gate bytes.now) }

    // So does each image that a further sync may make of what a crash may leave now.
    ensures settles { (image : ListOf ℕ) → S.told site.old → IsDurable (S.disk site.old) 0
        → gate < length ((S.disk site.old).contents 0) →
        Settles (S.disk site.new) 0 image → IsGatedImage ((S.disk site.old).contents 0) gate bytes.now image }

    // In each of them, also where the gate was absent, all bytes in front of it are as they were.
    ensures front { S.told site.old → IsDurable (S.disk site.old) 0 → gate ≤ length ((S.disk site.old).contents 0) →
        Through (S.disk site.old) (S.disk site.new) (HasFrontOf ((S.disk site.old).contents 0) gate) }
    ensures front_settles { (image : ListOf ℕ) → S.told site.old → IsDurable (S.disk site.old) 0
        → gate ≤ length ((S.disk site.old).contents 0) →
        Settles (S.disk site.new) 0 image → IsFrontOf ((S.disk site.old).contents 0) gate image }
{
    write(site, 0, gate, bytes)
}
