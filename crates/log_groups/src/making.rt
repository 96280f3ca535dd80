//! Making a log: its gate is closed first, and opened last.
ghost use Rattle.fp_model.specs.LogText.{FitsFront, first_gate, log_text};
ghost use Rattle.fp_site.specs.Disk.{Disk, Settles};
ghost use Rattle.fp_site.specs.Moments.{OnlyOn, Through};
ghost use Rattle.fp_lists.specs.Continued.{IsContinued};
ghost use Rattle.fp_lists.specs.Faults.{Counts};
ghost use Rattle.log_groups.specs.Images.{IsAtRest, IsBeforeOrMade, IsBeforeOrShut, IsOldOrMade, IsOldOrShut, IsShut, as_front};
ghost use Rattle.log_groups.specs.Reads.{ReadsOnlyLog};
ghost use Rattle.log_groups.specs.declared.fault.LogFault.TheVariants as faults;
ghost use Rattle.std.specs.Prelude.{◌≡◌, ◌⊎◌, ◌+◌, ◌-◌, ◌<◌, ◌≤◌, ◌^◌, ◌++◌, ℕ, [], IsErrOf, List as ListOf, OnOk, drop, length, max};

use crate::gated::write_gated;
use crate::{Front, LogFault};
use fp_site::{Failed, Site};
use std::alloc::Global;

// Closes the front's gate. A gate that is there and isn't open is not written again.
pub(crate) fn shut<S: Site>(site: &mut S) -> Result<(), Failed>
    ensures shut { S.told site.old → OnOk result (IsShut (S.disk site.new)) }
    ensures rest { S.told site.old → OnOk result (drop 1 ((S.disk site.new).contents 0) ≡ drop 1
        ((S.disk site.old).contents 0)) }
    ensures cause { Counts (S.faults site.old) (S.faults site.new) result }

    // No other data set changes, and nothing is sent.
    ensures only { S.told site.old → OnlyOn 0 (S.disk site.old) (S.disk site.new) }
    ensures reads { ReadsOnlyLog (S.tells_reads site.old) (S.tells_reads site.new) (S.bytes_read site.old)
        (S.bytes_read site.new) }
    ensures few { S.tells_reads site.new 0 → S.bytes_read site.new 0 ≤ S.bytes_read site.old 0 + 1 }
    ensures site { IsContinued S.told S.faults S.holds S.keeps site.old site.new }

    // A crash at any moment leaves the log as a sync might have left it before, or shut.
    ensures crash { S.told site.old → Through (S.disk site.old) (S.disk site.new) (IsBeforeOrShut (S.disk site.old)) }

    // So does each image that a further sync may make of what a crash may leave now.
    ensures settles { (image : ListOf ℕ) → S.told site.old → Settles (S.disk site.new) 0 image
        → IsOldOrShut (S.disk site.old) image }
{
    gated_write::shut(site, 0)
}

// Writes a new log with this front and no groups: the front's gate is closed first, and opened last.
pub(crate) fn make<S: Site>(alloc: Global, site: &mut S, front: &Front) -> Result<(), LogFault>
    requires { FitsFront (as_front front.now) }
    ensures made { S.told site.old → OnOk result (IsAtRest (S.disk site.new) (as_front front.now) []
        (first_gate (as_front front.now))) }

    // The front and the gate, and behind them what stood there before.
    ensures text { S.told site.old
        → OnOk result ((S.disk site.new).contents 0 ≡ log_text (as_front front.now) [] ++ drop
        (first_gate (as_front front.now) + 1) ((S.disk site.old).contents 0)) }
    ensures long { S.told site.old → OnOk result (length ((S.disk site.new).contents 0) ≡ max
        (first_gate (as_front front.now) + 1) (length ((S.disk site.old).contents 0))) }
    ensures cause { IsErrOf result faults.Failed → (S.faults site.old < S.faults site.new)
        ⊎ (S.faults site.new ≡ 2 ^ 64 - 1) }
    ensures stayed { (IsErrOf result faults.Failed → ⊥) → S.faults site.new ≡ S.faults site.old }
    ensures never { (IsErrOf result faults.Foreign → ⊥) × ((place : ℕ) → IsErrOf result (faults.Damaged place) → ⊥) }

    // Want of memory comes before the site is touched.
    ensures untouched { IsErrOf result faults.Memory → site.new ≡ site.old }

    // No other data set changes, and nothing is sent.
    ensures only { S.told site.old → OnlyOn 0 (S.disk site.old) (S.disk site.new) }
    ensures reads { ReadsOnlyLog (S.tells_reads site.old) (S.tells_reads site.new) (S.bytes_read site.old)
        (S.bytes_read site.new) }
    ensures few { S.tells_reads site.new 0 → S.bytes_read site.new 0 ≤ S.bytes_read site.old 0 + 1 }
    ensures site { IsContinued S.told S.faults S.holds S.keeps site.old site.new }

    // A crash at any moment leaves the log as a sync might have left it before, or shut, or made.
    ensures crash { S.told site.old → Through (S.disk site.old) (S.disk site.new)
        (IsBeforeOrMade (S.disk site.old) (as_front front.now)) }

    // So does each image that a further sync may make of what a crash may leave now.
    ensures settles { (image : ListOf ℕ) → S.told site.old → Settles (S.disk site.new) 0 image
        → IsOldOrMade (S.disk site.old) (as_front front.now) image }
{
    let bytes = front.behind_gate(alloc)?;
    shut(site)?;
    write_gated(site, 0, bytes.as_slice())?;
    Ok(())
}
