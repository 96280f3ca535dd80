//! Making storage anew.
ghost use Rattle.fp_lists.specs.Continued.{IsContinued};
ghost use Rattle.fp_model.specs.LogText.{FitsFront, first_gate, log_text};
ghost use Rattle.fp_restart.specs.declared.fault.RestartFault.TheVariants as faults;
ghost use Rattle.fp_site.specs.Disk.{Differs, IsDurable, Settles};
ghost use Rattle.fp_site.specs.Moments.{OnlyOn, Through};
ghost use Rattle.log_groups.specs.Images.{IsAtRest, IsBeforeOrMade, IsOldOrMade, IsSameOrMade, as_front};
ghost use Rattle.log_groups.specs.Kept.{IsSafe};
ghost use Rattle.log_groups.specs.Reads.{ReadsOnlyLog};
ghost use Rattle.fp_model.specs.declared.scripts.Script.{Script};
ghost use Rattle.std.specs.Prelude.{◌≡◌, ◌⊎◌, ◌+◌, ◌++◌, ◌-◌, ◌<◌, ◌≤◌, ◌^◌, ℕ, [], IsErrOf, List as ListOf, OnOk, drop, length, max};

use crate::RestartFault;
use fp_model::Defs;
use fp_site::Site;
use log_groups::{Front, Log};
use std::alloc::Global;

/// Makes the site anew for these definitions: a log with this front and no entries. It fails only with the site and
/// for want of memory.
pub fn define<T: Site>(
    alloc: Global,
    defs: &Defs,
    front: &Front,
    site: &mut T,
) -> Result<(), RestartFault>
    requires fits { FitsFront (as_front front.now) }
    ensures made { T.told site.old → OnOk result (IsAtRest (T.disk site.new) (as_front front.now) []
        (first_gate (as_front front.now))) }

    // The log is the front and a closed gate; where the old one was longer, its bytes behind that gate stay there.
    ensures text { T.told site.old
        → OnOk result ((T.disk site.new).contents 0 ≡ log_text (as_front front.now) [] ++ drop
        (first_gate (as_front front.now) + 1) ((T.disk site.old).contents 0)) }
    ensures long { T.told site.old → OnOk result (length ((T.disk site.new).contents 0) ≡ max
        (first_gate (as_front front.now) + 1) (length ((T.disk site.old).contents 0))) }
    ensures safe { T.told site.old → (scripts : ListOf Script)
        → OnOk result (IsSafe defs.now scripts (as_front front.now) (T.disk site.new) []) }
    ensures cause { IsErrOf result faults.SiteFault → (T.faults site.old < T.faults site.new)
        ⊎ (T.faults site.new ≡ 2 ^ 64 - 1) }
    ensures stayed { (IsErrOf result faults.SiteFault → ⊥) → T.faults site.new ≡ T.faults site.old }
    ensures never { (IsErrOf result faults.Foreign → ⊥) × ((set at : ℕ) → IsErrOf result (faults.Damaged set at) → ⊥) }

    // Want of memory comes before the site is touched.
    ensures untouched { IsErrOf result faults.Memory → site.new ≡ site.old }

    // No other data set changes or is read, and nothing is sent. Of the log one byte is read at most.
    ensures only { T.told site.old → OnlyOn 0 (T.disk site.old) (T.disk site.new) }
    ensures only_log { ReadsOnlyLog (T.tells_reads site.old) (T.tells_reads site.new) (T.bytes_read site.old)
        (T.bytes_read site.new) }
    ensures few { T.tells_reads site.new 0 → T.bytes_read site.new 0 ≤ T.bytes_read site.old 0 + 1 }
    ensures site { IsContinued T.told T.faults T.holds T.keeps site.old site.new }

    // A crash at any moment leaves the log as a sync might have left it before, or with no open front, or made.
    ensures crash { T.told site.old → Through (T.disk site.old) (T.disk site.new)
        (IsBeforeOrMade (T.disk site.old) (as_front front.now)) }

    // Where a sync had left the log, it leaves it so, or with no open front, or made, and all else as before.
    ensures kept { T.told site.old → IsDurable (T.disk site.old) 0 →
        Through (T.disk site.old) (T.disk site.new) (Differs (T.disk site.old) 0 (IsSameOrMade (as_front front.now))) }

    // Each image that a further sync may make of what a crash may leave now is one that a sync might have made before,
    // or has no open front, or is the new log.
    ensures settles { (image : ListOf ℕ) → T.told site.old → Settles (T.disk site.new) 0 image
        → IsOldOrMade (T.disk site.old) (as_front front.now) image }
{
    let _ = &defs.pool; // the log alone is made; areas will need the definitions
    Log::make(alloc, site, front)?;
    Ok(())
}
