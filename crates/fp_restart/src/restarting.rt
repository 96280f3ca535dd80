//! Restarting.
ghost use Rattle.fp_lists.specs.Continued.{IsContinued};
ghost use Rattle.fp_model.specs.Groups.{Groups, Reads};
ghost use Rattle.fp_model.specs.LogText.{FitsFront, IsFormat, StartsWithFront, first_gate};
ghost use Rattle.fp_model.specs.WellFormed.{IsMsdbDef};
ghost use Rattle.fp_model.specs.declared.log.Entry.{Entry};
ghost use Rattle.fp_model.specs.declared.scripts.Script.{Script};
ghost use Rattle.fp_restart.specs.Replayed.{AreOfSome, IsFirstBadAt, IsReadable, ReadsBack};
ghost use Rattle.fp_restart.specs.Restarts.{IsDamageOr, StandsFor};
ghost use Rattle.fp_restart.specs.declared.fault.RestartFault.TheVariants as faults;
ghost use Rattle.fp_site.specs.Disk.{Settles, Syncs};
ghost use Rattle.fp_site.specs.Moments.{Through};
ghost use Rattle.log_groups.specs.Images.{BeginsFor, as_front, in_format};
ghost use Rattle.log_groups.specs.Kept.{IsSafeFrom, IsSound};
ghost use Rattle.log_groups.specs.Reads.{ReadsOnlyLog};
ghost use Rattle.msdb_store.specs.Store.{IsOf};
ghost use Rattle.std.specs.List.{AllByRecursion};
ghost use Rattle.std.specs.Prelude.{◌≡◌, ◌⊎◌, ◌+◌, ◌-◌, ◌<◌, ◌≤◌, ◌^◌, ℕ, [], IfOk, IsErrOf, List as ListOf, OnOk, length};

use crate::RestartFault;
use crate::reading::read_parts;
use balancing::Lasts;
use fp_model::Defs;
use fp_site::Site;
use log_groups::{Front, Log};
use msdb_store::MsdbStore;
use std::alloc::Global;

/// What a restart gives: the segments, the log, which goes on behind what it has, and the last number of each terminal.
pub type Parts = (MsdbStore, Log, Lasts);

/// The state that the log means: its groups up to the first gate that isn't open, read once, in order. Each line is
/// read in the format at its place: that of the log's front, which the given front's format doesn't say, and 2 behind a
/// Format entry. Nothing is written; the log is synced. `Foreign` comes exactly where the log begins with the open
/// front of neither format, and `Damaged` exactly where a gate is the first whose bytes are outside the format or don't
/// fit the definitions; a fault of the site and want of memory may stand in the place of both.
pub fn restart<T: Site>(
    alloc: Global,
    defs: &Defs,
    front: &Front,
    site: &mut T,
) -> Result<Parts, RestartFault>
    requires fits { FitsFront (as_front front.now) }
    requires each { AllByRecursion IsMsdbDef defs.now.msdbs }

    // A sound log of either format gives what it means, and is neither foreign nor damaged.
    ensures sound { (format : ℕ) (scripts : ListOf Script) (entries : ListOf Entry) → T.told site.old
        → IsSound defs.now scripts (in_format format (as_front front.now)) ((T.disk site.old).contents 0) entries
        → IfOk result (λ parts. StandsFor defs.now scripts (in_format format (as_front front.now)) (T.disk site.new)
        entries parts.0 parts.1 parts.2) }
    ensures never { (format : ℕ) (scripts : ListOf Script) (entries : ListOf Entry) → T.told site.old
        → IsSound defs.now scripts (in_format format (as_front front.now)) ((T.disk site.old).contents 0) entries
        → (IsErrOf result faults.Foreign → ⊥) × ((set at : ℕ) → IsErrOf result (faults.Damaged set at) → ⊥) }

    // In any case the store is one of these definitions, no entry waits to be sealed, and the numbers are those of some
    // entries. What was read of the log stands there, whether or not its entries are a history, and every crash leaves it.
    ensures of { IfOk result (λ parts. IsOf defs.now.msdbs parts.0) }
    ensures unsealed { IfOk result (λ parts. parts.1.unsealed ≡ []) }
    ensures some { IfOk result (λ parts. AreOfSome parts.1 parts.2) }
    ensures reads { T.told site.old → IfOk result (λ parts. ReadsBack defs.now
        (in_format parts.1.front_format (as_front front.now)) (T.disk site.new) parts.0 parts.1 parts.2) }

    // When each refusal comes.
    ensures is_format { IfOk result (λ parts. IsFormat parts.1.front_format) }
    ensures front { T.told site.old → IfOk result (λ parts. StartsWithFront ((T.disk site.old).contents 0)
        (in_format parts.1.front_format (as_front front.now))) }
    ensures foreign { T.told site.old → IsErrOf result faults.Foreign
        → BeginsFor (as_front front.now) ((T.disk site.old).contents 0) → ⊥ }
    ensures damaged { (set at : ℕ) → T.told site.old → IsErrOf result (faults.Damaged set at) → set ≡ 0 }
    ensures begun { (set at : ℕ) → T.told site.old → IsErrOf result (faults.Damaged set at)
        → BeginsFor (as_front front.now) ((T.disk site.old).contents 0) }
    ensures place { (set at : ℕ) → T.told site.old → IsErrOf result (faults.Damaged set at) →
        IsFirstBadAt defs.now ((T.disk site.old).contents 0) (first_gate (as_front front.now)) at }

    // A log that begins with the front and is bad at a place is answered so, unless a fault comes.
    ensures only_damaged { (at : ℕ) → T.told site.old
        → BeginsFor (as_front front.now) ((T.disk site.old).contents 0)
        → IsFirstBadAt defs.now ((T.disk site.old).contents 0) (first_gate (as_front front.now)) at
        → IsDamageOr at result }
    ensures readable { T.told site.old → OnOk result
        (IsReadable defs.now ((T.disk site.old).contents 0) (first_gate (as_front front.now))) }
    ensures cause { IsErrOf result faults.SiteFault → (T.faults site.old < T.faults site.new)
        ⊎ (T.faults site.new ≡ 2 ^ 64 - 1) }
    ensures stayed { (IsErrOf result faults.SiteFault → ⊥) → T.faults site.new ≡ T.faults site.old }

    // No contents change, nothing is sent, and a crash at any moment leaves what it might have left before, the log as
    // a sync might have left it.
    ensures contents { T.told site.old → (set : ℕ) → (T.disk site.new).contents set ≡ (T.disk site.old).contents set }
    ensures sent { T.told site.old → (T.disk site.new).sent ≡ (T.disk site.old).sent }
    ensures crash { T.told site.old → Through (T.disk site.old) (T.disk site.new) (Syncs (T.disk site.old) 0) }

    // Whatever the answer is, each image that a further sync may make of what a crash may leave now is one that a sync
    // might have made before. So where all of those begin with these entries, as behind a call that failed, they do
    // now.
    ensures settles { (image : ListOf ℕ) → T.told site.old → Settles (T.disk site.new) 0 image
        → Settles (T.disk site.old) 0 image }
    ensures begins { (format : ℕ) (scripts : ListOf Script) (earlier : ListOf Entry) → T.told site.old
        → IsSafeFrom defs.now scripts (in_format format (as_front front.now)) (T.disk site.old) earlier
        → IsSafeFrom defs.now scripts (in_format format (as_front front.now)) (T.disk site.new) earlier }

    // No other data set is read. Of a log with groups up to a closed gate the front, these and that gate are read at
    // most, each byte once, and at Ok just these; of any log no more than each of its bytes, and one past its end.
    ensures read { (groups : ListOf (ListOf Entry)) (gate : ℕ) → T.told site.old
        → Reads ((T.disk site.old).contents 0) (first_gate (as_front front.now)) (Groups groups gate)
        → T.tells_reads site.new 0 → T.bytes_read site.new 0 ≤ T.bytes_read site.old 0 + gate + 1 }
    ensures exact { T.tells_reads site.new 0 → IfOk result
        (λ parts. T.bytes_read site.new 0 ≡ T.bytes_read site.old 0 + parts.1.gate + 1) }
    ensures no_front { T.told site.old → (BeginsFor (as_front front.now) ((T.disk site.old).contents 0) → ⊥)
        → T.tells_reads site.new 0
        → T.bytes_read site.new 0 ≤ T.bytes_read site.old 0 + first_gate (as_front front.now) }
    ensures once { T.told site.old → T.tells_reads site.new 0
        → T.bytes_read site.new 0 ≤ T.bytes_read site.old 0 + length ((T.disk site.old).contents 0) + 1 }
    ensures only_log { ReadsOnlyLog (T.tells_reads site.old) (T.tells_reads site.new) (T.bytes_read site.old)
        (T.bytes_read site.new) }
    ensures site { IsContinued T.told T.faults T.holds T.keeps site.old site.new }
{
    site.sync(0)?; // what is read is what a crash leaves
    read_parts(alloc, defs, front, site)
}
