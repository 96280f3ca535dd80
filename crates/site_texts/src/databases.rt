//! The text of the databases.
ghost use Rattle.fp_lists.specs.Continued.{IsContinued};
ghost use Rattle.fp_model.specs.LogText.{FitsFront, first_gate};
ghost use Rattle.fp_model.specs.Product.{rules_of};
ghost use Rattle.fp_model.specs.SerialHistory.{IsSerialHistory};
ghost use Rattle.fp_model.specs.WellFormed.{IsMsdbDef};
ghost use Rattle.fp_model.specs.declared.database.Db.{Db as DbOf};
ghost use Rattle.fp_model.specs.declared.database.Msdb.{Msdb as MsdbOf};
ghost use Rattle.fp_model.specs.declared.log.Entry.{Entry};
ghost use Rattle.fp_model.specs.declared.scripts.Script.{Script};
ghost use Rattle.fp_restart.specs.Replayed.{IsFirstBadAt};
ghost use Rattle.fp_restart.specs.declared.fault.RestartFault.TheVariants as faults;
ghost use Rattle.fp_show.specs.DbText.{each_text, msdb_text};
ghost use Rattle.log_groups.specs.Images.{BeginsFor, as_front, in_format};
ghost use Rattle.log_groups.specs.Kept.{IsSound};
ghost use Rattle.log_groups.specs.Reads.{ReadsOnlyLog};
ghost use Rattle.site_texts.specs.Sent.{HasSent, HasSentPart};
ghost use Rattle.site_texts.specs.inside.Sent.{IsTold};
ghost use Rattle.site_texts.specs.Texts.{IsDbSent, ReadsOnce, SendsDb, msdbs_text};
ghost use Rattle.fp_site.specs.Disk.{IsDurable};
ghost use Rattle.fp_site.specs.Site.{ReadsNothing};
ghost use Rattle.std.specs.List.{AllByRecursion};
ghost use Rattle.std.specs.Prelude.{◌≡◌, ◌⊎◌, ◌++◌, ◌+◌, ◌-◌, ◌<◌, ◌≤◌, ◌^◌, ℕ, [], Some, IsErrOf, List as ListOf, OnOk, length, slice_get};

use crate::telling::{send_held, send_large};
use fp_model::{Bytes, Defs, MsdbDef};
use fp_restart::{RestartFault, restart};
use fp_show::{put_msdb_head, put_msdb_line};
use fp_site::Site;
use log_groups::Front;
use msdb_store::MsdbStore;
use std::alloc::Global;

/// Restarts, and sends the text of the main storage databases, of a log of either format. Nothing is written; the log
/// is synced.
///
/// `Foreign` and `Damaged` come as from a restart, and nothing is sent then. Where the site fails or memory is short a
/// first part of the text may be sent. The text goes out in parts of about 65,536 bytes, and no more of it is held.
pub fn show<T: Site>(
    alloc: Global,
    defs: &Defs,
    front: &Front,
    site: &mut T,
) -> Result<(), RestartFault>
    requires fits { FitsFront (as_front front.now) }
    requires each { AllByRecursion IsMsdbDef defs.now.msdbs }
    requires few { length defs.now.msdbs ≤ 256 }

    // The text of the databases that the log makes is sent, whole at Ok.
    ensures shown { T.told site.old
        → OnOk result (IsDbSent defs.now (as_front front.now) (T.disk site.old) (T.disk site.new)) }
    ensures sends { T.told site.old → SendsDb defs.now (as_front front.now) (T.disk site.old) (T.disk site.new) }

    // What was shown is for good: each crash leaves the log that it was read from.
    ensures rests { T.told site.old → OnOk result (IsDurable (T.disk site.new) 0) }

    // Of a sound log it is that of the last state of its history.
    ensures means { (format : ℕ) (scripts : ListOf Script) (entries : ListOf Entry) (last : DbOf) → T.told site.old
        → IsSound defs.now scripts (in_format format (as_front front.now)) ((T.disk site.old).contents 0) entries
        → IsSerialHistory (rules_of defs.now scripts) format entries last
        → OnOk result ((T.disk site.new).sent ≡ (T.disk site.old).sent ++ msdbs_text defs.now last.msdbs) }

    // When each refusal comes. Behind one of these two nothing was sent.
    ensures foreign { T.told site.old → IsErrOf result faults.Foreign
        → ((T.disk site.new).sent ≡ (T.disk site.old).sent)
        × (BeginsFor (as_front front.now) ((T.disk site.old).contents 0) → ⊥) }
    ensures damaged { (set at : ℕ) → T.told site.old → IsErrOf result (faults.Damaged set at)
        → ((T.disk site.new).sent ≡ (T.disk site.old).sent) × (set ≡ 0)
        × BeginsFor (as_front front.now) ((T.disk site.old).contents 0)
        × IsFirstBadAt defs.now ((T.disk site.old).contents 0) (first_gate (as_front front.now)) at }
    ensures cause { IsErrOf result faults.SiteFault → (T.faults site.old < T.faults site.new)
        ⊎ (T.faults site.new ≡ 2 ^ 64 - 1) }
    ensures stayed { (IsErrOf result faults.SiteFault → ⊥) → T.faults site.new ≡ T.faults site.old }

    // Each byte of the log is read once, and no other data set.
    ensures once { T.told site.old → T.tells_reads site.new 0 → ReadsOnce (as_front front.now)
        ((T.disk site.old).contents 0) (T.bytes_read site.old 0) (T.bytes_read site.new 0) }
    ensures only_log { ReadsOnlyLog (T.tells_reads site.old) (T.tells_reads site.new) (T.bytes_read site.old)
        (T.bytes_read site.new) }
    ensures site { IsContinued T.told T.faults T.holds T.keeps site.old site.new }
{
    let (store, _log, _lasts) = restart(alloc, defs, front, site)?;
    send_databases(alloc, defs, &store, site)
}

// Sends the text of the databases of a store.
fn send_databases<T: Site>(
    alloc: Global,
    defs: &Defs,
    store: &MsdbStore,
    site: &mut T,
) -> Result<(), RestartFault>
    requires few { length defs.now.msdbs ≤ 256 }
    requires of { length store.now.msdbs ≡ length defs.now.msdbs }
    ensures sent { T.told site.old → OnOk result
        (HasSent (T.disk site.old) (T.disk site.new) (msdbs_text defs.now store.now.msdbs)) }
    ensures part { T.told site.old
        → HasSentPart (T.disk site.old) (T.disk site.new) (msdbs_text defs.now store.now.msdbs) }
    ensures never { (IsErrOf result faults.Foreign → ⊥) × ((set at : ℕ) → IsErrOf result (faults.Damaged set at) → ⊥) }
    ensures cause { IsErrOf result faults.SiteFault → (T.faults site.old < T.faults site.new)
        ⊎ (T.faults site.new ≡ 2 ^ 64 - 1) }
    ensures stayed { (IsErrOf result faults.SiteFault → ⊥) → T.faults site.new ≡ T.faults site.old }
    ensures reads { ReadsNothing (T.tells_reads site.old) (T.tells_reads site.new) (T.bytes_read site.old)
        (T.bytes_read site.new) }
    ensures site { IsContinued T.told T.faults T.holds T.keeps site.old site.new }
{
    let mut held = Bytes::new(alloc);
    for (number, def) in defs.msdbs.as_slice().iter().enumerate() {
        tell_database(alloc, def, store, number as u8, &mut held, site)?;
    }
    send_held(alloc, site, &mut held)?;
    Ok(())
}

// Adds the text of one database to what is held back, and sends large parts of it.
fn tell_database<T: Site>(
    alloc: Global,
    def: &MsdbDef,
    store: &MsdbStore,
    number: u8,
    held: &mut Bytes,
    site: &mut T,
) -> Result<(), RestartFault>
    requires { number < length store.now.msdbs }
    ensures all { (its : MsdbOf) → slice_get store.now.msdbs number ≡ Some its → T.told site.old → OnOk result
        (IsTold (T.disk site.old) (T.disk site.new) (held.old ++ msdb_text def.now its) held.new []) }
    ensures part { (its : MsdbOf) → slice_get store.now.msdbs number ≡ Some its → T.told site.old
        → HasSentPart (T.disk site.old) (T.disk site.new) (held.old ++ msdb_text def.now its) }
    ensures never { (IsErrOf result faults.Foreign → ⊥) × ((set at : ℕ) → IsErrOf result (faults.Damaged set at) → ⊥) }
    ensures cause { IsErrOf result faults.SiteFault → (T.faults site.old < T.faults site.new)
        ⊎ (T.faults site.new ≡ 2 ^ 64 - 1) }
    ensures stayed { (IsErrOf result faults.SiteFault → ⊥) → T.faults site.new ≡ T.faults site.old }
    ensures reads { ReadsNothing (T.tells_reads site.old) (T.tells_reads site.new) (T.bytes_read site.old)
        (T.bytes_read site.new) }
    ensures site { IsContinued T.told T.faults T.holds T.keeps site.old site.new }
{
    let count = store.count(number);
    put_msdb_head(alloc, held, def, count as u64)?;
    for place in 0..count {
        let Some(segment) = store.segment_at(number, place) else {
            unreachable!()
        };
        put_msdb_line(alloc, held, def, segment)?;
        send_large(alloc, site, held)?;
    }
    Ok(())
}
