//! Syncs of areas.

ghost use Rattle.std.specs.Prelude.{◌≡◌, ◌≢◌, ◌+◌, ◌≤◌, ℕ, Some, true, false, OnOk, slice_get, length};
ghost use Rattle.fp_site.specs.Disk.{IsDurable};
ghost use Rattle.fp_site.specs.Site.{ReadsNothing};
ghost use Rattle.fp_lists.specs.Continued.{IsContinued};
ghost use Rattle.fp_lists.specs.Faults.{Counts};
ghost use Rattle.fp_model.specs.State.{first_area_set};
ghost use Rattle.dedb_area.specs.inside.Keeping.{SyncsAreas};

use fp_site::{Failed, Site};

/// The number of the first area's data set: the log and the checkpoints come before.
pub(crate) const FIRST_AREA: u16 = 3;

/// Notes that a data set is written to, where it is an area.
pub(crate) fn note_write(unsynced: &mut Vec<bool>, set: u16)
    ensures noted { (number : ℕ) → slice_get unsynced.new.items number ≡ Some false
        → (slice_get unsynced.old.items number ≡ Some false) × (set ≢ first_area_set + number) }
    ensures count { length unsynced.new.items ≡ length unsynced.old.items }
{
    if set < FIRST_AREA {
        return;
    }
    let number = usize::from(set - FIRST_AREA);
    if number < unsynced.len() {
        unsynced[number] = true;
    }
}

/// Syncs an area, where it is needed.
fn sync_one<T: Site>(site: &mut T, needed: bool, set: u16) -> Result<(), Failed>
    requires { first_area_set ≤ set }
    ensures synced { T.told site.old → OnOk result (needed ≡ true → IsDurable (T.disk site.new) set) }
    ensures syncs { T.told site.old → SyncsAreas (T.disk site.old) (T.disk site.new) }
    ensures cause { Counts (T.faults site.old) (T.faults site.new) result }
    ensures reads { ReadsNothing (T.tells_reads site.old) (T.tells_reads site.new) (T.bytes_read site.old)
        (T.bytes_read site.new) }
    ensures site { IsContinued T.told T.faults T.holds T.keeps site.old site.new }
{
    if needed { site.sync(set) } else { Ok(()) }
}

/// Syncs the areas that have to be.
pub(crate) fn sync_all<T: Site>(site: &mut T, unsynced: &[bool]) -> Result<(), Failed>
    requires { length unsynced.now ≤ 256 }
    ensures synced { T.told site.old → OnOk result ((number : ℕ) → slice_get unsynced.now number ≡ Some true
        → IsDurable (T.disk site.new) (first_area_set + number)) }
    ensures syncs { T.told site.old → SyncsAreas (T.disk site.old) (T.disk site.new) }
    ensures cause { Counts (T.faults site.old) (T.faults site.new) result }
    ensures reads { ReadsNothing (T.tells_reads site.old) (T.tells_reads site.new) (T.bytes_read site.old)
        (T.bytes_read site.new) }
    ensures site { IsContinued T.told T.faults T.holds T.keeps site.old site.new }
{
    for number in 0..unsynced.len() {
        sync_one(site, unsynced[number], FIRST_AREA + number as u16)?;
    }
    Ok(())
}

/// No area has to be synced.
pub(crate) fn clear(unsynced: &mut Vec<bool>)
    ensures cleared { (number : ℕ) → slice_get unsynced.new.items number ≢ Some true }
    ensures count { length unsynced.new.items ≡ length unsynced.old.items }
{
    for number in 0..unsynced.len() {
        unsynced[number] = false;
    }
}
