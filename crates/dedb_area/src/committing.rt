//! Changed anchors and sequential inserts of a commit are staged: in each area, one after another, the intervals that they
//! change, each with its item.

ghost use Rattle.std.specs.Prelude.{◌≡◌, ◌≢◌, ◌-◌, ◌<◌, ◌≤◌, ◌∷◌, [], ℕ, Err, None, Ok, Some, IfOk, IsErrOf, OnErr, OnOk, length, true};
ghost use Rattle.std.specs.List.{AllByRecursion};
ghost use Rattle.fp_model.specs.Commit.{FillsPart, first_full, with_anchors, with_inserts};
ghost use Rattle.fp_model.specs.ItemTargets.{is_ascending};
ghost use Rattle.fp_model.specs.Items.{IsFit};
ghost use Rattle.fp_model.specs.State.{areas_of, first_area_set, roots_at};
ghost use Rattle.fp_model.specs.declared.calls.AnchorChange.{AnchorChange as ChangeOf};
ghost use Rattle.root_changes.specs.Differing.{RootsDiffer};
ghost use Rattle.fp_model.specs.declared.database.Db.{Db};
ghost use Rattle.fp_model.specs.declared.definitions.Defs.{Defs as DefsOf};
ghost use Rattle.fp_site.specs.Site.{ReadsNothing};
ghost use Rattle.fp_lists.specs.Faults.{Rose};
ghost use Rattle.ci_pool.specs.declared.fault.PoolFault.TheVariants as pool_fault;
ghost use Rattle.area_redo.specs.Redo.{AreaBytes, redone};
ghost use Rattle.area_redo.specs.Standing.{Way, behind};
ghost use Rattle.area_states.specs.Changes.{IsInsertable, IsStorable};
ghost use Rattle.area_states.specs.Databases.{AreFor};
ghost use Rattle.area_states.specs.Places.{ArePlaces, IsPlace, places_of};
ghost use Rattle.area_staging.specs.Changing.{AreStagedBy};
ghost use Rattle.area_staging.specs.Flags.{AreFlagged};
ghost use Rattle.area_staging.specs.Items.{is_imaged};
ghost use Rattle.ci_pool.specs.Held.{SameAtHand};
ghost use Rattle.dedb_area.specs.Anchors.{AreInTime};
ghost use Rattle.dedb_area.specs.Appending.{MayEnter, StagesInAreas};
ghost use Rattle.dedb_area.specs.Committing.{ConcernedAreAtHand, FitsCommit, IsBeginIn, IsFitItem, IsLeast, MayStage, OnlyChanges, committed, has_change, has_insert, is_concerned};
ghost use Rattle.dedb_area.specs.inside.Staging.{StageAreas, StagesArea};
ghost use Rattle.dedb_area.specs.Standing.{AreasStand, IsUnstaged};
ghost use Rattle.dedb_area.specs.declared.fault.AreaFault.TheVariants as fault;

use crate::anchors::has_anchor;
use crate::changing::changed_intervals;
use crate::counting::counted;
use crate::syncing::FIRST_AREA;
use crate::{AreaFault, Areas};
use area_staging::{Extent, stage_changed};
use area_states::Place;
use ci_pool::{Pool, PoolFault};
use fp_model::{AnchorChange, Item, List, SeqInsert};
use fp_site::Site;
use std::alloc::Global;

/// Whether a changed anchor is one of the area.
fn has_change(place: &Place, changes: &[AnchorChange]) -> bool
    ensures { result ≡ has_change place.now changes.now }
{
    for change in changes {
        if has_anchor(place, change.dedb, change.anchor) {
            return true;
        }
    }
    false
}

/// Whether a sequential insert is one of the area.
fn has_insert(place: &Place, inserts: &[SeqInsert]) -> bool
    ensures { result ≡ has_insert place.now inserts.now }
{
    for insert in inserts {
        if has_anchor(place, insert.dedb, insert.anchor) {
            return true;
        }
    }
    false
}

/// Whether a changed anchor or an insert is one of the area.
fn is_concerned(place: &Place, changes: &[AnchorChange], inserts: &[SeqInsert]) -> bool
    ensures { result ≡ is_concerned place.now changes.now inserts.now }
{
    has_change(place, changes) || has_insert(place, inserts)
}

/// The items of intervals that were staged; else the fault of the area.
fn given_items(staged: Result<List<Item>, PoolFault>) -> Result<List<Item>, AreaFault>
    ensures same { IfOk result (λ items. staged ≡ Ok items) }
    ensures failed { IsErrOf result fault.Device → IsErrOf staged pool_fault.Failed }
    ensures never_damaged { (s at : ℕ) → result ≢ Err (fault.Damaged s at) }
    ensures never_full { (s begin end n : ℕ) → result ≢ Err (fault.SeqFull s begin end n) }
{
    match staged {
        Ok(items) => Ok(items),
        Err(PoolFault::Failed) => Err(AreaFault::Device),
        Err(PoolFault::Memory) => Err(AreaFault::Memory),
    }
}

/// Stages an area that changed anchors or inserts are of. After a fault some of its intervals may be staged.
fn stage_area<T: Site>(
    alloc: Global,
    pool: &mut Pool,
    site: &mut T,
    imaged: &mut Vec<List<bool>>,
    place: &Place,
    set: u16,
    changes: &[AnchorChange],
    inserts: &[SeqInsert],
) -> Result<List<Item>, AreaFault>
    requires place { IsPlace place.now }
    requires from { first_area_set ≤ set }
    requires within { set - first_area_set < length imaged.old.items }
    requires concerned { is_concerned place.now changes.now inserts.now ≡ true }
    requires storable { AllByRecursion (IsStorable place.now) changes.now }
    requires insertable { AllByRecursion (IsInsertable place.now) inserts.now }
    ensures { StagesArea T.told T.disk T.faults T.holds T.keeps T.tells_reads T.bytes_read place.now set changes.now
        inserts.now site.old site.new pool.old pool.new imaged.old.items imaged.new.items result }
{
    let count = counted(pool, site, place, set)?;
    let area = Extent {
        set,
        size: place.shape.ci,
        count,
    };
    let changed = changed_intervals(alloc, pool, site, place, area, changes, inserts)?;
    let staged = stage_changed(alloc, pool, site, imaged, area, changed);
    given_items(staged)
}

/// Stages an area, where a changed anchor or an insert is of it; else nothing happens.
fn stage_here<T: Site>(
    alloc: Global,
    pool: &mut Pool,
    site: &mut T,
    imaged: &mut Vec<List<bool>>,
    place: &Place,
    set: u16,
    changes: &[AnchorChange],
    inserts: &[SeqInsert],
) -> Result<List<Item>, AreaFault>
    requires place { IsPlace place.now }
    requires from { first_area_set ≤ set }
    requires within { set - first_area_set < length imaged.old.items }
    requires storable { AllByRecursion (IsStorable place.now) changes.now }
    requires insertable { AllByRecursion (IsInsertable place.now) inserts.now }
    ensures { StagesArea T.told T.disk T.faults T.holds T.keeps T.tells_reads T.bytes_read place.now set changes.now
        inserts.now site.old site.new pool.old pool.new imaged.old.items imaged.new.items result }
{
    if is_concerned(place, changes, inserts) {
        return stage_area(alloc, pool, site, imaged, place, set, changes, inserts);
    }
    Ok(List::new(alloc))
}

/// Stages all areas that changed anchors and inserts are of, in their order. Gives the items. After a fault some may be
/// staged.
fn stage_all<T: Site>(
    alloc: Global,
    pool: &mut Pool,
    site: &mut T,
    imaged: &mut Vec<List<bool>>,
    places: &[Place],
    changes: &[AnchorChange],
    inserts: &[SeqInsert],
) -> Result<List<Item>, AreaFault>
    requires places { ArePlaces places.now }
    requires few { length places.now ≤ 256 }
    requires each { length imaged.old.items ≡ length places.now }
    requires stageable { MayStage places.now changes.now inserts.now }
    ensures { StageAreas T.told T.disk T.faults T.holds T.keeps T.tells_reads T.bytes_read places.now
        (length places.now) changes.now inserts.now site.old site.new pool.old pool.new imaged.old.items imaged.new.items result }
{
    let mut items = List::new(alloc);
    let mut set = FIRST_AREA;
    for place in places {
        let more = stage_here(alloc, pool, site, imaged, place, set, changes, inserts)?;
        items.append(more)?;
        set += 1;
    }
    Ok(items)
}

impl Areas {
    /// Stages changed anchors and sequential inserts of a commit. After a fault some intervals may be staged.
    fn stage_places<T: Site>(
        &mut self,
        site: &mut T,
        changes: &List<AnchorChange>,
        inserts: &List<SeqInsert>,
    ) -> Result<List<Item>, AreaFault>
        requires { MayStage self.old.places changes.now inserts.now }
        ensures done { StageAreas T.told T.disk T.faults T.holds T.keeps T.tells_reads T.bytes_read self.old.places
            (length self.old.places) changes.now inserts.now site.old site.new self.old.pool self.new.pool
            self.old.imaged self.new.imaged result }
        ensures stages { StagesInAreas T.told T.disk T.faults T.holds T.keeps site.old site.new self.old self.new }
    {
        let places: &[Place] = &self.places;
        stage_all(
            self.alloc,
            &mut self.pool,
            site,
            &mut self.imaged,
            places,
            changes.as_slice(),
            inserts.as_slice(),
        )
    }

    /// Stages changed anchors and sequential inserts of a commit. Gives the items of the intervals that they change: an
    /// image where the interval has no item since the mark or is new in its area, else the range in which it differs, and
    /// none where its bytes stay. Nothing may be staged before.
    ///
    /// `SeqFull` names the first area whose sequential part has no room for the inserts of it. `Damaged` names the first
    /// byte of the interval that is at fault. After a refusal nothing is staged.
    ///
    /// Costs for each area that has some of them one read of control, `store_all` and `append_all` of `area_states`, and
    /// a `get` of each interval that these put. Other areas aren't read.
    pub fn stage<T: Site>(
        &mut self,
        site: &mut T,
        changes: &List<AnchorChange>,
        inserts: &List<SeqInsert>,
    ) -> Result<List<Item>, AreaFault>
        requires { MayStage self.old.places changes.now inserts.now }

        // The items make of the newest bytes those of the databases behind the commit.
        ensures committed { T.told site.old → (way : Way) (bytes : AreaBytes) (defs : DefsOf) (db : Db)
            → AreasStand way bytes (T.disk site.old) self.old → self.old.places ≡ places_of defs
            → AreFor self.old.places (behind way.unsealed bytes) db → FitsCommit defs db changes.now inserts.now
            → IfOk result (λ items. AreFor self.old.places (redone items (behind way.unsealed bytes))
            (with_inserts defs inserts.now (with_anchors changes.now db))) }

        // Just the intervals that they name are staged, and an entry with them may enter.
        ensures staged { T.told site.old → (way : Way) (bytes : AreaBytes) (defs : DefsOf) (db : Db)
            → AreasStand way bytes (T.disk site.old) self.old → self.old.places ≡ places_of defs
            → AreFor self.old.places (behind way.unsealed bytes) db → FitsCommit defs db changes.now inserts.now
            → IfOk result (λ items. AreStagedBy items (behind way.unsealed bytes) self.new.pool) }
        ensures enters { T.told site.old → (way : Way) (bytes : AreaBytes) (defs : DefsOf) (db : Db)
            → AreasStand way bytes (T.disk site.old) self.old → self.old.places ≡ places_of defs
            → AreFor self.old.places (behind way.unsealed bytes) db → FitsCommit defs db changes.now inserts.now
            → IfOk result (λ items. MayEnter way bytes self.old items) }
        ensures other { T.told site.old → (way : Way) (bytes : AreaBytes) (defs : DefsOf) (db : Db)
            → AreasStand way bytes (T.disk site.old) self.old → self.old.places ≡ places_of defs
            → AreFor self.old.places (behind way.unsealed bytes) db → FitsCommit defs db changes.now inserts.now
            → IfOk result (OnlyChanges self.old.places (behind way.unsealed bytes)) }
        ensures fit { IfOk result (AllByRecursion (IsFitItem self.old.places)) }
        ensures defined { (defs : DefsOf) → self.old.places ≡ places_of defs
            → IfOk result (AllByRecursion (IsFit defs)) }
        ensures in_order { IfOk result (λ items. is_ascending items ≡ true) }
        ensures flagged { IfOk result (AreFlagged self.new.imaged) }

        // One that stood has an image only where it had no item since the mark, and a range begins and ends with a byte that
        // differs.
        ensures least { T.told site.old → (way : Way) (bytes : AreaBytes)
            → AreasStand way bytes (T.disk site.old) self.old
            → IfOk result (AllByRecursion (IsLeast self.old.places (is_imaged self.old.imaged)
            (behind way.unsealed bytes))) }

        // Where one segment changes alone, of one anchor, there is one item in all.
        ensures one { T.told site.old → (way : Way) (bytes : AreaBytes) (defs : DefsOf) (db : Db) (c : ChangeOf)
            → AreasStand way bytes (T.disk site.old) self.old → self.old.places ≡ places_of defs
            → AreFor self.old.places (behind way.unsealed bytes) db → FitsCommit defs db changes.now inserts.now
            → changes.now ≡ c ∷ [] → inserts.now ≡ [] → RootsDiffer (roots_at db c.dedb c.anchor) c.roots
            → IfOk result (λ items. length items ≡ 1) }

        // It is full exactly where the databases say so.
        ensures full { T.told site.old → (way : Way) (bytes : AreaBytes) (defs : DefsOf) (db : Db)
            → AreasStand way bytes (T.disk site.old) self.old → self.old.places ≡ places_of defs
            → AreFor self.old.places (behind way.unsealed bytes) db → FitsCommit defs db changes.now inserts.now
            → (s begin end n : ℕ) → result ≡ Err (fault.SeqFull s begin end n)
            → first_full db inserts.now first_area_set (areas_of defs) ≡ Some (FillsPart s begin end n) }
        ensures room { T.told site.old → (way : Way) (bytes : AreaBytes) (defs : DefsOf) (db : Db)
            → AreasStand way bytes (T.disk site.old) self.old → self.old.places ≡ places_of defs
            → AreFor self.old.places (behind way.unsealed bytes) db → FitsCommit defs db changes.now inserts.now
            → OnOk result (first_full db inserts.now first_area_set (areas_of defs) ≡ None) }

        // Then nothing is damaged. Else an interval is named by its first byte; it fails only with the site.
        ensures sound { T.told site.old → (way : Way) (bytes : AreaBytes) (defs : DefsOf) (db : Db)
            → AreasStand way bytes (T.disk site.old) self.old → self.old.places ≡ places_of defs
            → AreFor self.old.places (behind way.unsealed bytes) db → FitsCommit defs db changes.now inserts.now
            → AreInTime self.old.places (behind way.unsealed bytes) → (s at : ℕ)
            → result ≢ Err (fault.Damaged s at) }
        ensures begins { (s at : ℕ) → result ≡ Err (fault.Damaged s at) → IsBeginIn self.old.places s at }
        ensures failed { IsErrOf result fault.Device → Rose (T.faults site.old) (T.faults site.new) }

        // Where each interval of the areas concerned is pending or clean, no byte of the site is read, and all that is at
        // hand stays.
        ensures unread { T.told site.old → (way : Way) (bytes : AreaBytes)
            → AreasStand way bytes (T.disk site.old) self.old
            → ConcernedAreAtHand self.old.places self.old.pool (behind way.unsealed bytes) changes.now inserts.now
            → ReadsNothing (T.tells_reads site.old) (T.tells_reads site.new) (T.bytes_read site.old)
            (T.bytes_read site.new) }
        ensures hand { T.told site.old → (way : Way) (bytes : AreaBytes)
            → AreasStand way bytes (T.disk site.old) self.old
            → ConcernedAreAtHand self.old.places self.old.pool (behind way.unsealed bytes) changes.now inserts.now
            → SameAtHand self.old.pool self.new.pool }

        // After a refusal nothing is staged, and the areas stand as before.
        ensures unstaged { OnErr result (IsUnstaged self.new.pool) }
        ensures stands { T.told site.old → (way : Way) (bytes : AreaBytes)
            → AreasStand way bytes (T.disk site.old) self.old
            → OnErr result (AreasStand way bytes (T.disk site.new) self.new) }

        // No area changes, at any moment; the pool may have other clean intervals.
        ensures stages { StagesInAreas T.told T.disk T.faults T.holds T.keeps site.old site.new self.old self.new }
    {
        match self.stage_places(site, changes, inserts) {
            Ok(items) => Ok(items),
            Err(fault) => {
                self.drop_staged();
                Err(fault)
            }
        }
    }
}
