//! A Purge of an area: control's begin moves.

ghost use Rattle.std.specs.Prelude.{◌≡◌, ◌≢◌, ◌-◌, ◌*◌, ◌<◌, ◌≤◌, ◌^◌, ℕ, List as ListOf, Err, Some, IfOk, IsErrOf, OnErr, OnOk, IsOk, IsSome, IsTrue, length};
ghost use Rattle.std.specs.Ordering.{nat_cmp};
ghost use Rattle.std.specs.BTreeMap.{get};
ghost use Rattle.fp_lists.specs.Faults.{Rose};
ghost use Rattle.ci_space.specs.Interval.{is_size};
ghost use Rattle.held_intervals.specs.Holding.{held_or};
ghost use Rattle.seq_dependents.specs.Control.{IsControl};
ghost use Rattle.area_states.specs.Changes.{purged};
ghost use Rattle.area_redo.specs.Redo.{AreaBytes, redone};
ghost use Rattle.area_states.specs.Databases.{AreFor};
ghost use Rattle.fp_model.specs.Commit.{purged as purged_databases};
ghost use Rattle.fp_model.specs.Shape.{IsDbOf};
ghost use Rattle.fp_model.specs.declared.database.Db.{Db};
ghost use Rattle.area_redo.specs.Standing.{Way, behind};
ghost use Rattle.area_states.specs.Places.{IsPlace, counted_by, place_at, places_of};
ghost use Rattle.area_states.specs.States.{AreaState, HasState};
ghost use Rattle.area_states.specs.declared.place.Place.{Place as PlaceOf};
ghost use Rattle.dedb_area.specs.Anchors.{intervals_of};
ghost use Rattle.dedb_area.specs.inside.Anchors.{ShowsArea};
ghost use Rattle.fp_model.specs.State.{first_area_set};
ghost use Rattle.ci_pool.specs.Held.{HasSize, pending_at};
ghost use Rattle.area_staging.specs.Items.{IsChange, is_imaged, items_in};
ghost use Rattle.area_staging.specs.Looking.{LooksAt};
ghost use Rattle.dedb_area.specs.Purging.{IsPurgeStaged, IsPurged, MayPurge, with_control};
ghost use Rattle.dedb_area.specs.inside.Purging.{IsControlStaged, StagesPurge};
ghost use Rattle.area_staging.specs.Flags.{AreFlagged};
ghost use Rattle.area_staging.specs.Changing.{AreStagedBy, IsFitFor};
ghost use Rattle.dedb_area.specs.Committing.{IsFitItem};
ghost use Rattle.fp_model.specs.Items.{IsFit};
ghost use Rattle.fp_model.specs.declared.definitions.Defs.{Defs as DefsOf};
ghost use Rattle.std.specs.List.{AllByRecursion};
ghost use Rattle.dedb_area.specs.Appending.{MayEnter, StagesInAreas};
ghost use Rattle.dedb_area.specs.Standing.{AreasStand, IsUnstaged};
ghost use Rattle.dedb_area.specs.declared.fault.AreaFault.{AreaFault as FaultOf};
ghost use Rattle.dedb_area.specs.declared.fault.AreaFault.TheVariants as fault;

use crate::counting::count_in;
use crate::reading::{control, ends_in, place_in};
use crate::{AreaFault, Areas};
use area_staging::{Staging, is_imaged, item_of, make_room, rest};
use area_states::Place;
use ci_pool::Pool;
use ci_space::Interval;
use fp_lists::Bytes;
use fp_model::{Item, List};
use fp_site::Site;
use seq_dependents::{SeqFault, purge};
use std::alloc::Global;
use std::collections::BTreeMap;

/// Control of the area of this data set as it is staged, where a purge was done; None where it isn't staged.
fn control_of(
    done: Result<u64, SeqFault>,
    mut staged: BTreeMap<u64, Interval>,
    set: u16,
) -> Result<Option<Interval>, AreaFault>
    ensures same { IfOk result (λ control. control ≡ get nat_cmp staged 0) }
    ensures done { OnOk result (IsOk done) }
    ensures damaged { (s at : ℕ) → result ≡ Err (fault.Damaged s at)
        → (ci : ℕ) × (done ≡ Err (SeqFault.Damaged ci)) × (s ≡ set) × (at ≡ 0) }
    ensures failed { IsErrOf result fault.Device → IsErrOf done SeqFault.Failed }
    ensures full { (s begin end m : ℕ) → result ≡ Err (fault.SeqFull s begin end m)
        → done ≡ Err (SeqFault.Full begin end m) }
{
    match done {
        Ok(_) => Ok(staged.remove(&0)),
        Err(SeqFault::Full { begin, end, n }) => Err(AreaFault::SeqFull { set, begin, end, n }),
        Err(SeqFault::Damaged(_)) => Err(AreaFault::Damaged { set, at: 0 }),
        Err(SeqFault::Failed) => Err(AreaFault::Device),
        Err(SeqFault::Memory) => Err(AreaFault::Memory),
    }
}

/// Control of an area of so many intervals, as a purge of `n` serials leaves it; None where it stays. Neither the pool nor
/// the site has it.
fn purged<T: Site>(
    alloc: Global,
    pool: &mut Pool,
    site: &mut T,
    place: &Place,
    set: u16,
    count: u64,
    n: u64,
) -> Result<Option<Interval>, AreaFault>
    requires size { IsTrue (is_size place.now.shape.ci) }
    requires ends { count * place.now.shape.ci ≤ 2 ^ 62 }
    ensures purged { T.told site.old → (bytes : ℕ → ListOf ℕ)
        → ShowsArea place.now set (T.disk site.old).contents pool.old bytes
        → count ≡ counted_by (Some place.now) (bytes 0)
        → IfOk result (λ control. IsPurged n (bytes 0) (held_or control (bytes 0))) }
    ensures damaged { T.told site.old → (bytes : ℕ → ListOf ℕ)
        → ShowsArea place.now set (T.disk site.old).contents pool.old bytes
        → count ≡ counted_by (Some place.now) (bytes 0)
        → (s at : ℕ) → result ≡ Err (fault.Damaged s at) → ¬ IsControl (intervals_of place.now bytes) }
    ensures first { (s at : ℕ) → result ≡ Err (fault.Damaged s at) → (s ≡ set) × (at ≡ 0) }
    ensures never_full { (s begin end m : ℕ) → result ≢ Err (fault.SeqFull s begin end m) }
    ensures failed { IsErrOf result fault.Device → Rose (T.faults site.old) (T.faults site.new) }
    ensures size { IfOk result (λ control. (i : ListOf ℕ) → control ≡ Some i → length i ≡ place.now.shape.ci) }
    ensures looks { LooksAt T.told T.disk T.faults T.holds T.keeps set place.now.shape.ci site.old site.new pool.old
        pool.new }
{
    let mut staging = Staging::new(alloc, pool, site, set, place.shape.ci, count);
    let done = purge(&mut staging, n);
    let Staging {
        alloc: _,
        pool,
        site,
        set: _,
        size: _,
        count: _,
        staged,
    } = staging;
    let control = control_of(done, staged, set);
    rest(pool, site);
    control
}

/// Control of an area, and as a purge of `n` serials leaves it; None where it stays. Neither the pool nor the site has that.
fn control_purged<T: Site>(
    alloc: Global,
    pool: &mut Pool,
    site: &mut T,
    place: &Place,
    set: u16,
    n: u64,
) -> Result<(Interval, Option<Interval>), AreaFault>
    requires { IsTrue (is_size place.now.shape.ci) }
    ensures old { T.told site.old → (bytes : ℕ → ListOf ℕ)
        → ShowsArea place.now set (T.disk site.old).contents pool.old bytes
        → IfOk result (λ control. control.0 ≡ bytes 0) }
    ensures purged { T.told site.old → (bytes : ℕ → ListOf ℕ)
        → ShowsArea place.now set (T.disk site.old).contents pool.old bytes
        → IfOk result (λ control. IsPurged n (bytes 0) (held_or control.1 (bytes 0))) }
    ensures size { IfOk result (λ control. length control.0 ≡ place.now.shape.ci) }
    ensures new_size { IfOk result (λ control. (i : ListOf ℕ) → control.1 ≡ Some i → length i ≡ place.now.shape.ci) }
    ensures damaged { T.told site.old → (bytes : ℕ → ListOf ℕ)
        → ShowsArea place.now set (T.disk site.old).contents pool.old bytes
        → (s at : ℕ) → result ≡ Err (fault.Damaged s at) → ¬ MayPurge place.now (bytes 0) }
    ensures sound { T.told site.old → (bytes : ℕ → ListOf ℕ)
        → ShowsArea place.now set (T.disk site.old).contents pool.old bytes
        → OnOk result (MayPurge place.now (bytes 0)) }
    ensures first { (s at : ℕ) → result ≡ Err (fault.Damaged s at) → (s ≡ set) × (at ≡ 0) }
    ensures never_full { (s begin end m : ℕ) → result ≢ Err (fault.SeqFull s begin end m) }
    ensures failed { IsErrOf result fault.Device → Rose (T.faults site.old) (T.faults site.new) }
    ensures looks { LooksAt T.told T.disk T.faults T.holds T.keeps set place.now.shape.ci site.old site.new pool.old
        pool.new }
{
    let old = control(pool, site, place, set)?;
    if ends_in(&old, place.capacity).is_none() {
        return Err(AreaFault::Damaged { set, at: 0 });
    }
    let count = match count_in(&old, &place.shape) {
        Some(count) => count,
        None => return Err(AreaFault::Damaged { set, at: 0 }),
    };
    let new = purged(alloc, pool, site, place, set, count, n)?;
    Ok((old, new))
}

/// Stages control of an area with other bytes, and gives its item; None where they are the same, and then nothing is
/// staged. There is room for its flag then. After want of memory nothing is staged.
fn stage_control(
    alloc: Global,
    pool: &mut Pool,
    imaged: &mut Vec<List<bool>>,
    set: u16,
    old: &Interval,
    new: &Interval,
) -> Result<Option<Item>, AreaFault>
    requires area { first_area_set ≤ set }
    requires within { set - first_area_set < length imaged.old.items }
    requires same { length old.now ≡ length new.now }
    ensures item { IfOk result (IsChange (is_imaged imaged.old.items set 0) set 0 old.now new.now) }
    ensures staged { IfOk result (IsControlStaged set new.now imaged.new.items pool.old pool.new) }
    ensures err { OnErr result (pool.new ≡ pool.old) }
    ensures fit { IfOk result (λ item. AllByRecursion (IsFitFor set (length new.now)) (items_in item)) }
    ensures memory { (why : FaultOf) → result ≡ Err why → why ≡ fault.Memory }
    ensures pending { (s k : ℕ) → pending_at pool.new s k ≡ pending_at pool.old s k }
    ensures list { pool.new.clean ≡ pool.old.clean }
    ensures sizes { (s n : ℕ) → (s ≡ set → length new.now ≡ n) → HasSize s n pool.old → HasSize s n pool.new }
    ensures flags { (s k : ℕ) → is_imaged imaged.new.items s k ≡ is_imaged imaged.old.items s k }
    ensures count { length imaged.new.items ≡ length imaged.old.items }
{
    // No effect at run time. The proof reads here that an interval is short.
    let _size = new.size();
    let has_item = is_imaged(imaged, set, 0);
    let Some(item) = item_of(alloc, set, 0, has_item, old.whole(), new.whole())? else {
        return Ok(None);
    };
    make_room(imaged, set, 0)?;
    pool.stage(set, 0, Bytes::from_slice(alloc, new.whole())?)?;
    Ok(Some(item))
}

/// Stages a Purge of an area: control with its begin moved up by `n`. Gives its item; None where control stays, and then
/// nothing is staged. After a refusal nothing is staged.
fn stage_purged<T: Site>(
    alloc: Global,
    pool: &mut Pool,
    site: &mut T,
    imaged: &mut Vec<List<bool>>,
    place: &Place,
    set: u16,
    n: u64,
) -> Result<Option<Item>, AreaFault>
    requires size { IsTrue (is_size place.now.shape.ci) }
    requires from { first_area_set ≤ set }
    requires within { set - first_area_set < length imaged.old.items }
    ensures { StagesPurge T.told T.disk T.faults T.holds T.keeps place.now set n site.old site.new pool.old pool.new
        imaged.old.items imaged.new.items result }
{
    let (old, new) = control_purged(alloc, pool, site, place, set, n)?;
    match new {
        None => Ok(None),
        Some(new) => stage_control(alloc, pool, imaged, set, &old, &new),
    }
}

impl Areas {
    /// Stages a Purge of an area: control's begin moves up by `n`, at most to the end. Gives the item of control; None
    /// where control stays as it is, and then nothing is staged. Nothing may be staged before. `Damaged` names the first
    /// byte of control. After a refusal nothing is staged.
    pub fn stage_purge<T: Site>(
        &mut self,
        site: &mut T,
        set: u16,
        n: u64,
    ) -> Result<Option<Item>, AreaFault>
        requires { IsSome (place_at self.old.places set) }

        // The item, and what is staged, by the newest bytes of control.
        ensures purged { T.told site.old → (way : Way) (bytes : AreaBytes)
            → AreasStand way bytes (T.disk site.old) self.old
            → IfOk result (IsPurgeStaged n set (is_imaged self.old.imaged set 0) (behind way.unsealed bytes set 0)
            self.new.pool) }
        ensures fit { IfOk result (λ item. AllByRecursion (IsFitItem self.old.places) (items_in item)) }
        ensures defined { (defs : DefsOf) → self.old.places ≡ places_of defs
            → IfOk result (λ item. AllByRecursion (IsFit defs) (items_in item)) }
        ensures flagged { IfOk result (λ item. AreFlagged self.new.imaged (items_in item)) }
        ensures staged { T.told site.old → (way : Way) (bytes : AreaBytes)
            → AreasStand way bytes (T.disk site.old) self.old
            → IfOk result (λ item. AreStagedBy (items_in item) (behind way.unsealed bytes) self.new.pool) }
        ensures enters { T.told site.old → (way : Way) (bytes : AreaBytes)
            → AreasStand way bytes (T.disk site.old) self.old
            → IfOk result (λ item. MayEnter way bytes self.old (items_in item)) }

        // The item makes of the newest bytes those of the databases behind the Purge.
        ensures databases { T.told site.old → (way : Way) (bytes : AreaBytes) (defs : DefsOf) (db behind_it : Db)
            → AreasStand way bytes (T.disk site.old) self.old → self.old.places ≡ places_of defs
            → AreFor self.old.places (behind way.unsealed bytes) db → IsDbOf defs db
            → purged_databases defs set n db ≡ Some behind_it
            → IfOk result (λ item. AreFor self.old.places (redone (items_in item) (behind way.unsealed bytes))
            behind_it) }

        // When it refuses.
        ensures damaged { T.told site.old → (way : Way) (bytes : AreaBytes) (place : PlaceOf) (s at : ℕ)
            → AreasStand way bytes (T.disk site.old) self.old → place_at self.old.places set ≡ Some place
            → result ≡ Err (fault.Damaged s at)
            → ¬ MayPurge place (behind way.unsealed bytes set 0) }
        ensures sound { T.told site.old → (way : Way) (bytes : AreaBytes) (place : PlaceOf)
            → AreasStand way bytes (T.disk site.old) self.old → place_at self.old.places set ≡ Some place
            → OnOk result (MayPurge place (behind way.unsealed bytes set 0)) }
        ensures first { (s at : ℕ) → result ≡ Err (fault.Damaged s at) → (s ≡ set) × (at ≡ 0) }
        ensures failed { IsErrOf result fault.Device → Rose (T.faults site.old) (T.faults site.new) }
        ensures never_full { (s begin end m : ℕ) → result ≢ Err (fault.SeqFull s begin end m) }

        // Then nothing is staged, and the areas stand as before.
        ensures unstaged { IsUnstaged self.old.pool → OnErr result (IsUnstaged self.new.pool) }
        ensures stands { T.told site.old → (way : Way) (bytes : AreaBytes)
            → AreasStand way bytes (T.disk site.old) self.old
            → OnErr result (AreasStand way bytes (T.disk site.new) self.new) }

        // No area changes, at any moment; the pool may have other clean intervals.
        ensures stages { StagesInAreas T.told T.disk T.faults T.holds T.keeps site.old site.new self.old self.new }
    {
        let places: &[Place] = &self.places;
        let place = place_in(places, set);
        stage_purged(
            self.alloc,
            &mut self.pool,
            site,
            &mut self.imaged,
            place,
            set,
            n,
        )
    }
}

/// Where control's begin moves as a Purge moves it, and no other interval changes, the area has the state with that begin:
/// older serials leave their roots.
pub fn a_purged_area_has_the_purged_state()
    ensures { (place : PlaceOf) (bytes : ℕ → ListOf ℕ) (control : ListOf ℕ) (n : ℕ) (state : AreaState)
        → IsPlace place
        → HasState place (intervals_of place bytes) state
        → IsPurged n (bytes 0) control
        → HasState place (intervals_of place (with_control control bytes)) (purged n state) }
{}
