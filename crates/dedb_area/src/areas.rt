//! The areas of a site: their intervals at hand, and which data sets have to be synced.

ghost use Rattle.std.specs.Prelude.{Err, IsErrOf, ◌≡◌, ◌≢◌, ◌+◌, ◌-◌, ◌≤◌, ◌<◌, ℕ, Ok, Some, None, true, false, IsSome, IfOk, OnOk, OnErr, IsTrue, slice_get, [], length, is_some};
ghost use Rattle.fp_site.specs.Site.{ReadsNothing};
ghost use Rattle.fp_lists.specs.Continued.{IsContinued};
ghost use Rattle.fp_lists.specs.Faults.{Counts, Rose};
ghost use Rattle.fp_model.specs.State.{roots_at};
ghost use Rattle.fp_model.specs.WellFormed.{AreDefs};
ghost use Rattle.ci_pool.specs.Held.{SameAtHand, pending_at, IsOldestSealed, NoneSealed, NoneOwes, IsFirstOwed, AreUnsealed};
ghost use Rattle.ci_pool.specs.declared.cell.Waiting.{Waiting as Pending};
ghost use Rattle.ci_pool.specs.declared.pool.Owed.TheVariants as owed;
ghost use Rattle.area_redo.specs.Redo.{AreaBytes};
ghost use Rattle.area_redo.specs.Standing.{Way, sealed_of, behind};
ghost use Rattle.fp_model.specs.declared.database.Db.{Db};
ghost use Rattle.fp_model.specs.declared.definitions.DedbDef.{DedbDef as DedbDefOf};
ghost use Rattle.fp_model.specs.declared.definitions.Defs.{Defs as DefsOf};
ghost use Rattle.fp_model.specs.Shape.{IsDbOf};
ghost use Rattle.area_laws.specs.Areas.{AreSentTo};
ghost use Rattle.area_states.specs.Databases.{AreFor};
ghost use Rattle.dedb_area.specs.Anchors.{AnchorIsAtHand, AreInTime, AreRootsOf, HasAnchorIn, IsDamagedFor};
ghost use Rattle.dedb_area.specs.Control.{ends_in, IsControlOf};
ghost use Rattle.area_staging.specs.Items.{is_imaged};
ghost use Rattle.dedb_area.specs.Looking.{LooksAtAreas};
ghost use Rattle.dedb_area.specs.Opening.{AreOpened};
ghost use Rattle.area_states.specs.Places.{places_of, place_at};
ghost use Rattle.area_states.specs.declared.place.Place.{Place as PlaceOf};
ghost use Rattle.dedb_area.specs.declared.fault.AreaFault.TheVariants as fault;
ghost use Rattle.dedb_area.specs.Standing.{IsFitPool, AreSynced, AreasStand};
ghost use Rattle.dedb_area.specs.Keeping.{AreDurable, KeepsAreas, OnlyAreas, IsWritten, NonePending, StillWaits};
ghost use Rattle.ci_pool.specs.Cells.{pending_number};

use crate::AreaFault;
use crate::anchors::{area_of, roots_at, some_area};
use crate::opening::places_of;
use crate::reading::{control, ends_in, place_in};
use crate::syncing::{clear, note_write, sync_all};
use area_staging::none_imaged;
use area_states::Place;
use ci_pool::{Owed, Pool};
use fp_model::{AreaEnds, Defs, List, Root};
use fp_site::{Failed, Site};
use std::alloc::{AllocError, Global};
use std::marker::Model;

/// The areas of a site. Contracts see them with their definitions, the pool of their intervals, which of them were
/// written to since they were synced, and which intervals have an item since the mark.
#[derive(Drop)]
pub struct Areas {
    pub(crate) alloc: Global,
    pub(crate) places: Vec<Place>,
    pub(crate) unsynced: Vec<bool>,
    pub(crate) imaged: Vec<List<bool>>,
    pub(crate) pool: Pool,
}

impl Model for Areas {
    ghost use Rattle.std.specs.Prelude.{◌≡◌, ◌≤◌, length};
    ghost use Rattle.area_states.specs.Places.{ArePlaces};
    ghost use Rattle.dedb_area.specs.Standing.{Holding};

    ghost Value = { Holding };

    ghost view = { λ a. record {
      places = a.places.items;
      unsynced = a.unsynced.items;
      imaged = a.imaged.items;
      pool = a.pool;
    } };

    ghost invariant = { λ a. (length a.unsynced.items ≡ length a.places.items) × ArePlaces a.places.items
        × (length a.imaged.items ≡ length a.places.items) × (length a.places.items ≤ 256) };
}

impl Areas {
    /// The areas of an installation, with this pool of their intervals. They count as synced, and no interval has an
    /// item since the mark. Fails only for want of memory.
    pub fn open(alloc: Global, defs: &Defs, pool: Pool) -> Result<Areas, AllocError>
        requires { AreDefs defs.now }
        ensures places { IfOk result (λ areas. areas.places ≡ places_of defs.now) }
        ensures pool { IfOk result (λ areas. areas.pool ≡ pool) }
        ensures count { IfOk result (λ areas. length areas.unsynced ≡ length areas.places) }
        ensures synced { IfOk result (λ areas. (number : ℕ) → slice_get areas.unsynced number ≢ Some true) }
        ensures unimaged { IfOk result (λ areas. (set ci : ℕ) → is_imaged areas.imaged set ci ≡ false) }

        // With an empty pool they are opened: `formatted_areas_stand` says how they stand then.
        ensures opened { pool.clean ≡ [] → pool.cells ≡ [] → IfOk result (AreOpened (places_of defs.now)) }
    {
        let places = places_of(alloc, defs)?;
        let unsynced = vec![in alloc; false; places.len()]?;
        let imaged = none_imaged(alloc, places.len())?;
        Ok(Areas {
            alloc,
            places,
            unsynced,
            imaged,
            pool,
        })
    }

    /// The ends of an area's sequential part: the least serial that is kept, and the one that the next sequential
    /// dependent gets. `Damaged` names the first byte of control.
    pub fn ends<T: Site>(&mut self, site: &mut T, set: u16) -> Result<AreaEnds, AreaFault>
        requires { IsSome (place_at self.old.places set) }

        // The answer, by the newest bytes of control.
        ensures ends { T.told site.old → (way : Way) (bytes : AreaBytes)
            → AreasStand way bytes (T.disk site.old) self.old
            → IfOk result (λ ends. ends ≡ ends_in (behind way.unsealed bytes set 0)) }
        ensures sound { T.told site.old → (way : Way) (bytes : AreaBytes) (place : PlaceOf)
            → AreasStand way bytes (T.disk site.old) self.old → place_at self.old.places set ≡ Some place
            → IfOk result (λ ends. IsControlOf place.capacity (behind way.unsealed bytes set 0)) }
        ensures damaged { T.told site.old → (way : Way) (bytes : AreaBytes) (place : PlaceOf) (s at : ℕ)
            → AreasStand way bytes (T.disk site.old) self.old → place_at self.old.places set ≡ Some place
            → result ≡ Err (fault.Damaged s at)
            → ¬ IsControlOf place.capacity (behind way.unsealed bytes set 0) }
        ensures first { (s at : ℕ) → result ≡ Err (fault.Damaged s at) → (s ≡ set) × (at ≡ 0) }
        ensures failed { IsErrOf result fault.Device → Rose (T.faults site.old) (T.faults site.new) }
        ensures never_full { (s begin end n : ℕ) → result ≢ Err (fault.SeqFull s begin end n) }

        // No area changes; the pool may have other clean intervals.
        ensures looks { LooksAtAreas T.told T.disk T.faults T.holds T.keeps site.old site.new self.old self.new }
    {
        let place = place_in(&self.places, set);
        let control = control(&mut self.pool, site, place, set)?;
        match ends_in(&control, place.capacity) {
            Some(ends) => Ok(ends),
            None => Err(AreaFault::Damaged { set, at: 0 }),
        }
    }

    /// Whether some area has this anchor of the database.
    pub fn has_anchor(&self, dedb: u8, anchor: u32) -> bool
        ensures yes { result ≡ true → (set : ℕ) × HasAnchorIn self.now.places dedb anchor set }
        ensures no { result ≡ false → (set : ℕ) → ¬ HasAnchorIn self.now.places dedb anchor set }
    {
        some_area(&self.places, dedb, anchor)
    }

    /// The roots of an anchor of a database, each with its whole sequential list, newest first. `Damaged` names the first
    /// byte of the interval that is at fault.
    ///
    /// Costs one read of control more than `read_anchor` of `area_reading`. What is pending or clean isn't asked of the
    /// site.
    pub fn anchor<T: Site>(
        &mut self,
        site: &mut T,
        dedb: u8,
        anchor: u32,
    ) -> Result<List<Root>, AreaFault>
        requires { (set : ℕ) × HasAnchorIn self.old.places dedb anchor set }

        // The answer, by the newest bytes. Where these stand for databases, it is what they have.
        ensures roots { T.told site.old → (way : Way) (bytes : AreaBytes)
            → AreasStand way bytes (T.disk site.old) self.old
            → IfOk result (AreRootsOf self.old.places (behind way.unsealed bytes) dedb anchor) }
        ensures database { T.told site.old → (way : Way) (bytes : AreaBytes) (db : Db)
            → AreasStand way bytes (T.disk site.old) self.old
            → AreFor self.old.places (behind way.unsealed bytes) db
            → IfOk result (λ roots. roots ≡ roots_at db dedb anchor) }

        // Where the databases have the shape of the definitions, each root's key is one that is sent to this anchor.
        ensures sent { T.told site.old → (way : Way) (bytes : AreaBytes) (defs : DefsOf) (db : Db) (def : DedbDefOf)
            → AreasStand way bytes (T.disk site.old) self.old → self.old.places ≡ places_of defs
            → AreFor self.old.places (behind way.unsealed bytes) db → IsDbOf defs db
            → slice_get defs.dedbs dedb ≡ Some def → IfOk result (AreSentTo def anchor) }

        // The interval that it names is at fault, and where the bytes stand for databases there is none.
        ensures damaged { T.told site.old → (way : Way) (bytes : AreaBytes)
            → AreasStand way bytes (T.disk site.old) self.old → (set at : ℕ)
            → result ≡ Err (fault.Damaged set at)
            → IsDamagedFor self.old.places (behind way.unsealed bytes) dedb anchor set at }
        ensures sound { T.told site.old → (way : Way) (bytes : AreaBytes) (db : Db)
            → AreasStand way bytes (T.disk site.old) self.old
            → AreFor self.old.places (behind way.unsealed bytes) db
            → AreInTime self.old.places (behind way.unsealed bytes) → (set at : ℕ)
            → result ≢ Err (fault.Damaged set at) }
        ensures failed { IsErrOf result fault.Device → Rose (T.faults site.old) (T.faults site.new) }
        ensures never_full { (s begin end n : ℕ) → result ≢ Err (fault.SeqFull s begin end n) }

        // Where each interval of the area is pending or clean, no byte of the site is read, and all that is at hand stays.
        ensures unread { T.told site.old → (way : Way) (bytes : AreaBytes)
            → AreasStand way bytes (T.disk site.old) self.old
            → AnchorIsAtHand self.old.places self.old.pool (behind way.unsealed bytes) dedb anchor
            → ReadsNothing (T.tells_reads site.old) (T.tells_reads site.new) (T.bytes_read site.old)
            (T.bytes_read site.new) }
        ensures hand { T.told site.old → (way : Way) (bytes : AreaBytes)
            → AreasStand way bytes (T.disk site.old) self.old
            → AnchorIsAtHand self.old.places self.old.pool (behind way.unsealed bytes) dedb anchor
            → SameAtHand self.old.pool self.new.pool }

        // No area changes; the pool may have other clean intervals.
        ensures looks { LooksAtAreas T.told T.disk T.faults T.holds T.keeps site.old site.new self.old self.new }
    {
        let places: &[Place] = &self.places;
        let set = area_of(places, dedb, anchor);
        let place = place_in(places, set);
        let number = anchor - place.first_anchor;
        roots_at(self.alloc, &mut self.pool, site, place, set, number)
    }

    /// Writes a pending interval to its data set.
    fn write<T: Site>(&mut self, site: &mut T, set: u16, ci: u64) -> Result<(), Failed>
        requires { IsSome (pending_at self.old.pool set ci) }

        // What waits.
        ensures done { OnOk result (IsWritten self.old.pool self.new.pool set ci) }
        ensures err { OnErr result (self.new.pool ≡ self.old.pool) }
        ensures fewer { OnOk result (pending_number self.new.pool.cells < pending_number self.old.pool.cells) }
        ensures fit { IsFitPool self.old.places self.old.pool → IsFitPool self.new.places self.new.pool }
        ensures places { self.new.places ≡ self.old.places }
        ensures imaged { self.new.imaged ≡ self.old.imaged }
        ensures count { length self.new.unsynced ≡ length self.old.unsynced }

        // Where its newest change is sealed the areas stand as before, at each moment.
        ensures keeps_areas { T.told site.old → (way : Way) (bytes : AreaBytes)
            → ((w : Pending) → pending_at self.old.pool set ci ≡ Some w → w.newest < sealed_of way)
            → KeepsAreas way bytes (T.disk site.old) (T.disk site.new) self.old self.new }
        ensures only { T.told site.old → IsFitPool self.old.places self.old.pool
            → OnlyAreas (T.disk site.old) (T.disk site.new) }

        // The site.
        ensures cause { Counts (T.faults site.old) (T.faults site.new) result }
        ensures reads { ReadsNothing (T.tells_reads site.old) (T.tells_reads site.new) (T.bytes_read site.old)
            (T.bytes_read site.new) }
        ensures site { IsContinued T.told T.faults T.holds T.keeps site.old site.new }
    {
        note_write(&mut self.unsynced, set);
        self.pool.write_one(site, set, ci)
    }

    /// Writes the pending interval that has waited longest: the first among those whose newest entry, one below
    /// `sealed`, the number of sealed entries, is the oldest. False exactly where there is none. After `Failed` it
    /// still waits. Takes no memory.
    pub fn write_oldest<T: Site>(&mut self, site: &mut T, sealed: u64) -> Result<bool, Failed>
        // What waits.
        ensures written { result ≡ Ok true → (set ci : ℕ) × IsOldestSealed self.old.pool sealed set ci
            × IsWritten self.old.pool self.new.pool set ci }
        ensures none { result ≡ Ok false → NoneSealed self.old.pool sealed }
        ensures idle { result ≡ Ok false → (self.new ≡ self.old) × (site.new ≡ site.old) }
        ensures err { OnErr result (self.new.pool ≡ self.old.pool) }
        ensures fit { IsFitPool self.old.places self.old.pool → IsFitPool self.new.places self.new.pool }
        ensures places { self.new.places ≡ self.old.places }
        ensures imaged { self.new.imaged ≡ self.old.imaged }
        ensures count { length self.new.unsynced ≡ length self.old.unsynced }

        // The areas stand as before, whatever it answers and at each moment.
        ensures keeps_areas { T.told site.old → (way : Way) (bytes : AreaBytes) → sealed ≤ sealed_of way
            → KeepsAreas way bytes (T.disk site.old) (T.disk site.new) self.old self.new }
        ensures only { T.told site.old → IsFitPool self.old.places self.old.pool
            → OnlyAreas (T.disk site.old) (T.disk site.new) }

        // The site.
        ensures cause { Counts (T.faults site.old) (T.faults site.new) result }
        ensures reads { ReadsNothing (T.tells_reads site.old) (T.tells_reads site.new) (T.bytes_read site.old)
            (T.bytes_read site.new) }
        ensures site { IsContinued T.told T.faults T.holds T.keeps site.old site.new }
    {
        match self.pool.oldest_sealed(sealed) {
            None => Ok(false),
            Some((set, ci)) => {
                self.write(site, set, ci)?;
                Ok(true)
            }
        }
    }

    /// What a checkpoint of the entries below `count` is owed, where the entries below `sealed` are sealed; at `Write`
    /// that interval is written. After `Failed` it still waits. Takes no memory.
    pub fn write_owed<T: Site>(
        &mut self,
        site: &mut T,
        count: u64,
        sealed: u64,
    ) -> Result<Owed, Failed>
        // What waits.
        ensures none { result ≡ Ok owed.None → NoneOwes self.old.pool count }
        ensures written { (set ci : ℕ) → result ≡ Ok (owed.Write set ci)
            → IsFirstOwed self.old.pool count sealed set ci × IsWritten self.old.pool self.new.pool set ci }
        ensures unsealed { result ≡ Ok owed.Unsealed → AreUnsealed self.old.pool count sealed }
        ensures idle { IfOk result (λ due. ((set ci : ℕ) → due ≢ owed.Write set ci)
            → (self.new ≡ self.old) × (site.new ≡ site.old)) }
        ensures err { OnErr result (self.new.pool ≡ self.old.pool) }
        ensures fit { IsFitPool self.old.places self.old.pool → IsFitPool self.new.places self.new.pool }
        ensures places { self.new.places ≡ self.old.places }
        ensures imaged { self.new.imaged ≡ self.old.imaged }
        ensures count { length self.new.unsynced ≡ length self.old.unsynced }

        // The areas stand as before, whatever it answers and at each moment.
        ensures keeps_areas { T.told site.old → (way : Way) (bytes : AreaBytes) → sealed ≤ sealed_of way
            → KeepsAreas way bytes (T.disk site.old) (T.disk site.new) self.old self.new }
        ensures only { T.told site.old → IsFitPool self.old.places self.old.pool
            → OnlyAreas (T.disk site.old) (T.disk site.new) }

        // The site.
        ensures cause { Counts (T.faults site.old) (T.faults site.new) result }
        ensures reads { ReadsNothing (T.tells_reads site.old) (T.tells_reads site.new) (T.bytes_read site.old)
            (T.bytes_read site.new) }
        ensures site { IsContinued T.told T.faults T.holds T.keeps site.old site.new }
    {
        let due = self.pool.owed(count, sealed);
        if let Owed::Write(set, ci) = due {
            self.write(site, set, ci)?;
        }
        Ok(due)
    }

    /// Writes the pending interval that has waited longest. False exactly where none is pending.
    fn write_next<T: Site>(&mut self, site: &mut T) -> Result<bool, Failed>
        // What waits.
        ensures fewer { result ≡ Ok true
            → pending_number self.new.pool.cells < pending_number self.old.pool.cells }
        ensures none { result ≡ Ok false → IsFitPool self.old.places self.old.pool → NonePending self.new.pool }
        ensures rest { StillWaits self.old.pool self.new.pool }
        ensures fit { IsFitPool self.old.places self.old.pool → IsFitPool self.new.places self.new.pool }
        ensures places { self.new.places ≡ self.old.places }
        ensures imaged { self.new.imaged ≡ self.old.imaged }
        ensures count { length self.new.unsynced ≡ length self.old.unsynced }

        // Where every entry is sealed the areas stand as before, whatever it answers and at each moment.
        ensures keeps_areas { T.told site.old → (way : Way) (bytes : AreaBytes) → way.unsealed ≡ []
            → KeepsAreas way bytes (T.disk site.old) (T.disk site.new) self.old self.new }
        ensures only { T.told site.old → IsFitPool self.old.places self.old.pool
            → OnlyAreas (T.disk site.old) (T.disk site.new) }

        // The site.
        ensures cause { Counts (T.faults site.old) (T.faults site.new) result }
        ensures reads { ReadsNothing (T.tells_reads site.old) (T.tells_reads site.new) (T.bytes_read site.old)
            (T.bytes_read site.new) }
        ensures site { IsContinued T.told T.faults T.holds T.keeps site.old site.new }
    {
        match self.pool.oldest_sealed(u64::MAX) {
            None => Ok(false),
            Some((set, ci)) => {
                self.write(site, set, ci)?;
                Ok(true)
            }
        }
    }

    /// Writes every pending interval, and syncs every area that was written to since the last success. Every entry has
    /// to be sealed. After `Failed` what wasn't written is pending still, and what was written is to be synced. Takes no
    /// memory.
    pub fn write_all<T: Site>(&mut self, site: &mut T) -> Result<(), Failed>
        // At `Ok` nothing waits, each area is durable, and none is to be synced.
        ensures none { IsFitPool self.old.places self.old.pool → OnOk result (NonePending self.new.pool) }
        ensures durable { T.told site.old → (way : Way) (bytes : AreaBytes) → way.unsealed ≡ []
            → AreasStand way bytes (T.disk site.old) self.old
            → OnOk result (AreDurable self.new.places (T.disk site.new)) }
        ensures synced { OnOk result ((number : ℕ) → slice_get self.new.unsynced number ≢ Some true) }

        // What waits still, waited before.
        ensures rest { StillWaits self.old.pool self.new.pool }
        ensures fit { IsFitPool self.old.places self.old.pool → IsFitPool self.new.places self.new.pool }
        ensures places { self.new.places ≡ self.old.places }
        ensures imaged { self.new.imaged ≡ self.old.imaged }
        ensures count { length self.new.unsynced ≡ length self.old.unsynced }

        // Where every entry is sealed the areas stand as before, whatever it answers and at each moment.
        ensures keeps_areas { T.told site.old → (way : Way) (bytes : AreaBytes) → way.unsealed ≡ []
            → KeepsAreas way bytes (T.disk site.old) (T.disk site.new) self.old self.new }
        ensures only { T.told site.old → IsFitPool self.old.places self.old.pool
            → OnlyAreas (T.disk site.old) (T.disk site.new) }

        // The site.
        ensures cause { Counts (T.faults site.old) (T.faults site.new) result }
        ensures reads { ReadsNothing (T.tells_reads site.old) (T.tells_reads site.new) (T.bytes_read site.old)
            (T.bytes_read site.new) }
        ensures site { IsContinued T.told T.faults T.holds T.keeps site.old site.new }
    {
        'writes: while self.write_next(site)? {}
        self.sync_written(site)
    }

    /// Syncs every area that was written to since the last success. After `Failed` they are to be synced still. Takes no
    /// memory.
    pub fn sync_written<T: Site>(&mut self, site: &mut T) -> Result<(), Failed>
        // At `Ok` each area is durable, and none is to be synced.
        ensures durable { T.told site.old → AreSynced self.old.unsynced (T.disk site.old)
            → OnOk result (AreDurable self.new.places (T.disk site.new)) }
        ensures synced { OnOk result ((number : ℕ) → slice_get self.new.unsynced number ≢ Some true) }
        ensures count { length self.new.unsynced ≡ length self.old.unsynced }
        ensures err { OnErr result (self.new ≡ self.old) }
        ensures places { self.new.places ≡ self.old.places }
        ensures imaged { self.new.imaged ≡ self.old.imaged }
        ensures pool { self.new.pool ≡ self.old.pool }

        // The areas stand as before, whatever it answers and at each moment.
        ensures keeps_areas { T.told site.old → (way : Way) (bytes : AreaBytes)
            → KeepsAreas way bytes (T.disk site.old) (T.disk site.new) self.old self.new }
        ensures only { T.told site.old → OnlyAreas (T.disk site.old) (T.disk site.new) }

        // The site.
        ensures cause { Counts (T.faults site.old) (T.faults site.new) result }
        ensures reads { ReadsNothing (T.tells_reads site.old) (T.tells_reads site.new) (T.bytes_read site.old)
            (T.bytes_read site.new) }
        ensures site { IsContinued T.told T.faults T.holds T.keeps site.old site.new }
    {
        sync_all(site, &self.unsynced)?;
        clear(&mut self.unsynced);
        Ok(())
    }
}
