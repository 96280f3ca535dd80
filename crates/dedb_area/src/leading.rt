//! The areas and the databases that they stand for, through a run. Each law is the contract of a function that does nothing.

ghost use Rattle.std.specs.Prelude.{◌≡◌, ◌-◌, ◌<◌, ◌≤◌, ◌^◌, ◌∷◌, ◌++◌, [], ℕ, List, drop, length, take};
ghost use Rattle.fp_model.specs.State.{start};
ghost use Rattle.fp_model.specs.WellFormed.{AreDefs};
ghost use Rattle.fp_model.specs.declared.database.Db.{Db};
ghost use Rattle.fp_model.specs.declared.definitions.Defs.{Defs as DefsOf};
ghost use Rattle.fp_model.specs.declared.log.Entry.{Entry};
ghost use Rattle.area_redo.specs.Redo.{AreaBytes, redone};
ghost use Rattle.area_redo.specs.Standing.{Way, behind};
ghost use Rattle.area_redo.specs.Steps.{longer, next_place, with_mark, with_sealed};
ghost use Rattle.area_states.specs.Databases.{AreFor, last_of};
ghost use Rattle.area_states.specs.Places.{places_of};
ghost use Rattle.area_staging.specs.Changing.{AreStagedBy};
ghost use Rattle.dedb_area.specs.Appending.{IsPublished, KeepsStaged, MayEnter};
ghost use Rattle.dedb_area.specs.Keeping.{IsMarked, KeepsAreas};
ghost use Rattle.dedb_area.specs.Leading.{DatabasesStand};
ghost use Rattle.dedb_area.specs.Opening.{AreFormatted, AreOpened, bytes_in, no_entries};
ghost use Rattle.dedb_area.specs.Standing.{Holding};

use fp_site::Site;

/// Behind `format` and `open` the areas stand for the databases before any transaction.
pub fn formatted_databases_stand<S: Site>(site: &S)
    ensures { (defs : DefsOf) (areas : Holding) (count : ℕ)
        → AreDefs defs
        → AreFormatted (places_of defs) (S.disk site.now)
        → AreOpened (places_of defs) areas
        → DatabasesStand (no_entries count) (bytes_in (places_of defs) (S.disk site.now).contents) (start defs ∷ [])
        (S.disk site.now) areas }
{}

/// The newest bytes stand for the newest databases: those that a commit, a Purge or a look has before it.
pub fn the_newest_bytes_stand_for_the_newest_databases<S: Site>(site: &S)
    ensures { (way : Way) (bytes : AreaBytes) (db : Db) (states : List Db) (areas : Holding)
        → DatabasesStand way bytes (db ∷ states) (S.disk site.now) areas
        → AreFor areas.places (behind way.unsealed bytes) (last_of db states) }
{}

/// What is staged and then published for an entry leads on by that entry, to the databases that its items give. The
/// premises are what `stage` promises of a commit and `stage_purge` of a Purge, with the databases behind it, and what
/// `publish` does then.
pub fn an_entry_leads_on<S: Site>(old: &S, new: &S)
    ensures { (way : Way) (bytes : AreaBytes) (states : List Db) (next : Db) (before staged after : Holding) (e : Entry)
        → DatabasesStand way bytes states (S.disk old.now) before
        → staged.places ≡ before.places
        → KeepsStaged way bytes (S.disk old.now) (S.disk new.now) before staged
        → AreStagedBy e.items (behind way.unsealed bytes) staged.pool
        → MayEnter way bytes before e.items
        → AreFor before.places (redone e.items (behind way.unsealed bytes)) next
        → IsPublished (next_place way) e.items staged after
        → next_place way < 2 ^ 64 - 1
        → DatabasesStand (longer way e) bytes (states ++ next ∷ []) (S.disk new.now) after }
{}

/// Calls that keep the areas, as writes, syncs and looks do, keep the databases that they stand for.
pub fn kept_areas_keep_the_databases<S: Site>(old: &S, new: &S)
    ensures { (way : Way) (bytes : AreaBytes) (states : List Db) (before after : Holding)
        → DatabasesStand way bytes states (S.disk old.now) before
        → KeepsAreas way bytes (S.disk old.now) (S.disk new.now) before after
        → DatabasesStand way bytes states (S.disk new.now) after }
{}

/// Where the oldest entries that weren't sealed are, the databases stand behind the others.
pub fn sealed_entries_leave_the_others<S: Site>(site: &S)
    ensures { (way : Way) (bytes : AreaBytes) (states : List Db) (areas : Holding) (n : ℕ)
        → DatabasesStand way bytes states (S.disk site.now) areas
        → n ≤ length way.unsealed
        → DatabasesStand (with_sealed n way) (behind (take n way.unsealed) bytes) (drop n states) (S.disk site.now)
        areas }
{}

/// Where every entry is sealed, the databases stand behind a mark at their end.
pub fn a_mark_keeps_the_databases<S: Site>(site: &S)
    ensures { (way : Way) (bytes : AreaBytes) (states : List Db) (before after : Holding)
        → DatabasesStand way bytes states (S.disk site.now) before
        → way.unsealed ≡ []
        → IsMarked before after
        → DatabasesStand (with_mark way) bytes states (S.disk site.now) after }
{}
