//! Laws of areas and databases, each the contract of a function that does nothing.

ghost use Rattle.std.specs.Prelude.{◌≡◌, ◌≢◌, ◌+◌, ◌<◌, ℕ, IsSome, List, None, Some, false, slice_get, true};
ghost use Rattle.std.specs.List.{AllByRecursion};
ghost use Rattle.fp_model.specs.declared.calls.AnchorChange.{AnchorChange};
ghost use Rattle.fp_model.specs.declared.calls.SeqInsert.{SeqInsert};
ghost use Rattle.fp_model.specs.declared.database.Db.{Db};
ghost use Rattle.fp_model.specs.declared.definitions.DedbDef.{DedbDef};
ghost use Rattle.fp_model.specs.declared.definitions.Defs.{Defs};
ghost use Rattle.root_anchor.specs.Chains.{anchor_count};
ghost use Rattle.fp_model.specs.Commit.{FillsPart, first_full, purged, with_anchors, with_inserts};
ghost use Rattle.fp_model.specs.Shape.{IsDbOf};
ghost use Rattle.fp_model.specs.State.{areas_of, first_area_set, start};
ghost use Rattle.fp_model.specs.WellFormed.{AreDefs};
ghost use Rattle.area_redo.specs.Redo.{AreaBytes};
ghost use Rattle.area_states.specs.declared.place.Place.{Place};
ghost use Rattle.area_states.specs.Changes.{AllKeepLists, AreOrdered, IsInsertable, IsStorable, IsTooFull, ends_of, purged as purged_state, with_changes, with_inserts as with_inserts_here};
ghost use Rattle.area_states.specs.Databases.{AreFor, HasAnchorOf, area_in, state_of};
ghost use Rattle.area_states.specs.Places.{ArePlaces, IsPlace, has_anchor, layout_of, place_at, places_of};
ghost use Rattle.area_states.specs.States.{AreaState, HasState, SameState};
ghost use Rattle.state_laws.specs.Parts.{FitsAnchorChange, FitsSeqInsert, changes_ascend};
ghost use Rattle.area_laws.specs.Areas.{AreSentTo, BringsOrder, HasArea, HasAreas, HasPart, TakesAll};
ghost use Rattle.area_laws.specs.Starts.{AreStarts, IsStart, start_state};

/// Changed anchors and sequential inserts make of an area what they make of the databases that it stands for. So where
/// they make that of each area, the bytes of all areas stand for the databases behind the commit.
pub fn a_commit_is_that_of_the_databases()
    ensures area { (defs : Defs) (set : ℕ) (place : Place) (changes : List AnchorChange) (inserts : List SeqInsert)
        (db : Db)
        → place_at (places_of defs) set ≡ Some place
        → HasArea db place
        → AllByRecursion (HasAnchorOf db) changes
        → SameState place (with_inserts_here place inserts (with_changes place changes (state_of place db)))
        (state_of place (with_inserts defs inserts (with_anchors changes db))) }
    ensures areas { (defs : Defs) (bytes : AreaBytes) (changes : List AnchorChange) (inserts : List SeqInsert) (db : Db)
        → HasAreas db (places_of defs)
        → AllByRecursion (HasAnchorOf db) changes
        → ((set : ℕ) (place : Place) → place_at (places_of defs) set ≡ Some place
        → HasState place (area_in (layout_of (places_of defs)) bytes set)
        (with_inserts_here place inserts (with_changes place changes (state_of place db))))
        → AreFor (places_of defs) bytes (with_inserts defs inserts (with_anchors changes db)) }
{}

/// An area that no change and no insert is of keeps its state.
#[tactic(auto, using(crate::proofs::InsertLemmas::all_pass))]
pub fn an_area_that_nothing_is_of_keeps_its_state()
    ensures { (place : Place) (changes : List AnchorChange) (inserts : List SeqInsert) (state : AreaState)
        → AllByRecursion (λ c. has_anchor place c.dedb c.anchor ≡ false) changes
        → AllByRecursion (λ i. has_anchor place i.dedb i.anchor ≡ false) inserts
        → with_inserts_here place inserts (with_changes place changes state) ≡ state }
{}

/// A Purge of a data set makes of its area what it makes of the databases, and leaves the state of every other.
pub fn a_purge_is_that_of_the_databases()
    ensures area { (defs : Defs) (set n : ℕ) (db new : Db) (place : Place)
        → purged defs set n db ≡ Some new
        → place_at (places_of defs) set ≡ Some place
        → HasArea db place
        → SameState place (purged_state n (state_of place db)) (state_of place new) }
    ensures others { (defs : Defs) (set n : ℕ) (db new : Db) (other : ℕ) (place : Place)
        → purged defs set n db ≡ Some new
        → other ≢ set
        → place_at (places_of defs) other ≡ Some place
        → SameState place (state_of place db) (state_of place new) }
    ensures areas { (defs : Defs) (set n : ℕ) (db new : Db) (bytes : AreaBytes)
        → purged defs set n db ≡ Some new
        → HasAreas db (places_of defs)
        → ((place : Place) → place_at (places_of defs) set ≡ Some place
        → HasState place (area_in (layout_of (places_of defs)) bytes set) (purged_state n (state_of place db)))
        → ((other : ℕ) (place : Place) → other ≢ set → place_at (places_of defs) other ≡ Some place
        → HasState place (area_in (layout_of (places_of defs)) bytes other) (state_of place db))
        → AreFor (places_of defs) bytes new }

    // There are databases behind it exactly where the data set is an area with a sequential part.
    ensures some { (defs : Defs) (set n : ℕ) (db : Db)
        → HasPart (places_of defs) set
        → IsSome (purged defs set n db) }
    ensures none { (defs : Defs) (set n : ℕ) (db : Db)
        → ¬ HasPart (places_of defs) set
        → purged defs set n db ≡ None }
{}

/// The area that is too full for the inserts of a commit is the first whose part has no room for those of them that are
/// of it, in order of data sets; where there is none, no area is too full.
pub fn a_full_part_is_that_of_the_databases()
    ensures none { (defs : Defs) (db : Db) (inserts : List SeqInsert)
        → ((set : ℕ) (place : Place) → place_at (places_of defs) set ≡ Some place → TakesAll db inserts place)
        → first_full db inserts first_area_set (areas_of defs) ≡ None }
    ensures first { (defs : Defs) (db : Db) (inserts : List SeqInsert) (set : ℕ) (place : Place) (begin end n : ℕ)
        → place_at (places_of defs) set ≡ Some place
        → ((earlier : ℕ) (other : Place) → earlier < set → place_at (places_of defs) earlier ≡ Some other
        → TakesAll db inserts other)
        → IsTooFull place (state_of place db) inserts begin end n
        → first_full db inserts first_area_set (areas_of defs) ≡ Some (FillsPart set begin end n) }
{}

/// Changed anchors leave the ends of a sequential part, so whether it is too full may be asked before them or behind.
#[tactic(auto, using(crate::proofs::FullLemmas::changes_keep_ends))]
pub fn changed_anchors_keep_the_ends()
    ensures { (place : Place) (changes : List AnchorChange) (state : AreaState)
        → ends_of (with_changes place changes state) ≡ ends_of state }
{}

/// Databases with the shape of their definitions have each area, and have it still behind changed anchors, inserts and
/// a Purge.
pub fn databases_have_each_area()
    ensures shaped { (defs : Defs) (db : Db)
        → IsDbOf defs db
        → HasAreas db (places_of defs) }
    ensures committed { (defs : Defs) (places : List Place) (changes : List AnchorChange) (inserts : List SeqInsert)
        (db : Db)
        → HasAreas db places
        → HasAreas (with_inserts defs inserts (with_anchors changes db)) places }
    ensures purged { (defs : Defs) (places : List Place) (set n : ℕ) (db new : Db)
        → purged defs set n db ≡ Some new
        → HasAreas db places
        → HasAreas new places }
{}

/// An anchor of databases with the shape of their definitions lies in just one area.
pub fn an_anchor_lies_in_one_area()
    ensures some { (defs : Defs) (db : Db) (c : AnchorChange)
        → IsDbOf defs db
        → HasAnchorOf db c
        → (set : ℕ) × (place : Place) × (place_at (places_of defs) set ≡ Some place)
        × (has_anchor place c.dedb c.anchor ≡ true) }
    ensures one { (defs : Defs) (set other : ℕ) (place next : Place) (dedb anchor : ℕ)
        → place_at (places_of defs) set ≡ Some place
        → place_at (places_of defs) other ≡ Some next
        → has_anchor place dedb anchor ≡ true
        → has_anchor next dedb anchor ≡ true
        → set ≡ other }
{}

/// An area as it starts is whole and has no roots, and its sequential part never had a segment. So where each area
/// starts, their bytes stand for the databases before any transaction.
pub fn formatted_areas_stand_for_the_start()
    ensures area { (place : Place) (area : List (List ℕ))
        → IsPlace place
        → IsStart place.shape area
        → HasState place area start_state }
    ensures areas { (defs : Defs) (places : List Place) (bytes : AreaBytes)
        → ArePlaces places
        → AreStarts places bytes
        → AreFor places bytes (start defs) }
{}

/// Good definitions give areas whose empty intervals hold a segment of each type, and whose sequential intervals hold
/// as many slots as the capacity says.
#[tactic(auto, using(crate::proofs::DefLemmas::places_good))]
pub fn good_definitions_give_places()
    ensures { (defs : Defs)
        → AreDefs defs
        → ArePlaces (places_of defs) }
{}

/// In databases with the shape of their definitions the keys of each anchor's roots ascend. They do so still behind
/// changes that bring roots in order, behind sequential inserts, and behind a Purge.
pub fn roots_are_in_order()
    ensures shaped { (defs : Defs) (set : ℕ) (place : Place) (db : Db)
        → IsDbOf defs db
        → place_at (places_of defs) set ≡ Some place
        → AreOrdered place (state_of place db) }
    ensures changed { (place : Place) (changes : List AnchorChange) (state : AreaState)
        → AreOrdered place state
        → AllByRecursion (BringsOrder place) changes
        → AreOrdered place (with_changes place changes state) }
    ensures inserted { (place : Place) (inserts : List SeqInsert) (state : AreaState)
        → AreOrdered place state
        → AreOrdered place (with_inserts_here place inserts state) }
    ensures purged { (place : Place) (n : ℕ) (state : AreaState)
        → AreOrdered place state
        → AreOrdered place (purged_state n state) }
{}

/// In databases with the shape of their definitions each root's key is one that the randomizer sends to its anchor.
#[tactic(auto, using(crate::proofs::OrderLemmas::shaped_keys))]
pub fn roots_lie_where_their_keys_send_them()
    ensures { (defs : Defs) (set : ℕ) (place : Place) (db : Db) (def : DedbDef) (number : ℕ)
        → IsDbOf defs db
        → place_at (places_of defs) set ≡ Some place
        → slice_get defs.dedbs place.dedb ≡ Some def
        → number < anchor_count place.shape
        → AreSentTo def (place.first_anchor + number) ((state_of place db).roots number) }
{}

/// Changed anchors that fit the databases and ascend bring to each root no sequential list, or one that a root of the
/// anchor has.
#[tactic(auto, using(crate::proofs::OrderLemmas::fit_changes_keep_lists))]
pub fn changes_that_fit_keep_lists()
    ensures { (defs : Defs) (db : Db) (place : Place) (changes : List AnchorChange)
        → AllByRecursion (FitsAnchorChange defs db) changes
        → AllByRecursion (HasAnchorOf db) changes
        → changes_ascend changes ≡ true
        → AllKeepLists place (state_of place db) changes }
{}

/// Changed anchors that fit databases with the shape of their definitions may be stored in each area, and bring roots
/// in order.
pub fn changes_that_fit_may_be_stored()
    ensures storable { (defs : Defs) (set : ℕ) (place : Place) (db : Db) (changes : List AnchorChange)
        → IsDbOf defs db
        → place_at (places_of defs) set ≡ Some place
        → AllByRecursion (FitsAnchorChange defs db) changes
        → AllByRecursion (IsStorable place) changes }
    ensures ordered { (defs : Defs) (set : ℕ) (place : Place) (db : Db) (changes : List AnchorChange)
        → place_at (places_of defs) set ≡ Some place
        → AllByRecursion (FitsAnchorChange defs db) changes
        → AllByRecursion (BringsOrder place) changes }
{}

/// Sequential inserts that fit good definitions may be put into each area: it has a sequential part, and they have the
/// length of its segments.
#[tactic(auto, using(crate::proofs::FormLemmas::all_insertable))]
pub fn inserts_that_fit_may_be_put()
    ensures { (defs : Defs) (set : ℕ) (place : Place) (inserts : List SeqInsert)
        → AreDefs defs
        → place_at (places_of defs) set ≡ Some place
        → AllByRecursion (FitsSeqInsert defs) inserts
        → AllByRecursion (IsInsertable place) inserts }
{}
