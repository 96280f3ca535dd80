//! Laws of the states of areas, each the contract of a function that does nothing.

ghost use Rattle.std.specs.Prelude.{◌≡◌, ◌+◌, ◌<◌, ◌≤◌, ℕ, List, ◌∷◌, ◌++◌, [], drop, length, min, take};
ghost use Rattle.std.specs.List.{AllByRecursion};
ghost use Rattle.fp_model.specs.Commit.{with_anchors};
ghost use Rattle.fp_model.specs.declared.calls.AnchorChange.{AnchorChange as ChangeOf};
ghost use Rattle.fp_model.specs.declared.database.Db.{Db};
ghost use Rattle.fp_model.specs.declared.log.Entry.{Entry};
ghost use Rattle.seq_dependents.specs.Control.{PutsEnds, begin_of, end_of};
ghost use Rattle.area_redo.specs.Redo.{AreaBytes, count_in, redone};
ghost use Rattle.area_redo.specs.Standing.{behind};
ghost use Rattle.area_states.specs.declared.place.Place.{Place as PlaceOf};
ghost use Rattle.area_states.specs.Changes.{purged, with_changes};
ghost use Rattle.area_states.specs.Databases.{AreFor, ForStates, HasAnchorOf, last_of, state_of};
ghost use Rattle.area_states.specs.Places.{IsPlace, layout_of};
ghost use Rattle.area_states.specs.States.{AreaState, HasState, SameState};

/// An area has one state.
pub fn an_area_has_one_state()
    ensures { (place : PlaceOf) (area : List (List ℕ)) (a b : AreaState)
        → HasState place area a
        → HasState place area b
        → SameState place a b }
{}

/// Bytes that agree in the intervals that control counts stand for the same databases.
pub fn bytes_that_agree_stand_for_the_same()
    ensures { (places : List PlaceOf) (a b : AreaBytes) (db : Db)
        → ((set : ℕ) → count_in (layout_of places) b set ≡ count_in (layout_of places) a set)
        → ((set ci : ℕ) → ci < count_in (layout_of places) a set → a set ci ≡ b set ci)
        → AreFor places a db
        → AreFor places b db }
{}

/// The newest bytes stand for the last state. An entry more, whose items give bytes for a state, leads on to it. Where
/// the oldest entries are sealed, the others lead from the state behind those.
#[tactic(auto, using(crate::proofs::Behind::one_more, crate::proofs::Behind::some_sealed))]
pub fn states_follow_the_entries()
    ensures newest { (places : List PlaceOf) (entries : List Entry) (bytes : AreaBytes) (db : Db) (states : List Db)
        → ForStates places bytes entries (db ∷ states)
        → AreFor places (behind entries bytes) (last_of db states) }
    ensures appended { (places : List PlaceOf) (entries : List Entry) (bytes : AreaBytes) (states : List Db) (e : Entry)
        (db : Db)
        → ForStates places bytes entries states
        → AreFor places (redone e.items (behind entries bytes)) db
        → ForStates places bytes (entries ++ e ∷ []) (states ++ db ∷ []) }
    ensures sealed { (places : List PlaceOf) (n : ℕ) (entries : List Entry) (bytes : AreaBytes) (states : List Db)
        → n ≤ length entries
        → ForStates places bytes entries states
        → ForStates places (behind (take n entries) bytes) (drop n entries) (drop n states) }
{}

/// Changed anchors make of an area what they make of the databases that it stands for.
pub fn changed_anchors_are_those_of_the_databases()
    ensures { (place : PlaceOf) (changes : List ChangeOf) (db : Db)
        → AllByRecursion (HasAnchorOf db) changes
        → SameState place (with_changes place changes (state_of place db)) (state_of place (with_anchors changes db)) }
{}

/// Where control's begin alone moves, as a Purge moves it, the area has the same state with that begin: older serials
/// leave their roots.
#[tactic(auto, using(crate::proofs::Purging::purged_state))]
pub fn a_purge_moves_begin()
    ensures { (place : PlaceOf) (old new : List (List ℕ)) (n : ℕ) (state : AreaState)
        → IsPlace place
        → HasState place old state
        → PutsEnds old new (min (end_of old) (begin_of old + n)) (end_of old)
        → HasState place new (purged n state) }
{}
