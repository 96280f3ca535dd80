//! The segments that a program was shown.
ghost use Rattle.std.specs.Prelude.{◌≡◌, ◌==◌, ◌∷◌, [], List, MatchOption, None, OnOk, Some, find, slice_get};
ghost use Rattle.fp_model.specs.declared.definitions.Defs.{Defs};
ghost use Rattle.txn_machine.specs.Knowing.{HasPlace, segment_on, segments_of};
ghost use Rattle.txn_machine.specs.inside.Knowing.{in_place};
ghost use Rattle.txn_machine.specs.inside.Alike.{ShowAlike};
ghost use Rattle.txn_machine.specs.Fit.{AreShown, IsShownSegment};

use fp_model::{Bytes, List};
use std::alloc::{AllocError, Global};

/// A segment that a get showed: the number of its type, and its bytes.
#[derive(Drop)]
pub(crate) struct Shown {
    pub(crate) segment: u8,
    pub(crate) bytes: Bytes,
}

/// The segments that gets showed: the newest with the number of its database, and the last one of each database
/// before that, at the place of its number.
#[derive(Drop)]
pub(crate) struct Gets {
    pub(crate) db: u8,
    pub(crate) newest: Shown,
    pub(crate) older: List<Option<Shown>>,
}

// The segment at the place of a database.
fn shown_at(places: &List<Option<Shown>>, db: u8) -> Option<&Shown>
    ensures { MatchOption result (in_place (slice_get places.now db) ≡ None)
        (λ shown. in_place (slice_get places.now db) ≡ Some shown.now) }
{
    match places.get(usize::from(db)) {
        Some(Some(shown)) => Some(shown),
        _ => None,
    }
}

impl Gets {
    // The first segment that is shown.
    fn first(alloc: Global, db: u8, newest: Shown) -> Gets
        ensures { segments_of (Some result) ≡ segment_on db newest ∷ [] }
    {
        Gets {
            db,
            newest,
            older: List::new(alloc),
        }
    }

    // Another segment. The newest so far takes its place among the older ones.
    fn next(self, db: u8, newest: Shown) -> Gets
        requires { HasPlace (Some self) }
        ensures shows { ShowAlike (segment_on db newest ∷ segments_of (Some self)) (segments_of (Some result)) }
        ensures fit { (defs : Defs) → AreShown defs (Some self) → IsShownSegment defs (segment_on db newest)
            → AreShown defs (Some result) }
    {
        let Gets {
            db: place,
            newest: last,
            mut older,
        } = self;
        *older.item_mut(usize::from(place)) = Some(last);
        Gets { db, newest, older }
    }

    /// The segments that were shown, and one more. Takes no memory.
    pub(crate) fn show(gets: Option<Gets>, alloc: Global, db: u8, newest: Shown) -> Gets
        requires { HasPlace gets }
        ensures shows { ShowAlike (segment_on db newest ∷ segments_of gets) (segments_of (Some result)) }
        ensures fit { (defs : Defs) → AreShown defs gets → IsShownSegment defs (segment_on db newest)
            → AreShown defs (Some result) }
    {
        match gets {
            Some(gets) => gets.next(db, newest),
            None => Gets::first(alloc, db, newest),
        }
    }

    /// Makes a place for the newest segment among the older ones. Fails only for want of memory. What was shown stays.
    pub(crate) fn make_place(&mut self) -> Result<(), AllocError>
        ensures place { OnOk result (HasPlace (Some self.new)) }
        ensures same { segments_of (Some self.new) ≡ segments_of (Some self.old) }
    {
        while self.older.len() <= usize::from(self.db) {
            self.older.push(None)?;
        }
        Ok(())
    }

    /// The last segment that was shown of a database.
    pub(crate) fn on(&self, db: u8) -> Option<&Shown>
        ensures { MatchOption result (find (λ s. s.db == db) (segments_of (Some self.now)) ≡ None)
            (λ shown. find (λ s. s.db == db) (segments_of (Some self.now)) ≡ Some (segment_on db shown.now)) }
    {
        if self.db == db {
            return Some(&self.newest);
        }
        match shown_at(&self.older, db) {
            Some(shown) => Some(shown),
            None => None,
        }
    }
}
