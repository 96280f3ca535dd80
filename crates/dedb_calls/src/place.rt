//! Places, and where a transaction stands in a database.
ghost use Rattle.dli_tree.specs.Paths.{steps_of};
ghost use Rattle.fp_model.specs.DedbCalls.{anchor_at};
ghost use Rattle.fp_model.specs.Workspace.{no_dedb_position};
ghost use Rattle.fp_model.specs.declared.definitions.DedbDef.{DedbDef as DefOf};
ghost use Rattle.std.specs.Option.{option_copied};
ghost use Rattle.std.specs.Prelude.{◌≡◌, ◌<◌, ℕ, IfOk, None, if◌then◌else◌};

use dli_tree::{Path, Step};
use std::alloc::AllocError;
use std::marker::Model;

/// A place in a data entry database: an anchor, and the path to a segment there.
#[derive(Drop)]
pub(crate) struct Place {
    pub(crate) anchor: u32,
    pub(crate) path: Path,
}

impl Model for Place {
    ghost use Rattle.dli_tree.specs.Paths.{steps_of};
    ghost use Rattle.fp_model.specs.Order.{Place as PlaceOf};

    ghost Value = { PlaceOf };

    ghost view = { λ p. record { anchor = p.anchor; path = steps_of p.path.steps } };
}

impl Place {
    pub(crate) fn anchor(&self) -> u32
        ensures { result ≡ self.now.anchor }
    {
        self.anchor
    }

    pub(crate) fn steps(&self) -> &[Step]
        ensures { steps_of result.now ≡ self.now.path }
    {
        self.path.steps.as_slice()
    }

    /// The same place once more. It fails only for want of memory.
    pub(crate) fn copy(&self) -> Result<Place, AllocError>
        ensures { IfOk result (λ place. place ≡ self.now) }
    {
        let path = self.path.clone()?;
        Ok(Place {
            anchor: self.anchor,
            path,
        })
    }
}

/// Of one database: the place found or inserted last, the parent for gets below it, and whether the last call to the
/// database was a hold get that found.
#[derive(Drop)]
pub(crate) struct Position {
    pub(crate) place: Option<Place>,
    pub(crate) parent: Option<Place>,
    pub(crate) held: bool,
}

impl Model for Position {
    ghost use Rattle.fp_model.specs.Workspace.{DedbPosition};

    ghost Value = { DedbPosition };

    ghost view = { λ p. record { place = p.place; parent = p.parent; held = p.held } };
}

impl Position {
    pub(crate) fn new() -> Position
        ensures { result ≡ no_dedb_position }
    {
        Position {
            place: None,
            parent: None,
            held: false,
        }
    }

    /// The place.
    pub(crate) fn place(&self) -> Option<&Place>
        ensures { option_copied result ≡ self.now.place }
    {
        self.place.as_ref()
    }

    /// The place that is held.
    pub(crate) fn held_place(&self) -> Option<&Place>
        ensures { option_copied result ≡ (if self.now.held then self.now.place else None) }
    {
        if self.held { self.place.as_ref() } else { None }
    }

    /// The anchor of the place; 0 where there is none.
    pub(crate) fn anchor(&self) -> u64
        ensures exact { (def : DefOf) (dedb : ℕ) → result ≡ anchor_at def dedb self.now.place }
        ensures within { result < 4294967296 }
    {
        match &self.place {
            Some(place) => u64::from(place.anchor),
            None => 0,
        }
    }

    /// The anchor of the parent; 0 where there is none.
    pub(crate) fn parent_anchor(&self) -> u64
        ensures exact { (def : DefOf) (dedb : ℕ) → result ≡ anchor_at def dedb self.now.parent }
        ensures within { result < 4294967296 }
    {
        match &self.parent {
            Some(place) => u64::from(place.anchor),
            None => 0,
        }
    }
}
