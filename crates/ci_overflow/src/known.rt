//! Intervals that are known to have no room, so that walks that come after others pass them.
//!
//! An interval that has no room for some bytes has none until something is given back: elements are taken from it, and
//! an interval joins a list at its front.

ghost use Rattle.std.specs.Prelude.{◌≡◌, ◌≢◌, ◌+◌, ℕ, List, Err, IfSome, OnOk, IsErrOf};
ghost use Rattle.ci_space.specs.declared.intervals.Shape.{Shape as ShapeOf};
ghost use Rattle.ci_overflow.specs.Known.{AreFullTo, HasSeen, IsKnown};

use crate::SpaceFault;
use std::alloc::Global;
use std::collections::BTreeMap;

/// Intervals of a list, one behind the other: the last of them, and the one to which its link leads, 0 for none.
#[derive(Clone, Copy)]
pub struct Passed {
    pub last: u64,
    pub next: u64,
}

/// The intervals of a unit of work that are known to have no room for so many bytes.
#[derive(Drop)]
pub struct KnownFull {
    /// So many of its dependent overflow intervals, from the first on.
    pub dependents: u16,

    /// By the first of them, runs of intervals of its list. None where nothing is kept.
    pub listed: Option<BTreeMap<u64, Passed>>,
}

impl KnownFull {
    /// None yet.
    pub fn new(alloc: Global) -> KnownFull
        ensures { (shape : ShapeOf) (area : List (List ℕ)) (uow n : ℕ) → IsKnown shape area uow n result }
    {
        KnownFull {
            dependents: 0,
            listed: Some(BTreeMap::new(alloc)),
        }
    }

    /// None, and no run that comes is kept.
    pub fn none() -> KnownFull
        ensures { (shape : ShapeOf) (area : List (List ℕ)) (uow n : ℕ) → IsKnown shape area uow n result }
    {
        KnownFull {
            dependents: 0,
            listed: None,
        }
    }

    /// The run that begins with this interval.
    pub fn run_from(&self, ci: u64) -> Option<Passed>
        ensures { (shape : ShapeOf) (area : List (List ℕ)) (uow n : ℕ) → IsKnown shape area uow n self.now
            → IfSome result (λ p. AreFullTo shape area (uow + 1) n ci p.last p.next) }
    {
        let Some(listed) = &self.listed else {
            return None;
        };
        match listed.get(&ci) {
            Some(passed) => Some(*passed),
            None => None,
        }
    }

    /// A run of intervals begins with this one.
    pub fn note(&mut self, ci: u64, passed: Passed) -> Result<(), SpaceFault>
        ensures known { (shape : ShapeOf) (area : List (List ℕ)) (uow n : ℕ) → IsKnown shape area uow n self.old
            → AreFullTo shape area (uow + 1) n ci passed.last passed.next
            → OnOk result (IsKnown shape area uow n self.new) }
        ensures never_failed { ¬ IsErrOf result SpaceFault.Failed }
        ensures never_damaged { (n : ℕ) → result ≢ Err (SpaceFault.Damaged n) }
    {
        let Some(listed) = &mut self.listed else {
            return Ok(());
        };
        match listed.insert(ci, passed) {
            Ok(_) => Ok(()),
            Err(_) => Err(SpaceFault::Memory),
        }
    }
}

/// What walks for room in one unit of work found to have none, for those that come after them.
#[derive(Drop)]
pub struct SeenFull {
    /// By the length of an element.
    known: BTreeMap<u16, KnownFull>,
}

impl SeenFull {
    /// Nothing yet.
    pub fn new(alloc: Global) -> SeenFull
        ensures { (shape : ShapeOf) (area : List (List ℕ)) (uow : ℕ) → HasSeen shape area uow result }
    {
        SeenFull {
            known: BTreeMap::new(alloc),
        }
    }

    /// What is known for a length, taken out of it.
    pub(crate) fn take_known(&mut self, alloc: Global, length: u16) -> KnownFull
        ensures { (shape : ShapeOf) (area : List (List ℕ)) (uow : ℕ) → HasSeen shape area uow self.old
            → IsKnown shape area uow length result × HasSeen shape area uow self.new }
    {
        match self.known.remove(&length) {
            Some(full) => full,
            None => KnownFull::new(alloc),
        }
    }

    /// This is known for a length.
    pub(crate) fn put_known(&mut self, length: u16, full: KnownFull) -> Result<(), SpaceFault>
        ensures seen { (shape : ShapeOf) (area : List (List ℕ)) (uow : ℕ) → HasSeen shape area uow self.old
            → IsKnown shape area uow length full → OnOk result (HasSeen shape area uow self.new) }
        ensures never_failed { ¬ IsErrOf result SpaceFault.Failed }
        ensures never_damaged { (n : ℕ) → result ≢ Err (SpaceFault.Damaged n) }
    {
        match self.known.insert(length, full) {
            Ok(_) => Ok(()),
            Err(_) => Err(SpaceFault::Memory),
        }
    }
}
