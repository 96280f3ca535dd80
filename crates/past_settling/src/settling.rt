//! The sync point.
ghost use Rattle.fp_model.specs.FitCalls.{IsFitDeferred};
ghost use Rattle.fp_model.specs.WellFormed.{IsMsdbDef};
ghost use Rattle.fp_model.specs.declared.database.Msdb.{Msdb as MsdbOf};
ghost use Rattle.past_segments.specs.Pasts.{ArePastsOf, databases_at};
ghost use Rattle.past_segments.specs.Times.{IsSettledBy};
ghost use Rattle.past_settling.specs.Queues.{IfVerify, IsQueue, OnFound};
ghost use Rattle.std.specs.List.{AllByRecursion};
ghost use Rattle.std.specs.Prelude.{◌≡◌, ◌+◌, ◌<◌, ◌≤◌, ◌^◌, List as ListOf, length, ℕ};

use crate::back::take_back_all;
use crate::fault::QueueFault;
use crate::queue::settle_all;
use fp_model::{Deferred, Defs, List};
use past_segments::PastSegments;
use std::alloc::Global;

/// Settles a queue of deferred calls at a place, in its order, each on what those before it left. What they change stands
/// from the next place on. Verify says that a field call fails, and which is the first; then all is as before. After want
/// of memory the databases at the next place mean nothing.
///
/// Condition: definitions that were read, the segments of their databases up to the place, and calls that fit them.
pub fn settle(
    alloc: Global,
    pasts: &mut [PastSegments],
    defs: &Defs,
    place: u64,
    deferred: &List<Deferred>,
) -> Result<(), QueueFault>
    requires good { AllByRecursion IsMsdbDef defs.now.msdbs }
    requires are { ArePastsOf defs.now.msdbs pasts.old }
    requires settled { AllByRecursion (IsSettledBy place) pasts.old }
    requires fit { AllByRecursion (IsFitDeferred defs.now.msdbs) deferred.now }
    requires few { length deferred.now < 2 ^ 32 }
    requires place { place + 1 < 2 ^ 64 }

    // It comes to what the definitions say of the databases at the place.
    ensures queue { IsQueue defs.now.msdbs deferred.now (databases_at place pasts.old) result
        (databases_at (place + 1) pasts.new) }

    // Up to the place nothing changes; where a call fails, nowhere.
    ensures before { (p : ℕ) → p ≤ place → databases_at p pasts.new ≡ databases_at p pasts.old }
    ensures verify { IfVerify result ((p : ℕ) → databases_at p pasts.new ≡ databases_at p pasts.old) }

    // The next queue may be settled at the next place.
    ensures are { ArePastsOf defs.now.msdbs pasts.new }
    ensures settled { AllByRecursion (IsSettledBy (place + 1)) pasts.new }
{
    let next = place + 1;
    let calls = deferred.as_slice();
    match settle_all(alloc, pasts, defs, next, calls) {
        Err(QueueFault::Verify { call, fsa, found }) => {
            take_back_all(pasts, defs, next, calls);
            Err(QueueFault::Verify { call, fsa, found })
        }
        Err(QueueFault::Memory) => Err(QueueFault::Memory),
        Ok(()) => Ok(()),
    }
}

/// What a queue of deferred calls comes to at a place, as `settle` says; and then all is as before, whatever it is. After
/// want of memory the databases at the next place mean nothing.
///
/// Condition: as that of `settle`.
pub fn try_settle(
    alloc: Global,
    pasts: &mut [PastSegments],
    defs: &Defs,
    place: u64,
    deferred: &List<Deferred>,
) -> Result<(), QueueFault>
    requires good { AllByRecursion IsMsdbDef defs.now.msdbs }
    requires are { ArePastsOf defs.now.msdbs pasts.old }
    requires settled { AllByRecursion (IsSettledBy place) pasts.old }
    requires fit { AllByRecursion (IsFitDeferred defs.now.msdbs) deferred.now }
    requires few { length deferred.now < 2 ^ 32 }
    requires place { place + 1 < 2 ^ 64 }

    // It comes to what the definitions say of the databases at the place.
    ensures queue { (next : ListOf MsdbOf)
        × IsQueue defs.now.msdbs deferred.now (databases_at place pasts.old) result next }

    // Nothing changes.
    ensures before { (p : ℕ) → p ≤ place → databases_at p pasts.new ≡ databases_at p pasts.old }
    ensures stays { OnFound result ((p : ℕ) → databases_at p pasts.new ≡ databases_at p pasts.old) }

    // A queue may be settled at the next place.
    ensures are { ArePastsOf defs.now.msdbs pasts.new }
    ensures settled { AllByRecursion (IsSettledBy (place + 1)) pasts.new }
{
    let queue = deferred.as_slice();
    let found = settle_all(alloc, pasts, defs, place + 1, queue);
    take_back_all(pasts, defs, place + 1, queue);
    found
}
