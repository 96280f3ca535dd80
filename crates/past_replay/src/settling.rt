//! How a transaction ends.
ghost use Rattle.fp_model.specs.Commit.{settlement};
ghost use Rattle.fp_model.specs.FitCalls.{IsFitDeferred};
ghost use Rattle.fp_model.specs.Serial.{Ends, settled_as};
ghost use Rattle.fp_model.specs.WellFormed.{AreDefs};
ghost use Rattle.fp_model.specs.Workspace.{Workspace};
ghost use Rattle.fp_model.specs.declared.database.Dedb.{Dedb as DedbOf};
ghost use Rattle.fp_model.specs.declared.log.Outcome.TheVariants.{Roll, SeqFull, Verify};
ghost use Rattle.past_anchors.specs.Databases.{AreDedbsOf, FitsCommit};
ghost use Rattle.past_replay.specs.Ends.{is_done, with_next};
ghost use Rattle.past_replay.specs.inside.Running.{HandsIn, IsFull};
ghost use Rattle.past_replay.specs.States.{state_at};
ghost use Rattle.past_replay.specs.declared.alone.Alone.TheVariants as alone;
ghost use Rattle.past_segments.specs.Pasts.{ArePastsOf, databases_at};
ghost use Rattle.past_segments.specs.Times.{IsSettledBy};
ghost use Rattle.std.specs.List.{AllByRecursion};
ghost use Rattle.std.specs.Prelude.{◌≡◌, ◌+◌, ◌<◌, ◌≤◌, ◌^◌, IfOk, List as ListOf, OnOk, [], false, length, ℕ};

use crate::alone::Alone;
use fp_model::{Bytes, Defs, Outcome};
use past_anchors::{Anchors, Full};
use past_calls::Parts;
use past_segments::PastSegments;
use past_settling::{QueueFault, settle, try_settle};
use std::alloc::{AllocError, Global};

/// With a rollback code. Takes no memory.
pub(crate) fn roll(alloc: Global, code: u16) -> Alone
    ensures { result ≡ alone.Ends (Roll code) [] }
{
    Alone::Ends {
        outcome: Outcome::Roll(code),
        reply: Bytes::new(alloc),
    }
}

// With a verify that fails.
fn verify(alloc: Global, call: u32, fsa: u16, found: Bytes) -> Alone
    ensures { result ≡ alone.Ends (Verify call fsa found) [] }
{
    Alone::Ends {
        outcome: Outcome::Verify { call, fsa, found },
        reply: Bytes::new(alloc),
    }
}

// With a sequential part that is full.
fn fill(alloc: Global, full: Full) -> Alone
    ensures { result ≡ alone.Ends (SeqFull full.set full.begin full.end full.n) [] }
{
    let Full { set, begin, end, n } = full;
    Alone::Ends {
        outcome: Outcome::SeqFull { set, begin, end, n },
        reply: Bytes::new(alloc),
    }
}

// Where an area is too full: its queue is settled first, and nothing changes.
fn refuse(
    alloc: Global,
    pasts: &mut [PastSegments],
    defs: &Defs,
    place: u64,
    parts: &Parts,
    full: Full,
) -> Result<Alone, AllocError>
    requires good { AreDefs defs.now }
    requires are { ArePastsOf defs.now.msdbs pasts.old }
    requires settled { AllByRecursion (IsSettledBy place) pasts.old }
    requires fit { AllByRecursion (IsFitDeferred defs.now.msdbs) parts.now.deferred }
    requires few { length parts.now.deferred < 2 ^ 32 }
    requires place { place + 1 < 2 ^ 64 }
    ensures alone { (dedbs : ListOf DedbOf) (own : Workspace) (reply : ListOf ℕ) → HandsIn parts.now own
        → IsFull defs.now dedbs own full
        → IfOk result (λ alone. Ends (settled_as (state_at place pasts.old dedbs) reply
        (settlement defs.now (state_at place pasts.old dedbs) own))
        ≡ with_next (state_at (place + 1) pasts.new dedbs) alone) }
    ensures before { (p : ℕ) → p ≤ place → databases_at p pasts.new ≡ databases_at p pasts.old }
    ensures stays { OnOk result ((p : ℕ) → databases_at p pasts.new ≡ databases_at p pasts.old) }
    ensures isnt { IfOk result (λ alone. is_done alone ≡ false) }
    ensures are { ArePastsOf defs.now.msdbs pasts.new }
    ensures settled { AllByRecursion (IsSettledBy (place + 1)) pasts.new }
{
    match try_settle(alloc, pasts, defs, place, &parts.deferred) {
        Ok(()) => Ok(fill(alloc, full)),
        Err(QueueFault::Verify { call, fsa, found }) => Ok(verify(alloc, call, fsa, found)),
        Err(QueueFault::Memory) => Err(AllocError),
    }
}

/// With a reply: what the transaction hands in is settled at the place. After want of memory the databases at the next
/// place mean nothing.
pub(crate) fn commit(
    alloc: Global,
    pasts: &mut [PastSegments],
    anchors: &mut Anchors,
    defs: &Defs,
    place: u64,
    parts: Parts,
    reply: Bytes,
) -> Result<Alone, AllocError>
    requires good { AreDefs defs.now }
    requires are { ArePastsOf defs.now.msdbs pasts.old }
    requires settled { AllByRecursion (IsSettledBy place) pasts.old }
    requires shape { AreDedbsOf defs.now anchors.old }
    requires fit { AllByRecursion (IsFitDeferred defs.now.msdbs) parts.deferred }
    requires few { length parts.deferred < 2 ^ 32 }
    requires fits { FitsCommit defs.now anchors.old parts.changes parts.inserts }
    requires place { place + 1 < 2 ^ 64 }

    // It is what the sync point of a workspace that hands this in comes to.
    ensures alone { (own : Workspace) → HandsIn parts own
        → IfOk result (λ alone. Ends (settled_as (state_at place pasts.old anchors.old) reply
        (settlement defs.now (state_at place pasts.old anchors.old) own))
        ≡ with_next (state_at (place + 1) pasts.new anchors.new) alone) }

    // Up to the place nothing changes; where it isn't done, nowhere.
    ensures before { (p : ℕ) → p ≤ place → databases_at p pasts.new ≡ databases_at p pasts.old }
    ensures stays { IfOk result (λ alone. is_done alone ≡ false
        → (p : ℕ) → databases_at p pasts.new ≡ databases_at p pasts.old) }
    ensures anchors { IfOk result (λ alone. is_done alone ≡ false → anchors.new ≡ anchors.old) }

    // The next queue may be settled at the next place.
    ensures are { ArePastsOf defs.now.msdbs pasts.new }
    ensures settled { AllByRecursion (IsSettledBy (place + 1)) pasts.new }
    ensures shape { OnOk result (AreDedbsOf defs.now anchors.new) }
{
    if let Some(full) = anchors.first_full(defs, parts.inserts.as_slice()) {
        return refuse(alloc, pasts, defs, place, &parts, full);
    }
    match settle(alloc, pasts, defs, place, &parts.deferred) {
        Ok(()) => {
            anchors.commit(defs, parts.changes, parts.inserts)?;
            Ok(Alone::Ends {
                outcome: Outcome::Done,
                reply,
            })
        }
        Err(QueueFault::Verify { call, fsa, found }) => Ok(verify(alloc, call, fsa, found)),
        Err(QueueFault::Memory) => Err(AllocError),
    }
}
