//! The whole transaction.
ghost use Rattle.fp_exits.specs.Kinds.{kinds_of};
ghost use Rattle.fp_model.specs.Asking.{script_of};
ghost use Rattle.fp_model.specs.Product.{rules_of};
ghost use Rattle.fp_model.specs.Serial.{serial_run};
ghost use Rattle.fp_model.specs.declared.database.Db.{Db as DbOf};
ghost use Rattle.past_anchors.specs.Databases.{AreDedbsOf};
ghost use Rattle.past_replay.specs.Ends.{is_done, with_next};
ghost use Rattle.past_replay.specs.Setup.{IsSetup};
ghost use Rattle.past_replay.specs.States.{AreStatesOf, state_at};
ghost use Rattle.past_segments.specs.Pasts.{ArePastsOf, databases_at};
ghost use Rattle.past_segments.specs.Times.{IsSettledBy};
ghost use Rattle.std.specs.List.{AllByRecursion};
ghost use Rattle.std.specs.Prelude.{◌≡◌, ◌+◌, ◌<◌, ◌≤◌, ◌^◌, IfOk, List as ListOf, OnOk, false, length, slice_get, ℕ};

use crate::alone::Alone;
use crate::running::{End, Rerun, Running};
use crate::settling::{commit, roll};
use fp_exits::Exits;
use fp_model::{Defs, List, Message};
use past_anchors::Anchors;
use past_segments::PastSegments;
use std::alloc::{AllocError, Global};
use txn_lang::Scripts;

// What a run comes to, and the run is let go.
fn ended<T: Drop>(alone: Alone, _run: T) -> Alone
    ensures { result ≡ alone }
{
    alone
}

/// Runs the script of a message again, alone, as at a place of the log: its calls see the segments of the place and the
/// anchors of the data entry databases, its unheld looks the segments of its notes, in order, and what it changes stands
/// from the next place on. It fails only for want of memory; then the databases at the next place mean nothing.
///
/// Condition: definitions and scripts that were read, with the exits that the definitions name, the segments of the
/// databases up to the place, data entry databases in shape, the number of the script that the message names, and notes
/// of this place or earlier ones.
pub fn replay(
    alloc: Global,
    pasts: &mut [PastSegments],
    anchors: &mut Anchors,
    defs: &Defs,
    scripts: &Scripts,
    exits: &Exits,
    place: u64,
    message: &Message,
    number: u32,
    notes: &List<u64>,
) -> Result<Alone, AllocError>
    requires setup { IsSetup defs.now (kinds_of exits.now) scripts.now.scripts }
    requires are { ArePastsOf defs.now.msdbs pasts.old }
    requires settled { AllByRecursion (IsSettledBy place) pasts.old }
    requires shape { AreDedbsOf defs.now anchors.old }
    requires place { place + 1 < 2 ^ 64 }
    requires number { number < length scripts.now.scripts }
    requires named { slice_get scripts.now.scripts number ≡ script_of scripts.now.scripts message.now.tran }
    requires notes { AllByRecursion (λ note. note ≤ place) notes.now }

    // It is what the definitions say of running alone on the states that the databases show, with the state of the next
    // place behind it; Stuck where its notes aren't those of its looks.
    ensures alone { (now : DbOf) (states : ListOf DbOf) → AreStatesOf pasts.old anchors.old place now states
        → IfOk result (λ alone. serial_run (rules_of defs.now scripts.now.scripts) now states message.now notes.now
        ≡ with_next (state_at (place + 1) pasts.new anchors.new) alone) }

    // Up to the place nothing changes; where it isn't done, nowhere.
    ensures before { (p : ℕ) → p ≤ place → databases_at p pasts.new ≡ databases_at p pasts.old }
    ensures stays { IfOk result (λ alone. is_done alone ≡ false
        → (p : ℕ) → databases_at p pasts.new ≡ databases_at p pasts.old) }
    ensures anchors { IfOk result (λ alone. is_done alone ≡ false → anchors.new ≡ anchors.old) }

    // The next transaction may be run at the next place.
    ensures are { ArePastsOf defs.now.msdbs pasts.new }
    ensures settled { AllByRecursion (IsSettledBy (place + 1)) pasts.new }
    ensures shape { OnOk result (AreDedbsOf defs.now anchors.new) }
{
    let it = Rerun {
        defs,
        scripts,
        pasts,
        anchors,
        place,
        message,
        notes,
    };
    let mut running = Running::start(alloc, &it, number)?;
    match running.run(alloc, &it, exits)? {
        End::Replies(reply) => {
            let parts = running.into_parts(alloc)?;
            commit(alloc, pasts, anchors, defs, place, parts, reply)
        }
        End::Rolls(code) => Ok(ended(roll(alloc, code), running)),
        End::Stuck => Ok(ended(Alone::Stuck, running)),
    }
}
