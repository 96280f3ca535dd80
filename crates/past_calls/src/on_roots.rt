//! Calls that are answered on the roots of a state, which come in as they are needed.
ghost use Rattle.dedb_calls.specs.Anchors.{Sees};
ghost use Rattle.fp_exits.specs.Kinds.{has_kind, kinds_of};
ghost use Rattle.fp_model.specs.Calls.{database_of, reply_to, target_of};
ghost use Rattle.fp_model.specs.FitCalls.{FitsAnswerOf};
ghost use Rattle.fp_model.specs.WellFormed.{IsDedbDef, IsMsdbDef};
ghost use Rattle.fp_model.specs.declared.database.Db.{Db as DbOf};
ghost use Rattle.past_calls.specs.Progress.{IsWorkOf};
ghost use Rattle.past_calls.specs.Roots.{AreRootsOf, HaveShapes};
ghost use Rattle.past_calls.specs.Targets.{FitsWork, IfDedb, LeavesMsdbs};
ghost use Rattle.past_segments.specs.Pasts.{ArePastsOf, databases_at};
ghost use Rattle.std.specs.List.{AllByRecursion};
ghost use Rattle.std.specs.Prelude.{◌≡◌, IfOk, OnErr, OnOk, true};

use crate::anchor_roots::AnchorRoots;
use crate::answering::{Ready, answer};
use crate::work::Work;
use fp_exits::Exits;
use fp_model::{Answer, Call, Defs};
use past_segments::PastSegments;
use std::alloc::{AllocError, Global};

// A database has at most 65,536 anchors, and a call needs each at most once.
const MOST_TURNS: u32 = 65_537;

/// Answers a call as `answer` does, on the roots of a state: those of each anchor that it needs are copied from there. It
/// fails only for want of memory; then the transaction may have more anchors, and all else stays.
///
/// Condition: that of `answer`; and the roots are those of some state which the transaction sees, in their shapes.
pub fn answer_on<R: AnchorRoots>(
    alloc: Global,
    work: &mut Work,
    call: &Call,
    pasts: &[PastSegments],
    state: &R,
    defs: &Defs,
    exits: &Exits,
    place: u64,
    note: u64,
) -> Result<Answer, AllocError>
    requires defs { AllByRecursion IsMsdbDef defs.now.msdbs }
    requires dedbs { AllByRecursion IsDedbDef defs.now.dedbs }
    requires exits { AllByRecursion (λ dedb. has_kind (kinds_of exits.now).spreaders dedb.randomizer ≡ true)
        defs.now.dedbs }
    requires pasts { ArePastsOf defs.now.msdbs pasts.now }
    requires work { IsWorkOf defs.now work.old }
    requires call { FitsWork (target_of defs.now (database_of call.now)) work.old call.now }
    requires shapes { HaveShapes defs.now.dedbs (R.roots state.now) }
    requires somewhere { (now : DbOf) × AreRootsOf now (R.roots state.now) × Sees now work.old.anchors }

    // The answer and all that the transaction keeps are those of the definitions, on any state with these roots that it
    // sees, and with the segments of the place; with unheld looks on any with the segments of the other.
    ensures answer { (now visible : DbOf)
        → now.msdbs ≡ databases_at place pasts.now
        → visible.msdbs ≡ databases_at note pasts.now
        → AreRootsOf now (R.roots state.now)
        → Sees now work.old.anchors
        → IfOk result (λ answer. reply_to defs.now now visible work.old.own call.now
        ≡ record { answer = answer; own = work.new.own }) }
    ensures sees { (now : DbOf) → AreRootsOf now (R.roots state.now) → Sees now work.old.anchors
        → Sees now work.new.anchors }

    // A get that found shows a whole segment, and it stays a transaction's.
    ensures shown { IfOk result (FitsAnswerOf (target_of defs.now (database_of call.now)) call.now) }
    ensures of { IsWorkOf defs.now work.new }

    // A call to a data entry database leaves what has to do with the others.
    ensures leaves { OnOk result (IfDedb (target_of defs.now (database_of call.now)) (LeavesMsdbs work.old work.new)) }
    ensures err { OnErr result (work.new.own ≡ work.old.own) }
{
    for _ in 0..MOST_TURNS {
        match answer(alloc, work, call, pasts, defs, exits, place, note)? {
            Ready::Answer(answer) => return Ok(answer),
            Ready::Need { dedb, anchor } => {
                let roots = state.copy_of(alloc, dedb, anchor)?;
                work.hold_anchor(dedb, anchor, roots)?;
            }
        }
    }
    unreachable!()
}
