//! The answer to a call, and whether it looks without a hold.
ghost use Rattle.dedb_calls.specs.Anchors.{Sees, held_at};
ghost use Rattle.dedb_calls.specs.Calls.{FitsCallOn};
ghost use Rattle.dedb_calls.specs.Progress.{GoesOn};
ghost use Rattle.fp_exits.specs.Kinds.{has_kind, kinds_of};
ghost use Rattle.fp_model.specs.Calls.{OnDedb, database_of, looks_unheld, reply_to, target_of};
ghost use Rattle.fp_model.specs.DedbCalls.{dedb_reply};
ghost use Rattle.fp_model.specs.FitCalls.{FitsAnswerOf, IsMsdbCall};
ghost use Rattle.fp_model.specs.WellFormed.{IsDedbDef, IsMsdbDef};
ghost use Rattle.fp_model.specs.declared.database.Db.{Db as DbOf};
ghost use Rattle.fp_model.specs.declared.definitions.DedbDef.{DedbDef as DedbOf};
ghost use Rattle.past_calls.specs.Progress.{IsWorkOf, dedbs_in};
ghost use Rattle.past_calls.specs.Readiness.{IfAnswer, IfNeed, OnNeed, needed_in};
ghost use Rattle.past_calls.specs.Targets.{FitsWork, IfDedb, LeavesDedbs, LeavesMsdbs, LeavesOthers, anchor_needed};
ghost use Rattle.past_calls.specs.inside.Readiness.{ready_in};
ghost use Rattle.past_segments.specs.Pasts.{ArePastsOf, databases_at};
ghost use Rattle.std.specs.List.{AllByRecursion};
ghost use Rattle.std.specs.Prelude.{◌≡◌, ◌<◌, IfOk, None, OnErr, Some, length, slice_get, true};

use crate::held_alone::HeldAlone;
use crate::placed_looks::PlacedLooks;
use crate::work::Work;
use dedb_calls::DedbReady;
use fp_exits::Exits;
use fp_model::{Answer, Call, Defs};
use msdb_calls::{Database, database_of};
use past_segments::PastSegments;
use std::alloc::{AllocError, Global};

/// What a call comes to.
#[derive(Drop)]
pub enum Ready {
    /// It is answered.
    Answer(Answer),
    /// The anchor, of the data entry database of this number among its kind, whose roots it needs first. The
    /// transaction has none of it.
    Need { dedb: u8, anchor: u32 },
}

// Its segments at every place.
fn past_of(pasts: &[PastSegments], number: u8) -> &PastSegments
    requires { number < length pasts.now }
    ensures { slice_get pasts.now number ≡ Some result.now }
{
    &pasts[usize::from(number)]
}

// Whether a call to a main storage database makes an unheld look. It fails only for want of memory.
fn looks_msdb(alloc: Global, work: &Work, call: &Call, defs: &Defs) -> Result<bool, AllocError>
    requires work { IsWorkOf defs.now work.now }
    requires call { IsMsdbCall defs.now.msdbs call.now }
    ensures { IfOk result (λ looks. looks ≡ looks_unheld defs.now work.now.own call.now) }
{
    let database = Database::of(database_of(call), defs);
    let changed = database.is_changed(alloc, &work.msdbs, call)?;
    Ok(msdb_calls::looks(call, changed))
}

/// Whether a call makes an unheld look at a main storage database, which shows the state that its note names. It fails
/// only for want of memory.
pub fn looks(alloc: Global, work: &Work, call: &Call, defs: &Defs) -> Result<bool, AllocError>
    requires work { IsWorkOf defs.now work.now }
    requires call { FitsWork (target_of defs.now (database_of call.now)) work.now call.now }
    ensures { IfOk result (λ looks. looks ≡ looks_unheld defs.now work.now.own call.now) }
{
    let number = database_of(call);
    let at = usize::from(number);
    let msdb_count = defs.msdbs.len();
    if at < msdb_count {
        looks_msdb(alloc, work, call, defs)
    } else {
        Ok(false)
    }
}

/// Answers a call to a main storage database as at a place, with unheld looks at another. It fails only for want of
/// memory, and then nothing changes.
///
/// Condition: definitions that were read, the segments of their databases, a transaction under way under them, and a
/// call that names a main storage database and fits it.
pub fn answer_msdb(
    alloc: Global,
    work: &mut Work,
    call: &Call,
    pasts: &[PastSegments],
    defs: &Defs,
    place: u64,
    note: u64,
) -> Result<Answer, AllocError>
    requires defs { AllByRecursion IsMsdbDef defs.now.msdbs }
    requires pasts { ArePastsOf defs.now.msdbs pasts.now }
    requires work { IsWorkOf defs.now work.old }
    requires call { IsMsdbCall defs.now.msdbs call.now }

    // The answer and all that the transaction keeps are those of the definitions, on any state with the segments of the
    // place, with unheld looks on any with those of the other.
    ensures answer { (now visible : DbOf)
        → now.msdbs ≡ databases_at place pasts.now
        → visible.msdbs ≡ databases_at note pasts.now
        → IfOk result (λ answer. reply_to defs.now now visible work.old.own call.now
        ≡ record { answer = answer; own = work.new.own }) }

    // A get that found shows a whole segment.
    ensures shown { IfOk result (FitsAnswerOf (target_of defs.now (database_of call.now)) call.now) }

    // It stays a transaction's, and nothing of data entry databases changes.
    ensures of { IsWorkOf defs.now work.new }
    ensures leaves { LeavesDedbs work.old work.new }
    ensures err { OnErr result (work.new ≡ work.old) }
{
    let number = database_of(call);
    let database = Database::of(number, defs);
    let changed = database.is_changed(alloc, &work.msdbs, call)?;
    let past = past_of(pasts, number);
    let looks = PlacedLooks { past, place, note };
    database.answer(alloc, &mut work.msdbs, call, changed, &looks)
}

// What a call to the data entry database of this number comes to.
fn ready_in(number: u8, ready: DedbReady) -> Ready
    ensures { result ≡ ready_in number ready }
{
    match ready {
        DedbReady::Answer(answer) => Ready::Answer(answer),
        DedbReady::Need { anchor, mode: _ } => {
            let dedb = number;
            Ready::Need { dedb, anchor }
        }
    }
}

// Answers a call to the data entry database of this number among its kind.
fn answer_dedb(
    alloc: Global,
    work: &mut Work,
    call: &Call,
    number: u8,
    defs: &Defs,
    exits: &Exits,
) -> Result<Ready, AllocError>
    requires defs { AllByRecursion IsDedbDef defs.now.dedbs }
    requires number { number < length defs.now.dedbs }
    requires exits { AllByRecursion (λ dedb. has_kind (kinds_of exits.now).spreaders dedb.randomizer ≡ true)
        defs.now.dedbs }
    requires work { IsWorkOf defs.now work.old }
    requires call { (def : DedbOf) → slice_get defs.now.dedbs number ≡ Some def
        → FitsCallOn def number (dedbs_in work.old) call.now }

    ensures answer { (def : DedbOf) (now : DbOf) → slice_get defs.now.dedbs number ≡ Some def
        → Sees now work.old.anchors → IfOk result (λ ready. IfAnswer ready (λ answer.
        dedb_reply def number now work.old.own call.now ≡ record { answer = answer; own = work.new.own })) }
    ensures need { (def : DedbOf) (now : DbOf) → slice_get defs.now.dedbs number ≡ Some def
        → Sees now work.old.anchors → IfOk result (λ ready. needed_in ready
        ≡ anchor_needed (OnDedb def number) now work.old call.now) }
    ensures shown { (def : DedbOf) → slice_get defs.now.dedbs number ≡ Some def
        → IfOk result (λ ready. IfAnswer ready (FitsAnswerOf (OnDedb def number) call.now)) }
    ensures leaves { LeavesMsdbs work.old work.new }
    ensures goes { GoesOn number (dedbs_in work.old) (dedbs_in work.new) }
    ensures of { IsWorkOf defs.now work.new }
    ensures needing { IfOk result (λ ready. OnNeed ready (work.new ≡ work.old)) }
    ensures err { OnErr result (work.new ≡ work.old) }
{
    let came = dedb_calls::answer(
        alloc,
        &mut work.dedbs,
        call,
        number,
        defs,
        exits,
        &HeldAlone,
    )?;
    Ok(ready_in(number, came))
}

/// Answers a call as at a place, with unheld looks at another; or says which anchor's roots it needs first, of which
/// the transaction has none. It fails only for want of memory; then, and where an anchor is needed, nothing changes.
///
/// Condition: definitions that were read, with the exits that they name, the segments of their main storage databases,
/// a transaction under way under them, and a call that fits the database which it names.
pub fn answer(
    alloc: Global,
    work: &mut Work,
    call: &Call,
    pasts: &[PastSegments],
    defs: &Defs,
    exits: &Exits,
    place: u64,
    note: u64,
) -> Result<Ready, AllocError>
    requires defs { AllByRecursion IsMsdbDef defs.now.msdbs }
    requires dedbs { AllByRecursion IsDedbDef defs.now.dedbs }
    requires exits { AllByRecursion (λ dedb. has_kind (kinds_of exits.now).spreaders dedb.randomizer ≡ true)
        defs.now.dedbs }
    requires pasts { ArePastsOf defs.now.msdbs pasts.now }
    requires work { IsWorkOf defs.now work.old }
    requires call { FitsWork (target_of defs.now (database_of call.now)) work.old call.now }

    // The answer and all that the transaction keeps are those of the definitions, on any state with the segments of the
    // place, and for a data entry database with the roots that the transaction has; with unheld looks on any with the
    // segments of the other.
    ensures answer { (now visible : DbOf)
        → now.msdbs ≡ databases_at place pasts.now
        → visible.msdbs ≡ databases_at note pasts.now
        → IfDedb (target_of defs.now (database_of call.now)) (Sees now work.old.anchors)
        → IfOk result (λ ready. IfAnswer ready (λ answer. reply_to defs.now now visible work.old.own call.now
        ≡ record { answer = answer; own = work.new.own })) }

    // An anchor is needed exactly where the definitions need its lock, of a transaction that holds the anchors whose
    // roots it has; and of that one it has none.
    ensures need { (now : DbOf)
        → IfDedb (target_of defs.now (database_of call.now)) (Sees now work.old.anchors)
        → IfOk result (λ ready. needed_in ready
        ≡ anchor_needed (target_of defs.now (database_of call.now)) now work.old call.now) }
    ensures lacks { (now : DbOf)
        → IfDedb (target_of defs.now (database_of call.now)) (Sees now work.old.anchors)
        → IfOk result (λ ready. IfNeed ready (λ dedb anchor. held_at work.old.anchors dedb anchor ≡ None)) }

    // A get that found shows a whole segment.
    ensures shown { IfOk result (λ ready. IfAnswer ready
        (FitsAnswerOf (target_of defs.now (database_of call.now)) call.now)) }

    // It stays a transaction's. What has to do with databases of the other kind stays, and so do the anchors whose
    // roots it has, and the positions and the anchors of other data entry databases.
    ensures of { IsWorkOf defs.now work.new }
    ensures others { LeavesOthers (target_of defs.now (database_of call.now)) work.old work.new }

    // Where no answer is given nothing changes.
    ensures needing { IfOk result (λ ready. OnNeed ready (work.new ≡ work.old)) }
    ensures err { OnErr result (work.new ≡ work.old) }
{
    let number = database_of(call);
    let at = usize::from(number);
    let msdb_count = defs.msdbs.len();
    if at < msdb_count {
        let answer = answer_msdb(alloc, work, call, pasts, defs, place, note)?;
        Ok(Ready::Answer(answer))
    } else {
        let dedb = (at - msdb_count) as u8;
        answer_dedb(alloc, work, call, dedb, defs, exits)
    }
}
