//! The answer to a call, or the lock that it needs first.
ghost use Rattle.ci_locks.specs.Table.{standing};
ghost use Rattle.dedb_calls.specs.Anchors.{Sees};
ghost use Rattle.dedb_calls.specs.Calls.{FitsCallOn};
ghost use Rattle.dedb_calls.specs.Progress.{GoesOn, Knows};
ghost use Rattle.dli_calls.specs.Progress.{IsWorkOf, dedbs_in};
ghost use Rattle.dli_calls.specs.Readiness.{IfAnswer, OnNeed, needed_in};
ghost use Rattle.dli_calls.specs.Targets.{FitsWork, IfDedb, LeavesDedbs, LeavesMsdbs, LeavesOthers};
ghost use Rattle.dli_calls.specs.Looks.{IsStored, segments_in};
ghost use Rattle.dli_calls.specs.inside.Progress.{noted};
ghost use Rattle.dli_calls.specs.inside.Readiness.{needed_exclusive, ready_in};
ghost use Rattle.fp_exits.specs.Kinds.{has_kind, kinds_of};
ghost use Rattle.fp_model.specs.Answers.{serves, unless_held};
ghost use Rattle.fp_model.specs.Calls.{OnDedb, OnMsdb, database_of, looks_unheld, need_of, reply_to, target_of};
ghost use Rattle.fp_model.specs.DedbCalls.{dedb_need, dedb_reply};
ghost use Rattle.fp_model.specs.FitCalls.{FitsAnswerOf, FitsCall};
ghost use Rattle.fp_model.specs.MsdbCalls.{msdb_looks, msdb_need, msdb_reply};
ghost use Rattle.fp_model.specs.WellFormed.{IsDedbDef, IsMsdbDef};
ghost use Rattle.fp_model.specs.Workspace.{Workspace};
ghost use Rattle.fp_model.specs.declared.calls.Mode.TheVariants.{Exclusive};
ghost use Rattle.fp_model.specs.declared.database.Db.{Db as DbOf};
ghost use Rattle.fp_model.specs.declared.definitions.DedbDef.{DedbDef as DedbOf};
ghost use Rattle.fp_model.specs.declared.definitions.MsdbDef.{MsdbDef as DefOf};
ghost use Rattle.msdb_calls.specs.Calls.{is_changed};
ghost use Rattle.msdb_calls.specs.Progress.{FitsMsdb, IsMsdbWorkOf, with_progress};
ghost use Rattle.msdb_store.specs.Store.{IsOf};
ghost use Rattle.std.specs.List.{AllByRecursion};
ghost use Rattle.std.specs.Option.{option_map, option_map_or};
ghost use Rattle.std.specs.Prelude.{◌≡◌, ◌-◌, ◌<◌, ◌≤◌, ◌++◌, ◌∷◌, [], IfOk, List as ListOf, None, OnErr, OnOk, Some, if◌then◌else◌, length, slice_get, true, ℕ};

use crate::notes::{put, take_back};
use crate::region_locks::RegionLocks;
use crate::stored_looks::StoredLooks;
use crate::work::Work;
use ci_locks::Locks;
use dedb_calls::DedbReady;
use fp_exits::Exits;
use fp_model::{Answer, Bytes, Call, Defs, List, Mode, Resource};
use msdb_calls::{Database, MsdbWork, database_of, looks};
use msdb_store::MsdbStore;
use std::alloc::{AllocError, Global};

/// What a call comes to.
#[derive(Drop)]
pub enum Ready {
    /// It is answered.
    Answer(Answer),
    /// The lock that it needs first, and that its region doesn't hold.
    Need(Resource, Mode),
}

// The note of a call, where it looks without a hold.
fn note(call: &Call, changed: bool, count: u64) -> Option<u64>
    ensures { (def : DefOf) (msdb : ℕ) (own : Workspace) → is_changed def msdb own call.now ≡ changed
        → result ≡ (if msdb_looks def msdb own call.now then Some count else None) }
{
    if looks(call, changed) {
        Some(count)
    } else {
        None
    }
}

// Whether a region holds a resource Exclusive.
fn is_held(locks: &Locks, region: u8, resource: &Resource) -> bool
    requires some { 1 ≤ region }
    requires within { region ≤ length locks.now }

    ensures { result ≡ serves ((standing locks.now).holds region resource.now) Exclusive }
{
    matches!(locks.holds(region, resource), Some(Mode::Exclusive))
}

// The key that a call has to hold Exclusive, as a resource, unless the region holds it. Fails only for want of memory.
fn need(
    alloc: Global,
    database: &Database<'_>,
    locks: &Locks,
    region: u8,
    call: &Call,
    changed: bool,
) -> Result<Option<Resource>, AllocError>
    requires some { 1 ≤ region }
    requires within { region ≤ length locks.now }

    ensures { (own : Workspace) → is_changed database.now.def.now database.now.number own call.now ≡ changed
        → IfOk result (λ resource. option_map needed_exclusive resource
        ≡ option_map_or (unless_held ((standing locks.now).holds region))
        (msdb_need database.now.def.now database.now.number own call.now) None) }
{
    let Some(key) = database.needed_key(call, changed) else {
        return Ok(None);
    };
    let resource = Resource::Segment {
        msdb: database.number,
        key: Bytes::from_slice(alloc, key)?,
    };
    if is_held(locks, region, &resource) {
        return Ok(None);
    }
    Ok(Some(resource))
}

// Answers a call that needs no more locks, and makes its note. It fails only for want of memory, and then nothing
// changes.
fn answer_noted(
    alloc: Global,
    msdbs: &mut MsdbWork,
    notes: &mut List<u64>,
    database: &Database<'_>,
    call: &Call,
    changed: bool,
    looks: &StoredLooks<'_>,
    note: Option<u64>,
) -> Result<Answer, AllocError>
    requires good { IsMsdbDef database.now.def.now }
    requires stored { IsStored looks.now.msdbs.now looks.now.number database.now.def.now }
    requires call { FitsCall call.now database.now.def.now }
    requires work { FitsMsdb database.now.def.now database.now.number msdbs.old }
    requires changed { (own : Workspace)
        → is_changed database.now.def.now database.now.number (with_progress msdbs.old own) call.now ≡ changed }

    ensures answer { IfOk result (λ answer. (own : Workspace)
        → msdb_reply database.now.def.now database.now.number (segments_in looks.now.msdbs.now looks.now.number)
        (segments_in looks.now.msdbs.now looks.now.number) (with_progress msdbs.old own) call.now
        ≡ record { answer = answer; own = with_progress msdbs.new own }) }
    ensures shown { IfOk result (FitsAnswerOf (OnMsdb database.now.def.now database.now.number) call.now) }
    ensures of { (defs : ListOf DefOf) → slice_get defs database.now.number ≡ Some database.now.def.now
        → IsMsdbWorkOf defs msdbs.old → IsMsdbWorkOf defs msdbs.new }
    ensures notes { OnOk result (notes.new ≡ noted note notes.old) }
    ensures err { OnErr result (msdbs.new ≡ msdbs.old) }
    ensures unnoted { OnErr result (notes.new ≡ notes.old) }
{
    put(notes, note)?;
    match database.answer(alloc, msdbs, call, changed, looks) {
        Ok(answer) => Ok(answer),
        Err(error) => {
            take_back(notes, note);
            Err(error)
        }
    }
}

// What a call to a main storage database comes to. It fails only for want of memory; then, and where a lock is needed,
// nothing changes.
fn ready_msdb(
    alloc: Global,
    msdbs: &mut MsdbWork,
    notes: &mut List<u64>,
    database: &Database<'_>,
    call: &Call,
    looks: &StoredLooks<'_>,
    locks: &Locks,
    region: u8,
    count: u64,
) -> Result<Ready, AllocError>
    requires good { IsMsdbDef database.now.def.now }
    requires stored { IsStored looks.now.msdbs.now looks.now.number database.now.def.now }
    requires call { FitsCall call.now database.now.def.now }
    requires work { FitsMsdb database.now.def.now database.now.number msdbs.old }
    requires some { 1 ≤ region }
    requires within { region ≤ length locks.now }

    ensures need { (own : Workspace) → IfOk result (λ ready. needed_in ready
        ≡ option_map_or (unless_held ((standing locks.now).holds region))
        (msdb_need database.now.def.now database.now.number (with_progress msdbs.old own) call.now) None) }
    ensures answer { (own : Workspace) → IfOk result (λ ready. IfAnswer ready (λ answer.
        msdb_reply database.now.def.now database.now.number (segments_in looks.now.msdbs.now looks.now.number)
        (segments_in looks.now.msdbs.now looks.now.number) (with_progress msdbs.old own) call.now
        ≡ record { answer = answer; own = with_progress msdbs.new own })) }
    ensures notes { (own : Workspace) → IfOk result (λ ready. IfAnswer ready (λ answer. notes.new
        ≡ (if msdb_looks database.now.def.now database.now.number (with_progress msdbs.old own) call.now
        then notes.old ++ count ∷ [] else notes.old))) }
    ensures shown { IfOk result (λ ready. IfAnswer ready
        (FitsAnswerOf (OnMsdb database.now.def.now database.now.number) call.now)) }
    ensures of { (defs : ListOf DefOf) → slice_get defs database.now.number ≡ Some database.now.def.now
        → IsMsdbWorkOf defs msdbs.old → IsMsdbWorkOf defs msdbs.new }
    ensures needing { IfOk result (λ ready. OnNeed ready ((msdbs.new ≡ msdbs.old) × (notes.new ≡ notes.old))) }
    ensures err { OnErr result ((msdbs.new ≡ msdbs.old) × (notes.new ≡ notes.old)) }
{
    let changed = database.is_changed(alloc, msdbs, call)?;
    if let Some(resource) = need(alloc, database, locks, region, call, changed)? {
        return Ok(Ready::Need(resource, Mode::Exclusive));
    }
    let note = note(call, changed, count);
    let answer = answer_noted(alloc, msdbs, notes, database, call, changed, looks, note)?;
    Ok(Ready::Answer(answer))
}

// Answers a call to the main storage database of this number.
fn answer_msdb(
    alloc: Global,
    work: &mut Work,
    call: &Call,
    number: u8,
    msdbs: &MsdbStore,
    defs: &Defs,
    locks: &Locks,
    region: u8,
    count: u64,
) -> Result<Ready, AllocError>
    requires defs { AllByRecursion IsMsdbDef defs.now.msdbs }
    requires store { IsOf defs.now.msdbs msdbs.now }
    requires number { number < length defs.now.msdbs }
    requires named { number ≡ database_of call.now }
    requires work { IsWorkOf defs.now work.old }
    requires call { FitsWork (target_of defs.now (database_of call.now)) work.old call.now }
    requires some { 1 ≤ region }
    requires within { region ≤ length locks.now }

    ensures on { (def : DefOf) × (target_of defs.now (database_of call.now) ≡ OnMsdb def number) }
    ensures need { (db : DbOf) → db.msdbs ≡ msdbs.now.msdbs
        → IfOk result (λ ready. needed_in ready ≡ need_of defs.now db work.old.own ((standing locks.now).holds region)
        call.now) }
    ensures answer { (db : DbOf) → db.msdbs ≡ msdbs.now.msdbs → IfOk result (λ ready. IfAnswer ready (λ answer.
        reply_to defs.now db db work.old.own call.now ≡ record { answer = answer; own = work.new.own })) }
    ensures notes { IfOk result (λ ready. IfAnswer ready (λ answer.
        work.new.notes ≡ (if looks_unheld defs.now work.old.own call.now then work.old.notes ++ count ∷ [] else
        work.old.notes))) }
    ensures shown { IfOk result (λ ready. IfAnswer ready
        (FitsAnswerOf (target_of defs.now (database_of call.now)) call.now)) }
    ensures leaves { LeavesDedbs work.old work.new }
    ensures of { IsWorkOf defs.now work.new }
    ensures needing { IfOk result (λ ready. OnNeed ready (work.new ≡ work.old)) }
    ensures err { OnErr result (work.new ≡ work.old) }
{
    let database = Database::of(number, defs);
    let looks = StoredLooks { number, msdbs };
    ready_msdb(
        alloc,
        &mut work.msdbs,
        &mut work.notes,
        &database,
        call,
        &looks,
        locks,
        region,
        count,
    )
}

// What a call to the data entry database of this number comes to.
fn ready_in(number: u8, ready: DedbReady) -> Ready
    ensures { result ≡ ready_in number ready }
{
    match ready {
        DedbReady::Answer(answer) => Ready::Answer(answer),
        DedbReady::Need { anchor, mode } => {
            let dedb = number;
            Ready::Need(Resource::Anchor { dedb, anchor }, mode)
        }
    }
}

// Answers a call to the data entry database of this number among its kind.
fn answer_dedb(
    alloc: Global,
    work: &mut Work,
    call: &Call,
    number: u8,
    defs: &Defs,
    exits: &Exits,
    locks: &Locks,
    region: u8,
) -> Result<Ready, AllocError>
    requires defs { AllByRecursion IsDedbDef defs.now.dedbs }
    requires number { number < length defs.now.dedbs }
    requires exits { AllByRecursion (λ dedb. has_kind (kinds_of exits.now).spreaders dedb.randomizer ≡ true)
        defs.now.dedbs }
    requires work { IsWorkOf defs.now work.old }
    requires call { (def : DedbOf) → slice_get defs.now.dedbs number ≡ Some def
        → FitsCallOn def number (dedbs_in work.old) call.now }
    requires known { Knows ((standing locks.now).holds region) work.old.anchors }
    requires some { 1 ≤ region }
    requires within { region ≤ length locks.now }

    ensures need { (def : DedbOf) (db : DbOf) → slice_get defs.now.dedbs number ≡ Some def
        → Sees db work.old.anchors → IfOk result (λ ready. needed_in ready
        ≡ dedb_need def number db work.old.own ((standing locks.now).holds region) call.now) }
    ensures answer { (def : DedbOf) (db : DbOf) → slice_get defs.now.dedbs number ≡ Some def
        → Sees db work.old.anchors → IfOk result (λ ready. IfAnswer ready (λ answer.
        dedb_reply def number db work.old.own call.now ≡ record { answer = answer; own = work.new.own })) }
    ensures shown { (def : DedbOf) → slice_get defs.now.dedbs number ≡ Some def
        → IfOk result (λ ready. IfAnswer ready (FitsAnswerOf (OnDedb def number) call.now)) }
    ensures leaves { LeavesMsdbs work.old work.new }
    ensures goes { GoesOn number (dedbs_in work.old) (dedbs_in work.new) }
    ensures of { IsWorkOf defs.now work.new }
    ensures needing { IfOk result (λ ready. OnNeed ready (work.new ≡ work.old)) }
    ensures err { OnErr result (work.new ≡ work.old) }
{
    let came = dedb_calls::answer(
        alloc,
        &mut work.dedbs,
        call,
        number,
        defs,
        exits,
        &RegionLocks { locks, region },
    )?;
    Ok(ready_in(number, came))
}

/// Answers a call, or says which lock its region needs first: on the committed segments of main storage databases, and
/// on the roots of data entry databases that the transaction has. `count` is the number of entries that stand; an
/// unheld look at a main storage database notes it. It fails only for want of memory; then, and where a lock is needed,
/// nothing changes.
///
/// Condition: definitions that were read, with the exits that they name, and their store; a transaction under way under
/// them; a call that fits the database which it names; a region of the locks; and, for a data entry database, that the
/// transaction has the roots of each anchor that its region holds.
pub fn answer(
    alloc: Global,
    work: &mut Work,
    call: &Call,
    msdbs: &MsdbStore,
    defs: &Defs,
    exits: &Exits,
    locks: &Locks,
    region: u8,
    count: u64,
) -> Result<Ready, AllocError>
    requires defs { AllByRecursion IsMsdbDef defs.now.msdbs }
    requires dedbs { AllByRecursion IsDedbDef defs.now.dedbs }
    requires exits { AllByRecursion (λ dedb. has_kind (kinds_of exits.now).spreaders dedb.randomizer ≡ true)
        defs.now.dedbs }
    requires store { IsOf defs.now.msdbs msdbs.now }
    requires work { IsWorkOf defs.now work.old }
    requires call { FitsWork (target_of defs.now (database_of call.now)) work.old call.now }
    requires known { IfDedb (target_of defs.now (database_of call.now))
        (Knows ((standing locks.now).holds region) work.old.anchors) }
    requires some { 1 ≤ region }
    requires within { region ≤ length locks.now }

    // On any database with these segments, and for a data entry database with the roots that the transaction has: a
    // lock is needed exactly where the definitions say so, by what the region holds; else the answer and what the
    // transaction keeps are theirs.
    ensures need { (db : DbOf) → db.msdbs ≡ msdbs.now.msdbs
        → IfDedb (target_of defs.now (database_of call.now)) (Sees db work.old.anchors)
        → IfOk result (λ ready. needed_in ready ≡ need_of defs.now db work.old.own ((standing locks.now).holds region)
        call.now) }
    ensures answer { (db : DbOf) → db.msdbs ≡ msdbs.now.msdbs
        → IfDedb (target_of defs.now (database_of call.now)) (Sees db work.old.anchors)
        → IfOk result (λ ready. IfAnswer ready (λ answer.
        reply_to defs.now db db work.old.own call.now ≡ record { answer = answer; own = work.new.own })) }
    ensures notes { IfOk result (λ ready. IfAnswer ready (λ answer.
        work.new.notes ≡ (if looks_unheld defs.now work.old.own call.now then work.old.notes ++ count ∷ [] else
        work.old.notes))) }

    // A get that found shows a whole segment of its database.
    ensures shown { IfOk result (λ ready. IfAnswer ready
        (FitsAnswerOf (target_of defs.now (database_of call.now)) call.now)) }

    // It stays one under way. What has to do with databases of the other kind stays, and so do the anchors that are
    // held, and the positions and the anchors of other data entry databases.
    ensures of { IsWorkOf defs.now work.new }
    ensures others { LeavesOthers (target_of defs.now (database_of call.now)) work.old work.new }

    // Where no answer is given nothing changes.
    ensures needing { IfOk result (λ ready. OnNeed ready (work.new ≡ work.old)) }
    ensures err { OnErr result (work.new ≡ work.old) }
{
    let number = database_of(call);
    let at = usize::from(number);
    let msdb_count = defs.msdbs.len();
    if at < msdb_count {
        answer_msdb(alloc, work, call, number, msdbs, defs, locks, region, count)
    } else {
        let dedb = (at - msdb_count) as u8;
        answer_dedb(alloc, work, call, dedb, defs, exits, locks, region)
    }
}
