//! The answer to a call, or the lock that it needs first.
ghost use Rattle.dedb_calls.specs.Anchors.{Ascend};
ghost use Rattle.dedb_calls.specs.Calls.{FitsCallOn};
ghost use Rattle.dedb_calls.specs.Progress.{FitsDedb, GoesOn, IsDedbWorkOf, Knows};
ghost use Rattle.dedb_calls.specs.Readiness.{ComesTo, IfAnswer, OnNeed};
ghost use Rattle.fp_exits.specs.Kinds.{has_kind, kinds_of};
ghost use Rattle.fp_model.specs.Calls.{OnDedb};
ghost use Rattle.fp_model.specs.DedbCalls.{dedb_need, dedb_reply};
ghost use Rattle.fp_model.specs.FitCalls.{FitsAnswerOf};
ghost use Rattle.fp_model.specs.WellFormed.{IsDedbDef};
ghost use Rattle.fp_model.specs.declared.definitions.DedbDef.{DedbDef as DefOf};
ghost use Rattle.std.specs.List.{AllByRecursion};
ghost use Rattle.std.specs.Prelude.{◌≡◌, ◌<◌, ◌≤◌, IfOk, OnErr, Some, length, slice_get, true};

use crate::anchor_locks::AnchorLocks;
use crate::get::{Asked, Database, refused};
use crate::randomizer::root_anchor;
use crate::ready::DedbReady;
use crate::work::DedbWork;
use fp_exits::Exits;
use fp_model::{Call, Defs};
use std::alloc::{AllocError, Global};

impl Database<'_> {
    /// What a call comes to. It fails only for want of memory; then, and where a lock is needed, nothing changes.
    fn answer<L: AnchorLocks>(
        self,
        alloc: Global,
        work: &mut DedbWork,
        call: &Call,
        exits: &Exits,
        locks: &L,
    ) -> Result<DedbReady, AllocError>
        requires good { IsDedbDef self.def.now }
        requires exit { has_kind (kinds_of exits.now).spreaders self.def.now.randomizer ≡ true }
        requires fits { FitsDedb self.def.now self.number work.old }
        requires order { Ascend work.old.anchors }
        requires known { Knows (L.modes locks.now work.old) work.old.anchors }
        requires call { FitsCallOn self.def.now self.number work.old call.now }

        ensures comes { IfOk result (λ came. ComesTo self.entry.number
            (λ db own. dedb_need self.entry.def.now self.entry.number db own (L.modes locks.now work.old) call.now)
            (λ db own. dedb_reply self.entry.def.now self.entry.number db own call.now) work.old work.new came) }
        ensures shown { IfOk result (λ came. IfAnswer came (FitsAnswerOf (OnDedb self.entry.def.now self.entry.number)
            call.now)) }
        ensures goes { GoesOn self.entry.number work.old work.new }
        ensures fits { FitsDedb self.entry.def.now self.entry.number work.new }
        ensures needing { IfOk result (λ came. OnNeed came (work.new ≡ work.old)) }
        ensures err { OnErr result (work.new ≡ work.old) }
    {
        match call {
            Call::Get {
                get,
                hold,
                ssas,
                ..
            } => {
                let root = root_anchor(self.def, exits, ssas.as_slice());
                let asked = Asked {
                    get: *get,
                    hold: *hold,
                    ssas,
                };
                self.get(alloc, work, asked, root, locks)
            }
            Call::Fld { .. } => Ok(refused(alloc, self.number, work, *b"AM")),
            Call::Isrt { ssas, bytes, .. } => {
                let ssas = ssas.as_slice();
                self.isrt(alloc, work, ssas, bytes, exits, locks)
            }
            Call::Repl { bytes, .. } => self.repl(alloc, work, bytes, locks),
            Call::Dlet { .. } => self.dlet(alloc, work, locks),
        }
    }
}

/// The database of a number.
fn database_of<'a>(number: u8, defs: &'a Defs) -> Database<'a>
    requires { number < length defs.now.dedbs }
    ensures number { result.number ≡ number }
    ensures there { slice_get defs.now.dedbs number ≡ Some result.def.now }
{
    Database {
        number,
        def: &defs.dedbs.as_slice()[usize::from(number)],
    }
}

/// Answers a call to a data entry database, or says which anchor's lock it needs first. `number` is the number of the
/// database among its kind. It fails only for want of memory; then, and where a lock is needed, nothing changes.
///
/// Condition: definitions that were read, with the exits that they name; a transaction under way under them, which has
/// the roots of each anchor that it holds; and a call that fits the database.
pub fn answer<L: AnchorLocks>(
    alloc: Global,
    work: &mut DedbWork,
    call: &Call,
    number: u8,
    defs: &Defs,
    exits: &Exits,
    locks: &L,
) -> Result<DedbReady, AllocError>
    requires defs { AllByRecursion IsDedbDef defs.now.dedbs }
    requires number { number < length defs.now.dedbs }
    requires exit { (def : DefOf) → slice_get defs.now.dedbs number ≡ Some def
        → has_kind (kinds_of exits.now).spreaders def.randomizer ≡ true }
    requires work { IsDedbWorkOf defs.now.dedbs work.old }
    requires known { Knows (L.modes locks.now work.old) work.old.anchors }
    requires call { (def : DefOf) → slice_get defs.now.dedbs number ≡ Some def
        → FitsCallOn def number work.old call.now }

    // On any database whose roots the transaction has: a lock is needed exactly where the definitions say so, by how
    // anchors are held; else the answer and what the transaction keeps are theirs.
    ensures comes { (def : DefOf) → slice_get defs.now.dedbs number ≡ Some def → IfOk result (λ came. ComesTo number
        (λ db own. dedb_need def number db own (L.modes locks.now work.old) call.now)
        (λ db own. dedb_reply def number db own call.now) work.old work.new came) }

    // A get that found shows a whole segment of the database.
    ensures shown { (def : DefOf) → slice_get defs.now.dedbs number ≡ Some def → IfOk result (λ came. IfAnswer came
        (FitsAnswerOf (OnDedb def number) call.now)) }

    // It stays one under way, and has the same anchors.
    ensures of { IsDedbWorkOf defs.now.dedbs work.new }
    ensures goes { GoesOn number work.old work.new }

    // Where no answer is given nothing changes.
    ensures needing { IfOk result (λ came. OnNeed came (work.new ≡ work.old)) }
    ensures err { OnErr result (work.new ≡ work.old) }
{
    let database = database_of(number, defs);
    database.answer(alloc, work, call, exits, locks)
}
