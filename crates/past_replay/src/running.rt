//! The script and its calls.
ghost use Rattle.dedb_calls.specs.Anchors.{Sees};
ghost use Rattle.fp_exits.specs.Kinds.{kinds_of};
ghost use Rattle.fp_model.specs.Asking.{script_of};
ghost use Rattle.fp_model.specs.Calls.{database_of, reply_to, target_of};
ghost use Rattle.fp_model.specs.FitCalls.{FitsAnswerOf};
ghost use Rattle.fp_model.specs.declared.database.Db.{Db as DbOf};
ghost use Rattle.past_calls.specs.Progress.{IsWorkOf};
ghost use Rattle.past_calls.specs.Targets.{FitsWork};
ghost use Rattle.past_replay.specs.inside.Running.{CanRerun, IsAsking, IsEnd, IsUnderWay, end_with, look_of, now_of};
ghost use Rattle.past_segments.specs.Pasts.{databases_at};
ghost use Rattle.std.specs.Prelude.{◌≡◌, ◌+◌, ◌<◌, ◌≤◌, IfNone, IfOk, IfSome, OnOk, length, slice_get, ℕ};

use crate::roots::StateRoots;
use fp_exits::Exits;
use fp_model::{Answer, Bytes, Call, Defs, List, Message};
use past_anchors::Anchors;
use past_calls::{Parts, Work, answer_on, looks};
use past_segments::PastSegments;
use std::alloc::{AllocError, Global};
use txn_lang::Scripts;
use txn_machine::{Next, Program};

// A script makes at most 10,000 calls, and ends in one step more.
const MOST_STEPS: u32 = 10_001;

/// What a transaction is run again on: definitions and scripts, the segments at every place, the data entry databases of
/// the present one, its place, its message and its notes.
#[derive(Drop)]
pub(crate) struct Rerun<'a> {
    pub(crate) defs: &'a Defs,
    pub(crate) scripts: &'a Scripts,
    pub(crate) pasts: &'a [PastSegments],
    pub(crate) anchors: &'a Anchors,
    pub(crate) place: u64,
    pub(crate) message: &'a Message,
    pub(crate) notes: &'a List<u64>,
}

/// How a script ends.
#[derive(Drop)]
pub(crate) enum End {
    /// With this reply, all its notes used.
    Replies(Bytes),
    /// With this rollback code, all its notes used.
    Rolls(u16),
    /// Its notes are more or fewer than its unheld looks.
    Stuck,
}

// The place that a call looks at without a hold, and how many notes are used behind it.
#[derive(Clone, Copy)]
struct Look {
    place: u64,
    used: usize,
}

/// A transaction under way: its script, what it keeps to itself, and how many of its notes it has used.
#[derive(Drop)]
pub(crate) struct Running {
    program: Program,
    work: Work,
    used: usize,
}

impl Rerun<'_> {
    // What a call looks at, behind so many used notes. A call that makes an unheld look uses the next one: None exactly
    // where there is none.
    fn look(&self, used: usize, looks: bool) -> Option<Look>
        ensures { result ≡ look_of self.now used looks }
    {
        if !looks {
            return Some(Look {
                place: self.place,
                used,
            });
        }
        let _count = self.notes.len(); // so its range is known
        let note = self.notes.get(used)?;
        Some(Look {
            place: *note,
            used: used + 1,
        })
    }

    // An end, where all notes are used.
    fn end(&self, used: usize, end: End) -> End
        ensures { result ≡ end_with self.now used end }
    {
        if used < self.notes.len() {
            End::Stuck
        } else {
            end
        }
    }
}

impl Rerun<'_> {
    // Answers a call as at the place, with unheld looks at that of a note. It fails only for want of memory.
    fn reply(
        &self,
        alloc: Global,
        exits: &Exits,
        work: &mut Work,
        call: &Call,
        note: u64,
    ) -> Result<Answer, AllocError>
        requires can { CanRerun self.now (kinds_of exits.now) }
        requires of { IsWorkOf self.now.defs.now work.old }
        requires sees { Sees (now_of self.now) work.old.anchors }
        requires call { FitsWork (target_of self.now.defs.now (database_of call.now)) work.old call.now }
        ensures answer { (visible : DbOf) → visible.msdbs ≡ databases_at note self.now.pasts.now
            → IfOk result (λ answer. reply_to self.now.defs.now (now_of self.now) visible work.old.own call.now
            ≡ record { answer = answer; own = work.new.own }) }
        ensures shown { IfOk result (FitsAnswerOf (target_of self.now.defs.now (database_of call.now)) call.now) }
        ensures of { IsWorkOf self.now.defs.now work.new }
        ensures sees { Sees (now_of self.now) work.new.anchors }
        ensures few { OnOk result (length work.new.own.deferred ≤ length work.old.own.deferred + 1) }
    {
        let roots = StateRoots {
            anchors: self.anchors,
        };
        answer_on(
            alloc, work, call, self.pasts, &roots, self.defs, exits, self.place, note,
        )
    }
}

impl Running {
    /// A transaction as it begins, with the script of this number. It fails only for want of memory.
    pub(crate) fn start(alloc: Global, it: &Rerun, number: u32) -> Result<Running, AllocError>
        requires number { number < length it.now.scripts.now.scripts }
        requires named { slice_get it.now.scripts.now.scripts number
            ≡ script_of it.now.scripts.now.scripts it.now.message.now.tran }
        ensures { IfOk result (IsUnderWay it.now 0) }
    {
        let program = Program::start(alloc, it.scripts, number);
        let work = Work::new(alloc, it.defs)?;
        Ok(Running {
            program,
            work,
            used: 0,
        })
    }

    /// What its sync point is to settle. It fails only for want of memory.
    pub(crate) fn into_parts(self, alloc: Global) -> Result<Parts, AllocError>
        ensures deferred { IfOk result (λ parts. parts.deferred ≡ self.work.own.deferred) }
        ensures changes { IfOk result (λ parts. parts.changes ≡ self.work.own.changes) }
        ensures inserts { IfOk result (λ parts. parts.inserts ≡ self.work.own.inserts) }
    {
        self.work.into_parts(alloc)
    }

    // Answers its call. It ends where the call looks and no note is left. It fails only for want of memory.
    fn answer(
        &mut self,
        alloc: Global,
        it: &Rerun,
        exits: &Exits,
        call: &Call,
    ) -> Result<Option<End>, AllocError>
        requires can { CanRerun it.now (kinds_of exits.now) }
        requires asking { (count : ℕ) × IsAsking it.now count call.now self.old }
        ensures goes { (count : ℕ) → IsAsking it.now count call.now self.old
            → IfOk result (λ end. IfNone end (IsUnderWay it.now (count + 1) self.new)) }
        ensures ends { (count : ℕ) → IsAsking it.now count call.now self.old
            → IfOk result (λ end. IfSome end (IsEnd it.now self.new)) }
    {
        let looks = looks(alloc, &self.work, call, it.defs)?;
        let Some(look) = it.look(self.used, looks) else {
            return Ok(Some(End::Stuck));
        };
        let given = it.reply(alloc, exits, &mut self.work, call, look.place)?;
        self.program.give(given);
        self.used = look.used;
        Ok(None)
    }

    // Runs to its next call, and answers it, or to its end. It fails only for want of memory.
    fn step(&mut self, alloc: Global, it: &Rerun, exits: &Exits) -> Result<Option<End>, AllocError>
        requires can { CanRerun it.now (kinds_of exits.now) }
        requires under { (count : ℕ) × IsUnderWay it.now count self.old }
        ensures goes { (count : ℕ) → IsUnderWay it.now count self.old
            → IfOk result (λ end. IfNone end (IsUnderWay it.now (count + 1) self.new)) }
        ensures ends { (count : ℕ) → IsUnderWay it.now count self.old
            → IfOk result (λ end. IfSome end (IsEnd it.now self.new)) }
    {
        match self.program.next(it.scripts, it.defs, it.message)? {
            Next::Call(call) => self.answer(alloc, it, exits, &call),
            Next::Reply(reply) => Ok(Some(it.end(self.used, End::Replies(reply)))),
            Next::Roll(code) => Ok(Some(it.end(self.used, End::Rolls(code)))),
        }
    }

    /// Runs to its end. It fails only for want of memory.
    pub(crate) fn run(
        &mut self,
        alloc: Global,
        it: &Rerun,
        exits: &Exits,
    ) -> Result<End, AllocError>
        requires can { CanRerun it.now (kinds_of exits.now) }
        requires under { IsUnderWay it.now 0 self.old }
        ensures { IfOk result (IsEnd it.now self.new) }
    {
        for _ in 0..MOST_STEPS {
            if let Some(end) = self.step(alloc, it, exits)? {
                return Ok(end);
            }
        }
        unreachable!()
    }
}
