//! What a call to a main storage database is answered, and what is known of it before.
ghost use Rattle.fp_model.specs.Calls.{OnMsdb, database_of};
ghost use Rattle.fp_model.specs.FitCalls.{FitsAnswerOf, FitsCall};
ghost use Rattle.fp_model.specs.MsdbCalls.{exclusively, msdb_looks, msdb_need, msdb_reply};
ghost use Rattle.fp_model.specs.Workspace.{Workspace};
ghost use Rattle.fp_model.specs.declared.definitions.MsdbDef.{MsdbDef as DefOf};
ghost use Rattle.msdb_calls.specs.Calls.{is_changed, key_to_change};
ghost use Rattle.msdb_calls.specs.Looks.{LookAt};
ghost use Rattle.msdb_calls.specs.Progress.{FitsMsdb, IsMsdbWorkOf, with_progress};
ghost use Rattle.std.specs.Option.{option_copied};
ghost use Rattle.std.specs.Prelude.{◌≡◌, IfOk, List as ListOf, OnErr, Some, option_and_then, slice_get, ℕ};

use crate::database::{Database, key_in};
use crate::reply::Reply;
use crate::replying::key_named;
use crate::segment_looks::SegmentLooks;
use crate::work::MsdbWork;
use fp_model::{Answer, Call, Get};
use segment_keys::SegmentKey;
use std::alloc::{AllocError, Global};

/// The database that a call names.
pub fn database_of(call: &Call) -> u8
    ensures { result ≡ database_of call.now }
{
    match call {
        Call::Get { db, .. }
        | Call::Fld { db, .. }
        | Call::Isrt { db, .. }
        | Call::Repl { db, .. }
        | Call::Dlet { db } => *db,
    }
}

/// Whether a call looks without a hold. `changed` is what `is_changed` says of it.
pub fn looks(call: &Call, changed: bool) -> bool
    ensures { (def : DefOf) (msdb : ℕ) (own : Workspace) → is_changed def msdb own call.now ≡ changed
        → result ≡ msdb_looks def msdb own call.now }
{
    match call {
        Call::Get { get, hold, .. } => !hold && !matches!(get, Get::NextInParent),
        Call::Fld { .. } => !changed,
        Call::Isrt { .. } | Call::Repl { .. } | Call::Dlet { .. } => false,
    }
}

impl Database<'_> {
    // The key of the segment that a call is to change.
    fn key_to_change<'a>(&self, work: &'a MsdbWork, call: &'a Call) -> Option<&'a [u8]>
        requires { FitsMsdb self.now.def.now self.now.number work.now }
        ensures { (own : Workspace) → option_copied result
            ≡ key_to_change self.now.def.now self.now.number (with_progress work.now own) call.now }
    {
        match call {
            Call::Get { .. } => None,
            Call::Fld { key, .. } => Some(key.as_slice()),
            Call::Isrt { bytes, .. } => Some(key_in(self.def, bytes.as_slice())),
            Call::Repl { .. } | Call::Dlet { .. } => work.position(self.number).held_key(),
        }
    }

    /// Whether a deferred call inserts or deletes the segment that a call is to change. It fails only for want of
    /// memory.
    pub fn is_changed(
        &self,
        alloc: Global,
        work: &MsdbWork,
        call: &Call,
    ) -> Result<bool, AllocError>
        requires { FitsMsdb self.now.def.now self.now.number work.now }
        ensures { IfOk result (λ changed. (own : Workspace)
            → is_changed self.now.def.now self.now.number (with_progress work.now own) call.now ≡ changed) }
    {
        let Some(key) = self.key_to_change(work, call) else {
            return Ok(false);
        };
        if work.changes_none() {
            return Ok(false);
        }
        let key = SegmentKey::new(alloc, self.number, key)?;
        Ok(work.changes(&key))
    }

    /// The key whose lock a call needs, Exclusive, before it is answered. `changed` is what `is_changed` says of it.
    pub fn needed_key<'a>(&self, call: &'a Call, changed: bool) -> Option<&'a [u8]>
        ensures { (own : Workspace) → is_changed self.now.def.now self.now.number own call.now ≡ changed
            → option_and_then (exclusively self.now.def.now self.now.number) (option_copied result) ≡ msdb_need
            self.now.def.now self.now.number own call.now }
    {
        match call {
            Call::Get {
                get: Get::Unique,
                hold: true,
                ssas,
                ..
            } => key_named(ssas),
            Call::Isrt { bytes, .. } if self.def.dynamic && !changed => {
                Some(key_in(self.def, bytes.as_slice()))
            }
            _ => None,
        }
    }

    /// Answers a call that has the lock which it needs, by what looks at the segments see. `changed` is what
    /// `is_changed` says of the call. It fails only for want of memory, and then nothing changes.
    ///
    /// Condition: looks at a database of this definition; a call that fits it; and a transaction under way, as far as
    /// it has to do with this database.
    pub fn answer<L: SegmentLooks>(
        &self,
        alloc: Global,
        work: &mut MsdbWork,
        call: &Call,
        changed: bool,
        looks: &L,
    ) -> Result<Answer, AllocError>
        requires looks { LookAt self.now.def.now (L.is_of looks.now self.now.def.now) (L.stands looks.now)
            (L.shows looks.now) }
        requires call { FitsCall call.now self.now.def.now }
        requires work { FitsMsdb self.now.def.now self.now.number work.old }
        requires changed { (own : Workspace)
            → is_changed self.now.def.now self.now.number (with_progress work.old own) call.now ≡ changed }

        // The answer and what the transaction keeps are those of the definitions, whatever else it keeps.
        ensures answer { IfOk result (λ answer. (own : Workspace)
            → msdb_reply self.now.def.now self.now.number (L.stands looks.now) (L.shows looks.now)
            (with_progress work.old own) call.now ≡ record { answer = answer; own = with_progress work.new own }) }

        // A get that found shows a whole segment.
        ensures shown { IfOk result (FitsAnswerOf (OnMsdb self.now.def.now self.now.number) call.now) }

        // It stays a transaction's under definitions that have the database.
        ensures of { (defs : ListOf DefOf) → slice_get defs self.now.number ≡ Some self.now.def.now
            → IsMsdbWorkOf defs work.old → IsMsdbWorkOf defs work.new }
        ensures err { OnErr result (work.new ≡ work.old) }
    {
        let Reply { answer, change } = self.reply(alloc, work, call, changed, looks)?;
        work.settle(self.def, self.number, change)?;
        Ok(answer)
    }
}
