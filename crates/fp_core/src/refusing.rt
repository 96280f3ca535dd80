//! A transaction is refused, or begins again.
ghost use Rattle.fp_core.specs.inside.Acting.{HasClosed, IsAtEndOf, IsAtWork, MayEnd};
ghost use Rattle.fp_core.specs.inside.Ending.{IsRefusal, refused_entry};
ghost use Rattle.fp_core.specs.Relation.{IsShort, StandsFor, rules_in};
ghost use Rattle.fp_core.specs.Turning.{Turned};
ghost use Rattle.fp_model.specs.Asking.{Rolls};
ghost use Rattle.fp_model.specs.LogText.{FitsEntry, FitsOutcome, KeepsRules};
ghost use Rattle.fp_model.specs.Machine.{Machine, Transaction, ended_with};
ghost use Rattle.fp_model.specs.Turns.{refused_with, tried_again};
ghost use Rattle.fp_model.specs.declared.events.Event.TheVariants as events;
ghost use Rattle.fp_model.specs.declared.log.Outcome.TheVariants.{Deadlock, Memory};
ghost use Rattle.std.specs.Prelude.{◌≡◌, ◌≤◌, ◌<◌, ◌+◌, ◌^◌, [], IfOk, None, OnErr, OnOk, length};
ghost use Rattle.sync_point.specs.Refusals.{bare_entry};

use crate::did::Did;
use crate::ending::append_owed;
use crate::engine::{Active, Engine, Region, put, set_region};
use crate::numbering::{Kept, keep};
use crate::taking::start;
use dli_calls::Work;
use fp_model::{Bytes, Entry, List, Outcome};
use std::alloc::{AllocError, Global};
use std::mem::replace;
use sync_point::refusal_room;
use txn_machine::Program;

// The entry of a transaction that is refused for want of memory, and what is kept of its number: both go out of it.
// Takes none.
fn bare_parts(alloc: Global, active: &mut Active) -> (Entry, Option<Kept>)
    ensures entry { result.0 ≡ bare_entry active.old.from Memory active.old.message.line }
    ensures kept { result.1 ≡ active.old.refusal }
{
    let entry = Entry {
        from: active.from,
        outcome: Outcome::Memory,
        line: replace(&mut active.message.line, Bytes::new(alloc)),
        reply: Bytes::new(alloc),
        notes: List::new(alloc),
        items: List::new(alloc),
    };
    (entry, active.refusal.take())
}

// An entry has fewer notes than this.
const MOST: usize = 1 << 32;

/// A copy of the notes of a transaction. It fails also where there would be 2^32.
pub(crate) fn notes_of(active: &Active) -> Result<List<u64>, AllocError>
    ensures notes { IfOk result (λ notes. notes ≡ active.now.work.notes) }
    ensures few { IfOk result (λ notes. length notes < 2 ^ 32) }
{
    let notes = active.work.notes().clone()?;
    if notes.len() >= MOST {
        return Err(AllocError);
    }
    Ok(notes)
}

/// The entry of a transaction that is refused by itself.
pub(crate) fn refused_entry(
    alloc: Global,
    active: &Active,
    outcome: Outcome,
    notes: List<u64>,
) -> Result<Entry, AllocError>
    requires refusal { IsRefusal outcome }
    requires outcome { FitsOutcome outcome }
    requires line { IsShort active.now.message.line }
    requires few { length notes < 2 ^ 32 }
    ensures entry { IfOk result (λ entry. entry ≡ refused_entry active.now outcome notes) }
    ensures rules { IfOk result KeepsRules }
    ensures fits { IfOk result FitsEntry }
{
    Ok(Entry {
        from: active.from,
        outcome,
        line: active.message.line.copy()?,
        reply: Bytes::new(alloc),
        notes,
        items: List::new(alloc),
    })
}

// The entry of a transaction that would close a cycle: it has no notes.
fn cycle_entry(alloc: Global, active: &Active, cycle: Bytes) -> Result<Entry, AllocError>
    requires line { IsShort active.now.message.line }
    requires few { length cycle ≤ 64 }
    ensures entry { IfOk result (λ entry. entry ≡ refused_entry active.now (Deadlock cycle) []) }
    ensures rules { IfOk result KeepsRules }
    ensures fits { IfOk result FitsEntry }
{
    refused_entry(alloc, active, Outcome::Deadlock(cycle), List::new(alloc))
}

// The transaction begins once more, behind so many entries.
fn begin_again(active: &mut Active, from: u64, program: Program, work: Work)
    requires { active.old.tries < 100 }
    ensures { active.new ≡ record {
      from = from;
      message = active.old.message;
      program = program;
      work = work;
      tries = active.old.tries + 1;
      ahead = None;
      refusal = active.old.refusal;
    } }
{
    active.from = from;
    put(&mut active.program, program);
    put(&mut active.work, work);
    active.tries += 1;
    put(&mut active.ahead, Option::None);
}

impl Engine<'_> {
    // The active region's transaction is refused for want of memory. Takes none.
    fn refuse_bare(&mut self, region: u8)
        requires some { 1 ≤ region }
        requires within { region ≤ length self.old.regions }
        requires under { (m : Machine) × ((t : Transaction) × MayEnd self.old m region t) }
        ensures refused { (m : Machine) (t : Transaction) → MayEnd self.old m region t
            → StandsFor self.new (refused_with (rules_in self.old) m region t Memory) }

        // What stays.
        ensures rules { rules_in self.new ≡ rules_in self.old }
        ensures defs { self.new.defs ≡ self.old.defs }
        ensures scripts { self.new.scripts ≡ self.old.scripts }
        ensures gate { self.new.log.gate ≡ self.old.log.gate }
        ensures most { self.new.log.spare ≤ self.old.log.spare }
        ensures count { length self.new.regions ≡ length self.old.regions }
    {
        let room = self.room - refusal_room(&self.active_in(region).message.line);
        let (entry, kept) = match self.regions.item_mut(usize::from(region) - 1) {
            Region::Active(active) => bare_parts(self.alloc, active),
            Region::Idle => unreachable!(),
        };
        let _ = append_owed(&mut self.log, &mut self.owed, entry, room); // there is room for it
        keep(&mut self.lasts, kept);
        set_region(&mut self.regions, region, Region::Idle);
        self.locks.release_all(region);
        self.room = room;
    }

    /// The turn of an active region for want of memory.
    pub(crate) fn refuse_for_memory(&mut self, region: u8) -> Did
        requires some { 1 ≤ region }
        requires within { region ≤ length self.old.regions }
        requires under { (m : Machine) × ((t : Transaction) × MayEnd self.old m region t) }
        ensures turned { (m : Machine) (t : Transaction) → MayEnd self.old m region t
            → Turned (events.Region region) m self.new result }

        // What stays.
        ensures rules { rules_in self.new ≡ rules_in self.old }
        ensures defs { self.new.defs ≡ self.old.defs }
        ensures scripts { self.new.scripts ≡ self.old.scripts }
        ensures gate { self.new.log.gate ≡ self.old.log.gate }
        ensures most { self.new.log.spare ≤ self.old.log.spare }
        ensures count { length self.new.regions ≡ length self.old.regions }
    {
        self.refuse_bare(region);
        Did::Refused
    }

    /// The active region's transaction is refused by this entry, made of copies, and the databases stay.
    pub(crate) fn refuse(&mut self, region: u8, entry: Entry) -> Result<(), AllocError>
        requires some { 1 ≤ region }
        requires within { region ≤ length self.old.regions }
        requires under { (m : Machine) × ((t : Transaction) × MayEnd self.old m region t) }
        requires refusal { IsRefusal entry.outcome }
        requires rules { KeepsRules entry }
        requires fits { FitsEntry entry }
        requires line { (m : Machine) (t : Transaction) → MayEnd self.old m region t → entry.line ≡ t.message.line }
        ensures ended { (m : Machine) (t : Transaction) → MayEnd self.old m region t
            → OnOk result (StandsFor self.new (ended_with region entry m.history.now m)) }
        ensures err { (m : Machine) (t : Transaction) → MayEnd self.old m region t
            → OnErr result (MayEnd self.new m region t) }

        // What stays.
        ensures rules { rules_in self.new ≡ rules_in self.old }
        ensures defs { self.new.defs ≡ self.old.defs }
        ensures scripts { self.new.scripts ≡ self.old.scripts }
        ensures gate { self.new.log.gate ≡ self.old.log.gate }
        ensures most { self.new.log.spare ≤ self.old.log.spare }
        ensures count { length self.new.regions ≡ length self.old.regions }
    {
        self.end(region, entry)?;
        Ok(())
    }

    /// The active region gives up its locks, and begins its message once more.
    pub(crate) fn try_again(&mut self, region: u8) -> Result<(), AllocError>
        requires some { 1 ≤ region }
        requires within { region ≤ length self.old.regions }
        requires under { (m : Machine) × ((t : Transaction) × MayEnd self.old m region t) }
        requires left { (m : Machine) (t : Transaction) → MayEnd self.old m region t
            → t.tries < self.old.defs.now.tries }
        ensures again { (m : Machine) (t : Transaction) → MayEnd self.old m region t
            → OnOk result (StandsFor self.new (tried_again (rules_in self.old) region t m)) }
        ensures err { (m : Machine) (t : Transaction) → MayEnd self.old m region t
            → OnErr result (MayEnd self.new m region t) }

        // What stays.
        ensures rules { rules_in self.new ≡ rules_in self.old }
        ensures defs { self.new.defs ≡ self.old.defs }
        ensures scripts { self.new.scripts ≡ self.old.scripts }
        ensures gate { self.new.log.gate ≡ self.old.log.gate }
        ensures most { self.new.log.spare ≤ self.old.log.spare }
        ensures count { length self.new.regions ≡ length self.old.regions }
    {
        let from = self.log.count();
        let message = &self.active_in(region).message;
        let (program, work) = start(self.alloc, self.defs, self.scripts, message)?;
        match self.regions.item_mut(usize::from(region) - 1) {
            Region::Active(active) => begin_again(active, from, program, work),
            Region::Idle => unreachable!(),
        }
        self.locks.release_all(region);
        Ok(())
    }

    /// The active region's script is at its end with a rollback code: its transaction is refused.
    pub(crate) fn roll(&mut self, region: u8, code: u16) -> Result<Did, AllocError>
        requires some { 1 ≤ region }
        requires within { region ≤ length self.old.regions }
        requires at_end { (m : Machine) × ((t : Transaction) × IsAtEndOf self.old m region t (Rolls code)) }
        ensures turned { (m : Machine) (t : Transaction) → IsAtEndOf self.old m region t (Rolls code)
            → IfOk result (Turned (events.Region region) m self.new) }
        ensures err { (m : Machine) (t : Transaction) → IsAtWork self.old m region t
            → OnErr result (MayEnd self.new m region t) }

        // What stays.
        ensures rules { rules_in self.new ≡ rules_in self.old }
        ensures defs { self.new.defs ≡ self.old.defs }
        ensures scripts { self.new.scripts ≡ self.old.scripts }
        ensures gate { self.new.log.gate ≡ self.old.log.gate }
        ensures most { self.new.log.spare ≤ self.old.log.spare }
        ensures count { length self.new.regions ≡ length self.old.regions }
    {
        let active = self.active_in(region);
        let notes = notes_of(active)?;
        let entry = refused_entry(self.alloc, active, Outcome::Roll(code), notes)?;
        self.refuse(region, entry)?;
        Ok(Did::Refused)
    }

    /// The active region would close a cycle: its transaction begins again, or is refused where its tries are used up.
    pub(crate) fn close_cycle(&mut self, region: u8, cycle: Bytes) -> Result<Did, AllocError>
        requires some { 1 ≤ region }
        requires within { region ≤ length self.old.regions }
        requires closed { (m : Machine) × ((t : Transaction) × HasClosed self.old m region t cycle) }
        ensures turned { (m : Machine) (t : Transaction) → HasClosed self.old m region t cycle
            → IfOk result (Turned (events.Region region) m self.new) }
        ensures err { (m : Machine) (t : Transaction) → MayEnd self.old m region t
            → OnErr result (MayEnd self.new m region t) }

        // What stays.
        ensures rules { rules_in self.new ≡ rules_in self.old }
        ensures defs { self.new.defs ≡ self.old.defs }
        ensures scripts { self.new.scripts ≡ self.old.scripts }
        ensures gate { self.new.log.gate ≡ self.old.log.gate }
        ensures most { self.new.log.spare ≤ self.old.log.spare }
        ensures count { length self.new.regions ≡ length self.old.regions }
    {
        let active = self.active_in(region);
        if active.tries < self.defs.tries {
            self.try_again(region)?;
            return Ok(Did::Retried);
        }
        let entry = cycle_entry(self.alloc, active, cycle)?;
        self.refuse(region, entry)?;
        Ok(Did::Refused)
    }
}
