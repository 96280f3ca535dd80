//! An idle region takes the oldest message of its group.
ghost use Rattle.fp_core.specs.Numbering.{last_kept, last_told};
ghost use Rattle.fp_core.specs.declared.numbering.Kept.{Kept as KeptOf};
ghost use Rattle.fp_core.specs.Relation.{IsShort, IsTransaction, StandsFor, rules_in};
ghost use Rattle.fp_core.specs.Rooms.{IsFrugal};
ghost use Rattle.fp_core.specs.Turning.{Turned};
ghost use Rattle.fp_core.specs.declared.engine.Region.TheVariants as regions;
ghost use Rattle.fp_model.specs.Asking.{script_of};
ghost use Rattle.fp_model.specs.Machine.{Machine};
ghost use Rattle.fp_model.specs.Product.{rules_of};
ghost use Rattle.fp_model.specs.Serial.{begun};
ghost use Rattle.fp_model.specs.declared.events.Event.TheVariants as events;
ghost use Rattle.fp_model.specs.declared.log.Outcome.TheVariants.{Memory};
ghost use Rattle.fp_model.specs.declared.scripts.Script.{Script};
ghost use Rattle.std.specs.Prelude.{◌≡◌, ◌≤◌, ◌-◌, ◌+◌, ℕ, [], IfOk, None, OnErr, OnOk, Option as OptionOf, Some, length, max, option_map, slice_get};
ghost use Rattle.std.specs.VecDeque.{deque_capacity};
ghost use Rattle.sync_point.specs.Refusals.{refusal_room};

use crate::did::Did;
use crate::engine::{Active, Engine, Owed, Region, set_region};
use crate::numbering::{Kept, kept_of};
use balancing::Lasts;
use dli_calls::Work;
use fp_model::{Bytes, Defs, Message, Outcome};
use log_groups::Log;
use std::alloc::{AllocError, Global};
use std::collections::VecDeque;
use sync_point::refusal_room;
use txn_lang::Scripts;
use txn_machine::Program;

// The room of refusals, with that of a line.
fn room_with(room: u64, line: &Bytes) -> Result<u64, AllocError>
    requires short { IsShort line.now }
    ensures { IfOk result (λ sum. sum ≡ room + refusal_room line.now) }
{
    match room.checked_add(refusal_room(line)) {
        Some(sum) => Ok(sum),
        Option::None => Err(AllocError),
    }
}

/// A script at its beginning, and what its transaction keeps.
pub(crate) fn start(
    alloc: Global,
    defs: &Defs,
    scripts: &Scripts,
    message: &Message,
) -> Result<(Program, Work), AllocError>
    requires named { (script : Script) × (script_of scripts.now.scripts message.now.tran ≡ Some script) }
    requires short { IsShort message.now.line }
    ensures { (from tries : ℕ) (refusal : OptionOf KeptOf)
        → option_map last_kept refusal ≡ last_told message.now Memory []
        → IfOk result (λ made. IsTransaction defs.now scripts.now.scripts
        (record {
          from = from;
          message = message.now;
          program = made.0;
          work = made.1;
          tries = tries;
          ahead = None;
          refusal = refusal;
        })
        (record {
          from = from;
          message = message.now;
          point = begun (rules_of defs.now scripts.now.scripts);
          notes = [];
          tries = tries;
        })) }
{
    let Some(number) = scripts.find(&message.tran) else {
        unreachable!()
    };
    let program = Program::start(alloc, scripts, number);
    let work = Work::new(alloc, defs)?;
    Ok((program, work))
}

// What a transaction begins with.
#[derive(Drop)]
struct Begun {
    program: Program,
    work: Work,
    // What is kept of its number where it is refused for want of memory.
    refusal: Option<Kept>,
}

// A script at its beginning, and what is kept of its refusal.
fn begin(
    alloc: Global,
    defs: &Defs,
    scripts: &Scripts,
    message: &Message,
) -> Result<Begun, AllocError>
    requires named { (script : Script) × (script_of scripts.now.scripts message.now.tran ≡ Some script) }
    requires short { IsShort message.now.line }
    ensures { (from : ℕ) → IfOk result (λ made. IsTransaction defs.now scripts.now.scripts
        (record {
          from = from;
          message = message.now;
          program = made.program;
          work = made.work;
          tries = 0;
          ahead = None;
          refusal = made.refusal;
        })
        (record {
          from = from;
          message = message.now;
          point = begun (rules_of defs.now scripts.now.scripts);
          notes =
              [];
          tries = 0;
        })) }
{
    let refusal = kept_of(alloc, message, &Outcome::Memory, &[])?;
    let (program, work) = start(alloc, defs, scripts, message)?;
    Ok(Begun {
        program,
        work,
        refusal,
    })
}

// Makes room in the log for the refusal of this line beside the others, which take so many bytes, for so many more that
// are owed, and for so many numbers. It gives the room of all refusals.
fn make_room(
    log: &mut Log,
    owed: &mut VecDeque<Owed>,
    lasts: &mut Lasts,
    others: u64,
    line: &Bytes,
    slots: usize,
) -> Result<u64, AllocError>
    requires short { IsShort line.now }
    requires few { slots ≤ 64 }
    ensures sum { IfOk result (λ room. room ≡ others + refusal_room line.now) }
    ensures room { IfOk result (λ room. room ≤ log.new.spare) }
    ensures slots { OnOk result (length owed.new.items + slots ≤ deque_capacity owed.new) }
    ensures places { OnOk result (slots ≤ lasts.new.spare) }

    // What stays.
    ensures log { log.new ≡ record log.old { spare = log.new.spare } }
    ensures gate { log.new.gate ≡ log.old.gate }
    ensures spare { log.old.spare ≤ log.new.spare }
    ensures most { log.new.spare ≤ max log.old.spare (others + refusal_room line.now) }
    ensures owed { owed.new.items ≡ owed.old.items }
    ensures capacity { deque_capacity owed.old ≤ deque_capacity owed.new }
    ensures lasts { lasts.new.terminals ≡ lasts.old.terminals }
    ensures numbers { lasts.old.spare ≤ lasts.new.spare }
{
    let room = room_with(others, line)?;
    owed.reserve(slots)?;
    lasts.reserve(slots as u32)?;
    log.reserve(room)?;
    Ok(room)
}

impl Engine<'_> {
    // The balancing group of a region.
    fn group_of(&self, region: u8) -> u8
        requires some { 1 ≤ region }
        requires within { region ≤ length self.now.defs.now.regions }
        ensures { slice_get self.now.defs.now.regions (region - 1) ≡ Some result }
    {
        self.defs.regions.as_slice()[usize::from(region) - 1]
    }

    /// The idle region takes the oldest message of its group, if there is one.
    pub(crate) fn take_message(&mut self, region: u8) -> Result<Did, AllocError>
        requires some { 1 ≤ region }
        requires within { region ≤ length self.old.regions }
        requires idle { slice_get self.old.regions (region - 1) ≡ Some regions.Idle }
        requires stands { (m : Machine) × StandsFor self.old m }
        ensures turned { (m : Machine) → StandsFor self.old m
            → IfOk result (Turned (events.Region region) m self.new) }

        // What stays. A transaction that can't begin leaves its message queued.
        ensures err { (m : Machine) → StandsFor self.old m → OnErr result (StandsFor self.new m) }
        ensures rules { rules_in self.new ≡ rules_in self.old }
        ensures defs { self.new.defs ≡ self.old.defs }
        ensures scripts { self.new.scripts ≡ self.old.scripts }
        ensures gate { self.new.log.gate ≡ self.old.log.gate }
        ensures frugal { IsFrugal self.old self.new }
        ensures count { length self.new.regions ≡ length self.old.regions }
    {
        let group = self.group_of(region);
        let from = self.log.count();
        let message = match self.queues.oldest(group) {
            Option::None => return Ok(Did::Nothing),
            Some(message) => message,
        };
        let room = make_room(
            &mut self.log,
            &mut self.owed,
            &mut self.lasts,
            self.room,
            &message.line,
            self.regions.len(),
        )?;
        let begun = begin(self.alloc, self.defs, self.scripts, message)?;
        let Some(message) = self.queues.take(group) else {
            unreachable!()
        };
        self.room = room;
        set_region(
            &mut self.regions,
            region,
            Region::Active(Active {
                from,
                message,
                program: begun.program,
                work: begun.work,
                tries: 0,
                ahead: Option::None,
                refusal: begun.refusal,
            }),
        );
        Ok(Did::Took)
    }
}
