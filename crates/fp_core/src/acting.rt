//! The turn of an active region: one thing done.
ghost use Rattle.fp_core.specs.inside.Acting.{IsAtWork, MayEnd, NeedsLock};
ghost use Rattle.fp_core.specs.Relation.{StandsFor, rules_in};
ghost use Rattle.fp_core.specs.Rooms.{IsFrugal};
ghost use Rattle.fp_core.specs.Turning.{Turned};
ghost use Rattle.fp_model.specs.Machine.{Machine, Transaction};
ghost use Rattle.fp_core.specs.declared.engine.Region.TheVariants as regions;
ghost use Rattle.fp_model.specs.declared.events.Event.TheVariants as events;
ghost use Rattle.std.specs.Prelude.{◌≡◌, ◌≤◌, ◌-◌, IfOk, OnErr, Some, length, slice_get};

use crate::answering::Acted;
use crate::did::Did;
use crate::engine::{Engine, Region};
use crate::locking::Asked;
use fp_exits::Exits;
use fp_model::{Mode, Resource};
use std::alloc::AllocError;

impl Engine<'_> {
    // It asks for the lock that it needs, and gains it, or waits. Where a cycle would close it ends, or begins again.
    fn lock(&mut self, region: u8, resource: &Resource, mode: Mode) -> Result<Did, AllocError>
        requires some { 1 ≤ region }
        requires within { region ≤ length self.old.regions }
        requires needs { (m : Machine) × ((t : Transaction)
            × NeedsLock self.old m region t (record { resource = resource.now; mode = mode })) }
        ensures turned { (m : Machine) (t : Transaction)
            → NeedsLock self.old m region t (record { resource = resource.now; mode = mode })
            → IfOk result (Turned (events.Region region) m self.new) }
        ensures err { (m : Machine) (t : Transaction)
            → NeedsLock self.old m region t (record { resource = resource.now; mode = mode })
            → OnErr result (MayEnd self.new m region t) }

        // What stays.
        ensures rules { rules_in self.new ≡ rules_in self.old }
        ensures defs { self.new.defs ≡ self.old.defs }
        ensures scripts { self.new.scripts ≡ self.old.scripts }
        ensures gate { self.new.log.gate ≡ self.old.log.gate }
        ensures most { self.new.log.spare ≤ self.old.log.spare }
        ensures count { length self.new.regions ≡ length self.old.regions }
    {
        match self.ask(region, resource, mode)? {
            Asked::Gained => Ok(Did::Gained),
            Asked::Waits => Ok(Did::Waited),
            Asked::Closes(cycle) => self.close_cycle(region, cycle),
        }
    }

    // It does one thing. Want of memory may have dropped its request.
    fn try_act(&mut self, region: u8, exits: &Exits) -> Result<Did, AllocError>
        requires some { 1 ≤ region }
        requires within { region ≤ length self.old.regions }
        requires under { (m : Machine) × ((t : Transaction) × IsAtWork self.old m region t) }
        ensures turned { (m : Machine) (t : Transaction) → IsAtWork self.old m region t
            → IfOk result (Turned (events.Region region) m self.new) }
        ensures err { (m : Machine) (t : Transaction) → IsAtWork self.old m region t
            → OnErr result (MayEnd self.new m region t) }

        // What stays.
        ensures rules { rules_in self.new ≡ rules_in self.old }
        ensures defs { self.new.defs ≡ self.old.defs }
        ensures scripts { self.new.scripts ≡ self.old.scripts }
        ensures gate { self.new.log.gate ≡ self.old.log.gate }
        ensures most { self.new.log.spare ≤ self.old.log.spare }
        ensures count { length self.new.regions ≡ length self.old.regions }
    {
        match self.go_on(region, exits)? {
            Acted::Answered => Ok(Did::Answered),
            Acted::Needs(resource, mode) => self.lock(region, &resource, mode),
            Acted::Replies(reply) => self.commit(region, reply),
            Acted::Rolls(code) => self.roll(region, code),
        }
    }

    /// The turn of an active region. Where it lacks memory its transaction is refused.
    pub(crate) fn act(&mut self, region: u8, exits: &Exits) -> Did
        requires some { 1 ≤ region }
        requires within { region ≤ length self.old.regions }
        requires under { (m : Machine) × ((t : Transaction) × IsAtWork self.old m region t) }
        ensures turned { (m : Machine) (t : Transaction) → IsAtWork self.old m region t
            → Turned (events.Region region) m self.new result }

        // What stays.
        ensures rules { rules_in self.new ≡ rules_in self.old }
        ensures defs { self.new.defs ≡ self.old.defs }
        ensures scripts { self.new.scripts ≡ self.old.scripts }
        ensures gate { self.new.log.gate ≡ self.old.log.gate }
        ensures most { self.new.log.spare ≤ self.old.log.spare }
        ensures count { length self.new.regions ≡ length self.old.regions }
    {
        match self.try_act(region, exits) {
            Ok(did) => did,
            Err(AllocError) => self.refuse_for_memory(region),
        }
    }

    /// The turn of a region. It fails only for want of memory, where an idle region takes a message.
    pub(crate) fn turn(&mut self, region: u8, exits: &Exits) -> Result<Did, AllocError>
        requires some { 1 ≤ region }
        requires within { region ≤ length self.old.regions }
        requires stands { (m : Machine) × StandsFor self.old m }
        ensures turned { (m : Machine) → StandsFor self.old m → IfOk result (Turned (events.Region region) m self.new) }
        ensures err { (m : Machine) → StandsFor self.old m → OnErr result (StandsFor self.new m) }
        ensures idle { OnErr result (slice_get self.old.regions (region - 1) ≡ Some regions.Idle) }

        // What stays.
        ensures rules { rules_in self.new ≡ rules_in self.old }
        ensures defs { self.new.defs ≡ self.old.defs }
        ensures scripts { self.new.scripts ≡ self.old.scripts }
        ensures gate { self.new.log.gate ≡ self.old.log.gate }
        ensures frugal { IsFrugal self.old self.new }
        ensures count { length self.new.regions ≡ length self.old.regions }
    {
        match self.region(region) {
            Region::Idle => self.take_message(region),
            Region::Active(_) => Ok(self.act(region, exits)),
        }
    }
}
