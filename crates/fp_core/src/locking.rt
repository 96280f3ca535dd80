//! An active region asks for the lock that it needs.
ghost use Rattle.ci_locks.specs.Table.{standing};
ghost use Rattle.fp_core.specs.inside.Acting.{HasAsked, IsAtWork, MayEnd, NeedsLock};
ghost use Rattle.fp_core.specs.Relation.{rules_in};
ghost use Rattle.fp_model.specs.Answers.{serves};
ghost use Rattle.fp_model.specs.Machine.{Machine, Transaction};
ghost use Rattle.fp_model.specs.declared.calls.Mode.TheVariants.{Exclusive};
ghost use Rattle.std.specs.Option.{option_copied};
ghost use Rattle.std.specs.Prelude.{◌≡◌, ◌≤◌, IfOk, OnErr, find, length, not};

use crate::engine::Engine;
use ci_locks::{Grant, Locks};
use fp_model::{Bytes, Mode, Resource};
use std::alloc::AllocError;

/// What became of a request.
#[derive(Drop)]
pub(crate) enum Asked {
    /// The region has the lock.
    Gained,
    /// The region waits for others.
    Waits,
    /// These regions would wait in a cycle, this region first. The request doesn't stand.
    Closes(Bytes),
}

/// A copy of a resource.
pub(crate) fn copy_of(resource: &Resource) -> Result<Resource, AllocError>
    ensures { IfOk result (λ copy. copy ≡ resource.now) }
{
    match resource {
        Resource::Segment { msdb, key } => Ok(Resource::Segment {
            msdb: *msdb,
            key: key.copy()?,
        }),
        Resource::Anchor { dedb, anchor } => Ok(Resource::Anchor {
            dedb: *dedb,
            anchor: *anchor,
        }),
    }
}

// Whether a region holds a resource Exclusive.
fn is_held(locks: &Locks, region: u8, resource: &Resource) -> bool
    requires some { 1 ≤ region }
    requires within { region ≤ length locks.now }
    ensures { result ≡ serves ((standing locks.now).holds region resource.now) Exclusive }
{
    locks.holds(region, resource) == Some(Mode::Exclusive)
}

/// The first of these that a region doesn't hold Exclusive.
pub(crate) fn first_unheld<'a>(
    locks: &Locks,
    region: u8,
    named: &'a [Resource],
) -> Option<&'a Resource>
    requires some { 1 ≤ region }
    requires within { region ≤ length locks.now }
    ensures { option_copied result
        ≡ find (λ resource. not (serves ((standing locks.now).holds region resource) Exclusive)) named.now }
{
    for resource in named {
        if !is_held(locks, region, resource) {
            return Some(resource);
        }
    }
    None
}

impl Engine<'_> {
    /// The active region asks for the lock that it needs.
    pub(crate) fn ask(
        &mut self,
        region: u8,
        resource: &Resource,
        mode: Mode,
    ) -> Result<Asked, AllocError>
        requires some { 1 ≤ region }
        requires within { region ≤ length self.old.regions }
        requires needs { (m : Machine) × ((t : Transaction)
            × NeedsLock self.old m region t (record { resource = resource.now; mode = mode })) }
        ensures asked { (m : Machine) (t : Transaction)
            → NeedsLock self.old m region t (record { resource = resource.now; mode = mode })
            → IfOk result (HasAsked self.new m region t) }
        ensures err { (m : Machine) (t : Transaction) → IsAtWork self.old m region t
            → OnErr result (MayEnd self.new m region t) }

        // What stays.
        ensures rules { rules_in self.new ≡ rules_in self.old }
        ensures defs { self.new.defs ≡ self.old.defs }
        ensures scripts { self.new.scripts ≡ self.old.scripts }
        ensures gate { self.new.log.gate ≡ self.old.log.gate }
        ensures most { self.new.log.spare ≤ self.old.log.spare }
        ensures count { length self.new.regions ≡ length self.old.regions }
    {
        match self.locks.ask(region, resource, mode)? {
            Grant::Held => Ok(Asked::Gained),
            Grant::Wait(_) => Ok(Asked::Waits),
            Grant::Cycle(cycle) => Ok(Asked::Closes(cycle)),
        }
    }
}
