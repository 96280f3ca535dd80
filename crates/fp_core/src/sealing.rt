//! LOG and CKPT: entries are sealed, their reply lines sent, and their terminals freed.
ghost use Rattle.fp_core.specs.Fronts.{HoldsFronts, KeepsFronts};
ghost use Rattle.fp_core.specs.Relation.{StandsFor, rules_in};
ghost use Rattle.fp_core.specs.inside.Sealing.{AreFreed, IsOfLog, replies_of, reply_of, terminals_of};
ghost use Rattle.fp_core.specs.Sparing.{IsLogSet, Spares};
ghost use Rattle.fp_core.specs.Standing.{IsCausedBySite, Leaves, MayStop, Origin, StandsAt, seals_of};
ghost use Rattle.fp_lists.specs.Continued.{IsContinued};
ghost use Rattle.fp_core.specs.inside.Standing.{SteppedAt};
ghost use Rattle.fp_core.specs.Turning.{Turned};
ghost use Rattle.fp_model.specs.Machine.{Machine, sealed_all, terminal_in};
ghost use Rattle.fp_model.specs.Messages.{terminal_of};
ghost use Rattle.fp_site.specs.Disk.{Elapses, Sends};
ghost use Rattle.fp_model.specs.declared.events.Event.TheVariants as events;
ghost use Rattle.fp_site.specs.Site.{ReadsNothing};
ghost use Rattle.std.specs.Prelude.{◌≡◌, ◌≤◌, ◌++◌, ℕ, IfErr, IfOk, OnOk, drop, length, take};
ghost use Rattle.std.specs.VecDeque.{deque_capacity};

use crate::did::Did;
use crate::engine::{Engine, Owed};
use crate::stop::Stop;
use balancing::Queues;
use fp_messages::{reply_line_of, terminal_of};
use fp_site::Site;
use std::alloc::Global;
use std::collections::VecDeque;

// The terminal of a line, if it can be read, waits no more.
fn free(queues: &mut Queues, line: &[u8])
    ensures freed { AreFreed queues.old.busy queues.new.busy (terminal_in (terminal_of line.now)) }
    ensures queues { queues.new.queues ≡ queues.old.queues }
{
    if let Some(name) = terminal_of(line) {
        queues.answered(&name);
    }
}

// Sends the reply line of an entry that is sealed, and frees its terminal.
fn tell_one<T: Site>(
    alloc: Global,
    queues: &mut Queues,
    site: &mut T,
    owed: &Owed,
) -> Result<(), Stop>
    // At `Ok` the line is sent, and else a first part of it at most.
    ensures sent { T.told site.old
        → OnOk result ((T.disk site.new).sent ≡ (T.disk site.old).sent ++ reply_of owed.now) }
    ensures part { T.told site.old
        → (n : ℕ) × ((T.disk site.new).sent ≡ (T.disk site.old).sent ++ take n (reply_of owed.now)) }
    ensures freed { OnOk result
        (AreFreed queues.old.busy queues.new.busy (terminal_in (terminal_of owed.now.line))) }

    // When it stops: with the site, or for want of memory.
    ensures stops { IfErr result IsOfLog }
    ensures cause { IfErr result (IsCausedBySite (T.faults site.old) (T.faults site.new)) }
    ensures calm { OnOk result (T.faults site.new ≡ T.faults site.old) }

    // What stays. A crash at any moment leaves a first part of the line sent.
    ensures queues { queues.new.queues ≡ queues.old.queues }
    ensures same { T.told site.old → (T.disk site.new).contents ≡ (T.disk site.old).contents }
    ensures reads { ReadsNothing (T.tells_reads site.old) (T.tells_reads site.new)
        (T.bytes_read site.old) (T.bytes_read site.new) }
    ensures site { IsContinued T.told T.faults T.holds T.keeps site.old site.new }
    ensures crash { T.told site.old
        → Elapses (T.disk site.old) (T.disk site.new) (Sends (T.disk site.old) (reply_of owed.now)) }
{
    let line = reply_line_of(
        alloc,
        owed.line.as_slice(),
        &owed.outcome,
        owed.reply.as_slice(),
    )?;
    site.send(line.as_slice())?;
    free(queues, owed.line.as_slice());
    Ok(())
}

// Sends the reply lines of the oldest entries that are owed, so many, in their order, and frees their terminals.
fn tell<T: Site>(
    alloc: Global,
    queues: &mut Queues,
    owed: &mut VecDeque<Owed>,
    site: &mut T,
    count: u32,
) -> Result<(), Stop>
    requires some { count ≤ length owed.old.items }

    // At `Ok` all the lines are sent, and else a first part of them.
    ensures sent { T.told site.old → OnOk result ((T.disk site.new).sent
        ≡ (T.disk site.old).sent ++ replies_of (take count owed.old.items)) }
    ensures part { T.told site.old → (n : ℕ) × ((T.disk site.new).sent
        ≡ (T.disk site.old).sent ++ take n (replies_of (take count owed.old.items))) }
    ensures freed { OnOk result
        (AreFreed queues.old.busy queues.new.busy (terminals_of (take count owed.old.items))) }
    ensures rest { OnOk result (owed.new.items ≡ drop count owed.old.items) }

    // When it stops: with the site, or for want of memory.
    ensures stops { IfErr result IsOfLog }
    ensures cause { IfErr result (IsCausedBySite (T.faults site.old) (T.faults site.new)) }
    ensures calm { OnOk result (T.faults site.new ≡ T.faults site.old) }

    // What stays. A crash at any moment leaves a first part of the lines sent.
    ensures queues { queues.new.queues ≡ queues.old.queues }
    ensures capacity { deque_capacity owed.new ≡ deque_capacity owed.old }
    ensures same { T.told site.old → (T.disk site.new).contents ≡ (T.disk site.old).contents }
    ensures reads { ReadsNothing (T.tells_reads site.old) (T.tells_reads site.new)
        (T.bytes_read site.old) (T.bytes_read site.new) }
    ensures site { IsContinued T.told T.faults T.holds T.keeps site.old site.new }
    ensures crash { T.told site.old → Elapses (T.disk site.old) (T.disk site.new)
        (Sends (T.disk site.old) (replies_of (take count owed.old.items))) }
{
    for _ in 0..count {
        let Some(first) = owed.pop_front() else {
            unreachable!()
        };
        tell_one(alloc, queues, site, &first)?;
    }
    Ok(())
}

impl Engine<'_> {
    /// LOG: the oldest entries that aren't sealed are one group, at most as many as the definitions say.
    pub(crate) fn seal<T: Site>(&mut self, site: &mut T) -> Result<Did, Stop>
        requires stands { (m : Machine) × StandsFor self.old m }

        // A turn of the table, whatever the site tells; and where it tells, the site goes on with the machine.
        ensures turned { (m : Machine) → StandsFor self.old m → IfOk result (Turned events.Log m self.new) }
        ensures at { (origin : Origin) (m : Machine) → T.told site.old → StandsAt origin (T.disk site.old) self.old m
            → IfOk result (SteppedAt origin events.Log m (T.disk site.new) self.new) }

        // However it ends, what it leaves at every moment.
        ensures leaves { (origin : Origin) (m : Machine) → T.told site.old
            → StandsAt origin (T.disk site.old) self.old m
            → Leaves origin (rules_in self.old) m (seals_of events.Log m) (T.disk site.old) (T.disk site.new) }

        // When it stops: with the site, or for want of memory.
        ensures stops { IfErr result (MayStop events.Log self.old.held) }
        ensures cause { IfErr result (IsCausedBySite (T.faults site.old) (T.faults site.new)) }
        ensures calm { OnOk result (T.faults site.new ≡ T.faults site.old) }

        // What stays.
        ensures rules { rules_in self.new ≡ rules_in self.old }
        ensures defs { self.new.defs ≡ self.old.defs }
        ensures scripts { self.new.scripts ≡ self.old.scripts }
        ensures count { length self.new.regions ≡ length self.old.regions }
        ensures most { self.new.log.spare ≤ self.old.log.spare }
        ensures reads { ReadsNothing (T.tells_reads site.old) (T.tells_reads site.new)
            (T.bytes_read site.old) (T.bytes_read site.new) }
        ensures spares { T.told site.old → Spares IsLogSet (T.disk site.old) (T.disk site.new) }
        ensures front { T.told site.old
            → KeepsFronts (T.disk site.old) self.old.log.gate (T.disk site.new) }
        ensures front_on { T.told site.old → OnOk result
            (HoldsFronts (T.disk site.old) self.old.log.gate (T.disk site.new) self.new.log.gate) }
        ensures site { IsContinued T.told T.faults T.holds T.keeps site.old site.new }
    {
        if self.owed.is_empty() {
            return Ok(Did::Nothing);
        }
        let count = self.log.seal(site, self.defs.log_group)?;
        tell(self.alloc, &mut self.queues, &mut self.owed, site, count)?;
        Ok(Did::Sealed(count))
    }

    // Seals groups until no entry is unsealed.
    fn seal_rest<T: Site>(&mut self, site: &mut T) -> Result<(), Stop>
        requires stands { (m : Machine) × StandsFor self.old m }

        // Whatever the site tells; and where it tells, the site goes on with the machine.
        ensures sealed { (m : Machine) → StandsFor self.old m
            → OnOk result (StandsFor self.new (sealed_all (rules_in self.old) m)) }
        ensures at { (origin : Origin) (m : Machine) → T.told site.old → StandsAt origin (T.disk site.old) self.old m
            → OnOk result (StandsAt origin (T.disk site.new) self.new (sealed_all (rules_in self.old) m)) }

        // However it ends, what it leaves at every moment.
        ensures leaves { (origin : Origin) (m : Machine) → T.told site.old
            → StandsAt origin (T.disk site.old) self.old m
            → Leaves origin (rules_in self.old) m (seals_of events.Ckpt m) (T.disk site.old) (T.disk site.new) }

        // When it stops: with the site, or for want of memory.
        ensures stops { IfErr result IsOfLog }
        ensures cause { IfErr result (IsCausedBySite (T.faults site.old) (T.faults site.new)) }
        ensures calm { OnOk result (T.faults site.new ≡ T.faults site.old) }

        // What stays.
        ensures rules { rules_in self.new ≡ rules_in self.old }
        ensures defs { self.new.defs ≡ self.old.defs }
        ensures scripts { self.new.scripts ≡ self.old.scripts }
        ensures count { length self.new.regions ≡ length self.old.regions }
        ensures most { self.new.log.spare ≤ self.old.log.spare }
        ensures reads { ReadsNothing (T.tells_reads site.old) (T.tells_reads site.new)
            (T.bytes_read site.old) (T.bytes_read site.new) }
        ensures spares { T.told site.old → Spares IsLogSet (T.disk site.old) (T.disk site.new) }
        ensures front { T.told site.old
            → KeepsFronts (T.disk site.old) self.old.log.gate (T.disk site.new) }
        ensures front_on { T.told site.old → OnOk result
            (HoldsFronts (T.disk site.old) self.old.log.gate (T.disk site.new) self.new.log.gate) }
        ensures site { IsContinued T.told T.faults T.holds T.keeps site.old site.new }
    {
        while !self.owed.is_empty() {
            self.seal(site)?;
        }
        Ok(())
    }

    /// CKPT: groups are sealed until no entry is unsealed. 2^32 entries or more count as want of memory.
    pub(crate) fn seal_all<T: Site>(&mut self, site: &mut T) -> Result<Did, Stop>
        requires stands { (m : Machine) × StandsFor self.old m }

        // A turn of the table, whatever the site tells; and where it tells, the site goes on with the machine.
        ensures turned { (m : Machine) → StandsFor self.old m → IfOk result (Turned events.Ckpt m self.new) }
        ensures at { (origin : Origin) (m : Machine) → T.told site.old → StandsAt origin (T.disk site.old) self.old m
            → IfOk result (SteppedAt origin events.Ckpt m (T.disk site.new) self.new) }

        // However it ends, what it leaves at every moment.
        ensures leaves { (origin : Origin) (m : Machine) → T.told site.old
            → StandsAt origin (T.disk site.old) self.old m
            → Leaves origin (rules_in self.old) m (seals_of events.Ckpt m) (T.disk site.old) (T.disk site.new) }

        // When it stops: with the site, or for want of memory.
        ensures stops { IfErr result (MayStop events.Ckpt self.old.held) }
        ensures cause { IfErr result (IsCausedBySite (T.faults site.old) (T.faults site.new)) }
        ensures calm { OnOk result (T.faults site.new ≡ T.faults site.old) }

        // What stays.
        ensures rules { rules_in self.new ≡ rules_in self.old }
        ensures defs { self.new.defs ≡ self.old.defs }
        ensures scripts { self.new.scripts ≡ self.old.scripts }
        ensures count { length self.new.regions ≡ length self.old.regions }
        ensures most { self.new.log.spare ≤ self.old.log.spare }
        ensures reads { ReadsNothing (T.tells_reads site.old) (T.tells_reads site.new)
            (T.bytes_read site.old) (T.bytes_read site.new) }
        ensures spares { T.told site.old → Spares IsLogSet (T.disk site.old) (T.disk site.new) }
        ensures front { T.told site.old
            → KeepsFronts (T.disk site.old) self.old.log.gate (T.disk site.new) }
        ensures front_on { T.told site.old → OnOk result
            (HoldsFronts (T.disk site.old) self.old.log.gate (T.disk site.new) self.new.log.gate) }
        ensures site { IsContinued T.told T.faults T.holds T.keeps site.old site.new }
    {
        let Ok(count) = u32::try_from(self.owed.len()) else {
            return Err(Stop::Memory);
        };
        if count == 0 {
            return Ok(Did::Nothing);
        }
        self.seal_rest(site)?;
        Ok(Did::Sealed(count))
    }
}
