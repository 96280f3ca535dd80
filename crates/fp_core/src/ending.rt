//! What each end of a transaction does: an entry, no locks, an idle region.
ghost use Rattle.ci_locks.specs.Standing.{Shows};
ghost use Rattle.ci_locks.specs.Table.{standing};
ghost use Rattle.fp_core.specs.inside.Acting.{MayEnd};
ghost use Rattle.fp_core.specs.Numbering.{last_told};
ghost use Rattle.fp_core.specs.inside.Numbering.{with_used};
ghost use Rattle.fp_core.specs.Relation.{IsShort, owed_of};
ghost use Rattle.fp_core.specs.declared.engine.Region.TheVariants as regions;
ghost use Rattle.fp_model.specs.LogText.{FitsEntry, KeepsRules, entry_text};
ghost use Rattle.fp_model.specs.Machine.{Machine, Transaction};
ghost use Rattle.fp_model.specs.Waiting.{Lock, without_region};
ghost use Rattle.std.specs.Prelude.{◌≡◌, ◌≤◌, ◌<◌, ◌-◌, ◌+◌, ◌++◌, ◌∷◌, [], IsOk, List as ListOf, OnErr, OnOk, Some, length, slice_get, slice_set};
ghost use Rattle.std.specs.VecDeque.{deque_capacity};
ghost use Rattle.sync_point.specs.Refusals.{refusal_room};

use crate::engine::{Active, Engine, Owed, Region, set_region};
use crate::numbering::{keep, kept_of};
use fp_model::Entry;
use log_groups::Log;
use std::alloc::AllocError;
use std::collections::VecDeque;
use sync_point::{append_beside, refusal_room};

/// What is kept of an entry until its reply line is sent.
pub(crate) fn owed_of(entry: Entry) -> Owed
    ensures { result ≡ owed_of entry }
{
    let Entry {
        from: _,
        outcome,
        line,
        reply,
        notes: _,
        items: _,
    } = entry;
    Owed {
        line,
        outcome,
        reply,
    }
}

/// Appends an entry, which is owed from then on, and keeps this room free behind it. Want of memory appends nothing.
/// None is taken where there is room for both.
pub(crate) fn append_owed(
    log: &mut Log,
    owed: &mut VecDeque<Owed>,
    entry: Entry,
    room: u64,
) -> Result<(), AllocError>
    requires rules { KeepsRules entry }
    requires fits { FitsEntry entry }
    requires slot { length owed.old.items < deque_capacity owed.old }
    ensures unsealed { OnOk result (log.new.unsealed ≡ log.old.unsealed ++ entry ∷ []) }
    ensures owed { OnOk result (owed.new.items ≡ owed.old.items ++ owed_of entry ∷ []) }
    ensures room { OnOk result (room ≤ log.new.spare) }
    ensures sure { length (entry_text entry) + room ≤ log.old.spare → IsOk result }

    // What stays.
    ensures sealed { log.new.sealed ≡ log.old.sealed }
    ensures gate { log.new.gate ≡ log.old.gate }
    ensures most { room ≤ log.old.spare → log.new.spare ≤ log.old.spare }
    ensures slots { deque_capacity owed.new ≡ deque_capacity owed.old }
    ensures waiting { OnErr result (log.new.unsealed ≡ log.old.unsealed) }
    ensures spare { OnErr result (log.old.spare ≤ log.new.spare) }
    ensures err { OnErr result (owed.new ≡ owed.old) }
{
    append_beside(log, &entry, room)?;
    owed.push_back_reserved(owed_of(entry));
    Ok(())
}

impl Engine<'_> {
    /// The transaction of an active region.
    pub(crate) fn active_in(&self, region: u8) -> &Active
        requires some { 1 ≤ region }
        requires within { region ≤ length self.now.regions }
        requires under { (m : Machine) × ((t : Transaction) × MayEnd self.now m region t) }
        ensures there { slice_get self.now.regions (region - 1) ≡ Some (regions.Active result.now) }
        ensures short { IsShort result.now.message.line }
        ensures room { refusal_room result.now.message.line ≤ self.now.room }
        ensures slot { length self.now.owed.items < deque_capacity self.now.owed }
        ensures place { 1 ≤ self.now.lasts.spare }
    {
        match self.region(region) {
            Region::Active(active) => active,
            Region::Idle => unreachable!(),
        }
    }

    /// The active region's transaction ends with this entry: the region is idle, its locks, its request and its room
    /// are gone, and its number is used. Want of memory changes nothing but what the log has room for.
    pub(crate) fn end(&mut self, region: u8, entry: Entry) -> Result<(), AllocError>
        requires some { 1 ≤ region }
        requires within { region ≤ length self.old.regions }
        requires under { (m : Machine) × ((t : Transaction) × MayEnd self.old m region t) }
        requires rules { KeepsRules entry }
        requires fits { FitsEntry entry }

        // The entry, and what is owed of it.
        ensures unsealed { OnOk result (self.new.log.unsealed ≡ self.old.log.unsealed ++ entry ∷ []) }
        ensures owed { OnOk result (self.new.owed.items ≡ self.old.owed.items ++ owed_of entry ∷ []) }
        ensures spare { OnOk result (self.new.room ≤ self.new.log.spare) }
        ensures sealed { self.new.log.sealed ≡ self.old.log.sealed }
        ensures gate { self.new.log.gate ≡ self.old.log.gate }
        ensures most { self.new.log.spare ≤ self.old.log.spare }
        ensures slots { deque_capacity self.new.owed ≡ deque_capacity self.old.owed }

        // The number of its message, where it has one.
        ensures used { (m : Machine) (t : Transaction) → MayEnd self.old m region t
            → OnOk result (self.new.lasts.terminals
            ≡ with_used (last_told t.message entry.outcome entry.reply) self.old.lasts.terminals) }
        ensures places { OnOk result (self.old.lasts.spare ≤ self.new.lasts.spare + 1) }

        // The region.
        ensures room { (m : Machine) (t : Transaction) → MayEnd self.old m region t
            → OnOk result (self.new.room + refusal_room t.message.line ≡ self.old.room) }
        ensures ok { OnOk result (self.new ≡ record self.old {
          regions = slice_set self.old.regions (region - 1) regions.Idle;
          locks = self.new.locks;
          log = self.new.log;
          owed = self.new.owed;
          room = self.new.room;
          lasts = self.new.lasts;
        }) }
        ensures locks { (locks requests : ListOf Lock) → Shows (standing self.old.locks) locks requests
            → OnOk result (Shows (standing self.new.locks)
            (without_region region locks) (without_region region requests)) }
        ensures rows { length self.new.locks ≡ length self.old.locks }

        ensures err { OnErr result (self.new ≡ record self.old { log = self.new.log }) }
        ensures waiting { OnErr result (self.new.log.unsealed ≡ self.old.log.unsealed) }
        ensures more { OnErr result (self.old.log.spare ≤ self.new.log.spare) }
    {
        let active = self.active_in(region);
        let room = self.room - refusal_room(&active.message.line);
        let kept = kept_of(
            self.alloc,
            &active.message,
            &entry.outcome,
            entry.reply.as_slice(),
        )?;
        append_owed(&mut self.log, &mut self.owed, entry, room)?;
        keep(&mut self.lasts, kept);
        set_region(&mut self.regions, region, Region::Idle);
        self.locks.release_all(region);
        self.room = room;
        Ok(())
    }
}
