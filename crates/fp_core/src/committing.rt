//! A transaction that replies, and holds what it needs, is settled.
ghost use Rattle.fp_core.specs.inside.Acting.{HoldsAll, IsAtWork, MayEnd};
ghost use Rattle.fp_core.specs.inside.Ending.{draft_of};
ghost use Rattle.fp_core.specs.Relation.{rules_in};
ghost use Rattle.fp_core.specs.Turning.{Turned};
ghost use Rattle.fp_model.specs.Machine.{Machine, Transaction};
ghost use Rattle.fp_model.specs.Serial.{refused_as};
ghost use Rattle.fp_model.specs.Turns.{IsAtEnd};
ghost use Rattle.fp_model.specs.declared.events.Event.TheVariants as events;
ghost use Rattle.fp_model.specs.declared.log.Outcome.TheVariants.{Verify};
ghost use Rattle.std.specs.Prelude.{◌≡◌, ◌≤◌, IfOk, OnErr, length};

use crate::did::Did;
use crate::ending::owed_of;
use crate::engine::{Active, Engine, Region, set_region};
use crate::numbering::{keep, kept_of};
use crate::refusing::{notes_of, refused_entry};
use fp_model::{Bytes, Outcome};
use std::alloc::AllocError;
use sync_point::{Cause, Draft, refusal_room};

// What a transaction hands to its sync point.
fn draft_of(active: &Active, reply: Bytes) -> Result<Draft, AllocError>
    ensures { IfOk result (λ draft. draft ≡ draft_of active.now reply) }
{
    Ok(Draft {
        from: active.from,
        line: active.message.line.copy()?,
        reply,
        notes: active.work.notes().clone()?,
        deferred: active.work.deferred().clone()?,
    })
}

impl Engine<'_> {
    // A verify of the active region's transaction fails: it begins again, or is refused where its tries are used up.
    fn fail(&mut self, region: u8, call: u32, fsa: u16, found: Bytes) -> Result<Did, AllocError>
        requires some { 1 ≤ region }
        requires within { region ≤ length self.old.regions }
        requires under { (m : Machine) × ((t : Transaction) × IsAtWork self.old m region t) }
        requires found { length found ≤ 1024 }
        ensures turned { (m : Machine) (t : Transaction) → IsAtWork self.old m region t
            → IsAtEnd (rules_in self.old) m region t (refused_as (Verify call fsa found) m.history.now)
            → IfOk result (Turned (events.Region region) m self.new) }
        ensures err { (m : Machine) (t : Transaction) → IsAtWork self.old m region t
            → OnErr result (MayEnd self.new m region t) }

        // What stays.
        ensures rules { rules_in self.new ≡ rules_in self.old }
        ensures defs { self.new.defs ≡ self.old.defs }
        ensures scripts { self.new.scripts ≡ self.old.scripts }
        ensures gate { self.new.log.gate ≡ self.old.log.gate }
        ensures most { self.new.log.spare ≤ self.old.log.spare }
        ensures count { length self.new.regions ≡ length self.old.regions }
    {
        let active = self.active_in(region);
        if active.tries < self.defs.tries {
            self.try_again(region)?;
            return Ok(Did::Retried);
        }
        let notes = notes_of(active)?;
        let outcome = Outcome::Verify { call, fsa, found };
        let entry = refused_entry(self.alloc, active, outcome, notes)?;
        self.refuse(region, entry)?;
        Ok(Did::Refused)
    }

    /// The active region's script is at its end with a reply, and the region holds what the sync point needs: its
    /// transaction is done. Where a verify fails it begins again, or is refused where its tries are used up.
    pub(crate) fn commit(&mut self, region: u8, reply: Bytes) -> Result<Did, AllocError>
        requires some { 1 ≤ region }
        requires within { region ≤ length self.old.regions }
        requires holds { (m : Machine) × ((t : Transaction) × HoldsAll self.old m region t reply) }
        ensures turned { (m : Machine) (t : Transaction) → HoldsAll self.old m region t reply
            → IfOk result (Turned (events.Region region) m self.new) }
        ensures err { (m : Machine) (t : Transaction) → IsAtWork self.old m region t
            → OnErr result (MayEnd self.new m region t) }

        // What stays.
        ensures rules { rules_in self.new ≡ rules_in self.old }
        ensures defs { self.new.defs ≡ self.old.defs }
        ensures scripts { self.new.scripts ≡ self.old.scripts }
        ensures gate { self.new.log.gate ≡ self.old.log.gate }
        ensures most { self.new.log.spare ≤ self.old.log.spare }
        ensures count { length self.new.regions ≡ length self.old.regions }
    {
        let active = self.active_in(region);
        let room = self.room - refusal_room(&active.message.line);
        let kept = kept_of(
            self.alloc,
            &active.message,
            &Outcome::Done,
            reply.as_slice(),
        )?;
        let draft = draft_of(active, reply)?;
        match sync_point::commit(draft, &mut self.store, &mut self.log) {
            Ok(entry) => {
                self.owed.push_back_reserved(owed_of(entry));
                keep(&mut self.lasts, kept);
                set_region(&mut self.regions, region, Region::Idle);
                self.locks.release_all(region);
                self.room = room;
                Ok(Did::Committed)
            }
            Err(Cause::Verify { call, fsa, found }) => self.fail(region, call, fsa, found),
            Err(Cause::Memory) => Err(AllocError),
        }
    }
}
