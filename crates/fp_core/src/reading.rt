//! IN: a line is read, and queued, held or refused.
ghost use Rattle.balancing.specs.Backlog.{AreSame};
ghost use Rattle.fp_core.specs.Numbering.{last_kept};
ghost use Rattle.fp_core.specs.inside.Reading.{IsRefused, refused_line};
ghost use Rattle.fp_core.specs.Relation.{IsShort, IsTakeable, StandsFor, rules_in};
ghost use Rattle.fp_core.specs.Standing.{IsCausedBySource, MayStop, Stepped, number_of};
ghost use Rattle.fp_core.specs.inside.Standing.{SteppedBy};
ghost use Rattle.fp_core.specs.Turning.{did_with};
ghost use Rattle.fp_model.specs.Lasts.{last_by};
ghost use Rattle.fp_model.specs.Machine.{Machine, is_among, terminal_in, with_line, with_message, with_refusal};
ghost use Rattle.fp_model.specs.Messages.{terminal_of};
ghost use Rattle.fp_model.specs.declared.events.Event.TheVariants as events;
ghost use Rattle.message_lines.specs.Lines.{fault_ahead, lines_ahead, lines_given, to_come};
ghost use Rattle.fp_source.specs.Source.{ReadsOnly};
ghost use Rattle.std.specs.List.{list_any};
ghost use Rattle.std.specs.Prelude.{◌≡◌, ◌≤◌, ◌+◌, ◌++◌, ℕ, [], IfErr, IfOk, IsErrOf, List as ListOf, None, OnErr, OnOk, Some, false, length, option_map};

use crate::asking::{Demand, demand_in};
use crate::did::Did;
use crate::ending::append_owed;
use crate::engine::Engine;
use crate::numbering::{Kept, keep};
use crate::stepping::Core;
use crate::stop::Stop;
use balancing::Queues;
use fp_exits::Router;
use fp_messages::terminal_of;
use fp_model::{Bytes, Entry, List, Message, Outcome};
use fp_source::{Part, Source};
use std::alloc::AllocError;

// Makes the terminal of a line busy, where it can be read.
fn mark(queues: &mut Queues, line: &Bytes) -> Result<(), AllocError>
    ensures ok { OnOk result (AreSame queues.new.busy (queues.old.busy ++ terminal_in (terminal_of line.now))) }
    ensures queues { queues.new.queues ≡ queues.old.queues }
    ensures err { OnErr result (queues.new ≡ queues.old) }
{
    match terminal_of(line.as_slice()) {
        Some(lterm) => queues.mark(&lterm),
        None => Ok(()),
    }
}

impl Engine<'_> {
    // Whether the terminal of a line can be read and waits for a reply.
    fn must_wait(&self, line: &Bytes) -> bool
        ensures { result ≡ list_any (is_among self.now.queues.busy) (terminal_in (terminal_of line.now)) }
    {
        match terminal_of(line.as_slice()) {
            Some(lterm) => self.queues.busy(&lterm),
            None => false,
        }
    }

    // A message whose terminal is free is queued, and its terminal is busy.
    fn queue(&mut self, router: &Router, message: Message) -> Result<(), AllocError>
        requires free { is_among self.old.queues.busy message.lterm ≡ false }
        requires takeable { IsTakeable self.old.format self.old.scripts.now.scripts message }
        requires routed { router.now.kind ≡ self.old.defs.now.router }
        ensures queued { (m : Machine) → StandsFor self.old m
            → OnOk result (StandsFor self.new (with_message (rules_in self.old) message m)) }

        // What stays.
        ensures rules { rules_in self.new ≡ rules_in self.old }
        ensures defs { self.new.defs ≡ self.old.defs }
        ensures scripts { self.new.scripts ≡ self.old.scripts }
        ensures gate { self.new.log.gate ≡ self.old.log.gate }
        ensures most { self.new.log.spare ≤ self.old.log.spare }
        ensures count { length self.new.regions ≡ length self.old.regions }
    {
        let _ = self.queues.offer(message, router)?; // its terminal is free
        Ok(())
    }

    // A line that asks for nothing is refused, its terminal is busy, where it can be read, and its number is kept,
    // where it uses one.
    fn refuse_line(
        &mut self,
        line: Bytes,
        outcome: Outcome,
        kept: Option<Kept>,
    ) -> Result<(), AllocError>
        requires stands { (m : Machine) × StandsFor self.old m }
        requires short { IsShort line }
        requires refused { IsRefused outcome }
        requires kept { option_map last_kept kept ≡ last_by self.old.format (refused_line outcome line) }
        ensures refused { (m : Machine) → StandsFor self.old m
            → OnOk result (StandsFor self.new (with_refusal (rules_in self.old) outcome line m)) }

        // What stays.
        ensures rules { rules_in self.new ≡ rules_in self.old }
        ensures defs { self.new.defs ≡ self.old.defs }
        ensures scripts { self.new.scripts ≡ self.old.scripts }
        ensures gate { self.new.log.gate ≡ self.old.log.gate }
        ensures most { self.new.log.spare ≤ self.old.log.spare }
        ensures count { length self.new.regions ≡ length self.old.regions }
    {
        let slots = self.regions.len() + 1;
        self.owed.reserve(slots)?;
        self.lasts.reserve(slots as u32)?;
        mark(&mut self.queues, &line)?;
        let entry = Entry {
            from: self.log.count(),
            outcome,
            line,
            reply: Bytes::new(self.alloc),
            notes: List::new(self.alloc),
            items: List::new(self.alloc),
        };
        append_owed(&mut self.log, &mut self.owed, entry, self.room)?;
        keep(&mut self.lasts, kept);
        Ok(())
    }

    /// A line, where none waits: it waits while its terminal does; else it is queued, or refused where it asks for
    /// nothing.
    pub(crate) fn take_line(&mut self, router: &Router, line: Bytes) -> Result<Did, AllocError>
        requires stands { (m : Machine) × StandsFor self.old m }
        requires none { self.old.held ≡ None }
        requires short { IsShort line }
        requires routed { router.now.kind ≡ self.old.defs.now.router }
        ensures did { (m : Machine) → StandsFor self.old m
            → IfOk result (λ did. did ≡ did_with (rules_in self.old) m line) }
        ensures taken { (m : Machine) → StandsFor self.old m
            → OnOk result (StandsFor self.new (with_line (rules_in self.old) line m)) }

        // What stays.
        ensures rules { rules_in self.new ≡ rules_in self.old }
        ensures defs { self.new.defs ≡ self.old.defs }
        ensures scripts { self.new.scripts ≡ self.old.scripts }
        ensures gate { self.new.log.gate ≡ self.old.log.gate }
        ensures most { self.new.log.spare ≤ self.old.log.spare }
        ensures count { length self.new.regions ≡ length self.old.regions }
    {
        if self.must_wait(&line) {
            self.held = Some(line);
            return Ok(Did::Held);
        }
        match demand_in(self.alloc, self.format, self.scripts, &self.lasts, &line)? {
            Demand::Message(message) => {
                self.queue(router, message)?;
                Ok(Did::Queued)
            }
            Demand::Nothing { outcome, kept } => {
                self.refuse_line(line, outcome, kept)?;
                Ok(Did::Refused)
            }
        }
    }
}

impl<'a> Core<'a> {
    /// IN: the line that waits, or else the next one of the source.
    pub(crate) fn read_line<S: Source>(&mut self, source: &mut S) -> Result<Did, Stop>
        requires stands { (m : Machine) × StandsFor self.old.engine m }
        requires routed { self.old.router.now.kind ≡ self.old.engine.defs.now.router }

        // A turn of the table. Where the source tells nothing it is one of some lines; else of those that are ahead.
        ensures turned { (m : Machine) → StandsFor self.old.engine m
            → IfOk result (λ did. (lines : ListOf (ListOf ℕ))
            × Stepped events.In (record m { lines = lines }) self.old.lines self.new.lines self.new.engine did) }
        ensures read { (m : Machine) → S.told source.old → StandsFor self.old.engine m
            → m.lines ≡ lines_ahead self.old.lines (S.left source.old Part.Messages)
            → IfOk result (SteppedBy events.In m self.old.lines self.new.lines
            (S.left source.new Part.Messages) self.new.engine) }
        ensures ended { S.told source.old → IfOk result (λ did. did ≡ Did.Nothing
            → to_come self.new.lines (S.left source.new Part.Messages) ≡ []) }
        ensures fair { S.told source.old → OnOk result (fault_ahead self.new.lines (S.left source.new Part.Messages)
            ≡ fault_ahead self.old.lines (S.left source.old Part.Messages)) }

        // When it stops: only where no line waits.
        ensures stops { IfErr result (MayStop events.In self.old.engine.held) }
        ensures cause { IfErr result (IsCausedBySource (S.faults source.old) (S.faults source.new)) }
        ensures calm { OnOk result (S.faults source.new ≡ S.faults source.old) }
        ensures line { S.told source.old → (n : ℕ) → IsErrOf result (Stop.LineFault n)
            → option_map number_of (fault_ahead self.old.lines (S.left source.old Part.Messages)) ≡ Some n }
        ensures number { (n : ℕ) → IsErrOf result (Stop.LineFault n) → n ≡ lines_given self.old.lines + 1 }

        // What stays. Of the source only messages are read.
        ensures rules { rules_in self.new.engine ≡ rules_in self.old.engine }
        ensures defs { self.new.engine.defs ≡ self.old.engine.defs }
        ensures scripts { self.new.engine.scripts ≡ self.old.engine.scripts }
        ensures gate { self.new.engine.log.gate ≡ self.old.engine.log.gate }
        ensures most { self.new.engine.log.spare ≤ self.old.engine.log.spare }
        ensures count { length self.new.engine.regions ≡ length self.old.engine.regions }
        ensures router { self.new.router ≡ self.old.router }
        ensures source { ReadsOnly S.told S.left S.faults S.holds S.keeps Part.Messages source.old source.new }
    {
        match self.engine.held.take() {
            Some(line) => Ok(self.engine.take_line(self.router, line)?),
            None => self.read_next(source),
        }
    }

    // IN, where no line waits: the next one of the source.
    fn read_next<S: Source>(&mut self, source: &mut S) -> Result<Did, Stop>
        requires stands { (m : Machine) × StandsFor self.old.engine m }
        requires none { self.old.engine.held ≡ None }
        requires routed { self.old.router.now.kind ≡ self.old.engine.defs.now.router }

        // A turn of the table. Where the source tells nothing it is one of some lines; else of those that are ahead.
        ensures turned { (m : Machine) → StandsFor self.old.engine m
            → IfOk result (λ did. (lines : ListOf (ListOf ℕ))
            × Stepped events.In (record m { lines = lines }) self.old.lines self.new.lines self.new.engine did) }
        ensures read { (m : Machine) → S.told source.old → StandsFor self.old.engine m
            → m.lines ≡ lines_ahead self.old.lines (S.left source.old Part.Messages)
            → IfOk result (SteppedBy events.In m self.old.lines self.new.lines
            (S.left source.new Part.Messages) self.new.engine) }
        ensures ended { S.told source.old → IfOk result (λ did. did ≡ Did.Nothing
            → to_come self.new.lines (S.left source.new Part.Messages) ≡ []) }
        ensures fair { S.told source.old → OnOk result (fault_ahead self.new.lines (S.left source.new Part.Messages)
            ≡ fault_ahead self.old.lines (S.left source.old Part.Messages)) }

        // When it stops: only where no line waits.
        ensures stops { IfErr result (MayStop events.In self.old.engine.held) }
        ensures cause { IfErr result (IsCausedBySource (S.faults source.old) (S.faults source.new)) }
        ensures calm { OnOk result (S.faults source.new ≡ S.faults source.old) }
        ensures line { S.told source.old → (n : ℕ) → IsErrOf result (Stop.LineFault n)
            → option_map number_of (fault_ahead self.old.lines (S.left source.old Part.Messages)) ≡ Some n }
        ensures number { (n : ℕ) → IsErrOf result (Stop.LineFault n) → n ≡ lines_given self.old.lines + 1 }

        // What stays. Of the source only messages are read.
        ensures rules { rules_in self.new.engine ≡ rules_in self.old.engine }
        ensures defs { self.new.engine.defs ≡ self.old.engine.defs }
        ensures scripts { self.new.engine.scripts ≡ self.old.engine.scripts }
        ensures gate { self.new.engine.log.gate ≡ self.old.engine.log.gate }
        ensures most { self.new.engine.log.spare ≤ self.old.engine.log.spare }
        ensures count { length self.new.engine.regions ≡ length self.old.engine.regions }
        ensures router { self.new.router ≡ self.old.router }
        ensures source { ReadsOnly S.told S.left S.faults S.holds S.keeps Part.Messages source.old source.new }
    {
        match self.lines.next(source)? {
            Some(line) => Ok(self.engine.take_line(self.router, line)?),
            None => Ok(Did::Nothing),
        }
    }
}
