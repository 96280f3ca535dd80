//! The drain: rounds of IN, each region and LOG, until no line is left and nothing is under way.
ghost use Rattle.drain_laws.specs.ProductGauge.{weight_of_line};
ghost use Rattle.fp_core.specs.Draining.{DrainStopped, Drained, IsLeftByDrain, IsReachedBy};
ghost use Rattle.fp_core.specs.Fronts.{HoldsFronts, KeepsFronts};
ghost use Rattle.fp_core.specs.Relation.{StandsFor, rules_in};
ghost use Rattle.fp_core.specs.Rooms.{IsFrugal};
ghost use Rattle.fp_core.specs.inside.Rounding.{Began, BeganBy, IsQuiet, StoppedAmong, TookTurns, Went, WentBeside, is_at_rest, turns_of, work_ahead};
ghost use Rattle.fp_core.specs.Sparing.{IsLogSet, Spares};
ghost use Rattle.fp_core.specs.Standing.{IsCausedBySite, IsCausedBySource, MayStop, Origin, StandsBeside, number_of};
ghost use Rattle.fp_lists.specs.Continued.{IsContinued};
ghost use Rattle.fp_model.specs.Machine.{Machine};
ghost use Rattle.fp_model.specs.declared.events.Event.TheVariants as events;
ghost use Rattle.fp_site.specs.Moments.{Through};
ghost use Rattle.fp_site.specs.Site.{ReadsNothing};
ghost use Rattle.message_lines.specs.Lines.{fault_ahead, lines_ahead, lines_given, to_come};
ghost use Rattle.fp_source.specs.Source.{ReadsOnly};
ghost use Rattle.std.specs.List.{list_all};
ghost use Rattle.std.specs.Prelude.{◌≡◌, ◌+◌, ◌≤◌, ◌<◌, ◌↔◌, ℕ, IfErr, IfOk, IsErrOf, IsTrue, [], false, List as ListOf, OnErr, OnOk, Some, length, option_map};

use crate::did::Did;
use crate::engine::{Engine, Region};
use crate::stepping::Core;
use crate::stop::Stop;
use fp_exits::Exits;
use fp_site::Site;
use fp_source::{Part, Source};
use std::alloc::AllocError;

// How many lines a run reads at most.
const MOST_LINES: u128 = 1_000_000;

// What a line weighs: each try has 10,000 calls and an end, each behind 75,536 locks at most; and the line may be held,
// queued, taken, ended and sealed.
fn weight_of_line(tries: u32) -> u128
    ensures { result ≡ weight_of_line tries }
{
    u128::from(tries) * 755_445_539 + 755_445_542
}

// Whether no region is at work.
fn are_idle(regions: &[Region]) -> bool
    ensures { result ≡ list_all is_at_rest regions.now }
{
    for region in regions {
        if let Region::Active(_) = region {
            return false;
        }
    }
    true
}

impl Engine<'_> {
    // Whether no message is queued, no region is at work and no entry is unsealed.
    fn is_quiet(&self) -> bool
        ensures { IsTrue result ↔ IsQuiet self.now }
    {
        self.queues.is_empty()
            && are_idle(self.regions.as_slice())
            && self.log.count() == self.log.sealed()
    }

    // The turn of each region.
    fn turn_each(&mut self, exits: &Exits) -> Result<(), AllocError>
        requires stands { (m : Machine) × StandsFor self.old m }
        ensures turned { (m : Machine) → StandsFor self.old m
            → OnOk result (TookTurns (turns_of (length self.old.defs.now.regions)) m self.new) }
        ensures stopped { (m : Machine) → StandsFor self.old m → OnErr result (StoppedAmong m self.new) }

        // What stays.
        ensures rules { rules_in self.new ≡ rules_in self.old }
        ensures defs { self.new.defs ≡ self.old.defs }
        ensures scripts { self.new.scripts ≡ self.old.scripts }
        ensures gate { self.new.log.gate ≡ self.old.log.gate }
        ensures frugal { IsFrugal self.old self.new }
        ensures count { length self.new.regions ≡ length self.old.regions }
    {
        let count = self.regions.len() as u8;
        for done in 0..count {
            self.turn(done + 1, exits)?;
        }
        Ok(())
    }
}

impl<'a> Core<'a> {
    // IN. Whether the round goes on: there was a line, or something else is left to do.
    fn begin_round<S: Source>(&mut self, source: &mut S) -> Result<bool, Stop>
        requires stands { (m : Machine) × StandsFor self.old.engine m }
        requires routed { self.old.router.now.kind ≡ self.old.engine.defs.now.router }

        // A turn of the table, of some lines; where the source tells, of those that are ahead.
        ensures began { (m : Machine) → StandsFor self.old.engine m
            → IfOk result (λ more. (lines : ListOf (ListOf ℕ))
            × Began (record m { lines = lines }) self.old.lines self.new.lines self.new.engine more) }
        ensures read { (m : Machine) → S.told source.old → StandsFor self.old.engine m
            → m.lines ≡ lines_ahead self.old.lines (S.left source.old Part.Messages)
            → IfOk result (BeganBy m self.old.lines self.new.lines
            (S.left source.new Part.Messages) self.new.engine) }
        ensures ended { S.told source.old → IfOk result (λ more. more ≡ false
            → to_come self.new.lines (S.left source.new Part.Messages) ≡ []) }
        ensures fair { S.told source.old → OnOk result (fault_ahead self.new.lines (S.left source.new Part.Messages)
            ≡ fault_ahead self.old.lines (S.left source.old Part.Messages)) }

        // When it stops.
        ensures stops { IfErr result (MayStop events.In self.old.engine.held) }
        ensures cause { IfErr result (IsCausedBySource (S.faults source.old) (S.faults source.new)) }
        ensures calm { OnOk result (S.faults source.new ≡ S.faults source.old) }
        ensures line { S.told source.old → (n : ℕ) → IsErrOf result (Stop.LineFault n)
            → option_map number_of (fault_ahead self.old.lines (S.left source.old Part.Messages)) ≡ Some n }
        ensures number { (n : ℕ) → IsErrOf result (Stop.LineFault n) → n ≡ lines_given self.old.lines + 1 }

        // What stays.
        ensures rules { rules_in self.new.engine ≡ rules_in self.old.engine }
        ensures defs { self.new.engine.defs ≡ self.old.engine.defs }
        ensures scripts { self.new.engine.scripts ≡ self.old.engine.scripts }
        ensures gate { self.new.engine.log.gate ≡ self.old.engine.log.gate }
        ensures most { self.new.engine.log.spare ≤ self.old.engine.log.spare }
        ensures router { self.new.router ≡ self.old.router }
        ensures source { ReadsOnly S.told S.left S.faults S.holds S.keeps Part.Messages source.old source.new }
    {
        let did = self.read_line(source)?;
        Ok(did != Did::Nothing || !self.engine.is_quiet())
    }

    // A round, unless nothing is left. Whether there was one.
    fn round<T: Site, S: Source>(&mut self, site: &mut T, source: &mut S) -> Result<bool, Stop>
        requires stands { (m : Machine) × StandsFor self.old.engine m }
        requires routed { self.old.router.now.kind ≡ self.old.engine.defs.now.router }

        // A round, of some lines; and where site and source tell, they stand for the machine behind it.
        ensures went { (m : Machine) → StandsFor self.old.engine m
            → IfOk result (λ more. (lines : ListOf (ListOf ℕ))
            × Went self.old.engine.defs.now (rules_in self.old.engine) (record m { lines = lines }) self.old.lines
            self.new.lines self.new.engine more) }
        ensures beside { (origin : Origin) (m : Machine) → T.told site.old → S.told source.old
            → StandsBeside origin (T.disk site.old) self.old.lines (S.left source.old Part.Messages) self.old.engine m
            → IfOk result (WentBeside origin self.old.engine.defs.now (rules_in self.old.engine) m
            (T.disk site.old) (T.disk site.new) self.old.lines self.new.lines (S.left source.new Part.Messages)
            self.new.engine) }
        ensures ended { S.told source.old → IfOk result (λ more. more ≡ false
            → to_come self.new.lines (S.left source.new Part.Messages) ≡ []) }
        ensures fair { S.told source.old → OnOk result (fault_ahead self.new.lines (S.left source.new Part.Messages)
            ≡ fault_ahead self.old.lines (S.left source.old Part.Messages)) }

        // When it stops, and what a crash leaves at every moment.
        ensures stopped { (origin : Origin) (m : Machine) → T.told site.old → S.told source.old
            → StandsBeside origin (T.disk site.old) self.old.lines (S.left source.old Part.Messages) self.old.engine m
            → IfErr result (DrainStopped origin self.old.engine.defs.now (rules_in self.old.engine) m
            self.old.lines (T.disk site.old) (T.disk site.new)) }
        ensures moments { (origin : Origin) (m : Machine) → T.told site.old → S.told source.old
            → StandsBeside origin (T.disk site.old) self.old.lines (S.left source.old Part.Messages) self.old.engine m
            → Through (T.disk site.old) (T.disk site.new)
            (IsLeftByDrain origin self.old.engine.defs.now (rules_in self.old.engine) m (T.disk site.old)) }
        ensures site_cause { IfErr result (IsCausedBySite (T.faults site.old) (T.faults site.new)) }
        ensures source_cause { IfErr result (IsCausedBySource (S.faults source.old) (S.faults source.new)) }
        ensures site_calm { OnOk result (T.faults site.new ≡ T.faults site.old) }
        ensures source_calm { OnOk result (S.faults source.new ≡ S.faults source.old) }
        ensures line { S.told source.old → (n : ℕ) → IsErrOf result (Stop.LineFault n)
            → option_map number_of (fault_ahead self.old.lines (S.left source.old Part.Messages)) ≡ Some n }

        // What stays.
        ensures rules { rules_in self.new.engine ≡ rules_in self.old.engine }
        ensures defs { self.new.engine.defs ≡ self.old.engine.defs }
        ensures scripts { self.new.engine.scripts ≡ self.old.engine.scripts }
        ensures frugal { IsFrugal self.old.engine self.new.engine }
        ensures router { self.new.router ≡ self.old.router }
        ensures reads { ReadsNothing (T.tells_reads site.old) (T.tells_reads site.new)
            (T.bytes_read site.old) (T.bytes_read site.new) }
        ensures spares { T.told site.old → Spares IsLogSet (T.disk site.old) (T.disk site.new) }
        ensures front { T.told site.old
            → KeepsFronts (T.disk site.old) self.old.engine.log.gate (T.disk site.new) }
        ensures front_on { T.told site.old → OnOk result
            (HoldsFronts (T.disk site.old) self.old.engine.log.gate (T.disk site.new) self.new.engine.log.gate) }
        ensures site { IsContinued T.told T.faults T.holds T.keeps site.old site.new }
        ensures source { ReadsOnly S.told S.left S.faults S.holds S.keeps Part.Messages source.old source.new }
    {
        if !self.begin_round(source)? {
            return Ok(false);
        }
        self.engine.turn_each(self.exits)?;
        self.engine.seal(site)?;
        Ok(true)
    }

    // More rounds than the drain can have: no less than is left to do, by counts, and 1.
    fn most_rounds(&self) -> u128
        requires stands { (m : Machine) × StandsFor self.now.engine m }
        ensures { (m : Machine) → IsReachedBy self.now.engine m → work_ahead self.now.engine self.now.lines m < result }
    {
        let lines = MOST_LINES + 1;
        let queued = self.engine.queues.count();
        let active = self.engine.regions.len() as u128;
        let unsealed = self.engine.log.count() - self.engine.log.sealed();
        (lines + queued + active) * weight_of_line(self.engine.defs.tries)
            + u128::from(unsealed)
            + 1
    }

    /// Rounds of IN, each region and LOG, until no line is left or held, no message is queued, no region is at work and
    /// no entry is unsealed.
    pub fn drain<T: Site, S: Source>(&mut self, site: &mut T, source: &mut S) -> Result<(), Stop>
        requires reached { (m : Machine) × IsReachedBy self.old.engine m }
        requires routed { self.old.router.now.kind ≡ self.old.engine.defs.now.router }

        // It ends, with a machine that is drained. The messages were read to their end.
        ensures reached { OnOk result ((m : Machine) × IsReachedBy self.new.engine m) }
        ensures drained { (origin : Origin) (m : Machine) → T.told site.old → S.told source.old
            → StandsBeside origin (T.disk site.old) self.old.lines (S.left source.old Part.Messages) self.old.engine m
            → IsReachedBy self.old.engine m
            → OnOk result (Drained origin m (T.disk site.old) (T.disk site.new) self.new.lines
            (S.left source.new Part.Messages) self.new.engine) }

        ensures read { S.told source.old → OnOk result
            (to_come self.new.lines (S.left source.new Part.Messages) ≡ []) }

        // When it stops, and what a crash leaves at every moment.
        ensures stopped { (origin : Origin) (m : Machine) → T.told site.old → S.told source.old
            → StandsBeside origin (T.disk site.old) self.old.lines (S.left source.old Part.Messages) self.old.engine m
            → IsReachedBy self.old.engine m
            → IfErr result (DrainStopped origin self.old.engine.defs.now (rules_in self.old.engine) m
            self.old.lines (T.disk site.old) (T.disk site.new)) }
        ensures moments { (origin : Origin) (m : Machine) → T.told site.old → S.told source.old
            → StandsBeside origin (T.disk site.old) self.old.lines (S.left source.old Part.Messages) self.old.engine m
            → IsReachedBy self.old.engine m
            → Through (T.disk site.old) (T.disk site.new)
            (IsLeftByDrain origin self.old.engine.defs.now (rules_in self.old.engine) m (T.disk site.old)) }
        ensures fair { S.told source.old → OnOk result (fault_ahead self.new.lines (S.left source.new Part.Messages)
            ≡ fault_ahead self.old.lines (S.left source.old Part.Messages)) }
        ensures site_cause { IfErr result (IsCausedBySite (T.faults site.old) (T.faults site.new)) }
        ensures source_cause { IfErr result (IsCausedBySource (S.faults source.old) (S.faults source.new)) }
        ensures site_calm { OnOk result (T.faults site.new ≡ T.faults site.old) }
        ensures source_calm { OnOk result (S.faults source.new ≡ S.faults source.old) }
        ensures line { S.told source.old → (n : ℕ) → IsErrOf result (Stop.LineFault n)
            → option_map number_of (fault_ahead self.old.lines (S.left source.old Part.Messages)) ≡ Some n }

        // What stays.
        ensures rules { rules_in self.new.engine ≡ rules_in self.old.engine }
        ensures defs { self.new.engine.defs ≡ self.old.engine.defs }
        ensures scripts { self.new.engine.scripts ≡ self.old.engine.scripts }
        ensures frugal { IsFrugal self.old.engine self.new.engine }
        ensures routed { self.new.router.now.kind ≡ self.new.engine.defs.now.router }
        ensures reads { ReadsNothing (T.tells_reads site.old) (T.tells_reads site.new)
            (T.bytes_read site.old) (T.bytes_read site.new) }
        ensures spares { T.told site.old → Spares IsLogSet (T.disk site.old) (T.disk site.new) }
        ensures front { T.told site.old
            → KeepsFronts (T.disk site.old) self.old.engine.log.gate (T.disk site.new) }
        ensures front_on { T.told site.old → OnOk result
            (HoldsFronts (T.disk site.old) self.old.engine.log.gate (T.disk site.new) self.new.engine.log.gate) }
        ensures site { IsContinued T.told T.faults T.holds T.keeps site.old site.new }
        ensures source { ReadsOnly S.told S.left S.faults S.holds S.keeps Part.Messages source.old source.new }
    {
        let most = self.most_rounds();
        for _done in 0..most {
            if !self.round(site, source)? {
                return Ok(());
            }
        }
        // Each round leaves less to do.
        unreachable!()
    }
}
