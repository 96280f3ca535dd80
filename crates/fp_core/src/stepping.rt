//! The core: one event of a schedule at a time.
ghost use Rattle.fp_core.specs.Fronts.{HoldsFronts, KeepsFronts};
ghost use Rattle.fp_core.specs.Relation.{IsSetup, StandsFor, rules_in};
ghost use Rattle.fp_core.specs.Rooms.{IsFrugal};
ghost use Rattle.fp_core.specs.Sparing.{IsLogSet, IsSealing, Spares};
ghost use Rattle.fp_core.specs.Standing.{IsCausedBySite, IsCausedBySource, IsUnbegun, Leaves, MayStop, Origin, StandsAt, StandsBeside, Stepped, SteppedBeside, number_of, seals_of};
ghost use Rattle.fp_model.specs.Events.{IsEventOf};
ghost use Rattle.fp_lists.specs.Continued.{IsContinued};
ghost use Rattle.fp_exits.specs.Kinds.{has_kind, kinds_of};
ghost use Rattle.fp_model.specs.History.{History, place_of};
ghost use Rattle.fp_model.specs.Lasts.{format_at, lasts_of};
ghost use Rattle.fp_model.specs.Machine.{Machine, at_rest};
ghost use Rattle.fp_model.specs.Messages.{line_fault, lines_of};
ghost use Rattle.fp_model.specs.Product.{rules_of};
ghost use Rattle.fp_model.specs.declared.events.Event.TheVariants as events;
ghost use Rattle.fp_site.specs.Site.{ReadsNothing};
ghost use Rattle.message_lines.specs.Lines.{fault_ahead, lines_ahead, lines_given};
ghost use Rattle.fp_source.specs.Source.{ReadsOnly};
ghost use Rattle.msdb_store.specs.Store.{IsOf};
ghost use Rattle.std.specs.Prelude.{◌≡◌, ◌+◌, ℕ, [], IfErr, IfOk, IsErrOf, List as ListOf, IsOk, OnErr, OnOk, Some, length, option_map, true};

use crate::did::Did;
use crate::engine::Engine;
use crate::stop::Stop;
use balancing::Lasts;
use fp_exits::{Exits, Router};
use fp_model::{Defs, Event, Kind};
use fp_site::Site;
use fp_source::{Part, Source};
use log_groups::Log;
use message_lines::Lines;
use msdb_store::MsdbStore;
use std::alloc::{AllocError, Global};
use txn_lang::Scripts;

/// What a restart gives to begin with: the databases behind all entries, the log, in which all are sealed, and the last
/// number of each terminal.
#[derive(Drop)]
pub struct Started {
    /// The main storage databases behind all entries of the log.
    pub msdbs: MsdbStore,
    /// The log, opened, in which no entry is unsealed.
    pub log: Log,
    /// The last number of each terminal in it, and the reply line that it got.
    pub lasts: Lasts,
}

/// The interleaved system: regions that run transactions side by side, one turn after another.
#[derive(Drop)]
pub struct Core<'a> {
    pub(crate) exits: &'a Exits,
    pub(crate) router: &'a Router,
    /// The message lines that are still to come.
    pub(crate) lines: Lines,
    pub(crate) engine: Engine<'a>,
}

// The router of a kind that there is.
fn router_of<'a>(exits: &'a Exits, kind: Kind) -> &'a Router
    requires { has_kind (kinds_of exits.now).routers kind ≡ true }
    ensures { result.now.kind ≡ kind }
{
    match exits.router(kind) {
        Some(router) => router,
        None => unreachable!(),
    }
}

impl<'a> Core<'a> {
    /// The system at rest: nothing is queued, held or locked, and no region is at work. Of the exits it takes the
    /// router that the definitions name. It fails only for want of memory.
    pub fn new(
        alloc: Global,
        defs: &'a Defs,
        scripts: &'a Scripts,
        exits: &'a Exits,
        started: Started,
    ) -> Result<Core<'a>, AllocError>
        requires setup { IsSetup defs.now scripts.now.scripts }
        requires router { has_kind (kinds_of exits.now).routers defs.now.router ≡ true }
        requires store { IsOf defs.now.msdbs started.msdbs }
        requires sealed { started.log.unsealed ≡ [] }

        // Behind any entries that come to these databases.
        ensures stands { (lines : ListOf (ListOf ℕ)) (h : History) → h.now.msdbs ≡ started.msdbs.msdbs
            → place_of h ≡ started.log.sealed → length h.past ≡ place_of h
            → format_at h.format h.entries ≡ started.log.format
            → started.lasts.terminals ≡ lasts_of h.format h.entries
            → IfOk result (λ core. StandsFor core.engine (at_rest (rules_of defs.now scripts.now.scripts) lines h)) }
        ensures rules { IfOk result (λ core. rules_in core.engine ≡ rules_of defs.now scripts.now.scripts) }
        ensures defs { IfOk result (λ core. core.engine.defs.now ≡ defs.now) }
        ensures scripts { IfOk result (λ core. core.engine.scripts.now ≡ scripts.now) }
        ensures gate { IfOk result (λ core. core.engine.log.gate ≡ started.log.gate) }
        ensures spare { IfOk result (λ core. core.engine.log.spare ≡ started.log.spare) }
        ensures routed { IfOk result (λ core. core.router.now.kind ≡ core.engine.defs.now.router) }

        // All lines are to come.
        ensures lines { IfOk result (λ core. (left : ListOf ℕ) → lines_ahead core.lines left ≡ lines_of left) }
        ensures fault { IfOk result (λ core. (left : ListOf ℕ) → fault_ahead core.lines left ≡ line_fault left) }
        ensures given { IfOk result (λ core. lines_given core.lines ≡ 0) }
    {
        Ok(Core {
            exits,
            router: router_of(exits, defs.router),
            lines: Lines::new(alloc)?,
            engine: Engine::new(alloc, defs, scripts, started)?,
        })
    }

    /// One event of a schedule over these definitions, which have no area to purge: one turn of the table. Each `Did`
    /// comes exactly in its case. After a `Stop` the core is to be dropped.
    pub fn step<T: Site, S: Source>(
        &mut self,
        event: &Event,
        site: &mut T,
        source: &mut S,
    ) -> Result<Did, Stop>
        requires stands { (m : Machine) × StandsFor self.old.engine m }
        requires event { IsEventOf self.old.engine.defs.now event.now }
        requires routed { self.old.router.now.kind ≡ self.old.engine.defs.now.router }

        // A turn, whatever site and source tell: without a source that tells, of some lines.
        ensures turned { (m : Machine) → StandsFor self.old.engine m
            → IfOk result (λ did. (lines : ListOf (ListOf ℕ))
            × Stepped event.now (record m { lines = lines }) self.old.lines self.new.lines self.new.engine did) }

        // Where both tell, they stand for the machine behind it.
        ensures beside { (origin : Origin) (m : Machine) → T.told site.old → S.told source.old
            → StandsBeside origin (T.disk site.old) self.old.lines (S.left source.old Part.Messages) self.old.engine m
            → IfOk result (SteppedBeside origin event.now m (T.disk site.new) self.old.lines self.new.lines
            (S.left source.new Part.Messages) self.new.engine) }
        ensures fair { S.told source.old → OnOk result (fault_ahead self.new.lines (S.left source.new Part.Messages)
            ≡ fault_ahead self.old.lines (S.left source.old Part.Messages)) }

        // However it ends, what it leaves at every moment.
        ensures leaves { (origin : Origin) (m : Machine) → T.told site.old
            → StandsAt origin (T.disk site.old) self.old.engine m
            → Leaves origin (rules_in self.old.engine) m (seals_of event.now m) (T.disk site.old) (T.disk site.new) }

        // When it stops.
        ensures stops { IfErr result (MayStop event.now self.old.engine.held) }
        ensures site_cause { IfErr result (IsCausedBySite (T.faults site.old) (T.faults site.new)) }
        ensures source_cause { IfErr result (IsCausedBySource (S.faults source.old) (S.faults source.new)) }
        ensures site_calm { OnOk result (T.faults site.new ≡ T.faults site.old) }
        ensures source_calm { OnOk result (S.faults source.new ≡ S.faults source.old) }
        ensures line { S.told source.old → (n : ℕ) → IsErrOf result (Stop.LineFault n)
            → option_map number_of (fault_ahead self.old.lines (S.left source.old Part.Messages)) ≡ Some n }
        ensures number { (n : ℕ) → IsErrOf result (Stop.LineFault n) → n ≡ lines_given self.old.lines + 1 }

        ensures unbegun { (m : Machine) (region : ℕ) → event.now ≡ events.Region region → StandsFor self.old.engine m
            → OnErr result (IsUnbegun self.new.engine m region) }

        // What stays.
        ensures rules { rules_in self.new.engine ≡ rules_in self.old.engine }
        ensures defs { self.new.engine.defs ≡ self.old.engine.defs }
        ensures scripts { self.new.engine.scripts ≡ self.old.engine.scripts }
        ensures frugal { IsFrugal self.old.engine self.new.engine }
        ensures routed { self.new.router.now.kind ≡ self.new.engine.defs.now.router }
        ensures reads { ReadsNothing (T.tells_reads site.old) (T.tells_reads site.new)
            (T.bytes_read site.old) (T.bytes_read site.new) }
        ensures spares { T.told site.old → Spares IsLogSet (T.disk site.old) (T.disk site.new) }
        ensures front { T.told site.old
            → KeepsFronts (T.disk site.old) self.old.engine.log.gate (T.disk site.new) }
        ensures front_on { T.told site.old → OnOk result
            (HoldsFronts (T.disk site.old) self.old.engine.log.gate (T.disk site.new) self.new.engine.log.gate) }
        ensures untouched { ¬ IsSealing event.now → site.new ≡ site.old }
        ensures site { IsContinued T.told T.faults T.holds T.keeps site.old site.new }
        ensures source { ReadsOnly S.told S.left S.faults S.holds S.keeps Part.Messages source.old source.new }
    {
        match *event {
            Event::In => self.read_line(source),
            Event::Region(region) => Ok(self.engine.turn(region, self.exits)?),
            Event::Log => self.engine.seal(site),
            Event::Ckpt => self.engine.seal_all(site),
            Event::Out => Ok(Did::Nothing),
            Event::Purge { .. } => unreachable!(),
        }
    }

    /// What ends a run. Over main storage databases there is nothing to do.
    pub fn close<T: Site>(&mut self, site: &mut T) -> Result<(), Stop>
        ensures ok { IsOk result }
        ensures same { self.new ≡ self.old }
        ensures site { site.new ≡ site.old }
    {
        let _ = &*site;
        Ok(())
    }
}
