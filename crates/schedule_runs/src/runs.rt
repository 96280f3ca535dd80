//! Takes the events of a schedule, drains, and closes.
ghost use Rattle.fp_core.specs.Draining.{IsReachedBy};
ghost use Rattle.fp_core.specs.Fronts.{HoldsFronts, KeepsFronts};
ghost use Rattle.fp_core.specs.Relation.{rules_in};
ghost use Rattle.fp_core.specs.Sparing.{IsLogSet, Spares};
ghost use Rattle.fp_core.specs.Standing.{IsCausedBySite, IsCausedBySource, Origin, StandsBeside, number_of};
ghost use Rattle.fp_model.specs.Events.{IsEventOf};
ghost use Rattle.fp_lists.specs.Continued.{IsContinued};
ghost use Rattle.fp_model.specs.Machine.{Machine};
ghost use Rattle.fp_site.specs.Moments.{Through};
ghost use Rattle.fp_site.specs.Site.{ReadsNothing};
ghost use Rattle.message_lines.specs.Lines.{fault_ahead};
ghost use Rattle.fp_source.specs.Source.{ReadsOnly};
ghost use Rattle.schedule_runs.specs.Standing.{IsDone, IsLeftOnWay, IsStopped};
ghost use Rattle.schedule_runs.specs.inside.Standing.{StandsOnWay};
ghost use Rattle.std.specs.List.{AllByRecursion};
ghost use Rattle.std.specs.Prelude.{◌≡◌, ℕ, [], IfErr, IsErrOf, None, OnOk, Some, option_map};

use fp_core::{Core, Stop};
use fp_model::Event;
use fp_site::Site;
use fp_source::{Part, Source};

// Takes the events of a schedule, one after another.
fn take_events<T: Site, S: Source>(
    core: &mut Core<'_>,
    events: &[Event],
    site: &mut T,
    source: &mut S,
) -> Result<(), Stop>
    requires reached { (m : Machine) × IsReachedBy core.old.engine m }
    requires events { AllByRecursion (IsEventOf core.old.engine.defs.now) events.now }
    requires routed { core.old.router.now.kind ≡ core.old.engine.defs.now.router }

    // At its end no event is left.
    ensures reached { OnOk result ((m : Machine) × IsReachedBy core.new.engine m) }
    ensures taken { (origin : Origin) (m : Machine) → T.told site.old → S.told source.old
        → StandsBeside origin (T.disk site.old) core.old.lines (S.left source.old Part.Messages) core.old.engine m
        → IsReachedBy core.old.engine m
        → OnOk result (StandsOnWay origin core.old.engine.defs.now (rules_in core.old.engine) events.now m
        (T.disk site.old) core.old.lines [] (T.disk site.new) core.new.lines (S.left source.new Part.Messages)
        core.new.engine) }
    ensures site_calm { OnOk result (T.faults site.new ≡ T.faults site.old) }
    ensures source_calm { OnOk result (S.faults source.new ≡ S.faults source.old) }

    // When it stops, and what a crash leaves at every moment.
    ensures stopped { (origin : Origin) (m : Machine) → T.told site.old → S.told source.old
        → StandsBeside origin (T.disk site.old) core.old.lines (S.left source.old Part.Messages) core.old.engine m
        → IsReachedBy core.old.engine m
        → IfErr result (IsStopped origin core.old.engine.defs.now (rules_in core.old.engine) events.now m
        (T.disk site.old) core.old.lines (T.disk site.new)) }
    ensures moments { (origin : Origin) (m : Machine) → T.told site.old → S.told source.old
        → StandsBeside origin (T.disk site.old) core.old.lines (S.left source.old Part.Messages) core.old.engine m
        → IsReachedBy core.old.engine m
        → Through (T.disk site.old) (T.disk site.new)
        (IsLeftOnWay origin core.old.engine.defs.now (rules_in core.old.engine) events.now m (T.disk site.old)) }
    ensures fair { S.told source.old → OnOk result (fault_ahead core.new.lines (S.left source.new Part.Messages)
        ≡ fault_ahead core.old.lines (S.left source.old Part.Messages)) }
    ensures site_cause { IfErr result (IsCausedBySite (T.faults site.old) (T.faults site.new)) }
    ensures source_cause { IfErr result (IsCausedBySource (S.faults source.old) (S.faults source.new)) }
    ensures line { S.told source.old → (n : ℕ) → IsErrOf result (Stop.LineFault n)
        → option_map number_of (fault_ahead core.old.lines (S.left source.old Part.Messages)) ≡ Some n }

    // What stays.
    ensures rules { rules_in core.new.engine ≡ rules_in core.old.engine }
    ensures defs { core.new.engine.defs ≡ core.old.engine.defs }
    ensures scripts { core.new.engine.scripts ≡ core.old.engine.scripts }
    ensures routed { core.new.router.now.kind ≡ core.new.engine.defs.now.router }
    ensures reads { ReadsNothing (T.tells_reads site.old) (T.tells_reads site.new)
        (T.bytes_read site.old) (T.bytes_read site.new) }
    ensures spares { T.told site.old → Spares IsLogSet (T.disk site.old) (T.disk site.new) }
    ensures front { T.told site.old
        → KeepsFronts (T.disk site.old) core.old.engine.log.gate (T.disk site.new) }
    ensures front_on { T.told site.old → OnOk result (HoldsFronts (T.disk site.old) core.old.engine.log.gate
        (T.disk site.new) core.new.engine.log.gate) }
    ensures site { IsContinued T.told T.faults T.holds T.keeps site.old site.new }
    ensures source { ReadsOnly S.told S.left S.faults S.holds S.keeps Part.Messages source.old source.new }
{
    for event in events {
        core.step(event, site, source)?;
    }
    Ok(())
}

/// Runs a schedule: takes its events one after another, then drains, and then closes. After a `Stop` the core is to be
/// dropped, and the site restarted.
///
/// The events are those of a schedule over the core's definitions. The contract speaks of each machine that the core
/// stands for as the run begins, beside a site and a source that tell.
pub fn run_schedule<T: Site, S: Source>(
    core: &mut Core<'_>,
    events: &[Event],
    site: &mut T,
    source: &mut S,
) -> Result<(), Stop>
    requires reached { (m : Machine) × IsReachedBy core.old.engine m }
    requires events { AllByRecursion (IsEventOf core.old.engine.defs.now) events.now }
    requires routed { core.old.router.now.kind ≡ core.old.engine.defs.now.router }

    // At `Ok` turns of the table led over all events and the drain to a machine that is drained, and core, site and
    // source stand beside it. All lines were taken, and no call failed.
    ensures reached { OnOk result ((m : Machine) × IsReachedBy core.new.engine m) }
    ensures done { (origin : Origin) (m : Machine) → T.told site.old → S.told source.old
        → StandsBeside origin (T.disk site.old) core.old.lines (S.left source.old Part.Messages) core.old.engine m
        → IsReachedBy core.old.engine m
        → OnOk result (IsDone origin core.old.engine.defs.now (rules_in core.old.engine) events.now m
        (T.disk site.old) (T.disk site.new) core.new.lines (S.left source.new Part.Messages) core.new.engine) }
    ensures all { S.told source.old
        → OnOk result (fault_ahead core.old.lines (S.left source.old Part.Messages) ≡ None) }
    ensures read { S.told source.old → OnOk result (S.left source.new Part.Messages ≡ []) }
    ensures site_calm { OnOk result (T.faults site.new ≡ T.faults site.old) }
    ensures source_calm { OnOk result (S.faults source.new ≡ S.faults source.old) }

    // When it stops: turns led to the machine before that step.
    ensures stopped { (origin : Origin) (m : Machine) → T.told site.old → S.told source.old
        → StandsBeside origin (T.disk site.old) core.old.lines (S.left source.old Part.Messages) core.old.engine m
        → IsReachedBy core.old.engine m
        → IfErr result (IsStopped origin core.old.engine.defs.now (rules_in core.old.engine) events.now m
        (T.disk site.old) core.old.lines (T.disk site.new)) }
    ensures site_cause { IfErr result (IsCausedBySite (T.faults site.old) (T.faults site.new)) }
    ensures source_cause { IfErr result (IsCausedBySource (S.faults source.old) (S.faults source.new)) }
    ensures line { S.told source.old → (n : ℕ) → IsErrOf result (Stop.LineFault n)
        → option_map number_of (fault_ahead core.old.lines (S.left source.old Part.Messages)) ≡ Some n }

    // What a crash leaves at every moment.
    ensures moments { (origin : Origin) (m : Machine) → T.told site.old → S.told source.old
        → StandsBeside origin (T.disk site.old) core.old.lines (S.left source.old Part.Messages) core.old.engine m
        → IsReachedBy core.old.engine m
        → Through (T.disk site.old) (T.disk site.new)
        (IsLeftOnWay origin core.old.engine.defs.now (rules_in core.old.engine) events.now m (T.disk site.old)) }

    // What stays.
    ensures rules { rules_in core.new.engine ≡ rules_in core.old.engine }
    ensures defs { core.new.engine.defs ≡ core.old.engine.defs }
    ensures scripts { core.new.engine.scripts ≡ core.old.engine.scripts }
    ensures reads { ReadsNothing (T.tells_reads site.old) (T.tells_reads site.new)
        (T.bytes_read site.old) (T.bytes_read site.new) }
    ensures spares { T.told site.old → Spares IsLogSet (T.disk site.old) (T.disk site.new) }
    ensures front { T.told site.old
        → KeepsFronts (T.disk site.old) core.old.engine.log.gate (T.disk site.new) }
    ensures site { IsContinued T.told T.faults T.holds T.keeps site.old site.new }
    ensures source { ReadsOnly S.told S.left S.faults S.holds S.keeps Part.Messages source.old source.new }
{
    take_events(core, events, site, source)?;
    core.drain(site, source)?;
    core.close(site)
}
