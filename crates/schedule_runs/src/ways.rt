//! A way over a schedule is a run.
ghost use Rattle.fp_core.specs.Turning.{AreExact};
ghost use Rattle.fp_model.specs.declared.definitions.Defs.{Defs};
ghost use Rattle.fp_model.specs.declared.events.Event.{Event};
ghost use Rattle.fp_model.specs.Machine.{Machine};
ghost use Rattle.fp_model.specs.Rules.{Rules};
ghost use Rattle.fp_model.specs.Runs.{RunStep, Runs};
ghost use Rattle.fp_model.specs.Turns.{Environment};
ghost use Rattle.schedule_runs.specs.Ways.{Goes};
ghost use Rattle.std.specs.Prelude.{◌≡◌, List, map};

/// Where turns lead over events and rounds of the drain, there is a list of steps by which they do, each exact, and the
/// same befalls these. So what is so of every run is so of it.
pub fn a_way_is_a_run()
    ensures { (defs : Defs) (rules : Rules) (events : List Event) (m : Machine) (environments : List Environment)
        → (left : List Event) (here : Machine)
        → Goes defs rules events m environments left here
        → (steps : List RunStep) × (Runs rules m steps here
        × (AreExact defs rules m steps × (map (λ step. step.environment) steps ≡ environments))) }
{}
