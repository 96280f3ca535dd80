//! One run, so that the laws speak of something.
ghost use Rattle.std.specs.Prelude.{◌≡◌, List, map};
ghost use Rattle.fp_model.specs.Machine.{Machine};
ghost use Rattle.fp_model.specs.Runs.{RunStep, step_events, Runs};
ghost use Rattle.run_laws.specs.Sample.{sample_rules, at_start, the_events, no_faults, the_entries};

/// Three regions run four transactions in 33 turns. One waits; one closes a cycle, begins again and is refused at the
/// same cycle; one has a verify that fails at its end, begins again and sees the change; one upgrades a lock. Then an
/// area is purged.
pub fn a_run()
    ensures { (steps : List RunStep) × (m : Machine)
        × (Runs sample_rules at_start steps m
        × (step_events steps ≡ the_events)
        × (map (λ step. step.environment) steps ≡ no_faults)
        × (m.history.entries ≡ the_entries)) }
{}
