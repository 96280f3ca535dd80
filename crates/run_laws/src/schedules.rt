//! Events determine a run: each has a turn, and with the same befalling it only one, but for items and the cycle named.
ghost use Rattle.std.specs.Prelude.{◌≡◌, ℕ, List, map};
ghost use Rattle.std.specs.List.{AllByRecursion};
ghost use Rattle.fp_model.specs.declared.definitions.Defs.{Defs};
ghost use Rattle.fp_model.specs.declared.events.Event.{Event};
ghost use Rattle.fp_model.specs.declared.scripts.Script.{Script};
ghost use Rattle.fp_model.specs.Product.{rules_of};
ghost use Rattle.fp_model.specs.Waiting.{Lock};
ghost use Rattle.fp_model.specs.Machine.{Machine};
ghost use Rattle.fp_model.specs.Turns.{Environment, NoFault, Turn};
ghost use Rattle.fp_model.specs.Runs.{RunStep, step_events, Runs, Drains};
ghost use Rattle.fp_model.specs.WellFormed.{AreDefs};
ghost use Rattle.run_laws.specs.Starts.{IsFromSerial};
ghost use Rattle.drain_laws.specs.Rounds.{AreFair};
ghost use Rattle.run_laws.specs.Determined.{IsOfSchedule, step_parts, but_cycle, whole, plain, plain_step, StepsNameFound, RoundsNameFound};

/// Each event that a schedule may have has a turn that nothing befalls, and so each schedule a run.
pub fn every_event_has_a_turn()
    ensures turn { (defs : Defs) (scripts : List Script) (m : Machine) (event : Event)
        → AreDefs defs
        → IsFromSerial (rules_of defs scripts) m
        → IsOfSchedule defs event
        → (m2 : Machine) × Turn (rules_of defs scripts) m event NoFault m2 }
    ensures run { (defs : Defs) (scripts : List Script) (m : Machine) (events : List Event)
        → AreDefs defs
        → IsFromSerial (rules_of defs scripts) m
        → AllByRecursion (IsOfSchedule defs) events
        → (steps : List RunStep) × ((m2 : Machine) × (Runs (rules_of defs scripts) m steps m2
        × ((step_events steps ≡ events) × AreFair steps))) }
{}

/// An event has only one turn with the same befalling it, but for the items of an entry and the cycle that it names.
pub fn a_turn_is_determined()
    ensures { (defs : Defs) (scripts : List Script)
        → (m : Machine) (event : Event) (environment : Environment) (m2 m3 : Machine)
        → Turn (rules_of defs scripts) m event environment m2
        → Turn (rules_of defs scripts) m event environment m3
        → plain but_cycle m2 ≡ plain but_cycle m3 }
{}

/// So runs from one place by the same events, with the same befalling each, are one list of steps, but for items and
/// cycles. Where nothing befalls them the events are enough, and drains behind such runs are one list of rounds.
pub fn events_determine_a_run()
    ensures steps { (defs : Defs) (scripts : List Script) (m : Machine)
        → (steps steps2 : List RunStep) (m2 m3 : Machine)
        → Runs (rules_of defs scripts) m steps m2
        → Runs (rules_of defs scripts) m steps2 m3
        → step_parts steps ≡ step_parts steps2
        → (map (plain_step but_cycle) steps ≡ map (plain_step but_cycle) steps2)
        × (plain but_cycle m2 ≡ plain but_cycle m3) }
    ensures fair { (defs : Defs) (scripts : List Script) (m : Machine)
        → (steps steps2 : List RunStep) (m2 m3 : Machine)
        → Runs (rules_of defs scripts) m steps m2
        → Runs (rules_of defs scripts) m steps2 m3
        → step_events steps ≡ step_events steps2
        → AreFair steps
        → AreFair steps2
        → (map (plain_step but_cycle) steps ≡ map (plain_step but_cycle) steps2)
        × (plain but_cycle m2 ≡ plain but_cycle m3) }
    ensures drain { (defs : Defs) (scripts : List Script) (m n : Machine)
        → (rounds rounds2 : List (List RunStep)) (m2 n2 : Machine)
        → plain but_cycle m ≡ plain but_cycle n
        → Drains (rules_of defs scripts) m rounds m2
        → Drains (rules_of defs scripts) n rounds2 n2
        → AllByRecursion AreFair rounds
        → AllByRecursion AreFair rounds2
        → (map (λ steps. map (plain_step but_cycle) steps) rounds
        ≡ map (λ steps. map (plain_step but_cycle) steps) rounds2)
        × (plain but_cycle m2 ≡ plain but_cycle n2) }
{}

/// Where one search by requests and locks names all cycles, they are one list, but for items.
pub fn events_and_a_search_determine_a_run()
    ensures run { (defs : Defs) (scripts : List Script) (search : List Lock → List Lock → ℕ → List ℕ) (m : Machine)
        → (steps steps2 : List RunStep) (m2 m3 : Machine)
        → Runs (rules_of defs scripts) m steps m2
        → Runs (rules_of defs scripts) m steps2 m3
        → step_parts steps ≡ step_parts steps2
        → StepsNameFound search (rules_of defs scripts) m steps
        → StepsNameFound search (rules_of defs scripts) m steps2
        → (map (plain_step whole) steps ≡ map (plain_step whole) steps2) × (plain whole m2 ≡ plain whole m3) }
    ensures drain { (defs : Defs) (scripts : List Script) (search : List Lock → List Lock → ℕ → List ℕ) (m n : Machine)
        → (rounds rounds2 : List (List RunStep)) (m2 n2 : Machine)
        → plain whole m ≡ plain whole n
        → Drains (rules_of defs scripts) m rounds m2
        → Drains (rules_of defs scripts) n rounds2 n2
        → AllByRecursion AreFair rounds
        → AllByRecursion AreFair rounds2
        → RoundsNameFound search (rules_of defs scripts) m rounds
        → RoundsNameFound search (rules_of defs scripts) n rounds2
        → (map (λ steps. map (plain_step whole) steps) rounds ≡ map (λ steps. map (plain_step whole) steps) rounds2)
        × (plain whole m2 ≡ plain whole n2) }
{}
