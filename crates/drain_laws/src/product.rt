//! The drain of this system ends.
ghost use Rattle.std.specs.Prelude.{◌≡◌, ℕ, ◌+◌, ◌<◌, ◌≤◌, List, [], length};
ghost use Rattle.std.specs.List.{AllByRecursion};
ghost use Rattle.fp_model.specs.declared.definitions.Defs.{Defs};
ghost use Rattle.fp_model.specs.declared.events.Event.{Event};
ghost use Rattle.fp_model.specs.declared.scripts.Script.{Script};
ghost use Rattle.fp_model.specs.Asking.{full_cost};
ghost use Rattle.fp_model.specs.History.{History};
ghost use Rattle.fp_model.specs.Product.{rules_of};
ghost use Rattle.fp_model.specs.Machine.{Machine, at_rest};
ghost use Rattle.fp_model.specs.Turns.{Environment, Turn};
ghost use Rattle.fp_model.specs.Runs.{RunStep, Runs, Drains, DrainsInPart};
ghost use Rattle.fp_model.specs.WellFormed.{AreDefs};
ghost use Rattle.drain_laws.specs.Measure.{line_weight, messages_in, unsealed_in, work_with, work_left, lines_held, active_in, work_of};
ghost use Rattle.drain_laws.specs.Live.{EndLaws, IsReached, IsFromRest};
ghost use Rattle.drain_laws.specs.Rounds.{AreFair, GoesRound, GoesRounds, RoundMoves};
ghost use Rattle.drain_laws.specs.ProductGauge.{gauge_of, weight_of_line};

/// This system keeps what the end of its drain needs, and a line of it weighs a number that the tries determine.
pub fn the_system_keeps_its_end_laws()
    ensures laws { (defs : Defs) (scripts : List Script)
        → AreDefs defs
        → AllByRecursion (λ s. full_cost s.statements ≤ 10000) scripts
        → EndLaws (rules_of defs scripts) (gauge_of defs) }
    ensures weight { (defs : Defs) (scripts : List Script)
        → line_weight (rules_of defs scripts) (gauge_of defs) ≡ weight_of_line defs.tries }
{}

/// Nothing waits for what can't come in a machine at rest behind any history, and each turn of this system keeps that.
pub fn nothing_of_the_system_waits_in_vain()
    ensures rest { (defs : Defs) (scripts : List Script) (lines : List (List ℕ)) (h : History)
        → IsReached (rules_of defs scripts) (gauge_of defs) (at_rest (rules_of defs scripts) lines h) }
    ensures turn { (defs : Defs) (scripts : List Script)
        → (m : Machine) (event : Event) (environment : Environment) (m2 : Machine)
        → AreDefs defs
        → AllByRecursion (λ s. full_cost s.statements ≤ 10000) scripts
        → IsReached (rules_of defs scripts) (gauge_of defs) m
        → Turn (rules_of defs scripts) m event environment m2
        → IsReached (rules_of defs scripts) (gauge_of defs) m2 }
    ensures run { (defs : Defs) (scripts : List Script) (m : Machine) (steps : List RunStep) (m2 : Machine)
        → AreDefs defs
        → AllByRecursion (λ s. full_cost s.statements ≤ 10000) scripts
        → IsReached (rules_of defs scripts) (gauge_of defs) m
        → Runs (rules_of defs scripts) m steps m2
        → IsReached (rules_of defs scripts) (gauge_of defs) m2 }
{}

/// A round from a machine that isn't drained leaves less to do, whatever befalls its turns, and also where more lines
/// may still be read than the machine has.
pub fn a_round_of_the_system_leaves_less()
    ensures moves { (defs : Defs) (scripts : List Script) (m : Machine) (steps : List RunStep) (m2 : Machine)
        → AreDefs defs
        → AllByRecursion (λ s. full_cost s.statements ≤ 10000) scripts
        → IsReached (rules_of defs scripts) (gauge_of defs) m
        → GoesRound (rules_of defs scripts) m steps m2
        → RoundMoves (rules_of defs scripts) (gauge_of defs) m m2 }
    ensures less { (defs : Defs) (scripts : List Script) (m : Machine) (steps : List RunStep) (m2 : Machine)
        → (lines lines2 : ℕ)
        → AreDefs defs
        → AllByRecursion (λ s. full_cost s.statements ≤ 10000) scripts
        → IsReached (rules_of defs scripts) (gauge_of defs) m
        → GoesRound (rules_of defs scripts) m steps m2
        → lines + length m2.lines ≡ lines2 + length m.lines
        → work_with (rules_of defs scripts) (gauge_of defs) lines2 m2
        < work_with (rules_of defs scripts) (gauge_of defs) lines m }
{}

/// What is left to do is bounded by counts that a program holds: of lines that may still be read or are held, of
/// messages queued, of active regions, and of entries that aren't sealed; and by the tries of a transaction.
pub fn counts_bound_the_work_of_the_system()
    ensures { (defs : Defs) (scripts : List Script) (m : Machine)
        → (unread lines messages active unsealed : ℕ)
        → AreDefs defs
        → AllByRecursion (λ s. full_cost s.statements ≤ 10000) scripts
        → IsReached (rules_of defs scripts) (gauge_of defs) m
        → unread + lines_held m ≤ lines
        → messages_in m.queues ≤ messages
        → active_in m.regions ≤ active
        → unsealed_in m ≤ unsealed
        → work_with (rules_of defs scripts) (gauge_of defs) unread m
        ≤ work_of (weight_of_line defs.tries) lines messages active unsealed }
{}

/// From every machine that a run from rest led to, behind any history, n rounds leave at least n less to do, whatever
/// befalls their turns. So a drain has no more rounds than there is left to do, nor has one that ended early; and there
/// is a drain.
pub fn the_drain_of_the_system_ends()
    ensures rounds { (defs : Defs) (scripts : List Script) (m : Machine) (rounds : List (List RunStep)) (m2 : Machine)
        → AreDefs defs
        → AllByRecursion (λ s. full_cost s.statements ≤ 10000) scripts
        → IsFromRest (rules_of defs scripts) m
        → GoesRounds (rules_of defs scripts) m rounds m2
        → length rounds + work_left (rules_of defs scripts) (gauge_of defs) m2
        ≤ work_left (rules_of defs scripts) (gauge_of defs) m }
    ensures drain { (defs : Defs) (scripts : List Script) (m : Machine) (rounds : List (List RunStep)) (m2 : Machine)
        → AreDefs defs
        → AllByRecursion (λ s. full_cost s.statements ≤ 10000) scripts
        → IsFromRest (rules_of defs scripts) m
        → Drains (rules_of defs scripts) m rounds m2
        → length rounds ≤ work_left (rules_of defs scripts) (gauge_of defs) m }
    ensures counts { (defs : Defs) (scripts : List Script) (m : Machine) (rounds : List (List RunStep)) (m2 : Machine)
        → AreDefs defs
        → AllByRecursion (λ s. full_cost s.statements ≤ 10000) scripts
        → IsFromRest (rules_of defs scripts) m
        → Drains (rules_of defs scripts) m rounds m2
        → length rounds
        ≤ work_of (weight_of_line defs.tries) (length m.lines + lines_held m) (messages_in m.queues)
        (active_in m.regions) (unsealed_in m) }
    ensures part { (defs : Defs) (scripts : List Script) (m : Machine)
        → (rounds : List (List RunStep)) (last : List RunStep) (m2 : Machine)
        → AreDefs defs
        → AllByRecursion (λ s. full_cost s.statements ≤ 10000) scripts
        → IsFromRest (rules_of defs scripts) m
        → DrainsInPart (rules_of defs scripts) m rounds last m2
        → length rounds < work_left (rules_of defs scripts) (gauge_of defs) m }
    ensures there { (defs : Defs) (scripts : List Script) (m : Machine)
        → AreDefs defs
        → AllByRecursion (λ s. full_cost s.statements ≤ 10000) scripts
        → IsFromRest (rules_of defs scripts) m
        → (rounds : List (List RunStep)) × ((m2 : Machine)
        × (Drains (rules_of defs scripts) m rounds m2 × AllByRecursion AreFair rounds)) }
{}
