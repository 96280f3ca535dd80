//! Serial order, whatever rules the calls, the sync point and the Purge follow.
ghost use Rattle.std.specs.Prelude.{ℕ, List};
ghost use Rattle.fp_model.specs.declared.events.Event.{Event};
ghost use Rattle.fp_model.specs.History.{History};
ghost use Rattle.fp_model.specs.Rules.{Rules};
ghost use Rattle.fp_model.specs.SerialHistory.{IsSerial, IsSerialHistory};
ghost use Rattle.fp_model.specs.Machine.{Machine, at_rest};
ghost use Rattle.fp_model.specs.Turns.{Environment, Turn};
ghost use Rattle.fp_model.specs.Runs.{RunStep, Runs};
ghost use Rattle.serial_order.specs.Laws.{View, Laws};
ghost use Rattle.serial_order.specs.Kept.{AreApart, HaveNoCycle, IsAtRest, Kept};

/// Every run from rest has the entries of a serial history, which leads through the machine's states. No two regions
/// hold a resource unless both share it, and nobody waits for himself.
pub fn every_run_is_serial()
    ensures history { (rules : Rules) (view : View) (m : Machine) (steps : List RunStep) (m2 : Machine)
        → Laws rules view
        → IsAtRest rules m
        → Runs rules m steps m2
        → IsSerial rules m2.history }
    ensures serial { (rules : Rules) (view : View) (m : Machine) (steps : List RunStep) (m2 : Machine)
        → Laws rules view
        → IsAtRest rules m
        → Runs rules m steps m2
        → IsSerialHistory rules m2.history.format m2.history.entries m2.history.now }
    ensures apart { (rules : Rules) (view : View) (m : Machine) (steps : List RunStep) (m2 : Machine)
        → Laws rules view
        → IsAtRest rules m
        → Runs rules m steps m2
        → AreApart m2.locks }
    ensures no_cycle { (rules : Rules) (view : View) (m : Machine) (steps : List RunStep) (m2 : Machine)
        → Laws rules view
        → IsAtRest rules m
        → Runs rules m steps m2
        → HaveNoCycle m2.requests m2.locks }
{}

/// What a turn keeps, and so every run.
pub fn a_turn_keeps_the_order()
    ensures turn { (rules : Rules) (view : View)
        → (m : Machine) (event : Event) (environment : Environment) (m2 : Machine)
        → Laws rules view
        → Turn rules m event environment m2
        → Kept rules view m
        → Kept rules view m2 }
    ensures run { (rules : Rules) (view : View) (m : Machine) (steps : List RunStep) (m2 : Machine)
        → Laws rules view
        → Runs rules m steps m2
        → Kept rules view m
        → Kept rules view m2 }
{}

/// A machine at rest has what turns keep, and one is at rest behind every serial history.
pub fn a_rest_is_kept()
    ensures kept { (rules : Rules) (view : View) (m : Machine)
        → IsAtRest rules m
        → Kept rules view m }
    ensures rest { (rules : Rules) (lines : List (List ℕ)) (h : History)
        → IsSerial rules h
        → IsAtRest rules (at_rest rules lines h) }
{}
