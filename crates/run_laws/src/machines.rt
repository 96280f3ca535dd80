//! What is so of every machine that a run of this system led to from rest.
ghost use Rattle.std.specs.Prelude.{◌≡◌, ℕ, ◌≤◌, List, Some, false};
ghost use Rattle.std.specs.List.{Contains};
ghost use Rattle.fp_model.specs.declared.definitions.Defs.{Defs};
ghost use Rattle.fp_model.specs.declared.calls.Message.{Message};
ghost use Rattle.fp_model.specs.declared.calls.Mode.TheVariants.{Exclusive};
ghost use Rattle.fp_model.specs.declared.name.Name.{Name};
ghost use Rattle.fp_model.specs.declared.scripts.Script.{Script};
ghost use Rattle.fp_model.specs.Answers.{Needed, serves};
ghost use Rattle.fp_model.specs.Asking.{Ask};
ghost use Rattle.fp_model.specs.History.{place_of};
ghost use Rattle.fp_model.specs.Product.{rules_of};
ghost use Rattle.fp_model.specs.Waiting.{Lock, held_as};
ghost use Rattle.fp_model.specs.Machine.{Transaction, Active, Machine, region_at};
ghost use Rattle.fp_model.specs.Turns.{wanted};
ghost use Rattle.fp_model.specs.WellFormed.{AreDefs};
ghost use Rattle.serial_order.specs.Kept.{count};
ghost use Rattle.drain_laws.specs.Live.{IsAtWork};
ghost use Rattle.run_laws.specs.Starts.{IsFromSerial};
ghost use Rattle.run_laws.specs.Requests.{IsCurrent, times_in};
ghost use Rattle.run_laws.specs.Fresh.{IsFresh};

/// A terminal is busy exactly as often as it has a message queued, a transaction active or an entry unsealed, and that
/// is at most once.
pub fn a_terminal_is_busy_with_one_message()
    ensures busy { (defs : Defs) (scripts : List Script) (m : Machine)
        → AreDefs defs
        → IsFromSerial (rules_of defs scripts) m
        → (name : Name) → times_in m.busy name ≡ count (rules_of defs scripts) name m }
    ensures once { (defs : Defs) (scripts : List Script) (m : Machine)
        → AreDefs defs
        → IsFromSerial (rules_of defs scripts) m
        → (name : Name) → count (rules_of defs scripts) name m ≤ 1 }
{}

/// Only an active region holds a lock or has a request, and a request is for the lock that the region wants now.
pub fn only_active_regions_hold_or_ask()
    ensures locks { (defs : Defs) (scripts : List Script) (m : Machine) (lock : Lock)
        → AreDefs defs
        → IsFromSerial (rules_of defs scripts) m
        → Contains m.locks lock
        → IsAtWork m lock.region }
    ensures requests { (defs : Defs) (scripts : List Script) (m : Machine) (request : Lock)
        → AreDefs defs
        → IsFromSerial (rules_of defs scripts) m
        → Contains m.requests request
        → IsCurrent (rules_of defs scripts) m request }
{}

/// A lock that is wanted isn't held strongly enough, and so not Exclusive.
pub fn what_is_wanted_is_not_held()
    ensures served { (defs : Defs) (scripts : List Script) (m : Machine) (region : ℕ) (t : Transaction)
        → (ask : Ask) (needed : Needed)
        → wanted (rules_of defs scripts) m region t ask ≡ Some needed
        → serves (held_as m.locks region needed.resource) needed.mode ≡ false }
    ensures exclusive { (defs : Defs) (scripts : List Script) (m : Machine) (region : ℕ) (t : Transaction)
        → (ask : Ask) (needed : Needed)
        → wanted (rules_of defs scripts) m region t ask ≡ Some needed
        → ¬ (held_as m.locks region needed.resource ≡ Some Exclusive) }
{}

/// A message that is queued, or whose transaction is active, names a script and is still fresh.
pub fn messages_stay_fresh()
    ensures queued { (defs : Defs) (scripts : List Script) (m : Machine) (messages : List Message) (message : Message)
        → AreDefs defs
        → IsFromSerial (rules_of defs scripts) m
        → Contains m.queues messages
        → Contains messages message
        → IsFresh scripts m.history message }
    ensures active { (defs : Defs) (scripts : List Script) (m : Machine) (region : ℕ) (t : Transaction)
        → AreDefs defs
        → IsFromSerial (rules_of defs scripts) m
        → region_at m region ≡ Some (Active t)
        → IsFresh scripts m.history t.message }
{}

/// No more entries are sealed than there are.
pub fn sealed_entries_stand()
    ensures { (defs : Defs) (scripts : List Script) (m : Machine)
        → AreDefs defs
        → IsFromSerial (rules_of defs scripts) m
        → m.sealed ≤ place_of m.history }
{}
