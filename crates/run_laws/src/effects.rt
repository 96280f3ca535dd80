//! A message with a number takes effect at most once, over any runs and stops, and is answered by one line.
ghost use Rattle.std.specs.Prelude.{◌≡◌, ℕ, ◌<◌, ◌≤◌, List, ◌∷◌, length, slice_get, true};
ghost use Rattle.std.specs.List.{Contains};
ghost use Rattle.fp_model.specs.declared.definitions.Defs.{Defs};
ghost use Rattle.fp_model.specs.declared.log.Entry.{Entry};
ghost use Rattle.fp_model.specs.declared.log.Outcome.TheVariants as outcome;
ghost use Rattle.fp_model.specs.declared.name.Name.{Name};
ghost use Rattle.fp_model.specs.declared.scripts.Script.{Script};
ghost use Rattle.fp_model.specs.History.{History};
ghost use Rattle.fp_model.specs.Lasts.{uses_number};
ghost use Rattle.fp_model.specs.Product.{rules_of};
ghost use Rattle.fp_model.specs.ReplyLine.{line_text};
ghost use Rattle.fp_model.specs.SerialHistory.{IsSerial};
ghost use Rattle.fp_model.specs.Machine.{Machine};
ghost use Rattle.fp_model.specs.WellFormed.{AreDefs};
ghost use Rattle.run_laws.specs.Fresh.{IsNumbered, WasUsed};
ghost use Rattle.run_laws.specs.Lives.{Lives};

/// Of the entries of a serial history that answer one number of a terminal, at most one isn't Old or Repeat. So it is
/// with all entries of each of several runs, of which each goes on behind a stop of the one before; and what was sealed
/// in any of them has the same one.
pub fn a_message_takes_effect_once()
    ensures history { (defs : Defs) (scripts : List Script) (h : History)
        → (i j : ℕ) (a b : Entry) (name : Name) (number : ℕ)
        → IsSerial (rules_of defs scripts) h
        → IsNumbered h.format h.entries i a name number
        → IsNumbered h.format h.entries j b name number
        → uses_number a.outcome ≡ true
        → uses_number b.outcome ≡ true
        → i ≡ j }
    ensures run { (defs : Defs) (scripts : List Script) (format : ℕ) (before : List Entry) (sealed : ℕ)
        (ms : List Machine) (m : Machine)
        → (i j : ℕ) (a b : Entry) (name : Name) (number : ℕ)
        → AreDefs defs
        → Lives (rules_of defs scripts) format before sealed ms
        → Contains ms m
        → IsNumbered format m.history.entries i a name number
        → IsNumbered format m.history.entries j b name number
        → uses_number a.outcome ≡ true
        → uses_number b.outcome ≡ true
        → i ≡ j }
    ensures runs { (defs : Defs) (scripts : List Script) (format : ℕ) (before : List Entry) (sealed : ℕ)
        (ms : List Machine)
        → (m m2 : Machine)
        → (i j : ℕ) (a b : Entry) (name : Name) (number : ℕ)
        → AreDefs defs
        → Lives (rules_of defs scripts) format before sealed ms
        → Contains ms m
        → Contains ms m2
        → i < m.sealed
        → j < m2.sealed
        → IsNumbered format m.history.entries i a name number
        → IsNumbered format m2.history.entries j b name number
        → uses_number a.outcome ≡ true
        → uses_number b.outcome ≡ true
        → (i ≡ j) × (a ≡ b) }
{}

/// What was sealed before several runs, or in one of them, stands at its place in all later ones.
pub fn what_was_sealed_stands()
    ensures before { (defs : Defs) (scripts : List Script) (format : ℕ) (before : List Entry) (sealed : ℕ)
        → (ms : List Machine) (m : Machine) (i : ℕ)
        → AreDefs defs
        → sealed ≤ length before
        → Lives (rules_of defs scripts) format before sealed ms
        → Contains ms m
        → i < sealed
        → slice_get m.history.entries i ≡ slice_get before i }
    ensures later { (defs : Defs) (scripts : List Script) (format : ℕ) (before : List Entry) (sealed : ℕ)
        → (m : Machine) (ms : List Machine) (m2 : Machine) (i : ℕ)
        → AreDefs defs
        → Lives (rules_of defs scripts) format before sealed (m ∷ ms)
        → Contains ms m2
        → i < m.sealed
        → slice_get m2.history.entries i ≡ slice_get m.history.entries i }
{}

/// A Repeat has an earlier entry that used its number, and the line of that. So whatever a terminal is told of a number
/// in any of several runs, Old aside, is one line.
pub fn a_message_has_one_line()
    ensures repeats { (defs : Defs) (scripts : List Script) (h : History)
        → (j : ℕ) (b : Entry) (name : Name) (number : ℕ) (line : List ℕ)
        → IsSerial (rules_of defs scripts) h
        → IsNumbered h.format h.entries j b name number
        → b.outcome ≡ outcome.Repeat line
        → WasUsed h.format h.entries j name number (line_text b) }
    ensures runs { (defs : Defs) (scripts : List Script) (format : ℕ) (before : List Entry) (sealed : ℕ)
        (ms : List Machine)
        → (m m2 : Machine)
        → (i j : ℕ) (a b : Entry) (name : Name) (number : ℕ)
        → AreDefs defs
        → Lives (rules_of defs scripts) format before sealed ms
        → Contains ms m
        → Contains ms m2
        → i < m.sealed
        → j < m2.sealed
        → IsNumbered format m.history.entries i a name number
        → IsNumbered format m2.history.entries j b name number
        → ((last : ℕ) → ¬ (a.outcome ≡ outcome.Old last))
        → ((last : ℕ) → ¬ (b.outcome ≡ outcome.Old last))
        → line_text a ≡ line_text b }
{}
