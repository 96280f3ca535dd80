//! Laws of the definitions, each the contract of a function that does nothing.
ghost use Rattle.std.specs.Prelude.{◌≡◌, ℕ, ◌+◌, List, ◌++◌, length};
ghost use Rattle.fp_model.specs.declared.database.Db.{Db};
ghost use Rattle.fp_model.specs.declared.events.Event.{Event};
ghost use Rattle.fp_model.specs.declared.log.Entry.{Entry};
ghost use Rattle.fp_model.specs.Rules.{Rules};
ghost use Rattle.fp_model.specs.History.{History, place_of};
ghost use Rattle.fp_model.specs.SerialHistory.{NeverFalls, Comes, LeadsOn};
ghost use Rattle.fp_model.specs.Machine.{Machine, taken_in};
ghost use Rattle.fp_model.specs.Turns.{Environment, Turn};
ghost use Rattle.fp_model.specs.Runs.{RunStep, Runs, machine_after, IsDrained};
ghost use Rattle.fp_model.specs.Frames.{Keeps, AddsEntries};

/// What comes first of entries that lead on is such entries too, and the rest leads on behind it.
pub fn a_front_is_a_history()
    ensures { (rules : Rules) (h : History) (front rest : List Entry) (last : History)
        → LeadsOn rules h (front ++ rest) last
        → (mid : History) × (LeadsOn rules h front mid × LeadsOn rules mid rest last) }
{}

/// Entries that lead on, and others behind them, lead on together.
pub fn histories_join()
    ensures { (rules : Rules) (h : History) (front rest : List Entry) (mid last : History)
        → LeadsOn rules h front mid
        → LeadsOn rules mid rest last
        → LeadsOn rules h (front ++ rest) last }
{}

/// The entries determine the history that they lead to: its states, one more for each entry, its entries and its
/// format.
pub fn entries_determine_states()
    ensures last { (rules : Rules) (h : History) (entries : List Entry) (last last2 : History)
        → LeadsOn rules h entries last
        → LeadsOn rules h entries last2
        → last2 ≡ last }
    ensures count { (rules : Rules) (h : History) (entries : List Entry) (last : History)
        → LeadsOn rules h entries last
        → length last.past ≡ length h.past + length entries }
    ensures entries { (rules : Rules) (h : History) (entries : List Entry) (last : History)
        → LeadsOn rules h entries last
        → last.entries ≡ h.entries ++ entries }
    ensures format { (rules : Rules) (h : History) (entries : List Entry) (last : History)
        → LeadsOn rules h entries last
        → last.format ≡ h.format }
{}

/// An entry began before its notes, and those were made before its place.
pub fn notes_never_fall()
    ensures { (rules : Rules) (h : History) (e : Entry) (next : Db)
        → Comes rules h e next
        → NeverFalls e.from e.notes (place_of h) }
{}

/// A turn keeps what its event doesn't name, and takes no entry back.
pub fn a_turn_keeps()
    ensures keeps { (rules : Rules) (m : Machine) (event : Event) (environment : Environment) (m2 : Machine)
        → Turn rules m event environment m2
        → Keeps event m m2 }
    ensures adds { (rules : Rules) (m : Machine) (event : Event) (environment : Environment) (m2 : Machine)
        → Turn rules m event environment m2
        → AddsEntries m m2 }
{}

/// The steps of a run say to which machine it leads, and a run goes on behind another.
pub fn steps_determine_the_last_machine()
    ensures last { (rules : Rules) (m : Machine) (steps : List RunStep) (m2 : Machine)
        → Runs rules m steps m2
        → m2 ≡ machine_after m steps }
    ensures joined { (rules : Rules) (m : Machine) (front rest : List RunStep) (mid m2 : Machine)
        → Runs rules m front mid
        → Runs rules mid rest m2
        → Runs rules m (front ++ rest) m2 }
{}

/// An IN on a drained machine changes nothing: a program learns by it that no line is left.
pub fn an_in_of_a_drained_machine_changes_nothing()
    ensures { (rules : Rules) (m : Machine)
        → IsDrained rules m
        → taken_in rules m ≡ m }
{}
