//! What a run sealed, and what it sent.
ghost use Rattle.fp_core.specs.Standing.{HasGroups, Origin};
ghost use Rattle.fp_model.specs.declared.definitions.Defs.{Defs};
ghost use Rattle.fp_model.specs.declared.log.Entry.{Entry};
ghost use Rattle.fp_model.specs.declared.scripts.Script.{Script};
ghost use Rattle.fp_model.specs.Groups.{entries_of};
ghost use Rattle.fp_model.specs.LogText.{Front};
ghost use Rattle.fp_model.specs.Machine.{Machine, sealed_times};
ghost use Rattle.fp_model.specs.Product.{rules_of};
ghost use Rattle.fp_model.specs.Runs.{RunStep, Runs};
ghost use Rattle.fp_model.specs.WellFormed.{AreDefs};
ghost use Rattle.log_groups.specs.Images.{IsLog};
ghost use Rattle.log_groups.specs.Kept.{IsSound, lines_of_entries};
ghost use Rattle.sealed_runs.specs.Behind.{GoesFurther, IsBehind, KeepsFormat};
ghost use Rattle.std.specs.Prelude.{◌≡◌, ◌++◌, ℕ, [], List};

/// Behind a sound log of these entries a run led to a machine. A log that has the groups from before, and those that
/// the machine sealed, or also the next ones that it may seal, is sound: its entries are the earlier ones, and behind
/// them those of these groups.
pub fn what_a_run_seals_is_sound()
    ensures { (defs : Defs) (scripts : List Script) (front : Front) (old : List ℕ) (earlier : List Entry)
        → (m : Machine) (times : ℕ) (before : List (List Entry)) (image : List ℕ) (gate : ℕ)
        → AreDefs defs
        → defs.dedbs ≡ []
        → IsSound defs scripts front old earlier
        → IsBehind defs scripts front.format earlier m
        → earlier ≡ entries_of before
        → IsLog front image (before ++ (sealed_times times (rules_of defs scripts) m).groups) gate
        → IsSound defs scripts front image
        (earlier ++ entries_of (sealed_times times (rules_of defs scripts) m).groups) }
{}

/// So an image that a crash within a step may leave, whatever the step is, is a sound log; and of the reply lines of
/// its entries behind the earlier ones a first part was sent by then.
pub fn what_a_step_leaves_is_sound()
    ensures { (defs : Defs) (scripts : List Script) (origin : Origin) (old : List ℕ) (earlier : List Entry)
        → (m : Machine) (most : ℕ) (text image : List ℕ)
        → AreDefs defs
        → defs.dedbs ≡ []
        → IsSound defs scripts origin.front old earlier
        → IsBehind defs scripts origin.front.format earlier m
        → earlier ≡ entries_of origin.groups
        → HasGroups origin (rules_of defs scripts) m most text image
        → GoesFurther defs scripts origin.front earlier text image }
{}

/// What a run sent are the reply lines of the entries that it sealed, in their order.
pub fn what_a_run_sends_is_sealed()
    ensures { (defs : Defs) (scripts : List Script) (format : ℕ) (earlier : List Entry) (m : Machine) (times : ℕ)
        → IsBehind defs scripts format earlier m
        → (sealed_times times (rules_of defs scripts) m).sent
        ≡ lines_of_entries (entries_of (sealed_times times (rules_of defs scripts) m).groups) }
{}

/// No turn changes the format in which lines are read: behind a run it is that before the run, and the front's stays.
pub fn a_run_keeps_the_format()
    ensures { (defs : Defs) (scripts : List Script) (m m2 : Machine) (steps : List RunStep)
        → Runs (rules_of defs scripts) m steps m2
        → KeepsFormat m m2 }
{}
