//! A way over a schedule comes to one machine at its end.
ghost use Rattle.fp_model.specs.declared.definitions.Defs.{Defs};
ghost use Rattle.fp_model.specs.declared.events.Event.{Event};
ghost use Rattle.fp_model.specs.declared.scripts.Script.{Script};
ghost use Rattle.fp_model.specs.CheckpointText.{IsMsdbOf};
ghost use Rattle.fp_model.specs.History.{place_of};
ghost use Rattle.fp_model.specs.Machine.{Machine};
ghost use Rattle.fp_model.specs.Product.{rules_of};
ghost use Rattle.fp_model.specs.Runs.{IsDrained};
ghost use Rattle.fp_model.specs.Turns.{Environment};
ghost use Rattle.schedule_runs.specs.Ways.{Comes, Goes, NoneStarved};
ghost use Rattle.std.specs.List.{AllZip};
ghost use Rattle.std.specs.Prelude.{◌≡◌, List, []};

/// From a machine whose databases are of the definitions the same events, with the same befalling each, lead to one
/// machine. So two runs that are done, and in which no transaction lacked memory, come to one: it has the same entries,
/// items and cycles too, the same groups, and the same reply lines sent.
pub fn a_way_is_determined()
    ensures way { (defs : Defs) (scripts : List Script) (events : List Event) (m : Machine)
        → (environments : List Environment) (left left2 : List Event) (here here2 : Machine)
        → AllZip IsMsdbOf defs.msdbs m.history.now.msdbs
        → Goes defs (rules_of defs scripts) events m environments left here
        → Goes defs (rules_of defs scripts) events m environments left2 here2
        → here ≡ here2 }
    ensures done { (defs : Defs) (scripts : List Script) (events : List Event) (m here here2 : Machine)
        → AllZip IsMsdbOf defs.msdbs m.history.now.msdbs
        → Comes defs (rules_of defs scripts) events m [] here
        → IsDrained (rules_of defs scripts) here
        → NoneStarved (place_of m.history) here.history
        → Comes defs (rules_of defs scripts) events m [] here2
        → IsDrained (rules_of defs scripts) here2
        → NoneStarved (place_of m.history) here2.history
        → here ≡ here2 }
{}
