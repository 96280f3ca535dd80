//! The laws of this system: what its calls, its sync point and its Purge look at and change.
ghost use Rattle.std.specs.Prelude.{◌≡◌, ℕ, List, Bool, true, false, Option, Some, None};
ghost use Rattle.std.specs.List.{AllByRecursion};
ghost use Rattle.fp_model.specs.declared.definitions.Defs.{Defs};
ghost use Rattle.fp_model.specs.declared.database.AreaEnds.{AreaEnds};
ghost use Rattle.fp_model.specs.declared.database.Db.{Db};
ghost use Rattle.fp_model.specs.declared.calls.Answer.{Answer};
ghost use Rattle.fp_model.specs.declared.calls.Call.{Call};
ghost use Rattle.fp_model.specs.declared.calls.Message.{Message};
ghost use Rattle.fp_model.specs.declared.calls.Mode.{Mode};
ghost use Rattle.fp_model.specs.declared.calls.Mode.TheVariants.{Exclusive};
ghost use Rattle.fp_model.specs.declared.calls.Resource.{Resource};
ghost use Rattle.fp_model.specs.declared.events.Event.{Event};
ghost use Rattle.fp_model.specs.declared.scripts.Script.{Script};
ghost use Rattle.fp_model.specs.State.{Area};
ghost use Rattle.fp_model.specs.Workspace.{Workspace, fresh};
ghost use Rattle.fp_model.specs.Calls.{reply_to, looks_unheld, need_of};
ghost use Rattle.fp_model.specs.Commit.{Commits, settlement, lacking, purged, with_ends};
ghost use Rattle.fp_model.specs.Asking.{Asks};
ghost use Rattle.fp_model.specs.WellFormed.{IsMsdbDef, AreDefs};
ghost use Rattle.fp_model.specs.Product.{is_anchor_of_set, asked_by, rules_of};
ghost use Rattle.fp_model.specs.SerialHistory.{IsSerial, IsSerialHistory};
ghost use Rattle.fp_model.specs.Machine.{Machine};
ghost use Rattle.fp_model.specs.Turns.{Environment, Turn};
ghost use Rattle.fp_model.specs.Runs.{RunStep, Runs};
ghost use Rattle.serial_order.specs.Laws.{IsCovered, IsSame, Laws};
ghost use Rattle.serial_order.specs.ProductView.{seen_in, is_call, view_of};
ghost use Rattle.serial_order.specs.Kept.{AreApart, HaveNoCycle, IsAtRest, Kept};

/// A call that needs no further lock is answered alike on any two states that have the same at what is held. Only an
/// unheld look needs the state that it shows.
pub fn calls_look_at_what_is_held()
    ensures { (defs : Defs) (db db2 visible visible2 : Db) (own : Workspace) (held : Resource → Option Mode)
        (asked : Call)
        → need_of defs db own held asked ≡ None
        → IsSame (view_of defs) held db db2
        → (looks_unheld defs own asked ≡ true → visible2 ≡ visible)
        → reply_to defs db2 visible2 own asked ≡ reply_to defs db visible own asked }
{}

/// What a call leaves to rely on is held Exclusive, as long as it names a whole key: scripts ask no others.
pub fn calls_rely_on_what_is_held()
    ensures begins { (defs : Defs) (held : Resource → Option Mode)
        → IsCovered (view_of defs) (fresh defs) held }
    ensures goes_on { (defs : Defs) (db visible : Db) (own : Workspace) (held : Resource → Option Mode) (asked : Call)
        → is_call defs asked ≡ true
        → need_of defs db own held asked ≡ None
        → IsCovered (view_of defs) own held
        → IsCovered (view_of defs) (reply_to defs db visible own asked).own held }
    ensures whole { (defs : Defs) (scripts : List Script) (message : Message) (answers : List Answer) (asked : Call)
        → asked_by defs scripts message answers ≡ Asks asked
        → is_call defs asked ≡ true }
{}

/// Neither what a call is answered nor the lock that it needs depends on the ends of an area.
pub fn calls_look_at_no_ends()
    ensures reply { (defs : Defs)
        → (area area2 : Area) (ends ends2 : AreaEnds) (db visible : Db) (own : Workspace) (asked : Call)
        → reply_to defs (with_ends area ends db) (with_ends area2 ends2 visible) own asked
        ≡ reply_to defs db visible own asked }
    ensures need { (defs : Defs)
        → (area : Area) (ends : AreaEnds) (db : Db)
        → (own : Workspace) (held : Resource → Option Mode) (asked : Call)
        → need_of defs (with_ends area ends db) own held asked ≡ need_of defs db own held asked }
{}

/// The sync point changes only what is held Exclusive, the ends of areas aside.
pub fn settling_changes_what_is_held()
    ensures { (defs : Defs) (db next : Db) (own : Workspace) (held : Resource → Option Mode)
        → AllByRecursion IsMsdbDef defs.msdbs
        → IsCovered (view_of defs) own held
        → lacking own held ≡ None
        → settlement defs db own ≡ Commits next
        → (resource : Resource) → ¬ (held resource ≡ Some Exclusive)
        → seen_in defs resource next ≡ seen_in defs resource db }
{}

/// A Purge changes only the anchors of its area, the ends aside.
pub fn a_purge_changes_its_area()
    ensures { (defs : Defs) (set n : ℕ) (db next : Db)
        → purged defs set n db ≡ Some next
        → (resource : Resource) → is_anchor_of_set defs set resource ≡ false
        → seen_in defs resource next ≡ seen_in defs resource db }
{}

/// This system keeps the laws that its serial order needs.
pub fn the_system_keeps_the_laws()
    ensures { (defs : Defs) (scripts : List Script)
        → AllByRecursion IsMsdbDef defs.msdbs
        → Laws (rules_of defs scripts) (view_of defs) }
{}

/// Every run of this system from rest is a serial history. No two regions hold a resource unless both share it, and
/// nobody waits for himself.
pub fn every_run_of_the_system_is_serial()
    ensures history { (defs : Defs) (scripts : List Script) (m : Machine) (steps : List RunStep) (m2 : Machine)
        → AreDefs defs
        → IsAtRest (rules_of defs scripts) m
        → Runs (rules_of defs scripts) m steps m2
        → IsSerial (rules_of defs scripts) m2.history }
    ensures serial { (defs : Defs) (scripts : List Script) (m : Machine) (steps : List RunStep) (m2 : Machine)
        → AreDefs defs
        → IsAtRest (rules_of defs scripts) m
        → Runs (rules_of defs scripts) m steps m2
        → IsSerialHistory (rules_of defs scripts) m2.history.format m2.history.entries m2.history.now }
    ensures apart { (defs : Defs) (scripts : List Script) (m : Machine) (steps : List RunStep) (m2 : Machine)
        → AreDefs defs
        → IsAtRest (rules_of defs scripts) m
        → Runs (rules_of defs scripts) m steps m2
        → AreApart m2.locks }
    ensures no_cycle { (defs : Defs) (scripts : List Script) (m : Machine) (steps : List RunStep) (m2 : Machine)
        → AreDefs defs
        → IsAtRest (rules_of defs scripts) m
        → Runs (rules_of defs scripts) m steps m2
        → HaveNoCycle m2.requests m2.locks }
{}

/// What a turn of this system keeps, and so every run.
pub fn a_turn_of_the_system_keeps_the_order()
    ensures turn { (defs : Defs) (scripts : List Script)
        → (m : Machine) (event : Event) (environment : Environment) (m2 : Machine)
        → AreDefs defs
        → Turn (rules_of defs scripts) m event environment m2
        → Kept (rules_of defs scripts) (view_of defs) m
        → Kept (rules_of defs scripts) (view_of defs) m2 }
    ensures run { (defs : Defs) (scripts : List Script) (m : Machine) (steps : List RunStep) (m2 : Machine)
        → AreDefs defs
        → Runs (rules_of defs scripts) m steps m2
        → Kept (rules_of defs scripts) (view_of defs) m
        → Kept (rules_of defs scripts) (view_of defs) m2 }
{}
