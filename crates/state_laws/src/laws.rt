//! What the start, settling, a Purge, an edit and a commit keep of the shape of the state.
ghost use Rattle.std.specs.Prelude.{◌≡◌, ℕ, ◌+◌, ◌≤◌, List, true, Option, Some, None};
ghost use Rattle.std.specs.List.{AllByRecursion, AllZip};
ghost use Rattle.fp_model.specs.declared.definitions.DedbDef.{DedbDef};
ghost use Rattle.fp_model.specs.declared.definitions.Defs.{Defs};
ghost use Rattle.fp_model.specs.declared.definitions.MsdbDef.{MsdbDef};
ghost use Rattle.fp_model.specs.declared.database.AreaEnds.{AreaEnds};
ghost use Rattle.fp_model.specs.declared.database.Db.{Db};
ghost use Rattle.fp_model.specs.declared.database.Dedb.{Dedb};
ghost use Rattle.fp_model.specs.declared.database.Msdb.{Msdb};
ghost use Rattle.fp_model.specs.declared.database.Root.{Root};
ghost use Rattle.fp_model.specs.declared.calls.Call.{Call};
ghost use Rattle.fp_model.specs.declared.calls.Deferred.{Deferred};
ghost use Rattle.fp_model.specs.declared.calls.Message.{Message};
ghost use Rattle.fp_model.specs.declared.log.Entry.{Entry};
ghost use Rattle.fp_model.specs.declared.scripts.Script.{Script};
ghost use Rattle.fp_model.specs.Answers.{Replied};
ghost use Rattle.fp_model.specs.Calls.{database_of, reply_to, target_of};
ghost use Rattle.fp_model.specs.Commit.{Commits, purged, settlement};
ghost use Rattle.fp_model.specs.CheckpointText.{IsMsdbOf};
ghost use Rattle.fp_model.specs.FitCalls.{FitsAnswerOf, FitsTarget, IsFitDeferred, IsTied, shown_behind};
ghost use Rattle.fp_model.specs.History.{states_of};
ghost use Rattle.fp_model.specs.Order.{Edit, Step, edited, sequential_type};
ghost use Rattle.fp_model.specs.Product.{asked_by, rules_of};
ghost use Rattle.fp_model.specs.Serial.{Ending, Ends, serial_run};
ghost use Rattle.fp_model.specs.SerialHistory.{IsSerialHistory};
ghost use Rattle.fp_model.specs.Settle.{Stands, settle};
ghost use Rattle.fp_model.specs.Shape.{IsDbOf, IsDedbOf, has_length, is_anchor};
ghost use Rattle.fp_model.specs.State.{Area, start};
ghost use Rattle.fp_model.specs.WellFormed.{AreDefs, IsMsdbDef};
ghost use Rattle.fp_model.specs.Workspace.{Workspace, fresh};
ghost use Rattle.state_laws.specs.Changes.{FitsChange, with_anchor};
ghost use Rattle.state_laws.specs.Edits.{FitsEdit};
ghost use Rattle.state_laws.specs.Inserts.{FitsSequential, ending_at, with_sequential, with_serial};
ghost use Rattle.state_laws.specs.Parts.{FitsState};
ghost use Rattle.state_laws.specs.Talks.{CallsFit, ScriptsFit};
ghost use Rattle.state_laws.specs.Workspaces.{FitsWorkspace};

/// The state before any transaction has its shape.
pub fn the_start_has_its_shape()
    ensures { (defs : Defs)
        → AreDefs defs
        → IsDbOf defs (start defs) }
{}

/// A queue of calls that fit leaves main storage databases in shape, each with its lengths and in order of keys.
pub fn settling_keeps_the_shape()
    ensures { (defs : List MsdbDef) (msdbs : List Msdb) (deferred : List Deferred) (next : List Msdb)
        → AllByRecursion IsMsdbDef defs
        → AllByRecursion (IsFitDeferred defs) deferred
        → AllZip IsMsdbOf defs msdbs
        → settle defs msdbs deferred ≡ Stands next
        → AllZip IsMsdbOf defs next }
{}

/// A Purge keeps the shape of the state.
pub fn a_purge_keeps_the_shape()
    ensures { (defs : Defs) (set n : ℕ) (db next : Db)
        → IsDbOf defs db
        → purged defs set n db ≡ Some next
        → IsDbOf defs next }
{}

/// An edit that fits keeps the shape of its anchor.
pub fn an_edit_keeps_the_shape()
    ensures { (def : DedbDef) (anchor : ℕ) (ends : AreaEnds) (roots : List Root) (path : List Step) (edit : Edit)
        → is_anchor def anchor ends roots ≡ true
        → FitsEdit def anchor roots path edit
        → is_anchor def anchor ends (edited def.segments roots path edit) ≡ true }
{}

/// Where the end of an area moves on, its anchors stay in shape.
pub fn a_later_end_keeps_the_shape()
    ensures { (def : DedbDef) (anchor : ℕ) (ends : AreaEnds) (end : ℕ) (roots : List Root)
        → is_anchor def anchor ends roots ≡ true
        → ends.end ≤ end
        → is_anchor def anchor (ending_at end ends) roots ≡ true }
{}

/// A sequential dependent that gets the serial at the end keeps the shape of its anchor, where the end moves on.
pub fn a_sequential_insert_keeps_the_shape()
    ensures { (def : DedbDef) (anchor : ℕ) (ends : AreaEnds) (roots : List Root) (key bytes : List ℕ) (type : ℕ)
        → is_anchor def anchor ends roots ≡ true
        → ends.begin ≤ ends.end
        → sequential_type def.segments ≡ Some type
        → has_length def.segments type bytes ≡ true
        → is_anchor def anchor (ending_at (ends.end + 1) ends) (with_serial def ends.end key bytes roots) ≡ true }
{}

/// Other roots at an anchor that fit it keep the shape of their database.
pub fn a_changed_anchor_keeps_the_shape()
    ensures { (def : DedbDef) (dedb : Dedb) (anchor : ℕ) (roots : List Root)
        → IsDedbOf def dedb
        → FitsChange def dedb anchor roots
        → IsDedbOf def (with_anchor anchor roots dedb) }
{}

/// A sequential insert that fits keeps the shape of its database: its serial is new in its area.
pub fn a_sequential_insert_keeps_its_database()
    ensures { (def : DedbDef) (dedb : Dedb) (area : Area) (anchor : ℕ) (ends : AreaEnds) (roots : List Root)
        → (key bytes : List ℕ)
        → IsDedbOf def dedb
        → FitsSequential def dedb area anchor ends roots bytes
        → IsDedbOf def (with_sequential def area anchor ends roots key bytes dedb) }
{}

/// A commit keeps the shape of the state, where what the transaction has to itself fits: its calls settle, its changed
/// anchors stand one after another, and each area has room for its inserts.
pub fn a_commit_keeps_the_shape()
    ensures { (defs : Defs) (db : Db) (own : Workspace) (next : Db)
        → AreDefs defs
        → IsDbOf defs db
        → FitsState defs db own
        → settlement defs db own ≡ Commits next
        → IsDbOf defs next }
{}

/// An answered call leaves a workspace that fits, where it did before and the call fits its target. What unheld looks
/// are shown makes no difference.
pub fn an_answered_call_keeps_what_fits()
    ensures { (defs : Defs) (now visible : Db) (shown : ℕ → Option ℕ) (own : Workspace) (call : Call)
        → AreDefs defs
        → IsDbOf defs now
        → FitsWorkspace defs now own
        → IsTied defs shown own
        → FitsTarget (target_of defs (database_of call)) (shown (database_of call)) call
        → FitsWorkspace defs now (reply_to defs now visible own call).own }
{}

/// Behind an answered call what is held is of the type shown last, where it was before.
pub fn an_answered_call_ties_what_is_held()
    ensures { (defs : Defs) (now visible : Db) (shown : ℕ → Option ℕ) (own : Workspace) (call : Call)
        → let reply : Replied = reply_to defs now visible own call in
        IsTied defs shown own
        → IsTied defs (shown_behind call reply.answer shown) reply.own }
{}

/// The workspace of a transaction that begins fits every state, and it holds nothing.
pub fn a_fresh_workspace_fits()
    ensures fits { (defs : Defs) (db : Db) → FitsWorkspace defs db (fresh defs) }
    ensures tied { (defs : Defs) → IsTied defs (λ db. None) (fresh defs) }
{}

/// The answer to a call fits its target: where a get found, it shows a whole segment of a type of its database.
pub fn an_answer_fits_its_target()
    ensures { (defs : Defs) (now visible : Db) (own : Workspace) (call : Call)
        → AreDefs defs
        → IsDbOf defs now
        → IsDbOf defs visible
        → FitsWorkspace defs now own
        → FitsAnswerOf (target_of defs (database_of call)) call (reply_to defs now visible own call).answer }
{}

/// A transaction alone keeps the shape of the state, where the calls of its script fit.
pub fn a_transaction_alone_keeps_the_shape()
    ensures { (defs : Defs) (scripts : List Script) (now : Db) (states : List Db) (message : Message) (notes : List ℕ)
        → (ending : Ending)
        → AreDefs defs
        → CallsFit defs (asked_by defs scripts message)
        → IsDbOf defs now
        → AllByRecursion (IsDbOf defs) states
        → serial_run (rules_of defs scripts) now states message notes ≡ Ends ending
        → IsDbOf defs ending.next }
{}

/// Every state of a serial history has its shape, where the calls of all scripts fit.
pub fn a_history_keeps_the_shape()
    ensures states { (defs : Defs) (scripts : List Script) (format : ℕ) (entries : List Entry) (last : Db)
        → AreDefs defs
        → ScriptsFit defs scripts
        → (serial : IsSerialHistory (rules_of defs scripts) format entries last)
        → AllByRecursion (IsDbOf defs) (states_of serial.history) }
    ensures last { (defs : Defs) (scripts : List Script) (format : ℕ) (entries : List Entry) (last : Db)
        → AreDefs defs
        → ScriptsFit defs scripts
        → IsSerialHistory (rules_of defs scripts) format entries last
        → IsDbOf defs last }
{}
