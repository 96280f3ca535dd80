//! A law of what calls are answered, the contract of a function that does nothing.
ghost use Rattle.run_laws.specs.Holding.{AreHeldLocked};
ghost use Rattle.fp_model.specs.DedbCalls.{dedb_need, dedb_reply};
ghost use Rattle.fp_model.specs.Workspace.{Workspace, fresh};
ghost use Rattle.fp_model.specs.declared.calls.Call.{Call};
ghost use Rattle.fp_model.specs.declared.calls.Mode.{Mode};
ghost use Rattle.fp_model.specs.declared.calls.Resource.{Resource};
ghost use Rattle.fp_model.specs.declared.database.Db.{Db};
ghost use Rattle.fp_model.specs.declared.definitions.DedbDef.{DedbDef};
ghost use Rattle.fp_model.specs.declared.definitions.Defs.{Defs};
ghost use Rattle.std.specs.Prelude.{◌≡◌, ℕ, None, Option};

/// The anchor of each segment that is held is locked Exclusive: as a transaction begins, and behind each call to a data
/// entry database that needs no lock, where it was so before it. A call to a main storage database leaves all of this,
/// and a region keeps its locks as long as its transaction.
pub fn what_is_held_is_locked()
    ensures begins { (defs : Defs) (held : Resource → Option Mode) → AreHeldLocked held (fresh defs) }
    ensures behind { (def : DedbDef) (dedb : ℕ) (db : Db) (own : Workspace) (held : Resource → Option Mode) (c : Call)
        → dedb_need def dedb db own held c ≡ None → AreHeldLocked held own
        → AreHeldLocked held (dedb_reply def dedb db own c).own }
{}
