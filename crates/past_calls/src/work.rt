//! What a transaction keeps until its end.
ghost use Rattle.std.specs.Option.{option_map};
ghost use Rattle.std.specs.Prelude.{◌≡◌, ◌<◌, ◌&&◌, ◌==◌, [], IfOk, IsOk, None, OnErr, OnOk, Some, false, is_some, length, slice_get, true, ℕ};
ghost use Rattle.dedb_calls.specs.Anchors.{Ascend, Sees, held_at};
ghost use Rattle.dedb_calls.specs.Progress.{held_in};
ghost use Rattle.dli_tree.specs.InOrder.{any_ends};
ghost use Rattle.fp_model.specs.DedbCalls.{type_of_path};
ghost use Rattle.fp_model.specs.Shape.{is_anchor};
ghost use Rattle.fp_model.specs.State.{roots_at};
ghost use Rattle.fp_model.specs.Workspace.{fresh};
ghost use Rattle.fp_model.specs.declared.database.Db.{Db as DbOf};
ghost use Rattle.fp_model.specs.declared.definitions.DedbDef.{DedbDef as DedbOf};
ghost use Rattle.fp_model.specs.declared.definitions.Defs.{Defs as DefsOf};
ghost use Rattle.past_calls.specs.Progress.{IsWorkOf, dedbs_in};

use dedb_calls::DedbWork;
use fp_model::{AnchorChange, Deferred, Defs, List, Root, SeqInsert};
use msdb_calls::MsdbWork;
use std::alloc::{AllocError, Global};
use std::marker::Model;

/// What one transaction keeps to itself until its end: its positions, its deferred calls, the anchors whose roots it
/// has, as it sees them, and its sequential inserts.
#[derive(Drop)]
pub struct Work {
    pub(crate) msdbs: MsdbWork,
    pub(crate) dedbs: DedbWork,
}

/// What a transaction hands to its sync point.
#[derive(Drop)]
pub struct Parts {
    /// The deferred calls, in call order.
    pub deferred: List<Deferred>,
    /// The anchors that were changed, ascending by database and number.
    pub changes: List<AnchorChange>,
    /// The sequential inserts, in call order.
    pub inserts: List<SeqInsert>,
}

impl Model for Work {
    ghost use Rattle.std.specs.Coded.{codes};
    ghost use Rattle.fp_model.specs.contracts.database.Node as node;
    ghost use Rattle.dedb_calls.specs.Anchors.{changes_in};
    ghost use Rattle.past_calls.specs.Progress.{Progress};

    ghost Value = { Progress };

    ghost coded = { Prim.hlevel (codes, node.the_row.coded) };

    ghost view = { λ w. record {
      own = record {
        msdbs = w.msdbs.positions;
        dedbs = w.dedbs.positions;
        changes = changes_in w.dedbs.anchors;
        deferred = w.msdbs.deferred;
        inserts = w.dedbs.inserts;
      };
      anchors = w.dedbs.anchors;
      changed = w.msdbs.changed;
    } };
}

impl Work {
    /// As a transaction begins: no positions, nothing deferred, no anchors. It fails only for want of memory.
    pub fn new(alloc: Global, defs: &Defs) -> Result<Work, AllocError>
        ensures of { IfOk result (IsWorkOf defs.now) }
        ensures own { IfOk result (λ work. work.own ≡ fresh defs.now) }
        ensures anchors { IfOk result (λ work. work.anchors ≡ []) }
    {
        let msdbs = MsdbWork::new(alloc, defs)?;
        let dedbs = DedbWork::new(alloc, defs)?;
        Ok(Work { msdbs, dedbs })
    }

    /// Hands it the roots of an anchor that it lacks, as they stand in the database. Where it has roots of the anchor
    /// already these stay, and no memory is taken. It fails only for want of memory, and then nothing changes.
    pub fn hold_anchor(
        &mut self,
        dedb: u8,
        anchor: u32,
        roots: List<Root>,
    ) -> Result<(), AllocError>
        requires { Ascend self.old.anchors }

        // The transaction has these roots then, and of other anchors what it had.
        ensures there { held_at self.old.anchors dedb anchor ≡ None
            → OnOk result (held_at self.new.anchors dedb anchor
            ≡ Some (record { dedb = dedb; anchor = anchor; roots = roots; is_changed = false })) }
        ensures others { (d a : ℕ) → (d == dedb && a == anchor) ≡ false
            → held_at self.new.anchors d a ≡ held_at self.old.anchors d a }
        ensures again { is_some (held_at self.old.anchors dedb anchor) ≡ true → self.new ≡ self.old }
        ensures at_once { is_some (held_at self.old.anchors dedb anchor) ≡ true → IsOk result }
        ensures has { OnOk result (is_some (held_at self.new.anchors dedb anchor) ≡ true) }
        ensures sees { (db : DbOf) → roots_at db dedb anchor ≡ roots → Sees db self.old.anchors
            → Sees db self.new.anchors }

        // The anchors ascend, whatever the roots are.
        ensures order { Ascend self.new.anchors }

        // It stays a transaction's, where the roots have the anchor's shape.
        ensures of { (defs : DefsOf)
            → ((def : DedbOf) → slice_get defs.dedbs dedb ≡ Some def → is_anchor def anchor any_ends roots ≡ true)
            → IsWorkOf defs self.old → IsWorkOf defs self.new }

        // All else stays: what it would do to the databases.
        ensures same { self.new ≡ record self.old { anchors = self.new.anchors } }
        ensures err { OnErr result (self.new ≡ self.old) }
    {
        self.dedbs.hold_anchor(dedb, anchor, roots)
    }

    /// The type of the segment that is held in the data entry database of this number among its kind, if one is. A
    /// replacement is to have that type's length.
    pub fn held_type(&self, dedb: u8) -> Option<u8>
        requires { dedb < length self.now.own.dedbs }
        ensures { (def : DedbOf) → result
            ≡ option_map (λ place. type_of_path def dedb place.path) (held_in (dedbs_in self.now) dedb) }
    {
        self.dedbs.held_type(dedb)
    }

    /// The deferred calls, in call order.
    pub fn deferred(&self) -> &List<Deferred>
        ensures { result.now ≡ self.now.own.deferred }
    {
        self.msdbs.deferred()
    }

    /// What its sync point is to settle. It is handed on, and not copied. It fails only for want of memory.
    pub fn into_parts(self, alloc: Global) -> Result<Parts, AllocError>
        ensures deferred { IfOk result (λ parts. parts.deferred ≡ self.own.deferred) }
        ensures changes { IfOk result (λ parts. parts.changes ≡ self.own.changes) }
        ensures inserts { IfOk result (λ parts. parts.inserts ≡ self.own.inserts) }
    {
        let Work { msdbs, dedbs } = self;
        let (changes, inserts) = dedbs.into_parts(alloc)?;
        Ok(Parts {
            deferred: msdbs.into_deferred(),
            changes,
            inserts,
        })
    }
}
