//! What a transaction keeps of data entry databases until it commits.
ghost use Rattle.dedb_calls.specs.Anchors.{Ascend, Sees, changes_in, held_at};
ghost use Rattle.dedb_calls.specs.inside.Anchors.{IsEdited};
ghost use Rattle.dedb_calls.specs.Progress.{IsDedbWorkOf, held_in, position_in};
ghost use Rattle.dedb_calls.specs.inside.Progress.{with_position_at};
ghost use Rattle.dedb_calls.specs.declared.anchors.HeldAnchor.{HeldAnchor as HeldOf};
ghost use Rattle.dli_tree.specs.Changes.{edit_of};
ghost use Rattle.dli_tree.specs.InOrder.{AreTypes, any_ends, are_in_order};
ghost use Rattle.dli_tree.specs.Paths.{steps_of};
ghost use Rattle.fp_model.specs.DedbCalls.{goes_with, type_of_path};
ghost use Rattle.fp_model.specs.Order.{Place as PlaceOf, edited};
ghost use Rattle.fp_model.specs.Shape.{is_anchor};
ghost use Rattle.fp_model.specs.State.{roots_at};
ghost use Rattle.fp_model.specs.Texts.{same_text};
ghost use Rattle.fp_model.specs.Workspace.{no_dedb_position};
ghost use Rattle.fp_model.specs.declared.database.Db.{Db as DbOf};
ghost use Rattle.fp_model.specs.declared.definitions.DedbDef.{DedbDef as DefOf};
ghost use Rattle.fp_model.specs.declared.definitions.Defs.{Defs as DefsOf};
ghost use Rattle.std.specs.Option.{option_copied};
ghost use Rattle.std.specs.Prelude.{◌≡◌, ◌<◌, ◌++◌, ◌∷◌, ◌==◌, ◌&&◌, [], IfOk, IsOk, List as ListOf, None, OnErr, OnOk, Some, false, filter, is_some, length, map, not, option_map, slice_get, true, unwrap_or, ℕ};

use crate::anchors::{HeldAnchor, edit, held_at, hold, into_changes};
use crate::get::type_of_path;
use crate::place::{Place, Position};
use dli_tree::{Change, Step};
use fp_model::{AnchorChange, DedbDef, Defs, List, Root, SeqInsert};
use std::alloc::{AllocError, Global};
use std::marker::Model;

/// What one transaction keeps of data entry databases until it commits: its positions, the anchors that it holds with
/// their roots as it sees them, and its sequential inserts. How it holds them is asked elsewhere (`AnchorLocks`).
#[derive(Drop)]
pub struct DedbWork {
    pub(crate) positions: Vec<Position>,
    /// In order of database and anchor.
    pub(crate) anchors: List<HeldAnchor>,
    /// In call order.
    pub(crate) inserts: Vec<SeqInsert>,
}

impl Model for DedbWork {
    ghost use Rattle.std.specs.Coded.{codes};
    ghost use Rattle.fp_model.specs.contracts.database.Node as node;
    ghost use Rattle.dedb_calls.specs.Progress.{DedbProgress};

    ghost Value = { DedbProgress };

    ghost coded = { Prim.hlevel (codes, node.the_row.coded) };

    ghost view = { λ w. record {
      positions = w.positions.items;
      anchors = w.anchors;
      inserts = w.inserts.items;
    } };
}

impl DedbWork {
    /// As a transaction begins: no positions, no anchors, no inserts. It fails only for want of memory.
    pub fn new(alloc: Global, defs: &Defs) -> Result<DedbWork, AllocError>
        ensures of { IfOk result (IsDedbWorkOf defs.now.dedbs) }
        ensures begins { IfOk result (λ work. work ≡ record {
          positions = map (λ def. no_dedb_position) defs.now.dedbs;
          anchors = [];
          inserts = [];
        }) }
    {
        let mut positions = Vec::new(alloc);
        for _ in 0..defs.dedbs.len() {
            positions.push(Position::new())?;
        }
        Ok(DedbWork {
            positions,
            anchors: List::new(alloc),
            inserts: Vec::new(alloc),
        })
    }

    /// Tells it of the first lock of an anchor that it gains, with the roots that stand there. Where it has roots of
    /// the anchor already, as behind a lock that is raised, these stay, and no memory is taken. It fails only for want
    /// of memory, and then nothing changes.
    pub fn hold_anchor(
        &mut self,
        dedb: u8,
        anchor: u32,
        roots: List<Root>,
    ) -> Result<(), AllocError>
        requires { Ascend self.old.anchors }

        // The transaction has these roots then, and of other anchors what it had.
        ensures there { held_at self.old.anchors dedb anchor ≡ None
            → OnOk result (held_at self.new.anchors dedb anchor
            ≡ Some (record { dedb = dedb; anchor = anchor; roots = roots; is_changed = false })) }
        ensures others { (d a : ℕ) → (d == dedb && a == anchor) ≡ false
            → held_at self.new.anchors d a ≡ held_at self.old.anchors d a }
        ensures again { is_some (held_at self.old.anchors dedb anchor) ≡ true → self.new ≡ self.old }
        ensures at_once { is_some (held_at self.old.anchors dedb anchor) ≡ true → IsOk result }
        ensures has { OnOk result (is_some (held_at self.new.anchors dedb anchor) ≡ true) }
        ensures sees { (db : DbOf) → roots_at db dedb anchor ≡ roots → Sees db self.old.anchors
            → Sees db self.new.anchors }

        // The anchors ascend, whatever the roots are.
        ensures order { Ascend self.new.anchors }

        // It stays a transaction's, where the roots have the anchor's shape.
        ensures of { (defs : ListOf DefOf)
            → ((def : DefOf) → slice_get defs dedb ≡ Some def → is_anchor def anchor any_ends roots ≡ true)
            → IsDedbWorkOf defs self.old → IsDedbWorkOf defs self.new }

        // All else stays.
        ensures positions { self.new.positions ≡ self.old.positions }
        ensures inserts { self.new.inserts ≡ self.old.inserts }
        ensures changes { changes_in self.new.anchors ≡ changes_in self.old.anchors }
        ensures err { OnErr result (self.new ≡ self.old) }
    {
        hold(&mut self.anchors, dedb, anchor, roots)
    }

    /// Whether it has roots of an anchor of the data entry database of this number among its kind.
    pub fn has_roots(&self, dedb: u8, anchor: u32) -> bool
        requires { Ascend self.now.anchors }
        ensures { result ≡ is_some (held_at self.now.anchors dedb anchor) }
    {
        held_at(self.held(), dedb, anchor).is_some()
    }

    /// The type of the segment that is held in a database, if one is.
    pub fn held_type(&self, dedb: u8) -> Option<u8>
        requires { dedb < length self.now.positions }
        ensures { (def : DefOf) → result
            ≡ option_map (λ place. type_of_path def dedb place.path) (held_in self.now dedb) }
    {
        match self.held_place(dedb) {
            Some(place) => Some(type_of_path(place.steps())),
            None => None,
        }
    }

    /// The sequential inserts, in call order.
    pub fn inserts(&self) -> &[SeqInsert]
        ensures { result.now ≡ self.now.inserts }
    {
        self.inserts.as_slice()
    }

    /// What the commit is to write: the anchors that were changed, ascending by database and number, and the sequential
    /// inserts in call order. The roots are handed on, and not copied. It fails only for want of memory.
    pub fn into_parts(
        self,
        alloc: Global,
    ) -> Result<(List<AnchorChange>, List<SeqInsert>), AllocError>
        ensures changes { IfOk result (λ parts. parts.0 ≡ changes_in self.anchors) }
        ensures inserts { IfOk result (λ parts. parts.1 ≡ self.inserts) }
    {
        let changes = into_changes(alloc, self.anchors)?;
        Ok((changes, List::from_vec(self.inserts)))
    }
}

// Anchors.
impl DedbWork {
    /// Edits the roots of an anchor that it holds, at the end of a path. It fails only for want of memory, for an
    /// insert alone, and then nothing changes.
    pub(crate) fn edit(
        &mut self,
        def: &DedbDef,
        dedb: u8,
        anchor: u32,
        steps: &[Step],
        change: Change,
    ) -> Result<(), AllocError>
        requires { AreTypes def.now.segments }
        ensures ok { Ascend self.old.anchors → (a : HeldOf) → held_at self.old.anchors dedb anchor ≡ Some a
            → are_in_order def.now.segments a.roots ≡ true
            → OnOk result (IsEdited dedb anchor (edited def.now.segments a.roots (steps_of steps.now) (edit_of change))
            self.old.anchors self.new.anchors) }
        ensures positions { self.new.positions ≡ self.old.positions }
        ensures inserts { self.new.inserts ≡ self.old.inserts }
        ensures err { OnErr result (self.new ≡ self.old) }
    {
        let segments = def.segments.as_slice();
        edit(segments, dedb, anchor, steps, change, &mut self.anchors)
    }
}

/// Edits the roots of a place's anchor at the end of its path.
fn edit_place(
    def: &DedbDef,
    dedb: u8,
    place: Option<&Place>,
    change: Change,
    held: &mut List<HeldAnchor>,
) -> Result<(), AllocError>
    requires { AreTypes def.now.segments }
    ensures ok { Ascend held.old → (at : PlaceOf) (a : HeldOf) → option_copied place.entry ≡ Some at
        → held_at held.old dedb at.anchor ≡ Some a
        → are_in_order def.now.segments a.roots ≡ true
        → OnOk result (IsEdited dedb at.anchor (edited def.now.segments a.roots at.path (edit_of change)) held.old
        held.new) }
    ensures err { OnErr result (held.new ≡ held.old) }
{
    match place {
        Some(place) => {
            let segments = def.segments.as_slice();
            edit(segments, dedb, place.anchor(), place.steps(), change, held)
        }
        None => Ok(()),
    }
}

/// Without the sequential inserts below a root, if the place is one.
fn drop_below(dedb: u8, place: Option<&Place>, inserts: &mut Vec<SeqInsert>)
    ensures { (def : DefOf) (at : PlaceOf) → option_copied place.entry ≡ Some at
        → inserts.new.items ≡ filter (λ i. not (goes_with def dedb at i)) inserts.old.items }
{
    let Some(place) = place else {
        return;
    };
    let steps = place.steps();
    if steps.len() != 1 {
        return;
    }
    let anchor = place.anchor();
    let key = steps[0].key.as_slice();
    inserts.retain(
        |one: &SeqInsert| -> bool
            ensures { result ≡ not (one.now.dedb == dedb && one.now.anchor == anchor && same_text one.now.key
                key.entry.now) }
        { !(one.dedb == dedb && one.anchor == anchor && one.key.as_slice() == key) },
    );
}

// The queue.
impl DedbWork {
    /// Puts a sequential insert at the end of the queue. It fails only for want of memory, and then nothing changes.
    pub(crate) fn queue(&mut self, insert: SeqInsert) -> Result<(), AllocError>
        ensures ok { OnOk result (self.new ≡ record self.old { inserts = self.old.inserts ++ insert ∷ [] }) }
        ensures err { OnErr result (self.new ≡ self.old) }
    {
        self.inserts.push(insert)?;
        Ok(())
    }
}

// The segment that is held.
impl DedbWork {
    /// The place that is held in a database.
    pub(crate) fn held_place(&self, dedb: u8) -> Option<&Place>
        requires { dedb < length self.now.positions }
        ensures { option_copied result ≡ held_in self.now dedb }
    {
        self.positions[dedb as usize].held_place()
    }

    /// Edits the roots of the anchor of the place that was found last. It fails only for want of memory, for an insert
    /// alone, and then nothing changes.
    pub(crate) fn edit_held(
        &mut self,
        def: &DedbDef,
        dedb: u8,
        change: Change,
    ) -> Result<(), AllocError>
        requires types { AreTypes def.now.segments }
        requires counted { dedb < length self.old.positions }

        ensures ok { Ascend self.old.anchors → (at : PlaceOf) (a : HeldOf)
            → (position_in self.old dedb).place ≡ Some at
            → held_at self.old.anchors dedb at.anchor ≡ Some a
            → are_in_order def.now.segments a.roots ≡ true
            → OnOk result (IsEdited dedb at.anchor (edited def.now.segments a.roots at.path (edit_of change))
            self.old.anchors self.new.anchors) }
        ensures positions { self.new.positions ≡ self.old.positions }
        ensures inserts { self.new.inserts ≡ self.old.inserts }
        ensures err { OnErr result (self.new ≡ self.old) }
    {
        let place = self.positions[dedb as usize].place.as_ref();
        edit_place(def, dedb, place, change, &mut self.anchors)
    }

    /// Takes the sequential inserts below the root that was found last out of the queue; where no root was, none.
    pub(crate) fn drop_held(&mut self, dedb: u8)
        requires { dedb < length self.old.positions }
        ensures inserts { (def : DefOf) (at : PlaceOf) → (position_in self.old dedb).place ≡ Some at
            → self.new.inserts ≡ filter (λ i. not (goes_with def dedb at i)) self.old.inserts }
        ensures positions { self.new.positions ≡ self.old.positions }
        ensures anchors { self.new.anchors ≡ self.old.anchors }
    {
        let place = self.positions[dedb as usize].place();
        drop_below(dedb, place, &mut self.inserts);
    }
}

// Positions.
impl DedbWork {
    /// The anchors that it holds.
    pub(crate) fn held(&self) -> &[HeldAnchor]
        ensures { result.now ≡ self.now.anchors }
    {
        self.anchors.as_slice()
    }

    /// The position in a database.
    pub(crate) fn position(&self, dedb: u8) -> &Position
        requires { dedb < length self.now.positions }
        ensures { result.now ≡ position_in self.now dedb }
    {
        &self.positions[dedb as usize]
    }

    /// Ends the hold in a database.
    pub(crate) fn let_go(&mut self, dedb: u8)
        requires { dedb < length self.old.positions }
        ensures { self.new
            ≡ with_position_at dedb (record (position_in self.old dedb) { held = false }) self.old }
    {
        self.positions[dedb as usize].held = false;
    }

    /// Ends the hold in a database, and forgets the parent.
    pub(crate) fn forget_parent(&mut self, dedb: u8)
        requires { dedb < length self.old.positions }
        ensures { self.new ≡ with_position_at dedb
            (record (position_in self.old dedb) { parent = None; held = false }) self.old }
    {
        let position = &mut self.positions[dedb as usize];
        position.held = false;
        position.parent = None;
    }

    /// Is at a place, and holds it or not; the parent stays.
    pub(crate) fn move_to(&mut self, dedb: u8, place: Place, hold: bool)
        requires { dedb < length self.old.positions }
        ensures { self.new ≡ with_position_at dedb
            (record (position_in self.old dedb) { place = Some place; held = hold }) self.old }
    {
        let position = &mut self.positions[dedb as usize];
        position.place = Some(place);
        position.held = hold;
    }

    /// Is at a place below a parent, and holds it or not.
    pub(crate) fn move_below(&mut self, dedb: u8, place: Place, parent: Place, hold: bool)
        requires { dedb < length self.old.positions }
        ensures { self.new
            ≡ with_position_at dedb (record { place = Some place; parent = Some parent; held = hold }) self.old }
    {
        self.positions[dedb as usize] = Position {
            place: Some(place),
            parent: Some(parent),
            held: hold,
        };
    }
}
