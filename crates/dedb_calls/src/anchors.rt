//! The anchors that a transaction holds, with their roots as it sees them.
ghost use Rattle.dedb_calls.specs.Anchors.{Ascend, changes_in, held_at, is_anchor_of, stands_before};
ghost use Rattle.dedb_calls.specs.inside.Anchors.{IsEdited, IsPlaceOf};
ghost use Rattle.dli_tree.specs.Changes.{edit_of};
ghost use Rattle.dli_tree.specs.InOrder.{AreTypes, are_in_order};
ghost use Rattle.dli_tree.specs.Paths.{steps_of};
ghost use Rattle.fp_model.specs.Order.{edited};
ghost use Rattle.std.specs.Option.{option_copied};
ghost use Rattle.std.specs.Prelude.{◌≡◌, ◌+◌, ◌≤◌, ◌==◌, ◌&&◌, ◌||◌, nat_lt, IfOk, IsOk, None, OnErr, OnOk, Some, false, is_some, length, slice_get, true, ℕ};

use dli_tree::{Change, Step, edit_at};
use fp_model::{AnchorChange, List, Root, SegDef};
use std::alloc::{AllocError, Global};

/// An anchor that a transaction holds.
#[derive(Drop)]
pub(crate) struct HeldAnchor {
    pub(crate) dedb: u8,
    pub(crate) anchor: u32,
    /// As the transaction sees them: with its own direct changes.
    pub(crate) roots: List<Root>,
    /// Whether it has changed them.
    pub(crate) is_changed: bool,
}

/// How many of these stand before an anchor.
fn place_of(held: &[HeldAnchor], dedb: u8, anchor: u32) -> usize
    ensures within { result ≤ length held.now }
    ensures place { Ascend held.now → IsPlaceOf dedb anchor held.now result }
{
    held.partition_point(
        |one: &HeldAnchor| -> bool
            ensures { result ≡ stands_before dedb anchor one.now }
        { one.dedb < dedb || one.dedb == dedb && one.anchor < anchor },
    )
}

/// Whether the one at a place is of an anchor.
fn is_there(held: &[HeldAnchor], at: usize, dedb: u8, anchor: u32) -> bool
    ensures within { result ≡ true → at + 1 ≤ length held.now }
    ensures there { (a : _) → slice_get held.now at ≡ Some a → result ≡ is_anchor_of dedb anchor a }
    ensures none { slice_get held.now at ≡ None → result ≡ false }
{
    if at < held.len() {
        held[at].dedb == dedb && held[at].anchor == anchor
    } else {
        false
    }
}

/// What is held of an anchor.
pub(crate) fn held_at(held: &[HeldAnchor], dedb: u8, anchor: u32) -> Option<&HeldAnchor>
    ensures { Ascend held.now → option_copied result ≡ held_at held.now dedb anchor }
{
    let at = place_of(held, dedb, anchor);
    if is_there(held, at, dedb, anchor) {
        Some(&held[at])
    } else {
        None
    }
}

/// Holds an anchor. Where it is held already its roots stay, and no memory is taken. It fails only for want of memory,
/// and then nothing changes.
pub(crate) fn hold(
    held: &mut List<HeldAnchor>,
    dedb: u8,
    anchor: u32,
    roots: List<Root>,
) -> Result<(), AllocError>
    ensures order { Ascend held.old → Ascend held.new }
    ensures there { Ascend held.old → held_at held.old dedb anchor ≡ None
        → OnOk result (held_at held.new dedb anchor
        ≡ Some (record { dedb = dedb; anchor = anchor; roots = roots; is_changed = false })) }
    ensures has { Ascend held.old → OnOk result (is_some (held_at held.new dedb anchor) ≡ true) }
    ensures others { Ascend held.old → (d a : ℕ) → (d == dedb && a == anchor) ≡ false
        → held_at held.new d a ≡ held_at held.old d a }
    ensures again { Ascend held.old → is_some (held_at held.old dedb anchor) ≡ true → held.new ≡ held.old }
    ensures at_once { Ascend held.old → is_some (held_at held.old dedb anchor) ≡ true → IsOk result }
    ensures changes { changes_in held.new ≡ changes_in held.old }
    ensures err { OnErr result (held.new ≡ held.old) }
{
    let items = held.as_slice();
    let at = place_of(items, dedb, anchor);
    if is_there(items, at, dedb, anchor) {
        return Ok(());
    }
    let one = HeldAnchor {
        dedb,
        anchor,
        roots,
        is_changed: false,
    };
    held.insert(at, one)?;
    Ok(())
}

/// Edits the roots of one at the end of a path.
fn edit_one(
    segments: &[SegDef],
    steps: &[Step],
    change: Change,
    held: &mut HeldAnchor,
) -> Result<(), AllocError>
    requires { AreTypes segments.now }
    ensures ok { are_in_order segments.now held.old.roots ≡ true
        → OnOk result (held.new ≡ record held.old {
          roots = edited segments.now held.old.roots (steps_of steps.now) (edit_of change);
          is_changed = true;
        }) }
    ensures err { OnErr result (held.new ≡ held.old) }
{
    edit_at(segments, steps, change, &mut held.roots)?;
    held.is_changed = true;
    Ok(())
}

/// Edits the roots of an anchor at the end of a path; where it isn't held nothing changes. It fails only for want of
/// memory, for an insert alone, and then nothing changes.
pub(crate) fn edit(
    segments: &[SegDef],
    dedb: u8,
    anchor: u32,
    steps: &[Step],
    change: Change,
    held: &mut List<HeldAnchor>,
) -> Result<(), AllocError>
    requires { AreTypes segments.now }
    ensures ok { Ascend held.old → (a : _) → held_at held.old dedb anchor ≡ Some a
        → are_in_order segments.now a.roots ≡ true
        → OnOk result (IsEdited dedb anchor (edited segments.now a.roots (steps_of steps.now) (edit_of change)) held.old
        held.new) }
    ensures err { OnErr result (held.new ≡ held.old) }
{
    let items = held.as_slice();
    let at = place_of(items, dedb, anchor);
    if !is_there(items, at, dedb, anchor) {
        return Ok(());
    }
    edit_one(segments, steps, change, held.item_mut(at))?;
    Ok(())
}

/// Those that were changed. It fails only for want of memory.
pub(crate) fn into_changes(
    alloc: Global,
    held: List<HeldAnchor>,
) -> Result<List<AnchorChange>, AllocError>
    ensures { IfOk result (λ changes. changes ≡ changes_in held) }
{
    let mut changes = List::new(alloc);
    for one in held.into_vec() {
        if one.is_changed {
            changes.push(AnchorChange {
                dedb: one.dedb,
                anchor: one.anchor,
                roots: one.roots,
            })?;
        }
    }
    Ok(changes)
}
