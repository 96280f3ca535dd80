//! Changed anchors are stored in the intervals of an area.

ghost use Rattle.std.specs.Prelude.{◌≡◌, ◌≢◌, ◌≤◌, ◌∷◌, [], ℕ, Err, IfNone, IfOk, IfSome, OnOk, IsErrOf, false, map, true, ◌<◌};
ghost use Rattle.std.specs.List.{AllByRecursion};
ghost use Rattle.ci_space.specs.Calls.{GoesOn};
ghost use Rattle.fp_lists.specs.Faults.{Rose};
ghost use Rattle.seq_dependents.specs.Control.{IsControlOf, begin_of};
ghost use Rattle.fp_model.specs.Order.{root_key};
ghost use Rattle.fp_model.specs.State.{ascend};
ghost use Rattle.fp_model.specs.declared.calls.AnchorChange.{AnchorChange as ChangeOf};
ghost use Rattle.root_changes.specs.Differing.{RootsDiffer};
ghost use Rattle.area_states.specs.Changes.{AllKeepLists, AreOrdered, ChangesOne, HasListOf, OneChanges, IsStorable, KeepsLists, kept_root, with_change, with_changes, with_roots_at};
ghost use Rattle.root_anchor.specs.Chains.{anchor_count};
ghost use Rattle.root_anchor.specs.Stored.{are_storable};
ghost use Rattle.area_states.specs.Places.{IsPlace, LiesIn, has_anchor};
ghost use Rattle.area_states.specs.States.{AreaState, HasState};

use crate::Place;
use crate::roots::kept_roots;
use ci_space::Intervals;
use fp_model::{AnchorChange, List, Root};
use root_anchor::{AnchorFault, load, rewrite};
use seq_dependents::{SeqFault, read_ends};
use std::alloc::Global;

/// The number within the area of an anchor of a database; None where it lies in another area.
pub(crate) fn anchor_in(place: &Place, dedb: u8, anchor: u32) -> Option<u32>
    ensures some { IfSome result (λ number. LiesIn place.now dedb anchor number) }
    ensures none { IfNone result (has_anchor place.now dedb anchor ≡ false) }
{
    let anchors = u64::from(place.shape.uows) * u64::from(place.shape.base);
    if place.dedb != dedb || anchor < place.first_anchor {
        return None;
    }
    let number = anchor - place.first_anchor;
    if u64::from(number) < anchors {
        Some(number)
    } else {
        None
    }
}

/// The begin of the area's sequential part.
fn begin_of<I: Intervals>(i: &mut I, place: &Place) -> Result<u64, AnchorFault>
    ensures begin { I.told i.old → IfOk result (λ begin. begin ≡ begin_of (I.intervals i.old)) }
    ensures sound { I.told i.old → IsControlOf place.now.capacity (I.intervals i.old) → (ci : ℕ)
        → result ≢ Err (AnchorFault.Damaged ci) }
    ensures failed { IsErrOf result AnchorFault.Failed → Rose (I.faults i.old) (I.faults i.new) }
    ensures same { I.told i.old → I.intervals i.new ≡ I.intervals i.old }
    ensures number { I.number i.new ≡ I.number i.old }
    ensures goes_on { GoesOn I.told I.size I.faults I.keeps i.old i.new }
{
    match read_ends(i, place.capacity) {
        Ok(ends) => Ok(ends.begin),
        Err(SeqFault::Failed) => Err(AnchorFault::Failed),
        Err(SeqFault::Damaged(ci)) => Err(AnchorFault::Damaged(ci)),
        Err(_) => Err(AnchorFault::Memory),
    }
}

/// Stores roots at an anchor, counted from 0 within the area, in place of those that it has.
fn store_here<I: Intervals>(
    alloc: Global,
    i: &mut I,
    place: &Place,
    anchor: u32,
    roots: &List<Root>,
) -> Result<(), AnchorFault>
    requires place { IsPlace place.now }
    requires size { I.size i.old ≡ place.now.shape.ci }
    requires anchor { anchor < anchor_count place.now.shape }
    requires roots { are_storable place.now.segments (map kept_root roots.now) ≡ true }
    ensures stored { I.told i.old → (state : AreaState) → HasState place.now (I.intervals i.old) state
        → AllByRecursion (HasListOf (state.roots anchor)) roots.now
        → OnOk result (HasState place.now (I.intervals i.new) (with_roots_at anchor roots.now state)) }
    ensures alone { I.told i.old → (state : AreaState) → HasState place.now (I.intervals i.old) state
        → AllByRecursion (HasListOf (state.roots anchor)) roots.now
        → ascend (map (root_key place.now.segments) (state.roots anchor)) ≡ true
        → RootsDiffer (state.roots anchor) roots.now
        → OnOk result (OneChanges (I.intervals i.old) (I.intervals i.new)) }
    ensures sound { I.told i.old → (state : AreaState) → HasState place.now (I.intervals i.old) state → (ci : ℕ)
        → result ≢ Err (AnchorFault.Damaged ci) }
    ensures failed { IsErrOf result AnchorFault.Failed → Rose (I.faults i.old) (I.faults i.new) }
    ensures number { I.number i.old ≤ I.number i.new }
    ensures goes_on { GoesOn I.told I.size I.faults I.keeps i.old i.new }
{
    let before = load(alloc, i, &place.shape, &place.segments, anchor)?;
    let begin = begin_of(i, place)?;
    let after = kept_roots(alloc, &place.segments, &before, roots, begin)?;
    rewrite(
        alloc,
        i,
        &place.shape,
        &place.segments,
        anchor,
        &before,
        &after,
    )
}

/// Stores the roots of a changed anchor, where it is one of this area.
fn store_one<I: Intervals>(
    alloc: Global,
    i: &mut I,
    place: &Place,
    change: &AnchorChange,
) -> Result<(), AnchorFault>
    requires place { IsPlace place.now }
    requires size { I.size i.old ≡ place.now.shape.ci }
    requires roots { IsStorable place.now change.now }
    ensures stored { I.told i.old → (state : AreaState) → HasState place.now (I.intervals i.old) state
        → KeepsLists place.now state change.now
        → OnOk result (HasState place.now (I.intervals i.new) (with_change place.now state change.now)) }
    ensures alone { I.told i.old → (state : AreaState) → HasState place.now (I.intervals i.old) state
        → KeepsLists place.now state change.now → AreOrdered place.now state → ChangesOne place.now state change.now
        → OnOk result (OneChanges (I.intervals i.old) (I.intervals i.new)) }
    ensures sound { I.told i.old → (state : AreaState) → HasState place.now (I.intervals i.old) state → (ci : ℕ)
        → result ≢ Err (AnchorFault.Damaged ci) }
    ensures failed { IsErrOf result AnchorFault.Failed → Rose (I.faults i.old) (I.faults i.new) }
    ensures number { I.number i.old ≤ I.number i.new }
    ensures goes_on { GoesOn I.told I.size I.faults I.keeps i.old i.new }
{
    match anchor_in(place, change.dedb, change.anchor) {
        Some(anchor) => store_here(alloc, i, place, anchor, &change.roots),
        None => Ok(()),
    }
}

/// Stores the roots of the changed anchors that are of this area, in this order, in place of those that they have. Of a
/// root's sequential list its newest serial alone is stored. Costs for each one `load` and one `rewrite` of
/// `root_anchor`, and one read of control.
///
/// `Damaged` names the interval that is damaged. After a fault what holds the intervals is thrown away.
pub fn store_all<I: Intervals>(
    alloc: Global,
    i: &mut I,
    place: &Place,
    changes: &[AnchorChange],
) -> Result<(), AnchorFault>
    requires place { IsPlace place.now }
    requires size { I.size i.old ≡ place.now.shape.ci }
    requires roots { AllByRecursion (IsStorable place.now) changes.now }

    // An area that has a state has it with these changes, where each root brings no sequential list or one that it had.
    ensures stored { I.told i.old → (state : AreaState) → HasState place.now (I.intervals i.old) state
        → AllKeepLists place.now state changes.now
        → OnOk result (HasState place.now (I.intervals i.new) (with_changes place.now changes.now state)) }

    // Where there is one changed anchor, and its roots differ in one segment, at most one interval changes.
    ensures alone { I.told i.old → (state : AreaState) → HasState place.now (I.intervals i.old) state
        → (c : ChangeOf) → changes.now ≡ c ∷ [] → KeepsLists place.now state c → AreOrdered place.now state
        → ChangesOne place.now state c → OnOk result (OneChanges (I.intervals i.old) (I.intervals i.new)) }

    // Then nothing is damaged; and it fails only with what holds the intervals.
    ensures sound { I.told i.old → (state : AreaState) → HasState place.now (I.intervals i.old) state
        → AllKeepLists place.now state changes.now → (ci : ℕ) → result ≢ Err (AnchorFault.Damaged ci) }
    ensures failed { IsErrOf result AnchorFault.Failed → Rose (I.faults i.old) (I.faults i.new) }

    // What stays, whatever the answer is.
    ensures number { I.number i.old ≤ I.number i.new }
    ensures goes_on { GoesOn I.told I.size I.faults I.keeps i.old i.new }
{
    for change in changes {
        store_one(alloc, i, place, change)?;
    }
    Ok(())
}
