//! The places of an anchor's new segments are taken before any of them is put.
//!
//! New elements are taken one after the other, for the last segment first. So a walk for room goes on where one for an
//! element of the same length stopped.

ghost use Rattle.std.specs.Prelude.{◌≡◌, ◌≢◌, ◌<◌, ◌≤◌, ℕ, List, All, Err, IfOk, OnOk, IsErrOf, Some};
ghost use Rattle.ci_space.specs.Calls.{GoesOn};
ghost use Rattle.fp_lists.specs.Faults.{Rose};
ghost use Rattle.ci_overflow.specs.Faults.{IsAtFault};
ghost use Rattle.ci_overflow.specs.Known.{HasSeen};
ghost use Rattle.ci_overflow.specs.Lists.{IsInOrder};
ghost use Rattle.ci_overflow.specs.Places.{uow_of};
ghost use Rattle.anchor_elements.specs.Elements.{AreTypes, Pointer};
ghost use Rattle.root_anchor.specs.Chains.{anchor_count};
ghost use Rattle.root_anchor.specs.Faults.{ComesTo, FaultComes};
ghost use Rattle.root_anchor.specs.inside.Rebuilding.{ArePlaced, AreReserved, HaveRoom, IsDirect, TakesPlace, TakesPlaces, types_of};

use crate::building::{Home, fault_of};
use crate::plan::Planned;
use anchor_elements::{AnchorFault, Pointer, content_length};
use ci_overflow::{SeenFull, find_room_seen};
use ci_space::Intervals;
use std::alloc::Global;
use std::collections::VecDeque;

/// The place that is planned for a segment, or a new element with room for it.
fn take_place<I: Intervals>(
    alloc: Global,
    i: &mut I,
    home: &Home<'_>,
    planned: Planned,
    seen: &mut SeenFull,
) -> Result<Pointer, AnchorFault>
    requires anchor { home.now.anchor < anchor_count home.now.shape.now }
    requires types { AreTypes (I.size i.old) home.now.segments.now }
    requires direct { IsDirect home.now.segments.now planned.segment }
    ensures place { I.told i.old
        → HasSeen home.now.shape.now (I.intervals i.old) (uow_of home.now.shape.now home.now.anchor) seen.old
        → HaveRoom home.now.segments.now (I.intervals i.old) planned.segment planned.at
        → IfOk result (λ at. TakesPlace home.now.shape.now home.now.segments.now (I.intervals i.old) (I.intervals i.new)
        home.now.anchor planned.segment planned.at at) }
    ensures seen { I.told i.old
        → HasSeen home.now.shape.now (I.intervals i.old) (uow_of home.now.shape.now home.now.anchor) seen.old
        → OnOk result (HasSeen home.now.shape.now (I.intervals i.new) (uow_of home.now.shape.now home.now.anchor)
        seen.new) }
    ensures planned { (planned_at : Pointer) → planned.at ≡ Some planned_at → IfOk result (λ at. at ≡ planned_at) }
    ensures comes { I.told i.old
        → HasSeen home.now.shape.now (I.intervals i.old) (uow_of home.now.shape.now home.now.anchor) seen.old
        → (elements : List Pointer) → OnOk result (ComesTo home.now.shape.now home.now.anchor elements
        (I.intervals i.old) (I.intervals i.new)) }
    ensures damaged { I.told i.old
        → HasSeen home.now.shape.now (I.intervals i.old) (uow_of home.now.shape.now home.now.anchor) seen.old
        → (ci : ℕ) → result ≡ Err (AnchorFault.Damaged ci) → IsAtFault home.now.shape.now (I.intervals i.old) ci }
    ensures failed { IsErrOf result AnchorFault.Failed → Rose (I.faults i.old) (I.faults i.new) }
    ensures number { I.number i.old ≤ I.number i.new }
    ensures goes_on { GoesOn I.told I.size I.faults I.keeps i.old i.new }
{
    if let Some(at) = planned.at {
        return Ok(at);
    }
    let length = content_length(home.segments, planned.segment) as u16;
    match find_room_seen(alloc, i, home.shape, home.anchor, length, seen) {
        Ok(at) => Ok(at),
        Err(fault) => Err(fault_of(fault)),
    }
}

/// A plan in which each segment has a place: that which it has in this plan, or a new element.
pub(crate) fn take_places<I: Intervals>(
    alloc: Global,
    i: &mut I,
    home: &Home<'_>,
    plan: &mut VecDeque<Planned>,
) -> Result<VecDeque<Planned>, AnchorFault>
    requires anchor { home.now.anchor < anchor_count home.now.shape.now }
    requires types { AreTypes (I.size i.old) home.now.segments.now }
    requires direct { All (IsDirect home.now.segments.now) (types_of plan.old.items) }
    ensures taken { I.told i.old → AreReserved home.now.segments.now (I.intervals i.old) plan.old.items
        → IfOk result (λ taken. TakesPlaces home.now.shape.now home.now.segments.now (I.intervals i.old)
        (I.intervals i.new) home.now.anchor plan.old.items taken.items) }
    ensures kept { ArePlaced plan.old.items → IfOk result (λ taken. taken.items ≡ plan.old.items) }
    ensures sound { I.told i.old → IsInOrder home.now.shape.now (I.intervals i.old)
        → AreReserved home.now.segments.now (I.intervals i.old) plan.old.items
        → (ci : ℕ) → result ≢ Err (AnchorFault.Damaged ci) }
    ensures lists { I.told i.old → (elements : List Pointer) (ci : ℕ) → result ≡ Err (AnchorFault.Damaged ci)
        → FaultComes home.now.shape.now home.now.anchor elements (I.intervals i.old) ci }
    ensures failed { IsErrOf result AnchorFault.Failed → Rose (I.faults i.old) (I.faults i.new) }
    ensures number { I.number i.old ≤ I.number i.new }
    ensures goes_on { GoesOn I.told I.size I.faults I.keeps i.old i.new }
{
    let mut seen = SeenFull::new(alloc);
    let mut taken = VecDeque::new(alloc);
    while let Some(planned) = plan.pop_back() {
        let at = take_place(alloc, i, home, planned, &mut seen)?;
        let placed = Planned {
            segment: planned.segment,
            at: Some(at),
        };
        match taken.push_front(placed) {
            Ok(()) => {}
            Err(_) => return Err(AnchorFault::Memory),
        }
    }
    Ok(taken)
}
