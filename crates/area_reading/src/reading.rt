//! An anchor of an area is read.

ghost use Rattle.std.specs.Prelude.{◌≡◌, ◌≢◌, ◌<◌, ℕ, Err, IfOk, IsErrOf};
ghost use Rattle.ci_space.specs.Calls.{GoesOn};
ghost use Rattle.fp_lists.specs.Faults.{Rose};
ghost use Rattle.root_anchor.specs.Chains.{anchor_count};
ghost use Rattle.area_states.specs.Places.{IsPlace};
ghost use Rattle.area_states.specs.States.{AreaState, HasAnchor, HasState};
ghost use Rattle.area_reading.specs.Damage.{IsUnreadable};

use crate::lists::{ends_of, with_lists};
use area_states::Place;
use ci_space::Intervals;
use fp_model::{List, Root};
use root_anchor::{AnchorFault, load};
use std::alloc::Global;

/// Reads the roots of an anchor, each with its whole sequential list.
fn read_whole<I: Intervals>(
    alloc: Global,
    i: &mut I,
    place: &Place,
    anchor: u32,
) -> Result<List<Root>, AnchorFault>
    requires place { IsPlace place.now }
    requires size { I.size i.old ≡ place.now.shape.ci }
    requires anchor { anchor < anchor_count place.now.shape }
    ensures roots { I.told i.old → IfOk result (HasAnchor place.now (I.intervals i.old) anchor) }
    ensures damaged { I.told i.old → (ci : ℕ) → result ≡ Err (AnchorFault.Damaged ci)
        → IsUnreadable place.now (I.intervals i.old) anchor ci }
    ensures failed { IsErrOf result AnchorFault.Failed → Rose (I.faults i.old) (I.faults i.new) }
    ensures same { I.told i.old → I.intervals i.new ≡ I.intervals i.old }
    ensures number { I.number i.new ≡ I.number i.old }
    ensures goes_on { GoesOn I.told I.size I.faults I.keeps i.old i.new }
{
    let ends = ends_of(i, place)?;
    let kept = load(alloc, i, &place.shape, &place.segments, anchor)?;
    with_lists(alloc, i, place, ends, anchor, kept)
}

/// Reads the roots of an anchor, which is counted from 0 within its area, each with its whole sequential list: the one
/// from its newest serial down, as long as serials are kept. A newest serial below begin is an empty list.
///
/// `Damaged` names the interval that is at fault. Costs one read of control and one `load` of the anchor; for each root
/// with a list that isn't empty one read of control more, and of a sequential interval for each item that stands in
/// another one than the item before it.
pub fn read_anchor<I: Intervals>(
    alloc: Global,
    i: &mut I,
    place: &Place,
    anchor: u32,
) -> Result<List<Root>, AnchorFault>
    requires place { IsPlace place.now }
    requires size { I.size i.old ≡ place.now.shape.ci }
    requires anchor { anchor < anchor_count place.now.shape }

    // At `Ok` these are the anchor's roots.
    ensures roots { I.told i.old → IfOk result (HasAnchor place.now (I.intervals i.old) anchor) }

    // The interval that it names is at fault, and it names none of an area that has a state.
    ensures damaged { I.told i.old → (ci : ℕ) → result ≡ Err (AnchorFault.Damaged ci)
        → IsUnreadable place.now (I.intervals i.old) anchor ci }
    ensures sound { I.told i.old → (state : AreaState) → HasState place.now (I.intervals i.old) state → (ci : ℕ)
        → result ≢ Err (AnchorFault.Damaged ci) }

    // It fails only with what holds the intervals.
    ensures failed { IsErrOf result AnchorFault.Failed → Rose (I.faults i.old) (I.faults i.new) }

    // Nothing changes.
    ensures same { I.told i.old → I.intervals i.new ≡ I.intervals i.old }
    ensures number { I.number i.new ≡ I.number i.old }
    ensures goes_on { GoesOn I.told I.size I.faults I.keeps i.old i.new }
{
    read_whole(alloc, i, place, anchor)
}
