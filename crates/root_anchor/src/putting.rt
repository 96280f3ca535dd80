//! Root anchor points that are put into an area.

ghost use Rattle.std.specs.Prelude.{◌≡◌, ◌↔◌, ◌<◌, ℕ, List, Err, IfOk, OnOk, IsErrOf, IsTrue, IsFalse, false, length, IfSome, slice_get};
ghost use Rattle.ci_space.specs.Calls.{GoesOn};
ghost use Rattle.fp_lists.specs.Faults.{Rose};
ghost use Rattle.ci_space.specs.Interval.{HasRoom, HasUsed, IsUsed, OthersStay, Keeps, SameSize};
ghost use Rattle.ci_overflow.specs.Lists.{bytes_at, IsInPlace};
ghost use Rattle.ci_overflow.specs.Places.{base_of};
ghost use Rattle.ci_overflow.specs.Rooms.{IsPut};
ghost use Rattle.root_anchor.specs.Chains.{anchor_count};
ghost use Rattle.root_anchor.specs.inside.Puts.{PutsRoot};

use crate::anchor::base_of;
use anchor_elements::{AnchorFault, Pointer, interval_at, put};
use ci_space::{Head, Intervals, Shape};

/// The kind of a base interval.
const BASE: u8 = 2;

/// Puts the root anchor point of an anchor, where it is another one.
///
/// `Damaged` names the anchor's base interval: the area ends before it, or its bytes are no interval of
/// kind 2.
pub(crate) fn put_root<I: Intervals>(
    i: &mut I,
    shape: &Shape,
    anchor: u32,
    at: Pointer,
) -> Result<(), AnchorFault>
    requires anchor { anchor < anchor_count shape.now }
    ensures put { I.told i.old → IsInPlace shape.now (I.intervals i.old) (base_of shape.now anchor)
        → OnOk result (PutsRoot shape.now (I.intervals i.old) (I.intervals i.new) anchor at) }
    ensures sound { I.told i.old → IsInPlace shape.now (I.intervals i.old) (base_of shape.now anchor) → (ci : ℕ)
        → ¬ (result ≡ Err (AnchorFault.Damaged ci)) }
    ensures damaged { (ci : ℕ) → result ≡ Err (AnchorFault.Damaged ci) → ci ≡ base_of shape.now anchor }
    ensures failed { IsErrOf result AnchorFault.Failed → Rose (I.faults i.old) (I.faults i.new) }
    ensures number { I.number i.new ≡ I.number i.old }
    ensures goes_on { GoesOn I.told I.size I.faults I.keeps i.old i.new }
{
    let base = base_of(shape, anchor);
    let mut interval = interval_at(i, base, base)?;
    let head = interval.head();
    if head.kind != BASE {
        return Err(AnchorFault::Damaged(base));
    }
    if head.root == at {
        return Ok(());
    }
    interval.set_head(Head { root: at, ..head });
    put(i, base, interval)
}
