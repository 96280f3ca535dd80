//! Where an anchor's roots stand, and their newest serials, without the segments below them.

ghost use Rattle.std.specs.Prelude.{◌≡◌, ◌≢◌, ◌<◌, ◌≤◌, ℕ, List, Err, IfOk, IfSome, IfNone, OnOk, IsErrOf};
ghost use Rattle.ci_space.specs.Calls.{GoesOn};
ghost use Rattle.fp_lists.specs.Faults.{Rose};
ghost use Rattle.anchor_elements.specs.Elements.{AreTypes};
ghost use Rattle.root_anchor.specs.Chains.{anchor_count};
ghost use Rattle.root_anchor.specs.Formed.{HasChain};
ghost use Rattle.root_anchor.specs.Roots.{HasRootAt, HasFewer, RootsAreBroken};
ghost use Rattle.root_anchor.specs.inside.Walking.{IsLook};

use crate::anchor::{base_of, root_anchor_point};
use crate::walk::is_nothing;
use anchor_elements::{AnchorFault, read_element};
use ci_space::{Intervals, Shape};
use fp_model::{List, SegDef};
use std::alloc::Global;

/// Where a root stands, and its newest serial.
#[derive(Clone, Copy, PartialEq, Eq)]
pub struct RootPlace {
    /// The interval of its element.
    pub ci: u64,

    /// The element's place in it.
    pub at: u16,

    /// The newest serial, 0 for none.
    pub newest: u64,
}

/// Where the root of a number stands, counted from 0 in the order of the pointers, and its newest serial. None where
/// the anchor has no more roots than that. An anchor is counted from 0 within its area.
///
/// A newest serial at or past the area's end is damage of the interval that this names; one below its begin is a list
/// that was purged. Costs one `get` of the base interval, and one for each root up to that one.
///
/// `Damaged` names the base interval where it isn't in its place, else the interval that is damaged by the first wrong
/// pointer from root to root. What stands below the roots is not looked at.
pub fn root_place<I: Intervals>(
    alloc: Global,
    i: &mut I,
    shape: &Shape,
    segments: &List<SegDef>,
    anchor: u32,
    number: usize,
) -> Result<Option<RootPlace>, AnchorFault>
    requires anchor { anchor < anchor_count shape.now }
    requires types { AreTypes (I.size i.old) segments.now }

    // The place is that of the root, and None comes where there are fewer.
    ensures place { I.told i.old → IfOk result (λ place. IfSome place
        (HasRootAt shape.now segments.now (I.intervals i.old) anchor number)) }
    ensures none { I.told i.old → IfOk result (λ place. IfNone place
        (HasFewer shape.now segments.now (I.intervals i.old) anchor number)) }

    // The interval that it names is damaged, and it names none where the anchor's chain stands.
    ensures damaged { I.told i.old → (ci : ℕ) → result ≡ Err (AnchorFault.Damaged ci)
        → RootsAreBroken shape.now segments.now (I.intervals i.old) anchor ci }
    ensures sound { I.told i.old → HasChain shape.now segments.now (I.intervals i.old) anchor → (ci : ℕ)
        → result ≢ Err (AnchorFault.Damaged ci) }

    // It fails only with what holds the intervals.
    ensures failed { IsErrOf result AnchorFault.Failed → Rose (I.faults i.old) (I.faults i.new) }

    // Nothing changes.
    ensures same { I.told i.old → I.intervals i.new ≡ I.intervals i.old }
    ensures number { I.number i.new ≡ I.number i.old }
    ensures goes_on { GoesOn I.told I.size I.faults I.keeps i.old i.new }
{
    let base = base_of(shape, anchor);
    let first = root_anchor_point(i, shape, anchor, base)?;
    let mut from = base;
    let mut at = first;
    let mut left = number;
    while !is_nothing(at) {
        let said = read_element(alloc, i, segments, 0, from, at)?;
        if left == 0 {
            return Ok(Some(RootPlace {
                ci: at.0,
                at: at.1,
                newest: said.serial,
            }));
        }
        left -= 1;
        from = at.0;
        at = said.next;
    }
    Ok(None)
}
