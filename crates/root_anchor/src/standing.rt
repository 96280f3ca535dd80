//! The elements in which an anchor's segments stand.

ghost use Rattle.std.specs.Prelude.{◌≡◌, ◌<◌, ℕ, Err, IfOk, IsErrOf};
ghost use Rattle.ci_space.specs.Calls.{GoesOn};
ghost use Rattle.fp_lists.specs.Faults.{Rose};
ghost use Rattle.root_anchor.specs.Chains.{anchor_count};
ghost use Rattle.root_anchor.specs.Damage.{ChainFails};
ghost use Rattle.root_anchor.specs.inside.Standing.{AreStanding, AreInTurn, AreKeyed};
ghost use Rattle.anchor_elements.specs.Elements.{AreTypes};

use crate::anchor::{Walked, walk_anchor};
use anchor_elements::{AnchorFault, Pointer};
use ci_space::{Intervals, Shape};
use fp_model::{Bytes, List, SegDef};
use std::alloc::Global;

/// An element in which a segment stands.
#[derive(Drop)]
pub(crate) struct Standing {
    /// The number of its segment type.
    pub(crate) segment: u8,
    pub(crate) at: Pointer,
    /// The segment's key: its first field.
    pub(crate) key: Bytes,
}

/// The elements of an anchor's segments, in hierarchical order.
pub(crate) fn elements_of<I: Intervals>(
    alloc: Global,
    i: &mut I,
    shape: &Shape,
    segments: &List<SegDef>,
    anchor: u32,
) -> Result<Vec<Standing>, AnchorFault>
    requires anchor { anchor < anchor_count shape.now }
    requires types { AreTypes (I.size i.old) segments.now }
    ensures standing { I.told i.old → IfOk result (λ list. AreStanding shape.now segments.now (I.intervals i.old) anchor
        list.items) }
    ensures in_turn { I.told i.old → IfOk result (λ list. AreInTurn shape.now segments.now (I.intervals i.old) anchor
        list.items) }
    ensures keys { I.told i.old → IfOk result (λ list. AreKeyed segments.now (I.intervals i.old) list.items) }
    ensures damaged { I.told i.old → (ci : ℕ) → result ≡ Err (AnchorFault.Damaged ci)
        → ChainFails shape.now segments.now (I.intervals i.old) anchor ci }
    ensures failed { IsErrOf result AnchorFault.Failed → Rose (I.faults i.old) (I.faults i.new) }
    ensures same { I.told i.old → I.intervals i.new ≡ I.intervals i.old }
    ensures number { I.number i.new ≡ I.number i.old }
    ensures goes_on { GoesOn I.told I.size I.faults I.keeps i.old i.new }
{
    let Walked { met, .. } = walk_anchor(alloc, i, shape, segments, anchor, true)?;
    Ok(met)
}
