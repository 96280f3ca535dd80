//! The roots of an anchor, read from its elements.

ghost use Rattle.std.specs.Prelude.{◌≡◌, ◌≢◌, ◌<◌, ℕ, Err, IfOk, OnOk, IsOk, IsErrOf, true};
ghost use Rattle.ci_space.specs.Calls.{GoesOn};
ghost use Rattle.fp_lists.specs.Faults.{Rose};
ghost use Rattle.anchor_elements.specs.declared.fault.AnchorFault.{AnchorFault as AnchorFaultOf};
ghost use Rattle.root_anchor.specs.Chains.{anchor_count};
ghost use Rattle.root_anchor.specs.Damage.{ChainFails};
ghost use Rattle.root_anchor.specs.Formed.{HasRoots, HasChain};
ghost use Rattle.root_anchor.specs.Stored.{are_storable};
ghost use Rattle.anchor_elements.specs.Elements.{AreTypes};

use crate::anchor::{Walked, walk_anchor};
use crate::holding::{Begun, begin, rest};
use anchor_elements::AnchorFault;
use ci_space::{Intervals, Shape};
use fp_model::{List, Root, SegDef};
use held_intervals::Held;
use std::alloc::Global;

/// The roots that a walk read.
fn roots_of(walked: Result<Walked, AnchorFault>) -> Result<List<Root>, AnchorFault>
    ensures same { IfOk result (λ roots. IfOk walked (λ walked. roots ≡ walked.roots)) }
    ensures walked { OnOk result (IsOk walked) }
    ensures err { (fault : AnchorFaultOf) → result ≡ Err fault → walked ≡ Err fault }
{
    match walked {
        Ok(Walked { roots, .. }) => Ok(roots),
        Err(fault) => Err(fault),
    }
}

/// The roots of an anchor in the order in which their pointers give them, each with all below it. A root's sequential
/// list has its newest serial alone, without bytes, or nothing for 0. An anchor is counted from 0 within its area.
///
/// `Damaged` names the interval that is damaged where the pointers give no roots: the base interval where it isn't in
/// its place; the one that a pointer leads to, where its bytes are no interval or the element there has not the form of
/// its type; else the one that holds a pointer which leads to no element of its type or to one that was met before. The
/// order of keys is not looked at.
pub fn load<I: Intervals>(
    alloc: Global,
    i: &mut I,
    shape: &Shape,
    segments: &List<SegDef>,
    anchor: u32,
) -> Result<List<Root>, AnchorFault>
    requires anchor { anchor < anchor_count shape.now }
    requires types { AreTypes (I.size i.old) segments.now }

    // At `Ok` these are the anchor's roots.
    ensures roots { I.told i.old → IfOk result (HasRoots shape.now segments.now (I.intervals i.old) anchor) }

    // They may be stored again: each segment has the length of its type, and one row for each direct child type is
    // below it. That is so whatever the area tells.
    ensures form { IfOk result (λ roots. are_storable segments.now roots ≡ true) }

    // The interval that it names is damaged, and it names none where the anchor's chain stands.
    ensures damaged { I.told i.old → (ci : ℕ) → result ≡ Err (AnchorFault.Damaged ci)
        → ChainFails shape.now segments.now (I.intervals i.old) anchor ci }
    ensures sound { I.told i.old → HasChain shape.now segments.now (I.intervals i.old) anchor → (ci : ℕ)
        → result ≢ Err (AnchorFault.Damaged ci) }

    // It fails only with what holds the intervals.
    ensures failed { IsErrOf result AnchorFault.Failed → Rose (I.faults i.old) (I.faults i.new) }

    // Nothing changes.
    ensures same { I.told i.old → I.intervals i.new ≡ I.intervals i.old }
    ensures number { I.number i.new ≡ I.number i.old }
    ensures goes_on { GoesOn I.told I.size I.faults I.keeps i.old i.new }
{
    let Begun { size, read } = begin(alloc, i, shape, anchor)?;
    let mut held = Held::new(alloc, i, size, read);
    let walked = walk_anchor(alloc, &mut held, shape, segments, anchor, false);
    let Held {
        alloc: _,
        under,
        size: _,
        read: _,
        changed: _,
    } = held;
    rest(under);
    roots_of(walked)
}
