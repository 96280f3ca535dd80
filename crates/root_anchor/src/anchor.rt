//! The whole walk over an anchor, from its root anchor point on.

ghost use Rattle.std.specs.Prelude.{◌≡◌, true, ◌<◌, ℕ, Err, IfOk, OnOk, IsErrOf};
ghost use Rattle.ci_space.specs.Calls.{GoesOn};
ghost use Rattle.fp_lists.specs.Faults.{Rose};
ghost use Rattle.ci_overflow.specs.Lists.{IsInPlace};
ghost use Rattle.ci_overflow.specs.Places.{base_of};
ghost use Rattle.root_anchor.specs.Chains.{anchor_count, root_of};
ghost use Rattle.root_anchor.specs.Damage.{ChainFails};
ghost use Rattle.root_anchor.specs.inside.Standing.{AreKeyed};
ghost use Rattle.anchor_elements.specs.Elements.{AreTypes};
ghost use Rattle.root_anchor.specs.Stored.{are_storable};
ghost use Rattle.root_anchor.specs.inside.Walking.{IsLook, IsWalked};

use crate::standing::Standing;
use crate::walk::{Walk, roots};
use anchor_elements::{AnchorFault, Pointer, interval_at};
use ci_space::{Intervals, Shape};
use fp_model::{List, Root, SegDef};
use std::alloc::Global;

/// The kind of a base interval.
const BASE: u8 = 2;

/// What the walk over an anchor gives.
#[derive(Drop)]
pub(crate) struct Walked {
    pub(crate) roots: List<Root>,
    /// The elements in which they stand, with all below them, in hierarchical order.
    pub(crate) met: Vec<Standing>,
}

/// The base interval of an anchor.
pub(crate) fn base_of(shape: &Shape, anchor: u32) -> u64
    requires { anchor < anchor_count shape.now }
    ensures { result ≡ base_of shape.now anchor }
{
    let base = u32::from(shape.base);
    let unit = u64::from(shape.base) + u64::from(shape.overflow);
    1 + u64::from(anchor / base) * unit + u64::from(anchor % base)
}

/// The root anchor point in an anchor's base interval.
pub(crate) fn root_anchor_point<I: Intervals>(
    i: &mut I,
    shape: &Shape,
    anchor: u32,
    base: u64,
) -> Result<Pointer, AnchorFault>
    requires anchor { anchor < anchor_count shape.now }
    requires base { base ≡ base_of shape.now anchor }
    ensures root { I.told i.old → IfOk result (λ at. at ≡ root_of shape.now (I.intervals i.old) anchor) }
    ensures in_place { I.told i.old → OnOk result (IsInPlace shape.now (I.intervals i.old) (base_of shape.now anchor)) }
    ensures damaged { I.told i.old → (types : List SegDef) (ci : ℕ) → result ≡ Err (AnchorFault.Damaged ci)
        → ChainFails shape.now types (I.intervals i.old) anchor ci }
    ensures no_base { I.told i.old → (ci : ℕ) → result ≡ Err (AnchorFault.Damaged ci)
        → (ci ≡ base_of shape.now anchor)
        × (¬ IsInPlace shape.now (I.intervals i.old) (base_of shape.now anchor)) }
    ensures failed { IsErrOf result AnchorFault.Failed → Rose (I.faults i.old) (I.faults i.new) }
    ensures look { IsLook I.told I.intervals I.number I.size I.faults I.keeps i.old i.new }
{
    let interval = interval_at(i, base, base)?;
    let head = interval.head();
    if head.kind != BASE {
        return Err(AnchorFault::Damaged(base));
    }
    Ok(head.root)
}

/// Walks over an anchor. The keys of what it met are there where they are wanted.
pub(crate) fn walk_anchor<I: Intervals>(
    alloc: Global,
    i: &mut I,
    shape: &Shape,
    segments: &List<SegDef>,
    anchor: u32,
    keyed: bool,
) -> Result<Walked, AnchorFault>
    requires anchor { anchor < anchor_count shape.now }
    requires types { AreTypes (I.size i.old) segments.now }
    ensures walked { I.told i.old → IfOk result (IsWalked shape.now segments.now (I.intervals i.old) anchor) }
    ensures form { IfOk result (λ walked. are_storable segments.now walked.roots ≡ true) }
    ensures keys { I.told i.old → keyed ≡ true → IfOk result
        (λ walked. AreKeyed segments.now (I.intervals i.old) walked.met.items) }
    ensures damaged { I.told i.old → (ci : ℕ) → result ≡ Err (AnchorFault.Damaged ci)
        → ChainFails shape.now segments.now (I.intervals i.old) anchor ci }
    ensures failed { IsErrOf result AnchorFault.Failed → Rose (I.faults i.old) (I.faults i.new) }
    ensures look { IsLook I.told I.intervals I.number I.size I.faults I.keeps i.old i.new }
{
    let base = base_of(shape, anchor);
    let first = root_anchor_point(i, shape, anchor, base)?;
    let mut walk = Walk::new(alloc, keyed);
    let roots = roots(alloc, i, &mut walk, segments, base, first)?;
    let Walk { met, .. } = walk;
    Ok(Walked { roots, met })
}
