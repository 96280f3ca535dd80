//! The intervals that a call on an anchor holds while it works: each is read once, and put once where it changed.

ghost use Rattle.std.specs.Prelude.{◌≡◌, ◌<◌, ℕ, List, Err, IfOk, OnOk, IsOk, IsErrOf, Some, slice_get};
ghost use Rattle.std.specs.Ordering.{nat_cmp};
ghost use Rattle.std.specs.BTreeMap.{get};
ghost use Rattle.ci_space.specs.Calls.{GoesOn};
ghost use Rattle.fp_lists.specs.Faults.{Rose};
ghost use Rattle.fp_model.specs.declared.definitions.SegDef.{SegDef};
ghost use Rattle.held_intervals.specs.Holding.{overlaid, AreRead, Fit};
ghost use Rattle.root_anchor.specs.Chains.{anchor_count};
ghost use Rattle.root_anchor.specs.Damage.{ChainFails};
ghost use Rattle.root_anchor.specs.inside.Walking.{IsLook};

use crate::anchor::base_of;
use anchor_elements::{AnchorFault, interval_at};
use ci_space::{Interval, Intervals, Shape};
use held_intervals::put_all;
use std::alloc::{AllocError, Global};
use std::collections::BTreeMap;

/// What a call holds at first: the anchor's base interval. It tells the size of all.
#[derive(Drop)]
pub(crate) struct Begun {
    pub(crate) size: u16,
    pub(crate) read: BTreeMap<u64, Interval>,
}

/// One interval that was read.
fn one_read(
    alloc: Global,
    ci: u64,
    interval: Interval,
) -> Result<BTreeMap<u64, Interval>, AllocError>
    ensures { (area : List (List ℕ)) → IfOk result
        (λ read. slice_get area ci ≡ Some interval → AreRead (get nat_cmp read) area) }
{
    let mut read = BTreeMap::new(alloc);
    match read.insert(ci, interval) {
        Ok(_) => Ok(read),
        Err(_) => Err(AllocError),
    }
}

/// Reads an anchor's base interval.
pub(crate) fn begin<I: Intervals>(
    alloc: Global,
    i: &mut I,
    shape: &Shape,
    anchor: u32,
) -> Result<Begun, AnchorFault>
    requires { anchor < anchor_count shape.now }
    ensures size { IfOk result (λ begun. begun.size ≡ I.size i.old) }
    ensures read { I.told i.old → IfOk result (λ begun. AreRead (get nat_cmp begun.read) (I.intervals i.old)) }
    ensures damaged { I.told i.old → (types : List SegDef) (ci : ℕ) → result ≡ Err (AnchorFault.Damaged ci)
        → ChainFails shape.now types (I.intervals i.old) anchor ci }
    ensures failed { IsErrOf result AnchorFault.Failed → Rose (I.faults i.old) (I.faults i.new) }
    ensures look { IsLook I.told I.intervals I.number I.size I.faults I.keeps i.old i.new }
{
    let base = base_of(shape, anchor);
    let interval = interval_at(i, base, base)?;
    let size = interval.size();
    let read = one_read(alloc, base, interval)?;
    Ok(Begun { size, read })
}

/// Puts what a call changed, where it came to its end.
pub(crate) fn settle<I: Intervals>(
    i: &mut I,
    changed: BTreeMap<u64, Interval>,
    done: Result<(), AnchorFault>,
) -> Result<(), AnchorFault>
    requires { Fit (I.number i.old) (I.size i.old) (get nat_cmp changed) }
    ensures done { OnOk result (IsOk done) }
    ensures put { I.told i.old
        → OnOk result (I.intervals i.new ≡ overlaid (I.number i.old) (get nat_cmp changed) (I.intervals i.old)) }
    ensures damaged { (ci : ℕ) → result ≡ Err (AnchorFault.Damaged ci) → done ≡ Err (AnchorFault.Damaged ci) }
    ensures failed { IsErrOf result AnchorFault.Failed → IsErrOf done AnchorFault.Failed }
    ensures number { I.number i.new ≡ I.number i.old }
    ensures goes_on { GoesOn I.told I.size I.faults I.keeps i.old i.new }
{
    if let Err(fault) = done {
        return Err(fault);
    }
    match put_all(i, changed) {
        Ok(()) => Ok(()),
        Err(_) => Err(AnchorFault::Memory),
    }
}

/// No effect at run time. The proof reads here what it is.
pub(crate) fn rest<I: Intervals>(i: &mut I)
    ensures { i.new ≡ i.old }
{}
