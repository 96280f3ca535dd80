//! Changes that are put into the area.

ghost use Rattle.std.specs.Prelude.{◌≡◌, ℕ, OnOk};
ghost use Rattle.std.specs.Ordering.{nat_cmp};
ghost use Rattle.std.specs.BTreeMap.{get};
ghost use Rattle.ci_space.specs.Calls.{GoesOn};
ghost use Rattle.held_intervals.specs.Holding.{overlaid, Fit};

use ci_space::{Interval, Intervals, Memory};
use std::collections::BTreeMap;

/// Puts each interval that is held as changed, in the order of their numbers.
pub fn put_all<I: Intervals>(i: &mut I, changed: BTreeMap<u64, Interval>) -> Result<(), Memory>
    requires { Fit (I.number i.old) (I.size i.old) (get nat_cmp changed) }
    ensures put { I.told i.old
        → OnOk result (I.intervals i.new ≡ overlaid (I.number i.old) (get nat_cmp changed) (I.intervals i.old)) }
    ensures number { I.number i.new ≡ I.number i.old }
    ensures goes_on { GoesOn I.told I.size I.faults I.keeps i.old i.new }
{
    let mut left = changed;
    while let Some((ci, interval)) = left.pop_first() {
        i.put(ci, interval)?;
    }
    Ok(())
}
