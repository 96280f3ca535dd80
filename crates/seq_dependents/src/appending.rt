//! New sequential dependents are put behind those that are there.

ghost use Rattle.std.specs.Prelude.{
  ◌≡◌,
  ◌≢◌,
  ◌↔◌,
  ◌+◌,
  ◌-◌,
  ◌<◌,
  ◌≤◌,
  ℕ,
  length,
  All,
  Err,
  IfOk,
  OnOk,
  IsErrOf,
  IsOk,
  None,
  IsTrue,
  ◌^◌,
};
ghost use Rattle.std.specs.Ordering.{nat_cmp};
ghost use Rattle.std.specs.BTreeMap.{get};
ghost use Rattle.held_intervals.specs.Holding.{overlaid, Fit};
ghost use Rattle.ci_space.specs.Calls.{GoesOn};
ghost use Rattle.fp_lists.specs.Faults.{Rose};
ghost use Rattle.ci_space.specs.Interval.{IsInterval, kind_of};
ghost use Rattle.ci_overflow.specs.Lists.{bytes_at};
ghost use Rattle.seq_dependents.specs.Control.{AreEnds, IsControlOf, begin_of, end_of};
ghost use Rattle.seq_dependents.specs.Faults.{IsAtFault};
ghost use Rattle.seq_dependents.specs.Puts.{Appends, IsTooMany, IsFullOf, segment_size};
ghost use Rattle.seq_dependents.specs.Slots.{HoldsCapacity, part_of};

use crate::SeqFault;
use crate::control::{Control, Ends, LAST, get_control_of, put_ends};
use crate::part::Part;
use crate::writing::fill;
use ci_space::{Interval, Intervals, Shape};
use fp_model::{Bytes, List};
use held_intervals::{Held, put_all};
use std::alloc::Global;
use std::collections::BTreeMap;

/// Whether a part with so many slots is too full for `n` more serials.
fn is_full(ends: Ends, capacity: u32, n: u64) -> bool
    requires ends { AreEnds ends.begin ends.end }
    requires counted { ends.end - ends.begin ≤ capacity }
    ensures { IsTrue result ↔ IsTooMany capacity ends.begin ends.end n }
{
    u64::from(capacity) - (ends.end - ends.begin) < n || LAST - ends.end < n
}

/// The bytes of each of these segments, which fit into an interval of `ci` bytes.
fn segment_in(ci: u16, items: &[Bytes]) -> u16
    requires some { 0 < length items.now }
    requires fits { 48 + segment_size items.now ≤ ci }
    ensures { result ≡ segment_size items.now }
{
    items[0].len() as u16
}

/// The part for these segments.
#[tactic(auto, using(crate::proofs::Appends::segment_fits))]
fn part_for(shape: &Shape, capacity: u32, items: &[Bytes]) -> Part
    requires some { 0 < length items.now }
    requires holds { HoldsCapacity (part_of shape.now capacity (segment_size items.now)) }
    ensures { result ≡ part_of shape.now capacity (segment_size items.now) }
{
    Part {
        shape: *shape,
        capacity,
        segment: segment_in(shape.ci, items),
    }
}

/// Puts segments behind the serials that are kept, and moves control's end, through intervals that are held.
fn put_held<I: Intervals>(
    alloc: Global,
    i: &mut I,
    part: &Part,
    control: Control,
    previous: u64,
    items: &[Bytes],
) -> Result<(), SeqFault>
    requires holds { HoldsCapacity part.now }
    requires whole { All (λ item. length item ≡ part.now.segment) items.now }
    requires few { control.ends.end - control.ends.begin + length items.now ≤ part.now.capacity }
    requires bound { control.ends.end + length items.now ≤ 2 ^ 62 }
    requires ends { AreEnds control.ends.begin control.ends.end }
    requires below { 0 < I.number i.old }
    requires kind { kind_of control.interval ≡ 1 }
    requires size { length control.interval ≡ I.size i.old }
    requires interval { IsInterval control.interval }
    ensures appended { I.told i.old → control.interval ≡ bytes_at (I.intervals i.old) 0
        → control.ends.begin ≡ begin_of (I.intervals i.old) → control.ends.end ≡ end_of (I.intervals i.old)
        → OnOk result (Appends part.now (I.intervals i.old) (I.intervals i.new) previous items.now) }
    ensures failed { IsErrOf result SeqFault.Failed → Rose (I.faults i.old) (I.faults i.new) }
    ensures damaged { I.told i.old → (n : ℕ) → result ≡ Err (SeqFault.Damaged n)
        → IsAtFault part.now (I.intervals i.old) n }
    ensures never_full { (begin end n : ℕ) → result ≢ Err (SeqFault.Full begin end n) }
    ensures number { I.number i.new ≡ I.number i.old }
    ensures goes_on { GoesOn I.told I.size I.faults I.keeps i.old i.new }
{
    let Control { interval, ends } = control;
    fill(alloc, i, part, ends.end, previous, items)?;
    let ends = Ends {
        begin: ends.begin,
        end: ends.end + items.len() as u64,
    };
    put_ends(i, interval, ends)
}

/// Puts what a call changed, where it came to its end.
fn settle<I: Intervals>(
    i: &mut I,
    changed: BTreeMap<u64, Interval>,
    done: Result<(), SeqFault>,
) -> Result<(), SeqFault>
    requires { Fit (I.number i.old) (I.size i.old) (get nat_cmp changed) }
    ensures done { OnOk result (IsOk done) }
    ensures put { I.told i.old
        → OnOk result (I.intervals i.new ≡ overlaid (I.number i.old) (get nat_cmp changed) (I.intervals i.old)) }
    ensures damaged { (ci : ℕ) → result ≡ Err (SeqFault.Damaged ci) → done ≡ Err (SeqFault.Damaged ci) }
    ensures full { (begin end n : ℕ) → result ≡ Err (SeqFault.Full begin end n)
        → done ≡ Err (SeqFault.Full begin end n) }
    ensures failed { IsErrOf result SeqFault.Failed → IsErrOf done SeqFault.Failed }
    ensures number { I.number i.new ≡ I.number i.old }
    ensures goes_on { GoesOn I.told I.size I.faults I.keeps i.old i.new }
{
    if let Err(fault) = done {
        return Err(fault);
    }
    match put_all(i, changed) {
        Ok(()) => Ok(()),
        Err(_) => Err(SeqFault::Memory),
    }
}

/// No interval.
fn no_intervals(alloc: Global) -> BTreeMap<u64, Interval>
    ensures { (ci : ℕ) → get nat_cmp result ci ≡ None }
{
    BTreeMap::new(alloc)
}

/// No effect at run time. The proof reads here what it is.
fn rest<I: Intervals>(i: &mut I)
    ensures { i.new ≡ i.old }
{}

/// Puts segments behind the serials that are kept, and moves control's end.
fn put_behind<I: Intervals>(
    alloc: Global,
    i: &mut I,
    part: &Part,
    control: Control,
    previous: u64,
    items: &[Bytes],
) -> Result<(), SeqFault>
    requires holds { HoldsCapacity part.now }
    requires whole { All (λ item. length item ≡ part.now.segment) items.now }
    requires few { control.ends.end - control.ends.begin + length items.now ≤ part.now.capacity }
    requires bound { control.ends.end + length items.now ≤ 2 ^ 62 }
    requires ends { AreEnds control.ends.begin control.ends.end }
    requires below { 0 < I.number i.old }
    requires kind { kind_of control.interval ≡ 1 }
    requires size { length control.interval ≡ I.size i.old }
    requires interval { IsInterval control.interval }
    ensures appended { I.told i.old → control.interval ≡ bytes_at (I.intervals i.old) 0
        → control.ends.begin ≡ begin_of (I.intervals i.old) → control.ends.end ≡ end_of (I.intervals i.old)
        → OnOk result (Appends part.now (I.intervals i.old) (I.intervals i.new) previous items.now) }
    ensures failed { IsErrOf result SeqFault.Failed → Rose (I.faults i.old) (I.faults i.new) }
    ensures damaged { I.told i.old → (n : ℕ) → result ≡ Err (SeqFault.Damaged n)
        → IsAtFault part.now (I.intervals i.old) n }
    ensures never_full { (begin end n : ℕ) → result ≢ Err (SeqFault.Full begin end n) }
    ensures number { I.number i.new ≡ I.number i.old }
    ensures goes_on { GoesOn I.told I.size I.faults I.keeps i.old i.new }
{
    let size = control.interval.size();
    let mut held = Held::new(alloc, i, size, no_intervals(alloc));
    let put = put_held(alloc, &mut held, part, control, previous, items);
    let Held {
        alloc: _,
        under,
        size: _,
        read: _,
        changed,
    } = held;
    let result = settle(under, changed, put);
    rest(under);
    result
}

/// Appends the sequential dependents of a root, which get consecutive serials from `end` on, and gives
/// the newest of these. The first is linked to `previous`, the newest serial that the root has, or 0
/// for none. Costs one read and one write of control, and of each interval that gets an item.
pub fn append<I: Intervals>(
    alloc: Global,
    i: &mut I,
    shape: &Shape,
    capacity: u32,
    previous: u64,
    items: &List<Bytes>,
) -> Result<u64, SeqFault>
    requires some { 0 < length items.now }
    requires whole { All (λ item. length item ≡ segment_size items.now) items.now }
    requires holds { HoldsCapacity (part_of shape.now capacity (segment_size items.now)) }

    // At `Ok` the items stand in their slots, linked, and every serial that is kept stays.
    ensures appended { I.told i.old → OnOk result (Appends (part_of shape.now capacity (segment_size items.now))
        (I.intervals i.old) (I.intervals i.new) previous items.now) }
    ensures newest { I.told i.old → IfOk result (λ newest. newest + 1 ≡ end_of (I.intervals i.old) + length items.now) }

    // It is full exactly by the count, and nothing has changed then.
    ensures room { I.told i.old → OnOk result (¬ IsTooMany capacity (begin_of (I.intervals i.old))
        (end_of (I.intervals i.old)) (length items.now)) }
    ensures full { I.told i.old → (begin end n : ℕ) → result ≡ Err (SeqFault.Full begin end n)
        → IsFullOf capacity (I.intervals i.old) (length items.now) begin end n }
    ensures unchanged { I.told i.old → (begin end n : ℕ) → result ≡ Err (SeqFault.Full begin end n)
        → I.intervals i.new ≡ I.intervals i.old }

    // The interval that it names is at fault, or what holds the intervals failed; where control is damaged, it is
    // neither done nor full.
    ensures sound { I.told i.old → OnOk result (IsControlOf capacity (I.intervals i.old)) }
    ensures full_sound { I.told i.old → (begin end n : ℕ) → result ≡ Err (SeqFault.Full begin end n)
        → IsControlOf capacity (I.intervals i.old) }
    ensures damaged { I.told i.old → (n : ℕ) → result ≡ Err (SeqFault.Damaged n)
        → IsAtFault (part_of shape.now capacity (segment_size items.now)) (I.intervals i.old) n }
    ensures failed { IsErrOf result SeqFault.Failed → Rose (I.faults i.old) (I.faults i.new) }

    ensures number { I.number i.new ≡ I.number i.old }
    ensures goes_on { GoesOn I.told I.size I.faults I.keeps i.old i.new }
{
    let part = part_for(shape, capacity, items.as_slice());
    let control = get_control_of(i, capacity)?;
    let Ends { begin, end } = control.ends;
    let n = items.len() as u64;
    if is_full(control.ends, capacity, n) {
        return Err(SeqFault::Full { begin, end, n });
    }
    put_behind(alloc, i, &part, control, previous, items.as_slice())?;
    Ok(end + n - 1)
}
