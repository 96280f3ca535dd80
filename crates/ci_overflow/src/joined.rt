//! An independent overflow interval that joins the list of a unit of work: the first of the free chain,
//! or a new one.

ghost use Rattle.std.specs.Prelude.{◌≡◌, ◌≢◌, ◌⊎◌, ◌<◌, ◌≤◌, ◌+◌, ◌*◌, ◌^◌, ℕ, List, length, IfOk, OnOk, IsErrOf};
ghost use Rattle.ci_space.specs.Calls.{GoesOn};
ghost use Rattle.fp_lists.specs.Faults.{Rose};
ghost use Rattle.ci_space.specs.Interval.{IsInterval, IsFull, kind_of};
ghost use Rattle.ci_overflow.specs.Places.{first_base, first_independent};
ghost use Rattle.ci_overflow.specs.Lists.{bytes_at, link_of, owner_of, counted, first_free};
ghost use Rattle.ci_overflow.specs.Rooms.{Joins, PutsEnds, IsGrown, JoinsFree, JoinsNew};
ghost use Rattle.ci_overflow.specs.Faults.{FitsEmpty, IsAtFault, IsNotThere};

use crate::SpaceFault;
use crate::places::{BASE, CONTROL, INDEPENDENT, first_base, first_independent};
use crate::reading::{Place, read, write};
use ci_space::{GetFault, Head, Interval, Intervals, Shape};

/// Puts an independent overflow interval to the front of the list of a unit of work, and takes an
/// element of it.
fn join<I: Intervals>(
    i: &mut I,
    shape: &Shape,
    uow: u32,
    ci: u64,
    mut interval: Interval,
    needed: u16,
) -> Result<u16, SpaceFault>
    requires in_range { ci < I.number i.old }
    requires size { length interval ≡ I.size i.old }
    requires interval { IsInterval interval }
    requires kind { kind_of interval ≡ 5 }
    requires behind { first_base shape.now uow < ci }
    ensures joined { I.told i.old → IfOk result (Joins shape.now uow (I.intervals i.old) (I.intervals i.new) ci interval
        needed) }
    ensures failed { IsErrOf result SpaceFault.Failed → Rose (I.faults i.old) (I.faults i.new) }
    ensures damaged { I.told i.old → (n : ℕ) → result ≡ Err (SpaceFault.Damaged n)
        → IsNotThere (I.intervals i.old) (record {
          ci = first_base shape.now uow;
          kind = 2;
          owner = 0;
          from =
              first_base shape.now uow;
        }) n ⊎ ((n ≡ ci) × IsFull interval needed) }
    ensures number { I.number i.new ≡ I.number i.old }
    ensures goes_on { GoesOn I.told I.size I.faults I.keeps i.old i.new }
{
    let first = first_base(shape, uow);
    let place = Place {
        ci: first,
        kind: BASE,
        owner: 0,
        from: first,
    };
    let mut base = read(i, place)?;
    let head = base.head();
    base.set_head(Head { link: ci, ..head });
    interval.set_head(Head {
        kind: INDEPENDENT,
        root: (0, 0),
        link: head.link,
        owner: u64::from(uow) + 1,
    });
    match interval.take(needed) {
        None => Err(SpaceFault::Damaged(ci)),
        Some(at) => {
            write(i, first, base)?;
            write(i, ci, interval)?;
            Ok(at)
        }
    }
}

/// Puts control with these last two numbers.
pub fn put_counts<I: Intervals>(
    i: &mut I,
    mut control: Interval,
    number: u64,
    first: u64,
) -> Result<(), SpaceFault>
    requires in_range { 0 < I.number i.old }
    requires size { length control ≡ I.size i.old }
    requires kind { kind_of control ≡ 1 }
    requires interval { IsInterval control }
    ensures put { I.told i.old → OnOk result (PutsEnds control number first (I.intervals i.old) (I.intervals i.new)) }
    ensures never_failed { ¬ IsErrOf result SpaceFault.Failed }
    ensures never_damaged { (n : ℕ) → result ≢ Err (SpaceFault.Damaged n) }
    ensures number { I.number i.new ≡ I.number i.old }
    ensures goes_on { GoesOn I.told I.size I.faults I.keeps i.old i.new }
{
    let ends = control.ends();
    control.set_ends([ends[0], ends[1], number, first]);
    write(i, 0, control)
}

/// Takes the first interval of the free chain out of it, which `control` tells and which is empty.
pub fn join_free<I: Intervals>(
    i: &mut I,
    shape: &Shape,
    uow: u32,
    control: Interval,
    needed: u16,
) -> Result<(u64, u16), SpaceFault>
    requires size { length control ≡ I.size i.old }
    requires kind { kind_of control ≡ 1 }
    requires interval { IsInterval control }
    requires uow { uow < shape.now.uows }
    requires base { 0 < shape.now.base }
    ensures joined { I.told i.old → control ≡ bytes_at (I.intervals i.old) 0
        → IfOk result (JoinsFree shape.now uow (I.intervals i.old) (I.intervals i.new) needed) }
    ensures in_range { IfOk result (λ room. room.0 < I.number i.new) }
    ensures failed { IsErrOf result SpaceFault.Failed → Rose (I.faults i.old) (I.faults i.new) }
    ensures damaged { I.told i.old → control ≡ bytes_at (I.intervals i.old) 0 → first_free (I.intervals i.old) ≢ 0
        → FitsEmpty (I.size i.old) needed
        → (n : ℕ) → result ≡ Err (SpaceFault.Damaged n) → IsAtFault shape.now (I.intervals i.old) n }
    ensures number { I.number i.new ≡ I.number i.old }
    ensures goes_on { GoesOn I.told I.size I.faults I.keeps i.old i.new }
{
    let ends = control.ends();
    let ci = ends[3];
    if ci < first_independent(shape) {
        return Err(SpaceFault::Damaged(0));
    }
    let place = Place {
        ci,
        kind: INDEPENDENT,
        owner: 0,
        from: 0,
    };
    let interval = read(i, place)?;
    if !interval.is_empty() {
        return Err(SpaceFault::Damaged(ci));
    }
    let next = interval.head().link;
    put_counts(i, control, ends[2], next)?;
    let at = join(i, shape, uow, ci, interval, needed)?;
    Ok((ci, at))
}

/// Adds an interval to the area, which `control` then counts.
pub fn join_new<I: Intervals>(
    i: &mut I,
    shape: &Shape,
    uow: u32,
    control: Interval,
    needed: u16,
) -> Result<(u64, u16), SpaceFault>
    requires size { length control ≡ I.size i.old }
    requires kind { kind_of control ≡ 1 }
    requires interval { IsInterval control }
    requires uow { uow < shape.now.uows }
    requires base { 0 < shape.now.base }
    ensures joined { I.told i.old → control ≡ bytes_at (I.intervals i.old) 0
        → IfOk result (JoinsNew shape.now uow (I.intervals i.old) (I.intervals i.new) needed) }
    ensures in_range { IfOk result (λ room. room.0 < I.number i.new) }
    ensures failed { IsErrOf result SpaceFault.Failed → Rose (I.faults i.old) (I.faults i.new) }
    ensures damaged { I.told i.old → control ≡ bytes_at (I.intervals i.old) 0 → FitsEmpty (I.size i.old) needed
        → (n : ℕ) → result ≡ Err (SpaceFault.Damaged n) → IsAtFault shape.now (I.intervals i.old) n }
    ensures number { I.number i.old ≤ I.number i.new }
    ensures goes_on { GoesOn I.told I.size I.faults I.keeps i.old i.new }
{
    let ends = control.ends();
    let ci = i.count();
    if ci < first_independent(shape) || ends[2] != ci - first_independent(shape) {
        return Err(SpaceFault::Damaged(0));
    }
    extend(i)?;
    put_counts(i, control, ends[2] + 1, ends[3])?;
    let place = Place {
        ci,
        kind: INDEPENDENT,
        owner: 0,
        from: ci,
    };
    let interval = read(i, place)?;
    let at = join(i, shape, uow, ci, interval, needed)?;
    Ok((ci, at))
}

/// Adds an empty interval at the end.
fn extend<I: Intervals>(i: &mut I) -> Result<(), SpaceFault>
    ensures grown { I.told i.old → OnOk result (IsGrown (I.size i.old) (I.intervals i.old) (I.intervals i.new)) }
    ensures one_more { OnOk result (I.number i.new ≡ I.number i.old + 1) }
    ensures bound { OnOk result (I.number i.new ≤ 2 ^ 62) }
    ensures failed { IsErrOf result SpaceFault.Failed → Rose (I.faults i.old) (I.faults i.new) }
    ensures never_damaged { (n : ℕ) → result ≢ Err (SpaceFault.Damaged n) }
    ensures number { I.number i.old ≤ I.number i.new }
    ensures goes_on { GoesOn I.told I.size I.faults I.keeps i.old i.new }
{
    match i.extend() {
        Ok(_) => Ok(()),
        Err(GetFault::Failed) => Err(SpaceFault::Failed),
        Err(GetFault::BadTiles(ci)) => Err(SpaceFault::Damaged(ci)),
        Err(GetFault::Memory) => Err(SpaceFault::Memory),
    }
}
