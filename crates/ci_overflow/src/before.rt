//! The interval of an overflow list whose link leads to another one of it.

ghost use Rattle.std.specs.Prelude.{◌≡◌, ◌≢◌, ◌⊎◌, ◌<◌, ◌≤◌, ◌+◌, ℕ, Err, length, IfOk, IfSome, IfNone, IsErrOf};
ghost use Rattle.ci_space.specs.Calls.{GoesOn};
ghost use Rattle.fp_lists.specs.Faults.{Rose};
ghost use Rattle.ci_space.specs.Interval.{IsInterval, kind_of};
ghost use Rattle.ci_overflow.specs.Places.{first_base, first_independent};
ghost use Rattle.ci_overflow.specs.Lists.{bytes_at, link_of, owner_of, IsOwned};
ghost use Rattle.ci_overflow.specs.Moves.{IsBefore, IsInList};
ghost use Rattle.ci_overflow.specs.inside.Moves.{LeadsTo, EndsWithout};
ghost use Rattle.ci_overflow.specs.Faults.{IsAtFault};

use crate::SpaceFault;
use crate::places::{BASE, INDEPENDENT, first_base, first_independent};
use crate::reading::{Place, read};
use crate::seen::SeenLinks;
use ci_space::{Interval, Intervals, Shape};

/// An interval with its number.
#[derive(Drop)]
pub struct Numbered {
    pub ci: u64,
    pub interval: Interval,
}

/// The interval whose link leads to `ci` in the list of a unit of work: the first base interval, or one
/// of the list.
pub fn find_before<I: Intervals>(
    i: &mut I,
    shape: &Shape,
    uow: u32,
    ci: u64,
    seen: &mut SeenLinks,
) -> Result<Numbered, SpaceFault>
    requires independent { first_independent shape.now ≤ ci }
    requires behind { first_base shape.now uow < ci }
    ensures before { I.told i.old → IfOk result (IsBefore shape.now (I.intervals i.old) uow ci) }
    ensures below { IfOk result (λ before. before.ci < I.number i.old) }
    ensures interval { IfOk result (λ before. IsInterval before.interval) }
    ensures kind { IfOk result (λ before. (kind_of before.interval ≡ 2) ⊎ (kind_of before.interval ≡ 5)) }
    ensures size { IfOk result (λ before. length before.interval ≡ I.size i.old) }
    ensures damaged { I.told i.old → 0 < shape.now.base → uow < shape.now.uows
        → owner_of (bytes_at (I.intervals i.old) ci) ≡ uow + 1 → ci < I.number i.old
        → (n : ℕ) → result ≡ Err (SpaceFault.Damaged n) → IsAtFault shape.now (I.intervals i.old) n }
    ensures failed { IsErrOf result SpaceFault.Failed → Rose (I.faults i.old) (I.faults i.new) }
    ensures same { I.told i.old → I.intervals i.new ≡ I.intervals i.old }
    ensures number { I.number i.new ≡ I.number i.old }
    ensures goes_on { GoesOn I.told I.size I.faults I.keeps i.old i.new }
{
    let base = first_of(i, shape, uow)?;
    if base.interval.head().link == ci {
        return Ok(base);
    }
    if let Some(before) = find_seen(i, shape, uow, ci, seen)? {
        return Ok(before);
    }
    match walk(i, shape, uow, ci, base, seen)? {
        Some(before) => Ok(before),
        None => Err(SpaceFault::Damaged(ci)),
    }
}

/// The first base interval of a unit of work.
fn first_of<I: Intervals>(i: &mut I, shape: &Shape, uow: u32) -> Result<Numbered, SpaceFault>
    ensures first { IfOk result (λ base. base.ci ≡ first_base shape.now uow) }
    ensures bytes { I.told i.old → IfOk result (λ base. base.interval ≡ bytes_at (I.intervals i.old)
        (first_base shape.now uow)) }
    ensures below { IfOk result (λ base. base.ci < I.number i.old) }
    ensures interval { IfOk result (λ base. IsInterval base.interval) }
    ensures kind { IfOk result (λ base. kind_of base.interval ≡ 2) }
    ensures size { IfOk result (λ base. length base.interval ≡ I.size i.old) }
    ensures damaged { I.told i.old → 0 < shape.now.base → uow < shape.now.uows
        → (n : ℕ) → result ≡ Err (SpaceFault.Damaged n) → IsAtFault shape.now (I.intervals i.old) n }
    ensures failed { IsErrOf result SpaceFault.Failed → Rose (I.faults i.old) (I.faults i.new) }
    ensures same { I.told i.old → I.intervals i.new ≡ I.intervals i.old }
    ensures number { I.number i.new ≡ I.number i.old }
    ensures goes_on { GoesOn I.told I.size I.faults I.keeps i.old i.new }
{
    let first = first_base(shape, uow);
    let place = Place {
        ci: first,
        kind: BASE,
        owner: 0,
        from: first,
    };
    let interval = read(i, place)?;
    Ok(Numbered {
        ci: first,
        interval,
    })
}

/// The interval whose link leads to `ci`, where an earlier walk saw it, or comes to it as it goes on.
fn find_seen<I: Intervals>(
    i: &mut I,
    shape: &Shape,
    uow: u32,
    ci: u64,
    seen: &mut SeenLinks,
) -> Result<Option<Numbered>, SpaceFault>
    ensures found { I.told i.old → IfOk result (λ found. IfSome found (LeadsTo shape.now (I.intervals i.old) uow ci)) }
    ensures below { IfOk result (λ found. IfSome found (λ before. before.ci < I.number i.old)) }
    ensures interval { IfOk result (λ found. IfSome found (λ before. IsInterval before.interval)) }
    ensures kind { IfOk result (λ found. IfSome found (λ before. (kind_of before.interval ≡ 2)
        ⊎ (kind_of before.interval ≡ 5))) }
    ensures size { IfOk result (λ found. IfSome found (λ before. length before.interval ≡ I.size i.old)) }
    ensures damaged { I.told i.old → uow < shape.now.uows
        → (n : ℕ) → result ≡ Err (SpaceFault.Damaged n) → IsAtFault shape.now (I.intervals i.old) n }
    ensures failed { IsErrOf result SpaceFault.Failed → Rose (I.faults i.old) (I.faults i.new) }
    ensures same { I.told i.old → I.intervals i.new ≡ I.intervals i.old }
    ensures number { I.number i.new ≡ I.number i.old }
    ensures goes_on { GoesOn I.told I.size I.faults I.keeps i.old i.new }
{
    if let Some(before) = one_of_list(i, shape, uow, seen.before(ci), ci)? {
        if before.interval.head().link == ci {
            return Ok(Some(before));
        }
    }
    match one_of_list(i, shape, uow, seen.reached(), ci)? {
        Some(start) => walk(i, shape, uow, ci, start, seen),
        None => Ok(None),
    }
}

/// The interval of this number, where it is one of a unit of work's list and another one than `ci`.
pub fn one_of_list<I: Intervals>(
    i: &mut I,
    shape: &Shape,
    uow: u32,
    number: u64,
    ci: u64,
) -> Result<Option<Numbered>, SpaceFault>
    ensures in_list { I.told i.old → IfOk result (λ one. IfSome one (IsInList shape.now (I.intervals i.old) uow)) }
    ensures owned { I.told i.old → IfOk result (λ one. IfSome one
        (λ one. IsOwned shape.now (I.intervals i.old) (uow + 1) one.ci)) }
    ensures is { IfOk result (λ one. IfSome one (λ one. one.ci ≡ number)) }
    ensures apart { IfOk result (λ one. IfSome one (λ one. one.ci ≢ ci)) }
    ensures some { IfOk result (λ one. IfSome one (λ one. 0 < one.ci)) }
    ensures below { IfOk result (λ one. IfSome one (λ one. one.ci < I.number i.old)) }
    ensures interval { IfOk result (λ one. IfSome one (λ one. IsInterval one.interval)) }
    ensures kind { IfOk result (λ one. IfSome one (λ one. kind_of one.interval ≡ 5)) }
    ensures size { IfOk result (λ one. IfSome one (λ one. length one.interval ≡ I.size i.old)) }
    ensures never_damaged { (n : ℕ) → result ≢ Err (SpaceFault.Damaged n) }
    ensures failed { IsErrOf result SpaceFault.Failed → Rose (I.faults i.old) (I.faults i.new) }
    ensures same { I.told i.old → I.intervals i.new ≡ I.intervals i.old }
    ensures number { I.number i.new ≡ I.number i.old }
    ensures goes_on { GoesOn I.told I.size I.faults I.keeps i.old i.new }
{
    if number == ci || number < first_independent(shape) {
        return Ok(None);
    }
    let place = Place {
        ci: number,
        kind: INDEPENDENT,
        owner: u64::from(uow) + 1,
        from: number,
    };
    match read(i, place) {
        Ok(interval) => Ok(Some(Numbered {
            ci: number,
            interval,
        })),
        Err(SpaceFault::Damaged(_)) => Ok(None),
        Err(fault) => Err(fault),
    }
}

/// Goes along the list of a unit of work from the interval `start` on, to that whose link leads to `ci`. None where
/// the list ends first.
fn walk<I: Intervals>(
    i: &mut I,
    shape: &Shape,
    uow: u32,
    ci: u64,
    start: Numbered,
    seen: &mut SeenLinks,
) -> Result<Option<Numbered>, SpaceFault>
    requires apart { start.ci ≢ ci }
    requires some { 0 < start.ci }
    requires in_range { start.ci < I.number i.old }
    requires interval { IsInterval start.interval }
    requires kind { (kind_of start.interval ≡ 2) ⊎ (kind_of start.interval ≡ 5) }
    requires size { length start.interval ≡ I.size i.old }
    ensures found { I.told i.old → IsInList shape.now (I.intervals i.old) uow start
        → IfOk result (λ found. IfSome found (LeadsTo shape.now (I.intervals i.old) uow ci)) }
    ensures ends { I.told i.old → IsInList shape.now (I.intervals i.old) uow start
        → IfOk result (λ found. IfNone found (EndsWithout (I.intervals i.old)
        (link_of (bytes_at (I.intervals i.old) start.ci)) ci)) }
    ensures below { IfOk result (λ found. IfSome found (λ before. before.ci < I.number i.old)) }
    ensures interval { IfOk result (λ found. IfSome found (λ before. IsInterval before.interval)) }
    ensures kind { IfOk result (λ found. IfSome found (λ before. (kind_of before.interval ≡ 2)
        ⊎ (kind_of before.interval ≡ 5))) }
    ensures size { IfOk result (λ found. IfSome found (λ before. length before.interval ≡ I.size i.old)) }
    ensures damaged { I.told i.old → IsInList shape.now (I.intervals i.old) uow start → uow < shape.now.uows
        → (n : ℕ) → result ≡ Err (SpaceFault.Damaged n) → IsAtFault shape.now (I.intervals i.old) n }
    ensures failed { IsErrOf result SpaceFault.Failed → Rose (I.faults i.old) (I.faults i.new) }
    ensures same { I.told i.old → I.intervals i.new ≡ I.intervals i.old }
    ensures number { I.number i.new ≡ I.number i.old }
    ensures goes_on { GoesOn I.told I.size I.faults I.keeps i.old i.new }
{
    let mut before = start;
    let mut next = before.interval.head().link;
    let mut turns = i.count();
    while next != ci {
        if next == 0 {
            return Ok(None);
        }
        if turns == 0 || next < first_independent(shape) {
            return Err(SpaceFault::Damaged(before.ci));
        }
        turns -= 1;
        seen.note(before.ci, next)?;
        let place = Place {
            ci: next,
            kind: INDEPENDENT,
            owner: u64::from(uow) + 1,
            from: before.ci,
        };
        let interval = read(i, place)?;
        let link = interval.head().link;
        before = Numbered { ci: next, interval };
        next = link;
    }
    seen.note(before.ci, ci)?;
    Ok(Some(before))
}
