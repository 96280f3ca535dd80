//! An element that is given back, and the independent overflow interval that becomes empty by it: it
//! leaves the list of its unit of work and becomes the first of the free chain.

ghost use Rattle.std.specs.Prelude.{◌≡◌, ◌≢◌, ◌⊎◌, ◌<◌, ◌≤◌, ◌+◌, ℕ, length, IfOk, OnOk, IsErrOf};
ghost use Rattle.ci_space.specs.Calls.{GoesOn};
ghost use Rattle.fp_lists.specs.Faults.{Rose};
ghost use Rattle.ci_space.specs.Interval.{IsInterval, IsUsed, IsEmpty, Keeps, kind_of};
ghost use Rattle.ci_overflow.specs.Places.{first_independent};
ghost use Rattle.ci_overflow.specs.Lists.{bytes_at, owner_of, IsInOrder};
ghost use Rattle.ci_overflow.specs.Freed.{GivesBack, TakesBack};
ghost use Rattle.ci_overflow.specs.inside.Moves.{Moves, PutsLink, PutsFree, HasNoUnit};
ghost use Rattle.ci_overflow.specs.Faults.{IsAtFault};

use crate::SpaceFault;
use crate::before::{Numbered, find_before};
use crate::joined::put_counts;
use crate::places::{CONTROL, INDEPENDENT, NO_UOW, first_independent};
use crate::reading::{Place, get, read, write};
use crate::seen::SeenLinks;
use ci_space::{Head, Interval, Intervals, Shape};

/// Frees the used element at the place `at` of the base or overflow interval `ci`. An independent
/// overflow interval that becomes empty leaves the list of its unit of work and becomes the first of
/// the free chain.
///
/// Where no element is used there, as in an interval that the area hasn't or that has another kind, it
/// is `Damaged(ci)`. Else `Damaged` names an interval at fault: that with the bytes, the owner or the
/// link that is wrong.
pub fn give_back<I: Intervals>(i: &mut I, shape: &Shape, ci: u64, at: u16) -> Result<(), SpaceFault>
    // At `Ok` the element is gone and all else stays, in whatever order the lists were. Where they were
    // in order, they are so again.
    ensures takes_back { I.told i.old → OnOk result
        (TakesBack shape.now (I.intervals i.old) (I.intervals i.new) ci at) }
    ensures given { I.told i.old → IsInOrder shape.now (I.intervals i.old)
        → OnOk result (GivesBack shape.now (I.intervals i.old) (I.intervals i.new) ci at) }
    ensures lists { I.told i.old → IsInOrder shape.now (I.intervals i.old)
        → OnOk result (IsInOrder shape.now (I.intervals i.new)) }

    // Where no element is used there, `Ok` doesn't come, and `Damaged` names this interval.
    ensures used { I.told i.old → OnOk result (IsUsed (bytes_at (I.intervals i.old) ci) at) }
    ensures unused { I.told i.old → ¬ IsUsed (bytes_at (I.intervals i.old) ci) at → (n : ℕ)
        → result ≡ Err (SpaceFault.Damaged n) → n ≡ ci }

    // Where an element is used there, `Damaged` names an interval at fault. An area in order has none.
    ensures damaged { I.told i.old → IsUsed (bytes_at (I.intervals i.old) ci) at → (n : ℕ)
        → result ≡ Err (SpaceFault.Damaged n) → IsAtFault shape.now (I.intervals i.old) n }
    ensures sound { I.told i.old → IsInOrder shape.now (I.intervals i.old) → IsUsed (bytes_at (I.intervals i.old) ci) at
        → (n : ℕ) → result ≢ Err (SpaceFault.Damaged n) }

    // It fails only with what holds the intervals.
    ensures failed { IsErrOf result SpaceFault.Failed → Rose (I.faults i.old) (I.faults i.new) }

    // What stays, whatever the answer is.
    ensures number { I.number i.new ≡ I.number i.old }
    ensures goes_on { GoesOn I.told I.size I.faults I.keeps i.old i.new }
{
    give_back_seen(i, shape, ci, at, &mut SeenLinks::none())
}

/// Frees an element as `give_back` does. The way to the interval whose link leads to an emptied one is looked up among
/// the links that calls before saw; where it isn't there, the last walk goes on, or else a new one begins. So a call for
/// each element of a chain goes over its list once, in whatever order they are given back.
///
/// A link that was seen is read again before it is relied on: where the list has changed since, a call costs a walk,
/// and nothing else.
pub fn give_back_seen<I: Intervals>(
    i: &mut I,
    shape: &Shape,
    ci: u64,
    at: u16,
    seen: &mut SeenLinks,
) -> Result<(), SpaceFault>
    // At `Ok` the element is gone and all else stays, in whatever order the lists were. Where they were
    // in order, they are so again.
    ensures takes_back { I.told i.old → OnOk result
        (TakesBack shape.now (I.intervals i.old) (I.intervals i.new) ci at) }
    ensures given { I.told i.old → IsInOrder shape.now (I.intervals i.old)
        → OnOk result (GivesBack shape.now (I.intervals i.old) (I.intervals i.new) ci at) }
    ensures lists { I.told i.old → IsInOrder shape.now (I.intervals i.old)
        → OnOk result (IsInOrder shape.now (I.intervals i.new)) }

    // Where no element is used there, `Ok` doesn't come, and `Damaged` names this interval.
    ensures used { I.told i.old → OnOk result (IsUsed (bytes_at (I.intervals i.old) ci) at) }
    ensures unused { I.told i.old → ¬ IsUsed (bytes_at (I.intervals i.old) ci) at → (n : ℕ)
        → result ≡ Err (SpaceFault.Damaged n) → n ≡ ci }

    // Where an element is used there, `Damaged` names an interval at fault. An area in order has none.
    ensures damaged { I.told i.old → IsUsed (bytes_at (I.intervals i.old) ci) at → (n : ℕ)
        → result ≡ Err (SpaceFault.Damaged n) → IsAtFault shape.now (I.intervals i.old) n }
    ensures sound { I.told i.old → IsInOrder shape.now (I.intervals i.old) → IsUsed (bytes_at (I.intervals i.old) ci) at
        → (n : ℕ) → result ≢ Err (SpaceFault.Damaged n) }

    // It fails only with what holds the intervals.
    ensures failed { IsErrOf result SpaceFault.Failed → Rose (I.faults i.old) (I.faults i.new) }

    // What stays, whatever the answer is.
    ensures number { I.number i.new ≡ I.number i.old }
    ensures goes_on { GoesOn I.told I.size I.faults I.keeps i.old i.new }
{
    let mut interval = read_used(i, ci, at)?;
    interval.free(at);
    if interval.head().kind == INDEPENDENT && interval.is_empty() {
        move_to_free(i, shape, ci, interval, seen)
    } else {
        write(i, ci, interval)
    }
}

/// The interval of this number, in which an element is used at `at`.
fn read_used<I: Intervals>(i: &mut I, ci: u64, at: u16) -> Result<Interval, SpaceFault>
    ensures bytes { I.told i.old → IfOk result (λ interval. interval ≡ bytes_at (I.intervals i.old) ci) }
    ensures below { OnOk result (ci < I.number i.old) }
    ensures used { IfOk result (λ interval. IsUsed interval at) }
    ensures size { IfOk result (λ interval. length interval ≡ I.size i.old) }
    ensures damaged { I.told i.old → IsUsed (bytes_at (I.intervals i.old) ci) at → (n : ℕ)
        → result ≢ Err (SpaceFault.Damaged n) }
    ensures named { I.told i.old → (n : ℕ) → result ≡ Err (SpaceFault.Damaged n) → n ≡ ci }
    ensures failed { IsErrOf result SpaceFault.Failed → Rose (I.faults i.old) (I.faults i.new) }
    ensures same { I.told i.old → I.intervals i.new ≡ I.intervals i.old }
    ensures number { I.number i.new ≡ I.number i.old }
    ensures goes_on { GoesOn I.told I.size I.faults I.keeps i.old i.new }
{
    let interval = get(i, ci, ci)?;
    if !interval.is_used(at) {
        return Err(SpaceFault::Damaged(ci));
    }
    Ok(interval)
}

/// Moves an independent overflow interval, which is empty now, from the list of its unit of work to
/// the front of the free chain.
fn move_to_free<I: Intervals>(
    i: &mut I,
    shape: &Shape,
    ci: u64,
    interval: Interval,
    seen: &mut SeenLinks,
) -> Result<(), SpaceFault>
    requires in_range { ci < I.number i.old }
    requires size { length interval ≡ I.size i.old }
    requires kind { kind_of interval ≡ 5 }
    requires empty { IsEmpty interval }
    ensures moved { I.told i.old → Keeps (bytes_at (I.intervals i.old) ci) interval 0 32
        → OnOk result (Moves shape.now (I.intervals i.old) (I.intervals i.new) ci interval) }
    ensures damaged { I.told i.old → Keeps (bytes_at (I.intervals i.old) ci) interval 0 32
        → ¬ IsEmpty (bytes_at (I.intervals i.old) ci)
        → (n : ℕ) → result ≡ Err (SpaceFault.Damaged n) → IsAtFault shape.now (I.intervals i.old) n }
    ensures failed { IsErrOf result SpaceFault.Failed → Rose (I.faults i.old) (I.faults i.new) }
    ensures number { I.number i.new ≡ I.number i.old }
    ensures goes_on { GoesOn I.told I.size I.faults I.keeps i.old i.new }
{
    let uow = unit_of(shape, ci, &interval)?;
    let before = find_before(i, shape, uow, ci, seen)?;
    let place = Place {
        ci: 0,
        kind: CONTROL,
        owner: 0,
        from: 0,
    };
    let control = read(i, place)?;
    let link = interval.head().link;
    seen.forget(ci, before.ci, link)?;
    put_link(i, before, link)?;
    put_free(i, ci, interval, control)
}

/// The unit of work in whose list an independent overflow interval of these bytes is.
#[tactic(auto, unfolding(crate::specs::Lists::owner_of))]
fn unit_of(shape: &Shape, ci: u64, interval: &Interval) -> Result<u32, SpaceFault>
    ensures unit { IfOk result (λ uow. owner_of interval.now ≡ uow + 1) }
    ensures bound { IfOk result (λ uow. uow < shape.now.uows) }
    ensures has_base { OnOk result (0 < shape.now.base) }
    ensures from { OnOk result (first_independent shape.now ≤ ci) }
    ensures damaged { (n : ℕ) → result ≡ Err (SpaceFault.Damaged n) → (n ≡ ci) × HasNoUnit shape.now ci interval.now }
    ensures never_failed { ¬ IsErrOf result SpaceFault.Failed }
{
    let owner = interval.head().owner;
    let is_unit = owner != NO_UOW && owner <= u64::from(shape.uows) && shape.base != 0;
    if ci < first_independent(shape) || !is_unit {
        return Err(SpaceFault::Damaged(ci));
    }
    Ok((owner - 1) as u32)
}

/// Puts an interval with this link.
fn put_link<I: Intervals>(i: &mut I, numbered: Numbered, link: u64) -> Result<(), SpaceFault>
    requires in_range { numbered.ci < I.number i.old }
    requires size { length numbered.interval ≡ I.size i.old }
    requires interval { IsInterval numbered.interval }
    requires kind { (kind_of numbered.interval ≡ 2) ⊎ (kind_of numbered.interval ≡ 5) }
    ensures put { I.told i.old → OnOk result (PutsLink (I.intervals i.old) (I.intervals i.new) numbered link) }
    ensures never_failed { ¬ IsErrOf result SpaceFault.Failed }
    ensures never_damaged { (n : ℕ) → result ≢ Err (SpaceFault.Damaged n) }
    ensures number { I.number i.new ≡ I.number i.old }
    ensures goes_on { GoesOn I.told I.size I.faults I.keeps i.old i.new }
{
    let Numbered { ci, mut interval } = numbered;
    let head = interval.head();
    interval.set_head(Head { link, ..head });
    write(i, ci, interval)
}

/// Puts an empty independent overflow interval to the front of the free chain, which `control` tells.
fn put_free<I: Intervals>(
    i: &mut I,
    ci: u64,
    mut interval: Interval,
    control: Interval,
) -> Result<(), SpaceFault>
    requires in_range { ci < I.number i.old }
    requires size { length interval ≡ I.size i.old }
    requires kind { kind_of interval ≡ 5 }
    requires empty { IsEmpty interval }
    requires control_size { length control ≡ I.size i.old }
    requires control_kind { kind_of control ≡ 1 }
    requires control_interval { IsInterval control }
    ensures put { I.told i.old → OnOk result (PutsFree (I.intervals i.old) (I.intervals i.new) ci interval control) }
    ensures never_failed { ¬ IsErrOf result SpaceFault.Failed }
    ensures never_damaged { (n : ℕ) → result ≢ Err (SpaceFault.Damaged n) }
    ensures number { I.number i.new ≡ I.number i.old }
    ensures goes_on { GoesOn I.told I.size I.faults I.keeps i.old i.new }
{
    let ends = control.ends();
    put_counts(i, control, ends[2], ci)?;
    interval.set_head(Head {
        kind: INDEPENDENT,
        root: (0, 0),
        link: ends[3],
        owner: NO_UOW,
    });
    write(i, ci, interval)
}
