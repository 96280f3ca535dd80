//! The intervals that an anchor and its unit of work have, tried one after the other.

ghost use Rattle.std.specs.Prelude.{◌≡◌, ◌≢◌, ◌<◌, ◌≤◌, ◌+◌, ◌*◌, ℕ, List, Err, IfOk, IfSome, IfNone, OnOk, IsErrOf};
ghost use Rattle.ci_space.specs.Calls.{GoesOn};
ghost use Rattle.fp_lists.specs.Faults.{Rose};
ghost use Rattle.ci_space.specs.declared.intervals.Shape.{Shape as ShapeOf};
ghost use Rattle.ci_overflow.specs.Places.{first_base, first_dependent, first_independent, uow_of};
ghost use Rattle.ci_overflow.specs.Lists.{bytes_at, link_of, owner_of, IsChain, IsOwned};
ghost use Rattle.ci_overflow.specs.Rooms.{AreTried, IsOwnRoom, IsTaken, TakesAt, numbers_from, places};
ghost use Rattle.ci_overflow.specs.Faults.{IsAtFault, IsNotThere};
ghost use Rattle.ci_overflow.specs.Known.{AreFullTo, IsKnown};

use crate::SpaceFault;
use crate::known::{KnownFull, Passed};
use crate::places::{BASE, DEPENDENT, INDEPENDENT, base_of, first_base, first_independent, uow_of};
use crate::reading::{Place, read, try_take};
use ci_space::{Intervals, Shape};

/// Tries the dependent overflow intervals of a unit of work, but those that are known to have no room.
fn try_dependents<I: Intervals>(
    i: &mut I,
    shape: &Shape,
    uow: u32,
    length: u16,
    known: &mut KnownFull,
) -> Result<Option<(u64, u16)>, SpaceFault>
    ensures tried { I.told i.old → IsKnown shape.now (I.intervals i.old) uow length known.old
        → IfOk result (AreTried (I.intervals i.old) (I.intervals i.new)
        (numbers_from (first_dependent shape.now uow) shape.now.overflow) length) }
    ensures full { I.told i.old → IfOk result (λ room. IfNone room (I.intervals i.new ≡ I.intervals i.old)) }
    ensures known { I.told i.old → IsKnown shape.now (I.intervals i.old) uow length known.old
        → OnOk result (IsKnown shape.now (I.intervals i.new) uow length known.new) }
    ensures taken { I.told i.old → IfOk result (IsTaken (I.intervals i.old) (I.intervals i.new) length) }
    ensures own { IfOk result (λ room. IfSome room (λ room. (first_dependent shape.now uow ≤ room.0)
        × (room.0 < first_dependent shape.now uow + shape.now.overflow))) }
    ensures below { IfOk result (λ room. IfSome room (λ room. room.0 < I.number i.old)) }
    ensures failed { IsErrOf result SpaceFault.Failed → Rose (I.faults i.old) (I.faults i.new) }
    ensures damaged { I.told i.old → uow < shape.now.uows → (n : ℕ) → result ≡ Err (SpaceFault.Damaged n)
        → IsAtFault shape.now (I.intervals i.old) n }
    ensures number { I.number i.new ≡ I.number i.old }
    ensures goes_on { GoesOn I.told I.size I.faults I.keeps i.old i.new }
{
    let first = first_base(shape, uow) + u64::from(shape.base);
    for number in known.dependents..shape.overflow {
        let ci = first + u64::from(number);
        let place = Place {
            ci,
            kind: DEPENDENT,
            owner: 0,
            from: ci,
        };
        let tried = try_take(i, place, length)?;
        if let Some(at) = tried.at {
            known.dependents = number;
            return Ok(Some((ci, at)));
        }
    }
    known.dependents = shape.overflow;
    Ok(None)
}

/// What trying an interval of a list gave: the place of the element that was taken. None where it has no room, nor
/// those behind it up to the last that was passed.
#[derive(Clone, Copy)]
pub struct Listed {
    pub at: Option<u16>,
    pub passed: Passed,
}

/// Tries an interval of the list of a unit of work, to which the link of `from` leads. Where a run of intervals from it
/// on is known to have no room, the run is passed.
fn try_listed<I: Intervals>(
    i: &mut I,
    uow: u32,
    from: u64,
    ci: u64,
    length: u16,
    known: &KnownFull,
) -> Result<Listed, SpaceFault>
    ensures some { I.told i.old → IfOk result (λ listed. IfSome listed.at (TakesAt (I.intervals i.old)
        (I.intervals i.new) ci length)) }
    ensures owner { I.told i.old → IfOk result (λ listed. IfSome listed.at (λ _.
        owner_of (bytes_at (I.intervals i.old) ci) ≡ uow + 1)) }
    ensures same { I.told i.old → IfOk result (λ listed. IfNone listed.at (I.intervals i.new ≡ I.intervals i.old)) }
    ensures none { I.told i.old → (shape : ShapeOf) → first_independent shape ≤ ci
        → IsKnown shape (I.intervals i.old) uow length known.now
        → IfOk result (λ listed. IfNone listed.at (AreFullTo shape (I.intervals i.old) (uow + 1) length ci
        listed.passed.last listed.passed.next)) }
    ensures below { IfOk result (λ listed. IfSome listed.at (λ _. ci < I.number i.old)) }
    ensures failed { IsErrOf result SpaceFault.Failed → Rose (I.faults i.old) (I.faults i.new) }
    ensures damaged { I.told i.old → (n : ℕ) → result ≡ Err (SpaceFault.Damaged n)
        → IsNotThere (I.intervals i.old) (record { ci = ci; kind = 5; owner = uow + 1; from = from }) n }
    ensures number { I.number i.new ≡ I.number i.old }
    ensures goes_on { GoesOn I.told I.size I.faults I.keeps i.old i.new }
{
    if let Some(passed) = known.run_from(ci) {
        return Ok(Listed { at: None, passed });
    }
    let place = Place {
        ci,
        kind: INDEPENDENT,
        owner: u64::from(uow) + 1,
        from,
    };
    let tried = try_take(i, place, length)?;
    Ok(Listed {
        at: tried.at,
        passed: Passed {
            last: ci,
            next: tried.link,
        },
    })
}

/// Where a walk over a list ended: the link of `from` leads to `ci`, which is 0 at the end, and an element was taken
/// there.
#[derive(Clone, Copy)]
pub struct Stop {
    pub from: u64,
    pub ci: u64,
    pub room: Option<(u64, u16)>,
}

/// Tries the independent overflow intervals of a unit of work: those that the links give from `first`
/// on, which stands in the interval `base`.
fn walk_list<I: Intervals>(
    i: &mut I,
    shape: &Shape,
    uow: u32,
    base: u64,
    first: u64,
    length: u16,
    known: &KnownFull,
) -> Result<Stop, SpaceFault>
    ensures tried { I.told i.old → IsKnown shape.now (I.intervals i.old) uow length known.now
        → (chain : List ℕ) → IsChain (I.intervals i.old) first chain
        → IfOk result (λ stop. AreTried (I.intervals i.old) (I.intervals i.new) chain length stop.room) }
    ensures full { I.told i.old → IfOk result (λ stop. IfNone stop.room (I.intervals i.new ≡ I.intervals i.old)) }
    ensures run { I.told i.old → IsKnown shape.now (I.intervals i.old) uow length known.now
        → IfOk result (λ stop. stop.from ≢ base → AreFullTo shape.now (I.intervals i.old) (uow + 1) length first
        stop.from stop.ci) }
    ensures taken { I.told i.old → IfOk result (λ stop. IsTaken (I.intervals i.old) (I.intervals i.new) length
        stop.room) }
    ensures own { I.told i.old → IfOk result (λ stop. IfSome stop.room (λ room.
        IsOwned shape.now (I.intervals i.new) (uow + 1) room.0)) }
    ensures below { IfOk result (λ stop. IfSome stop.room (λ room. room.0 < I.number i.old)) }
    ensures failed { IsErrOf result SpaceFault.Failed → Rose (I.faults i.old) (I.faults i.new) }
    ensures damaged { I.told i.old → uow < shape.now.uows → base ≡ first_base shape.now uow
        → first ≡ link_of (bytes_at (I.intervals i.old) base)
        → IsKnown shape.now (I.intervals i.old) uow length known.now
        → (n : ℕ) → result ≡ Err (SpaceFault.Damaged n) → IsAtFault shape.now (I.intervals i.old) n }
    ensures number { I.number i.new ≡ I.number i.old }
    ensures goes_on { GoesOn I.told I.size I.faults I.keeps i.old i.new }
{
    let mut turns = i.count();
    let mut from = base;
    let mut ci = first;
    while ci != 0 {
        if turns == 0 || ci < first_independent(shape) {
            return Err(SpaceFault::Damaged(from));
        }
        turns -= 1;
        let listed = try_listed(i, uow, from, ci, length, known)?;
        if let Some(at) = listed.at {
            let room = Some((ci, at));
            return Ok(Stop { from, ci, room });
        }
        from = listed.passed.last;
        ci = listed.passed.next;
    }
    Ok(Stop {
        from,
        ci,
        room: None,
    })
}

/// Tries the independent overflow intervals of a unit of work as `walk_list` does, and notes those that have no room.
fn try_chain<I: Intervals>(
    i: &mut I,
    shape: &Shape,
    uow: u32,
    base: u64,
    first: u64,
    length: u16,
    known: &mut KnownFull,
) -> Result<Option<(u64, u16)>, SpaceFault>
    ensures tried { I.told i.old → IsKnown shape.now (I.intervals i.old) uow length known.old
        → (chain : List ℕ) → IsChain (I.intervals i.old) first chain
        → IfOk result (AreTried (I.intervals i.old) (I.intervals i.new) chain length) }
    ensures full { I.told i.old → IfOk result (λ room. IfNone room (I.intervals i.new ≡ I.intervals i.old)) }
    ensures known { I.told i.old → IsKnown shape.now (I.intervals i.old) uow length known.old
        → OnOk result (IsKnown shape.now (I.intervals i.new) uow length known.new) }
    ensures taken { I.told i.old → IfOk result (IsTaken (I.intervals i.old) (I.intervals i.new) length) }
    ensures own { I.told i.old → IfOk result (λ room. IfSome room (λ room.
        IsOwned shape.now (I.intervals i.new) (uow + 1) room.0)) }
    ensures below { IfOk result (λ room. IfSome room (λ room. room.0 < I.number i.old)) }
    ensures failed { IsErrOf result SpaceFault.Failed → Rose (I.faults i.old) (I.faults i.new) }
    ensures damaged { I.told i.old → uow < shape.now.uows → base ≡ first_base shape.now uow
        → first ≡ link_of (bytes_at (I.intervals i.old) base)
        → IsKnown shape.now (I.intervals i.old) uow length known.old
        → (n : ℕ) → result ≡ Err (SpaceFault.Damaged n) → IsAtFault shape.now (I.intervals i.old) n }
    ensures number { I.number i.new ≡ I.number i.old }
    ensures goes_on { GoesOn I.told I.size I.faults I.keeps i.old i.new }
{
    let stop = walk_list(i, shape, uow, base, first, length, known)?;
    if stop.from != base {
        let passed = Passed {
            last: stop.from,
            next: stop.ci,
        };
        known.note(first, passed)?;
    }
    Ok(stop.room)
}

/// Tries the intervals that an anchor and its unit of work have, but those that are known to have no room.
pub fn try_standing<I: Intervals>(
    i: &mut I,
    shape: &Shape,
    anchor: u32,
    length: u16,
    known: &mut KnownFull,
) -> Result<Option<(u64, u16)>, SpaceFault>
    requires { anchor < shape.now.uows * shape.now.base }
    ensures tried { I.told i.old → IsKnown shape.now (I.intervals i.old) (uow_of shape.now anchor) length known.old
        → (shared : List ℕ) → IsChain (I.intervals i.old) (link_of (bytes_at (I.intervals i.old)
        (first_base shape.now (uow_of shape.now anchor)))) shared
        → IfOk result (AreTried (I.intervals i.old) (I.intervals i.new) (places shape.now anchor shared) length) }
    ensures full { I.told i.old → IfOk result (λ room. IfNone room (I.intervals i.new ≡ I.intervals i.old)) }
    ensures known { I.told i.old → IsKnown shape.now (I.intervals i.old) (uow_of shape.now anchor) length known.old
        → OnOk result (IsKnown shape.now (I.intervals i.new) (uow_of shape.now anchor) length known.new) }
    ensures taken { I.told i.old → IfOk result (IsTaken (I.intervals i.old) (I.intervals i.new) length) }
    ensures own { I.told i.old → IfOk result (λ room. IfSome room (λ room.
        IsOwnRoom shape.now (I.intervals i.new) anchor room.0)) }
    ensures below { IfOk result (λ room. IfSome room (λ room. room.0 < I.number i.old)) }
    ensures failed { IsErrOf result SpaceFault.Failed → Rose (I.faults i.old) (I.faults i.new) }
    ensures damaged { I.told i.old → IsKnown shape.now (I.intervals i.old) (uow_of shape.now anchor) length known.old
        → (n : ℕ) → result ≡ Err (SpaceFault.Damaged n) → IsAtFault shape.now (I.intervals i.old) n }
    ensures number { I.number i.new ≡ I.number i.old }
    ensures goes_on { GoesOn I.told I.size I.faults I.keeps i.old i.new }
{
    let uow = uow_of(shape, anchor);
    let base = base_of(shape, anchor);
    let place = Place {
        ci: base,
        kind: BASE,
        owner: 0,
        from: base,
    };
    let tried = try_take(i, place, length)?;
    if let Some(at) = tried.at {
        return Ok(Some((base, at)));
    }
    if let Some(room) = try_dependents(i, shape, uow, length, known)? {
        return Ok(Some(room));
    }
    let first = first_base(shape, uow);
    let link = list_link(i, first, base, tried.link)?;
    try_chain(i, shape, uow, first, link, length, known)
}

/// The link of a unit of work's first base interval. It isn't read again where it is the interval
/// `base`, whose link is `known`.
fn list_link<I: Intervals>(i: &mut I, first: u64, base: u64, known: u64) -> Result<u64, SpaceFault>
    ensures link { I.told i.old → known ≡ link_of (bytes_at (I.intervals i.old) base)
        → IfOk result (λ link. link ≡ link_of (bytes_at (I.intervals i.old) first)) }
    ensures failed { IsErrOf result SpaceFault.Failed → Rose (I.faults i.old) (I.faults i.new) }
    ensures damaged { I.told i.old → (n : ℕ) → result ≡ Err (SpaceFault.Damaged n)
        → IsNotThere (I.intervals i.old) (record { ci = first; kind = 2; owner = 0; from = first }) n }
    ensures same { I.told i.old → I.intervals i.new ≡ I.intervals i.old }
    ensures number { I.number i.new ≡ I.number i.old }
    ensures goes_on { GoesOn I.told I.size I.faults I.keeps i.old i.new }
{
    if base == first {
        return Ok(known);
    }
    first_link(i, first)
}

/// The link of a unit of work's first base interval.
#[tactic(auto, unfolding(crate::specs::Lists::link_of))]
fn first_link<I: Intervals>(i: &mut I, first: u64) -> Result<u64, SpaceFault>
    ensures link { I.told i.old → IfOk result (λ link. link ≡ link_of (bytes_at (I.intervals i.old) first)) }
    ensures failed { IsErrOf result SpaceFault.Failed → Rose (I.faults i.old) (I.faults i.new) }
    ensures damaged { I.told i.old → (n : ℕ) → result ≡ Err (SpaceFault.Damaged n)
        → IsNotThere (I.intervals i.old) (record { ci = first; kind = 2; owner = 0; from = first }) n }
    ensures same { I.told i.old → I.intervals i.new ≡ I.intervals i.old }
    ensures number { I.number i.new ≡ I.number i.old }
    ensures goes_on { GoesOn I.told I.size I.faults I.keeps i.old i.new }
{
    let place = Place {
        ci: first,
        kind: BASE,
        owner: 0,
        from: first,
    };
    let base = read(i, place)?;
    Ok(base.head().link)
}
