//! Room for a new element.

ghost use Rattle.std.specs.Prelude.{◌≡◌, ◌≢◌, ◌<◌, ◌≤◌, ◌+◌, ◌*◌, ℕ, Err, IfOk, OnOk, IsErrOf};
ghost use Rattle.ci_space.specs.Calls.{GoesOn};
ghost use Rattle.fp_lists.specs.Faults.{Rose};
ghost use Rattle.ci_overflow.specs.Places.{uow_of};
ghost use Rattle.ci_overflow.specs.Lists.{IsInOrder};
ghost use Rattle.ci_overflow.specs.Rooms.{FindsRoom, TakesRoom, IsOwnRoom};
ghost use Rattle.ci_overflow.specs.inside.Rooms.{JoinsNext, TakesOne};
ghost use Rattle.ci_overflow.specs.Faults.{FitsEmpty, IsAtFault};
ghost use Rattle.ci_overflow.specs.Known.{HasSeen, IsKnown};
ghost use Rattle.ci_overflow.specs.declared.known.KnownFull.{KnownFull as KnownFullOf};

use crate::SpaceFault;
use crate::joined::{join_free, join_new};
use crate::known::{KnownFull, SeenFull};
use crate::places::{CONTROL, uow_of};
use crate::reading::{Place, read};
use crate::tried::try_standing;
use ci_space::{Intervals, Shape};
use std::alloc::Global;

/// Takes a new element with room for `length` bytes, and gives its interval and its place there. It is
/// taken from the first of these intervals that has room: the anchor's base interval, the dependent
/// overflow intervals of its unit of work, the independent ones in the order of their list. Where none
/// has, the first of the free chain joins the front of the list, or else a new interval at the end of
/// the area. An anchor is counted from 0 within its area.
///
/// `Damaged` names the interval with the bytes, the kind, the owner or the link that is wrong. A list
/// that runs in a circle is found after as many turns as the area has intervals.
pub fn find_room<I: Intervals>(
    i: &mut I,
    shape: &Shape,
    anchor: u32,
    length: u16,
) -> Result<(u64, u16), SpaceFault>
    requires { anchor < shape.now.uows * shape.now.base }

    // At `Ok` a new element is there and all else stays, in whatever order the lists were. It is in the anchor's own
    // unit of work.
    ensures takes { I.told i.old → IfOk result (TakesRoom shape.now (I.intervals i.old) (I.intervals i.new) anchor
        length) }
    ensures own { I.told i.old → IfOk result (λ room. IsOwnRoom shape.now (I.intervals i.new) anchor room.0) }

    // Where they were in order, it is in the first place of the stated order with room, and they are so
    // again.
    ensures room { I.told i.old → IsInOrder shape.now (I.intervals i.old)
        → IfOk result (FindsRoom shape.now (I.intervals i.old) (I.intervals i.new) anchor length) }
    ensures lists { I.told i.old → IsInOrder shape.now (I.intervals i.old)
        → OnOk result (IsInOrder shape.now (I.intervals i.new)) }
    ensures in_range { IfOk result (λ room. room.0 < I.number i.new) }

    // Where an empty interval has room for `length`, `Damaged` names an interval at fault. An area in
    // order has none.
    ensures damaged { I.told i.old → FitsEmpty (I.size i.old) length → (n : ℕ) → result ≡ Err (SpaceFault.Damaged n)
        → IsAtFault shape.now (I.intervals i.old) n }
    ensures sound { I.told i.old → IsInOrder shape.now (I.intervals i.old) → FitsEmpty (I.size i.old) length → (n : ℕ)
        → result ≢ Err (SpaceFault.Damaged n) }

    // It fails only with what holds the intervals.
    ensures failed { IsErrOf result SpaceFault.Failed → Rose (I.faults i.old) (I.faults i.new) }

    // What stays, whatever the answer is.
    ensures number { I.number i.old ≤ I.number i.new }
    ensures goes_on { GoesOn I.told I.size I.faults I.keeps i.old i.new }
{
    find_passing(i, shape, anchor, length, &mut KnownFull::none())
}

/// Takes a new element as `find_room` does, after others of the same unit of work. A walk goes on where one for the same
/// length stopped: what had no room then isn't looked at again. So it is until something is given back.
pub fn find_room_seen<I: Intervals>(
    alloc: Global,
    i: &mut I,
    shape: &Shape,
    anchor: u32,
    length: u16,
    seen: &mut SeenFull,
) -> Result<(u64, u16), SpaceFault>
    requires { anchor < shape.now.uows * shape.now.base }

    // Where what was seen is so: at `Ok` a new element is there, and so on as in `find_room`.
    ensures takes { I.told i.old → HasSeen shape.now (I.intervals i.old) (uow_of shape.now anchor) seen.old
        → IfOk result (TakesRoom shape.now (I.intervals i.old) (I.intervals i.new) anchor length) }
    ensures own { I.told i.old → HasSeen shape.now (I.intervals i.old) (uow_of shape.now anchor) seen.old
        → IfOk result (λ room. IsOwnRoom shape.now (I.intervals i.new) anchor room.0) }
    ensures room { I.told i.old → HasSeen shape.now (I.intervals i.old) (uow_of shape.now anchor) seen.old
        → IsInOrder shape.now (I.intervals i.old)
        → IfOk result (FindsRoom shape.now (I.intervals i.old) (I.intervals i.new) anchor length) }
    ensures lists { I.told i.old → HasSeen shape.now (I.intervals i.old) (uow_of shape.now anchor) seen.old
        → IsInOrder shape.now (I.intervals i.old) → OnOk result (IsInOrder shape.now (I.intervals i.new)) }
    ensures damaged { I.told i.old → HasSeen shape.now (I.intervals i.old) (uow_of shape.now anchor) seen.old
        → FitsEmpty (I.size i.old) length → (n : ℕ) → result ≡ Err (SpaceFault.Damaged n)
        → IsAtFault shape.now (I.intervals i.old) n }
    ensures sound { I.told i.old → HasSeen shape.now (I.intervals i.old) (uow_of shape.now anchor) seen.old
        → IsInOrder shape.now (I.intervals i.old) → FitsEmpty (I.size i.old) length → (n : ℕ)
        → result ≢ Err (SpaceFault.Damaged n) }

    // Then what was seen by now is so, too.
    ensures seen { I.told i.old → HasSeen shape.now (I.intervals i.old) (uow_of shape.now anchor) seen.old
        → OnOk result (HasSeen shape.now (I.intervals i.new) (uow_of shape.now anchor) seen.new) }

    // It fails only with what holds the intervals.
    ensures failed { IsErrOf result SpaceFault.Failed → Rose (I.faults i.old) (I.faults i.new) }

    // What stays, whatever the answer is.
    ensures number { I.number i.old ≤ I.number i.new }
    ensures goes_on { GoesOn I.told I.size I.faults I.keeps i.old i.new }
{
    let mut full = seen.take_known(alloc, length);
    let room = find_passing(i, shape, anchor, length, &mut full)?;
    seen.put_known(length, full)?;
    Ok(room)
}

/// Takes a new element as `find_room` does, but passes intervals that are known to have no room for it.
fn find_passing<I: Intervals>(
    i: &mut I,
    shape: &Shape,
    anchor: u32,
    length: u16,
    known: &mut KnownFull,
) -> Result<(u64, u16), SpaceFault>
    requires { anchor < shape.now.uows * shape.now.base }
    ensures one { I.told i.old → IsKnown shape.now (I.intervals i.old) (uow_of shape.now anchor) length known.old
        → IfOk result (TakesOne shape.now (I.intervals i.old) (I.intervals i.new) anchor length) }
    ensures known { I.told i.old → IsKnown shape.now (I.intervals i.old) (uow_of shape.now anchor) length known.old
        → OnOk result (IsKnown shape.now (I.intervals i.new) (uow_of shape.now anchor) length known.new) }
    ensures others { I.told i.old → (n : ℕ) (other : KnownFullOf)
        → IsKnown shape.now (I.intervals i.old) (uow_of shape.now anchor) n other
        → OnOk result (IsKnown shape.now (I.intervals i.new) (uow_of shape.now anchor) n other) }
    ensures in_range { IfOk result (λ room. room.0 < I.number i.new) }
    ensures damaged { I.told i.old → FitsEmpty (I.size i.old) length
        → IsKnown shape.now (I.intervals i.old) (uow_of shape.now anchor) length known.old
        → (n : ℕ) → result ≡ Err (SpaceFault.Damaged n) → IsAtFault shape.now (I.intervals i.old) n }
    ensures failed { IsErrOf result SpaceFault.Failed → Rose (I.faults i.old) (I.faults i.new) }
    ensures number { I.number i.old ≤ I.number i.new }
    ensures goes_on { GoesOn I.told I.size I.faults I.keeps i.old i.new }
{
    let uow = uow_of(shape, anchor);
    match try_standing(i, shape, anchor, length, known)? {
        Some(room) => Ok(room),
        None => join_next(i, shape, uow, length),
    }
}

/// Lets an interval join the list of a unit of work, and takes an element of it.
fn join_next<I: Intervals>(
    i: &mut I,
    shape: &Shape,
    uow: u32,
    needed: u16,
) -> Result<(u64, u16), SpaceFault>
    requires uow { uow < shape.now.uows }
    requires base { 0 < shape.now.base }
    ensures joined { I.told i.old → IfOk result (JoinsNext shape.now uow (I.intervals i.old) (I.intervals i.new)
        needed) }
    ensures in_range { IfOk result (λ room. room.0 < I.number i.new) }
    ensures failed { IsErrOf result SpaceFault.Failed → Rose (I.faults i.old) (I.faults i.new) }
    ensures damaged { I.told i.old → FitsEmpty (I.size i.old) needed → (n : ℕ) → result ≡ Err (SpaceFault.Damaged n)
        → IsAtFault shape.now (I.intervals i.old) n }
    ensures number { I.number i.old ≤ I.number i.new }
    ensures goes_on { GoesOn I.told I.size I.faults I.keeps i.old i.new }
{
    let place = Place {
        ci: 0,
        kind: CONTROL,
        owner: 0,
        from: 0,
    };
    let control = read(i, place)?;
    if control.ends()[3] == 0 {
        join_new(i, shape, uow, control, needed)
    } else {
        join_free(i, shape, uow, control, needed)
    }
}
