//! The sequential part of an area: what is appended is read, full comes by the count, and damage is named.
ghost use Rattle.std.specs.Prelude.{◌≡◌, ◌<◌, length, All, IfOk, IsTrue};
ghost use Rattle.ci_space.specs.Interval.{is_kind};

use crate::memory::{MemoryArea, control, formatted, shape};
use ci_space::Intervals;
use fp_model::{Bytes, List, SeqItem};
use seq_dependents::{SeqFault, append, purge, read, read_down};
use std::alloc::{AllocError, Global};
use std::test::Fail;

/// The slots of the part: five intervals of twenty slots of 24 bytes.
const CAPACITY: u32 = 100;

/// An area with these ends, whose last sequential interval has this kind.
fn area(rt: &HostRuntime, begin: u64, end: u64, last: u8) -> Result<MemoryArea, Fail>
    requires { IsTrue (is_kind last) }
{
    let mut area = formatted(rt, [begin, end, 0, 0], 1, 4)?;
    area.add_empty(last)?;
    Ok(area)
}

/// The segment of a serial: the serial itself, in 8 bytes.
fn segment(alloc: Global, serial: u64) -> Result<Bytes, AllocError>
    ensures { IfOk result (λ bytes. length bytes ≡ 8) }
{
    Bytes::from_slice(alloc, &serial.to_be_bytes())
}

/// The segments of so many serials from `first` on.
fn segments(alloc: Global, first: u64, count: u8) -> Result<List<Bytes>, AllocError>
    requires { 0 < count }
    ensures some { IfOk result (λ items. 0 < length items) }
    ensures whole { IfOk result (λ items. All (λ item. length item ≡ 8) items) }
{
    let mut items = List::new(alloc);
    items.push(segment(alloc, first)?)?;
    for more in 1..count {
        items.push(segment(alloc, first.wrapping_add(u64::from(more)))?)?;
    }
    Ok(items)
}

/// Appends so many serials from `first` on behind a root's newest one.
#[tactic(auto, using(crate::proofs::Slots::holds_items, crate::proofs::Slots::are_whole))]
fn append_all(
    alloc: Global,
    area: &mut MemoryArea,
    newest: u64,
    first: u64,
    count: u8,
) -> Result<Result<u64, SeqFault>, AllocError>
    requires { 0 < count }
{
    let items = segments(alloc, first, count)?;
    Ok(append(alloc, area, &shape(1, 5), CAPACITY, newest, &items))
}

/// The previous serial and the segment of a serial.
#[tactic(auto, using(crate::proofs::Slots::holds))]
fn read_one(
    alloc: Global,
    area: &mut MemoryArea,
    serial: u64,
) -> Result<Option<(u64, Bytes)>, SeqFault> {
    read(alloc, area, &shape(1, 5), CAPACITY, 8, serial)
}

/// A root's list from its newest serial down.
#[tactic(auto, using(crate::proofs::Slots::holds))]
fn read_list(alloc: Global, area: &mut MemoryArea, newest: u64) -> Result<List<SeqItem>, SeqFault> {
    read_down(alloc, area, &shape(1, 5), CAPACITY, 8, newest)
}

/// Whether a call answers this number.
fn is_ok(answer: Result<u64, SeqFault>, wanted: u64) -> bool {
    match answer {
        Ok(found) => found == wanted,
        Err(_) => false,
    }
}

/// Whether a call names this interval.
fn is_damaged(answer: Result<u64, SeqFault>, wanted: u64) -> bool {
    match answer {
        Err(SeqFault::Damaged(ci)) => ci == wanted,
        _ => false,
    }
}

// ---- many serials, against plain numbers

/// What the part holds, as plain numbers: its ends, the newest serial of each of three roots, and the previous serial
/// of each serial from 1 on.
#[derive(Drop)]
struct Plain {
    begin: u64,
    end: u64,
    newest: [u64; 3],
    previous: Vec<u64>,
}

/// Appends one list of serials of a root.
fn add(plain: &mut Plain, root: usize, count: u8) -> Result<(), AllocError>
    requires { root < 3 }
{
    for _ in 0..count {
        plain.previous.push(plain.newest[root])?;
        plain.newest[root] = plain.end;
        plain.end = plain.end.wrapping_add(1);
    }
    Ok(())
}

/// The previous serial of a serial that was appended, 0 for none.
fn previous_of(plain: &Plain, serial: u64) -> u64 {
    let place = serial.wrapping_sub(1) as usize;
    if place < plain.previous.len() {
        plain.previous[place]
    } else {
        0
    }
}

/// Whether the serials from `first` on are read as they were appended.
fn are_read(
    alloc: Global,
    area: &mut MemoryArea,
    plain: &Plain,
    first: u64,
) -> Result<bool, AllocError> {
    for serial in first..plain.end {
        let wanted = segment(alloc, serial)?;
        let is_so = match read_one(alloc, area, serial) {
            Ok(Some((previous, bytes))) => {
                previous == previous_of(plain, serial) && bytes == wanted
            }
            _ => false,
        };
        if !is_so {
            return Ok(false);
        }
    }
    Ok(true)
}

/// A root's list as it is to be: from its newest serial down, as long as they are kept.
fn list_of(alloc: Global, plain: &Plain, root: usize) -> Result<List<SeqItem>, AllocError>
    requires { root < 3 }
{
    let mut items = List::new(alloc);
    let mut serial = plain.newest[root];
    for _ in 0..CAPACITY {
        if serial < plain.begin || serial == 0 {
            break;
        }
        items.push(SeqItem {
            serial,
            bytes: segment(alloc, serial)?,
        })?;
        serial = previous_of(plain, serial);
    }
    Ok(items)
}

/// Whether a call answers that the part is full for so many items, with its two ends.
fn is_full(answer: Result<u64, SeqFault>, plain: &Plain, count: u8) -> bool {
    match answer {
        Err(SeqFault::Full { begin, end, n }) => {
            begin == plain.begin && end == plain.end && n == u64::from(count)
        }
        _ => false,
    }
}

/// Purges thirteen serials. Whether the part begins where it is to.
fn purges(area: &mut MemoryArea, plain: &mut Plain) -> bool {
    plain.begin = plain.begin.wrapping_add(13).min(plain.end);
    is_ok(purge(area, 13), plain.begin)
}

/// Whether the list of a root is read as it is to be.
fn is_listed(
    alloc: Global,
    area: &mut MemoryArea,
    plain: &Plain,
    root: usize,
) -> Result<bool, AllocError>
    requires { root < 3 }
{
    let wanted = list_of(alloc, plain, root)?;
    match read_list(alloc, area, plain.newest[root]) {
        Ok(items) => Ok(items == wanted),
        Err(_) => Ok(false),
    }
}

/// Appends up to seven items to a root, or finds the part full and purges it. Whether all is as it is to be.
fn turn(
    alloc: Global,
    area: &mut MemoryArea,
    plain: &mut Plain,
    number: u32,
) -> Result<bool, AllocError> {
    let count = 1 + (number % 7) as u8;
    let root = (number % 3) as usize;
    let first = plain.end;
    let kept = first
        .wrapping_sub(plain.begin)
        .wrapping_add(u64::from(count));
    let answer = append_all(alloc, area, plain.newest[root], first, count)?;
    if kept > u64::from(CAPACITY) {
        return Ok(is_full(answer, plain, count) && purges(area, plain));
    }
    add(plain, root, count)?;
    Ok(
        is_ok(answer, plain.newest[root])
            && are_read(alloc, area, plain, first)?
            && is_listed(alloc, area, plain, root)?,
    )
}

/// More than 5,000 serials through the part.
#[test]
fn what_is_appended_is_read_and_full_comes_by_the_count(rt: HostRuntime) -> Result<(), Fail> {
    let mut area = area(&rt, 1, 1, 4)?;
    let mut plain = Plain {
        begin: 1,
        end: 1,
        newest: [0; 3],
        previous: Vec::new(rt.alloc()),
    };
    for number in 0..2000u32 {
        assert!(rt;
            turn(rt.alloc(), &mut area, &mut plain, number)?,
            "turn {number}"
        );
    }
    assert!(rt; plain.end > 5000);
    Ok(())
}

// ---- damage

/// The ends that control says, and the interval that a call names which is to put five items, or none. The last
/// sequential interval, 8, has another kind; the slots of the serials from 80 on stand there.
static DAMAGE: [(u64, u64, Option<u64>); 5] = [
    (1, 1, None),
    (0, 1, Some(0)),
    (5, 4, Some(0)),
    (1, 102, Some(0)),
    (90, 98, Some(8)),
];

#[test]
fn damage_of_the_part_is_named(rt: HostRuntime) -> Result<(), Fail> {
    for (row, (begin, end, damaged)) in DAMAGE.iter().enumerate() {
        let mut area = area(&rt, *begin, *end, 2)?;
        let answer = append_all(rt.alloc(), &mut area, 0, *end, 5)?;
        let is_so = match damaged {
            Some(ci) => is_damaged(answer, *ci),
            None => is_ok(answer, 5),
        };
        assert!(rt; is_so, "row {row}");
    }
    Ok(())
}

#[test]
fn a_serial_used_again_is_damage_of_its_interval(rt: HostRuntime) -> Result<(), Fail> {
    let mut area = area(&rt, 1, 1, 4)?;
    assert!(rt; is_ok(append_all(rt.alloc(), &mut area, 0, 1, 5)?, 5));
    // Control says that the serials from 101 to 105 are kept, whose slots hold those from 1 to 5.
    let again = control(rt.alloc(), [101, 106, 0, 0])?;
    assert!(rt; area.count() > 0 && area.put(0, again).is_ok());
    let answer = read_one(rt.alloc(), &mut area, 103);
    assert!(rt; matches!(answer, Err(SeqFault::Damaged(4))));
    Ok(())
}

/// How many items are put, and how many intervals are got and put then: control, and those with their slots.
static COUNTS: [(u8, u64); 3] = [(1, 2), (19, 2), (100, 6)];

#[test]
fn an_interval_is_got_and_put_once(rt: HostRuntime) -> Result<(), Fail> {
    for (count, calls) in &COUNTS {
        let mut area = area(&rt, 1, 1, 4)?;
        let answer = append_all(rt.alloc(), &mut area, 0, 1, (*count).max(1))?;
        assert!(rt; is_ok(answer, u64::from(*count)), "{count}");
        assert!(rt; area.calls() == (*calls, *calls), "{count}");
    }
    Ok(())
}
