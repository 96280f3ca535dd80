//! Roots of an anchor are stored, against what is loaded then and against bytes written by hand.
ghost use Rattle.std.specs.Prelude.{◌<◌, ◌*◌};

use crate::customers::{Customer, roots, segment_of};
use crate::memory::{MemoryArea, formatted, shape};
use crate::types::{customer_types, has_roots};
use ci_space::{Interval, Intervals};
use root_anchor::store;
use std::test::Fail;

/// Stores these at an anchor. Whether the call succeeds.
fn put(
    rt: &HostRuntime,
    area: &mut MemoryArea,
    uows: u32,
    anchor: u32,
    customers: &[Customer],
) -> Result<bool, Fail>
    requires { anchor < uows * 2 }
{
    let types = customer_types(rt.alloc())?;
    let roots = roots(rt.alloc(), customers)?;
    Ok(store(rt.alloc(), area, &shape(uows, 1), &types, anchor, &roots).is_ok())
}

/// Whether an anchor has just these.
fn has(
    rt: &HostRuntime,
    area: &mut MemoryArea,
    uows: u32,
    anchor: u32,
    customers: &[Customer],
) -> Result<bool, Fail>
    requires { anchor < uows * 2 }
{
    let types = customer_types(rt.alloc())?;
    let roots = roots(rt.alloc(), customers)?;
    Ok(has_roots(rt.alloc(), area, &shape(uows, 1), &types, anchor, &roots))
}

/// Stores these at an anchor, and sees that it has just these then.
fn stores(
    rt: &HostRuntime,
    area: &mut MemoryArea,
    uows: u32,
    anchor: u32,
    customers: &[Customer],
) -> Result<bool, Fail>
    requires { anchor < uows * 2 }
{
    Ok(put(rt, area, uows, anchor, customers)? && has(rt, area, uows, anchor, customers)?)
}

/// The area of so many units of work as it is formatted.
fn area(rt: &HostRuntime, uows: u32) -> Result<MemoryArea, Fail> {
    formatted(rt, [1, 256, 0, 0], uows, 1)
}

// ---- a chain that fills its unit of work

/// The numbers of 21 roots.
static NUMBERS: [u8; 21] = [
    1, 9, 12, 23, 34, 45, 56, 67, 70, 78, 81, 89, 92, 100, 108, 111, 119, 122, 133, 144, 155,
];

/// These 21, the name of number 78 being this.
fn customers(rt: &HostRuntime, name: u8) -> Result<Vec<Customer>, Fail> {
    let mut customers = Vec::new(rt.alloc());
    for number in &NUMBERS {
        customers.push(Customer {
            number: *number,
            name: if *number == 78 { name } else { b'A' },
            newest: *number,
            loan: None,
        })?;
    }
    Ok(customers)
}

/// Stores the 21 roots at the first anchor of the second unit of work.
fn stores_chain(rt: &HostRuntime, area: &mut MemoryArea, name: u8) -> Result<bool, Fail> {
    let customers = customers(rt, name)?;
    stores(rt, area, 2, 2, &customers)
}

/// The element of a root without children, whose next twin is this one: its length, used, type 0; the pointer to the
/// twin; the newest serial; no first child; the segment.
fn element(customer: &Customer, next: (u64, u16)) -> [u8; 48] {
    let mut bytes = [0; 48];
    bytes[1] = 48;
    bytes[2] = 1;
    bytes[4..12].copy_from_slice(&next.0.to_be_bytes());
    bytes[12..14].copy_from_slice(&next.1.to_be_bytes());
    bytes[21] = customer.newest;
    bytes[32..48].copy_from_slice(&segment_of(customer));
    bytes
}

/// Whether these roots stand in the elements of three intervals, from the last root to the first: ten in interval 4,
/// ten in 6 and the rest in 8.
fn are_chained(area: &MemoryArea, roots: &[Customer]) -> bool {
    let mut next = (0, 0);
    let mut at: u16 = 32;
    let mut ci: u64 = 4;
    for customer in roots.iter().rev() {
        if !area.has_bytes(ci, usize::from(at), &element(customer, next)) {
            return false;
        }
        next = (ci, at);
        if at == 464 {
            at = 32;
            ci = ci.wrapping_add(2);
        } else {
            at = at.wrapping_add(48);
        }
    }
    true
}

/// Intervals, places, and what stands there.
type Standing = (u64, usize, &'static [u8]);

/// What stands when 21 roots do.
static FULL: [Standing; 4] = [
    // Control: begin 1, end 256, one independent overflow interval, and no free chain.
    (
        0,
        32,
        b"\0\0\0\0\0\0\0\x01\0\0\0\0\0\0\x01\0\0\0\0\0\0\0\0\x01\0\0\0\0\0\0\0\0",
    ),
    // The base interval: kind 2, the root anchor point, 32 of interval 8, the link 8, and no owner.
    (
        4,
        0,
        b"\x02\0\0\0\0\0\0\0\0\0\0\x08\0\x20\0\0\0\0\0\0\0\0\0\x08\0\0\0\0\0\0\0\0",
    ),
    // The new interval: kind 5, no root anchor point, no link, and the second unit of work as its owner.
    (
        8,
        0,
        b"\x05\0\0\0\0\0\0\0\0\0\0\0\0\0\0\0\0\0\0\0\0\0\0\0\0\0\0\0\0\0\0\x02",
    ),
    // C001 there: 48 bytes, used, type 0; its next twin in the dependent overflow interval at 464; the newest serial 1;
    // no first child; the segment.
    (
        8,
        32,
        b"\x00\x30\x01\x00\x00\x00\x00\x00\x00\x00\x00\x06\x01\xd0\x00\x00\x00\x00\x00\x00\x00\x01\
          \x00\x00\x00\x00\x00\x00\x00\x00\x00\x00C001A           ",
    ),
];

/// What stands when nothing does in the unit of work of interval 4, which had interval 8.
static EMPTIED: [Standing; 4] = [
    // Control: one independent overflow interval, and the first of the free chain is 8.
    (0, 48, b"\0\0\0\0\0\0\0\x01\0\0\0\0\0\0\0\x08"),
    // An empty interval is one free element.
    (
        4,
        0,
        b"\x02\0\0\0\0\0\0\0\0\0\0\0\0\0\0\0\0\0\0\0\0\0\0\0\0\0\0\0\0\0\0\0\x01\xe0\0\0",
    ),
    (6, 32, b"\x01\xe0\0\0"),
    (
        8,
        0,
        b"\x05\0\0\0\0\0\0\0\0\0\0\0\0\0\0\0\0\0\0\0\0\0\0\0\0\0\0\0\0\0\0\0\x01\xe0\0\0",
    ),
];

/// Whether an area of two units of work has one interval more, and this stands there.
fn all_stand(area: &MemoryArea, all: &[Standing]) -> bool {
    for (ci, at, bytes) in all {
        if !area.has_bytes(*ci, *at, bytes) {
            return false;
        }
    }
    area.count() == 9
}

/// Intervals, places, and whether an element is used there, when 21 roots stand.
static USED: [(u64, u16, bool); 4] = [
    (4, 464, true),
    (6, 464, true),
    (8, 32, true),
    (8, 80, false),
];

/// Whether elements are used there.
fn are_used(area: &MemoryArea) -> bool {
    for (ci, at, is_used) in &USED {
        if area.is_used(*ci, *at) != *is_used {
            return false;
        }
    }
    true
}

#[test]
fn a_chain_fills_the_intervals_of_its_unit(rt: HostRuntime) -> Result<(), Fail> {
    let mut area = area(&rt, 2)?;
    assert!(rt; stores_chain(&rt, &mut area, b'A')?);
    assert!(rt; all_stand(&area, &FULL) && are_used(&area));
    assert!(rt; are_chained(&area, &customers(&rt, b'A')?));
    Ok(())
}

#[test]
fn no_roots_give_the_intervals_back(rt: HostRuntime) -> Result<(), Fail> {
    let mut area = area(&rt, 2)?;
    assert!(rt; stores_chain(&rt, &mut area, b'A')?);
    assert!(rt; stores(&rt, &mut area, 2, 2, &[])?);
    assert!(rt; all_stand(&area, &EMPTIED));
    Ok(())
}

/// How many bytes differ in two lists, and the place of the last that does, with what the new one has there.
fn changed_bytes(old: &[u8], new: &[u8]) -> (u64, usize, u8) {
    let mut changed = (0u64, 0, 0);
    for (place, (before, after)) in old.iter().zip(new).enumerate() {
        if *before != *after {
            changed = (changed.0.saturating_add(1), place, *after);
        }
    }
    changed
}

/// What changes where the chain is stored once more, one root of it with another name. None where a call fails.
fn changed_by_a_name(rt: &HostRuntime) -> Result<Option<(u64, usize, u8)>, Fail> {
    let mut area = area(rt, 2)?;
    if !stores_chain(rt, &mut area, b'A')? {
        return Ok(None);
    }
    let before = area.bytes()?;
    if !stores_chain(rt, &mut area, b'B')? {
        return Ok(None);
    }
    Ok(Some(changed_bytes(&before, &area.bytes()?)))
}

#[test]
fn one_root_that_changes_is_written_alone(rt: HostRuntime) -> Result<(), Fail> {
    // The name of C078, the second element of interval 6 from its front.
    let wanted = (1, 6 * 512 + 32 + 48 + 36, b'B');
    assert!(rt; changed_by_a_name(&rt)? == Some(wanted));
    Ok(())
}

// ---- roots with children come and go

/// Whether an element that is used at a place stays.
fn stays(old: &Interval, new: &Interval, at: u16) -> bool {
    if !old.is_used(at) {
        return true;
    }
    if !new.is_used(at) {
        return false;
    }
    old.content(at) == new.content(at)
}

/// How many used elements of an interval don't stay.
fn changed_within(old: &Interval, new: &Interval) -> u32 {
    let mut changed: u32 = 0;
    for place in 8..128u16 {
        if !stays(old, new, place * 4) {
            changed = changed.saturating_add(1);
        }
    }
    changed
}

/// How many used elements of an area don't stay. None where it can't be read.
fn changed_elements(old: &MemoryArea, new: &MemoryArea) -> Option<u32> {
    let mut changed: u32 = 0;
    for ci in 0..old.count() {
        match (old.interval(ci), new.interval(ci)) {
            (Some(before), Some(after)) => {
                changed = changed.saturating_add(changed_within(before, after));
            }
            _ => return None,
        }
    }
    Some(changed)
}

/// So many roots, each with a child of the same key.
fn lenders(rt: &HostRuntime, count: u8) -> Result<Vec<Customer>, Fail> {
    let mut customers = Vec::new(rt.alloc());
    for number in 0..count {
        customers.push(Customer {
            number,
            name: b'A',
            newest: 0,
            loan: Some(number),
        })?;
    }
    Ok(customers)
}

/// An area in which so many lenders stood, one number after another. None where they didn't.
fn lent(rt: &HostRuntime, counts: &[u8]) -> Result<Option<MemoryArea>, Fail> {
    let mut area = area(rt, 2)?;
    for count in counts {
        let customers = lenders(rt, *count)?;
        if !stores(rt, &mut area, 2, 1, &customers)? {
            return Ok(None);
        }
    }
    Ok(Some(area))
}

/// So many lenders at first, then so many and so many, and how many used elements don't stay: where one comes, that of
/// the twin before it, which points to it; where one goes, its own, its child's and that of the twin before it.
static LENDERS: [(&[u8], &[u8], u32); 3] = [
    (&[10], &[10, 10, 11], 1),
    (&[11], &[11, 11, 10], 3),
    (&[10], &[10, 11, 10], 0),
];

#[test]
fn a_root_that_comes_or_goes_moves_no_other(rt: HostRuntime) -> Result<(), Fail> {
    for (row, (first, all, wanted)) in LENDERS.iter().enumerate() {
        match (lent(&rt, first)?, lent(&rt, all)?) {
            (Some(before), Some(after)) => {
                let changed = changed_elements(&before, &after);
                assert!(rt; changed == Some(*wanted), "row {row}");
            }
            _ => assert!(rt; false, "row {row}"),
        }
    }
    Ok(())
}

// ---- the bytes of one root

/// A root with a newest serial and a child.
static LENDER: [Customer; 1] = [Customer {
    number: 1,
    name: b'A',
    newest: 7,
    loan: Some(5),
}];

/// Its child at 32: 20 bytes, used, type 2; no next twin; the segment. The root at 52: 48 bytes, used, type 0; no next
/// twin; the newest serial 7; the first child at 32 of interval 1; the segment. Then 412 free bytes.
static LENDER_BYTES: &[u8] =
    b"\x00\x14\x01\x02\x00\x00\x00\x00\x00\x00\x00\x00\x00\x00L1\x00\x00\x05\x0c\
    \x00\x30\x01\x00\x00\x00\x00\x00\x00\x00\x00\x00\x00\x00\x00\x00\x00\x00\x00\x00\x00\x07\
    \x00\x00\x00\x00\x00\x00\x00\x01\x00\x20C001A           \x01\x9c\x00\x00";

/// The front of its base interval: kind 2, and the root anchor point, 52 of interval 1.
static LENDER_HEAD: &[u8] = b"\x02\0\0\0\0\0\0\0\0\0\0\x01\0\x34";

#[test]
fn elements_say_their_segments(rt: HostRuntime) -> Result<(), Fail> {
    let mut area = area(&rt, 1)?;
    assert!(rt; put(&rt, &mut area, 1, 0, &LENDER)?);
    assert!(rt; area.has_bytes(1, 0, LENDER_HEAD));
    assert!(rt; area.has_bytes(1, 32, LENDER_BYTES));
    Ok(())
}

/// How often an interval is put when it is stored, and when it is again.
static PUTS: [u64; 2] = [1, 0];

#[test]
fn the_same_again_is_not_written(rt: HostRuntime) -> Result<(), Fail> {
    let mut area = area(&rt, 1)?;
    for puts in &PUTS {
        let before = area.calls();
        assert!(rt; put(&rt, &mut area, 1, 1, &LENDER)?);
        assert!(rt; area.calls_since(before).1 == *puts, "{puts}");
    }
    Ok(())
}
