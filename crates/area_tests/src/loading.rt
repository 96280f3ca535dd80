//! What is loaded of an area that was written by hand.
ghost use Rattle.std.specs.Prelude.{◌≡◌, length, IfOk};

use crate::customers::customer_of;
use crate::memory::{MemoryArea, shape};
use crate::types::{customer_types, has_roots};
use fp_model::{List, Root};
use root_anchor::{AnchorFault, load};
use std::alloc::{AllocError, Global};
use std::test::Fail;

/// Base interval 1: a root with the newest serial 7 at 32, its first child at 80, the next root at 100.
const BASE: [u8; 152] = [
    2, 0, 0, 0, 0, 0, 0, 0, 0, 0, 0, 1, 0, 32, 0, 0, 0, 0, 0, 0, 0, 0, 0, 0, 0, 0, 0, 0, 0, 0, 0,
    0, 0, 48, 1, 0, 0, 0, 0, 0, 0, 0, 0, 1, 0, 100, 0, 0, 0, 0, 0, 0, 0, 7, 0, 0, 0, 0, 0, 0, 0, 1,
    0, 80, 67, 48, 48, 49, 65, 78, 78, 32, 32, 32, 32, 32, 32, 32, 32, 32, 0, 20, 1, 2, 0, 0, 0, 0,
    0, 0, 0, 3, 0, 32, 76, 49, 0, 0, 1, 12, 0, 48, 1, 0, 0, 0, 0, 0, 0, 0, 0, 0, 0, 0, 0, 0, 0, 0,
    0, 0, 0, 0, 0, 0, 0, 0, 0, 0, 0, 0, 0, 0, 67, 48, 48, 50, 66, 79, 66, 32, 32, 32, 32, 32, 32,
    32, 32, 32, 1, 108, 0, 0,
];

/// Base interval 2, which is empty.
const EMPTY: [u8; 36] = [
    2, 0, 0, 0, 0, 0, 0, 0, 0, 0, 0, 0, 0, 0, 0, 0, 0, 0, 0, 0, 0, 0, 0, 0, 0, 0, 0, 0, 0, 0, 0, 0,
    1, 224, 0, 0,
];

/// Dependent overflow interval 3: the first root's second child at 32.
const DEPENDENT: [u8; 56] = [
    3, 0, 0, 0, 0, 0, 0, 0, 0, 0, 0, 0, 0, 0, 0, 0, 0, 0, 0, 0, 0, 0, 0, 0, 0, 0, 0, 0, 0, 0, 0, 0,
    0, 20, 1, 2, 0, 0, 0, 0, 0, 0, 0, 0, 0, 0, 76, 50, 0, 0, 2, 12, 1, 204, 0, 0,
];

/// How the intervals begin: control, and these.
static FRONTS: [&[u8]; 4] = [&[1], &BASE, &EMPTY, &DEPENDENT];

/// A byte that is written over another: its interval, its place, its value.
struct Change(usize, usize, u8);

/// 512 bytes that begin so, with the changes of the interval of this number.
fn bytes(
    alloc: Global,
    front: &[u8],
    number: usize,
    changes: &[Change],
) -> Result<Vec<u8>, AllocError> {
    let mut bytes = vec![in alloc; 0u8; 512]?;
    for (place, byte) in front.iter().enumerate() {
        if place < bytes.len() {
            bytes[place] = *byte;
        }
    }
    for change in changes {
        if change.0 == number && change.1 < bytes.len() {
            bytes[change.1] = change.2;
        }
    }
    Ok(bytes)
}

/// The area, with some bytes changed.
fn area(alloc: Global, changes: &[Change]) -> Result<MemoryArea, Fail> {
    let mut area = MemoryArea::new(alloc);
    for (number, front) in FRONTS.iter().enumerate() {
        area.add_bytes(&bytes(alloc, front, number, changes)?)?;
    }
    Ok(area)
}

/// The roots of anchor 0: one with two children and the newest serial 7, and one without.
fn written_roots(alloc: Global) -> Result<List<Root>, AllocError> {
    let loans = [*b"L1\x00\x00\x01\x0c", *b"L2\x00\x00\x02\x0c"];
    let mut roots = List::new(alloc);
    roots.push(customer_of(alloc, b"C001ANN         ", 7, &loans)?)?;
    roots.push(customer_of(alloc, b"C002BOB         ", 0, &[])?)?;
    Ok(roots)
}

#[test]
fn roots_are_loaded(rt: HostRuntime) -> Result<(), Fail> {
    let alloc = rt.alloc();
    let types = customer_types(alloc)?;
    let mut area = area(alloc, &[])?;
    let roots = written_roots(alloc)?;
    assert!(rt; has_roots(alloc, &mut area, &shape(1, 1), &types, 0, &roots));
    assert!(rt; has_roots(alloc, &mut area, &shape(1, 1), &types, 1, &List::new(alloc)));
    Ok(())
}

/// Bytes that are changed, and the interval that is damaged then.
static DAMAGES: [(&[Change], u64); 14] = [
    // An element of length 3 in the base interval, and another kind there.
    (&[Change(1, 33, 3)], 1),
    (&[Change(1, 0, 3), Change(1, 11, 0), Change(1, 13, 0)], 1),
    // A root that is its own twin, a child that is, and one whose twin is the child before it.
    (&[Change(1, 45, 32)], 1),
    (&[Change(1, 91, 1), Change(1, 93, 80)], 1),
    (&[Change(3, 43, 1), Change(3, 45, 80)], 3),
    // Pointers outside the area: the root anchor point, and the last twin's.
    (&[Change(1, 11, 9)], 1),
    (&[Change(3, 43, 9)], 3),
    // One into the middle of an element of another interval.
    (&[Change(1, 61, 3), Change(1, 63, 36)], 1),
    // One to an element of another type, as a twin and as a first child.
    (&[Change(1, 45, 80)], 1),
    (&[Change(1, 63, 100)], 1),
    // The first child of both roots.
    (&[Change(1, 129, 1), Change(1, 131, 80)], 1),
    // A byte behind the segment, and an element that is too short.
    (
        &[
            Change(3, 33, 24),
            Change(3, 52, 0),
            Change(3, 53, 0),
            Change(3, 55, 9),
            Change(3, 56, 1),
            Change(3, 57, 200),
        ],
        3,
    ),
    (
        &[
            Change(3, 33, 16),
            Change(3, 48, 1),
            Change(3, 49, 208),
            Change(3, 50, 0),
            Change(3, 51, 0),
        ],
        3,
    ),
    // Bytes that are no interval.
    (&[Change(3, 32, 1)], 3),
];

#[test]
fn damage_is_named(rt: HostRuntime) -> Result<(), Fail> {
    let types = customer_types(rt.alloc())?;
    for (row, (changes, ci)) in DAMAGES.iter().enumerate() {
        let mut area = area(rt.alloc(), changes)?;
        let found = load(rt.alloc(), &mut area, &shape(1, 1), &types, 0).err();
        assert!(rt; found == Some(AnchorFault::Damaged(*ci)), "row {row}");
    }
    Ok(())
}
