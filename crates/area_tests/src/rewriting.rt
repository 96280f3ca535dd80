//! Roots that are stored whole, changed in place and with one segment more; and which interval is named where the
//! overflow list of a unit of work is broken.
ghost use Rattle.std.specs.Prelude.{◌≡◌, ◌<◌, List as ListOf, true};
ghost use Rattle.fp_model.specs.declared.definitions.SegDef.{SegDef as SegDefOf};
ghost use Rattle.area_tests.specs.Types.{AreFamilyTypes};
ghost use Rattle.root_anchor.specs.Chains.{anchor_count};
ghost use Rattle.root_anchor.specs.Stored.{are_storable};

use crate::families::{Keys, NO_KEYS, NONE, Parent, Row, of_row, roots};
use crate::memory::{MemoryArea, formatted, shape};
use crate::types::{family_types, has_roots};
use ci_space::{Head, Intervals, Shape};
use fp_model::{List, Root};
use root_anchor::{AnchorFault, rewrite, store};
use std::alloc::Global;
use std::test::Fail;

/// Nobody is left out.
const NOBODY: (u8, u8) = (0, 0);

/// The area as it is formatted, with so many sequential intervals.
fn area(rt: &HostRuntime, seq_cis: u32) -> Result<MemoryArea, Fail> {
    formatted(rt, [1, 1, 0, 0], 2, seq_cis)
}

// ---- one parent

/// Whether an anchor has just these parents.
fn has(alloc: Global, area: &mut MemoryArea, anchor: u32, list: &[Parent]) -> Result<bool, Fail>
    requires { anchor < 4 }
{
    let types = family_types(alloc)?;
    let roots = roots(alloc, list, NOBODY)?;
    Ok(has_roots(alloc, area, &shape(2, 1), &types, anchor, &roots))
}

/// Stores parents at an anchor. Whether the call succeeds.
fn stores(alloc: Global, area: &mut MemoryArea, anchor: u32, list: &[Parent]) -> Result<bool, Fail>
    requires { anchor < 4 }
{
    let types = family_types(alloc)?;
    let roots = roots(alloc, list, NOBODY)?;
    Ok(store(alloc, area, &shape(2, 1), &types, anchor, &roots).is_ok())
}

/// A parent, and how often intervals are got and put when it is stored. It has three times as many addresses as its
/// first loan has payments. A parent has 48 bytes, each loan 32, a payment 20, an address 24: in all 224, which the
/// base interval holds, and 592, of which the dependent overflow holds a part.
static COUNTS: [(Row, (u64, u64)); 2] = [
    ((1, b'A', &[1, 1], 3), (1, 1)),
    ((1, b'A', &[5, 1], 15), (2, 2)),
];

/// How often intervals are got and put when a parent is stored in a new area, and got when it is read again. None where
/// a call fails.
fn calls_of_one(rt: &HostRuntime, one: Row) -> Result<Option<((u64, u64), u64)>, Fail> {
    let mut area = area(rt, 1)?;
    let list = [of_row(one)];
    if !stores(rt.alloc(), &mut area, 0, &list)? {
        return Ok(None);
    }
    let calls = area.calls();
    if !has(rt.alloc(), &mut area, 0, &list)? {
        return Ok(None);
    }
    Ok(Some((calls, area.calls_since(calls).0)))
}

/// When it is read again they are got as often as when it was stored.
#[test]
fn an_interval_is_got_and_put_once(rt: HostRuntime) -> Result<(), Fail> {
    for (number, (row, calls)) in COUNTS.iter().enumerate() {
        let found = calls_of_one(&rt, *row)?;
        assert!(rt; found == Some((*calls, calls.0)), "row {number}");
    }
    Ok(())
}

// ---- changes in place, and one segment more

/// How many intervals are got and put when roots become others. None where these aren't read back.
fn calls_between(
    alloc: Global,
    area: &mut MemoryArea,
    shape: &Shape,
    before: &List<Root>,
    after: &List<Root>,
) -> Result<Option<(u64, u64)>, Fail>
    requires some { 0 < anchor_count shape.now }
    requires after { (types : ListOf SegDefOf) → AreFamilyTypes types → are_storable types after.now ≡ true }
{
    let types = family_types(alloc)?;
    let stood = area.calls();
    let changed = rewrite(alloc, area, shape, &types, 0, before, after);
    let calls = area.calls_since(stood);
    if changed.is_ok() && has_roots(alloc, area, shape, &types, 0, after) {
        return Ok(Some(calls));
    }
    Ok(None)
}

/// The same for parents, of whom some are missing before.
fn calls_of(
    rt: &HostRuntime,
    seq_cis: u32,
    before: &[Parent],
    gone: (u8, u8),
    after: &[Parent],
) -> Result<Option<(u64, u64)>, Fail> {
    let types = family_types(rt.alloc())?;
    let mut area = area(rt, seq_cis)?;
    let shape = shape(2, seq_cis);
    let before = roots(rt.alloc(), before, gone)?;
    let after = roots(rt.alloc(), after, NOBODY)?;
    if store(rt.alloc(), &mut area, &shape, &types, 0, &before).is_err() {
        return Ok(None);
    }
    calls_between(rt.alloc(), &mut area, &shape, &before, &after)
}

/// Three parents with two loans of two payments and two addresses, of whom the first says this, and of the first and
/// the third these are changed.
fn three(says: u8, first: Keys, third: Keys) -> [Parent; 3] {
    [
        Parent {
            changed: first,
            ..of_row((1, says, &[2, 2], 2))
        },
        of_row((2, b'C', &[2, 2], 2)),
        Parent {
            changed: third,
            ..of_row((3, b'C', &[2, 2], 2))
        },
    ]
}

/// What the first parent says, what is changed below it and below the third, and how many intervals are got and put. A
/// family has 240 bytes of elements: a parent 48, a loan 32, a payment 20, an address 24. The last two fill the base
/// interval, and the first stands in the dependent overflow. So two segments that change stand in two intervals, and
/// one alone in one. The base interval is got for its root anchor point, and the other for the first parent, from which
/// pointers lead on.
static CHANGES: [(u8, Keys, Keys, (u64, u64)); 6] = [
    (b'X', NO_KEYS, NO_KEYS, (2, 1)),
    (b'C', NO_KEYS, Keys(1, NONE, NONE), (2, 1)),
    (b'C', Keys(NONE, 1, NONE), NO_KEYS, (2, 1)),
    (b'C', NO_KEYS, Keys(NONE, NONE, 1), (2, 1)),
    (b'C', NO_KEYS, NO_KEYS, (0, 0)),
    (b'X', NO_KEYS, Keys(NONE, NONE, 1), (2, 2)),
];

#[test]
fn a_segment_that_changes_alone_is_put_alone(rt: HostRuntime) -> Result<(), Fail> {
    let before = three(b'C', NO_KEYS, NO_KEYS);
    for (row, (says, first, third, calls)) in CHANGES.iter().enumerate() {
        let after = three(*says, *first, *third);
        let found = calls_of(&rt, 1, &before, NOBODY, &after)?;
        assert!(rt; found == Some(*calls), "row {row}");
    }
    Ok(())
}

/// Four parents. The second has three addresses and these loans, without what is missing.
fn four(loans: &'static [u8], missing: Keys) -> [Parent; 4] {
    [
        of_row((0, b'C', &[], 0)),
        Parent {
            missing,
            ..of_row((1, b'C', loans, 3))
        },
        of_row((2, b'C', &[], 0)),
        of_row((3, b'C', &[], 0)),
    ]
}

/// The payments of the second parent's loans, of which only the second has some.
const FEW: &[u8] = &[0, 3, 0];

const MANY: &[u8] = &[0, 31, 0];

/// These payments, the parent that is missing, what is missing below the second, and how many intervals are got and put
/// when it comes.
///
/// An element of a parent has 48 bytes, of a loan 32, of a payment 20, of an address 24. With three payments they all
/// stand in the anchor's base interval. With 31 they have 980 bytes, and that one and the dependent overflow hold 960.
/// So the area grows then: control, the first base interval with the link, the new interval, and the one that holds the
/// pointer, where that is the dependent overflow.
static GAINS: [(&[u8], u8, Keys, (u64, u64)); 14] = [
    (FEW, 0, NO_KEYS, (1, 1)),
    (FEW, 2, NO_KEYS, (1, 1)),
    (FEW, 3, NO_KEYS, (1, 1)),
    (FEW, NONE, Keys(2, NONE, NONE), (1, 1)),
    (FEW, NONE, Keys(NONE, 0, NONE), (1, 1)),
    (FEW, NONE, Keys(NONE, NONE, 1), (1, 1)),
    (MANY, 0, NO_KEYS, (4, 3)),
    (MANY, 2, NO_KEYS, (4, 4)),
    (MANY, 3, NO_KEYS, (4, 3)),
    (MANY, NONE, Keys(0, NONE, NONE), (4, 4)),
    (MANY, NONE, Keys(NONE, 0, NONE), (4, 4)),
    (MANY, NONE, Keys(NONE, 1, NONE), (4, 4)),
    (MANY, NONE, Keys(NONE, 30, NONE), (4, 3)),
    (MANY, NONE, Keys(NONE, NONE, 1), (4, 3)),
];

/// The rows.
fn gains() -> &'static [(&'static [u8], u8, Keys, (u64, u64))] {
    &GAINS
}

/// Sequential intervals in an area of 11 intervals, and in one of 1,001.
static AREAS: [u32; 2] = [4, 994];

#[test]
fn a_segment_more_is_put_with_one_pointer(rt: HostRuntime) -> Result<(), Fail> {
    for seq_cis in &AREAS {
        for (row, (loans, gone, missing, calls)) in gains().iter().enumerate() {
            let before = four(loans, *missing);
            let after = four(loans, NO_KEYS);
            let gone = (*gone, gone.saturating_add(1));
            let found = calls_of(&rt, *seq_cis, &before, gone, &after)?;
            assert!(rt; found == Some(*calls), "row {row}");
        }
    }
    Ok(())
}

// ---- a broken list behind a chain that stands

/// Lets the link of an interval lead outside the area, and answers whether it is there.
fn break_link(area: &mut MemoryArea, ci: u64) -> bool {
    if ci >= area.count() {
        return false;
    }
    let Ok(mut interval) = area.get(ci) else {
        return false;
    };
    let head = interval.head();
    if head.kind != 5 {
        return false;
    }
    interval.set_head(Head { link: 99, ..head });
    area.put(ci, interval).is_ok()
}

/// Parents with nothing below them, with the keys from 10 to before `last`.
fn plain(rt: &HostRuntime, last: u8) -> Result<Vec<Parent>, Fail> {
    let mut list = Vec::new(rt.alloc());
    for key in 10..last {
        list.push(of_row((key, b'C', &[], 0)))?;
    }
    Ok(list)
}

/// Stores plain parents at the first anchor of an area without a sequential part.
fn store_plain(
    rt: &HostRuntime,
    area: &mut MemoryArea,
    last: u8,
    gone: (u8, u8),
) -> Result<Result<(), AnchorFault>, Fail> {
    let types = family_types(rt.alloc())?;
    let list = plain(rt, last)?;
    let roots = roots(rt.alloc(), &list, gone)?;
    Ok(store(rt.alloc(), area, &shape(2, 0), &types, 0, &roots))
}

/// Whether storing one parent more names this interval, where the last interval of the list holds a bad link and these
/// parents go.
fn is_named(rt: &HostRuntime, gone: (u8, u8), ci: u64) -> Result<bool, Fail> {
    let mut area = area(rt, 0)?;
    if store_plain(rt, &mut area, 60, NOBODY)?.is_err() || !break_link(&mut area, 7) {
        return Ok(false);
    }
    match store_plain(rt, &mut area, 61, gone)? {
        Err(AnchorFault::Damaged(found)) => Ok(found == ci),
        _ => Ok(false),
    }
}

/// The parents that go, and the interval that is named.
///
/// An element of a parent has 48 bytes, so ten fill an interval. Room is taken for the last parent first: 50 to 59
/// stand in the base interval, 40 to 49 in the dependent overflow, 30 to 39 in interval 7, 20 to 29 in 8, 10 to 19 in
/// 9. The list is 9, 8, 7, and the link of 7 is bad. One parent more needs room, and the walk comes to the bad link: it
/// stands in 7, or where that became empty in 8, which leads to where 7 led. In the area before 8 is good.
static NAMED: [((u8, u8), u64); 4] = [(NOBODY, 7), ((10, 20), 7), ((20, 30), 7), ((30, 40), 8)];

#[test]
fn the_interval_that_holds_the_bad_link_by_then_is_named(rt: HostRuntime) -> Result<(), Fail> {
    for (row, (gone, ci)) in NAMED.iter().enumerate() {
        assert!(rt; is_named(&rt, *gone, *ci)?, "row {row}");
    }
    Ok(())
}
