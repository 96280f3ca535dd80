//! The states of an area: changed anchors and notes are put into it, a Purge moves its begin, and what it stands for is
//! read back; and what comes of it where it can't be read any more.
ghost use Rattle.area_runs.specs.Bank.{HasCustomers, IsNote};
ghost use Rattle.area_runs.specs.Types.{AreCustomerTypes};
ghost use Rattle.area_states.specs.Changes.{kept_root};
ghost use Rattle.area_tests.specs.Lone.{IsLonePlace};
ghost use Rattle.fp_model.specs.declared.definitions.SegDef.{SegDef as SegDefOf};
ghost use Rattle.root_anchor.specs.Stored.{are_storable, is_storable};
ghost use Rattle.std.specs.List.{AllByRecursion};
ghost use Rattle.std.specs.Prelude.{◌≡◌, IfOk, List as ListOf, length, map, true};

use crate::customers::customer_of;
use crate::memory::{MemoryArea, formatted, shape};
use crate::types::customer_types;
use area_states::{Place, append_all, store_all};
use fp_model::{AnchorChange, Bytes, List, Root, SeqInsert, SeqItem};
use root_anchor::{AnchorFault, load};
use seq_dependents::{SeqFault, purge, read_down, read_ends};
use std::alloc::{AllocError, Global};
use std::test::Fail;

/// The database of the area; another area of it has the anchors that aren't its own.
const DEDB: u8 = 1;

/// The second area of its database, whose first anchor is the third there. It has one unit of work of two base
/// intervals and a dependent overflow interval, four sequential intervals, and room for five notes.
fn place(alloc: Global) -> Result<Place, AllocError>
    ensures { IfOk result IsLonePlace }
{
    Ok(Place {
        dedb: DEDB,
        number: 1,
        first_anchor: 2,
        shape: shape(1, 4),
        capacity: 5,
        segments: customer_types(alloc)?,
    })
}

/// A customer's key, its name and its newest serial, 0 for none.
type Customer = (u8, u8, u64);

/// An anchor of the database, and its customers.
type Changed = (u32, &'static [Customer]);

/// A note: the anchor of the database, the customer's key and the letter.
type Note = (u32, u8, u8);

/// What is done with the area, and what is to come of it. The area has the anchors 2 and 3 of its database, which are
/// its own 0 and 1; 4 is of another area.
enum Step {
    /// These anchors of the database get these customers.
    Store(&'static [Changed]),
    /// Notes are put.
    Append(&'static [Note]),
    /// There is no room for such notes: begin, end, how many are of this area.
    Full(&'static [Note], (u64, u64, u64)),
    /// So many serials are purged, and the part begins there.
    Purge(u64, u64),
    /// The part has these ends.
    Ends(u64, u64),
    /// An anchor of the area has so many customers.
    Count(u32, usize),
    /// The customer of this number at an anchor of the area, and its notes, the newest first: serial and letter.
    Has(u32, usize, Customer, &'static [(u64, u8)]),
}

use Step::{Append, Count, Ends, Full, Has, Purge, Store};

static A_YEAR: [Step; 36] = [
    Ends(1, 1),
    Count(0, 0),
    // The later roots of an anchor take the place of the earlier ones; those of another area change nothing here.
    Store(&[
        (3, &[(b'D', b'd', 0)]),
        (3, &[(b'C', b'c', 0)]),
        (4, &[(b'Z', b'z', 0)]),
    ]),
    Store(&[(2, &[(b'A', b'a', 0), (b'B', b'b', 0)])]),
    Count(0, 2),
    Has(0, 1, (b'B', b'b', 0), &[]),
    Count(1, 1),
    Has(1, 0, (b'C', b'c', 0), &[]),
    // Notes of two anchors in one call.
    Append(&[
        (2, b'A', b'1'),
        (3, b'C', b'2'),
        (2, b'A', b'3'),
        (4, b'Z', b'9'),
        (2, b'B', b'4'),
    ]),
    Ends(1, 5),
    Has(0, 0, (b'A', b'a', 3), &[(3, b'3'), (1, b'1')]),
    Has(0, 1, (b'B', b'b', 4), &[(4, b'4')]),
    Has(1, 0, (b'C', b'c', 2), &[(2, b'2')]),
    // Five is the most that the part holds, and then nothing is put.
    Full(
        &[(3, b'C', b'5'), (4, b'Z', b'8'), (2, b'A', b'6')],
        (1, 5, 2),
    ),
    Ends(1, 5),
    Has(1, 0, (b'C', b'c', 2), &[(2, b'2')]),
    // A newest serial below begin is no note any more.
    Purge(2, 3),
    Has(0, 0, (b'A', b'a', 3), &[(3, b'3')]),
    Has(1, 0, (b'C', b'c', 2), &[]),
    // The part is filled to the last slot; what is put in front of a purged note stands alone.
    Append(&[(3, b'C', b'5'), (3, b'C', b'6'), (2, b'A', b'7')]),
    Ends(3, 8),
    Has(1, 0, (b'C', b'c', 6), &[(6, b'6'), (5, b'5')]),
    Has(0, 0, (b'A', b'a', 7), &[(7, b'7'), (3, b'3')]),
    Full(&[(2, b'B', b'8')], (3, 8, 1)),
    // A Purge ends at the end. Customers without notes keep their newest serials when their anchor is stored.
    Purge(9, 8),
    Store(&[(2, &[(b'A', b'x', 0), (b'B', b'b', 0)])]),
    Has(0, 0, (b'A', b'x', 7), &[]),
    Has(0, 1, (b'B', b'b', 4), &[]),
    // A note of no customer uses its serial up.
    Append(&[(2, b'B', b'9'), (2, b'Q', b'0')]),
    Ends(8, 10),
    Has(0, 1, (b'B', b'b', 8), &[(8, b'9')]),
    // A customer that is changed brings its notes with it, and one that isn't stored again is gone.
    Store(&[(2, &[(b'B', b'y', 8)])]),
    Count(0, 1),
    Has(0, 0, (b'B', b'y', 8), &[(8, b'9')]),
    Append(&[(4, b'Z', b'0')]),
    Ends(8, 10),
];

/// A note: a letter eight times.
fn note(alloc: Global, letter: u8) -> Result<Bytes, AllocError>
    ensures { IfOk result (λ bytes. length bytes ≡ 8) }
{
    Bytes::from_slice(alloc, &[letter; 8])
}

/// Notes as they are read: serial and letter.
fn items_of(alloc: Global, rows: &[(u64, u8)]) -> Result<List<SeqItem>, AllocError> {
    let mut items = List::new(alloc);
    for (serial, letter) in rows {
        items.push(SeqItem {
            serial: *serial,
            bytes: note(alloc, *letter)?,
        })?;
    }
    Ok(items)
}

/// The segment of a customer.
fn segment_of(key: u8, name: u8) -> [u8; 16] {
    let mut text = [b' '; 16];
    text[0] = key;
    text[4] = name;
    text
}

/// The root of a customer. Its list has its newest serial alone.
#[tactic(auto, using(crate::proofs::Slots::kept_storable))]
fn root_of(alloc: Global, one: Customer) -> Result<Root, AllocError>
    ensures { (types : ListOf SegDefOf) → AreCustomerTypes types
        → IfOk result (λ root. is_storable types (kept_root root) ≡ true) }
{
    let (key, name, newest) = one;
    let root = customer_of(alloc, &segment_of(key, name), newest, &[])?;
    Ok(root)
}

/// The roots of customers.
fn roots_of(alloc: Global, customers: &[Customer]) -> Result<List<Root>, AllocError>
    ensures { (types : ListOf SegDefOf) → AreCustomerTypes types
        → IfOk result (λ roots. are_storable types (map kept_root roots) ≡ true) }
{
    let mut roots = List::new(alloc);
    for one in customers {
        roots.push(root_of(alloc, *one)?)?;
    }
    Ok(roots)
}

/// Anchors of the database with other customers.
fn changes_of(alloc: Global, rows: &[Changed]) -> Result<List<AnchorChange>, AllocError>
    ensures { IfOk result (AllByRecursion HasCustomers) }
{
    let mut changes = List::new(alloc);
    for (anchor, customers) in rows {
        let roots = roots_of(alloc, customers)?;
        changes.push(AnchorChange {
            dedb: DEDB,
            anchor: *anchor,
            roots,
        })?;
    }
    Ok(changes)
}

/// Notes of customers.
fn inserts_of(alloc: Global, rows: &[Note]) -> Result<List<SeqInsert>, AllocError>
    ensures { IfOk result (AllByRecursion IsNote) }
{
    let mut inserts = List::new(alloc);
    for (anchor, key, letter) in rows {
        inserts.push(SeqInsert {
            dedb: DEDB,
            anchor: *anchor,
            key: Bytes::from_slice(alloc, &[*key, b' ', b' ', b' '])?,
            bytes: note(alloc, *letter)?,
        })?;
    }
    Ok(inserts)
}

/// Stores anchors.
#[tactic(auto, using(crate::proofs::Slots::lone_storable))]
fn store(
    alloc: Global,
    area: &mut MemoryArea,
    place: &Place,
    rows: &[Changed],
) -> Result<Result<(), AnchorFault>, AllocError>
    requires { IsLonePlace place.now }
{
    let changes = changes_of(alloc, rows)?;
    Ok(store_all(alloc, area, place, changes.as_slice()))
}

/// Puts notes.
#[tactic(auto, using(crate::proofs::Slots::lone_insertable))]
fn append(
    alloc: Global,
    area: &mut MemoryArea,
    place: &Place,
    rows: &[Note],
) -> Result<Result<(), SeqFault>, AllocError>
    requires { IsLonePlace place.now }
{
    let inserts = inserts_of(alloc, rows)?;
    Ok(append_all(alloc, area, place, inserts.as_slice()))
}

/// Whether there was so little room.
fn is_full(answer: Result<(), SeqFault>, wanted: (u64, u64, u64)) -> bool {
    match answer {
        Err(SeqFault::Full { begin, end, n }) => (begin, end, n) == wanted,
        _ => false,
    }
}

/// Whether serials are purged, and the part begins there.
fn begins(area: &mut MemoryArea, n: u64, begin: u64) -> bool {
    match purge(area, n) {
        Ok(found) => found == begin,
        Err(_) => false,
    }
}

/// Whether the part has these ends.
fn has_ends(area: &mut MemoryArea, place: &Place, begin: u64, end: u64) -> bool {
    match read_ends(area, place.capacity) {
        Ok(ends) => ends.begin == begin && ends.end == end,
        Err(_) => false,
    }
}

/// The roots of an anchor of the area.
fn roots_at(alloc: Global, area: &mut MemoryArea, place: &Place, anchor: u32) -> Option<List<Root>>
    requires { IsLonePlace place.now }
{
    if anchor >= 2 {
        return None;
    }
    load(alloc, area, &place.shape, &place.segments, anchor).ok()
}

/// Whether an anchor of the area has so many customers.
fn counts(alloc: Global, area: &mut MemoryArea, place: &Place, anchor: u32, count: usize) -> bool
    requires { IsLonePlace place.now }
{
    match roots_at(alloc, area, place, anchor) {
        Some(roots) => roots.len() == count,
        None => false,
    }
}

/// Whether the root of a number has these bytes, and this newest serial.
fn has_root(roots: &List<Root>, number: usize, wanted: &[u8], newest: u64) -> bool {
    let Some(root) = roots.as_slice().get(number) else {
        return false;
    };
    let serial = match root.seqs.as_slice().first() {
        Some(item) => item.serial,
        None => 0,
    };
    root.bytes.as_slice() == wanted && serial == newest
}

/// Whether a customer stands at an anchor with this number, these bytes and this newest serial.
fn stands(
    alloc: Global,
    area: &mut MemoryArea,
    place: &Place,
    at: (u32, usize),
    one: Customer,
) -> bool
    requires { IsLonePlace place.now }
{
    let (key, name, newest) = one;
    match roots_at(alloc, area, place, at.0) {
        Some(roots) => has_root(&roots, at.1, &segment_of(key, name), newest),
        None => false,
    }
}

/// Whether the notes from a serial down are these.
fn has_notes(
    alloc: Global,
    area: &mut MemoryArea,
    place: &Place,
    newest: u64,
    notes: &[(u64, u8)],
) -> Result<bool, AllocError>
    requires { IsLonePlace place.now }
{
    let wanted = items_of(alloc, notes)?;
    match read_down(alloc, area, &place.shape, place.capacity, 8, newest) {
        Ok(found) => Ok(found == wanted),
        Err(_) => Ok(false),
    }
}

/// Whether a step comes to what is wanted.
fn comes(
    alloc: Global,
    area: &mut MemoryArea,
    place: &Place,
    step: &Step,
) -> Result<bool, AllocError>
    requires { IsLonePlace place.now }
{
    match step {
        Store(rows) => Ok(store(alloc, area, place, rows)?.is_ok()),
        Append(rows) => Ok(append(alloc, area, place, rows)?.is_ok()),
        Full(rows, full) => Ok(is_full(append(alloc, area, place, rows)?, *full)),
        Purge(n, begin) => Ok(begins(area, *n, *begin)),
        Ends(begin, end) => Ok(has_ends(area, place, *begin, *end)),
        Count(anchor, count) => Ok(counts(alloc, area, place, *anchor, *count)),
        Has(anchor, number, one, notes) => Ok(
            stands(alloc, area, place, (*anchor, *number), *one)
                && has_notes(alloc, area, place, one.2, notes)?,
        ),
    }
}

/// The steps.
fn a_year() -> &'static [Step] {
    &A_YEAR
}

/// The first step that comes to something else.
fn first_wrong(
    alloc: Global,
    area: &mut MemoryArea,
    place: &Place,
) -> Result<Option<usize>, AllocError>
    requires { IsLonePlace place.now }
{
    for (number, step) in a_year().iter().enumerate() {
        if !comes(alloc, area, place, step)? {
            return Ok(Some(number));
        }
    }
    Ok(None)
}

#[test]
fn an_area_stands_for_what_was_put_into_it(rt: HostRuntime) -> Result<(), Fail> {
    let place = place(rt.alloc())?;
    let mut area = formatted(&rt, [1, 1, 0, 0], 1, 4)?;
    let wrong = first_wrong(rt.alloc(), &mut area, &place)?;
    assert!(rt; wrong.is_none(), "step {}", wrong.unwrap_or(0));
    Ok(())
}

// ---- an area that can't be read any more

/// One customer at each anchor.
static CUSTOMERS: [Changed; 2] = [(2, &[(b'A', b'a', 0)]), (3, &[(b'C', b'c', 0)])];

/// A note of each.
static NOTES: [Note; 2] = [(2, b'A', b'1'), (3, b'C', b'2')];

/// Whether a new area that gives so many intervals stores the customers, or fails.
fn stores_after(rt: &HostRuntime, place: &Place, count: u64, stores: bool) -> Result<bool, Fail>
    requires { IsLonePlace place.now }
{
    let mut area = formatted(rt, [1, 1, 0, 0], 1, 4)?;
    area.fail_after(count);
    match store(rt.alloc(), &mut area, place, &CUSTOMERS)? {
        Ok(()) => Ok(stores),
        Err(AnchorFault::Failed) => Ok(!stores),
        Err(_) => Ok(false),
    }
}

/// Whether the notes are put, where the area gives so many intervals more, or it fails.
fn appends_after(rt: &HostRuntime, place: &Place, count: u64, puts: bool) -> Result<bool, Fail>
    requires { IsLonePlace place.now }
{
    let mut area = formatted(rt, [1, 1, 0, 0], 1, 4)?;
    if store(rt.alloc(), &mut area, place, &CUSTOMERS)?.is_err() {
        return Ok(false);
    }
    area.fail_after(count);
    match append(rt.alloc(), &mut area, place, &NOTES)? {
        Ok(()) => Ok(puts),
        Err(SeqFault::Failed) => Ok(!puts),
        Err(_) => Ok(false),
    }
}

/// How many intervals are read. To store a customer: the base interval of its anchor, control, and the base interval as
/// it changes. To put notes: control; and for each the base interval of the customer's anchor; control and the interval
/// of the slot; and to set its serial the base interval four times, for the anchor, for the root's place, for what the
/// root says and as it changes.
#[test]
fn a_read_that_fails_is_told(rt: HostRuntime) -> Result<(), Fail> {
    let place = place(rt.alloc())?;
    for count in 0..18u64 {
        assert!(rt;
            stores_after(&rt, &place, count, count >= 6)?,
            "stored after {count}"
        );
        assert!(rt;
            appends_after(&rt, &place, count, count >= 15)?,
            "put after {count}"
        );
    }
    Ok(())
}
