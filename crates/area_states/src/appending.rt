//! Sequential inserts are put into the sequential part of an area.

ghost use Rattle.std.specs.Prelude.{◌≡◌, ◌≢◌, ◌-◌, ◌^◌, ◌≤◌, ◌<◌, ◌∷◌, [], ℕ, Err, IfOk, OnOk, IsErrOf, None, Some, true, length};
ghost use Rattle.std.specs.List.{AllByRecursion};
ghost use Rattle.ci_space.specs.Calls.{GoesOn};
ghost use Rattle.fp_lists.specs.Faults.{Rose};
ghost use Rattle.fp_model.specs.Commit.{is_too_full};
ghost use Rattle.root_anchor.specs.Chains.{anchor_count};
ghost use Rattle.root_anchor.specs.Formed.{HasChain};
ghost use Rattle.root_anchor.specs.Newest.{SetsNewest};
ghost use Rattle.root_anchor.specs.Roots.{HasFewer};
ghost use Rattle.seq_dependents.specs.Control.{begin_of, end_of};
ghost use Rattle.seq_dependents.specs.Puts.{Appends, IsFullOf, IsTooMany};
ghost use Rattle.seq_dependents.specs.Faults.{IsAtFault};
ghost use Rattle.area_states.specs.Changes.{AreOrdered, HasRoom, IsInsertable, IsTooFull, count_of, ends_of, numbered_at, takes, with_insert, with_inserts};
ghost use Rattle.area_states.specs.Places.{IsPlace, LiesIn, part_of, sequential_length};
ghost use Rattle.area_states.specs.States.{AreaState, HasState};

use crate::Place;
use crate::finding::{Found, find_root};
use crate::storing::anchor_in;
use ci_space::Intervals;
use fp_model::{AreaEnds, Bytes, List, SeqInsert};
use root_anchor::{AnchorFault, set_newest};
use seq_dependents::{SeqFault, append, read_ends};
use std::alloc::{AllocError, Global};

/// Serials end at 2^62.
const LAST: u64 = 1 << 62;

/// How many of these inserts are of this area.
fn count_of(place: &Place, inserts: &[SeqInsert]) -> u64
    ensures { result ≡ count_of place.now inserts.now }
{
    let mut count = 0;
    for insert in inserts {
        if anchor_in(place, insert.dedb, insert.anchor).is_some() {
            count += 1;
        }
    }
    count
}

/// Whether a sequential part with so many slots has no room for so many more.
fn is_too_full(ends: AreaEnds, capacity: u32, n: u64) -> bool
    requires ordered { ends.begin ≤ ends.end }
    requires counted { ends.end - ends.begin ≤ capacity }
    requires bounded { ends.end ≤ 2 ^ 62 }
    ensures { result ≡ is_too_full capacity ends n }
{
    u64::from(capacity) - (ends.end - ends.begin) < n || LAST - ends.end < n
}

/// The fault of an anchor as that of an insert.
fn fault_of(fault: AnchorFault) -> SeqFault
    ensures damaged { (ci : ℕ) → result ≡ SeqFault.Damaged ci → fault ≡ AnchorFault.Damaged ci }
    ensures failed { result ≡ SeqFault.Failed → fault ≡ AnchorFault.Failed }
    ensures never_full { (begin end n : ℕ) → result ≢ SeqFault.Full begin end n }
{
    match fault {
        AnchorFault::Damaged(ci) => SeqFault::Damaged(ci),
        AnchorFault::Failed => SeqFault::Failed,
        AnchorFault::Memory => SeqFault::Memory,
    }
}

/// A list of this segment alone.
fn alone(alloc: Global, bytes: &Bytes) -> Result<List<Bytes>, AllocError>
    ensures { IfOk result (λ items. items ≡ bytes.now ∷ []) }
{
    let mut items = List::new(alloc);
    items.push(bytes.copy()?)?;
    Ok(items)
}

/// Puts a segment behind the serials that are kept, linked to a previous one, and gives its serial.
fn put_item<I: Intervals>(
    alloc: Global,
    i: &mut I,
    place: &Place,
    bytes: &Bytes,
    previous: u64,
) -> Result<u64, SeqFault>
    requires place { IsPlace place.now }
    requires some { 0 < place.now.capacity }
    requires whole { length bytes.now ≡ sequential_length place.now.segments }
    ensures appended { I.told i.old → OnOk result (Appends (part_of place.now) (I.intervals i.old) (I.intervals i.new)
        previous (bytes.now ∷ [])) }
    ensures serial { I.told i.old → IfOk result (λ serial. serial ≡ end_of (I.intervals i.old)) }
    ensures room { I.told i.old → OnOk result (¬ IsTooMany place.now.capacity (begin_of (I.intervals i.old))
        (end_of (I.intervals i.old)) 1) }
    ensures full { I.told i.old → (begin end n : ℕ) → result ≡ Err (SeqFault.Full begin end n)
        → IsFullOf place.now.capacity (I.intervals i.old) 1 begin end n }
    ensures damaged { I.told i.old → (n : ℕ) → result ≡ Err (SeqFault.Damaged n)
        → IsAtFault (part_of place.now) (I.intervals i.old) n }
    ensures failed { IsErrOf result SeqFault.Failed → Rose (I.faults i.old) (I.faults i.new) }
    ensures number { I.number i.new ≡ I.number i.old }
    ensures goes_on { GoesOn I.told I.size I.faults I.keeps i.old i.new }
{
    let Ok(items) = alone(alloc, bytes) else {
        return Err(SeqFault::Memory);
    };
    append(alloc, i, &place.shape, place.capacity, previous, &items)
}

/// Lets a root that was found say another newest serial; where none was, nothing changes.
fn set_serial<I: Intervals>(
    alloc: Global,
    i: &mut I,
    place: &Place,
    anchor: u32,
    found: &Found,
    serial: u64,
) -> Result<(), AnchorFault>
    requires place { IsPlace place.now }
    requires size { I.size i.old ≡ place.now.shape.ci }
    requires some { 0 < place.now.capacity }
    requires anchor { anchor < anchor_count place.now.shape }
    ensures set { I.told i.old → (n : ℕ) → found.now.number ≡ Some n
        → ¬ HasFewer place.now.shape place.now.segments (I.intervals i.old) anchor n
        → OnOk result (SetsNewest place.now.shape place.now.segments (I.intervals i.old) (I.intervals i.new) anchor n
        serial) }
    ensures none { found.now.number ≡ None → OnOk result (i.new ≡ i.old) }
    ensures sound { I.told i.old → HasChain place.now.shape place.now.segments (I.intervals i.old) anchor → (ci : ℕ)
        → result ≢ Err (AnchorFault.Damaged ci) }
    ensures failed { IsErrOf result AnchorFault.Failed → Rose (I.faults i.old) (I.faults i.new) }
    ensures number { I.number i.new ≡ I.number i.old }
    ensures goes_on { GoesOn I.told I.size I.faults I.keeps i.old i.new }
{
    let Some(number) = found.number else {
        return Ok(());
    };
    set_newest(
        alloc,
        i,
        &place.shape,
        &place.segments,
        anchor,
        number,
        serial,
    )?;
    Ok(())
}

/// Puts an insert at an anchor, counted from 0 within the area, into its sequential part, in front of the list of the root
/// of its key.
fn number_here<I: Intervals>(
    alloc: Global,
    i: &mut I,
    place: &Place,
    anchor: u32,
    insert: &SeqInsert,
) -> Result<(), SeqFault>
    requires place { IsPlace place.now }
    requires size { I.size i.old ≡ place.now.shape.ci }
    requires here { LiesIn place.now insert.now.dedb insert.now.anchor anchor }
    requires insertable { IsInsertable place.now insert.now }
    ensures numbered { I.told i.old → (state : AreaState) → HasState place.now (I.intervals i.old) state
        → AreOrdered place.now state
        → OnOk result (HasState place.now (I.intervals i.new) (numbered_at place.now insert.now state)) }
    ensures sound { I.told i.old → (state : AreaState) → HasState place.now (I.intervals i.old) state → (ci : ℕ)
        → result ≢ Err (SeqFault.Damaged ci) }
    ensures room { I.told i.old → (state : AreaState) → HasState place.now (I.intervals i.old) state
        → HasRoom place.now state 1 → (begin end n : ℕ) → result ≢ Err (SeqFault.Full begin end n) }
    ensures failed { IsErrOf result SeqFault.Failed → Rose (I.faults i.old) (I.faults i.new) }
    ensures number { I.number i.new ≡ I.number i.old }
    ensures goes_on { GoesOn I.told I.size I.faults I.keeps i.old i.new }
{
    let found = match find_root(alloc, i, place, anchor, insert.key.as_slice()) {
        Ok(found) => found,
        Err(fault) => return Err(fault_of(fault)),
    };
    let serial = put_item(alloc, i, place, &insert.bytes, found.newest)?;
    match set_serial(alloc, i, place, anchor, &found, serial) {
        Ok(()) => Ok(()),
        Err(fault) => Err(fault_of(fault)),
    }
}

/// Puts an insert into the sequential part, where it is one of this area.
fn number_one<I: Intervals>(
    alloc: Global,
    i: &mut I,
    place: &Place,
    insert: &SeqInsert,
) -> Result<(), SeqFault>
    requires place { IsPlace place.now }
    requires size { I.size i.old ≡ place.now.shape.ci }
    requires insertable { IsInsertable place.now insert.now }
    ensures numbered { I.told i.old → (state : AreaState) → HasState place.now (I.intervals i.old) state
        → AreOrdered place.now state
        → OnOk result (HasState place.now (I.intervals i.new) (with_insert place.now state insert.now)) }
    ensures sound { I.told i.old → (state : AreaState) → HasState place.now (I.intervals i.old) state → (ci : ℕ)
        → result ≢ Err (SeqFault.Damaged ci) }
    ensures room { I.told i.old → (state : AreaState) → HasState place.now (I.intervals i.old) state
        → (takes place.now insert.now ≡ true → HasRoom place.now state 1) → (begin end n : ℕ)
        → result ≢ Err (SeqFault.Full begin end n) }
    ensures failed { IsErrOf result SeqFault.Failed → Rose (I.faults i.old) (I.faults i.new) }
    ensures number { I.number i.new ≡ I.number i.old }
    ensures goes_on { GoesOn I.told I.size I.faults I.keeps i.old i.new }
{
    match anchor_in(place, insert.dedb, insert.anchor) {
        Some(anchor) => number_here(alloc, i, place, anchor, insert),
        None => Ok(()),
    }
}

/// Puts the inserts that are of this area into its sequential part.
fn number_all<I: Intervals>(
    alloc: Global,
    i: &mut I,
    place: &Place,
    inserts: &[SeqInsert],
) -> Result<(), SeqFault>
    requires place { IsPlace place.now }
    requires size { I.size i.old ≡ place.now.shape.ci }
    requires insertable { AllByRecursion (IsInsertable place.now) inserts.now }
    ensures numbered { I.told i.old → (state : AreaState) → HasState place.now (I.intervals i.old) state
        → AreOrdered place.now state
        → OnOk result (HasState place.now (I.intervals i.new) (with_inserts place.now inserts.now state)) }
    ensures sound { I.told i.old → (state : AreaState) → HasState place.now (I.intervals i.old) state
        → AreOrdered place.now state → (ci : ℕ) → result ≢ Err (SeqFault.Damaged ci) }
    ensures room { I.told i.old → (state : AreaState) → HasState place.now (I.intervals i.old) state
        → AreOrdered place.now state → HasRoom place.now state (count_of place.now inserts.now)
        → (begin end n : ℕ) → result ≢ Err (SeqFault.Full begin end n) }
    ensures failed { IsErrOf result SeqFault.Failed → Rose (I.faults i.old) (I.faults i.new) }
    ensures number { I.number i.new ≡ I.number i.old }
    ensures goes_on { GoesOn I.told I.size I.faults I.keeps i.old i.new }
{
    for insert in inserts {
        number_one(alloc, i, place, insert)?;
    }
    Ok(())
}

/// Tests that the sequential part has room for so many more.
fn test_room<I: Intervals>(i: &mut I, place: &Place, n: u64) -> Result<(), SeqFault>
    ensures room { I.told i.old → (state : AreaState) → HasState place.now (I.intervals i.old) state
        → OnOk result (HasRoom place.now state n) }
    ensures full { I.told i.old → (state : AreaState) → HasState place.now (I.intervals i.old) state
        → (begin end m : ℕ) → result ≡ Err (SeqFault.Full begin end m)
        → (begin ≡ state.begin) × (end ≡ state.end) × (m ≡ n)
        × (is_too_full place.now.capacity (ends_of state) n ≡ true) }
    ensures sound { I.told i.old → (state : AreaState) → HasState place.now (I.intervals i.old) state → (ci : ℕ)
        → result ≢ Err (SeqFault.Damaged ci) }
    ensures failed { IsErrOf result SeqFault.Failed → Rose (I.faults i.old) (I.faults i.new) }
    ensures same { I.told i.old → I.intervals i.new ≡ I.intervals i.old }
    ensures number { I.number i.new ≡ I.number i.old }
    ensures goes_on { GoesOn I.told I.size I.faults I.keeps i.old i.new }
{
    let ends = read_ends(i, place.capacity)?;
    let AreaEnds { begin, end } = ends;
    if is_too_full(ends, place.capacity, n) {
        return Err(SeqFault::Full { begin, end, n });
    }
    Ok(())
}

/// Puts the sequential inserts that are of this area into its sequential part, in this order: each gets the serial at
/// the end and stands in front of the list of the root of its key. Where no root has the key, the serial is used up.
///
/// `Full` comes before anything is put, exactly where the part has no room for all of them. `Damaged` names the interval
/// that is damaged. After another fault than `Full` what holds the intervals is thrown away.
///
/// Costs for each insert one `load` of its anchor, one `append` and one `set_newest`.
pub fn append_all<I: Intervals>(
    alloc: Global,
    i: &mut I,
    place: &Place,
    inserts: &[SeqInsert],
) -> Result<(), SeqFault>
    requires place { IsPlace place.now }
    requires size { I.size i.old ≡ place.now.shape.ci }
    requires insertable { AllByRecursion (IsInsertable place.now) inserts.now }

    // An area that has a state has it with these inserts, where the keys of each anchor's roots ascend.
    ensures numbered { I.told i.old → (state : AreaState) → HasState place.now (I.intervals i.old) state
        → AreOrdered place.now state
        → OnOk result (HasState place.now (I.intervals i.new) (with_inserts place.now inserts.now state)) }

    // It is full exactly by the count, and nothing has changed then.
    ensures room { I.told i.old → (state : AreaState) → HasState place.now (I.intervals i.old) state
        → 0 < count_of place.now inserts.now → OnOk result (HasRoom place.now state (count_of place.now inserts.now)) }
    ensures full { I.told i.old → (state : AreaState) → HasState place.now (I.intervals i.old) state
        → AreOrdered place.now state → (begin end n : ℕ) → result ≡ Err (SeqFault.Full begin end n)
        → IsTooFull place.now state inserts.now begin end n }
    ensures unchanged { I.told i.old → (state : AreaState) → HasState place.now (I.intervals i.old) state
        → AreOrdered place.now state → (begin end n : ℕ) → result ≡ Err (SeqFault.Full begin end n)
        → I.intervals i.new ≡ I.intervals i.old }

    // Where no insert is of this area, nothing happens.
    ensures idle { count_of place.now inserts.now ≡ 0 → i.new ≡ i.old }

    // Then nothing is damaged; and it fails only with what holds the intervals.
    ensures sound { I.told i.old → (state : AreaState) → HasState place.now (I.intervals i.old) state
        → AreOrdered place.now state → (ci : ℕ) → result ≢ Err (SeqFault.Damaged ci) }
    ensures failed { IsErrOf result SeqFault.Failed → Rose (I.faults i.old) (I.faults i.new) }

    // What stays, whatever the answer is.
    ensures number { I.number i.new ≡ I.number i.old }
    ensures goes_on { GoesOn I.told I.size I.faults I.keeps i.old i.new }
{
    let n = count_of(place, inserts);
    if n == 0 {
        return Ok(());
    }
    test_room(i, place, n)?;
    number_all(alloc, i, place, inserts)
}
