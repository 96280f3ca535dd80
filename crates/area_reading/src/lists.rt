//! The sequential lists of an anchor's roots.

ghost use Rattle.std.specs.Prelude.{◌≡◌, ◌≢◌, ◌<◌, ◌≤◌, ◌-◌, ℕ, List, Err, IfOk, IsErrOf, Some, slice_get};
ghost use Rattle.std.specs.List.{AllZip};
ghost use Rattle.ci_space.specs.Calls.{GoesOn};
ghost use Rattle.fp_lists.specs.Faults.{Rose};
ghost use Rattle.fp_model.specs.declared.database.Root.{Root as RootOf};
ghost use Rattle.root_anchor.specs.Chains.{anchor_count};
ghost use Rattle.root_anchor.specs.Formed.{HasRoots};
ghost use Rattle.seq_dependents.specs.Control.{end_of};
ghost use Rattle.seq_dependents.specs.Down.{IsDown};
ghost use Rattle.seq_dependents.specs.Faults.{IsAtFault};
ghost use Rattle.area_states.specs.Places.{IsPlace, part_of};
ghost use Rattle.area_states.specs.States.{IsReadAs, newest_serial};
ghost use Rattle.area_reading.specs.Damage.{HasRootPastEnd, IsUnreadable};
ghost use Rattle.area_reading.specs.inside.Damage.{AreEndsOf};

use crate::types::sequential_length;
use area_states::Place;
use ci_space::Intervals;
use fp_model::{AreaEnds, List, Root, SeqItem};
use root_anchor::{AnchorFault, root_place};
use seq_dependents::{SeqFault, read_down, read_ends};
use std::alloc::Global;

/// The fault of a sequential part as that of an anchor.
fn fault_of(fault: SeqFault) -> AnchorFault
    ensures damaged { (ci : ℕ) → result ≡ AnchorFault.Damaged ci → fault ≡ SeqFault.Damaged ci }
    ensures failed { result ≡ AnchorFault.Failed → fault ≡ SeqFault.Failed }
{
    match fault {
        SeqFault::Damaged(ci) => AnchorFault::Damaged(ci),
        SeqFault::Failed => AnchorFault::Failed,
        SeqFault::Full { .. } => AnchorFault::Memory,
        SeqFault::Memory => AnchorFault::Memory,
    }
}

/// The two ends of an area's sequential part.
pub(crate) fn ends_of<I: Intervals>(i: &mut I, place: &Place) -> Result<AreaEnds, AnchorFault>
    ensures ends { I.told i.old → IfOk result (AreEndsOf (I.intervals i.old)) }
    ensures counted { IfOk result (λ ends. ends.end - ends.begin ≤ place.now.capacity) }
    ensures damaged { I.told i.old → (ci : ℕ) → result ≡ Err (AnchorFault.Damaged ci)
        → IsAtFault (part_of place.now) (I.intervals i.old) ci }
    ensures failed { IsErrOf result AnchorFault.Failed → Rose (I.faults i.old) (I.faults i.new) }
    ensures same { I.told i.old → I.intervals i.new ≡ I.intervals i.old }
    ensures number { I.number i.new ≡ I.number i.old }
    ensures goes_on { GoesOn I.told I.size I.faults I.keeps i.old i.new }
{
    match read_ends(i, place.capacity) {
        Ok(ends) => Ok(ends),
        Err(fault) => Err(fault_of(fault)),
    }
}

/// The sequential dependents from a newest serial down, as long as they are kept.
fn down_from<I: Intervals>(
    alloc: Global,
    i: &mut I,
    place: &Place,
    newest: u64,
) -> Result<List<SeqItem>, AnchorFault>
    requires place { IsPlace place.now }
    requires some { 0 < place.now.capacity }
    ensures down { I.told i.old → IfOk result (IsDown (part_of place.now) (I.intervals i.old) newest) }
    ensures damaged { I.told i.old → (ci : ℕ) → result ≡ Err (AnchorFault.Damaged ci)
        → IsAtFault (part_of place.now) (I.intervals i.old) ci }
    ensures failed { IsErrOf result AnchorFault.Failed → Rose (I.faults i.old) (I.faults i.new) }
    ensures same { I.told i.old → I.intervals i.new ≡ I.intervals i.old }
    ensures number { I.number i.new ≡ I.number i.old }
    ensures goes_on { GoesOn I.told I.size I.faults I.keeps i.old i.new }
{
    let length = sequential_length(place.segments.as_slice());
    match read_down(alloc, i, &place.shape, place.capacity, length, newest) {
        Ok(items) => Ok(items),
        Err(fault) => Err(fault_of(fault)),
    }
}

/// The fault of an anchor whose root of this number says a newest serial at or past the end: it names the interval of
/// that root.
fn past_end<I: Intervals>(
    alloc: Global,
    i: &mut I,
    place: &Place,
    anchor: u32,
    number: usize,
) -> AnchorFault
    requires place { IsPlace place.now }
    requires size { I.size i.old ≡ place.now.shape.ci }
    requires anchor { anchor < anchor_count place.now.shape }
    ensures damaged { I.told i.old → (kept : List RootOf) (root : RootOf)
        → HasRoots place.now.shape place.now.segments (I.intervals i.old) anchor kept
        → slice_get kept number ≡ Some root → end_of (I.intervals i.old) ≤ newest_serial root.seqs
        → (ci : ℕ) → result ≡ AnchorFault.Damaged ci → HasRootPastEnd place.now (I.intervals i.old) anchor ci }
    ensures failed { result ≡ AnchorFault.Failed → Rose (I.faults i.old) (I.faults i.new) }
    ensures same { I.told i.old → I.intervals i.new ≡ I.intervals i.old }
    ensures number { I.number i.new ≡ I.number i.old }
    ensures goes_on { GoesOn I.told I.size I.faults I.keeps i.old i.new }
{
    let found = match root_place(alloc, i, &place.shape, &place.segments, anchor, number) {
        Ok(found) => found,
        Err(fault) => return fault,
    };
    match found {
        Some(root) => AnchorFault::Damaged(root.ci),
        None => AnchorFault::Damaged(0),
    }
}

/// The sequential list of an anchor's root of this number, which says this newest serial. A serial below begin is an empty
/// list.
fn list_of<I: Intervals>(
    alloc: Global,
    i: &mut I,
    place: &Place,
    ends: AreaEnds,
    anchor: u32,
    number: usize,
    newest: u64,
) -> Result<List<SeqItem>, AnchorFault>
    requires place { IsPlace place.now }
    requires size { I.size i.old ≡ place.now.shape.ci }
    requires counted { ends.end - ends.begin ≤ place.now.capacity }
    requires anchor { anchor < anchor_count place.now.shape }
    ensures down { I.told i.old → AreEndsOf (I.intervals i.old) ends
        → IfOk result (IsDown (part_of place.now) (I.intervals i.old) newest) }
    ensures before_end { I.told i.old → AreEndsOf (I.intervals i.old) ends
        → IfOk result (λ items. newest < end_of (I.intervals i.old)) }
    ensures damaged { I.told i.old → AreEndsOf (I.intervals i.old) ends → (kept : List RootOf) (root : RootOf)
        → HasRoots place.now.shape place.now.segments (I.intervals i.old) anchor kept
        → slice_get kept number ≡ Some root → newest ≡ newest_serial root.seqs
        → (ci : ℕ) → result ≡ Err (AnchorFault.Damaged ci) → IsUnreadable place.now (I.intervals i.old) anchor ci }
    ensures failed { IsErrOf result AnchorFault.Failed → Rose (I.faults i.old) (I.faults i.new) }
    ensures same { I.told i.old → I.intervals i.new ≡ I.intervals i.old }
    ensures number { I.number i.new ≡ I.number i.old }
    ensures goes_on { GoesOn I.told I.size I.faults I.keeps i.old i.new }
{
    if ends.end <= newest {
        return Err(past_end(alloc, i, place, anchor, number));
    }
    if newest < ends.begin {
        return Ok(List::new(alloc));
    }
    down_from(alloc, i, place, newest)
}

/// The newest serial of a sequential list, 0 where it is empty.
fn newest_serial(items: &[SeqItem]) -> u64
    ensures { result ≡ newest_serial items.now }
{
    if items.is_empty() {
        return 0;
    }
    items[0].serial
}

/// An anchor's root of this number, with its whole sequential list.
fn with_list<I: Intervals>(
    alloc: Global,
    i: &mut I,
    place: &Place,
    ends: AreaEnds,
    anchor: u32,
    number: usize,
    root: Root,
) -> Result<Root, AnchorFault>
    requires place { IsPlace place.now }
    requires size { I.size i.old ≡ place.now.shape.ci }
    requires counted { ends.end - ends.begin ≤ place.now.capacity }
    requires anchor { anchor < anchor_count place.now.shape }
    ensures read { I.told i.old → AreEndsOf (I.intervals i.old) ends
        → IfOk result (IsReadAs place.now (I.intervals i.old) root) }
    ensures damaged { I.told i.old → AreEndsOf (I.intervals i.old) ends → (kept : List RootOf)
        → HasRoots place.now.shape place.now.segments (I.intervals i.old) anchor kept
        → slice_get kept number ≡ Some root
        → (ci : ℕ) → result ≡ Err (AnchorFault.Damaged ci) → IsUnreadable place.now (I.intervals i.old) anchor ci }
    ensures failed { IsErrOf result AnchorFault.Failed → Rose (I.faults i.old) (I.faults i.new) }
    ensures same { I.told i.old → I.intervals i.new ≡ I.intervals i.old }
    ensures number { I.number i.new ≡ I.number i.old }
    ensures goes_on { GoesOn I.told I.size I.faults I.keeps i.old i.new }
{
    let newest = newest_serial(root.seqs.as_slice());
    let seqs = list_of(alloc, i, place, ends, anchor, number, newest)?;
    let Root {
        bytes,
        children,
        seqs: _,
    } = root;
    Ok(Root {
        bytes,
        children,
        seqs,
    })
}

/// The roots that an anchor keeps, with their whole sequential lists.
pub(crate) fn with_lists<I: Intervals>(
    alloc: Global,
    i: &mut I,
    place: &Place,
    ends: AreaEnds,
    anchor: u32,
    kept: List<Root>,
) -> Result<List<Root>, AnchorFault>
    requires place { IsPlace place.now }
    requires size { I.size i.old ≡ place.now.shape.ci }
    requires counted { ends.end - ends.begin ≤ place.now.capacity }
    requires anchor { anchor < anchor_count place.now.shape }
    ensures read { I.told i.old → AreEndsOf (I.intervals i.old) ends
        → IfOk result (AllZip (IsReadAs place.now (I.intervals i.old)) kept) }
    ensures damaged { I.told i.old → AreEndsOf (I.intervals i.old) ends
        → HasRoots place.now.shape place.now.segments (I.intervals i.old) anchor kept
        → (ci : ℕ) → result ≡ Err (AnchorFault.Damaged ci) → IsUnreadable place.now (I.intervals i.old) anchor ci }
    ensures failed { IsErrOf result AnchorFault.Failed → Rose (I.faults i.old) (I.faults i.new) }
    ensures same { I.told i.old → I.intervals i.new ≡ I.intervals i.old }
    ensures number { I.number i.new ≡ I.number i.old }
    ensures goes_on { GoesOn I.told I.size I.faults I.keeps i.old i.new }
{
    let mut roots = List::new(alloc);
    let mut number = 0;
    for root in kept.into_vec() {
        let one = with_list(alloc, i, place, ends, anchor, number, root)?;
        roots.push(one)?;
        number += 1;
    }
    Ok(roots)
}
