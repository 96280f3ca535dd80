//! The walk over an anchor's elements, in hierarchical order: an element, then what is below it, then its next twin.
//!
//! No element is met twice, so the walk ends whatever the pointers are: what was met are distinct places in the area.

ghost use Rattle.std.specs.Prelude.{◌≡◌, ◌↔◌, ◌+◌, ◌≤◌, ◌<◌, ◌∷◌, ◌++◌, [], true, false, ℕ, Err, List, length, slice_get, All, Contains, IsTrue, IfOk, OnOk, IsErrOf};
ghost use Rattle.ci_space.specs.Calls.{GoesOn};
ghost use Rattle.fp_lists.specs.Faults.{Rose};
ghost use Rattle.fp_model.specs.Order.{child_types, key_in};
ghost use Rattle.fp_model.specs.Shape.{has_length};
ghost use Rattle.fp_model.specs.WellFormed.{HavePlaces};
ghost use Rattle.anchor_elements.specs.Elements.{HasSegment, has_serial, nothing};
ghost use Rattle.root_anchor.specs.Chains.{AreRows, AreRoots, newest};
ghost use Rattle.anchor_elements.specs.Wrong.{IsWrong};
ghost use Rattle.root_anchor.specs.Damage.{RowsFail, RootsFail};
ghost use Rattle.anchor_elements.specs.Reading.{types_of, pointers_of, segment_of};
ghost use Rattle.root_anchor.specs.Stored.{are_storable, rows_have_form};
ghost use Rattle.root_anchor.specs.inside.Stored.{row_has_form};
ghost use Rattle.root_anchor.specs.inside.Walking.{met_of, IsWalk, IsNoted, WalksOn, AllStand, IsLook, IsRow, RowFails};

use crate::standing::Standing;
use anchor_elements::{AnchorFault, First, Pointer, Said, read_element};
use ci_space::Intervals;
use fp_model::{Bytes, List, Node, Root, SegDef, SeqItem, key_of};
use std::alloc::{AllocError, Global};
use std::collections::BTreeSet;

/// The elements that a walk has met.
#[derive(Drop)]
pub(crate) struct Walk {
    /// Whether the segments' keys are wanted.
    keyed: bool,
    /// The places of those met.
    places: BTreeSet<Pointer>,
    /// Those met, in hierarchical order.
    pub(crate) met: Vec<Standing>,
}

/// Whether a pointer points to nothing.
pub(crate) fn is_nothing(at: Pointer) -> bool
    ensures { IsTrue result ↔ (at ≡ nothing) }
{
    at.0 == 0 && at.1 == 0
}

impl Walk {
    /// A walk that has met nothing.
    pub(crate) fn new(alloc: Global, keyed: bool) -> Walk
        ensures walk { (number : ℕ) → IsWalk number result }
        ensures none { result.met.items ≡ [] }
        ensures keyed { result.keyed ≡ keyed }
    {
        Walk {
            keyed,
            places: BTreeSet::new(alloc),
            met: Vec::new(alloc),
        }
    }

    /// Whether it has met the element at a place.
    fn has_met(&self, at: Pointer) -> bool
        ensures { (number : ℕ) → IsWalk number self.now → IsTrue result ↔ Contains (met_of self.now) at }
    {
        self.places.contains(&at)
    }

    /// Meets an element.
    fn meet(&mut self, standing: Standing) -> Result<(), AllocError>
        ensures met { OnOk result (self.new.met.items ≡ self.old.met.items ++ standing ∷ []) }
        ensures walk { (number : ℕ) → IsWalk number self.old → ¬ Contains (met_of self.old) standing.at
            → standing.at.0 < number → standing.at.1 < 4096 → OnOk result (IsWalk number self.new) }
        ensures keyed { self.new.keyed ≡ self.old.keyed }
    {
        self.places.insert(standing.at)?;
        self.met.push(standing)?;
        Ok(())
    }

    /// The key of a segment of a type, where keys are wanted, else nothing.
    fn wanted_key(
        &self,
        alloc: Global,
        segments: &List<SegDef>,
        segment: u8,
        bytes: &Bytes,
    ) -> Result<Bytes, AllocError>
        requires { segment < length segments.now }
        ensures { IfOk result (λ key. self.now.keyed ≡ true → key ≡ key_in segments.now segment bytes.now) }
    {
        if !self.keyed {
            return Ok(Bytes::new(alloc));
        }
        let def = &segments.as_slice()[usize::from(segment)];
        Bytes::from_slice(alloc, key_of(def.fields.as_slice(), bytes.as_slice()))
    }

    /// Notes that an element was met in which this segment stands.
    fn note(
        &mut self,
        alloc: Global,
        segments: &List<SegDef>,
        segment: u8,
        at: Pointer,
        bytes: &Bytes,
    ) -> Result<(), AllocError>
        requires defined { segment < length segments.now }
        ensures met { OnOk result (IsNoted segments.now self.old self.new segment at bytes.now) }
        ensures walk { (number : ℕ) → IsWalk number self.old → ¬ Contains (met_of self.old) at → at.0 < number
            → at.1 < 4096 → OnOk result (IsWalk number self.new) }
    {
        let key = self.wanted_key(alloc, segments, segment, bytes)?;
        self.meet(Standing { segment, at, key })
    }
}

/// Meets the element at a pointer in the interval `from`, and says what stands in it.
fn visit<I: Intervals>(
    alloc: Global,
    i: &mut I,
    walk: &mut Walk,
    segments: &List<SegDef>,
    segment: u8,
    from: u64,
    at: Pointer,
) -> Result<Said, AnchorFault>
    requires few { length segments.now ≤ 15 }
    requires defined { segment < length segments.now }
    requires walk { IsWalk (I.number i.old) walk.old }

    // What the element says, which wasn't met before.
    ensures says { I.told i.old → IfOk result (λ said. HasSegment segments.now (I.intervals i.old) segment at
        (segment_of said)) }
    ensures types { IfOk result (λ said. types_of said.firsts.items ≡ child_types segments.now segment) }
    ensures long { IfOk result (λ said. has_length segments.now segment said.bytes ≡ true) }
    ensures serial { IfOk result (λ said. has_serial segments.now segment ≡ false → said.serial ≡ 0) }
    ensures fresh { OnOk result (¬ Contains (met_of walk.old) at) }
    ensures wrong { I.told i.old → (ci : ℕ) → result ≡ Err (AnchorFault.Damaged ci)
        → IsWrong segments.now (I.intervals i.old) (met_of walk.old) from segment at ci }
    ensures failed { IsErrOf result AnchorFault.Failed → Rose (I.faults i.old) (I.faults i.new) }

    // It is met now.
    ensures met { OnOk result (met_of walk.new ≡ at ∷ met_of walk.old) }
    ensures more { OnOk result (length walk.old.met.items < length walk.new.met.items) }
    ensures keyed { OnOk result (walk.new.keyed ≡ walk.old.keyed) }
    ensures walk { OnOk result (IsWalk (I.number i.old) walk.new) }
    ensures stand { I.told i.old → AllStand segments.now (I.intervals i.old) walk.old
        → OnOk result (AllStand segments.now (I.intervals i.old) walk.new) }
    ensures look { IsLook I.told I.intervals I.number I.size I.faults I.keeps i.old i.new }
{
    if walk.has_met(at) {
        return Err(AnchorFault::Damaged(from));
    }
    let said = read_element(alloc, i, segments, segment, from, at)?;
    walk.note(alloc, segments, segment, at, &said.bytes)?;
    Ok(said)
}

/// The row of segments of a type to whose first one a pointer in the interval `home` leads, each with all below it.
#[cycle(walk)]
fn row<I: Intervals>(
    alloc: Global,
    i: &mut I,
    walk: &mut Walk,
    segments: &List<SegDef>,
    segment: u8,
    home: u64,
    first: Pointer,
) -> Result<List<Node>, AnchorFault>
    requires few { length segments.now ≤ 15 }
    requires places { HavePlaces 0 segments.now }
    requires defined { segment < length segments.now }
    requires walk { IsWalk (I.number i.old) walk.old }

    ensures row { I.told i.old → IfOk result (λ row. IsRow segments.now (I.intervals i.old) (met_of walk.old) segment
        first row (met_of walk.new)) }
    ensures form { IfOk result (λ row. row_has_form segments.now segment row ≡ true) }
    ensures damaged { I.told i.old → (ci : ℕ) → result ≡ Err (AnchorFault.Damaged ci)
        → RowFails segments.now (I.intervals i.old) (met_of walk.old) home segment first ci }
    ensures failed { IsErrOf result AnchorFault.Failed → Rose (I.faults i.old) (I.faults i.new) }

    ensures walk { OnOk result (WalksOn (I.number i.old) walk.old walk.new) }
    ensures stand { I.told i.old → AllStand segments.now (I.intervals i.old) walk.old
        → OnOk result (AllStand segments.now (I.intervals i.old) walk.new) }
    ensures look { IsLook I.told I.intervals I.number I.size I.faults I.keeps i.old i.new }
{
    let mut row = List::new(alloc);
    let mut from = home;
    let mut at = first;
    while !is_nothing(at) {
        let Said {
            next,
            serial: _,
            firsts,
            bytes,
        } = visit(alloc, i, walk, segments, segment, from, at)?;
        let children = rows(alloc, i, walk, segments, segment, at.0, firsts.as_slice())?;
        row.push(Node { bytes, children })?;
        from = at.0;
        at = next;
    }
    Ok(row)
}

/// The rows below a segment of a type in the interval `home`, one for each direct child type.
#[cycle(walk)]
fn rows<I: Intervals>(
    alloc: Global,
    i: &mut I,
    walk: &mut Walk,
    segments: &List<SegDef>,
    segment: u8,
    home: u64,
    firsts: &[First],
) -> Result<List<List<Node>>, AnchorFault>
    requires few { length segments.now ≤ 15 }
    requires places { HavePlaces 0 segments.now }
    requires defined { segment < length segments.now }
    requires children { types_of firsts.now ≡ child_types segments.now segment }
    requires walk { IsWalk (I.number i.old) walk.old }

    ensures rows { I.told i.old → IfOk result (λ rows. AreRows segments.now (I.intervals i.old) (met_of walk.old)
        (types_of firsts.now) (pointers_of firsts.now) rows (met_of walk.new)) }
    ensures form { IfOk result (λ rows. rows_have_form segments.now (types_of firsts.now) rows ≡ true) }
    ensures damaged { I.told i.old → (ci : ℕ) → result ≡ Err (AnchorFault.Damaged ci)
        → RowsFail segments.now (I.intervals i.old) (met_of walk.old) home home (types_of firsts.now)
        (pointers_of firsts.now) ci }
    ensures failed { IsErrOf result AnchorFault.Failed → Rose (I.faults i.old) (I.faults i.new) }

    ensures walk { OnOk result (WalksOn (I.number i.old) walk.old walk.new) }
    ensures stand { I.told i.old → AllStand segments.now (I.intervals i.old) walk.old
        → OnOk result (AllStand segments.now (I.intervals i.old) walk.new) }
    ensures look { IsLook I.told I.intervals I.number I.size I.faults I.keeps i.old i.new }
{
    let mut rows = List::new(alloc);
    for first in firsts {
        let read = row(alloc, i, walk, segments, first.segment, home, first.at)?;
        rows.push(read)?;
    }
    Ok(rows)
}

/// A newest serial as a root's sequential list.
fn newest(alloc: Global, serial: u64) -> Result<List<SeqItem>, AllocError>
    ensures { IfOk result (λ items. items ≡ newest serial) }
{
    let mut items = List::new(alloc);
    if serial != 0 {
        let bytes = Bytes::new(alloc);
        items.push(SeqItem { serial, bytes })?;
    }
    Ok(items)
}

/// The roots to whose first one a pointer in the interval `base` leads, each with all below it.
pub(crate) fn roots<I: Intervals>(
    alloc: Global,
    i: &mut I,
    walk: &mut Walk,
    segments: &List<SegDef>,
    base: u64,
    first: Pointer,
) -> Result<List<Root>, AnchorFault>
    requires few { length segments.now ≤ 15 }
    requires places { HavePlaces 0 segments.now }
    requires some { 0 < length segments.now }
    requires walk { IsWalk (I.number i.old) walk.old }
    requires none { walk.old.met.items ≡ [] }

    ensures roots { I.told i.old → IfOk result (λ roots. AreRoots segments.now (I.intervals i.old) [] first roots
        (met_of walk.new)) }
    ensures form { IfOk result (λ roots. are_storable segments.now roots ≡ true) }
    ensures damaged { I.told i.old → (ci : ℕ) → result ≡ Err (AnchorFault.Damaged ci)
        → RootsFail segments.now (I.intervals i.old) [] base first ci }
    ensures failed { IsErrOf result AnchorFault.Failed → Rose (I.faults i.old) (I.faults i.new) }

    ensures walk { OnOk result (WalksOn (I.number i.old) walk.old walk.new) }
    ensures stand { I.told i.old → OnOk result (AllStand segments.now (I.intervals i.old) walk.new) }
    ensures look { IsLook I.told I.intervals I.number I.size I.faults I.keeps i.old i.new }
{
    let mut roots = List::new(alloc);
    let mut from = base;
    let mut at = first;
    while !is_nothing(at) {
        let Said {
            next,
            serial,
            firsts,
            bytes,
        } = visit(alloc, i, walk, segments, 0, from, at)?;
        let children = rows(alloc, i, walk, segments, 0, at.0, firsts.as_slice())?;
        let seqs = newest(alloc, serial)?;
        roots.push(Root {
            bytes,
            children,
            seqs,
        })?;
        from = at.0;
        at = next;
    }
    Ok(roots)
}
