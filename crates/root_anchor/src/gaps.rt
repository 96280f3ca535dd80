//! Where a segment is missing that an anchor's roots are to have.
//!
//! One pointer is to lead to it: that of the twin before it to the next one, or that of the segment above it to its
//! first child. Twins are followed up to this element, and what stands elsewhere isn't read. A root in front of all
//! others hasn't such an element: the root anchor point leads to it.

ghost use Rattle.std.specs.Prelude.{◌≡◌, ◌≢◌, ◌<◌, ◌≤◌, ℕ, List, Err, IfOk, IfSome, IsErrOf, IsSome, true, false, length, get_or};
ghost use Rattle.ci_space.specs.Calls.{GoesOn};
ghost use Rattle.fp_lists.specs.Faults.{Rose};
ghost use Rattle.fp_model.specs.declared.definitions.SegDef.{SegDef as SegDefOf};
ghost use Rattle.fp_model.specs.Order.{child_types};
ghost use Rattle.fp_model.specs.WellFormed.{HavePlaces};
ghost use Rattle.anchor_elements.specs.Elements.{AreTypes, Segment, HasSegment, has_serial, segment_length, Pointer as PointerOf};
ghost use Rattle.anchor_elements.specs.Reading.{types_of, pointers_of, segment_of};
ghost use Rattle.root_changes.specs.Telling.{GainIn, TellsRootGain};
ghost use Rattle.root_anchor.specs.inside.Finding.{IsTwinAt, GiveRows, GivesRoots};
ghost use Rattle.root_anchor.specs.inside.Gaps.{HaveRow, IsRowAt, IsGapBehind, IsGapBelow, IsGapInRoots, FitsAdded, FitsGap};
ghost use Rattle.root_anchor.specs.inside.Rebuilding.{IsDirect};
ghost use Rattle.root_anchor.specs.Stored.{are_storable, rows_have_form};
ghost use Rattle.root_anchor.specs.inside.Walking.{IsLook};

use crate::building::newest_of;
use crate::finding::{Twin, twin_at};
use anchor_elements::{AnchorFault, First, Pointer, Said};
use ci_space::Intervals;
use fp_model::{Bytes, List, Node, Root, SegDef};
use root_changes::{Gain, gain_of_row};
use std::alloc::Global;

/// A pointer of an element.
#[derive(Clone, Copy)]
pub(crate) enum Link {
    /// That to the next twin.
    Next,
    /// That to the first child of a child type, by its place.
    FirstChild(usize),
}

/// An element of which a pointer is to lead to a new segment.
#[derive(Drop)]
pub(crate) struct Holder {
    /// The number of its segment type.
    pub(crate) segment: u8,
    pub(crate) at: Pointer,
    /// What it says so far.
    pub(crate) said: Said,
    pub(crate) link: Link,
}

/// A segment that is to come, with none below it.
#[derive(Clone, Copy)]
pub(crate) struct Added<'a> {
    /// The number of its segment type.
    pub(crate) segment: u8,
    /// Its next twin, to which the pointer leads so far.
    pub(crate) next: Pointer,
    /// Its newest serial, 0 for none.
    pub(crate) serial: u64,
    pub(crate) bytes: &'a Bytes,
}

/// A segment that is to come, and the element with the pointer that is to lead to it.
#[derive(Drop)]
pub(crate) struct Gap<'a> {
    pub(crate) holder: Holder,
    pub(crate) added: Added<'a>,
}

/// The gap behind the twin of a number, counted from 0 from a pointer in the interval `home` on.
fn gap_behind<'a, I: Intervals>(
    alloc: Global,
    i: &mut I,
    segments: &List<SegDef>,
    segment: u8,
    home: u64,
    first: Pointer,
    number: usize,
    serial: u64,
    bytes: &'a Bytes,
) -> Result<Gap<'a>, AnchorFault>
    requires few { length segments.now ≤ 15 }
    requires direct { IsDirect segments.now segment }
    requires bytes { length bytes.now ≡ segment_length segments.now segment }
    requires serial { has_serial segments.now segment ≡ false → serial ≡ 0 }
    ensures gap { I.told i.old → IfOk result (IsGapBehind segments.now (I.intervals i.old) segment first number serial
        bytes.now) }
    ensures fits { IfOk result (FitsGap segments.now) }
    ensures sound { I.told i.old → (place : PointerOf) (s : Segment)
        → IsTwinAt segments.now (I.intervals i.old) segment first number place s → (ci : ℕ)
        → result ≢ Err (AnchorFault.Damaged ci) }
    ensures failed { IsErrOf result AnchorFault.Failed → Rose (I.faults i.old) (I.faults i.new) }
    ensures look { IsLook I.told I.intervals I.number I.size I.faults I.keeps i.old i.new }
{
    let Twin { at, said } = twin_at(alloc, i, segments, segment, home, first, number)?;
    let next = said.next;
    Ok(Gap {
        holder: Holder {
            segment,
            at,
            said,
            link: Link::Next,
        },
        added: Added {
            segment,
            next,
            serial,
            bytes,
        },
    })
}

/// The pointer to the first child of a child type, by its place, and the row that it leads to, as it is and as it is to
/// be.
fn row_of<'a>(
    said: &Said,
    number: usize,
    rows: &'a [List<Node>],
    others: &'a [List<Node>],
) -> (First, &'a List<Node>, &'a List<Node>)
    requires { HaveRow said.now.firsts.items rows.now others.now number }
    ensures { (types : List SegDefOf) (parent : ℕ) → HavePlaces 0 types
        → types_of said.now.firsts.items ≡ child_types types parent
        → rows_have_form types (child_types types parent) others.now ≡ true → GainIn rows.now others.now number
        → IsRowAt types parent said.now.firsts.items rows.now others.now number result.0 result.1.now result.2.now }
{
    (said.firsts[number], &rows[number], &others[number])
}

/// The segment of a number in a row.
fn segment_at(row: &List<Node>, number: usize) -> &Node
    requires { number < length row.now }
    ensures { result.now ≡ get_or row.now number result.now }
{
    &row.as_slice()[number]
}

/// The gap in front of the first child of a number of a segment.
fn gap_in_front<'a>(
    segment: u8,
    parent: Twin,
    number: usize,
    first: First,
    bytes: &'a Bytes,
) -> Gap<'a>
    ensures holder { (result.holder.segment ≡ segment) × (result.holder.at ≡ parent.at)
        × (result.holder.said ≡ parent.said) × (result.holder.link ≡ Link.FirstChild number) }
    ensures added { (result.added.segment ≡ first.segment) × (result.added.next ≡ first.at)
        × (result.added.serial ≡ 0) × (result.added.bytes.now ≡ bytes.now) }
{
    let Twin { at, said } = parent;
    Gap {
        holder: Holder {
            segment,
            at,
            said,
            link: Link::FirstChild(number),
        },
        added: Added {
            segment: first.segment,
            next: first.at,
            serial: 0,
            bytes,
        },
    }
}

/// The gap in the rows below a segment, which gain one segment in the row of a number.
fn gap_below<'a, I: Intervals>(
    alloc: Global,
    i: &mut I,
    segments: &List<SegDef>,
    segment: u8,
    parent: Twin,
    number: usize,
    rows: &'a [List<Node>],
    others: &'a [List<Node>],
) -> Result<Option<Gap<'a>>, AnchorFault>
    requires few { length segments.now ≤ 15 }
    requires places { HavePlaces 0 segments.now }
    requires direct { IsDirect segments.now segment }
    requires children { types_of parent.said.firsts.items ≡ child_types segments.now segment }
    requires bytes { length parent.said.bytes ≡ segment_length segments.now segment }
    requires serial { has_serial segments.now segment ≡ false → parent.said.serial ≡ 0 }
    requires form { rows_have_form segments.now (child_types segments.now segment) others.now ≡ true }
    requires gains { GainIn rows.now others.now number }
    ensures gap { I.told i.old
        → HasSegment segments.now (I.intervals i.old) segment parent.at (segment_of parent.said)
        → IfOk result (λ gap. IfSome gap (IsGapBelow segments.now (I.intervals i.old) segment parent.at rows.now
        others.now)) }
    ensures fits { IfOk result (λ gap. IfSome gap (FitsGap segments.now)) }
    ensures some { IfOk result IsSome }
    ensures sound { I.told i.old → GiveRows segments.now (I.intervals i.old) (child_types segments.now segment)
        (pointers_of parent.said.firsts.items) rows.now → (ci : ℕ) → result ≢ Err (AnchorFault.Damaged ci) }
    ensures failed { IsErrOf result AnchorFault.Failed → Rose (I.faults i.old) (I.faults i.new) }
    ensures look { IsLook I.told I.intervals I.number I.size I.faults I.keeps i.old i.new }
{
    let home = parent.at.0;
    let (first, row, other) = row_of(&parent.said, number, rows, others);
    match gain_of_row(row, other) {
        Gain::New(place) => {
            let node = segment_at(other, place);
            if place == 0 {
                return Ok(Some(gap_in_front(segment, parent, number, first, &node.bytes)));
            }
            let gap = gap_behind(
                alloc,
                i,
                segments,
                first.segment,
                home,
                first.at,
                place - 1,
                0,
                &node.bytes,
            )?;
            Ok(Some(gap))
        }
        Gain::Within(place, deeper) => {
            let twin = twin_at(alloc, i, segments, first.segment, home, first.at, place)?;
            let node = segment_at(row, place);
            let more = segment_at(other, place);
            gap_below(
                alloc,
                i,
                segments,
                first.segment,
                twin,
                deeper,
                node.children.as_slice(),
                more.children.as_slice(),
            )
        }
        Gain::Not => Ok(None),
    }
}

/// The gap in an anchor's roots, to whose first one a pointer in the interval `base` leads. None where the second list
/// has not one segment more, or that is a root in front of all others.
pub(crate) fn gap_in_roots<'a, I: Intervals>(
    alloc: Global,
    i: &mut I,
    segments: &List<SegDef>,
    base: u64,
    first: Pointer,
    roots: &'a [Root],
    others: &'a [Root],
    gain: Gain,
) -> Result<Option<Gap<'a>>, AnchorFault>
    requires types { AreTypes (I.size i.old) segments.now }
    requires form { are_storable segments.now others.now ≡ true }
    requires tells { TellsRootGain roots.now others.now gain }
    ensures gap { I.told i.old → IfOk result (λ gap. IfSome gap (IsGapInRoots segments.now (I.intervals i.old) first
        roots.now others.now)) }
    ensures fits { IfOk result (λ gap. IfSome gap (FitsGap segments.now)) }
    ensures some { gain ≢ Gain.Not → gain ≢ Gain.New 0 → IfOk result IsSome }
    ensures sound { I.told i.old → GivesRoots segments.now (I.intervals i.old) first roots.now → (ci : ℕ)
        → result ≢ Err (AnchorFault.Damaged ci) }
    ensures failed { IsErrOf result AnchorFault.Failed → Rose (I.faults i.old) (I.faults i.new) }
    ensures look { IsLook I.told I.intervals I.number I.size I.faults I.keeps i.old i.new }
{
    match gain {
        Gain::New(place) => {
            if place == 0 {
                return Ok(None);
            }
            let root = &others[place];
            let gap = gap_behind(
                alloc,
                i,
                segments,
                0,
                base,
                first,
                place - 1,
                newest_of(&root.seqs),
                &root.bytes,
            )?;
            Ok(Some(gap))
        }
        Gain::Within(place, number) => {
            let twin = twin_at(alloc, i, segments, 0, base, first, place)?;
            let root = &roots[place];
            let more = &others[place];
            gap_below(
                alloc,
                i,
                segments,
                0,
                twin,
                number,
                root.children.as_slice(),
                more.children.as_slice(),
            )
        }
        Gain::Not => Ok(None),
    }
}
