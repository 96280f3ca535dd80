//! The element of the segment in which two lists of an anchor's roots differ.
//!
//! Twins are followed up to the one that differs, and of a segment's rows only the one in which they differ. What
//! stands elsewhere isn't read.

ghost use Rattle.std.specs.Prelude.{◌≡◌, ◌≢◌, ◌<◌, ◌≤◌, ℕ, List, Err, IfOk, IfSome, IsErrOf, IsSome, true, false, length};
ghost use Rattle.ci_space.specs.Calls.{GoesOn};
ghost use Rattle.fp_lists.specs.Faults.{Rose};
ghost use Rattle.fp_model.specs.Order.{child_types};
ghost use Rattle.fp_model.specs.Shape.{has_length};
ghost use Rattle.fp_model.specs.WellFormed.{HavePlaces};
ghost use Rattle.anchor_elements.specs.Elements.{AreTypes, Segment, has_serial, Pointer as PointerOf};
ghost use Rattle.anchor_elements.specs.Reading.{types_of, pointers_of, segment_of};
ghost use Rattle.root_anchor.specs.Chains.{anchor_count, root_of};
ghost use Rattle.root_changes.specs.Differing.{DifferIn, RowDiffers, RootsDiffer};
ghost use Rattle.root_anchor.specs.Differing.{RowsDifferIn, RootsDifferIn};
ghost use Rattle.root_anchor.specs.inside.Finding.{IsTwinAt, GiveRows, GivesRow, GivesRoots, RowDiffersIn, FitsType, says_of};
ghost use Rattle.root_anchor.specs.Formed.{HasRoots};
ghost use Rattle.root_anchor.specs.inside.Rebuilding.{IsDirect};
ghost use Rattle.root_anchor.specs.Stored.{are_storable, rows_have_form};
ghost use Rattle.root_anchor.specs.inside.Stored.{row_has_form};
ghost use Rattle.root_anchor.specs.inside.Walking.{IsLook};

use crate::anchor::{base_of, root_anchor_point};
use crate::building::newest_of;
use anchor_elements::{AnchorFault, First, Pointer, Said, read_element};
use ci_space::{Intervals, Shape};
use fp_model::{Bytes, List, Node, Root, SegDef};
use root_changes::{Difference, compare_nodes, compare_root, compare_roots, compare_row};
use std::alloc::Global;

/// The element of a segment that changes.
#[derive(Drop)]
pub(crate) struct Found<'a> {
    /// The number of its segment type.
    pub(crate) segment: u8,
    pub(crate) at: Pointer,
    /// What it says.
    pub(crate) said: Said,
    /// The newest serial that it is to say.
    pub(crate) serial: u64,
    /// The bytes that it is to say.
    pub(crate) bytes: &'a Bytes,
}

/// A segment's element, and what it says.
#[derive(Drop)]
pub(crate) struct Twin {
    pub(crate) at: Pointer,
    pub(crate) said: Said,
}

/// The twin of a number, counted from 0 from a pointer in the interval `home` on.
pub(crate) fn twin_at<I: Intervals>(
    alloc: Global,
    i: &mut I,
    segments: &List<SegDef>,
    segment: u8,
    home: u64,
    first: Pointer,
    number: usize,
) -> Result<Twin, AnchorFault>
    requires few { length segments.now ≤ 15 }
    requires defined { segment < length segments.now }
    ensures twin { I.told i.old → IfOk result (λ twin. IsTwinAt segments.now (I.intervals i.old) segment first number
        twin.at (segment_of twin.said)) }
    ensures types { IfOk result (λ twin. types_of twin.said.firsts.items ≡ child_types segments.now segment) }
    ensures long { IfOk result (λ twin. has_length segments.now segment twin.said.bytes ≡ true) }
    ensures serial { IfOk result (λ twin. has_serial segments.now segment ≡ false → twin.said.serial ≡ 0) }
    ensures sound { I.told i.old → (place : PointerOf) (s : Segment)
        → IsTwinAt segments.now (I.intervals i.old) segment first number place s → (ci : ℕ)
        → result ≢ Err (AnchorFault.Damaged ci) }
    ensures failed { IsErrOf result AnchorFault.Failed → Rose (I.faults i.old) (I.faults i.new) }
    ensures look { IsLook I.told I.intervals I.number I.size I.faults I.keeps i.old i.new }
{
    let mut from = home;
    let mut at = first;
    let mut left = number;
    while left > 0 {
        let said = read_element(alloc, i, segments, segment, from, at)?;
        from = at.0;
        at = said.next;
        left -= 1;
    }
    let said = read_element(alloc, i, segments, segment, from, at)?;
    Ok(Twin { at, said })
}

/// The element in which two rows of a type differ, whose first pointer stands in the interval `home`.
#[cycle(finds)]
fn find_in_row<'a, I: Intervals>(
    alloc: Global,
    i: &mut I,
    segments: &List<SegDef>,
    segment: u8,
    home: u64,
    first: Pointer,
    row: &'a List<Node>,
    other: &'a List<Node>,
) -> Result<Option<Found<'a>>, AnchorFault>
    requires few { length segments.now ≤ 15 }
    requires places { HavePlaces 0 segments.now }
    requires direct { IsDirect segments.now segment }
    requires form { row_has_form segments.now segment other.now ≡ true }
    requires differ { RowDiffers row.now other.now }
    ensures found { I.told i.old → IfOk result (λ found. IfSome found (λ f. RowDiffersIn segments.now
        (I.intervals i.old) segment first row.now other.now f.segment f.at (says_of f))) }
    ensures fits { IfOk result (λ found. IfSome found (FitsType segments.now)) }
    ensures some { I.told i.old → GivesRow segments.now (I.intervals i.old) segment first row.now
        → IfOk result IsSome }
    ensures sound { I.told i.old → GivesRow segments.now (I.intervals i.old) segment first row.now → (ci : ℕ)
        → result ≢ Err (AnchorFault.Damaged ci) }
    ensures failed { IsErrOf result AnchorFault.Failed → Rose (I.faults i.old) (I.faults i.new) }
    ensures look { IsLook I.told I.intervals I.number I.size I.faults I.keeps i.old i.new }
{
    let Difference::At(number) = compare_row(row, other) else {
        return Ok(None);
    };
    let Twin { at, said } = twin_at(alloc, i, segments, segment, home, first, number)?;
    let node = &row.as_slice()[number];
    let changed = &other.as_slice()[number];
    match compare_nodes(node, changed) {
        Difference::Itself => Ok(Some(Found {
            segment,
            at,
            serial: said.serial,
            said,
            bytes: &changed.bytes,
        })),
        Difference::At(place) => find_below(
            alloc,
            i,
            segments,
            segment,
            at.0,
            said.firsts.as_slice(),
            place,
            node.children.as_slice(),
            changed.children.as_slice(),
        ),
        _ => Ok(None),
    }
}

/// The element in which the rows below a segment of a type differ, whose first pointers stand in the interval `home`:
/// they differ in the row of this place.
#[cycle(finds)]
fn find_below<'a, I: Intervals>(
    alloc: Global,
    i: &mut I,
    segments: &List<SegDef>,
    segment: u8,
    home: u64,
    firsts: &[First],
    place: usize,
    rows: &'a [List<Node>],
    others: &'a [List<Node>],
) -> Result<Option<Found<'a>>, AnchorFault>
    requires few { length segments.now ≤ 15 }
    requires places { HavePlaces 0 segments.now }
    requires children { types_of firsts.now ≡ child_types segments.now segment }
    requires form { rows_have_form segments.now (child_types segments.now segment) others.now ≡ true }
    requires differ { DifferIn RowDiffers rows.now others.now place }
    requires inside { (place < length firsts.now) × (place < length rows.now) × (place < length others.now) }
    ensures found { I.told i.old → IfOk result (λ found. IfSome found (λ f. RowsDifferIn segments.now
        (I.intervals i.old) (child_types segments.now segment) (pointers_of firsts.now) rows.now others.now f.segment
        f.at (says_of f))) }
    ensures fits { IfOk result (λ found. IfSome found (FitsType segments.now)) }
    ensures some { I.told i.old
        → GiveRows segments.now (I.intervals i.old) (child_types segments.now segment) (pointers_of firsts.now) rows.now
        → IfOk result IsSome }
    ensures sound { I.told i.old
        → GiveRows segments.now (I.intervals i.old) (child_types segments.now segment) (pointers_of firsts.now) rows.now
        → (ci : ℕ) → result ≢ Err (AnchorFault.Damaged ci) }
    ensures failed { IsErrOf result AnchorFault.Failed → Rose (I.faults i.old) (I.faults i.new) }
    ensures look { IsLook I.told I.intervals I.number I.size I.faults I.keeps i.old i.new }
{
    let first = firsts[place];
    find_in_row(
        alloc,
        i,
        segments,
        first.segment,
        home,
        first.at,
        &rows[place],
        &others[place],
    )
}

/// The element in which two lists of roots differ, to whose first one a pointer in the interval `base` leads.
fn find_in_roots<'a, I: Intervals>(
    alloc: Global,
    i: &mut I,
    segments: &List<SegDef>,
    base: u64,
    first: Pointer,
    before: &'a [Root],
    after: &'a [Root],
) -> Result<Option<Found<'a>>, AnchorFault>
    requires types { AreTypes (I.size i.old) segments.now }
    requires form { are_storable segments.now after.now ≡ true }
    ensures found { I.told i.old → IfOk result (λ found. IfSome found (λ f. RootsDifferIn segments.now
        (I.intervals i.old) first before.now after.now f.segment f.at (says_of f))) }
    ensures fits { IfOk result (λ found. IfSome found (FitsType segments.now)) }
    ensures differ { IfOk result (λ found. IfSome found (λ f. RootsDiffer before.now after.now)) }
    ensures some { I.told i.old → GivesRoots segments.now (I.intervals i.old) first before.now
        → RootsDiffer before.now after.now → IfOk result IsSome }
    ensures sound { I.told i.old → GivesRoots segments.now (I.intervals i.old) first before.now → (ci : ℕ)
        → result ≢ Err (AnchorFault.Damaged ci) }
    ensures failed { IsErrOf result AnchorFault.Failed → Rose (I.faults i.old) (I.faults i.new) }
    ensures look { IsLook I.told I.intervals I.number I.size I.faults I.keeps i.old i.new }
{
    let Difference::At(number) = compare_roots(before, after) else {
        return Ok(None);
    };
    let Twin { at, said } = twin_at(alloc, i, segments, 0, base, first, number)?;
    let root = &before[number];
    let changed = &after[number];
    match compare_root(root, changed) {
        Difference::Itself => Ok(Some(Found {
            segment: 0,
            at,
            said,
            serial: newest_of(&changed.seqs),
            bytes: &changed.bytes,
        })),
        Difference::At(place) => find_below(
            alloc,
            i,
            segments,
            0,
            at.0,
            said.firsts.as_slice(),
            place,
            root.children.as_slice(),
            changed.children.as_slice(),
        ),
        _ => Ok(None),
    }
}

/// The element of an anchor in which two lists of its roots differ. None where they differ otherwise.
pub(crate) fn find_change<'a, I: Intervals>(
    alloc: Global,
    i: &mut I,
    shape: &Shape,
    segments: &List<SegDef>,
    anchor: u32,
    before: &'a List<Root>,
    after: &'a List<Root>,
) -> Result<Option<Found<'a>>, AnchorFault>
    requires anchor { anchor < anchor_count shape.now }
    requires types { AreTypes (I.size i.old) segments.now }
    requires form { are_storable segments.now after.now ≡ true }
    ensures found { I.told i.old → IfOk result (λ found. IfSome found (λ f. RootsDifferIn segments.now
        (I.intervals i.old) (root_of shape.now (I.intervals i.old) anchor) before.now after.now f.segment f.at
        (says_of f))) }
    ensures fits { IfOk result (λ found. IfSome found (FitsType segments.now)) }
    ensures differ { IfOk result (λ found. IfSome found (λ f. RootsDiffer before.now after.now)) }
    ensures some { I.told i.old → HasRoots shape.now segments.now (I.intervals i.old) anchor before.now
        → RootsDiffer before.now after.now → IfOk result IsSome }
    ensures sound { I.told i.old → HasRoots shape.now segments.now (I.intervals i.old) anchor before.now → (ci : ℕ)
        → result ≢ Err (AnchorFault.Damaged ci) }
    ensures failed { IsErrOf result AnchorFault.Failed → Rose (I.faults i.old) (I.faults i.new) }
    ensures look { IsLook I.told I.intervals I.number I.size I.faults I.keeps i.old i.new }
{
    let base = base_of(shape, anchor);
    let first = root_anchor_point(i, shape, anchor, base)?;
    find_in_roots(
        alloc,
        i,
        segments,
        base,
        first,
        before.as_slice(),
        after.as_slice(),
    )
}
