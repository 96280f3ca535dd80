//! An anchor's segments are built anew, in the places that a plan has for them.
//!
//! A row is built from its last segment to its first, and what is below a segment before the segment itself: so each
//! pointer is known when it is written. The plan is in hierarchical order, and is used up from its end.

ghost use Rattle.std.specs.Prelude.{◌≡◌, ◌≢◌, ◌<◌, ◌≤◌, ◌++◌, ◌∷◌, [], ℕ, List, Err, IfOk, IsErrOf, IsErr, length, map, replicate, true, false, Some};
ghost use Rattle.ci_space.specs.Calls.{GoesOn};
ghost use Rattle.fp_lists.specs.Faults.{Rose};
ghost use Rattle.fp_model.specs.Order.{child_types};
ghost use Rattle.anchor_elements.specs.Elements.{Pointer as PointerOf, has_serial, nothing, segment_length, AreTypes};
ghost use Rattle.root_anchor.specs.Chains.{newest};
ghost use Rattle.root_anchor.specs.Stored.{are_storable, is_newest, rows_have_form};
ghost use Rattle.root_anchor.specs.inside.Stored.{row_has_form};
ghost use Rattle.root_anchor.specs.inside.Rebuilding.{IsDirect, IsPlanned, BuildsSegment, BuildsRows, BuildsRoots, types_of_row, types_of_rows, types_of_roots, types_of_segment};
ghost use Rattle.root_anchor.specs.declared.plan.Planned.{Planned as PlannedOf};
ghost use Rattle.fp_model.specs.declared.definitions.SegDef.{SegDef as SegDefOf};

use crate::plan::Planned;
use anchor_elements::{AnchorFault, Pointer, Saying, is_child_of, put_segment};
use ci_overflow::SpaceFault;
use ci_space::{Intervals, Shape};
use fp_model::{Bytes, List, Node, Root, SegDef, SeqItem};
use std::alloc::Global;
use std::collections::VecDeque;

/// The anchor whose segments are built, the shape of its area, and the types of its database.
#[derive(Clone, Copy)]
pub(crate) struct Home<'a> {
    pub(crate) shape: &'a Shape,
    pub(crate) segments: &'a List<SegDef>,
    /// Counted from 0 within its area.
    pub(crate) anchor: u32,
}

/// The same fault, of a call on an anchor.
pub(crate) fn fault_of(fault: SpaceFault) -> AnchorFault
    ensures damaged { (ci : ℕ) → result ≡ AnchorFault.Damaged ci → fault ≡ SpaceFault.Damaged ci }
    ensures failed { result ≡ AnchorFault.Failed → fault ≡ SpaceFault.Failed }
{
    match fault {
        SpaceFault::Damaged(ci) => AnchorFault::Damaged(ci),
        SpaceFault::Failed => AnchorFault::Failed,
        SpaceFault::Memory => AnchorFault::Memory,
    }
}

/// What a segment that is built says, but for its first children.
#[derive(Clone, Copy)]
struct Itself<'a> {
    /// The next twin.
    next: Pointer,
    /// The newest serial, 0 for none.
    serial: u64,
    bytes: &'a [u8],
}

/// Takes the last place of a plan: the pointer to nothing where it has none.
fn next_place(plan: &mut VecDeque<Planned>) -> Pointer
    ensures { (before : List PlannedOf) (p : PlannedOf) → plan.old.items ≡ before ++ p ∷ [] → (plan.new.items ≡ before)
        × ((at : PointerOf) → p.at ≡ Some at → result ≡ at) }
{
    let Some(planned) = plan.pop_back() else {
        return (0, 0);
    };
    match planned.at {
        Some(at) => at,
        None => (0, 0),
    }
}

/// The direct child types of a type, in order of definition.
pub(crate) fn types_below(
    alloc: Global,
    segments: &[SegDef],
    parent: u8,
) -> Result<Vec<u8>, AnchorFault>
    requires few { length segments.now ≤ 15 }
    ensures types { IfOk result (λ types. types.items ≡ child_types segments.now parent) }
    ensures memory { IsErr result → result ≡ Err AnchorFault.Memory }
{
    let mut types = Vec::new(alloc);
    for (child, def) in segments.iter().enumerate() {
        if is_child_of(def, parent) && types.push(child as u8).is_err() {
            return Err(AnchorFault::Memory);
        }
    }
    Ok(types)
}

/// As many pointers to nothing.
pub(crate) fn no_pointers(alloc: Global, count: usize) -> Result<Vec<Pointer>, AnchorFault>
    ensures count { IfOk result (λ pointers. length pointers.items ≡ count) }
    ensures nothing { IfOk result (λ pointers. pointers.items ≡ replicate count nothing) }
    ensures memory { IsErr result → result ≡ Err AnchorFault.Memory }
{
    match vec![in alloc; (0, 0); count] {
        Ok(pointers) => Ok(pointers),
        Err(_) => Err(AnchorFault::Memory),
    }
}

/// Builds a segment with all below it, and gives the pointer to it.
#[cycle(builds)]
fn build_segment<I: Intervals>(
    alloc: Global,
    i: &mut I,
    home: &Home<'_>,
    plan: &mut VecDeque<Planned>,
    segment: u8,
    itself: &Itself<'_>,
    children: &List<List<Node>>,
) -> Result<Pointer, AnchorFault>
    requires types { AreTypes (I.size i.old) home.now.segments.now }
    requires direct { IsDirect home.now.segments.now segment }
    requires bytes { length itself.now.bytes.now ≡ segment_length home.now.segments.now segment }
    requires serial { has_serial home.now.segments.now segment ≡ false → itself.now.serial ≡ 0 }
    requires rows { rows_have_form home.now.segments.now (child_types home.now.segments.now segment) children.now
        ≡ true }
    ensures built { I.told i.old → (before used : List PlannedOf)
        → IsPlanned home.now.segments.now (I.intervals i.old) plan.old.items before used
        (types_of_segment home.now.segments.now segment children.now)
        → IfOk result (λ at. (plan.new.items ≡ before)
        × BuildsSegment home.now.shape.now home.now.segments.now (I.intervals i.old) (I.intervals i.new) used
        segment at itself.now.next itself.now.serial itself.now.bytes.now children.now) }
    ensures sound { I.told i.old → (before used : List PlannedOf)
        → IsPlanned home.now.segments.now (I.intervals i.old) plan.old.items before used
        (types_of_segment home.now.segments.now segment children.now)
        → (ci : ℕ) → result ≢ Err (AnchorFault.Damaged ci) }
    ensures failed { IsErrOf result AnchorFault.Failed → Rose (I.faults i.old) (I.faults i.new) }
    ensures number { I.number i.old ≤ I.number i.new }
    ensures goes_on { GoesOn I.told I.size I.faults I.keeps i.old i.new }
{
    let firsts = build_rows(alloc, i, home, plan, segment, children)?;
    let at = next_place(plan);
    let saying = Saying {
        next: itself.next,
        serial: itself.serial,
        firsts: firsts.as_slice(),
        bytes: itself.bytes,
    };
    put_segment(i, home.segments, segment, at, saying)?;
    Ok(at)
}

/// Builds a row of segments of a type with all below them, and gives the pointer to the first.
#[cycle(builds)]
fn build_row<I: Intervals>(
    alloc: Global,
    i: &mut I,
    home: &Home<'_>,
    plan: &mut VecDeque<Planned>,
    segment: u8,
    row: &List<Node>,
) -> Result<Pointer, AnchorFault>
    requires types { AreTypes (I.size i.old) home.now.segments.now }
    requires direct { IsDirect home.now.segments.now segment }
    requires child { has_serial home.now.segments.now segment ≡ false }
    requires row { row_has_form home.now.segments.now segment row.now ≡ true }
    ensures built { I.told i.old → (before used : List PlannedOf)
        → IsPlanned home.now.segments.now (I.intervals i.old) plan.old.items before used
        (types_of_row home.now.segments.now segment row.now)
        → IfOk result (λ first. (plan.new.items ≡ before)
        × BuildsRows home.now.shape.now home.now.segments.now (I.intervals i.old) (I.intervals i.new) used
        (segment ∷ []) (first ∷ []) (row.now ∷ [])) }
    ensures sound { I.told i.old → (before used : List PlannedOf)
        → IsPlanned home.now.segments.now (I.intervals i.old) plan.old.items before used
        (types_of_row home.now.segments.now segment row.now)
        → (ci : ℕ) → result ≢ Err (AnchorFault.Damaged ci) }
    ensures failed { IsErrOf result AnchorFault.Failed → Rose (I.faults i.old) (I.faults i.new) }
    ensures number { I.number i.old ≤ I.number i.new }
    ensures goes_on { GoesOn I.told I.size I.faults I.keeps i.old i.new }
{
    let mut next = (0, 0);
    let mut left = row.len();
    while left > 0 {
        left -= 1;
        let node = &row.as_slice()[left];
        let itself = Itself {
            next,
            serial: 0,
            bytes: node.bytes.as_slice(),
        };
        next = build_segment(alloc, i, home, plan, segment, &itself, &node.children)?;
    }
    Ok(next)
}

/// Builds a row of each direct child type of a type, and gives the pointers to the first ones.
#[cycle(builds)]
fn build_rows<I: Intervals>(
    alloc: Global,
    i: &mut I,
    home: &Home<'_>,
    plan: &mut VecDeque<Planned>,
    segment: u8,
    rows: &List<List<Node>>,
) -> Result<Vec<Pointer>, AnchorFault>
    requires types { AreTypes (I.size i.old) home.now.segments.now }
    requires rows { rows_have_form home.now.segments.now (child_types home.now.segments.now segment) rows.now ≡ true }
    ensures count { IfOk result (λ firsts. length firsts.items ≡ length (child_types home.now.segments.now segment)) }
    ensures built { I.told i.old → (before used : List PlannedOf)
        → IsPlanned home.now.segments.now (I.intervals i.old) plan.old.items before used
        (types_of_rows home.now.segments.now (child_types home.now.segments.now segment) rows.now)
        → IfOk result (λ firsts. (plan.new.items ≡ before)
        × BuildsRows home.now.shape.now home.now.segments.now (I.intervals i.old) (I.intervals i.new) used
        (child_types home.now.segments.now segment) firsts.items rows.now) }
    ensures sound { I.told i.old → (before used : List PlannedOf)
        → IsPlanned home.now.segments.now (I.intervals i.old) plan.old.items before used
        (types_of_rows home.now.segments.now (child_types home.now.segments.now segment) rows.now)
        → (ci : ℕ) → result ≢ Err (AnchorFault.Damaged ci) }
    ensures failed { IsErrOf result AnchorFault.Failed → Rose (I.faults i.old) (I.faults i.new) }
    ensures number { I.number i.old ≤ I.number i.new }
    ensures goes_on { GoesOn I.told I.size I.faults I.keeps i.old i.new }
{
    let types = types_below(alloc, home.segments.as_slice(), segment)?;
    let mut firsts = no_pointers(alloc, rows.len())?;
    let mut left = rows.len();
    while left > 0 {
        left -= 1;
        let row = &rows.as_slice()[left];
        let first = build_row(alloc, i, home, plan, types[left], row)?;
        firsts[left] = first;
    }
    Ok(firsts)
}

/// The newest serial of a root, 0 for none.
pub(crate) fn newest_of(seqs: &List<SeqItem>) -> u64
    ensures newest { (types : List SegDefOf) → is_newest types seqs.now ≡ true → newest result ≡ seqs.now }
    ensures none { (types : List SegDefOf) → is_newest types seqs.now ≡ true → has_serial types 0 ≡ false → result ≡ 0 }
{
    let items = seqs.as_slice();
    if items.is_empty() { 0 } else { items[0].serial }
}

/// Builds the roots of an anchor with all below them, and gives the pointer to the first.
pub(crate) fn build_roots<I: Intervals>(
    alloc: Global,
    i: &mut I,
    home: &Home<'_>,
    plan: &mut VecDeque<Planned>,
    roots: &List<Root>,
) -> Result<Pointer, AnchorFault>
    requires types { AreTypes (I.size i.old) home.now.segments.now }
    requires roots { are_storable home.now.segments.now roots.now ≡ true }
    ensures built { I.told i.old → (before used : List PlannedOf)
        → IsPlanned home.now.segments.now (I.intervals i.old) plan.old.items before used
        (types_of_roots home.now.segments.now roots.now)
        → IfOk result (λ first. (plan.new.items ≡ before)
        × BuildsRoots home.now.shape.now home.now.segments.now (I.intervals i.old) (I.intervals i.new) used first
        roots.now) }
    ensures sound { I.told i.old → (before used : List PlannedOf)
        → IsPlanned home.now.segments.now (I.intervals i.old) plan.old.items before used
        (types_of_roots home.now.segments.now roots.now)
        → (ci : ℕ) → result ≢ Err (AnchorFault.Damaged ci) }
    ensures failed { IsErrOf result AnchorFault.Failed → Rose (I.faults i.old) (I.faults i.new) }
    ensures number { I.number i.old ≤ I.number i.new }
    ensures goes_on { GoesOn I.told I.size I.faults I.keeps i.old i.new }
{
    let mut next = (0, 0);
    let mut left = roots.len();
    while left > 0 {
        left -= 1;
        let root = &roots.as_slice()[left];
        let itself = Itself {
            next,
            serial: newest_of(&root.seqs),
            bytes: root.bytes.as_slice(),
        };
        next = build_segment(alloc, i, home, plan, 0, &itself, &root.children)?;
    }
    Ok(next)
}
