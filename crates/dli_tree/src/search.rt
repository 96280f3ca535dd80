//! The next segment that a get looks for.
//!
//! A search goes down from the roots. At each level it enters the twins that the position, the parent and the arguments
//! leave, found by their keys, and the child types from which a segment that is looked for can be reached.
ghost use Rattle.dli_tree.specs.inside.Aims.{Search, aim_of, can_be_met, entered, looks_for, wants};
ghost use Rattle.dli_tree.specs.InOrder.{AreTypes, are_in_order};
ghost use Rattle.dli_tree.specs.Paths.{occurrence_of, place_of, steps_of};
ghost use Rattle.fp_model.specs.Order.{at_end, child_types, dependent, first_admitted, node_order, one_down, root_order, rows_in_order, sequence, sequential_type, sequentials};
ghost use Rattle.fp_model.specs.Shape.{are_newest_first, are_rows, is_root, is_row, seen_as};
ghost use Rattle.std.specs.Option.{option_copied, option_map_or};
ghost use Rattle.std.specs.Prelude.{◌≡◌, ◌∷◌, ◌++◌, ◌<◌, ◌≤◌, ◌^◌, ℕ, [], IfOk, find, flat_map, length, map, option_map, slice_get, Some, true};
ghost use Rattle.dli_tree.specs.InOrder.{any_ends};

use crate::aim::{Aim, can_be_met, ends_here, leads_on};
use crate::path::{Path, Step};
use crate::reach::{roots_in_reach, twins_in_reach};
use crate::types::{is_direct_child, key_in, sequential_type};
use fp_model::{Bytes, List, Node, Root, SegDef, SeqItem, Ssa};
use std::alloc::{AllocError, Global};

/// A segment that was found, before the steps that lead to it are put in front.
pub(crate) fn itself(alloc: Global, bytes: &Bytes) -> Result<(Path, Bytes), AllocError>
    ensures { IfOk result (λ found. occurrence_of found ≡ at_end bytes.now) }
{
    let bytes = bytes.copy()?;
    let steps = List::new(alloc);
    Ok((Path { steps }, bytes))
}

/// What was found, with this step in front of its path.
pub(crate) fn under(
    alloc: Global,
    found: (Path, Bytes),
    segment: u8,
    key: &[u8],
    serial: u64,
) -> Result<(Path, Bytes), AllocError>
    ensures { IfOk result (λ whole. occurrence_of whole ≡ one_down
        (record { segment = segment; key = key.now; serial = serial }) (occurrence_of found)) }
{
    let (mut path, bytes) = found;
    let key = Bytes::from_slice(alloc, key)?;
    path.steps.insert(
        0,
        Step {
            segment,
            key,
            serial,
        },
    )?;
    Ok((path, bytes))
}

/// The same of what was found, if anything was.
pub(crate) fn all_under(
    alloc: Global,
    found: Option<(Path, Bytes)>,
    segment: u8,
    key: &[u8],
) -> Result<Option<(Path, Bytes)>, AllocError>
    ensures { IfOk result (λ whole. option_map occurrence_of whole ≡ option_map
        (one_down (record { segment = segment; key = key.now; serial = 0 })) (option_map occurrence_of found)) }
{
    match found {
        None => Ok(None),
        Some(found) => Ok(Some(under(alloc, found, segment, key, 0)?)),
    }
}

/// The first that is looked for at or below one of these twins of a type.
#[cycle(searches)]
fn in_row(
    alloc: Global,
    segments: &[SegDef],
    aim: Aim<'_>,
    segment: u8,
    twins: &[Node],
) -> Result<Option<(Path, Bytes)>, AllocError>
    requires types { AreTypes segments.now }
    requires defined { segment < length segments.now }
    ensures { is_row segments.now segment (map (seen_as segments.now) twins.now) ≡ true
        → IfOk result (λ found. option_map occurrence_of found ≡ find (looks_for (aim_of aim.entry))
        (flat_map (λ node. node_order segments.now node segment) twins.now)) }
{
    if !leads_on(segments, aim.ssas, segment) {
        return Ok(None);
    }
    let stretch = twins_in_reach(segments, aim, segment, twins);
    for at in stretch.from..stretch.to {
        if let Some(found) = in_node(alloc, segments, aim, segment, &twins[at])? {
            return Ok(Some(found));
        }
    }
    Ok(None)
}

/// The first that is looked for at or below a segment.
#[cycle(searches)]
fn in_node(
    alloc: Global,
    segments: &[SegDef],
    aim: Aim<'_>,
    segment: u8,
    node: &Node,
) -> Result<Option<(Path, Bytes)>, AllocError>
    requires types { AreTypes segments.now }
    requires defined { segment < length segments.now }
    ensures { (seen_as segments.now node.now segment).in_shape ≡ true
        → IfOk result (λ found. option_map occurrence_of found ≡ find (looks_for (aim_of aim.entry))
        (node_order segments.now node.now segment)) }
{
    let key = key_in(segments, segment, node.bytes.as_slice());
    match aim.enter(segment, key, 0) {
        None => Ok(None),
        Some(below) => {
            let found = at_node(alloc, segments, below, segment, &node.bytes, &node.children)?;
            all_under(alloc, found, segment, key)
        }
    }
}

/// The first that is looked for of a segment and all below it, from there on.
#[cycle(searches)]
fn at_node(
    alloc: Global,
    segments: &[SegDef],
    aim: Aim<'_>,
    segment: u8,
    bytes: &Bytes,
    children: &List<List<Node>>,
) -> Result<Option<(Path, Bytes)>, AllocError>
    requires types { AreTypes segments.now }
    requires defined { segment < length segments.now }
    ensures { are_rows segments.now (child_types segments.now segment) (map (map (seen_as segments.now)) children.now) ≡
        true
        → IfOk result (λ found. option_map occurrence_of found
        ≡ find (looks_for (aim_of aim.entry)) (at_end bytes.now ∷ rows_in_order (child_types segments.now segment)
        (map (map (node_order segments.now)) children.now))) }
{
    if aim.is_met() {
        return Ok(Some(itself(alloc, bytes)?));
    }
    in_rows(alloc, segments, aim, segment, children.as_slice())
}

/// The first that is looked for below a segment, among the twins of its child types.
#[cycle(searches)]
pub(crate) fn in_rows(
    alloc: Global,
    segments: &[SegDef],
    aim: Aim<'_>,
    parent: u8,
    rows: &[List<Node>],
) -> Result<Option<(Path, Bytes)>, AllocError>
    requires types { AreTypes segments.now }
    requires defined { parent < length segments.now }
    ensures { are_rows segments.now (child_types segments.now parent) (map (map (seen_as segments.now)) rows.now) ≡ true
        → IfOk result (λ found. option_map occurrence_of found
        ≡ find (looks_for (aim_of aim.entry)) (rows_in_order (child_types segments.now parent)
        (map (map (node_order segments.now)) rows.now))) }
{
    let mut at = 0;
    for child in 0..segments.len() {
        if !is_direct_child(&segments[child], parent) {
            continue;
        }
        if at >= rows.len() {
            return Ok(None);
        }
        if let Some(found) = in_row(alloc, segments, aim, child as u8, rows[at].as_slice())? {
            return Ok(Some(found));
        }
        at += 1;
    }
    Ok(None)
}
