//! The first segment of an anchor that a get looks for.
ghost use Rattle.dli_tree.specs.inside.Aims.{Search, aim_of, looks_for, wants};
ghost use Rattle.dli_tree.specs.InOrder.{AreTypes, any_ends, are_in_order};
ghost use Rattle.dli_tree.specs.Paths.{occurrence_of, place_of, step_of, steps_of};
ghost use Rattle.dli_tree.specs.inside.Paths.{path_steps};
ghost use Rattle.fp_model.specs.Order.{Step as StepOf, at_end, child_types, dependent, first_admitted, node_order, numbered, root_key, root_order, rows_in_order, sequence, sequentials};
ghost use Rattle.fp_model.specs.Shape.{are_newest_first, are_rows, is_root, seen_as};
ghost use Rattle.fp_model.specs.State.{ascend};
ghost use Rattle.std.specs.List.{list_all};
ghost use Rattle.std.specs.Option.{option_copied};
ghost use Rattle.std.specs.Prelude.{◌≡◌, ◌∷◌, ◌++◌, ◌<◌, ◌≤◌, nat_le, ◌^◌, ℕ, List as ListOf, [], IfOk, find, length, map, option_map, slice_index_or, Some, false, true};
ghost use Rattle.fp_model.specs.declared.database.SeqItem.{SeqItem as SeqItemOf};

use crate::aim::{Aim, can_be_met, ends_here};
use crate::path::{Path, Step};
use crate::reach::roots_in_reach;
use crate::search::{all_under, in_rows, itself, under};
use crate::types::{key_in, sequential_type};
use fp_model::{Bytes, List, Root, SegDef, SeqItem, Ssa};
use std::alloc::{AllocError, Global};

/// How many of the newest dependents of a root don't stand behind a position with this first step.
fn not_behind(first: &Step, segment: u8, seqs: &[SeqItem]) -> usize
    ensures within { result ≤ length seqs.now }
    ensures left { are_newest_first 0 (2 ^ 64) seqs.now ≡ true → (aim : Search) (rest : ListOf StepOf)
        → aim.behind ≡ Some (step_of first.now ∷ rest)
        → (i : ℕ) (d : SeqItemOf) → i < result → wants aim (numbered segment (slice_index_or seqs.now i d).serial ∷ [])
        ≡ false }
{
    if first.segment > segment {
        return seqs.len();
    }
    if first.segment < segment {
        return 0;
    }
    let serial = first.serial;
    seqs.partition_point(
        |item: &SeqItem| -> bool
            ensures { result ≡ nat_le serial item.now.serial }
        { serial <= item.serial },
    )
}

/// How many of the newest dependents of a root aren't looked for, at least.
fn newest_left(aim: Aim<'_>, segment: u8, seqs: &[SeqItem]) -> usize
    ensures within { result ≤ length seqs.now }
    ensures left { are_newest_first 0 (2 ^ 64) seqs.now ≡ true
        → (i : ℕ) (d : SeqItemOf) → i < result → wants (aim_of aim.entry)
        (numbered segment (slice_index_or seqs.now i d).serial ∷ []) ≡ false }
{
    if !ends_here(aim.ssas, segment) {
        return seqs.len();
    }
    if let Some(within) = aim.within {
        if !within.is_empty() {
            return seqs.len();
        }
    }
    if let Some(behind) = aim.behind {
        if !behind.is_empty() {
            return not_behind(&behind[0], segment, seqs);
        }
    }
    0
}

/// Whether a sequential dependent is looked for.
fn wants_dependent(aim: Aim<'_>, segment: u8, serial: u64) -> bool
    ensures { result ≡ wants (aim_of aim.entry) (numbered segment serial ∷ []) }
{
    match aim.enter(segment, &[], serial) {
        None => false,
        Some(below) => below.is_met(),
    }
}

/// A sequential dependent that was found.
fn dependent(alloc: Global, segment: u8, item: &SeqItem) -> Result<(Path, Bytes), AllocError>
    ensures { IfOk result (λ found. occurrence_of found ≡ dependent segment item.now) }
{
    let found = itself(alloc, &item.bytes)?;
    under(alloc, found, segment, &[], item.serial)
}

/// The first sequential dependent of a root that is looked for.
fn in_sequentials(
    alloc: Global,
    segments: &[SegDef],
    aim: Aim<'_>,
    seqs: &[SeqItem],
) -> Result<Option<(Path, Bytes)>, AllocError>
    requires { AreTypes segments.now }
    ensures { are_newest_first 0 (2 ^ 64) seqs.now ≡ true
        → IfOk result (λ found. option_map occurrence_of found ≡ find (looks_for (aim_of aim.entry))
        (sequentials segments.now seqs.now)) }
{
    let segment = match sequential_type(segments) {
        Some(segment) => segment,
        None => return Ok(None),
    };
    for at in newest_left(aim, segment, seqs)..seqs.len() {
        let item = &seqs[at];
        if wants_dependent(aim, segment, item.serial) {
            return Ok(Some(dependent(alloc, segment, item)?));
        }
    }
    Ok(None)
}

/// The first that is looked for of a root and all below it, from there on.
fn at_root(
    alloc: Global,
    segments: &[SegDef],
    aim: Aim<'_>,
    root: &Root,
) -> Result<Option<(Path, Bytes)>, AllocError>
    requires { AreTypes segments.now }
    ensures { is_root segments.now any_ends root.now ≡ true
        → IfOk result (λ found. option_map occurrence_of found
        ≡ find (looks_for (aim_of aim.entry)) (at_end root.now.bytes ∷ sequentials segments.now root.now.seqs ++
        rows_in_order (child_types segments.now 0) (map (map (node_order segments.now)) root.now.children))) }
{
    if aim.is_met() {
        return Ok(Some(itself(alloc, &root.bytes)?));
    }
    if let Some(found) = in_sequentials(alloc, segments, aim, root.seqs.as_slice())? {
        return Ok(Some(found));
    }
    in_rows(alloc, segments, aim, 0, root.children.as_slice())
}

/// The first that is looked for at or below a root.
fn in_root(
    alloc: Global,
    segments: &[SegDef],
    aim: Aim<'_>,
    root: &Root,
) -> Result<Option<(Path, Bytes)>, AllocError>
    requires { AreTypes segments.now }
    ensures { is_root segments.now any_ends root.now ≡ true
        → IfOk result (λ found. option_map occurrence_of found ≡ find (looks_for (aim_of aim.entry))
        (root_order segments.now root.now)) }
{
    let key = key_in(segments, 0, root.bytes.as_slice());
    match aim.enter(0, key, 0) {
        None => Ok(None),
        Some(below) => {
            let found = at_root(alloc, segments, below, root)?;
            all_under(alloc, found, 0, key)
        }
    }
}

/// The first that is looked for at or below one of these roots.
fn in_roots(
    alloc: Global,
    segments: &[SegDef],
    aim: Aim<'_>,
    roots: &[Root],
) -> Result<Option<(Path, Bytes)>, AllocError>
    requires { AreTypes segments.now }
    ensures { are_in_order segments.now roots.now ≡ true
        → IfOk result (λ found. option_map occurrence_of found ≡ find (looks_for (aim_of aim.entry))
        (sequence segments.now roots.now)) }
{
    let stretch = roots_in_reach(segments, aim, roots);
    for at in stretch.from..stretch.to {
        if let Some(found) = in_root(alloc, segments, aim, &roots[at])? {
            return Ok(Some(found));
        }
    }
    Ok(None)
}

/// The steps of a path, if there is one.
fn steps_of(path: Option<&Path>) -> Option<&[Step]>
    ensures { option_map steps_of (option_copied result) ≡ path_steps (option_copied path.entry) }
{
    match path {
        None => None,
        Some(path) => Some(path.steps.as_slice()),
    }
}

/// The first segment of an anchor in hierarchical order that stands behind `position`, below `within`, where these are
/// given, and that the arguments admit; with its path. None exactly where there is none.
///
/// It fails only for want of memory, and copies nothing but what it gives.
pub fn first_after(
    alloc: Global,
    roots: &List<Root>,
    segments: &List<SegDef>,
    position: Option<&Path>,
    within: Option<&Path>,
    ssas: &List<Ssa>,
) -> Result<Option<(Path, Bytes)>, AllocError>
    requires { AreTypes segments.now }
    ensures { are_in_order segments.now roots.now ≡ true
        → IfOk result (λ found. option_map occurrence_of found
        ≡ first_admitted segments.now 0 roots.now (option_map place_of (option_copied position.entry))
        (option_map place_of (option_copied within.entry)) ssas.now) }
{
    let segments = segments.as_slice();
    let ssas = ssas.as_slice();
    if !can_be_met(segments, ssas) {
        return Ok(None);
    }
    let aim = Aim {
        ssas,
        above: 0,
        behind: steps_of(position),
        within: steps_of(within),
    };
    in_roots(alloc, segments, aim, roots.as_slice())
}
