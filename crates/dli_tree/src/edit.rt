//! Edits at the end of a path: a segment that is inserted, replaced, or deleted with all below it.
ghost use Rattle.dli_tree.specs.Changes.{edit_of, is_insert};
ghost use Rattle.dli_tree.specs.inside.Changes.{twins_edited};
ghost use Rattle.dli_tree.specs.InOrder.{AreTypes, are_in_order};
ghost use Rattle.dli_tree.specs.Paths.{step_of, steps_of};
ghost use Rattle.fp_model.specs.Order.{below_edited, bytes_at, child_types, edited, new_node, new_root, node_key, nodes_edited, root_key, roots_edited, Inserts, Replaces, Deletes};
ghost use Rattle.fp_model.specs.Shape.{are_rows, is_row, seen_as};
ghost use Rattle.fp_model.specs.State.{ascend, put_by_key};
ghost use Rattle.std.specs.Prelude.{◌≡◌, ◌∷◌, [], IfOk, IsErr, OnErr, OnOk, length, map, replicate, true};

use crate::path::{Path, Step};
use crate::place::{Place, root_place, twin_place};
use crate::types::{is_direct_child, key_in, row_of};
use fp_model::{Bytes, List, Node, Root, SegDef};
use std::alloc::{AllocError, Global};

/// What an edit does to the segment at the end of a path.
#[derive(Drop)]
pub enum Change {
    /// With what a new segment's rows are made.
    Insert(Global, Bytes),
    Replace(Bytes),
    Delete,
}

/// No children, in a row for each direct child type.
fn no_children(
    alloc: Global,
    segments: &[SegDef],
    segment: u8,
) -> Result<List<List<Node>>, AllocError>
    ensures { IfOk result (λ rows. rows ≡ replicate (length (child_types segments.now segment)) []) }
{
    let mut rows = List::new(alloc);
    for child in 0..segments.len() {
        if !is_direct_child(&segments[child], segment) {
            continue;
        }
        rows.push(List::new(alloc))?;
    }
    Ok(rows)
}

/// Puts a segment among the twins of its type, by its key.
fn insert_twin(
    alloc: Global,
    segments: &[SegDef],
    segment: u8,
    bytes: Bytes,
    twins: &mut List<Node>,
) -> Result<(), AllocError>
    ensures ok { ascend (map (node_key segments.now segment) twins.old) ≡ true
        → OnOk result (twins.new ≡ put_by_key (node_key segments.now segment) (new_node segments.now segment bytes)
        twins.old) }
    ensures err { OnErr result (twins.new ≡ twins.old) }
{
    let children = no_children(alloc, segments, segment)?;
    let key = key_in(segments, segment, bytes.as_slice());
    match twin_place(segments, segment, twins.as_slice(), key) {
        Place::Stands(at) => twins.insert(at + 1, Node { bytes, children }),
        Place::Lacks(at) => twins.insert(at, Node { bytes, children }),
    }
}

/// Gives the twin of a key other bytes, if it stands.
fn replace_twin(segments: &[SegDef], step: &Step, bytes: Bytes, twins: &mut List<Node>)
    ensures { ascend (map (node_key segments.now step.now.segment) twins.old) ≡ true
        → twins.new ≡ nodes_edited segments.now (step_of step.now) (Replaces bytes) twins.old }
{
    match twin_place(
        segments,
        step.segment,
        twins.as_slice(),
        step.key.as_slice(),
    ) {
        Place::Stands(at) => twins.item_mut(at).bytes = bytes,
        Place::Lacks(_) => {}
    }
}

/// Takes the twin of a key away with all below it, if it stands.
fn delete_twin(segments: &[SegDef], step: &Step, twins: &mut List<Node>)
    ensures { ascend (map (node_key segments.now step.now.segment) twins.old) ≡ true
        → twins.new ≡ nodes_edited segments.now (step_of step.now) Deletes twins.old }
{
    match twin_place(
        segments,
        step.segment,
        twins.as_slice(),
        step.key.as_slice(),
    ) {
        Place::Stands(at) => {
            let _ = twins.remove(at);
        }
        Place::Lacks(_) => {}
    }
}

/// Edits a segment among the twins of its type.
fn edit_twins(
    segments: &[SegDef],
    step: &Step,
    change: Change,
    twins: &mut List<Node>,
) -> Result<(), AllocError>
    ensures ok { ascend (map (node_key segments.now step.now.segment) twins.old) ≡ true
        → OnOk result (twins.new ≡ nodes_edited segments.now (step_of step.now) (edit_of change) twins.old) }
    ensures err { OnErr result (twins.new ≡ twins.old) }
    ensures memory { IsErr result → is_insert change ≡ true }
{
    match change {
        Change::Insert(alloc, bytes) => insert_twin(alloc, segments, step.segment, bytes, twins),
        Change::Replace(bytes) => {
            replace_twin(segments, step, bytes, twins);
            Ok(())
        }
        Change::Delete => {
            delete_twin(segments, step, twins);
            Ok(())
        }
    }
}

/// Edits at the end of the rest of a path, among the twins of its first step's type.
#[cycle(edits)]
fn edit_row(
    segments: &[SegDef],
    step: &Step,
    rest: &[Step],
    change: Change,
    twins: &mut List<Node>,
) -> Result<(), AllocError>
    requires { AreTypes segments.now }
    ensures ok { is_row segments.now step.now.segment (map (seen_as segments.now) twins.old) ≡ true
        → OnOk result (twins.new ≡ twins_edited segments.now (edit_of change) (step_of step.now) (steps_of rest.now)
        twins.old) }
    ensures err { OnErr result (twins.new ≡ twins.old) }
    ensures memory { IsErr result → is_insert change ≡ true }
{
    if rest.is_empty() {
        return edit_twins(segments, step, change, twins);
    }
    match twin_place(
        segments,
        step.segment,
        twins.as_slice(),
        step.key.as_slice(),
    ) {
        Place::Stands(at) => edit_rows(
            segments,
            step.segment,
            rest,
            change,
            &mut twins.item_mut(at).children,
        ),
        Place::Lacks(_) => Ok(()),
    }
}

/// Edits at the end of a path below a segment of a type, in the rows of its children.
#[cycle(edits)]
fn edit_rows(
    segments: &[SegDef],
    parent: u8,
    steps: &[Step],
    change: Change,
    rows: &mut List<List<Node>>,
) -> Result<(), AllocError>
    requires { AreTypes segments.now }
    ensures ok { are_rows segments.now (child_types segments.now parent) (map (map (seen_as segments.now)) rows.old) ≡
        true
        → OnOk result (rows.new ≡ below_edited segments.now (edit_of change) parent (steps_of steps.now) rows.old) }
    ensures err { OnErr result (rows.new ≡ rows.old) }
    ensures memory { IsErr result → is_insert change ≡ true }
{
    if steps.is_empty() {
        return Ok(());
    }
    let step = &steps[0];
    match row_of(segments, parent, step.segment) {
        Some(at) => {
            if at >= rows.len() {
                return Ok(());
            }
            edit_row(segments, step, &steps[1..], change, rows.item_mut(at))
        }
        None => Ok(()),
    }
}

/// Puts a root among the others, by its key.
fn insert_root(
    alloc: Global,
    segments: &[SegDef],
    bytes: Bytes,
    roots: &mut List<Root>,
) -> Result<(), AllocError>
    ensures ok { ascend (map (root_key segments.now) roots.old) ≡ true
        → OnOk result (roots.new ≡ put_by_key (root_key segments.now) (new_root segments.now bytes) roots.old) }
    ensures err { OnErr result (roots.new ≡ roots.old) }
{
    let children = no_children(alloc, segments, 0)?;
    let seqs = List::new(alloc);
    let key = key_in(segments, 0, bytes.as_slice());
    match root_place(segments, roots.as_slice(), key) {
        Place::Stands(at) => roots.insert(
            at + 1,
            Root {
                bytes,
                children,
                seqs,
            },
        ),
        Place::Lacks(at) => roots.insert(
            at,
            Root {
                bytes,
                children,
                seqs,
            },
        ),
    }
}

/// Gives the root of a key other bytes, if it stands.
fn replace_root(segments: &[SegDef], step: &Step, bytes: Bytes, roots: &mut List<Root>)
    ensures { ascend (map (root_key segments.now) roots.old) ≡ true
        → roots.new ≡ roots_edited segments.now (step_of step.now) (Replaces bytes) roots.old }
{
    match root_place(segments, roots.as_slice(), step.key.as_slice()) {
        Place::Stands(at) => roots.item_mut(at).bytes = bytes,
        Place::Lacks(_) => {}
    }
}

/// Takes the root of a key away with all below it, if it stands.
fn delete_root(segments: &[SegDef], step: &Step, roots: &mut List<Root>)
    ensures { ascend (map (root_key segments.now) roots.old) ≡ true
        → roots.new ≡ roots_edited segments.now (step_of step.now) Deletes roots.old }
{
    match root_place(segments, roots.as_slice(), step.key.as_slice()) {
        Place::Stands(at) => {
            let _ = roots.remove(at);
        }
        Place::Lacks(_) => {}
    }
}

/// Edits a root among the others.
fn edit_root(
    segments: &[SegDef],
    step: &Step,
    change: Change,
    roots: &mut List<Root>,
) -> Result<(), AllocError>
    ensures ok { ascend (map (root_key segments.now) roots.old) ≡ true
        → OnOk result (roots.new ≡ roots_edited segments.now (step_of step.now) (edit_of change) roots.old) }
    ensures err { OnErr result (roots.new ≡ roots.old) }
    ensures memory { IsErr result → is_insert change ≡ true }
{
    match change {
        Change::Insert(alloc, bytes) => insert_root(alloc, segments, bytes, roots),
        Change::Replace(bytes) => {
            replace_root(segments, step, bytes, roots);
            Ok(())
        }
        Change::Delete => {
            delete_root(segments, step, roots);
            Ok(())
        }
    }
}

/// Edits at the end of the rest of a path, at or below the root of its first step.
fn edit_below(
    segments: &[SegDef],
    step: &Step,
    rest: &[Step],
    change: Change,
    roots: &mut List<Root>,
) -> Result<(), AllocError>
    requires { AreTypes segments.now }
    ensures ok { are_in_order segments.now roots.old ≡ true
        → OnOk result (roots.new ≡ edited segments.now roots.old (step_of step.now ∷ steps_of rest.now)
        (edit_of change)) }
    ensures err { OnErr result (roots.new ≡ roots.old) }
    ensures memory { IsErr result → is_insert change ≡ true }
{
    if rest.is_empty() {
        return edit_root(segments, step, change, roots);
    }
    match root_place(segments, roots.as_slice(), step.key.as_slice()) {
        Place::Stands(at) => edit_rows(segments, 0, rest, change, &mut roots.item_mut(at).children),
        Place::Lacks(_) => Ok(()),
    }
}

/// Edits at the end of a path.
pub fn edit_at(
    segments: &[SegDef],
    steps: &[Step],
    change: Change,
    roots: &mut List<Root>,
) -> Result<(), AllocError>
    requires { AreTypes segments.now }
    ensures ok { are_in_order segments.now roots.old ≡ true
        → OnOk result (roots.new ≡ edited segments.now roots.old (steps_of steps.now) (edit_of change)) }
    ensures err { OnErr result (roots.new ≡ roots.old) }
    ensures memory { IsErr result → is_insert change ≡ true }
{
    if steps.is_empty() {
        return Ok(());
    }
    let step = &steps[0];
    edit_below(segments, step, &steps[1..], change, roots)
}
