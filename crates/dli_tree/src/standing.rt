//! Whether a path leads to a segment.
ghost use Rattle.dli_tree.specs.Descents.{leads_below, leads_to, twin_of};
ghost use Rattle.dli_tree.specs.InOrder.{AreTypes, are_in_order};
ghost use Rattle.dli_tree.specs.Paths.{step_of, steps_of};
ghost use Rattle.fp_model.specs.Order.{child_types};
ghost use Rattle.fp_model.specs.Shape.{are_rows, seen_as};
ghost use Rattle.fp_model.specs.declared.database.Node.{out-Node};
ghost use Rattle.std.specs.Option.{option_copied};
ghost use Rattle.std.specs.Prelude.{◌≡◌, IfSome, map, true};

use crate::path::Step;
use crate::place::{Place, root_place, twin_place};
use crate::types::row_of;
use fp_model::{List, Node, Root, SegDef};

/// The child with the type and the key of a step, among the rows of a segment of a type.
fn find_twin<'a>(
    segments: &[SegDef],
    parent: u8,
    step: &Step,
    rows: &'a [List<Node>],
) -> Option<&'a Node>
    requires { AreTypes segments.now }
    ensures found { are_rows segments.now (child_types segments.now parent) (map (map (seen_as segments.now)) rows.now)
        ≡ true
        → option_copied result ≡ twin_of segments.now parent (step_of step.now) rows.now }
    ensures shape { are_rows segments.now (child_types segments.now parent) (map (map (seen_as segments.now)) rows.now)
        ≡ true
        → IfSome result (λ n. are_rows segments.now (child_types segments.now step.now.segment)
        (map (map (seen_as segments.now)) (out-Node n.now).children) ≡ true) }
{
    let at = match row_of(segments, parent, step.segment) {
        Some(at) => at,
        None => return None,
    };
    if at >= rows.len() {
        return None;
    }
    let twins = rows[at].as_slice();
    match twin_place(segments, step.segment, twins, step.key.as_slice()) {
        Place::Stands(place) => Some(&twins[place]),
        Place::Lacks(_) => None,
    }
}

/// Whether a path leads to a segment from these rows of a segment of a type on.
fn leads_below(segments: &[SegDef], parent: u8, steps: &[Step], rows: &[List<Node>]) -> bool
    requires { AreTypes segments.now }
    ensures { are_rows segments.now (child_types segments.now parent) (map (map (seen_as segments.now)) rows.now) ≡ true
        → result ≡ leads_below segments.now parent (steps_of steps.now) rows.now }
{
    if steps.is_empty() {
        return true;
    }
    let step = &steps[0];
    match find_twin(segments, parent, step, rows) {
        Some(twin) => leads_below(
            segments,
            step.segment,
            &steps[1..],
            twin.children.as_slice(),
        ),
        None => false,
    }
}

/// Whether a path leads to a segment of an anchor.
pub fn leads_to(segments: &[SegDef], roots: &[Root], steps: &[Step]) -> bool
    requires { AreTypes segments.now }
    ensures { are_in_order segments.now roots.now ≡ true
        → result ≡ leads_to segments.now roots.now (steps_of steps.now) }
{
    if steps.is_empty() {
        return false;
    }
    let step = &steps[0];
    match root_place(segments, roots, step.key.as_slice()) {
        Place::Stands(at) => {
            let root = &roots[at];
            leads_below(segments, 0, &steps[1..], root.children.as_slice())
        }
        Place::Lacks(_) => false,
    }
}
