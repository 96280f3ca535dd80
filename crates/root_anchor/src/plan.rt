//! The places that a plan has for an anchor's new segments.
//!
//! Each new segment takes the element in which the segment of its type and its key stood, below the element that its
//! parent takes. So what doesn't change isn't written again. New segments and elements are both in hierarchical order,
//! and both are gone through once, from the last to the first: what is left to look at ends at `to`. What a plan
//! promises doesn't rest on that order: that no element is taken twice, and each by a segment of its type; and where the
//! segments have the types and keys of those that stand, that each takes the element that it had (`kept`).

ghost use Rattle.std.specs.Prelude.{◌≡◌, ◌<◌, ◌≤◌, ◌+◌, ◌++◌, ◌∷◌, [], ℕ, List, OnOk, IfOk, IsErr, Err, IfSome, IfNone, Some, length, map, true};
ghost use Rattle.fp_model.specs.Order.{child_types, key_in as key_of_type};
ghost use Rattle.fp_model.specs.WellFormed.{HavePlaces};
ghost use Rattle.root_anchor.specs.Stored.{are_storable, rows_have_form};
ghost use Rattle.root_anchor.specs.inside.Stored.{row_has_form};
ghost use Rattle.root_anchor.specs.inside.Rebuilding.{types_of, types_of_row, types_of_rows, types_of_roots, types_of_segment, TakesOut, Shares};
ghost use Rattle.root_anchor.specs.Keeping.{keys_of_rows, keys_of_roots, keys_of_segment};
ghost use Rattle.root_anchor.specs.inside.Keeping.{IsLastOf, PlansAll, kept, keys_of_row, marks_of};
ghost use Rattle.root_anchor.specs.declared.standing.Standing.{Standing as StandingOf};

use crate::building::types_below;
use crate::standing::Standing;
use anchor_elements::{AnchorFault, Pointer};
use fp_model::{Bytes, List, Node, Root, SegDef, key_of};
use std::alloc::Global;
use std::cmp::Ordering;
use std::collections::VecDeque;

/// The place that a segment of a type is to take: an element in which one of that type stands. None where it takes a
/// new one.
#[derive(Clone, Copy)]
pub(crate) struct Planned {
    pub(crate) segment: u8,
    pub(crate) at: Option<Pointer>,
}

/// The key of a segment of a type.
fn key_in<'a>(segments: &List<SegDef>, segment: u8, bytes: &'a [u8]) -> &'a [u8]
    ensures { result.now ≡ key_of_type segments.now segment bytes.now }
{
    match segments.get(usize::from(segment)) {
        Some(def) => key_of(def.fields.as_slice(), bytes),
        None => &[],
    }
}

/// Where a segment stood, if it did, and where what stood below it ends.
#[derive(Clone, Copy)]
struct Found {
    place: Option<usize>,
    end: usize,
}

/// The element of this type and this key, between two places. Elements of the type are looked at from the last to the
/// first, and none behind a lower key.
fn find_like(standing: &[Standing], from: usize, to: usize, segment: u8, key: &[u8]) -> Found
    ensures within { IfSome result.place (λ k. k < length standing.now) }
    ensures last { (k : ℕ) → IsLastOf standing.now segment key.now k → from ≤ k → length standing.now ≤ to
        → (result.place ≡ Some k) × (result.end ≡ length standing.now) }
{
    let mut end = to.min(standing.len());
    let mut left = end;
    while left > from {
        left -= 1;
        let element = &standing[left];
        if element.segment == segment {
            match element.key.as_slice().cmp(key) {
                Ordering::Less => return Found { place: None, end },
                Ordering::Equal => {
                    return Found {
                        place: Some(left),
                        end,
                    };
                }
                Ordering::Greater => end = left,
            }
        }
    }
    Found { place: None, end }
}

/// Where the elements below the one at a place begin. Below none there are none.
fn below(standing: &[Standing], place: Option<usize>) -> usize
    requires { IfSome place (λ k. k < length standing.now) }
    ensures { (k : ℕ) → place ≡ Some k → result ≡ k + 1 }
{
    match place {
        Some(place) => place + 1,
        None => standing.len(),
    }
}

/// Takes the element out that stands at a place, where it has this type.
fn take_out(standing: &mut Vec<Standing>, place: Option<usize>, segment: u8) -> Option<Pointer>
    ensures taken { IfSome result (TakesOut standing.old.items standing.new.items segment) }
    ensures none { IfNone result (standing.new.items ≡ standing.old.items) }
    ensures last { (before : List StandingOf) (one : StandingOf) → standing.old.items ≡ before ++ one ∷ []
        → place ≡ Some (length before) → one.segment ≡ segment
        → (result ≡ Some one.at) × (standing.new.items ≡ before) }
{
    let place = place?;
    if place >= standing.len() || standing[place].segment != segment {
        return None;
    }
    let taken = standing.remove(place);
    Some(taken.at)
}

/// Plans the place of a segment itself, in front of what is planned: that of the element at `place`, if there is one.
fn plan_itself(
    plan: &mut VecDeque<Planned>,
    standing: &mut Vec<Standing>,
    place: Option<usize>,
    segment: u8,
) -> Result<(), AnchorFault>
    ensures types { OnOk result (types_of plan.new.items ≡ segment ∷ types_of plan.old.items) }
    ensures shares { (all : List StandingOf) → Shares all plan.old.items standing.old.items
        → OnOk result (Shares all plan.new.items standing.new.items) }
    ensures last { (before : List StandingOf) (one : StandingOf) → standing.old.items ≡ before ++ one ∷ []
        → place ≡ Some (length before) → one.segment ≡ segment
        → OnOk result ((standing.new.items ≡ before) × (plan.new.items ≡ kept (one ∷ []) ++ plan.old.items)) }
    ensures memory { IsErr result → result ≡ Err AnchorFault.Memory }
{
    let at = take_out(standing, place, segment);
    match plan.push_front(Planned { segment, at }) {
        Ok(()) => Ok(()),
        Err(_) => Err(AnchorFault::Memory),
    }
}

/// Plans the places of a segment and of all below it, in front of what is planned.
#[cycle(plans)]
fn plan_segment(
    alloc: Global,
    segments: &List<SegDef>,
    plan: &mut VecDeque<Planned>,
    standing: &mut Vec<Standing>,
    from: usize,
    to: &mut usize,
    segment: u8,
    bytes: &Bytes,
    children: &List<List<Node>>,
) -> Result<(), AnchorFault>
    requires few { length segments.now ≤ 15 }
    requires places { HavePlaces 0 segments.now }
    requires rows { rows_have_form segments.now (child_types segments.now segment) children.now ≡ true }
    ensures types { OnOk result (types_of plan.new.items ≡ types_of_segment segments.now segment children.now ++
        types_of plan.old.items) }
    ensures shares { (all : List StandingOf) → Shares all plan.old.items standing.old.items
        → OnOk result (Shares all plan.new.items standing.new.items) }
    ensures kept { (before part : List StandingOf) → standing.old.items ≡ before ++ part
        → to.old ≡ length standing.old.items → from ≤ length before
        → marks_of part ≡ keys_of_segment segments.now segment bytes.now children.now
        → OnOk result (PlansAll before part standing.new.items to.new plan.old.items plan.new.items) }
    ensures memory { IsErr result → result ≡ Err AnchorFault.Memory }
{
    let key = key_in(segments, segment, bytes.as_slice());
    let found = find_like(standing.as_slice(), from, *to, segment, key);
    let first = below(standing.as_slice(), found.place);
    let mut end = found.end;
    plan_rows(
        alloc, segments, plan, standing, first, &mut end, segment, children,
    )?;
    if let Some(place) = found.place {
        *to = place;
    }
    plan_itself(plan, standing, found.place, segment)
}

/// Plans the places of a row of segments of a type, and of all below them, from the last to the first.
#[cycle(plans)]
fn plan_row(
    alloc: Global,
    segments: &List<SegDef>,
    plan: &mut VecDeque<Planned>,
    standing: &mut Vec<Standing>,
    from: usize,
    to: &mut usize,
    segment: u8,
    row: &List<Node>,
) -> Result<(), AnchorFault>
    requires few { length segments.now ≤ 15 }
    requires places { HavePlaces 0 segments.now }
    requires row { row_has_form segments.now segment row.now ≡ true }
    requires defined { segment < length segments.now }
    ensures types { OnOk result (types_of plan.new.items ≡ types_of_row segments.now segment row.now ++ types_of
        plan.old.items) }
    ensures shares { (all : List StandingOf) → Shares all plan.old.items standing.old.items
        → OnOk result (Shares all plan.new.items standing.new.items) }
    ensures kept { (before part : List StandingOf) → standing.old.items ≡ before ++ part
        → to.old ≡ length standing.old.items → from ≤ length before
        → marks_of part ≡ keys_of_row segments.now segment row.now
        → OnOk result (PlansAll before part standing.new.items to.new plan.old.items plan.new.items) }
    ensures memory { IsErr result → result ≡ Err AnchorFault.Memory }
{
    let mut left = row.len();
    while left > 0 {
        left -= 1;
        let node = &row.as_slice()[left];
        plan_segment(
            alloc,
            segments,
            plan,
            standing,
            from,
            to,
            segment,
            &node.bytes,
            &node.children,
        )?;
    }
    Ok(())
}

/// Plans the places of a row of each direct child type of a type, from the last type to the first.
#[cycle(plans)]
fn plan_rows(
    alloc: Global,
    segments: &List<SegDef>,
    plan: &mut VecDeque<Planned>,
    standing: &mut Vec<Standing>,
    from: usize,
    to: &mut usize,
    segment: u8,
    rows: &List<List<Node>>,
) -> Result<(), AnchorFault>
    requires few { length segments.now ≤ 15 }
    requires places { HavePlaces 0 segments.now }
    requires rows { rows_have_form segments.now (child_types segments.now segment) rows.now ≡ true }
    ensures types { OnOk result (types_of plan.new.items ≡ types_of_rows segments.now (child_types segments.now segment)
        rows.now ++ types_of plan.old.items) }
    ensures shares { (all : List StandingOf) → Shares all plan.old.items standing.old.items
        → OnOk result (Shares all plan.new.items standing.new.items) }
    ensures kept { (before part : List StandingOf) → standing.old.items ≡ before ++ part
        → to.old ≡ length standing.old.items → from ≤ length before
        → marks_of part ≡ keys_of_rows segments.now (child_types segments.now segment) rows.now
        → OnOk result (PlansAll before part standing.new.items to.new plan.old.items plan.new.items) }
    ensures memory { IsErr result → result ≡ Err AnchorFault.Memory }
{
    let types = types_below(alloc, segments.as_slice(), segment)?;
    let mut left = rows.len();
    while left > 0 {
        left -= 1;
        let row = &rows.as_slice()[left];
        plan_row(alloc, segments, plan, standing, from, to, types[left], row)?;
    }
    Ok(())
}

/// The places of an anchor's new roots and of all below them, in hierarchical order. What none of them takes is left in
/// `standing`.
pub(crate) fn plan_roots(
    alloc: Global,
    segments: &List<SegDef>,
    standing: &mut Vec<Standing>,
    roots: &List<Root>,
) -> Result<VecDeque<Planned>, AnchorFault>
    requires few { length segments.now ≤ 15 }
    requires places { HavePlaces 0 segments.now }
    requires roots { are_storable segments.now roots.now ≡ true }
    ensures types { IfOk result (λ plan. types_of plan.items ≡ types_of_roots segments.now roots.now) }
    ensures shares { IfOk result (λ plan. Shares standing.old.items plan.items standing.new.items) }
    ensures kept { marks_of standing.old.items ≡ keys_of_roots segments.now roots.now
        → IfOk result (λ plan. plan.items ≡ kept standing.old.items) }
    ensures memory { IsErr result → result ≡ Err AnchorFault.Memory }
{
    let mut plan = VecDeque::new(alloc);
    let mut to = standing.len();
    let mut left = roots.len();
    while left > 0 {
        left -= 1;
        let root = &roots.as_slice()[left];
        plan_segment(
            alloc,
            segments,
            &mut plan,
            standing,
            0,
            &mut to,
            0,
            &root.bytes,
            &root.children,
        )?;
    }
    Ok(plan)
}
