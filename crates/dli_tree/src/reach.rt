//! Which of the roots or twins of a type a search has to enter.
ghost use Rattle.dli_tree.specs.inside.Aims.{Search, aim_of};
ghost use Rattle.dli_tree.specs.Paths.{steps_of};
ghost use Rattle.dli_tree.specs.inside.Reaches.{Bounds, Leaves};
ghost use Rattle.fp_model.specs.Order.{node_key, root_key};
ghost use Rattle.fp_model.specs.State.{ascend};
ghost use Rattle.std.specs.Prelude.{◌≡◌, ◌≤◌, IfSome, length, map, option_map, Some, true};

use crate::aim::Aim;
use crate::path::Step;
use crate::place::{roots_below, twins_below};
use fp_model::{Node, Root, SegDef, Ssa};

/// Which keys of a type a search has to enter, at most.
#[derive(Clone, Copy)]
pub(crate) enum Reach<'a> {
    Nothing,
    /// This key alone.
    One(&'a [u8]),
    /// No key below this one.
    From(&'a [u8]),
    All,
}

/// Those from a place on, up to another.
#[derive(Clone, Copy)]
pub(crate) struct Stretch {
    pub(crate) from: usize,
    pub(crate) to: usize,
}

/// The keys of a type that the arguments leave, where they want one.
fn ssas_reach<'a>(ssas: &'a [Ssa], segment: u8) -> Option<Reach<'a>>
    ensures { (aim : Search) → aim.ssas ≡ ssas.now → IfSome result (Bounds aim segment) }
{
    for ssa in ssas {
        if segment == ssa.segment {
            if let Some(key) = &ssa.key {
                return Some(Reach::One(key.as_slice()));
            }
        }
    }
    None
}

/// The keys of a type that a position leaves, where it leaves some and not others.
fn behind_reach<'a>(behind: &'a [Step], segment: u8) -> Option<Reach<'a>>
    ensures { (aim : Search) → aim.behind ≡ Some (steps_of behind.now) → IfSome result (Bounds aim segment) }
{
    match behind {
        [] => None,
        [first, ..] => {
            if first.segment == segment {
                Some(Reach::From(first.key.as_slice()))
            } else if first.segment < segment {
                None
            } else {
                Some(Reach::Nothing)
            }
        }
    }
}

/// The keys of a type that a parent leaves, where it leaves some and not others.
fn within_reach<'a>(within: &'a [Step], segment: u8) -> Option<Reach<'a>>
    ensures { (aim : Search) → aim.within ≡ Some (steps_of within.now) → IfSome result (Bounds aim segment) }
{
    match within {
        [] => None,
        [first, ..] => {
            if first.segment == segment {
                Some(Reach::One(first.key.as_slice()))
            } else {
                Some(Reach::Nothing)
            }
        }
    }
}

/// The keys of a type that a search has to enter, at most.
pub(crate) fn keys_in_reach<'a>(aim: Aim<'a>, segment: u8) -> Reach<'a>
    ensures { Bounds (aim_of aim.entry) segment result }
{
    if let Some(within) = aim.within {
        if let Some(keys) = within_reach(within, segment) {
            return keys;
        }
    }
    if let Some(keys) = ssas_reach(aim.ssas, segment) {
        return keys;
    }
    if let Some(behind) = aim.behind {
        if let Some(keys) = behind_reach(behind, segment) {
            return keys;
        }
    }
    Reach::All
}

/// The roots that a search has to enter, at most.
pub(crate) fn roots_in_reach(segments: &[SegDef], aim: Aim<'_>, roots: &[Root]) -> Stretch
    ensures within { result.to ≤ length roots.now }
    ensures order { result.from ≤ result.to }
    ensures leaves { ascend (map (root_key segments.now) roots.now) ≡ true
        → Leaves (aim_of aim.entry) 0 (root_key segments.now) roots.now result }
{
    match keys_in_reach(aim, 0) {
        Reach::Nothing => Stretch { from: 0, to: 0 },
        Reach::One(key) => {
            let from = roots_below(segments, roots, key);
            if from < roots.len() {
                Stretch { from, to: from + 1 }
            } else {
                Stretch { from, to: from }
            }
        }
        Reach::From(key) => Stretch {
            from: roots_below(segments, roots, key),
            to: roots.len(),
        },
        Reach::All => Stretch {
            from: 0,
            to: roots.len(),
        },
    }
}

/// The twins of a type that a search has to enter, at most.
pub(crate) fn twins_in_reach(
    segments: &[SegDef],
    aim: Aim<'_>,
    segment: u8,
    twins: &[Node],
) -> Stretch
    ensures within { result.to ≤ length twins.now }
    ensures order { result.from ≤ result.to }
    ensures leaves { ascend (map (node_key segments.now segment) twins.now) ≡ true
        → Leaves (aim_of aim.entry) segment (node_key segments.now segment) twins.now result }
{
    match keys_in_reach(aim, segment) {
        Reach::Nothing => Stretch { from: 0, to: 0 },
        Reach::One(key) => {
            let from = twins_below(segments, segment, twins, key);
            if from < twins.len() {
                Stretch { from, to: from + 1 }
            } else {
                Stretch { from, to: from }
            }
        }
        Reach::From(key) => Stretch {
            from: twins_below(segments, segment, twins, key),
            to: twins.len(),
        },
        Reach::All => Stretch {
            from: 0,
            to: twins.len(),
        },
    }
}
