//! Segment search arguments: what gets and inserts may name.
ghost use Rattle.dedb_calls.specs.inside.Arguments.{named_step};
ghost use Rattle.dedb_calls.specs.inside.Calls.{SaysNot};
ghost use Rattle.dli_tree.specs.Paths.{step_of, steps_of};
ghost use Rattle.fp_model.specs.DedbCalls.{are_descending, are_get_arguments, are_insert_arguments, insert_path, is_qualified, not_found, only_last_unqualified, root_named, type_of_last};
ghost use Rattle.fp_model.specs.Order.{is_ancestor, is_sequential, line_within};
ghost use Rattle.fp_model.specs.Texts.{same_text};
ghost use Rattle.fp_model.specs.declared.definitions.DedbDef.{DedbDef as DefOf};
ghost use Rattle.std.specs.List.{list_all};
ghost use Rattle.std.specs.Option.{option_copied};
ghost use Rattle.std.specs.Prelude.{◌≡◌, ◌∷◌, ◌&&◌, IfOk, map, not, ℕ};

use dli_tree::{Step, is_on_line, key_in, parent_of};
use fp_model::{Bytes, DedbDef, Get, SegDef, Ssa};
use std::alloc::{AllocError, Global};

/// Whether a type is the sequential one.
pub(crate) fn is_sequential(segments: &[SegDef], segment: u8) -> bool
    ensures { result ≡ is_sequential segments.now segment }
{
    let at = usize::from(segment);
    at < segments.len() && segments[at].sequential
}

/// Whether a type stands above another.
fn is_ancestor(segments: &[SegDef], above: u8, below: u8) -> bool
    ensures { result ≡ is_ancestor segments.now above below }
{
    above != below && is_on_line(segments, above, below)
}

/// Whether each type that is named stands below the one before, from this argument on.
fn descend_from(def: &DedbDef, first: &Ssa, rest: &[Ssa]) -> bool
    ensures { (dedb : ℕ) → result ≡ are_descending def.now dedb (first.now ∷ rest.now) }
{
    match rest {
        [] => true,
        [next, more @ ..] => {
            is_ancestor(def.segments.as_slice(), first.segment, next.segment)
                && descend_from(def, next, more)
        }
    }
}

/// Whether each type that is named stands below the one before.
fn are_descending(def: &DedbDef, ssas: &[Ssa]) -> bool
    ensures { (dedb : ℕ) → result ≡ are_descending def.now dedb ssas.now }
{
    match ssas {
        [] => true,
        [first, rest @ ..] => descend_from(def, first, rest),
    }
}

/// Whether an argument gives the sequential type a key.
fn is_keyed_sequential(segments: &[SegDef], ssa: &Ssa) -> bool
    ensures { result ≡ (is_qualified ssa.now && is_sequential segments.now ssa.now.segment) }
{
    ssa.key.is_some() && is_sequential(segments, ssa.segment)
}

/// Whether none gives the sequential type a key.
fn give_no_sequential_key(segments: &[SegDef], ssas: &[Ssa]) -> bool
    ensures { result ≡ list_all (λ a. not (is_qualified a && is_sequential segments.now a.segment)) ssas.now }
{
    for ssa in ssas {
        if is_keyed_sequential(segments, ssa) {
            return false;
        }
    }
    true
}

/// Whether these are a get's arguments: types on one line downwards, each at most once, and no key for the sequential
/// type.
pub(crate) fn are_get_arguments(def: &DedbDef, ssas: &[Ssa]) -> bool
    ensures { (dedb : ℕ) → result ≡ are_get_arguments def.now dedb ssas.now }
{
    are_descending(def, ssas) && give_no_sequential_key(def.segments.as_slice(), ssas)
}

/// The key of the root, where the arguments give it.
pub(crate) fn root_named(ssas: &[Ssa]) -> Option<&[u8]>
    ensures { (def : DefOf) (dedb : ℕ) → option_copied result ≡ root_named def dedb ssas.now }
{
    match ssas {
        [first, ..] if first.segment == 0 => match &first.key {
            Some(key) => Some(key.as_slice()),
            None => None,
        },
        _ => None,
    }
}

/// Whether none gives a key.
fn give_no_key(ssas: &[Ssa]) -> bool
    ensures { result ≡ list_all (λ a. not (is_qualified a)) ssas.now }
{
    for ssa in ssas {
        if ssa.key.is_some() {
            return false;
        }
    }
    true
}

/// The status of a get that finds nothing.
pub(crate) fn not_found(get: Get, ssas: &[Ssa]) -> [u8; 2]
    ensures status { (def : DefOf) (dedb : ℕ) → result ≡ not_found def dedb get ssas.now }
    ensures says { SaysNot result }
{
    match get {
        Get::Next if give_no_key(ssas) => *b"GB",
        _ => *b"GE",
    }
}

/// Whether all give keys but the last, which gives none, from this argument on.
fn only_last_from(first: &Ssa, rest: &[Ssa]) -> bool
    ensures { (def : DefOf) (dedb : ℕ) → result ≡ only_last_unqualified def dedb (first.now ∷ rest.now) }
{
    match rest {
        [] => first.key.is_none(),
        [next, more @ ..] => first.key.is_some() && only_last_from(next, more),
    }
}

/// Whether all give keys but the last, which gives none.
fn only_last_is_unqualified(ssas: &[Ssa]) -> bool
    ensures { (def : DefOf) (dedb : ℕ) → result ≡ only_last_unqualified def dedb ssas.now }
{
    match ssas {
        [] => false,
        [first, rest @ ..] => only_last_from(first, rest),
    }
}

/// The type that is named last, from this argument on.
fn type_from(first: &Ssa, rest: &[Ssa]) -> u8
    ensures { (def : DefOf) (dedb : ℕ) → result ≡ type_of_last def dedb (first.now ∷ rest.now) }
{
    match rest {
        [] => first.segment,
        [next, more @ ..] => type_from(next, more),
    }
}

/// The type that is named last.
pub(crate) fn type_of_last(ssas: &[Ssa]) -> u8
    ensures { (def : DefOf) (dedb : ℕ) → result ≡ type_of_last def dedb ssas.now }
{
    match ssas {
        [] => 0,
        [first, rest @ ..] => type_from(first, rest),
    }
}

/// Whether the arguments name the types on the line down to a type, of at most so many levels above it.
fn name_line(segments: &[SegDef], ssas: &[Ssa], segment: u8, levels: usize) -> bool
    ensures { result ≡ same_text (map (λ a. a.segment) ssas.now) (line_within levels segments.now segment) }
{
    let [front @ .., last] = ssas else {
        return false;
    };
    if last.segment != segment {
        return false;
    }
    if levels == 0 {
        return front.is_empty();
    }
    match parent_of(segments, segment) {
        Some(parent) => name_line(segments, front, parent, levels - 1),
        None => front.is_empty(),
    }
}

/// Whether these are the arguments of an insert: each parent by its key, from the root down, and last the new type.
pub(crate) fn are_insert_arguments(def: &DedbDef, ssas: &[Ssa]) -> bool
    ensures { (dedb : ℕ) → result ≡ are_insert_arguments def.now dedb ssas.now }
{
    let segments = def.segments.as_slice();
    only_last_is_unqualified(ssas) && name_line(segments, ssas, type_of_last(ssas), segments.len())
}

/// The step that an argument names; an unqualified one has the key that the new segment begins with.
fn step_of(alloc: Global, segments: &[SegDef], ssa: &Ssa, bytes: &[u8]) -> Result<Step, AllocError>
    ensures { IfOk result (λ step. step_of step ≡ named_step segments.now bytes.now ssa.now) }
{
    let key = match &ssa.key {
        Some(key) => key.copy()?,
        None => Bytes::from_slice(alloc, key_in(segments, ssa.segment, bytes))?,
    };
    Ok(Step {
        segment: ssa.segment,
        key,
        serial: 0,
    })
}

/// The path of a new segment with these arguments. It fails only for want of memory.
pub(crate) fn insert_path(
    alloc: Global,
    def: &DedbDef,
    ssas: &[Ssa],
    bytes: &[u8],
) -> Result<Vec<Step>, AllocError>
    ensures { IfOk result (λ steps. (dedb : ℕ) → steps_of steps.items ≡ insert_path def.now dedb ssas.now bytes.now) }
{
    let mut steps = Vec::new(alloc);
    for ssa in ssas {
        steps.push(step_of(alloc, def.segments.as_slice(), ssa, bytes)?)?;
    }
    Ok(steps)
}
