//! What a search looks for, from a segment on.
ghost use Rattle.dli_tree.specs.inside.Aims.{agrees, aim_of, can_be_met, can_stand, ends_here, entered, inside_step, leads_on, past_step, wants};
ghost use Rattle.dli_tree.specs.Paths.{step_of, steps_of};
ghost use Rattle.fp_model.specs.Order.{last_type, same_step, step_precedes};
ghost use Rattle.std.specs.Option.{option_copied, option_map};
ghost use Rattle.std.specs.Prelude.{◌≡◌, [], true};

use crate::path::Step;
use crate::types::is_on_line;
use fp_model::{SegDef, Ssa};

/// What a search looks for below a segment.
#[derive(Clone, Copy)]
pub(crate) struct Aim<'a> {
    pub(crate) ssas: &'a [Ssa],
    /// The type of the segment.
    pub(crate) above: u8,
    /// What is left of the position behind which it is looked for. None where all is behind it.
    pub(crate) behind: Option<&'a [Step]>,
    /// What is left of the parent below which it is looked for. None where all is below it.
    pub(crate) within: Option<&'a [Step]>,
}

/// Whether a step is this one.
pub(crate) fn is_step(step: &Step, segment: u8, key: &[u8], serial: u64) -> bool
    ensures { result ≡ same_step (step_of step.now) (record { segment = segment; key = key.now; serial = serial }) }
{
    step.segment == segment && step.key.as_slice() == key && step.serial == serial
}

/// Whether a step comes before this one.
fn precedes(step: &Step, segment: u8, key: &[u8], serial: u64) -> bool
    ensures { result ≡ step_precedes (step_of step.now) (record { segment = segment; key = key.now; serial = serial }) }
{
    if step.segment != segment {
        return step.segment < segment;
    }
    if step.key.as_slice() == key {
        serial < step.serial
    } else {
        step.key.as_slice().cmp(key).is_lt()
    }
}

/// What is left of a position below a step. None where nothing there is behind it.
fn past_step<'a>(
    behind: Option<&'a [Step]>,
    segment: u8,
    key: &[u8],
    serial: u64,
) -> Option<Option<&'a [Step]>>
    ensures { option_map (λ rest. option_map steps_of (option_copied rest)) result
        ≡ past_step (option_map steps_of (option_copied behind.entry))
        (record { segment = segment; key = key.now; serial = serial }) }
{
    match behind {
        None => Some(None),
        Some([]) => Some(None),
        Some([first, rest @ ..]) => {
            if is_step(first, segment, key, serial) {
                Some(Some(rest))
            } else if precedes(first, segment, key, serial) {
                Some(None)
            } else {
                None
            }
        }
    }
}

/// What is left of a parent below a step. None where nothing there is below it.
fn inside_step<'a>(
    within: Option<&'a [Step]>,
    segment: u8,
    key: &[u8],
    serial: u64,
) -> Option<Option<&'a [Step]>>
    ensures { option_map (λ rest. option_map steps_of (option_copied rest)) result
        ≡ inside_step (option_map steps_of (option_copied within.entry))
        (record { segment = segment; key = key.now; serial = serial }) }
{
    match within {
        None => Some(None),
        Some([]) => Some(None),
        Some([first, rest @ ..]) => {
            if is_step(first, segment, key, serial) {
                Some(Some(rest))
            } else {
                None
            }
        }
    }
}

/// Whether no argument of this type has another key.
fn agrees(ssas: &[Ssa], segment: u8, key: &[u8]) -> bool
    ensures { result ≡ agrees ssas.now (record { segment = segment; key = key.now; serial = 0 }) }
{
    for ssa in ssas {
        if segment == ssa.segment {
            if let Some(wanted) = &ssa.key {
                if key != wanted.as_slice() {
                    return false;
                }
            }
        }
    }
    true
}

/// The type that the arguments name last, or this one where there are none.
fn last_type(ssas: &[Ssa], segment: u8) -> u8
    ensures { result ≡ last_type segment ssas.now }
{
    let mut last = segment;
    for ssa in ssas {
        last = ssa.segment;
    }
    last
}

/// Whether the arguments name this type last, or there are none.
pub(crate) fn ends_here(ssas: &[Ssa], segment: u8) -> bool
    ensures { result ≡ ends_here ssas.now segment }
{
    match ssas {
        [] => true,
        [first, rest @ ..] => segment == last_type(rest, first.segment),
    }
}

/// Whether each qualified argument names a type on the line down to this one.
fn can_stand(segments: &[SegDef], last: u8, ssas: &[Ssa]) -> bool
    ensures { result ≡ can_stand segments.now last ssas.now }
{
    for ssa in ssas {
        if ssa.key.is_some() && !is_on_line(segments, ssa.segment, last) {
            return false;
        }
    }
    true
}

/// Whether a path can meet the arguments.
pub(crate) fn can_be_met(segments: &[SegDef], ssas: &[Ssa]) -> bool
    ensures { result ≡ can_be_met segments.now ssas.now }
{
    match ssas {
        [] => true,
        [first, rest @ ..] => can_stand(segments, last_type(rest, first.segment), ssas),
    }
}

/// Whether a segment that the arguments name last may stand at or below one of this type.
pub(crate) fn leads_on(segments: &[SegDef], ssas: &[Ssa], segment: u8) -> bool
    ensures { result ≡ leads_on segments.now ssas.now segment }
{
    match ssas {
        [] => true,
        [first, rest @ ..] => is_on_line(segments, segment, last_type(rest, first.segment)),
    }
}

impl<'a> Aim<'a> {
    /// What is looked for below a segment or a sequential dependent. None where nothing there is.
    pub(crate) fn enter(self, segment: u8, key: &[u8], serial: u64) -> Option<Aim<'a>>
        ensures { option_map aim_of result ≡ entered (aim_of self.entry)
            (record { segment = segment; key = key.now; serial = serial }) }
    {
        if !agrees(self.ssas, segment, key) {
            return None;
        }
        let behind = past_step(self.behind, segment, key, serial)?;
        let within = inside_step(self.within, segment, key, serial)?;
        Some(Aim {
            ssas: self.ssas,
            above: segment,
            behind,
            within,
        })
    }

    /// Whether the segment itself is looked for.
    pub(crate) fn is_met(self) -> bool
        ensures { result ≡ wants (aim_of self.entry) [] }
    {
        if self.behind.is_some() {
            return false;
        }
        if self.within.is_some() {
            return false;
        }
        ends_here(self.ssas, self.above)
    }
}
