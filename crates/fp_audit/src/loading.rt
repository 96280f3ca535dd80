//! The databases before the first entry.
ghost use Rattle.fp_model.specs.State.{loaded, start};
ghost use Rattle.fp_model.specs.WellFormed.{IsMsdbDef};
ghost use Rattle.past_segments.specs.Pasts.{ArePastsOf, IsPastOf, databases_at};
ghost use Rattle.past_segments.specs.Times.{IsSettledBy, database_at};
ghost use Rattle.std.specs.List.{AllByRecursion};
ghost use Rattle.std.specs.Prelude.{◌≡◌, IfOk, ℕ};

use fp_model::{Defs, MsdbDef, key_length};
use past_segments::PastSegments;
use std::alloc::{AllocError, Global};

// The segments that a definition loads, at every place. It fails only for want of memory.
fn loaded(alloc: Global, def: &MsdbDef) -> Result<PastSegments, AllocError>
    requires { IsMsdbDef def.now }
    ensures is { IfOk result (IsPastOf def.now) }
    ensures settled { IfOk result (IsSettledBy 0) }
    ensures loaded { (p : ℕ) → IfOk result (λ past. database_at p past ≡ loaded def.now) }
{
    let mut past = PastSegments::new(alloc, key_length(def.fields.as_slice()));
    for segment in def.load.as_slice() {
        past.put(0, segment.copy()?)?;
    }
    Ok(past)
}

/// The main storage databases before the first entry, at every place. It fails only for want of memory.
pub(crate) fn first_pasts(alloc: Global, defs: &Defs) -> Result<Vec<PastSegments>, AllocError>
    requires { AllByRecursion IsMsdbDef defs.now.msdbs }
    ensures are { IfOk result (λ pasts. ArePastsOf defs.now.msdbs pasts.items) }
    ensures settled { IfOk result (λ pasts. AllByRecursion (IsSettledBy 0) pasts.items) }
    ensures start { (p : ℕ) → IfOk result (λ pasts. databases_at p pasts.items ≡ (start defs.now).msdbs) }
{
    let mut pasts = Vec::with_capacity(alloc, defs.msdbs.len())?;
    for def in defs.msdbs.as_slice() {
        pasts.push(loaded(alloc, def)?)?;
    }
    Ok(pasts)
}
