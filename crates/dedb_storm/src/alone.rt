//! A transaction that runs alone, which begins on empty databases: calls to `past_calls`. No lock is asked, and the roots
//! of an anchor come in where it needs them.
ghost use Rattle.fp_exits.specs.Kinds.{has_kind, kinds_of};
ghost use Rattle.fp_model.specs.Calls.{database_of, target_of};
ghost use Rattle.fp_model.specs.WellFormed.{IsDedbDef};
ghost use Rattle.past_calls.specs.Progress.{IsWorkOf};
ghost use Rattle.past_calls.specs.Targets.{FitsWork};
ghost use Rattle.std.specs.List.{AllByRecursion};
ghost use Rattle.std.specs.Prelude.{◌≡◌, [], IfOk, IsTrue, length, true};

use crate::fault::Fault;
use crate::fitting::{database_of, fits_call};
use fp_exits::Exits;
use fp_model::{Answer, Call, Defs, List};
use past_calls::{Ready, Work, answer};
use std::alloc::Global;
use std::mem;

/// A transaction as it begins.
pub(crate) fn begin_alone(alloc: Global, defs: &Defs) -> Result<Work, Fault>
    ensures { IfOk result (IsWorkOf defs.now) }
{
    Ok(Work::new(alloc, defs)?)
}

/// Whether a call fits its database by what is held there, where there is no main storage database.
fn fits(defs: &Defs, work: &Work, call: &Call) -> bool
    requires none { defs.now.msdbs ≡ [] }
    requires positions { length work.now.own.dedbs ≡ length defs.now.dedbs }
    ensures { IsTrue result → FitsWork (target_of defs.now (database_of call.now)) work.now call.now }
{
    let number = database_of(call);
    let at = usize::from(number);
    if at >= defs.dedbs.len() {
        return false;
    }
    fits_call(
        &defs.dedbs.as_slice()[at],
        number,
        work.held_type(number),
        call,
    )
}

/// Asks a call once. The definitions have no main storage database.
fn ask_once(
    alloc: Global,
    work: &mut Work,
    call: &Call,
    defs: &Defs,
    exits: &Exits,
) -> Result<Ready, Fault>
    requires none { defs.now.msdbs ≡ [] }
    requires dedbs { AllByRecursion IsDedbDef defs.now.dedbs }
    requires exits { AllByRecursion (λ dedb. has_kind (kinds_of exits.now).spreaders dedb.randomizer ≡ true)
        defs.now.dedbs }
    requires going { IsWorkOf defs.now work.old }

    ensures { IfOk result (λ came. IsWorkOf defs.now work.new) }
{
    if !fits(defs, work, call) {
        return Err(Fault::Unfit);
    }
    let pasts = Vec::new(alloc);
    Ok(answer(alloc, work, call, pasts.as_slice(), defs, exits, 0, 0)?)
}

/// Asks a call until it is answered. No anchor has roots; each that it needs is put behind those before.
pub(crate) fn ask_alone(
    alloc: Global,
    work: &mut Work,
    call: &Call,
    defs: &Defs,
    exits: &Exits,
    needed: &mut Vec<u32>,
) -> Result<Answer, Fault>
    requires none { defs.now.msdbs ≡ [] }
    requires dedbs { AllByRecursion IsDedbDef defs.now.dedbs }
    requires exits { AllByRecursion (λ dedb. has_kind (kinds_of exits.now).spreaders dedb.randomizer ≡ true)
        defs.now.dedbs }
    requires going { IsWorkOf defs.now work.old }

    ensures { IfOk result (λ answer. IsWorkOf defs.now work.new) }
{
    for _ in 0..20u8 {
        match ask_once(alloc, work, call, defs, exits)? {
            Ready::Answer(answer) => return Ok(answer),
            Ready::Need { dedb, anchor } => {
                work.hold_anchor(dedb, anchor, List::new(alloc))?;
                needed.push(anchor)?;
            }
        }
    }
    Err(Fault::Endless)
}

/// How many sequential inserts a transaction has queued. It ends, and another begins.
pub(crate) fn end_alone(alloc: Global, work: &mut Work, defs: &Defs) -> Result<usize, Fault>
    ensures { IfOk result (λ queued. IsWorkOf defs.now work.new) }
{
    let was = mem::replace(work, Work::new(alloc, defs)?);
    let parts = was.into_parts(alloc)?;
    Ok(parts.inserts.len())
}
