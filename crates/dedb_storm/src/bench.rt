//! A transaction of the only region, which begins on empty databases: calls to `dedb_calls`.
ghost use Rattle.dedb_storm.specs.Bench.{IsUnderWay};
ghost use Rattle.dedb_calls.specs.Calls.{FitsCallOn};
ghost use Rattle.fp_exits.specs.Kinds.{has_kind, kinds_of};
ghost use Rattle.fp_model.specs.WellFormed.{IsDedbDef};
ghost use Rattle.fp_model.specs.declared.definitions.DedbDef.{DedbDef as DefOf};
ghost use Rattle.std.specs.List.{AllByRecursion};
ghost use Rattle.std.specs.Prelude.{◌≡◌, ◌<◌, IfOk, IsTrue, Some, length, slice_get, true};

use crate::fault::Fault;
use crate::fitting::fits_call;
use ci_locks::Locks;
use dedb_calls::{DedbReady, DedbWork, answer};
use dli_calls::RegionLocks;
use fp_exits::Exits;
use fp_model::{Answer, Call, Defs, List, Mode, Resource};
use std::alloc::Global;

const REGION: u8 = 1;

/// A transaction as it begins, and locks of which none is held.
pub(crate) fn begin(alloc: Global, defs: &Defs) -> Result<(DedbWork, Locks), Fault>
    ensures { IfOk result (λ begun. IsUnderWay defs.now.dedbs begun.0 begun.1) }
{
    let work = DedbWork::new(alloc, defs)?;
    let locks = Locks::new(alloc, REGION)?;
    Ok((work, locks))
}

/// Gains a lock of an anchor, which has no roots.
fn gain(
    alloc: Global,
    work: &mut DedbWork,
    locks: &mut Locks,
    number: u8,
    anchor: u32,
    mode: Mode,
    defs: &Defs,
) -> Result<(), Fault>
    requires { IsUnderWay defs.now.dedbs work.old locks.old }
    ensures { IfOk result (λ done. IsUnderWay defs.now.dedbs work.new locks.new) }
{
    let resource = Resource::Anchor {
        dedb: number,
        anchor,
    };
    locks.ask(REGION, &resource, mode)?;
    work.hold_anchor(number, anchor, List::new(alloc))?;
    Ok(())
}

/// Whether a call fits the database of a number.
fn fits_at(defs: &Defs, number: u8, work: &DedbWork, call: &Call) -> bool
    requires some { number < length defs.now.dedbs }
    requires positions { length work.now.positions ≡ length defs.now.dedbs }
    ensures { IsTrue result → (def : DefOf) → slice_get defs.now.dedbs number ≡ Some def
        → FitsCallOn def number work.now call.now }
{
    let def = &defs.dedbs.as_slice()[usize::from(number)];
    fits_call(def, number, work.held_type(number), call)
}

/// Asks a call once.
fn ask_once(
    alloc: Global,
    work: &mut DedbWork,
    locks: &Locks,
    number: u8,
    call: &Call,
    defs: &Defs,
    exits: &Exits,
) -> Result<DedbReady, Fault>
    requires defs { AllByRecursion IsDedbDef defs.now.dedbs }
    requires some { number < length defs.now.dedbs }
    requires exits { AllByRecursion (λ dedb. has_kind (kinds_of exits.now).spreaders dedb.randomizer ≡ true)
        defs.now.dedbs }
    requires going { IsUnderWay defs.now.dedbs work.old locks.now }

    ensures { IfOk result (λ came. IsUnderWay defs.now.dedbs work.new locks.now) }
{
    if !fits_at(defs, number, work, call) {
        return Err(Fault::Unfit);
    }
    let locks = RegionLocks {
        locks,
        region: REGION,
    };
    Ok(answer(alloc, work, call, number, defs, exits, &locks)?)
}

/// Asks a call once, and gains the lock that it needs, whose anchor is put behind those before.
fn turn(
    alloc: Global,
    work: &mut DedbWork,
    locks: &mut Locks,
    number: u8,
    call: &Call,
    defs: &Defs,
    exits: &Exits,
    needed: &mut Vec<u32>,
) -> Result<Option<Answer>, Fault>
    requires defs { AllByRecursion IsDedbDef defs.now.dedbs }
    requires some { number < length defs.now.dedbs }
    requires exits { AllByRecursion (λ dedb. has_kind (kinds_of exits.now).spreaders dedb.randomizer ≡ true)
        defs.now.dedbs }
    requires going { IsUnderWay defs.now.dedbs work.old locks.old }

    ensures { IfOk result (λ answer. IsUnderWay defs.now.dedbs work.new locks.new) }
{
    match ask_once(alloc, work, locks, number, call, defs, exits)? {
        DedbReady::Answer(answer) => Ok(Some(answer)),
        DedbReady::Need { anchor, mode } => {
            gain(alloc, work, locks, number, anchor, mode, defs)?;
            needed.push(anchor)?;
            Ok(None)
        }
    }
}

/// Asks a call until it is answered, and gains each lock that it needs.
pub(crate) fn ask(
    alloc: Global,
    work: &mut DedbWork,
    locks: &mut Locks,
    number: u8,
    call: &Call,
    defs: &Defs,
    exits: &Exits,
    needed: &mut Vec<u32>,
) -> Result<Answer, Fault>
    requires defs { AllByRecursion IsDedbDef defs.now.dedbs }
    requires some { number < length defs.now.dedbs }
    requires exits { AllByRecursion (λ dedb. has_kind (kinds_of exits.now).spreaders dedb.randomizer ≡ true)
        defs.now.dedbs }
    requires going { IsUnderWay defs.now.dedbs work.old locks.old }

    ensures { IfOk result (λ answer. IsUnderWay defs.now.dedbs work.new locks.new) }
{
    for _ in 0..20u8 {
        if let Some(answer) = turn(alloc, work, locks, number, call, defs, exits, needed)? {
            return Ok(answer);
        }
    }
    Err(Fault::Endless)
}
