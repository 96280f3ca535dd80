//! The turns of two regions: calls that `dli_calls` answers, on the anchors as the transactions before left them.
ghost use Rattle.dedb_storm.specs.Bank.{AreFree, AreKept, IsBank, IsGoing, KeepsOthers};
ghost use Rattle.dedb_calls.specs.Calls.{FitsCallOn};
ghost use Rattle.dli_calls.specs.Progress.{dedbs_in};
ghost use Rattle.dli_tree.specs.InOrder.{any_ends};
ghost use Rattle.fp_exits.specs.Kinds.{kinds_of};
ghost use Rattle.fp_model.specs.Calls.{database_of};
ghost use Rattle.fp_model.specs.Shape.{is_anchor};
ghost use Rattle.fp_model.specs.declared.definitions.DedbDef.{DedbDef as DefOf};
ghost use Rattle.std.specs.Prelude.{◌≡◌, IfOk, IsTrue, List as ListOf, Some, length, slice_get, true};

use crate::fault::Fault;
use crate::fitting::{database_of, fits_call};
use ci_locks::{Grant, Locks};
use dli_calls::{Ready, Work, answer};
use fp_exits::Exits;
use fp_model::{AnchorChange, Answer, Bytes, Call, Defs, List, Mode, Resource, Root};
use msdb_store::MsdbStore;
use std::alloc::{AllocError, Global};

/// The number of the data entry database, behind two main storage databases.
pub(crate) const CUST: u8 = 2;

/// The first region.
pub(crate) const REGION: u8 = 1;

/// The other.
pub(crate) const OTHER: u8 = 2;

/// What one turn of a region comes to.
#[derive(Drop)]
pub(crate) enum Turn {
    Answered(Answer),
    /// The lock that the call needs is gained.
    Gained,
    /// These regions hold it.
    Waits(Bytes),
    /// To wait for it would close this cycle.
    Closes(Bytes),
}

/// Locks of two regions, of which none is held.
pub(crate) fn free_locks(alloc: Global) -> Result<Locks, AllocError>
    ensures { IfOk result AreFree }
{
    let locks = Locks::new(alloc, OTHER)?;
    Ok(locks)
}

fn copy_roots(roots: &List<Root>) -> Result<List<Root>, AllocError>
    ensures { IfOk result (λ copies. copies ≡ roots.now) }
{
    let mut copies = roots.empty_like();
    for root in roots.as_slice() {
        copies.push(root.copy()?)?;
    }
    Ok(copies)
}

/// The roots of an anchor as they stand: none, where no transaction changed it.
pub(crate) fn roots_at(
    alloc: Global,
    kept: &[AnchorChange],
    anchor: u32,
) -> Result<List<Root>, AllocError>
    ensures { (dedbs : ListOf DefOf) → AreKept dedbs kept.now → IfOk result (λ roots. (def : DefOf)
        → slice_get dedbs 0 ≡ Some def → is_anchor def anchor any_ends roots ≡ true) }
{
    match kept {
        [] => Ok(List::new(alloc)),
        [last, before @ ..] => {
            if last.dedb == 0 && last.anchor == anchor {
                copy_roots(&last.roots)
            } else {
                roots_at(alloc, before, anchor)
            }
        }
    }
}

/// Whether a call is one to the first data entry database, and fits it by what is held there.
fn fits_first(defs: &Defs, work: &Work, call: &Call) -> bool
    requires { length work.now.own.dedbs ≡ length defs.now.dedbs }
    ensures { IsTrue result → (def : DefOf) × (slice_get defs.now.dedbs 0 ≡ Some def)
        × (database_of call.now ≡ length defs.now.msdbs) × FitsCallOn def 0 (dedbs_in work.now) call.now }
{
    let count = defs.dedbs.len();
    let number = usize::from(database_of(call));
    let behind = defs.msdbs.len();
    if count < 1 {
        return false;
    }
    if number != behind {
        return false;
    }
    fits_call(&defs.dedbs.as_slice()[0], 0, work.held_type(0), call)
}

/// Asks a call of a region once.
fn ask_once(
    alloc: Global,
    region: u8,
    work: &mut Work,
    locks: &Locks,
    call: &Call,
    store: &MsdbStore,
    defs: &Defs,
    exits: &Exits,
) -> Result<Ready, Fault>
    requires bank { IsBank defs.now store.now (kinds_of exits.now) }
    requires going { IsGoing defs.now region work.old locks.now }

    ensures { IfOk result (λ came. IsGoing defs.now region work.new locks.now) }
{
    if !fits_first(defs, work, call) {
        return Err(Fault::Unfit);
    }
    Ok(answer(alloc, work, call, store, defs, exits, locks, region, 0)?)
}

/// Asks for the lock of an anchor, and with its first lock brings the roots that stand there.
fn gain(
    alloc: Global,
    region: u8,
    work: &mut Work,
    locks: &mut Locks,
    anchor: u32,
    mode: Mode,
    kept: &[AnchorChange],
    defs: &Defs,
) -> Result<Turn, Fault>
    requires going { IsGoing defs.now region work.old locks.old }
    requires kept { AreKept defs.now.dedbs kept.now }

    ensures going { IfOk result (λ turn. IsGoing defs.now region work.new locks.new) }
    ensures others { IfOk result (λ turn. KeepsOthers region locks.old locks.new) }
{
    let resource = Resource::Anchor { dedb: 0, anchor };
    match locks.ask(region, &resource, mode)? {
        Grant::Held => {
            let roots = roots_at(alloc, kept, anchor)?;
            work.hold_anchor(0, anchor, roots)?;
            Ok(Turn::Gained)
        }
        Grant::Wait(holders) => Ok(Turn::Waits(holders)),
        Grant::Cycle(regions) => Ok(Turn::Closes(regions)),
    }
}

/// One turn of a region: its call is answered, or it asks for the lock that the call needs.
fn take_turn(
    alloc: Global,
    region: u8,
    work: &mut Work,
    locks: &mut Locks,
    call: &Call,
    kept: &[AnchorChange],
    store: &MsdbStore,
    defs: &Defs,
    exits: &Exits,
) -> Result<Turn, Fault>
    requires bank { IsBank defs.now store.now (kinds_of exits.now) }
    requires going { IsGoing defs.now region work.old locks.old }
    requires kept { AreKept defs.now.dedbs kept.now }

    ensures going { IfOk result (λ turn. IsGoing defs.now region work.new locks.new) }
    ensures others { IfOk result (λ turn. KeepsOthers region locks.old locks.new) }
{
    match ask_once(alloc, region, work, locks, call, store, defs, exits)? {
        Ready::Answer(answer) => Ok(Turn::Answered(answer)),
        Ready::Need(Resource::Anchor { dedb: 0, anchor }, mode) => {
            gain(alloc, region, work, locks, anchor, mode, kept, defs)
        }
        Ready::Need(_, _) => Err(Fault::Unfit),
    }
}

/// Turns of a region with a call, so many at most, until one comes to something else than a lock that is gained.
pub(crate) fn take_turns(
    alloc: Global,
    turns: u8,
    region: u8,
    work: &mut Work,
    locks: &mut Locks,
    call: &Call,
    kept: &[AnchorChange],
    store: &MsdbStore,
    defs: &Defs,
    exits: &Exits,
) -> Result<Turn, Fault>
    requires bank { IsBank defs.now store.now (kinds_of exits.now) }
    requires going { IsGoing defs.now region work.old locks.old }
    requires kept { AreKept defs.now.dedbs kept.now }

    ensures going { IfOk result (λ turn. IsGoing defs.now region work.new locks.new) }
    ensures others { IfOk result (λ turn. KeepsOthers region locks.old locks.new) }
{
    for _ in 0..turns {
        match take_turn(alloc, region, work, locks, call, kept, store, defs, exits)? {
            Turn::Gained => {}
            turn => return Ok(turn),
        }
    }
    Ok(Turn::Gained)
}
