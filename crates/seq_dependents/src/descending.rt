//! A root's sequential dependents, from the newest down.

ghost use Rattle.std.specs.Prelude.{◌≡◌, ◌≢◌, ◌<◌, ◌++◌, ◌∷◌, [], ℕ, length, Err, IfOk, IfSome, OnOk, IsErrOf};
ghost use Rattle.ci_space.specs.Calls.{GoesOn};
ghost use Rattle.fp_lists.specs.Faults.{Rose};
ghost use Rattle.ci_space.specs.Interval.{kind_of};
ghost use Rattle.seq_dependents.specs.Control.{IsKept, IsControlOf};
ghost use Rattle.seq_dependents.specs.Down.{IsDown};
ghost use Rattle.seq_dependents.specs.inside.Down.{IsRead};
ghost use Rattle.seq_dependents.specs.Faults.{IsAtFault};
ghost use Rattle.seq_dependents.specs.declared.fault.SeqFault.{SeqFault};
ghost use Rattle.seq_dependents.specs.Slots.{HoldsCapacity, IsHeld, interval_of, part_of};

use crate::SeqFault;
use crate::control::get_control_of;
use crate::part::{Part, interval_of};
use crate::slot::{Held, held_in, sequential};
use ci_space::{Interval, Intervals, Shape};
use fp_model::{List, SeqItem};
use std::alloc::Global;

/// The sequential interval that was read last.
#[derive(Drop)]
struct Last {
    ci: u64,
    interval: Interval,
}

/// The interval of a serial's slot: the one that was read last, where it is that.
#[tactic(auto, using(crate::proofs::FaultLemmas::misplaced_fault))]
fn next<I: Intervals>(
    i: &mut I,
    part: &Part,
    last: Option<Last>,
    serial: u64,
) -> Result<Last, SeqFault>
    requires holds { HoldsCapacity part.now }
    requires kind { IfSome last (λ last. kind_of last.interval ≡ 4) }
    requires size { IfSome last (λ last. length last.interval ≡ part.now.shape.ci) }
    ensures kind { IfOk result (λ next. kind_of next.interval ≡ 4) }
    ensures size { IfOk result (λ next. length next.interval ≡ part.now.shape.ci) }
    ensures place { IfOk result (λ next. next.ci ≡ interval_of part.now serial) }
    ensures read { I.told i.old
        → IfSome last (λ last. IsRead part.now (I.intervals i.old) last.ci last.interval)
        → IfOk result (λ next. IsRead part.now (I.intervals i.old) next.ci next.interval) }
    ensures failed { IsErrOf result SeqFault.Failed → Rose (I.faults i.old) (I.faults i.new) }
    ensures damaged { I.told i.old → (n : ℕ) → result ≡ Err (SeqFault.Damaged n)
        → IsAtFault part.now (I.intervals i.old) n }
    ensures never_full { (begin end n : ℕ) → result ≢ Err (SeqFault.Full begin end n) }
    ensures same { I.told i.old → I.intervals i.new ≡ I.intervals i.old }
    ensures number { I.number i.new ≡ I.number i.old }
    ensures goes_on { GoesOn I.told I.size I.faults I.keeps i.old i.new }
{
    let ci = interval_of(part, serial);
    if let Some(last) = last {
        if last.ci == ci {
            return Ok(last);
        }
    }
    let interval = sequential(i, part, ci)?;
    Ok(Last { ci, interval })
}

/// What the slot of a serial holds, and the interval that it stands in.
#[derive(Drop)]
struct Step {
    last: Last,
    held: Held,
}

/// What the slot of a serial holds.
fn read_next<I: Intervals>(
    alloc: Global,
    i: &mut I,
    part: &Part,
    last: Option<Last>,
    serial: u64,
) -> Result<Step, SeqFault>
    requires holds { HoldsCapacity part.now }
    requires kind { IfSome last (λ last. kind_of last.interval ≡ 4) }
    requires size { IfSome last (λ last. length last.interval ≡ part.now.shape.ci) }
    ensures kind { IfOk result (λ step. kind_of step.last.interval ≡ 4) }
    ensures size { IfOk result (λ step. length step.last.interval ≡ part.now.shape.ci) }
    ensures earlier { IfOk result (λ step. step.held.previous < serial) }
    ensures read { I.told i.old
        → IfSome last (λ last. IsRead part.now (I.intervals i.old) last.ci last.interval)
        → IfOk result (λ step. IsRead part.now (I.intervals i.old) step.last.ci step.last.interval) }
    ensures held { I.told i.old
        → IfSome last (λ last. IsRead part.now (I.intervals i.old) last.ci last.interval)
        → IfOk result (λ step. IsHeld part.now (I.intervals i.old) serial step.held.previous step.held.bytes) }
    ensures failed { IsErrOf result SeqFault.Failed → Rose (I.faults i.old) (I.faults i.new) }
    ensures damaged { I.told i.old
        → IfSome last (λ last. IsRead part.now (I.intervals i.old) last.ci last.interval)
        → IsKept (I.intervals i.old) serial → (n : ℕ) → result ≡ Err (SeqFault.Damaged n)
        → IsAtFault part.now (I.intervals i.old) n }
    ensures never_full { (begin end n : ℕ) → result ≢ Err (SeqFault.Full begin end n) }
    ensures same { I.told i.old → I.intervals i.new ≡ I.intervals i.old }
    ensures number { I.number i.new ≡ I.number i.old }
    ensures goes_on { GoesOn I.told I.size I.faults I.keeps i.old i.new }
{
    let last = next(i, part, last, serial)?;
    match held_in(alloc, &last.interval, part, serial) {
        Ok(Some(held)) => Ok(Step { last, held }),
        Ok(None) => Err(SeqFault::Damaged(last.ci)),
        Err(_) => Err(SeqFault::Memory),
    }
}

/// Puts an item behind the others.
fn keep(items: &mut List<SeqItem>, item: SeqItem) -> Result<(), SeqFault>
    ensures ok { OnOk result (items.new ≡ items.old ++ item ∷ []) }
    ensures memory { (fault : SeqFault) → result ≡ Err fault → fault ≡ SeqFault.Memory }
{
    match items.push(item) {
        Ok(()) => Ok(()),
        Err(_) => Err(SeqFault::Memory),
    }
}

/// The sequential dependents of a root, newest first, of which `newest` is the newest serial: those of
/// the previous serials, one after the other, as long as they are kept. None where `newest` isn't kept.
/// `length` is the segment's length. Costs one read of control, and of an interval for each item that
/// stands in another one than the item before it.
pub fn read_down<I: Intervals>(
    alloc: Global,
    i: &mut I,
    shape: &Shape,
    capacity: u32,
    length: u16,
    newest: u64,
) -> Result<List<SeqItem>, SeqFault>
    requires { HoldsCapacity (part_of shape.now capacity length) }
    ensures down { I.told i.old → IfOk result (IsDown (part_of shape.now capacity length) (I.intervals i.old) newest) }

    // The interval that it names is at fault, or what holds the intervals failed; where control is damaged, it fails.
    ensures sound { I.told i.old → OnOk result (IsControlOf capacity (I.intervals i.old)) }
    ensures damaged { I.told i.old → (n : ℕ) → result ≡ Err (SeqFault.Damaged n)
        → IsAtFault (part_of shape.now capacity length) (I.intervals i.old) n }
    ensures failed { IsErrOf result SeqFault.Failed → Rose (I.faults i.old) (I.faults i.new) }
    ensures never_full { (begin end n : ℕ) → result ≢ Err (SeqFault.Full begin end n) }

    // Nothing changes.
    ensures same { I.told i.old → I.intervals i.new ≡ I.intervals i.old }
    ensures number { I.number i.new ≡ I.number i.old }
    ensures goes_on { GoesOn I.told I.size I.faults I.keeps i.old i.new }
{
    let part = Part {
        shape: *shape,
        capacity,
        segment: length,
    };
    let ends = get_control_of(i, capacity)?.ends;
    let mut items = List::new(alloc);
    let mut serial = newest;
    let mut last = None;
    while ends.begin <= serial && serial < ends.end {
        let step = read_next(alloc, i, &part, last, serial)?;
        let Step { last: read, held } = step;
        let Held { previous, bytes } = held;
        last = Some(read);
        keep(&mut items, SeqItem { serial, bytes })?;
        serial = previous;
    }
    Ok(items)
}
