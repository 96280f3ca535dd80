//! A slot of a sequential part is written.

ghost use Rattle.std.specs.Prelude.{◌≡◌, ◌≢◌, ◌+◌, ◌≤◌, ◌^◌, ℕ, length, All, Err, IfOk, OnOk, IsErrOf};
ghost use Rattle.ci_space.specs.Calls.{GoesOn};
ghost use Rattle.fp_lists.specs.Faults.{Rose};
ghost use Rattle.seq_dependents.specs.Faults.{IsMisplaced, IsAtFault};
ghost use Rattle.seq_dependents.specs.Puts.{PutsSlot, Fills, linked_to};
ghost use Rattle.seq_dependents.specs.Slots.{HoldsCapacity, Holds};

use crate::SeqFault;
use crate::control::put_interval;
use crate::part::{Part, SLOT_HEAD, interval_of, place_of};
use crate::slot::sequential;
use ci_space::Intervals;
use fp_model::Bytes;
use std::alloc::{AllocError, Global};

/// The bytes of a slot.
fn spelled(alloc: Global, serial: u64, previous: u64, segment: &[u8]) -> Result<Bytes, AllocError>
    ensures slot { IfOk result (λ slot. Holds slot serial previous segment.now) }
    ensures size { IfOk result (λ slot. length slot ≡ 16 + length segment.now) }
{
    let mut slot = Bytes::with_capacity(alloc, usize::from(SLOT_HEAD) + segment.len())?;
    slot.append(&serial.to_be_bytes())?;
    slot.append(&previous.to_be_bytes())?;
    slot.append(segment)?;
    Ok(slot)
}

/// Puts a serial into its slot, with the previous serial of the same root and its segment.
#[tactic(auto, using(crate::proofs::FaultLemmas::misplaced_here))]
pub fn put_slot<I: Intervals>(
    alloc: Global,
    i: &mut I,
    part: &Part,
    serial: u64,
    previous: u64,
    segment: &[u8],
) -> Result<(), SeqFault>
    requires holds { HoldsCapacity part.now }
    requires whole { length segment.now ≡ part.now.segment }
    ensures put { I.told i.old → OnOk result (PutsSlot part.now (I.intervals i.old) (I.intervals i.new) serial previous
        segment.now) }
    ensures failed { IsErrOf result SeqFault.Failed → Rose (I.faults i.old) (I.faults i.new) }
    ensures damaged { I.told i.old → (n : ℕ) → result ≡ Err (SeqFault.Damaged n)
        → IsMisplaced part.now (I.intervals i.old) n }
    ensures never_full { (begin end n : ℕ) → result ≢ Err (SeqFault.Full begin end n) }
    ensures number { I.number i.new ≡ I.number i.old }
    ensures goes_on { GoesOn I.told I.size I.faults I.keeps i.old i.new }
{
    let ci = interval_of(part, serial);
    let mut interval = sequential(i, part, ci)?;
    let at = place_of(part, serial);
    match spelled(alloc, serial, previous, segment) {
        Ok(slot) => interval.set_slot(at, slot.as_slice()),
        Err(_) => return Err(SeqFault::Memory),
    }
    put_interval(i, ci, interval)
}

/// The serial that the new serial `first + at` is linked to.
fn linked_to(first: u64, previous: u64, at: u64) -> u64
    requires { first + at ≤ 2 ^ 62 }
    ensures { result ≡ linked_to first previous at }
{
    if at == 0 {
        return previous;
    }
    first + at - 1
}

/// Puts segments into the slots of the serials from `first` on. The first is linked to `previous`, each
/// other one to the one before it.
pub fn fill<I: Intervals>(
    alloc: Global,
    i: &mut I,
    part: &Part,
    first: u64,
    previous: u64,
    segments: &[Bytes],
) -> Result<(), SeqFault>
    requires holds { HoldsCapacity part.now }
    requires whole { All (λ segment. length segment ≡ part.now.segment) segments.now }
    requires few { length segments.now ≤ part.now.capacity }
    requires bound { first + length segments.now ≤ 2 ^ 62 }
    ensures filled { I.told i.old → OnOk result (Fills part.now (I.intervals i.old) (I.intervals i.new) first previous
        segments.now (length segments.now)) }
    ensures failed { IsErrOf result SeqFault.Failed → Rose (I.faults i.old) (I.faults i.new) }
    ensures damaged { I.told i.old → (n : ℕ) → result ≡ Err (SeqFault.Damaged n)
        → IsAtFault part.now (I.intervals i.old) n }
    ensures never_full { (begin end n : ℕ) → result ≢ Err (SeqFault.Full begin end n) }
    ensures number { I.number i.new ≡ I.number i.old }
    ensures goes_on { GoesOn I.told I.size I.faults I.keeps i.old i.new }
{
    for (at, segment) in segments.iter().enumerate() {
        let at = at as u64;
        let linked = linked_to(first, previous, at);
        put_slot(alloc, i, part, first + at, linked, segment.as_slice())?;
    }
    Ok(())
}
