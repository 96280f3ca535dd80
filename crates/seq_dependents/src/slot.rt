//! One slot of a sequential part: it is read in its interval, or written.

ghost use Rattle.std.specs.Prelude.{
  ◌≡◌,
  ◌≢◌,
  ◌<◌,
  ◌≤◌,
  ◌⊎◌,
  ◌↔◌,
  ℕ,
  List,
  length,
  drop,
  Err,
  IfOk,
  OnOk,
  IsErrOf,
  IfSome,
  IsSome,
};
ghost use Rattle.byteorder.specs.Endian.{big_number};
ghost use Rattle.ci_space.specs.Calls.{GoesOn};
ghost use Rattle.fp_lists.specs.Faults.{Rose};
ghost use Rattle.ci_space.specs.Interval.{IsInterval, kind_of};
ghost use Rattle.ci_overflow.specs.Lists.{bytes_at};
ghost use Rattle.seq_dependents.specs.Control.{IsKept};
ghost use Rattle.seq_dependents.specs.Faults.{IsAtFault};
ghost use Rattle.seq_dependents.specs.Slots.{
  HoldsCapacity,
  Holds,
  HasSerial,
  IsSequential,
  IsHeld,
  slot_in,
  slot_of,
  slot_size,
  interval_of,
};

use crate::SeqFault;
use crate::control::get;
use crate::part::{Part, SLOT_HEAD, interval_of, place_of};
use byteorder::{BigEndian, ByteOrder};
use ci_space::{Interval, Intervals};
use fp_model::Bytes;
use std::alloc::{AllocError, Global};

/// The kind of a sequential interval.
const SEQUENTIAL: u8 = 4;

/// What a slot holds beside its own serial.
#[derive(Drop)]
pub struct Held {
    pub previous: u64,
    pub bytes: Bytes,
}

/// The sequential interval of this number.
pub fn sequential<I: Intervals>(i: &mut I, part: &Part, ci: u64) -> Result<Interval, SeqFault>
    ensures bytes { I.told i.old → IfOk result (λ interval. interval ≡ bytes_at (I.intervals i.old) ci) }
    ensures kind { IfOk result (λ interval. kind_of interval ≡ 4) }
    ensures size { IfOk result (λ interval. length interval ≡ part.now.shape.ci) }
    ensures whole { IfOk result (λ interval. length interval ≡ I.size i.old) }
    ensures below { OnOk result (ci < I.number i.old) }
    ensures sound { I.told i.old → OnOk result (IsSequential part.now (I.intervals i.old) ci) }
    ensures failed { IsErrOf result SeqFault.Failed → Rose (I.faults i.old) (I.faults i.new) }
    ensures named { (n : ℕ) → result ≡ Err (SeqFault.Damaged n) → n ≡ ci }
    ensures damaged { I.told i.old → (n : ℕ) → result ≡ Err (SeqFault.Damaged n)
        → ¬ IsSequential part.now (I.intervals i.old) ci }
    ensures never_full { (begin end n : ℕ) → result ≢ Err (SeqFault.Full begin end n) }
    ensures same { I.told i.old → I.intervals i.new ≡ I.intervals i.old }
    ensures number { I.number i.new ≡ I.number i.old }
    ensures goes_on { GoesOn I.told I.size I.faults I.keeps i.old i.new }
{
    let interval = get(i, ci)?;
    if interval.head().kind != SEQUENTIAL || interval.size() != part.shape.ci {
        return Err(SeqFault::Damaged(ci));
    }
    Ok(interval)
}

/// The bytes of a serial's slot in its interval.
#[tactic(auto, unfolding(crate::specs::Slots::slot_in))]
fn slot_in<'a>(interval: &'a Interval, part: &Part, serial: u64) -> &'a [u8]
    requires holds { HoldsCapacity part.now }
    requires kind { kind_of interval.now ≡ 4 }
    requires size { length interval.now ≡ part.now.shape.ci }
    ensures bytes { result.now ≡ slot_in part.now interval.now serial }
    ensures size { length result.now ≡ slot_size part.now }
{
    let at = place_of(part, serial);
    interval.slot(at, SLOT_HEAD + part.segment)
}

/// The previous serial that a slot holds beside this serial. None where it holds another serial, or a
/// previous one that isn't before it.
fn previous_in(slot: &[u8], serial: u64) -> Option<u64>
    requires { 16 ≤ length slot.now }
    ensures previous { IfSome result (λ previous. big_number 8 (drop 8 slot.now) ≡ previous) }
    ensures some { IsSome result ↔ HasSerial slot.now serial }
{
    let previous = BigEndian::read_u64(&slot[8..]);
    if BigEndian::read_u64(slot) != serial || serial <= previous {
        return None;
    }
    Some(previous)
}

/// What the slot of a serial holds in its interval. None where it doesn't hold that serial.
pub fn held_in(
    alloc: Global,
    interval: &Interval,
    part: &Part,
    serial: u64,
) -> Result<Option<Held>, AllocError>
    requires holds { HoldsCapacity part.now }
    requires kind { kind_of interval.now ≡ 4 }
    requires size { length interval.now ≡ part.now.shape.ci }
    ensures held { IfOk result (λ read. IfSome read (λ held. Holds (slot_in part.now interval.now serial) serial
        held.previous held.bytes)) }
    ensures earlier { IfOk result (λ read. IfSome read (λ held. held.previous < serial)) }
    ensures size { IfOk result (λ read. IfSome read (λ held. length held.bytes ≡ part.now.segment)) }
    ensures some { IfOk result (λ read. IsSome read ↔ HasSerial (slot_in part.now interval.now serial) serial) }
{
    let slot = slot_in(interval, part, serial);
    match previous_in(slot, serial) {
        None => Ok(None),
        Some(previous) => {
            let bytes = Bytes::from_slice(alloc, &slot[16..])?;
            Ok(Some(Held { previous, bytes }))
        }
    }
}

/// What the slot of a serial holds.
#[tactic(auto, using(crate::proofs::FaultLemmas::misplaced_fault, crate::proofs::FaultLemmas::serial_fault))]
pub fn read_slot<I: Intervals>(
    alloc: Global,
    i: &mut I,
    part: &Part,
    serial: u64,
) -> Result<Held, SeqFault>
    requires { HoldsCapacity part.now }
    ensures held { I.told i.old → IfOk result (λ held. IsHeld part.now (I.intervals i.old) serial held.previous
        held.bytes) }
    ensures earlier { IfOk result (λ held. held.previous < serial) }
    ensures failed { IsErrOf result SeqFault.Failed → Rose (I.faults i.old) (I.faults i.new) }
    ensures damaged { I.told i.old → IsKept (I.intervals i.old) serial → (n : ℕ) → result ≡ Err (SeqFault.Damaged n)
        → IsAtFault part.now (I.intervals i.old) n }
    ensures never_full { (begin end n : ℕ) → result ≢ Err (SeqFault.Full begin end n) }
    ensures same { I.told i.old → I.intervals i.new ≡ I.intervals i.old }
    ensures number { I.number i.new ≡ I.number i.old }
    ensures goes_on { GoesOn I.told I.size I.faults I.keeps i.old i.new }
{
    let ci = interval_of(part, serial);
    let interval = sequential(i, part, ci)?;
    match held_in(alloc, &interval, part, serial) {
        Ok(Some(held)) => Ok(held),
        Ok(None) => Err(SeqFault::Damaged(ci)),
        Err(_) => Err(SeqFault::Memory),
    }
}
