//! What a serial of a sequential part names.

ghost use Rattle.std.specs.Prelude.{◌≡◌, ◌≢◌, ◌↔◌, ℕ, Err, IfOk, OnOk, IsErrOf, IfSome, IsSome};
ghost use Rattle.ci_space.specs.Calls.{GoesOn};
ghost use Rattle.fp_lists.specs.Faults.{Rose};
ghost use Rattle.seq_dependents.specs.Control.{IsKept, IsControlOf};
ghost use Rattle.seq_dependents.specs.Faults.{IsAtFault};
ghost use Rattle.seq_dependents.specs.Slots.{HoldsCapacity, IsHeld, part_of};

use crate::SeqFault;
use crate::control::get_control_of;
use crate::part::Part;
use crate::slot::read_slot;
use ci_space::{Intervals, Shape};
use fp_model::Bytes;
use std::alloc::Global;

/// The previous serial of the same root, which is 0 or less than this one, and the segment of a serial.
/// None exactly where the serial isn't kept, that is, not from `begin` to `end - 1`. `length` is the
/// segment's length. Costs two reads of an interval.
pub fn read<I: Intervals>(
    alloc: Global,
    i: &mut I,
    shape: &Shape,
    capacity: u32,
    length: u16,
    serial: u64,
) -> Result<Option<(u64, Bytes)>, SeqFault>
    requires { HoldsCapacity (part_of shape.now capacity length) }

    // What is given stands in the serial's slot, and something is given exactly where the serial is kept.
    ensures held { I.told i.old → IfOk result (λ read. IfSome read (λ found. IsHeld (part_of shape.now capacity length)
        (I.intervals i.old) serial found.0 found.1)) }
    ensures some { I.told i.old → IfOk result (λ read. IsSome read ↔ IsKept (I.intervals i.old) serial) }

    // Where it fails, the interval that it names is at fault, or what holds the intervals failed; where control is
    // damaged, it fails.
    ensures sound { I.told i.old → OnOk result (IsControlOf capacity (I.intervals i.old)) }
    ensures damaged { I.told i.old → (n : ℕ) → result ≡ Err (SeqFault.Damaged n)
        → IsAtFault (part_of shape.now capacity length) (I.intervals i.old) n }
    ensures failed { IsErrOf result SeqFault.Failed → Rose (I.faults i.old) (I.faults i.new) }
    ensures never_full { (begin end n : ℕ) → result ≢ Err (SeqFault.Full begin end n) }

    // Nothing changes.
    ensures same { I.told i.old → I.intervals i.new ≡ I.intervals i.old }
    ensures number { I.number i.new ≡ I.number i.old }
    ensures goes_on { GoesOn I.told I.size I.faults I.keeps i.old i.new }
{
    let part = Part {
        shape: *shape,
        capacity,
        segment: length,
    };
    let ends = get_control_of(i, capacity)?.ends;
    if serial < ends.begin || ends.end <= serial {
        return Ok(None);
    }
    let held = read_slot(alloc, i, &part, serial)?;
    Ok(Some((held.previous, held.bytes)))
}
