//! Where the slots of a sequential part stand.

ghost use Rattle.std.specs.Prelude.{◌≡◌, ◌<◌, ◌≤◌, ◌+◌, ◌^◌};
ghost use Rattle.ci_overflow.specs.Places.{first_sequential, first_independent};
ghost use Rattle.seq_dependents.specs.Slots.{HoldsCapacity, slots_each, slot_number, slot_size, interval_of, place_of};

use ci_space::Shape;

/// The bytes of an interval before its slots.
const HEAD: u64 = 32;

/// The bytes of a slot before its segment.
pub const SLOT_HEAD: u16 = 16;

/// A sequential part.
#[derive(Clone, Copy)]
pub struct Part {
    pub shape: Shape,

    /// The slots.
    pub capacity: u32,

    /// The bytes of a segment.
    pub segment: u16,
}

/// The slots of an interval.
#[tactic(auto, unfolding(crate::specs::Slots::slots_each))]
fn slots_each(part: &Part) -> u64
    requires { HoldsCapacity part.now }
    ensures number { result ≡ slots_each part.now }
    ensures some { 1 ≤ result }
    ensures bound { part.now.shape.ci < 2 ^ 16 }
{
    (u64::from(part.shape.ci) - HEAD) / (u64::from(SLOT_HEAD) + u64::from(part.segment))
}

/// The number of a serial's slot.
#[tactic(auto, unfolding(crate::specs::Slots::slot_number))]
fn slot_number(part: &Part, serial: u64) -> u64
    requires { HoldsCapacity part.now }
    ensures number { result ≡ slot_number part.now serial }
    ensures bound { result < part.now.capacity }
{
    serial % u64::from(part.capacity)
}

/// The interval of a serial's slot.
#[tactic(auto, unfolding(crate::specs::Slots::interval_of))]
pub fn interval_of(part: &Part, serial: u64) -> u64
    requires { HoldsCapacity part.now }
    ensures number { result ≡ interval_of part.now serial }
    ensures behind { first_sequential part.now.shape ≤ result }
    ensures before { result < first_independent part.now.shape }
{
    let shape = &part.shape;
    let first = 1 + u64::from(shape.uows) * (u64::from(shape.base) + u64::from(shape.overflow));
    first + slot_number(part, serial) / slots_each(part)
}

/// The place of a serial's slot in its interval.
#[tactic(auto, unfolding(crate::specs::Slots::place_of))]
pub fn place_of(part: &Part, serial: u64) -> u16
    requires { HoldsCapacity part.now }
    ensures number { result ≡ place_of part.now serial }
    ensures behind { 32 ≤ result }
    ensures within { result + slot_size part.now ≤ part.now.shape.ci }
    ensures bound { part.now.shape.ci < 2 ^ 16 }
{
    let size = u64::from(SLOT_HEAD) + u64::from(part.segment);
    (HEAD + slot_number(part, serial) % slots_each(part) * size) as u16
}
