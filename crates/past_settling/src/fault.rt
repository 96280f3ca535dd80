//! Why a queue isn't settled.
ghost use Rattle.std.specs.Prelude.{◌≡◌};
ghost use Rattle.past_settling.specs.declared.fault.QueueFault.TheVariants as fault;

use fp_model::Bytes;
use std::alloc::AllocError;

/// Why a queue isn't settled.
#[derive(Drop)]
pub enum QueueFault {
    /// A field call fails: its place in the queue and that of the field search argument, both from 0 (65,535 where the
    /// segment is absent), and the bytes of the field as the argument met it.
    Verify { call: u32, fsa: u16, found: Bytes },
    /// There was no memory.
    Memory,
}

impl From<AllocError> for QueueFault {
    ghost from_gives = { λ _ e. e ≡ fault.Memory };

    fn from(_: AllocError) -> QueueFault {
        QueueFault::Memory
    }
}
