//! Why a call on an anchor gives no answer.

ghost use Rattle.std.specs.Prelude.{◌≡◌};

use std::alloc::AllocError;

/// Why a call on an anchor's roots gives none. What holds the area is then thrown away.
#[derive(Clone, Copy, PartialEq, Eq)]
pub enum AnchorFault {
    /// This interval is damaged.
    Damaged(u64),

    /// What holds the intervals failed. Its count of faults rose.
    Failed,

    /// There is no memory.
    Memory,
}

impl From<AllocError> for AnchorFault {
    ghost use Rattle.anchor_elements.specs.declared.fault.AnchorFault.TheVariants as fault;

    ghost from_gives = { λ _ e. e ≡ fault.Memory };

    fn from(_: AllocError) -> AnchorFault {
        AnchorFault::Memory
    }
}
