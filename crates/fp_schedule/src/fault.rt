//! Why a text is no schedule.
ghost use Rattle.std.specs.Prelude.{◌≡◌};

use std::alloc::AllocError;

/// Why a text is no schedule. Of several reasons it is the first: the length, then token by token.
#[derive(Clone, Copy, Debug, PartialEq, Eq)]
pub enum ScheduleFault {
    /// The token at this place, counted from 1, is no event of these definitions.
    BadToken(u32),
    /// A 1,000,001st token begins.
    TooMany,
    /// There are more than 32,000,000 bytes.
    TooLong,
    /// There was no memory.
    Memory,
}

impl From<AllocError> for ScheduleFault {
    ghost use Rattle.fp_schedule.specs.declared.fault.ScheduleFault.TheVariants as fault;

    ghost from_gives = { λ _ e. e ≡ fault.Memory };

    fn from(_: AllocError) -> ScheduleFault {
        ScheduleFault::Memory
    }
}
