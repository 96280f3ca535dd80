//! Why a value is not there.
ghost use Rattle.std.specs.Prelude.{◌≡◌};

use std::alloc::AllocError;

/// Why a value is not there.
#[derive(Clone, Copy)]
pub enum Stop {
    /// There is no such value: the script ends with code 99.
    NoValue,
    /// There was no memory.
    Memory,
}

impl From<AllocError> for Stop {
    ghost use Rattle.txn_values.specs.declared.stop.Stop.TheVariants as stop;

    ghost from_gives = { λ _ e. e ≡ stop.Memory };

    fn from(_: AllocError) -> Stop {
        Stop::Memory
    }
}
