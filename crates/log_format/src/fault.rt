//! Why bytes could not be read.
//!
//! Inside an entry it is enough that its bytes are none (`ReadError`); who reads several is told the place of
//! the first that is none (`FormatFault`).
ghost use Rattle.log_format.specs.declared.fault.FormatFault.TheVariants as format;
ghost use Rattle.log_format.specs.declared.fault.ReadError.TheVariants.{Memory};
ghost use Rattle.std.specs.Prelude.{◌≡◌};

use std::alloc::{AllocError, AllocFailed};

/// Why a value could not be read off the front of bytes.
#[derive(Clone, Copy, Debug)]
pub enum ReadError {
    /// There was no memory for it.
    Memory,
    /// The bytes don't begin with the spelling of such a value.
    Bad,
}

impl From<AllocError> for ReadError {
    ghost from_gives = { λ _ e. e ≡ Memory };

    fn from(_e: AllocError) -> ReadError {
        ReadError::Memory
    }
}

impl<T: Drop> From<AllocFailed<T>> for ReadError {
    ghost from_gives = { λ _ e. e ≡ Memory };

    fn from(_e: AllocFailed<T>) -> ReadError {
        ReadError::Memory
    }
}

/// Why bytes could not be read as entries.
#[derive(Clone, Copy, Debug)]
pub enum FormatFault {
    /// There was no memory for them.
    Memory,
    /// The place of the first bytes that are no entry.
    BadEntry(u64),
}

impl From<AllocError> for FormatFault {
    ghost from_gives = { λ _ e. e ≡ format.Memory };

    fn from(_e: AllocError) -> FormatFault {
        FormatFault::Memory
    }
}
