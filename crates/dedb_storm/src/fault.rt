//! Why a file isn't judged to its end.
ghost use Rattle.dedb_storm.specs.declared.fault.Fault.TheVariants as faults;
ghost use Rattle.std.specs.Prelude.{◌≡◌};

use hex::FromHexError;
use std::alloc::{AllocError, AllocFailed};

#[derive(Debug, Drop)]
pub(crate) enum Fault {
    /// The definitions or a line aren't what they should be.
    NotRead,
    /// A call, or what a transaction left, doesn't fit its database.
    Unfit,
    /// A call asks for more locks than there are.
    Endless,
    /// There was no memory.
    Memory,
}

impl From<AllocError> for Fault {
    ghost from_gives = { λ _ e. e ≡ faults.Memory };

    fn from(_e: AllocError) -> Fault {
        Fault::Memory
    }
}

impl<T: Drop> From<AllocFailed<T>> for Fault {
    ghost from_gives = { λ _ e. e ≡ faults.Memory };

    fn from(_e: AllocFailed<T>) -> Fault {
        Fault::Memory
    }
}

impl From<FromHexError> for Fault {
    fn from(fault: FromHexError) -> Fault {
        match fault {
            FromHexError::OutOfMemory => Fault::Memory,
            _ => Fault::NotRead,
        }
    }
}

/// Want of memory as a fault.
pub(crate) fn or_fault<T: Drop>(made: Result<T, AllocError>) -> Result<T, Fault> {
    Ok(made?)
}

/// Puts a value in the place of another, which is let go. By an assignment, the caller would be proved over every part
/// of the old value.
pub(crate) fn put<T: Drop>(place: &mut T, value: T)
    ensures { place.new ≡ value }
{
    *place = value;
}

/// Lets a value go, without the caller being proved over every part of it.
pub(crate) fn let_go<T: Drop>(_value: T) {}
