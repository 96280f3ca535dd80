//! Why a case isn't judged.

use hex::FromHexError;
use std::alloc::{AllocError, AllocFailed};

/// Why a case isn't judged.
#[derive(Clone, Copy)]
pub(crate) enum CaseFault {
    /// Its text isn't of the form that its file has.
    Malformed,
    /// There was no memory.
    Memory,
}

impl From<AllocError> for CaseFault {
    fn from(_: AllocError) -> CaseFault {
        CaseFault::Memory
    }
}

impl<T: Drop> From<AllocFailed<T>> for CaseFault {
    fn from(_: AllocFailed<T>) -> CaseFault {
        CaseFault::Memory
    }
}

impl From<FromHexError> for CaseFault {
    fn from(fault: FromHexError) -> CaseFault {
        match fault {
            FromHexError::OutOfMemory => CaseFault::Memory,
            _ => CaseFault::Malformed,
        }
    }
}
