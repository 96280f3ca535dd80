//! Why a run isn't one that a test can judge.
ghost use Rattle.core_runs.specs.declared.fault.Fault.TheVariants as faults;
ghost use Rattle.std.specs.Prelude.{◌≡◌};

use fp_core::Stop;
use std::alloc::{AllocError, AllocFailed};

/// Why a run isn't one that a test can judge.
#[derive(Debug, Drop)]
pub enum Fault {
    /// Definitions, scripts or schedule of the test aren't read.
    NotRead,
    /// An event isn't one of the definitions.
    NoEvent,
    /// A step or the drain stopped.
    Stopped(Stop),
    /// The log isn't read back, or the site doesn't restart.
    NoLog,
    /// There was no memory.
    Memory,
}

impl From<AllocError> for Fault {
    ghost from_gives = { λ _ e. e ≡ faults.Memory };

    fn from(_e: AllocError) -> Fault {
        Fault::Memory
    }
}

impl<T: Drop> From<AllocFailed<T>> for Fault {
    ghost from_gives = { λ _ e. e ≡ faults.Memory };

    fn from(_e: AllocFailed<T>) -> Fault {
        Fault::Memory
    }
}

impl From<Stop> for Fault {
    ghost from_gives = { λ stop e. e ≡ faults.Stopped stop };

    fn from(stop: Stop) -> Fault {
        Fault::Stopped(stop)
    }
}
