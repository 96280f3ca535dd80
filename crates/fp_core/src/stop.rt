//! Why a step ended the run.
ghost use Rattle.fp_core.specs.Reading.{stop_of};
ghost use Rattle.fp_core.specs.declared.stop.Stop.TheVariants as stops;
ghost use Rattle.std.specs.Prelude.{◌≡◌};

use message_lines::LineFault;
use std::alloc::AllocError;
use thiserror::Error;

/// Why a step ended the run. The core is to be dropped then, and the site restarted: entries that weren't sealed are
/// lost.
#[derive(Clone, Copy, Debug, PartialEq, Eq, Error)]
pub enum Stop {
    /// The site failed, as entries were sealed or reply lines sent. Its count of faults rose.
    #[error("log fault")]
    LogFault,
    /// A read of the source failed. Its count of faults rose.
    #[error("read fault")]
    ReadFault,
    /// The message line of this number, counted from 1, is too long, or one too many.
    #[error("line {0}")]
    LineFault(u64),
    /// There was no memory.
    #[error("no memory")]
    Memory,
}

impl From<AllocError> for Stop {
    ghost from_gives = { λ _ e. e ≡ stops.Memory };

    fn from(_e: AllocError) -> Stop {
        Stop::Memory
    }
}

impl From<LineFault> for Stop {
    ghost from_gives = { λ fault e. e ≡ stop_of fault };

    fn from(fault: LineFault) -> Stop {
        match fault {
            LineFault::TooLong(number) => Stop::LineFault(number),
            LineFault::TooMany(number) => Stop::LineFault(number),
            LineFault::Failed => Stop::ReadFault,
            LineFault::Memory => Stop::Memory,
        }
    }
}

impl From<fp_site::Failed> for Stop {
    ghost from_gives = { λ _ e. e ≡ stops.LogFault };

    fn from(_e: fp_site::Failed) -> Stop {
        Stop::LogFault
    }
}

impl From<log_groups::SealFault> for Stop {
    ghost from_gives = { λ _ e. e ≡ stops.LogFault };

    fn from(_e: log_groups::SealFault) -> Stop {
        Stop::LogFault
    }
}
