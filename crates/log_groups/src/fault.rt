//! Why a call on the log failed.
ghost use Rattle.log_groups.specs.declared.fault.LogFault.TheVariants as log;
ghost use Rattle.log_groups.specs.declared.fault.SealFault.TheVariants as seal;
ghost use Rattle.std.specs.Prelude.{◌≡◌};

use std::alloc::AllocError;

/// Why the log could not be made, opened or read.
#[derive(Clone, Copy, Debug, PartialEq, Eq)]
pub enum LogFault {
    /// The log does not begin with this front, open.
    Foreign,
    /// An open gate with no group behind it stands at this place.
    Damaged(u64),
    /// The site failed.
    Failed,
    /// There was no memory.
    Memory,
}

/// Why entries could not be sealed.
#[derive(Clone, Copy, PartialEq, Eq)]
pub enum SealFault {
    /// The site failed. The log must be opened again.
    Failed,
}

impl From<AllocError> for LogFault {
    ghost from_gives = { λ _ e. e ≡ log.Memory };

    fn from(_e: AllocError) -> LogFault {
        LogFault::Memory
    }
}

impl From<fp_site::Failed> for LogFault {
    ghost from_gives = { λ _ e. e ≡ log.Failed };

    fn from(_e: fp_site::Failed) -> LogFault {
        LogFault::Failed
    }
}

impl From<fp_site::Failed> for SealFault {
    ghost from_gives = { λ _ e. e ≡ seal.Failed };

    fn from(_e: fp_site::Failed) -> SealFault {
        SealFault::Failed
    }
}
