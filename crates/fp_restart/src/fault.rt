//! Why storage couldn't be made or restarted.
ghost use Rattle.fp_restart.specs.Faults.{of_log};
ghost use Rattle.fp_restart.specs.declared.fault.RestartFault.TheVariants as faults;
ghost use Rattle.std.specs.Prelude.{◌≡◌};

use fp_site::Failed;
use log_groups::LogFault;
use std::alloc::AllocError;

/// Why storage couldn't be made or restarted.
#[derive(Clone, Copy, Debug, PartialEq, Eq)]
pub enum RestartFault {
    /// The log doesn't begin with the open front.
    Foreign,

    /// The site failed. Its count of faults rose.
    SiteFault,

    /// The bytes of this data set at this place are outside the formats. In the log it is the place of a group's gate.
    Damaged {
        /// The number of the data set; 0 is the log.
        set: u16,
        /// The place, in bytes from 0.
        at: u64,
    },

    /// There is no memory.
    Memory,
}

impl From<AllocError> for RestartFault {
    ghost from_gives = { λ _ e. e ≡ faults.Memory };

    fn from(_e: AllocError) -> RestartFault {
        RestartFault::Memory
    }
}

impl From<Failed> for RestartFault {
    ghost from_gives = { λ _ e. e ≡ faults.SiteFault };

    fn from(_e: Failed) -> RestartFault {
        RestartFault::SiteFault
    }
}

impl From<LogFault> for RestartFault {
    ghost from_gives = { λ fault e. e ≡ of_log fault };

    fn from(fault: LogFault) -> RestartFault {
        match fault {
            LogFault::Foreign => RestartFault::Foreign,
            LogFault::Damaged(at) => RestartFault::Damaged { set: 0, at },
            LogFault::Failed => RestartFault::SiteFault,
            LogFault::Memory => RestartFault::Memory,
        }
    }
}
