//! Why a log was not found legal.
ghost use Rattle.site_audit.specs.Faults.{of_log};
ghost use Rattle.site_audit.specs.declared.fault.AuditFault.TheVariants as faults;
ghost use Rattle.std.specs.Prelude.{◌≡◌};

use fp_site::Failed;
use log_groups::LogFault;
use std::alloc::AllocError;

/// Why a log was not found legal.
#[derive(Clone, Copy)]
pub enum AuditFault {
    /// The log doesn't begin with the open front.
    Foreign,

    /// The site failed. Its count of faults rose.
    SiteFault,

    /// The log's bytes behind the gate at this place, in bytes from 0, are no group.
    Damaged(u64),

    /// The entry at this place, counted from 0, is the first that isn't legal behind those before it.
    Illegal(u64),

    /// There is no memory.
    Memory,
}

impl From<AllocError> for AuditFault {
    ghost from_gives = { λ _ e. e ≡ faults.Memory };

    fn from(_e: AllocError) -> AuditFault {
        AuditFault::Memory
    }
}

impl From<Failed> for AuditFault {
    ghost from_gives = { λ _ e. e ≡ faults.SiteFault };

    fn from(_e: Failed) -> AuditFault {
        AuditFault::SiteFault
    }
}

impl From<LogFault> for AuditFault {
    ghost from_gives = { λ fault e. e ≡ of_log fault };

    fn from(fault: LogFault) -> AuditFault {
        match fault {
            LogFault::Foreign => AuditFault::Foreign,
            LogFault::Damaged(at) => AuditFault::Damaged(at),
            LogFault::Failed => AuditFault::SiteFault,
            LogFault::Memory => AuditFault::Memory,
        }
    }
}
