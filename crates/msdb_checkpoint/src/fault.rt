//! Why a call on checkpoints failed.
ghost use Rattle.msdb_checkpoint.specs.declared.fault.CkptFault.TheVariants as ckpt;
ghost use Rattle.std.specs.Prelude.{◌≡◌};

use std::alloc::AllocError;

/// Why a checkpoint could not be read or written.
#[derive(Clone, Copy)]
pub enum CkptFault {
    /// The site failed.
    Failed,
    /// The open checkpoint in this data set is outside its format.
    Damaged(u16),
    /// There was no memory.
    Memory,
}

impl From<AllocError> for CkptFault {
    ghost from_gives = { λ _ e. e ≡ ckpt.Memory };

    fn from(_e: AllocError) -> CkptFault {
        CkptFault::Memory
    }
}

impl From<fp_site::Failed> for CkptFault {
    ghost from_gives = { λ _ e. e ≡ ckpt.Failed };

    fn from(_e: fp_site::Failed) -> CkptFault {
        CkptFault::Failed
    }
}
