//! Why the pool gives no bytes.

ghost use Rattle.std.specs.Prelude.{◌≡◌};
ghost use Rattle.ci_pool.specs.declared.fault.PoolFault.TheVariants as fault;

use std::alloc::AllocError;

/// Why the pool gives no bytes.
#[derive(Clone, Copy, PartialEq, Eq)]
pub enum PoolFault {
    /// The site failed. Its count of faults rose.
    Failed,

    /// There is no memory.
    Memory,
}

impl From<AllocError> for PoolFault {
    ghost from_gives = { λ _ e. e ≡ fault.Memory };

    fn from(_: AllocError) -> PoolFault {
        PoolFault::Memory
    }
}
