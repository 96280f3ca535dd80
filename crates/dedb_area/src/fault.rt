//! Why a call on areas gives no answer.

ghost use Rattle.std.specs.Prelude.{◌≡◌};

use std::alloc::AllocError;

/// Why a call on areas gives no answer.
#[derive(Clone, Copy, PartialEq, Eq)]
pub enum AreaFault {
    /// A sequential part has no room for `n` more: it has the serials from `begin` on, before `end`.
    SeqFull {
        set: u16,
        begin: u64,
        end: u64,
        n: u64,
    },

    /// The site failed. Its count of faults rose.
    Device,

    /// The bytes of an interval of this data set, that begins at this byte, aren't those of an area.
    Damaged {
        set: u16,
        at: u64,
    },

    /// There is no memory.
    Memory,
}

impl From<AllocError> for AreaFault {
    ghost use Rattle.dedb_area.specs.declared.fault.AreaFault.TheVariants as fault;

    ghost from_gives = { λ _ e. e ≡ fault.Memory };

    fn from(_: AllocError) -> AreaFault {
        AreaFault::Memory
    }
}
