//! What settling a queue comes to, before the databases have it.
ghost use Rattle.std.specs.Prelude.{◌≡◌, IfOk};
ghost use Rattle.msdb_store.specs.inside.Faults.{fault_at};
ghost use Rattle.msdb_store.specs.declared.staged.VerifyFault.TheVariants as fault;

use fld_calls::SettleFault;
use fp_model::{Bytes, Item, List};
use std::alloc::AllocError;
use std::marker::Model;

/// Why a queue isn't settled.
#[derive(Debug, PartialEq, Eq, Drop)]
pub enum VerifyFault {
    /// A field call fails: its place in the queue and that of the field search argument, both from 0 (65,535 where the
    /// segment is absent), and the bytes of the field as the argument met it. There are none where the segment is
    /// absent, or has no such field.
    Verify { call: u32, fsa: u16, found: Bytes },
    /// There was no memory.
    Memory,
}

impl From<AllocError> for VerifyFault {
    ghost from_gives = { λ _ e. e ≡ fault.Memory };

    fn from(_: AllocError) -> VerifyFault {
        VerifyFault::Memory
    }
}

impl VerifyFault {
    // How the call of this place in the queue fails.
    pub(crate) fn at(call: u32, fault: SettleFault) -> VerifyFault
        ensures { result ≡ fault_at call fault }
    {
        match fault {
            SettleFault::Bad { place, found } => VerifyFault::Verify {
                call,
                fsa: place,
                found,
            },
            SettleFault::Memory => VerifyFault::Memory,
        }
    }
}

/// The segments that a settled queue names, as it leaves them: an item for each, ascending by database and key, and how
/// many of them the databases lack.
#[derive(Drop)]
pub struct Staged {
    pub(crate) items: List<Item>,
    pub(crate) inserts: u32,
}

impl Model for Staged {
    ghost use Rattle.msdb_store.specs.Changes.{Changes};

    ghost Value = { Changes };

    ghost view = { λ s. record { items = s.items; inserts = s.inserts } };
}

impl Staged {
    /// An item for each segment: its bytes as the queue leaves them, and none where it takes it away. They ascend by
    /// database and key. It fails only for want of memory.
    pub fn items(&self) -> Result<List<Item>, AllocError>
        ensures { IfOk result (λ items. items ≡ self.now.items) }
    {
        self.items.clone()
    }

    /// The same items, which are handed on.
    pub fn into_items(self) -> List<Item>
        ensures { result ≡ self.items }
    {
        let Staged { items, inserts: _ } = self;
        items
    }

    /// How many segments the databases get that they lack.
    pub fn inserts(&self) -> u32
        ensures { result ≡ self.now.inserts }
    {
        self.inserts
    }
}
