//! Field search arguments, and why bytes aren't a list of them.
ghost use Rattle.std.specs.Prelude.{◌≡◌, IfOk};
ghost use Rattle.fld_calls.specs.Forms.{form_of, lent_form_of};
ghost use Rattle.fld_calls.specs.declared.arguments.FsaFault.TheVariants as fault;
ghost use Rattle.fld_calls.specs.declared.arguments.SettleFault.TheVariants as settle;

use fp_model::{Bytes, Name};
use std::alloc::{AllocError, Global};

/// A field search argument: one test or change of a field.
#[derive(Drop)]
pub struct Fsa {
    pub field: Name,
    /// The letter that it was answered; a blank where it is good.
    pub status: u8,
    /// The operation: E, G, H, L, M, N, `+`, `-` or `=`. Any other byte is answered A.
    pub op: u8,
    /// A text: characters for a field of characters, else an optional `-` and 1 to 31 digits.
    pub operand: Bytes,
}

/// A field search argument whose operand is lent: as it stands in the bytes of a list, or is to be written there.
#[derive(Clone, Copy)]
pub struct LentFsa<'a> {
    pub field: Name,
    pub status: u8,
    pub op: u8,
    pub operand: &'a [u8],
}

impl Fsa {
    /// The same with its operand lent.
    pub(crate) fn lent(&self) -> LentFsa<'_>
        ensures form { lent_form_of result ≡ form_of self.now }
        ensures operand { result.operand.now ≡ self.now.operand }
    {
        LentFsa {
            field: self.field,
            status: self.status,
            op: self.op,
            operand: self.operand.as_slice(),
        }
    }
}

impl LentFsa<'_> {
    /// The same with a copy of its operand. Fails only for want of memory.
    pub(crate) fn to_fsa(&self, alloc: Global) -> Result<Fsa, AllocError>
        ensures { IfOk result (λ fsa. form_of fsa ≡ lent_form_of self.now) }
    {
        Ok(Fsa {
            field: self.field,
            status: self.status,
            op: self.op,
            operand: Bytes::from_slice(alloc, self.operand)?,
        })
    }
}

/// Why bytes aren't read as a list of field search arguments.
#[derive(Clone, Copy)]
pub enum FsaFault {
    /// The place of the argument that the bytes end in, counted from 0.
    Short(u32),
    /// The place of a connector that is neither `*` nor a blank, or of a blank before further bytes, or of a `*` at
    /// the end.
    BadConnector(u32),
    /// There was no memory.
    Memory,
}

impl From<AllocError> for FsaFault {
    ghost from_gives = { λ _ e. e ≡ fault.Memory };

    fn from(_: AllocError) -> FsaFault {
        FsaFault::Memory
    }
}

/// Why a list of arguments isn't settled.
#[derive(Drop)]
pub enum SettleFault {
    /// The place of the first bad argument, counted from 0, and the bytes of its field as it met them: none where there
    /// is no such field.
    Bad { place: u16, found: Bytes },
    /// There was no memory.
    Memory,
}

impl From<AllocError> for SettleFault {
    ghost from_gives = { λ _ e. e ≡ settle.Memory };

    fn from(_: AllocError) -> SettleFault {
        SettleFault::Memory
    }
}
