//! The text of an operand: lent where it stands somewhere, and made where it stands nowhere.
ghost use Rattle.std.specs.Prelude.{◌≡◌, IfOk};
ghost use Rattle.txn_values.specs.Lending.{bytes_in};

use fp_model::Bytes;
use std::alloc::{AllocError, Global};

/// The text of an operand.
#[derive(Drop)]
pub enum OperandText<'a> {
    /// As it stands in the script, in the message, or in what the program knows.
    Lent(&'a [u8]),
    /// Made for the operand: a number, or the letters of a field call.
    Made(Bytes),
}

impl OperandText<'_> {
    /// Its bytes.
    pub fn as_slice(&self) -> &[u8]
        ensures exact { result.now ≡ bytes_in self.now }
    {
        match self {
            OperandText::Lent(bytes) => bytes,
            OperandText::Made(bytes) => bytes.as_slice(),
        }
    }

    /// Its bytes to keep, which are copied only where they were lent. Fails only for want of memory.
    pub fn into_bytes(self, alloc: Global) -> Result<Bytes, AllocError>
        ensures exact { IfOk result (λ bytes. bytes ≡ bytes_in self.entry) }
    {
        match self {
            OperandText::Lent(bytes) => Bytes::from_slice(alloc, bytes),
            OperandText::Made(bytes) => Ok(bytes),
        }
    }
}
