//! Writers of numbers, of 2, 4 or 8 bytes with the highest first, and of a text behind its length.
//!
//! Each appends to what is there. After want of memory some of a text may have been appended, so who must not change
//! anything then writes into bytes of its own first.
ghost use Rattle.fp_model.specs.Spellings.{be16, be32, be64, part_text};
ghost use Rattle.fp_model.specs.LogText.{IsBytes};
ghost use Rattle.std.specs.List.{AllByRecursion};
ghost use Rattle.std.specs.Prelude.{◌≡◌, ◌<◌, ◌^◌, ◌++◌, length, OnOk, OnErr};

use fp_model::{Bytes, List};
use std::alloc::AllocError;

/// Appends a number in two bytes.
#[tactic(auto, unfolding(fp_model::specs::Spellings::be16))]
pub fn put_u16(into: &mut Bytes, n: u16) -> Result<(), AllocError>
    ensures ok { OnOk result (into.new ≡ into.old ++ be16 n) }
    ensures err { OnErr result (into.new ≡ into.old) }
{
    into.append(&n.to_be_bytes())
}

/// Appends a number in four bytes.
#[tactic(auto, unfolding(fp_model::specs::Spellings::be32))]
pub fn put_u32(into: &mut Bytes, n: u32) -> Result<(), AllocError>
    ensures ok { OnOk result (into.new ≡ into.old ++ be32 n) }
    ensures err { OnErr result (into.new ≡ into.old) }
{
    into.append(&n.to_be_bytes())
}

/// Appends a number in eight bytes.
#[tactic(auto, unfolding(fp_model::specs::Spellings::be64))]
pub fn put_u64(into: &mut Bytes, n: u64) -> Result<(), AllocError>
    ensures ok { OnOk result (into.new ≡ into.old ++ be64 n) }
    ensures err { OnErr result (into.new ≡ into.old) }
{
    into.append(&n.to_be_bytes())
}

/// The bytes of a text, each of them a byte.
pub(crate) fn slice_of(text: &Bytes) -> &[u8]
    ensures value { result.now ≡ text.now }
    ensures bytes { IsBytes text.now }
{
    let bytes = text.as_slice();
    bytes
}

/// Appends a text behind its length in four bytes.
pub fn put_part(into: &mut Bytes, text: &Bytes) -> Result<(), AllocError>
    requires { length text.now < 2 ^ 32 }
    ensures ok { OnOk result (into.new ≡ into.old ++ part_text text.now) }
    ensures bytes { IsBytes text.now }
{
    let bytes = slice_of(text);
    put_u32(into, bytes.len() as u32)?;
    into.append(bytes)
}

/// The numbers of a list, each of them below 2^64.
pub(crate) fn items_of(numbers: &List<u64>) -> &[u64]
    ensures value { result.now ≡ numbers.now }
    ensures each { AllByRecursion (λ n. n < 2 ^ 64) numbers.now }
{
    let items = numbers.as_slice();
    items
}
