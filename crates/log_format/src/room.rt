//! Writers of fields into bytes that have room: none takes memory, and none can fail.
//!
//! Each says how many bytes it wrote, so that room for a whole is room for its parts.
ghost use Rattle.fp_model.specs.Spellings.{be16, be32, be64, short_text, long_text};
ghost use Rattle.fp_model.specs.LogText.{IsBytes, notes_text};
ghost use Rattle.log_format.specs.inside.Sizes.{long_size, notes_size, short_size};
ghost use Rattle.std.specs.List.{AllByRecursion};
ghost use Rattle.std.specs.Prelude.{◌≡◌, ◌+◌, ◌<◌, ◌≤◌, ◌^◌, [], ◌∷◌, ◌++◌, length, vec_capacity, vec_len};

use crate::puts::{items_of, slice_of};
use fp_model::{Bytes, List};

// Appends a byte.
pub(crate) fn write_u8(into: &mut Vec<u8>, byte: u8)
    requires { vec_len into.old + 1 ≤ vec_capacity into.old }
    ensures items { into.new.items ≡ into.old.items ++ byte ∷ [] }
    ensures len { vec_len into.new ≡ vec_len into.old + 1 }
    ensures capacity { vec_capacity into.old ≤ vec_capacity into.new }
{
    let _ = into.push(byte);
}

// Appends bytes.
pub(crate) fn write_bytes(into: &mut Vec<u8>, bytes: &[u8])
    requires { vec_len into.old + length bytes.now ≤ vec_capacity into.old }
    ensures items { into.new.items ≡ into.old.items ++ bytes.now }
    ensures len { vec_len into.new ≡ vec_len into.old + length bytes.now }
    ensures capacity { vec_capacity into.old ≤ vec_capacity into.new }
{
    let _ = into.extend_from_slice(bytes);
}

// Appends a number in two bytes.
#[tactic(auto, unfolding(fp_model::specs::Spellings::be16))]
pub(crate) fn write_u16(into: &mut Vec<u8>, n: u16)
    requires { vec_len into.old + 2 ≤ vec_capacity into.old }
    ensures items { into.new.items ≡ into.old.items ++ be16 n }
    ensures len { vec_len into.new ≡ vec_len into.old + 2 }
    ensures capacity { vec_capacity into.old ≤ vec_capacity into.new }
{
    write_bytes(into, &n.to_be_bytes());
}

// Appends a number in four bytes.
#[tactic(auto, unfolding(fp_model::specs::Spellings::be32))]
pub(crate) fn write_u32(into: &mut Vec<u8>, n: u32)
    requires { vec_len into.old + 4 ≤ vec_capacity into.old }
    ensures items { into.new.items ≡ into.old.items ++ be32 n }
    ensures len { vec_len into.new ≡ vec_len into.old + 4 }
    ensures capacity { vec_capacity into.old ≤ vec_capacity into.new }
{
    write_bytes(into, &n.to_be_bytes());
}

// Appends a number in eight bytes.
#[tactic(auto, unfolding(fp_model::specs::Spellings::be64))]
pub(crate) fn write_u64(into: &mut Vec<u8>, n: u64)
    requires { vec_len into.old + 8 ≤ vec_capacity into.old }
    ensures items { into.new.items ≡ into.old.items ++ be64 n }
    ensures len { vec_len into.new ≡ vec_len into.old + 8 }
    ensures capacity { vec_capacity into.old ≤ vec_capacity into.new }
{
    write_bytes(into, &n.to_be_bytes());
}

// Appends a text of at most 255 bytes behind its length in one byte.
pub(crate) fn write_short(into: &mut Vec<u8>, text: &Bytes)
    requires fits { length text.now < 2 ^ 8 }
    requires room { vec_len into.old + short_size text.now ≤ vec_capacity into.old }
    ensures items { into.new.items ≡ into.old.items ++ short_text text.now }
    ensures len { vec_len into.new ≡ vec_len into.old + short_size text.now }
    ensures capacity { vec_capacity into.old ≤ vec_capacity into.new }
    ensures bytes { IsBytes text.now }
{
    let bytes = slice_of(text);
    write_u8(into, bytes.len() as u8);
    write_bytes(into, bytes);
}

// Appends a text of at most 65,535 bytes behind its length in two bytes.
pub(crate) fn write_long(into: &mut Vec<u8>, text: &Bytes)
    requires fits { length text.now < 2 ^ 16 }
    requires room { vec_len into.old + long_size text.now ≤ vec_capacity into.old }
    ensures items { into.new.items ≡ into.old.items ++ long_text text.now }
    ensures len { vec_len into.new ≡ vec_len into.old + long_size text.now }
    ensures capacity { vec_capacity into.old ≤ vec_capacity into.new }
    ensures bytes { IsBytes text.now }
{
    let bytes = slice_of(text);
    write_u16(into, bytes.len() as u16);
    write_bytes(into, bytes);
}

// Appends numbers of eight bytes each behind their count in four.
pub(crate) fn write_numbers(into: &mut Vec<u8>, numbers: &List<u64>)
    requires fits { length numbers.now < 2 ^ 32 }
    requires room { vec_len into.old + notes_size numbers.now ≤ vec_capacity into.old }
    ensures items { into.new.items ≡ into.old.items ++ notes_text numbers.now }
    ensures len { vec_len into.new ≡ vec_len into.old + notes_size numbers.now }
    ensures capacity { vec_capacity into.old ≤ vec_capacity into.new }
    ensures each { AllByRecursion (λ n. n < 2 ^ 64) numbers.now }
{
    let items = items_of(numbers);
    write_u32(into, items.len() as u32);
    for number in items {
        write_u64(into, *number);
    }
}
