//! Readers of numbers, of texts behind their length, and of numbers behind their count.
//!
//! Each takes the front of the bytes and answers the value with what is left behind it. `Bad`: the bytes end
//! too early. The clause of each says what reading gives in every case but want of memory, and of those of numbers, which
//! take none, that no other fault comes.
ghost use Rattle.log_format.specs.Reading.{Gives, byte_at, number_at, part_at, short_at, long_at, many_at, counted_at};
ghost use Rattle.log_format.specs.declared.fault.ReadError.TheVariants.{Bad};
ghost use Rattle.fp_model.specs.Spellings.{be64};
ghost use Rattle.std.specs.Int.{from_be_bytes, w16, w32, w64};
ghost use Rattle.std.specs.Prelude.{◌≡◌, IfErr, length};

use crate::fault::ReadError;
use fp_model::{Bytes, List};
use std::alloc::Global;

/// One byte.
pub fn byte_of(bytes: &[u8]) -> Result<(u8, &[u8]), ReadError>
    ensures value { Gives (λ x. (x.0, x.1.now)) result (byte_at bytes.now) }
    ensures bad { IfErr result (λ e. e ≡ Bad) }
{
    match bytes {
        [] => Err(ReadError::Bad),
        [b, rest @ ..] => Ok((*b, rest)),
    }
}

/// A number of two bytes.
#[tactic(auto, unfolding(crate::specs::Reading::number_at))]
pub fn u16_of(bytes: &[u8]) -> Result<(u16, &[u8]), ReadError>
    ensures value { Gives (λ x. (x.0, x.1.now)) result (number_at w16 bytes.now) }
    ensures bad { IfErr result (λ e. e ≡ Bad) }
{
    if bytes.len() < 2 {
        return Err(ReadError::Bad);
    }
    let (front, rest) = bytes.split_at(2);
    Ok((u16::from_be_bytes([front[0], front[1]]), rest))
}

/// A number of four bytes.
#[tactic(auto, unfolding(crate::specs::Reading::number_at))]
pub fn u32_of(bytes: &[u8]) -> Result<(u32, &[u8]), ReadError>
    ensures value { Gives (λ x. (x.0, x.1.now)) result (number_at w32 bytes.now) }
    ensures bad { IfErr result (λ e. e ≡ Bad) }
{
    if bytes.len() < 4 {
        return Err(ReadError::Bad);
    }
    let (front, rest) = bytes.split_at(4);
    let number = u32::from_be_bytes([front[0], front[1], front[2], front[3]]);
    Ok((number, rest))
}

/// The number that eight bytes spell.
pub fn number_of(bytes: &[u8]) -> u64
    requires { length bytes.now ≡ 8 }
    ensures value { result ≡ from_be_bytes w64 bytes.now }
    ensures text { be64 result ≡ bytes.now }
{
    u64::from_be_bytes([
        bytes[0], bytes[1], bytes[2], bytes[3], bytes[4], bytes[5], bytes[6], bytes[7],
    ])
}

/// A number of eight bytes.
#[tactic(auto, unfolding(crate::specs::Reading::number_at))]
pub fn u64_of(bytes: &[u8]) -> Result<(u64, &[u8]), ReadError>
    ensures value { Gives (λ x. (x.0, x.1.now)) result (number_at w64 bytes.now) }
    ensures bad { IfErr result (λ e. e ≡ Bad) }
{
    if bytes.len() < 8 {
        return Err(ReadError::Bad);
    }
    let (front, rest) = bytes.split_at(8);
    Ok((number_of(front), rest))
}

/// So many bytes, copied.
pub fn part_of(alloc: Global, n: usize, bytes: &[u8]) -> Result<(Bytes, &[u8]), ReadError>
    ensures { Gives (λ x. (x.0, x.1.now)) result (part_at n bytes.now) }
{
    if bytes.len() < n {
        return Err(ReadError::Bad);
    }
    let (part, rest) = bytes.split_at(n);
    Ok((Bytes::from_vec(Vec::from_slice(alloc, part)?), rest))
}

/// A text behind its length in one byte.
#[tactic(auto, unfolding(crate::specs::Reading::short_at))]
pub fn short_of(alloc: Global, bytes: &[u8]) -> Result<(Bytes, &[u8]), ReadError>
    ensures { Gives (λ x. (x.0, x.1.now)) result (short_at bytes.now) }
{
    let (n, rest) = byte_of(bytes)?;
    let n = n as usize;
    part_of(alloc, n, rest)
}

/// A text behind its length in two bytes.
#[tactic(auto, unfolding(crate::specs::Reading::long_at))]
pub fn long_of(alloc: Global, bytes: &[u8]) -> Result<(Bytes, &[u8]), ReadError>
    ensures { Gives (λ x. (x.0, x.1.now)) result (long_at bytes.now) }
{
    let (n, rest) = u16_of(bytes)?;
    let n = n as usize;
    part_of(alloc, n, rest)
}

/// So many numbers of eight bytes each.
fn many_numbers_of(alloc: Global, count: u32, bytes: &[u8]) -> Result<(List<u64>, &[u8]), ReadError>
    ensures { Gives (λ x. (x.0, x.1.now)) result (many_at (number_at w64) count bytes.now) }
{
    let mut numbers = List::new(alloc);
    let mut rest = bytes;
    for _ in 0..count {
        let (number, after) = u64_of(rest)?;
        numbers.push(number)?;
        rest = after;
    }
    Ok((numbers, rest))
}

/// Numbers of eight bytes each behind their count in four.
#[tactic(auto, unfolding(crate::specs::Reading::counted_at))]
pub fn numbers_of(alloc: Global, bytes: &[u8]) -> Result<(List<u64>, &[u8]), ReadError>
    ensures { Gives (λ x. (x.0, x.1.now)) result (counted_at (number_at w64) bytes.now) }
{
    let (count, rest) = u32_of(bytes)?;
    many_numbers_of(alloc, count, rest)
}
