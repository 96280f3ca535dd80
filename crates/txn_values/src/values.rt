//! Texts as values: words, numbers, and what is made of two of them.
ghost use Rattle.std.specs.Prelude.{◌≡◌, ◌+ℤ◌, ◌-ℤ◌, ◌*ℤ◌, ◌++◌, ◌∷◌, ◌<◌, ◌^◌, [], IfErr, IfNone, IfOk, IfSome, length, slice_get, unsigned_abs, unwrap_or};
ghost use Rattle.std.specs.Ordering.{int_cmp};
ghost use Rattle.fp_model.specs.Messages.{is_separator};
ghost use Rattle.fp_model.specs.Values.{compares, number_text, of_numbers, operated, short_enough, word_of, words};
ghost use Rattle.fp_model.specs.Texts.{decimal_text, digits_number, number_in, same_text, trimmed};
ghost use Rattle.txn_values.specs.Giving.{Gives};
ghost use Rattle.txn_values.specs.declared.stop.Stop.TheVariants.{NoValue};

use crate::stop::Stop;
use fp_model::{Bytes, Comparison, Operation};
use std::alloc::{AllocError, Global};
use std::cmp::Ordering;

// How many bytes a value has at most.
const LONGEST_VALUE: usize = 1024;

// The least number with more than 31 digits.
const TOO_GREAT: u128 = 10_000_000_000_000_000_000_000_000_000_000;

// Whether a byte separates words: a blank or a tab.
fn is_separator(byte: u8) -> bool
    ensures { result ≡ is_separator byte }
{
    byte == b' ' || byte == b'\t'
}

// The first word of a text and what stands behind it, if there is a word.
fn next_word(text: &[u8]) -> Option<(&[u8], &[u8])>
    ensures some { IfSome result (λ parts. words text.now ≡ parts.0.now ∷ words parts.1.now) }
    ensures none { IfNone result (words text.now ≡ []) }
{
    let start = text.iter().position(|byte| !is_separator(*byte))?;
    let text = &text[start..];
    match text.iter().position(|byte| is_separator(*byte)) {
        Some(end) => Some((&text[..end], &text[end..])),
        None => Some((text, &[])),
    }
}

// The word of a text with so many before it; a missing one is empty.
fn word_behind(text: &[u8], before: u8) -> &[u8]
    ensures { result.now ≡ unwrap_or (slice_get (words text.now) before) [] }
{
    match next_word(text) {
        Some((word, rest)) => {
            if before == 0 {
                word
            } else {
                word_behind(rest, before - 1)
            }
        }
        None => &[],
    }
}

/// A text itself for 0, and else its word of that number, counted from 1; a missing one is empty.
pub fn word_of(text: &[u8], number: u8) -> &[u8]
    ensures exact { result.now ≡ word_of text.now number }
{
    if number == 0 {
        text
    } else {
        word_behind(text, number - 1)
    }
}

/// A text without the blanks at its end.
pub fn without_blanks(text: &[u8]) -> &[u8]
    ensures exact { result.now ≡ trimmed text.now }
{
    let mut end = text.len();
    while end > 0 && text[end - 1] == b' ' {
        end -= 1;
    }
    &text[..end]
}

// The number of 1 to 31 decimal digits.
fn digits_number(digits: &[u8]) -> Option<u128>
    ensures exact { result ≡ digits_number digits.now }
    ensures small { IfSome result (λ n. n < 10 ^ 31) }
{
    if digits.is_empty() || digits.len() > 31 {
        return None;
    }
    let mut n: u128 = 0;
    for digit in digits {
        if !digit.is_ascii_digit() {
            return None;
        }
        n = n * 10 + u128::from(*digit - b'0');
    }
    Some(n)
}

/// The number that a text is: an optional minus sign, and 1 to 31 digits.
pub(crate) fn number_in(text: &[u8]) -> Option<i128>
    ensures exact { result ≡ number_in text.now }
    ensures small { IfSome result (λ n. unsigned_abs n < 10 ^ 31) }
{
    match text {
        [b'-', digits @ ..] => match digits_number(digits) {
            Some(n) => Some(-(n as i128)),
            None => None,
        },
        _ => match digits_number(text) {
            Some(n) => Some(n as i128),
            None => None,
        },
    }
}

/// A number as a text.
pub(crate) fn decimal_text(alloc: Global, n: i128) -> Result<Bytes, AllocError>
    ensures { IfOk result (λ text. text ≡ decimal_text n) }
{
    let text = n.to_string(alloc)?;
    Ok(Bytes::from_vec(text.into_bytes()))
}

// A number of at most 31 digits as a text.
fn number_text(alloc: Global, n: i128) -> Result<Bytes, Stop>
    ensures { Gives result (number_text n) }
{
    if n.unsigned_abs() >= TOO_GREAT {
        return Err(Stop::NoValue);
    }
    Ok(decimal_text(alloc, n)?)
}

// The sum of two numbers as a text.
fn sum_text(alloc: Global, m: i128, n: i128) -> Result<Bytes, Stop>
    requires first { unsigned_abs m < 10 ^ 31 }
    requires second { unsigned_abs n < 10 ^ 31 }
    ensures { Gives result (number_text (m +ℤ n)) }
{
    number_text(alloc, m + n)
}

// Their difference as a text.
fn difference_text(alloc: Global, m: i128, n: i128) -> Result<Bytes, Stop>
    requires first { unsigned_abs m < 10 ^ 31 }
    requires second { unsigned_abs n < 10 ^ 31 }
    ensures { Gives result (number_text (m -ℤ n)) }
{
    number_text(alloc, m - n)
}

// Their product as a text.
fn product_text(alloc: Global, m: i128, n: i128) -> Result<Bytes, Stop>
    ensures { Gives result (number_text (m *ℤ n)) }
{
    match m.checked_mul(n) {
        Some(product) => number_text(alloc, product),
        None => Err(Stop::NoValue),
    }
}

/// The number that a text is, if it is one.
pub(crate) fn number(text: &[u8]) -> Result<i128, Stop>
    ensures exact { Gives result (number_in text.now) }
    ensures no_value { IfErr result (λ e. e ≡ NoValue) }
    ensures small { IfOk result (λ n. unsigned_abs n < 10 ^ 31) }
{
    match number_in(text) {
        Some(n) => Ok(n),
        None => Err(Stop::NoValue),
    }
}

/// Two texts joined, if that is a value.
fn joined(alloc: Global, a: &[u8], b: &[u8]) -> Result<Bytes, Stop>
    ensures { Gives result (short_enough (a.now ++ b.now)) }
{
    if a.len() > LONGEST_VALUE || b.len() > LONGEST_VALUE - a.len() {
        return Err(Stop::NoValue);
    }
    let mut text = Bytes::from_slice(alloc, a)?;
    text.append(b)?;
    Ok(text)
}

/// Two values under an operation. `NoValue` where a text that is to be a number is none, where the result has more than
/// 31 digits, and where joined texts have more than 1024 bytes; `Memory` for want of memory.
pub fn operated(alloc: Global, operation: Operation, a: &[u8], b: &[u8]) -> Result<Bytes, Stop>
    ensures exact { Gives result (operated operation a.now b.now) }
{
    match operation {
        Operation::Add => sum_text(alloc, number(a)?, number(b)?),
        Operation::Subtract => difference_text(alloc, number(a)?, number(b)?),
        Operation::Multiply => product_text(alloc, number(a)?, number(b)?),
        Operation::Join => joined(alloc, a, b),
    }
}

// Whether two texts are the same but for blanks at the end.
fn same_text(a: &[u8], b: &[u8]) -> bool
    ensures { result ≡ same_text (trimmed a.now) (trimmed b.now) }
{
    without_blanks(a) == without_blanks(b)
}

// How two texts compare as numbers.
fn order(a: &[u8], b: &[u8]) -> Result<Ordering, Stop>
    ensures exact { Gives result (of_numbers (λ m n. Some (int_cmp m n)) a.now b.now) }
    ensures no_value { IfErr result (λ e. e ≡ NoValue) }
{
    let m = number(a)?;
    let n = number(b)?;
    Ok(m.cmp(&n))
}

/// Whether a comparison holds: as texts but for blanks at their ends where it is of equality, and else as numbers.
/// `NoValue` where a text that is to be a number is none. Takes no memory.
pub fn compares(comparison: Comparison, a: &[u8], b: &[u8]) -> Result<bool, Stop>
    ensures exact { Gives result (compares comparison a.now b.now) }
    ensures no_value { IfErr result (λ e. e ≡ NoValue) }
{
    match comparison {
        Comparison::Equal => Ok(same_text(a, b)),
        Comparison::NotEqual => Ok(!same_text(a, b)),
        Comparison::Less => Ok(order(a, b)?.is_lt()),
        Comparison::LessOrEqual => Ok(order(a, b)?.is_le()),
        Comparison::Greater => Ok(order(a, b)?.is_gt()),
        Comparison::GreaterOrEqual => Ok(order(a, b)?.is_ge()),
    }
}
