//! Operands: as numbers, and as characters with blanks behind them. Nothing here takes memory.
ghost use Rattle.std.specs.Prelude.{◌≡◌, ◌≤◌, ◌<◌, ◌^◌, IfSome, length, replicate, unsigned_abs};
ghost use Rattle.std.specs.Cmp.Lexicographic.{slice_cmp};
ghost use Rattle.std.specs.Ordering.{nat_cmp};
ghost use Rattle.fp_model.specs.Texts.{digits_number, number_in, padded};

use std::cmp::Ordering;

// The number of 1 to 31 decimal digits.
fn digits_number(digits: &[u8]) -> Option<u128>
    ensures exact { result ≡ digits_number digits.now }
    ensures small { IfSome result (λ n. n < 10 ^ 31) }
{
    if digits.is_empty() || digits.len() > 31 {
        return None;
    }
    let mut n: u128 = 0;
    for digit in digits {
        if !digit.is_ascii_digit() {
            return None;
        }
        n = n * 10 + u128::from(*digit - b'0');
    }
    Some(n)
}

/// The number that a text is: an optional minus sign, and 1 to 31 digits.
pub(crate) fn number_in(text: &[u8]) -> Option<i128>
    ensures exact { result ≡ number_in text.now }
    ensures small { IfSome result (λ n. unsigned_abs n < 10 ^ 31) }
{
    match text {
        [b'-', digits @ ..] => match digits_number(digits) {
            Some(n) => Some(-(n as i128)),
            None => None,
        },
        _ => match digits_number(text) {
            Some(n) => Some(n as i128),
            None => None,
        },
    }
}

// How bytes compare with as many blanks.
fn compare_blanks(bytes: &[u8]) -> Ordering
    ensures { result ≡ slice_cmp nat_cmp bytes.now (replicate (length bytes.now) 32) }
{
    for byte in bytes {
        if *byte != b' ' {
            return byte.cmp(&b' ');
        }
    }
    Ordering::Equal
}

/// How the bytes of a field compare with a text with blanks behind it.
pub(crate) fn compare_padded(held: &[u8], text: &[u8]) -> Ordering
    requires { length text.now ≤ length held.now }
    ensures { result ≡ slice_cmp nat_cmp held.now (padded (length held.now) text.now) }
{
    let (front, back) = held.split_at(text.len());
    front.cmp(text).then(compare_blanks(back))
}

/// Puts a text into a field, with blanks behind it.
pub(crate) fn put_padded(held: &mut [u8], text: &[u8])
    requires { length text.now ≤ length held.old }
    ensures { held.new ≡ padded (length held.old) text.now }
{
    let (front, back) = held.split_at_mut(text.len());
    front.copy_from_slice(text);
    back.fill(b' ');
}
