//! Numbers written as bytes.
//!
//! Packed bytes are written from the last, two digits at a time, in 64 bits. A number for more than nine bytes is
//! first divided by 10 ^ 17, the one division in 128 bits: the last nine bytes hold 17 digits and the sign.
ghost use Rattle.fp_model.specs.Numbers.{big_endian, bytes_of, form_of, packed_form, packed_of, pairs, sign_of, unsigned_of};
ghost use Rattle.packed_dec.specs.Fields.{Writes};
ghost use Rattle.std.specs.Prelude.{◌≡◌, ◌≤◌, ◌<◌, ◌^◌, length};

use fp_model::FieldKind;

/// 10 to the power 17.
const LOW_DIGITS: u128 = 100_000_000_000_000_000;

/// Fills bytes with the last digits of a number, two each.
fn put_pairs(into: &mut [u8], n: u64)
    ensures { into.new ≡ pairs (length into.old) n }
{
    let mut rest = n;
    let mut at = into.len();
    while at > 0 {
        at -= 1;
        into[at] = (rest / 10 % 10) as u8 * 16 + (rest % 10) as u8;
        rest /= 100;
    }
}

/// Fills bytes with the last digits of a number and a sign.
fn put_short(into: &mut [u8], n: u64, sign: u8)
    requires some { 1 ≤ length into.old }
    requires half { sign < 16 }
    ensures { into.new ≡ packed_form (length into.old) n sign }
{
    let last = into.len() - 1;
    into[last] = (n % 10) as u8 * 16 + sign;
    put_pairs(&mut into[..last], n / 10);
}

/// Fills more than nine bytes with the digits of a number and a sign.
fn put_long(into: &mut [u8], n: u128, sign: u8)
    requires many { 10 ≤ length into.old }
    requires digits { n < 10 ^ 31 }
    requires half { sign < 16 }
    ensures { into.new ≡ packed_form (length into.old) n sign }
{
    let high = (n / LOW_DIGITS) as u64;
    let low = (n - u128::from(high) * LOW_DIGITS) as u64;
    let split = into.len() - 9;
    let (front, back) = into.split_at_mut(split);
    put_pairs(front, high);
    put_short(back, low, sign);
}

/// The preferred sign of a number.
fn sign_half(n: i128) -> u8
    ensures { result ≡ sign_of n }
{
    if n < 0 { 13 } else { 12 }
}

/// Writes a number into at most nine bytes, if they hold its digits.
fn write_short(into: &mut [u8], n: i128) -> bool
    requires some { 1 ≤ length into.old }
    requires few { length into.old ≤ 9 }
    ensures { Writes result into.old into.new (packed_of (length into.old) n) }
{
    let limit = 10u64.pow(2 * into.len() as u32 - 1);
    match u64::try_from(n.unsigned_abs()) {
        Ok(magnitude) if magnitude < limit => {
            put_short(into, magnitude, sign_half(n));
            true
        }
        _ => false,
    }
}

/// Writes a number into more than nine bytes, if they hold its digits.
fn write_long(into: &mut [u8], n: i128) -> bool
    requires many { 10 ≤ length into.old }
    requires few { length into.old ≤ 16 }
    ensures { Writes result into.old into.new (packed_of (length into.old) n) }
{
    let magnitude = n.unsigned_abs();
    if magnitude >= 10u128.pow(2 * into.len() as u32 - 1) {
        return false;
    }
    put_long(into, magnitude, sign_half(n));
    true
}

/// Fills bytes with a number, the highest byte first.
fn put_big_endian(into: &mut [u8], n: u64)
    ensures { into.new ≡ big_endian (length into.old) n }
{
    let mut rest = n;
    let mut at = into.len();
    while at > 0 {
        at -= 1;
        into[at] = (rest % 256) as u8;
        rest /= 256;
    }
}

/// Writes a number from 0 on into unsigned bytes, if they hold it.
fn write_unsigned(into: &mut [u8], n: i128) -> bool
    requires some { 1 ≤ length into.old }
    requires few { length into.old ≤ 8 }
    ensures { Writes result into.old into.new (unsigned_of (length into.old) n) }
{
    let Ok(n) = u64::try_from(n) else {
        return false;
    };
    if into.len() < 8 && n >= 256u64.pow(into.len() as u32) {
        return false;
    }
    put_big_endian(into, n);
    true
}

/// Writes a number into a half word, if it holds it.
fn write_half_word(into: &mut [u8], n: i128) -> bool
    requires { length into.old ≡ 2 }
    ensures { Writes result into.old into.new (form_of FieldKind.H 2 n) }
{
    match i16::try_from(n) {
        Ok(word) => {
            into.copy_from_slice(&word.to_be_bytes());
            true
        }
        Err(_) => false,
    }
}

/// Writes a number into a full word, if it holds it.
fn write_full_word(into: &mut [u8], n: i128) -> bool
    requires { length into.old ≡ 4 }
    ensures { Writes result into.old into.new (form_of FieldKind.F 4 n) }
{
    match i32::try_from(n) {
        Ok(word) => {
            into.copy_from_slice(&word.to_be_bytes());
            true
        }
        Err(_) => false,
    }
}

/// Writes the preferred form of a number into a field. False where the number has none there, as it is too great or
/// the kind has no numbers of that length; then the bytes stay.
pub fn write_number(kind: FieldKind, into: &mut [u8], n: i128) -> bool
    ensures exact { Writes result into.old into.new (bytes_of kind (length into.old) n) }
{
    match kind {
        FieldKind::X if !into.is_empty() && into.len() <= 8 => write_unsigned(into, n),
        FieldKind::H if into.len() == 2 => write_half_word(into, n),
        FieldKind::F if into.len() == 4 => write_full_word(into, n),
        FieldKind::P if !into.is_empty() && into.len() <= 9 => write_short(into, n),
        FieldKind::P if into.len() > 9 && into.len() <= 16 => write_long(into, n),
        _ => false,
    }
}
