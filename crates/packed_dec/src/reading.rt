//! Bytes read as numbers.
//!
//! Packed bytes are read in 64 bits, up to nine at a time: 17 digits. Of longer ones the last nine are read so,
//! those in front of them so, and one product joins the two.
ghost use Rattle.fp_model.specs.Numbers.{number, packed, signed_by};
ghost use Rattle.fp_model.specs.Texts.{value};
ghost use Rattle.packed_dec.specs.inside.Halves.{magnitude, pairs_value};
ghost use Rattle.std.specs.Prelude.{◌≡◌, ◌≤◌, ◌<◌, ◌^◌, ◌||◌, ◌==◌, IfSome, length};

use fp_model::FieldKind;

/// The number of whole bytes of digits, two each.
fn digit_pairs(bytes: &[u8]) -> Option<u64>
    requires { length bytes.now ≤ 8 }
    ensures exact { result ≡ pairs_value bytes.now }
    ensures small { IfSome result (λ n. n < 10 ^ 16) }
{
    let mut n: u64 = 0;
    for byte in bytes {
        let high = *byte / 16;
        let low = *byte % 16;
        if high > 9 || low > 9 {
            return None;
        }
        n = n * 100 + u64::from(high) * 10 + u64::from(low);
    }
    Some(n)
}

/// The number of at most nine packed bytes, without its sign.
fn short_magnitude(bytes: &[u8]) -> Option<u64>
    requires some { 1 ≤ length bytes.now }
    requires few { length bytes.now ≤ 9 }
    ensures exact { result ≡ magnitude bytes.now }
    ensures small { IfSome result (λ n. n < 10 ^ 17) }
{
    let (last, front) = bytes.split_last()?;
    let digit = *last / 16;
    let sign = *last % 16;
    if digit > 9 || sign < 10 {
        return None;
    }
    let Some(n) = digit_pairs(front) else {
        return None;
    };
    Some(n * 10 + u64::from(digit))
}

/// The number of more than nine packed bytes, without its sign.
fn long_magnitude(bytes: &[u8]) -> Option<u128>
    requires many { 10 ≤ length bytes.now }
    requires few { length bytes.now ≤ 16 }
    ensures exact { result ≡ magnitude bytes.now }
    ensures small { IfSome result (λ n. n < 2 ^ 127) }
{
    let (front, back) = bytes.split_at(bytes.len() - 9);
    let Some(high) = digit_pairs(front) else {
        return None;
    };
    let Some(low) = short_magnitude(back) else {
        return None;
    };
    Some(u128::from(high) * 100_000_000_000_000_000 + u128::from(low))
}

/// Whether a sign is minus.
fn is_minus(sign: u8) -> bool
    ensures { result ≡ (sign == 11 || sign == 13) }
{
    sign == 11 || sign == 13
}

/// A magnitude of up to 17 digits with its sign.
fn short_signed(sign: u8, n: u64) -> i64
    requires { n < 10 ^ 17 }
    ensures { result ≡ signed_by sign n }
{
    let n = n as i64;
    if is_minus(sign) { -n } else { n }
}

/// A magnitude of more digits with its sign.
fn long_signed(sign: u8, n: u128) -> i128
    requires { n < 2 ^ 127 }
    ensures { result ≡ signed_by sign n }
{
    let n = n as i128;
    if is_minus(sign) { -n } else { n }
}

/// The number of packed bytes.
fn packed_number(bytes: &[u8]) -> Option<i128>
    requires some { 1 ≤ length bytes.now }
    requires few { length bytes.now ≤ 16 }
    ensures { result ≡ packed bytes.now }
{
    let sign = bytes[bytes.len() - 1] % 16;
    if bytes.len() > 9 {
        return match long_magnitude(bytes) {
            Some(n) => Some(long_signed(sign, n)),
            None => None,
        };
    }
    match short_magnitude(bytes) {
        Some(n) => Some(i128::from(short_signed(sign, n))),
        None => None,
    }
}

/// The number of unsigned bytes.
fn unsigned(bytes: &[u8]) -> u64
    requires { length bytes.now ≤ 8 }
    ensures { result ≡ value 256 bytes.now }
{
    let mut n: u64 = 0;
    for byte in bytes {
        n = n * 256 + u64::from(*byte);
    }
    n
}

/// The number that the bytes of a field are. None for kind C, for a length that the kind does not have, and for
/// packed bytes with a digit above 9 or a sign below A.
pub fn read_number(kind: FieldKind, bytes: &[u8]) -> Option<i128>
    ensures exact { result ≡ number kind bytes.now }
{
    match kind {
        FieldKind::C => None,
        FieldKind::X => {
            if bytes.is_empty() || bytes.len() > 8 {
                return None;
            }
            Some(i128::from(unsigned(bytes)))
        }
        FieldKind::H => match bytes {
            [a, b] => Some(i128::from(i16::from_be_bytes([*a, *b]))),
            _ => None,
        },
        FieldKind::F => match bytes {
            [a, b, c, d] => Some(i128::from(i32::from_be_bytes([*a, *b, *c, *d]))),
            _ => None,
        },
        FieldKind::P => {
            if bytes.is_empty() || bytes.len() > 16 {
                return None;
            }
            packed_number(bytes)
        }
    }
}
