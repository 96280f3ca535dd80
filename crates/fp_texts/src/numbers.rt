//! Numbers in decimal.
ghost use Rattle.std.specs.Prelude.{◌≡◌, ◌<◌, ◌^◌, IfSome};
ghost use Rattle.std.specs.Char.{is_ascii_digit};
ghost use Rattle.fp_model.specs.Texts.{digits_number};

// How many digits a number has at most.
const MOST_DIGITS: usize = 31;

fn is_digit(byte: u8) -> bool
    ensures { result ≡ is_ascii_digit byte }
{
    byte.is_ascii_digit()
}

/// The number that 1 to 31 decimal digits are, zeros in front among them; `None` for any other text.
pub fn digits_number(digits: &[u8]) -> Option<u128>
    ensures exact { result ≡ digits_number digits.now }
    ensures small { IfSome result (λ n. n < 2 ^ 127) }
{
    if digits.is_empty() || digits.len() > MOST_DIGITS {
        return None;
    }
    let mut n: u128 = 0;
    for byte in digits {
        if !is_digit(*byte) {
            return None;
        }
        n = n * 10 + u128::from(*byte - b'0');
    }
    Some(n)
}
