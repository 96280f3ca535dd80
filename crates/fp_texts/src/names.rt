//! Names, and what separates words.
ghost use Rattle.std.specs.Prelude.{◌≡◌};
ghost use Rattle.fp_model.specs.Messages as messages;
ghost use Rattle.fp_model.specs.Names as names;

use fp_model::Name;

// How many bytes a name has at most.
const LONGEST_NAME: usize = 8;

/// Whether a byte separates words: a blank or a tab.
pub fn is_separator(byte: u8) -> bool
    ensures { result ≡ messages.is_separator byte }
{
    byte == b' ' || byte == b'\t'
}

/// Whether a byte may stand in a name: a letter A to Z or a digit.
pub fn is_letter_or_digit(byte: u8) -> bool
    ensures { result ≡ names.is_letter_or_digit byte }
{
    matches!(byte, b'A'..=b'Z' | b'0'..=b'9')
}

fn is_letter(byte: u8) -> bool
    ensures { result ≡ names.is_letter byte }
{
    matches!(byte, b'A'..=b'Z')
}

/// Whether a text is a name: 1 to 8 letters and digits, a letter first.
pub fn is_name(text: &[u8]) -> bool
    ensures { result ≡ names.is_name text.now }
{
    if text.is_empty() || text.len() > LONGEST_NAME {
        return false;
    }
    is_letter(text[0]) && text.iter().all(|byte| is_letter_or_digit(*byte))
}

/// The name that a text is; `None` where it is none.
pub fn name_in(text: &[u8]) -> Option<Name>
    ensures { result ≡ names.name_in text.now }
{
    if !is_name(text) {
        return None;
    }
    let mut bytes = [b' '; LONGEST_NAME];
    bytes[..text.len()].copy_from_slice(text);
    Some(Name(bytes))
}
