//! The words of a line, and the names and numbers that words are.
ghost use Rattle.std.specs.Prelude.{◌≡◌};
ghost use Rattle.fp_model.specs.Messages.{is_separator, first_word, behind_word, message_number};
ghost use Rattle.fp_model.specs.Names.{is_letter_or_digit, is_name, name_in};

use fp_model::Name;

// The longest name.
const LONGEST: usize = 8;

// How many digits a number has at most.
const MOST_DIGITS: usize = 18;

// Whether a byte separates words: a blank or a tab.
fn is_separator(byte: u8) -> bool
    ensures { result ≡ is_separator byte }
{
    byte == b' ' || byte == b'\t'
}

// The word before the first separator, and what stands behind that; all and nothing where there is none.
pub(crate) fn split_word(line: &[u8]) -> (&[u8], &[u8])
    ensures word { result.0.now ≡ first_word line.now }
    ensures behind { result.1.now ≡ behind_word line.now }
{
    match line.iter().position(|byte| is_separator(*byte)) {
        Some(place) => (&line[..place], &line[place + 1..]),
        None => (line, &[]),
    }
}

// Whether a byte may stand in a name: a letter or a digit.
fn is_letter_or_digit(byte: u8) -> bool
    ensures { result ≡ is_letter_or_digit byte }
{
    matches!(byte, b'A'..=b'Z' | b'0'..=b'9')
}

// Whether a text is a name.
pub(crate) fn is_name(text: &[u8]) -> bool
    ensures { result ≡ is_name text.now }
{
    if text.is_empty() || text.len() > LONGEST {
        return false;
    }
    matches!(text[0], b'A'..=b'Z') && text.iter().all(|byte| is_letter_or_digit(*byte))
}

// The name that a text is, if it is one.
pub(crate) fn name_in(text: &[u8]) -> Option<Name>
    ensures { result ≡ name_in text.now }
{
    if !is_name(text) {
        return None;
    }
    let mut bytes = [b' '; LONGEST];
    bytes[..text.len()].copy_from_slice(text);
    Some(Name(bytes))
}

// The number that a word is, if it is one: 1 to 18 digits, the first not 0.
pub(crate) fn message_number(word: &[u8]) -> Option<u64>
    ensures { result ≡ message_number word.now }
{
    if word.is_empty() || word.len() > MOST_DIGITS || word[0] == b'0' {
        return None;
    }
    let mut number = 0;
    for digit in word {
        if !digit.is_ascii_digit() {
            return None;
        }
        number = number * 10 + u64::from(*digit - b'0');
    }
    Some(number)
}
