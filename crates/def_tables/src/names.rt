//! Names, and texts that are compared.
ghost use Rattle.std.specs.Prelude.{◌≡◌};
ghost use Rattle.toml.specs.View.{view};
ghost use Rattle.fp_model.specs.Names.{is_letter_or_digit, is_name, name_in};
ghost use Rattle.fp_model.specs.Texts.{trimmed};
ghost use Rattle.def_tables.specs.Values.{as_name, as_exit};

use fp_model::{Kind, Name};
use toml::Value;

// The longest name.
const LONGEST: usize = 8;

// Whether a byte may stand in a name: a letter or a digit.
fn is_letter_or_digit(byte: u8) -> bool
    ensures { result ≡ is_letter_or_digit byte }
{
    matches!(byte, b'A'..=b'Z' | b'0'..=b'9')
}

// Whether a text is a name.
fn is_name(text: &[u8]) -> bool
    ensures { result ≡ is_name text.now }
{
    if text.is_empty() || text.len() > LONGEST {
        return false;
    }
    matches!(text[0], b'A'..=b'Z') && text.iter().all(|byte| is_letter_or_digit(*byte))
}

// The name that a text is, if it is one.
fn name_in(text: &[u8]) -> Option<Name>
    ensures { result ≡ name_in text.now }
{
    if !is_name(text) {
        return None;
    }
    let mut bytes = [b' '; LONGEST];
    bytes[..text.len()].copy_from_slice(text);
    Some(Name(bytes))
}

/// The name that a value is, if it is one.
#[tactic(auto, unfolding(crate::specs::Values::as_name))]
pub fn as_name(value: &Value) -> Option<Name>
    ensures exact { result ≡ as_name (view value.now) }
{
    match value.as_str() {
        Some(text) => name_in(text.as_bytes()),
        None => None,
    }
}

/// The exit that a value names, if it names one.
#[tactic(auto, unfolding(crate::specs::Values::as_exit))]
pub(crate) fn as_exit(value: &Value) -> Option<Kind>
    ensures { result ≡ as_exit (view value.now) }
{
    match value.as_str() {
        Some("FOLD") => Some(Kind::Fold),
        Some("RANGE") => Some(Kind::Range),
        _ => None,
    }
}

/// A text without the blanks at its end.
pub fn without_blanks(text: &[u8]) -> &[u8]
    ensures exact { result.now ≡ trimmed text.now }
{
    let mut end = text.len();
    while end > 0 && text[end - 1] == b' ' {
        end -= 1;
    }
    &text[..end]
}
