//! Reads the tokens of a line, each as long as it can be.
ghost use Rattle.std.specs.Prelude.{◌≡◌, ◌<◌, ◌^◌, IfSome};
ghost use Rattle.std.specs.Char.{is_ascii_digit};
ghost use Rattle.std.specs.List.{list_all};
ghost use Rattle.fp_model.specs.Texts as texts;
ghost use Rattle.fp_model.specs.Names as names;
ghost use Rattle.fp_model.specs.Messages as messages;
ghost use Rattle.txn_tokens.specs.Readings.{Gives};
ghost use Rattle.txn_tokens.specs.Tokens as tokens;

use crate::fault::LineFault;
use crate::token::Token;
use fp_model::{Bytes, Name};
use std::alloc::Global;

// How many bytes a word has at most, how many digits a number, and how many bytes a text between its quotes.
const LONGEST_WORD: usize = 8;

const MOST_DIGITS: usize = 31;

const LONGEST_TEXT: usize = 1000;

// Whether a byte separates tokens: a space or a tab.
fn is_separator(byte: u8) -> bool
    ensures { result ≡ messages.is_separator byte }
{
    byte == b' ' || byte == b'\t'
}

// Whether a byte may stand in a word.
fn is_letter_or_digit(byte: u8) -> bool
    ensures { result ≡ names.is_letter_or_digit byte }
{
    matches!(byte, b'A'..=b'Z' | b'0'..=b'9')
}

fn is_letter(byte: u8) -> bool
    ensures { result ≡ names.is_letter byte }
{
    matches!(byte, b'A'..=b'Z')
}

fn is_digit(byte: u8) -> bool
    ensures { result ≡ is_ascii_digit byte }
{
    byte.is_ascii_digit()
}

// One of `( ) = + - * &`.
fn is_sign(byte: u8) -> bool
    ensures { result ≡ tokens.is_sign byte }
{
    matches!(byte, b'(' | b')' | b'=' | b'+' | b'-' | b'*' | b'&')
}

/// A text without the blanks in front: spaces and tabs.
pub fn unblanked(bytes: &[u8]) -> &[u8]
    ensures exact { result.now ≡ tokens.unblanked bytes.now }
{
    match bytes.iter().position(|byte| !is_separator(*byte)) {
        Some(place) => &bytes[place..],
        None => &[],
    }
}

// The letters and digits that a text begins with, and what stands behind them.
fn split_letters(bytes: &[u8]) -> (&[u8], &[u8])
    ensures front { result.0.now ≡ tokens.run names.is_letter_or_digit bytes.now }
    ensures rest { result.1.now ≡ tokens.behind names.is_letter_or_digit bytes.now }
{
    match bytes.iter().position(|byte| !is_letter_or_digit(*byte)) {
        Some(place) => (&bytes[..place], &bytes[place..]),
        None => (bytes, &[]),
    }
}

// The digits that a text begins with, and what stands behind them.
fn split_digits(bytes: &[u8]) -> (&[u8], &[u8])
    ensures front { result.0.now ≡ tokens.run is_ascii_digit bytes.now }
    ensures rest { result.1.now ≡ tokens.behind is_ascii_digit bytes.now }
{
    match bytes.iter().position(|byte| !is_digit(*byte)) {
        Some(place) => (&bytes[..place], &bytes[place..]),
        None => (bytes, &[]),
    }
}

// Whether a text is a name.
fn is_name(text: &[u8]) -> bool
    ensures { result ≡ names.is_name text.now }
{
    if text.is_empty() || text.len() > LONGEST_WORD {
        return false;
    }
    is_letter(text[0]) && text.iter().all(|byte| is_letter_or_digit(*byte))
}

// The name that a text is, if it is one.
fn name_in(text: &[u8]) -> Option<Name>
    ensures { result ≡ names.name_in text.now }
{
    if !is_name(text) {
        return None;
    }
    let mut bytes = [b' '; LONGEST_WORD];
    bytes[..text.len()].copy_from_slice(text);
    Some(Name(bytes))
}

// The number that 1 to 31 digits are.
fn digits_number(digits: &[u8]) -> Option<u128>
    ensures exact { result ≡ texts.digits_number digits.now }
    ensures small { IfSome result (λ n. n < 2 ^ 127) }
{
    if digits.is_empty() || digits.len() > MOST_DIGITS {
        return None;
    }
    let mut n: u128 = 0;
    for byte in digits {
        if !is_digit(*byte) {
            return None;
        }
        n = n * 10 + u128::from(*byte - b'0');
    }
    Some(n)
}

// A number with its sign.
fn signed(negative: bool, n: u128) -> i128
    requires { n < 2 ^ 127 }
    ensures { result ≡ tokens.signed negative n }
{
    let n = n as i128;
    if negative { -n } else { n }
}

// What begins with `IO.`, here without it: a word directly behind.
fn field_token(bytes: &[u8]) -> Result<(Token, &[u8]), LineFault>
    ensures { Gives (λ x. (x.0, x.1.now)) result (tokens.field_token bytes.now) }
{
    let (letters, rest) = split_letters(bytes);
    match name_in(letters) {
        Some(name) => Ok((Token::Field(name), rest)),
        None => Err(LineFault::Syntax),
    }
}

// A word, and what stands behind it.
fn word_token<'a>(letters: &[u8], rest: &'a [u8]) -> Result<(Token, &'a [u8]), LineFault>
    ensures { Gives (λ x. (x.0, x.1.now)) result (tokens.word_token letters.now rest.now) }
{
    match name_in(letters) {
        Some(name) => {
            let assigned = matches!(rest, [b'=', ..]);
            Ok((Token::Word { name, assigned }, rest))
        }
        None => Err(LineFault::Syntax),
    }
}

// The token that begins with a letter.
#[tactic(auto, unfolding(crate::specs::Tokens::letter_token))]
fn letter_token(bytes: &[u8]) -> Result<(Token, &[u8]), LineFault>
    ensures { Gives (λ x. (x.0, x.1.now)) result (tokens.letter_token bytes.now) }
{
    let (letters, rest) = split_letters(bytes);
    if letters == b"IO".as_slice() {
        if let [b'.', behind @ ..] = rest {
            return field_token(behind);
        }
    }
    word_token(letters, rest)
}

// The number that begins with a digit; a `-` may stand before it.
#[tactic(auto, unfolding(crate::specs::Tokens::number_token))]
fn number_token(negative: bool, bytes: &[u8]) -> Result<(Token, &[u8]), LineFault>
    ensures { Gives (λ x. (x.0, x.1.now)) result (tokens.number_token negative bytes.now) }
{
    let (digits, rest) = split_digits(bytes);
    match digits_number(digits) {
        Some(n) => Ok((Token::Number(signed(negative, n)), rest)),
        None => Err(LineFault::Syntax),
    }
}

// Whether all bytes of a text are printable.
fn is_printable(text: &[u8]) -> bool
    ensures { result ≡ list_all texts.is_printable text.now }
{
    text.iter().all(|byte| matches!(*byte, b' '..=b'~'))
}

// A text, here without its first quote.
#[tactic(auto, unfolding(crate::specs::Tokens::text_token))]
fn text_token(alloc: Global, bytes: &[u8]) -> Result<(Token, &[u8]), LineFault>
    ensures { Gives (λ x. (x.0, x.1.now)) result (tokens.text_token bytes.now) }
{
    match bytes.iter().position(|byte| *byte == b'\'') {
        Some(place) => {
            let text = &bytes[..place];
            if text.len() > LONGEST_TEXT {
                return Err(LineFault::Syntax);
            }
            if !is_printable(text) {
                return Err(LineFault::Syntax);
            }
            Ok((
                Token::Text(Bytes::from_slice(alloc, text)?),
                &bytes[place + 1..],
            ))
        }
        None => Err(LineFault::Syntax),
    }
}

// `#`, here without it, and a digit.
#[tactic(auto, unfolding(crate::specs::Tokens::hash_token))]
fn hash_token(bytes: &[u8]) -> Result<(Token, &[u8]), LineFault>
    ensures { Gives (λ x. (x.0, x.1.now)) result (tokens.hash_token bytes.now) }
{
    match bytes {
        [byte, rest @ ..] if is_digit(*byte) => Ok((Token::Hash(*byte - b'0'), rest)),
        _ => Err(LineFault::Syntax),
    }
}

// Whether a text begins with a digit.
fn begins_with_digit(bytes: &[u8]) -> bool
    ensures { result ≡ tokens.begins is_ascii_digit bytes.now }
{
    match bytes {
        [] => false,
        [byte, ..] => is_digit(*byte),
    }
}

// The token that a text begins with, and what stands behind it.
#[tactic(auto, unfolding(crate::specs::Tokens::token_at))]
fn token_at(alloc: Global, bytes: &[u8]) -> Result<(Token, &[u8]), LineFault>
    ensures { Gives (λ x. (x.0, x.1.now)) result (tokens.token_at bytes.now) }
{
    let [first, rest @ ..] = bytes else {
        return Err(LineFault::Syntax);
    };
    let first = *first;
    if is_letter(first) {
        letter_token(bytes)
    } else if is_digit(first) {
        number_token(false, bytes)
    } else if first == b'-' && begins_with_digit(rest) {
        number_token(true, rest)
    } else if first == b'\'' {
        text_token(alloc, rest)
    } else if first == b'#' {
        hash_token(rest)
    } else if is_sign(first) {
        Ok((Token::Sign(first), rest))
    } else {
        Err(LineFault::Syntax)
    }
}

// The token that a text begins with, and what stands behind the blanks behind it.
#[tactic(auto, unfolding(crate::specs::Tokens::spaced_token_at))]
fn spaced_token_at(alloc: Global, bytes: &[u8]) -> Result<(Token, &[u8]), LineFault>
    ensures { Gives (λ x. (x.0, x.1.now)) result (tokens.spaced_token_at bytes.now) }
{
    let (token, rest) = token_at(alloc, bytes)?;
    Ok((token, unblanked(rest)))
}

/// The tokens of a line, each as long as it can be. `Syntax` where some part of the line is none.
pub fn tokens_of(alloc: Global, line: &[u8]) -> Result<Vec<Token>, LineFault>
    ensures exact { Gives (λ x. x.items) result (tokens.tokens_of line.now) }
{
    let mut tokens = Vec::new(alloc);
    let mut rest = unblanked(line);
    while !rest.is_empty() {
        let (token, behind) = spaced_token_at(alloc, rest)?;
        tokens.push(token)?;
        rest = behind;
    }
    Ok(tokens)
}
