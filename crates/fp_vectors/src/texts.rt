//! Bytes as texts of a file, both ways.
//!
//!     bytes  = "-" | part { "," part }
//!     part   = [ count "*" ] hexadecimal digits, two a byte
//!     text   = { character | "\{" part { "," part } "}" | "\" newline }
//!
//! A text's backslash before a brace stands for bytes, and one at the end of a line takes the newline away.

use crate::fault::CaseFault;
use std::alloc::{AllocError, Global};

// How often a byte stands, at the least, to be written with a count.
const LEAST_RUN: usize = 5;

/// The bytes that a text of a file names.
pub(crate) fn bytes_of(alloc: Global, text: &str) -> Result<Vec<u8>, CaseFault> {
    let mut bytes = Vec::new(alloc);
    if text != "-" {
        put_parts(alloc, &mut bytes, text)?;
    }
    Ok(bytes)
}

// Appends the bytes of parts.
fn put_parts(alloc: Global, bytes: &mut Vec<u8>, text: &str) -> Result<(), CaseFault> {
    for part in text.split(',') {
        let (count, digits) = match part.split_once('*') {
            Some((count, digits)) => (number_of(count)?, digits),
            None => (1, part),
        };
        let once = hex::decode(alloc, digits)?;
        for _ in 0..count {
            bytes.extend_from_slice(&once)?;
        }
    }
    Ok(())
}

/// The number that a text of digits is.
pub(crate) fn number_of(text: &str) -> Result<u64, CaseFault> {
    text.parse::<u64>().or(Err(CaseFault::Malformed))
}

/// The bytes that a text is, its backslashes read.
pub(crate) fn unescaped(alloc: Global, text: &str) -> Result<Vec<u8>, CaseFault> {
    let mut bytes = Vec::new(alloc);
    for (place, piece) in text.split('\\').enumerate() {
        let plain = if place == 0 {
            piece
        } else {
            behind_escape(alloc, &mut bytes, piece)?
        };
        bytes.extend_from_slice(plain.as_bytes())?;
    }
    Ok(bytes)
}

// Appends what a backslash before this text stands for. What is behind that.
fn behind_escape<'a>(
    alloc: Global,
    bytes: &mut Vec<u8>,
    text: &'a str,
) -> Result<&'a str, CaseFault> {
    if let Some(rest) = text.strip_prefix('\n') {
        return Ok(rest);
    }
    let inner = text.strip_prefix('{').ok_or(CaseFault::Malformed)?;
    let (parts, rest) = inner.split_once('}').ok_or(CaseFault::Malformed)?;
    put_parts(alloc, bytes, parts)?;
    Ok(rest)
}

/// Appends words.
pub(crate) fn put_words(text: &mut Vec<u8>, words: &str) -> Result<(), AllocError> {
    text.extend_from_slice(words.as_bytes())
}

// What stands last in the parts of bytes.
#[derive(Clone, Copy)]
enum Last {
    Nothing,
    Digits,
    Counted,
}

/// Bytes as a text of a file: a run of 5 or more of one byte as a part with a count, all else as parts without.
pub(crate) fn put_bytes(alloc: Global, text: &mut Vec<u8>, bytes: &[u8]) -> Result<(), AllocError> {
    let Some((first, rest)) = bytes.split_first() else {
        return text.extend_from_slice(b"-");
    };
    let mut last = Last::Nothing;
    let mut byte = *first;
    let mut run = 1usize;
    for other in rest {
        if *other == byte {
            run = run.saturating_add(1);
        } else {
            last = put_run(alloc, text, last, byte, run)?;
            byte = *other;
            run = 1;
        }
    }
    put_run(alloc, text, last, byte, run)?;
    Ok(())
}

// Appends so many of one byte, as a part or as digits, and tells which.
fn put_run(
    alloc: Global,
    text: &mut Vec<u8>,
    last: Last,
    byte: u8,
    run: usize,
) -> Result<Last, AllocError> {
    let is_counted = run >= LEAST_RUN;
    if last == Last::Counted || (last == Last::Digits && is_counted) {
        text.extend_from_slice(b",")?;
    }
    let digits = format!(in alloc; "{byte:02x}")?;
    if is_counted {
        let part = format!(in alloc; "{run}*{digits}")?;
        text.extend_from_slice(part.as_bytes())?;
        return Ok(Last::Counted);
    }
    for _ in 0..run {
        text.extend_from_slice(digits.as_bytes())?;
    }
    Ok(Last::Digits)
}

/// Bytes as a line to be read: those that aren't printable as question marks.
pub(crate) fn printable(alloc: Global, bytes: &[u8]) -> Result<String, AllocError> {
    let mut text = String::new(alloc);
    for byte in bytes {
        let sign = if matches!(*byte, b' '..=b'~') {
            char::from(*byte)
        } else {
            '?'
        };
        text.push(sign)?;
    }
    Ok(text)
}

/// The name without the blanks that fill it up.
pub(crate) fn trimmed(name: &[u8; 8]) -> &[u8] {
    name.trim_ascii_end()
}
