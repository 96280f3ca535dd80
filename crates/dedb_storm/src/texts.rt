//! Bytes as texts of a file, both ways.
//!
//!     bytes = { sign | "_" | "\{" hexadecimal digits, two a byte "}" }
//!
//! A sign is a printable byte other than a blank, a comma, a backslash and "_", which is a blank.

use crate::fault::Fault;
use fp_model::Bytes;
use std::alloc::{AllocError, Global};

/// The bytes that a text of a file names.
pub(crate) fn bytes_of(alloc: Global, text: &str) -> Result<Bytes, Fault> {
    let mut bytes = Bytes::new(alloc);
    for (place, piece) in text.split('\\').enumerate() {
        let plain = if place == 0 {
            piece
        } else {
            behind_escape(alloc, &mut bytes, piece)?
        };
        put_plain(&mut bytes, plain)?;
    }
    Ok(bytes)
}

// Appends the bytes of a text without a backslash.
fn put_plain(bytes: &mut Bytes, text: &str) -> Result<(), AllocError> {
    for byte in text.as_bytes() {
        if *byte == b'_' {
            bytes.push(b' ')?;
        } else {
            bytes.push(*byte)?;
        }
    }
    Ok(())
}

// Appends what a backslash before this text stands for. What is behind that.
fn behind_escape<'a>(alloc: Global, bytes: &mut Bytes, text: &'a str) -> Result<&'a str, Fault> {
    let inner = text.strip_prefix('{').ok_or(Fault::NotRead)?;
    let (digits, rest) = inner.split_once('}').ok_or(Fault::NotRead)?;
    let named = hex::decode(alloc, digits)?;
    bytes.append(&named)?;
    Ok(rest)
}

fn is_sign(byte: u8) -> bool {
    byte == b' ' || (matches!(byte, b'!'..=b'~') && !matches!(byte, b',' | b'\\' | b'_'))
}

/// Appends bytes as a text of a file: those that are no signs in as few parts as there may be.
pub(crate) fn put_bytes(alloc: Global, text: &mut String, bytes: &[u8]) -> Result<(), AllocError> {
    let mut is_in_part = false;
    for byte in bytes {
        if is_sign(*byte) == is_in_part {
            text.push_str(if is_in_part { "}" } else { "\\{" })?;
            is_in_part = !is_in_part;
        }
        put_byte(alloc, text, *byte)?;
    }
    if is_in_part {
        text.push('}')?;
    }
    Ok(())
}

// Appends a byte: its sign, or its digits.
fn put_byte(alloc: Global, text: &mut String, byte: u8) -> Result<(), AllocError> {
    if byte == b' ' {
        text.push('_')
    } else if is_sign(byte) {
        text.push(char::from(byte))
    } else {
        text.push_str(&format!(in alloc; "{byte:02x}")?)
    }
}
