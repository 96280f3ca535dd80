//! Numbers in the fields of segments.
//!
//!     read KIND BYTES => NUMBER | none
//!     write KIND SIZE NUMBER => BYTES | refused

use crate::fault::CaseFault;
use crate::texts::{bytes_of, number_of, put_bytes};
use fp_model::FieldKind;
use packed_dec::{read_number, write_number};
use std::alloc::Global;

// What stands in a field before it is written.
const OLD: u8 = 0x5a;

/// What a number or bytes come to.
pub(crate) fn answer(alloc: Global, input: &str) -> Result<Vec<u8>, CaseFault> {
    let (word, rest) = input.split_once(' ').ok_or(CaseFault::Malformed)?;
    let (kind, rest) = rest.split_once(' ').ok_or(CaseFault::Malformed)?;
    let kind = kind_of(kind)?;
    match word {
        "read" => read(alloc, kind, rest),
        "write" => {
            let (size, number) = rest.split_once(' ').ok_or(CaseFault::Malformed)?;
            write(alloc, kind, number_of(size)?, number)
        }
        _ => Err(CaseFault::Malformed),
    }
}

/// The kind of a field by its letter.
pub(crate) fn kind_of(letter: &str) -> Result<FieldKind, CaseFault> {
    match letter {
        "C" => Ok(FieldKind::C),
        "X" => Ok(FieldKind::X),
        "H" => Ok(FieldKind::H),
        "F" => Ok(FieldKind::F),
        "P" => Ok(FieldKind::P),
        _ => Err(CaseFault::Malformed),
    }
}

// The number that bytes are.
fn read(alloc: Global, kind: FieldKind, bytes: &str) -> Result<Vec<u8>, CaseFault> {
    let bytes = bytes_of(alloc, bytes)?;
    match read_number(kind, &bytes) {
        Some(number) => Ok(number.to_string(alloc)?.into_bytes()),
        None => Ok(Vec::from_slice(alloc, b"none")?),
    }
}

// The bytes that a number is written as. A refusal leaves the field.
fn write(alloc: Global, kind: FieldKind, size: u64, number: &str) -> Result<Vec<u8>, CaseFault> {
    let number = number.parse::<i128>().or(Err(CaseFault::Malformed))?;
    let mut field = vec![in alloc; OLD; size as usize]?;
    let mut text = Vec::new(alloc);
    if write_number(kind, &mut field, number) {
        put_bytes(alloc, &mut text, &field)?;
    } else if field.iter().all(|byte| *byte == OLD) {
        text.extend_from_slice(b"refused")?;
    } else {
        text.extend_from_slice(b"refused and changed")?;
    }
    Ok(text)
}
