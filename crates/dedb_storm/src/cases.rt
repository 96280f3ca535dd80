//! Calls as the files write them, and what comes of one.
//!
//!     call = kind " " ssas " " bytes
//!     ssas = "-" | ssa { "," ssa }        ssa = type [ "=" bytes ]
//!     came = status [ " " type ":" bytes ]
//!
//! A kind is its name, as GHU; bytes that a call hasn't are "-".

use crate::fault::Fault;
use crate::texts::{bytes_of, put_bytes};
use fp_model::{Answer, Bytes, Call, Get, List, Ssa};
use std::alloc::{AllocError, Global};

/// The number that a text of digits is.
pub(crate) fn number_of(text: &str) -> Result<u8, Fault> {
    match text.parse::<u8>() {
        Ok(number) => Ok(number),
        Err(_) => Err(Fault::NotRead),
    }
}

fn ssa_of(alloc: Global, word: &str) -> Result<Ssa, Fault> {
    match word.split_once('=') {
        Some((segment, key)) => Ok(Ssa {
            segment: number_of(segment)?,
            key: Some(bytes_of(alloc, key)?),
        }),
        None => Ok(Ssa {
            segment: number_of(word)?,
            key: None,
        }),
    }
}

fn ssas_of(alloc: Global, text: &str) -> Result<List<Ssa>, Fault> {
    let mut ssas = List::new(alloc);
    if text != "-" {
        for word in text.split(',') {
            ssas.push(ssa_of(alloc, word)?)?;
        }
    }
    Ok(ssas)
}

// The form of a get, and whether it holds.
fn get_of(kind: &str) -> Option<(Get, bool)> {
    match kind {
        "GU" => Some((Get::Unique, false)),
        "GHU" => Some((Get::Unique, true)),
        "GN" => Some((Get::Next, false)),
        "GHN" => Some((Get::Next, true)),
        "GNP" => Some((Get::NextInParent, false)),
        "GHNP" => Some((Get::NextInParent, true)),
        _ => None,
    }
}

// The call of a kind to the database of this number.
fn call_of_kind(alloc: Global, db: u8, kind: &str, ssas: &str, text: &str) -> Result<Call, Fault> {
    if let Some((get, hold)) = get_of(kind) {
        let ssas = ssas_of(alloc, ssas)?;
        return Ok(Call::Get {
            get,
            hold,
            db,
            ssas,
        });
    }
    match kind {
        "FLD" => Ok(Call::Fld {
            db,
            key: Bytes::new(alloc),
            fsas: Bytes::new(alloc),
        }),
        "ISRT" => {
            let ssas = ssas_of(alloc, ssas)?;
            let bytes = bytes_of(alloc, text)?;
            Ok(Call::Isrt { db, ssas, bytes })
        }
        "REPL" => {
            let bytes = bytes_of(alloc, text)?;
            Ok(Call::Repl { db, bytes })
        }
        "DLET" => Ok(Call::Dlet { db }),
        _ => Err(Fault::NotRead),
    }
}

/// The call of a text to the database of this number.
pub(crate) fn call_of(alloc: Global, db: u8, text: &str) -> Result<Call, Fault> {
    let mut words = text.split(' ');
    let kind = words.next().unwrap_or("");
    let ssas = words.next().unwrap_or("");
    let bytes = words.next().unwrap_or("");
    call_of_kind(alloc, db, kind, ssas, bytes)
}

/// What comes of a call that is answered, as a text of the file. Calls to these databases have no letters.
pub(crate) fn came_of(alloc: Global, answer: &Answer) -> Result<String, AllocError> {
    let mut text = String::new(alloc);
    put_bytes(alloc, &mut text, &answer.status)?;
    if answer.segment != 0 || !answer.bytes.is_empty() {
        let segment = answer.segment;
        text.push_str(&format!(in alloc; " {segment}:")?)?;
        put_bytes(alloc, &mut text, answer.bytes.as_slice())?;
    }
    if !answer.letters.is_empty() {
        text.push_str(" letters ")?;
        put_bytes(alloc, &mut text, answer.letters.as_slice())?;
    }
    Ok(text)
}

/// Numbers with commas between them.
pub(crate) fn numbers_text(alloc: Global, numbers: &[u32]) -> Result<String, AllocError> {
    let mut text = String::new(alloc);
    for number in numbers {
        if !text.is_empty() {
            text.push(',')?;
        }
        text.push_str(&number.to_string(alloc)?)?;
    }
    Ok(text)
}
