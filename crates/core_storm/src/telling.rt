//! What is found of a run, as the file has it.

use fp_core::Did;
use std::alloc::{AllocError, Global};

// How many events stand in a line, and how many bytes.
const EVENTS_A_LINE: usize = 20;

const BYTES_A_LINE: usize = 60;

/// A word for what each step did, so many a line.
pub(crate) fn dids_text(alloc: Global, dids: &[Did]) -> Result<String, AllocError> {
    let mut text = String::new(alloc);
    for line in dids.chunks(EVENTS_A_LINE) {
        let mut between = "";
        for did in line {
            text.push_str(between)?;
            text.push_str(letter(*did))?;
            if let Did::Sealed(count) = did {
                text.push_str(&count.to_string(alloc)?)?;
            }
            between = " ";
        }
        text.push('\n')?;
    }
    Ok(text)
}

// A letter for what a step did.
fn letter(did: Did) -> &'static str {
    match did {
        Did::Nothing => "n",
        Did::Took => "t",
        Did::Answered => "a",
        Did::Gained => "g",
        Did::Waited => "w",
        Did::Committed => "c",
        Did::Refused => "r",
        Did::Retried => "y",
        Did::Queued => "q",
        Did::Held => "h",
        Did::Sealed(_) => "s",
    }
}

/// Bytes as hexadecimal digits, so many a line.
pub(crate) fn hexadecimal(alloc: Global, bytes: &[u8]) -> Result<String, AllocError> {
    let mut text = String::new(alloc);
    for line in bytes.chunks(BYTES_A_LINE) {
        text.push_str(&hex::encode(alloc, line)?)?;
        text.push('\n')?;
    }
    Ok(text)
}
