//! Entries of the log as bytes.
//!
//!     BYTES => ENTRY / ENTRY .. | bad PLACE
//!
//!     ENTRY  = from OUTCOME line reply notes ITEM ..
//!     ITEM   = "segment" database key segment | "image" data set interval bytes
//!            | "range" data set interval place bytes
//!
//! What is read is written again too.
ghost use Rattle.fp_model.specs.LogText.{body_text};
ghost use Rattle.std.specs.Prelude.{◌≡◌, IfOk};

use crate::fault::CaseFault;
use crate::texts::{bytes_of, put_bytes, put_words};
use fp_model::{Bytes, Entry, Item, List, Outcome};
use log_format::{FormatFault, entries, put_entry};
use std::alloc::{AllocError, Global};

/// What bytes come to.
pub(crate) fn answer(alloc: Global, input: &str) -> Result<Vec<u8>, CaseFault> {
    let bytes = bytes_of(alloc, input)?;
    match entries(alloc, &bytes) {
        Ok(found) => same_again(alloc, &bytes, &found),
        Err(FormatFault::BadEntry(place)) => Ok(format!(in alloc; "bad {place}")?.into_bytes()),
        Err(FormatFault::Memory) => Err(CaseFault::Memory),
    }
}

// The entries that bytes are, once they are the same bytes when written.
fn same_again(alloc: Global, bytes: &[u8], found: &List<Entry>) -> Result<Vec<u8>, CaseFault> {
    match rewritten(alloc, bytes) {
        Ok(again) if again.as_slice() == bytes => Ok(text_of(alloc, found.as_slice())?),
        Ok(_) => Ok(Vec::from_slice(alloc, b"written otherwise")?),
        Err(FormatFault::BadEntry(_)) => Err(CaseFault::Malformed),
        Err(FormatFault::Memory) => Err(CaseFault::Memory),
    }
}

// Reads entries and writes them again.
fn rewritten(alloc: Global, bytes: &[u8]) -> Result<Bytes, FormatFault>
    ensures { IfOk result (λ again. again ≡ bytes.now) }
{
    let found = entries(alloc, bytes)?;
    let mut again = Bytes::new(alloc);
    for e in found.as_slice() {
        put_entry(&mut again, e)?;
    }
    Ok(again)
}

// Entries, with a slash between two.
fn text_of(alloc: Global, found: &[Entry]) -> Result<Vec<u8>, AllocError> {
    let mut text = Vec::new(alloc);
    for (place, e) in found.iter().enumerate() {
        if place > 0 {
            text.extend_from_slice(b" / ")?;
        }
        put_text(alloc, &mut text, e)?;
    }
    Ok(text)
}

// Appends an entry.
fn put_text(alloc: Global, text: &mut Vec<u8>, e: &Entry) -> Result<(), AllocError> {
    let from = e.from.to_string(alloc)?;
    text.extend_from_slice(from.as_bytes())?;
    put_outcome(alloc, text, &e.outcome)?;
    put_part(alloc, text, &e.line)?;
    put_part(alloc, text, &e.reply)?;
    put_notes(alloc, text, &e.notes)?;
    for item in e.items.as_slice() {
        put_item(alloc, text, item)?;
    }
    Ok(())
}

// Appends bytes behind a blank.
fn put_part(alloc: Global, text: &mut Vec<u8>, bytes: &Bytes) -> Result<(), AllocError> {
    text.push(b' ')?;
    put_bytes(alloc, text, bytes.as_slice())
}

// Appends an outcome behind a blank.
fn put_outcome(alloc: Global, text: &mut Vec<u8>, outcome: &Outcome) -> Result<(), AllocError> {
    match outcome {
        Outcome::Done => text.extend_from_slice(b" done"),
        Outcome::Verify { call, fsa, found } => {
            put_words(text, &format!(in alloc; " verify {call} {fsa}")?)?;
            put_part(alloc, text, found)
        }
        Outcome::Roll(code) => put_words(text, &format!(in alloc; " roll {code}")?),
        Outcome::SeqFull { set, begin, end, n } => {
            put_words(
                text,
                &format!(in alloc; " seqfull {set} {begin} {end} {n}")?,
            )
        }
        Outcome::Deadlock(cycle) => {
            text.extend_from_slice(b" deadlock")?;
            put_part(alloc, text, cycle)
        }
        Outcome::Device => text.extend_from_slice(b" device"),
        Outcome::Memory => text.extend_from_slice(b" memory"),
        Outcome::Unknown => text.extend_from_slice(b" unknown"),
        Outcome::Old(last) => put_words(text, &format!(in alloc; " old {last}")?),
        Outcome::Repeat(line) => {
            text.extend_from_slice(b" repeat")?;
            put_part(alloc, text, line)
        }
        Outcome::Format => text.extend_from_slice(b" format"),
        Outcome::Purge { set, n } => put_words(text, &format!(in alloc; " purge {set} {n}")?),
    }
}

// Appends numbers behind a blank, with commas between them; a hyphen for none.
fn put_notes(alloc: Global, text: &mut Vec<u8>, notes: &List<u64>) -> Result<(), AllocError> {
    if notes.is_empty() {
        return text.extend_from_slice(b" -");
    }
    for (place, note) in notes.as_slice().iter().enumerate() {
        text.push(if place == 0 { b' ' } else { b',' })?;
        let note = note.to_string(alloc)?;
        text.extend_from_slice(note.as_bytes())?;
    }
    Ok(())
}

// Appends an item behind a blank.
fn put_item(alloc: Global, text: &mut Vec<u8>, item: &Item) -> Result<(), AllocError> {
    match item {
        Item::Segment { msdb, key, bytes } => {
            put_words(text, &format!(in alloc; " segment {msdb}")?)?;
            put_part(alloc, text, key)?;
            put_part(alloc, text, bytes)
        }
        Item::Image { set, ci, bytes } => {
            put_words(text, &format!(in alloc; " image {set} {ci}")?)?;
            put_part(alloc, text, bytes)
        }
        Item::Range { set, ci, at, bytes } => {
            put_words(text, &format!(in alloc; " range {set} {ci} {at}")?)?;
            put_part(alloc, text, bytes)
        }
    }
}
