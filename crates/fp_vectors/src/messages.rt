//! Message lines, and the lines that terminals are sent.
//!
//!     message LINE => TERMINAL TRANSACTION TEXT | no terminal | no transaction | too long | not ascii
//!     numbered LINE => TERMINAL [NUMBER] TRANSACTION TEXT | a fault as above
//!     terminal LINE => TERMINAL | none
//!
//!     OUTCOME / LINE / REPLY => LINE
//!
//! A line behind `message` is read in format 1, one behind `numbered` in format 2. Of a message the text stands in full
//! behind one blank, also where it is empty. Some outcomes have what is told behind their word: `roll CODE`, `old
//! NUMBER`, and `repeat BYTES`.

use crate::fault::CaseFault;
use crate::texts::{bytes_of, number_of, put_words, trimmed, unescaped};
use fp_messages::{MessageFault, read_message, reply_line, terminal_of};
use fp_model::{Bytes, Entry, List, Message, Outcome};
use std::alloc::{AllocError, Global};

/// What a line comes to.
pub(crate) fn answer(alloc: Global, input: &str) -> Result<Vec<u8>, CaseFault> {
    let (word, line) = input.split_once(' ').ok_or(CaseFault::Malformed)?;
    let line = unescaped(alloc, line)?;
    match word {
        "message" => read(alloc, 1, &line),
        "numbered" => read(alloc, 2, &line),
        "terminal" => Ok(terminal(alloc, &line)?),
        _ => Err(CaseFault::Malformed),
    }
}

// The message that a line of a format is, or its fault.
fn read(alloc: Global, format: u8, line: &[u8]) -> Result<Vec<u8>, CaseFault> {
    match read_message(alloc, format, line) {
        Ok(message) => Ok(text_of(alloc, &message, line)?),
        Err(MessageFault::NoTerminal) => Ok(Vec::from_slice(alloc, b"no terminal")?),
        Err(MessageFault::NoTran) => Ok(Vec::from_slice(alloc, b"no transaction")?),
        Err(MessageFault::TooLong) => Ok(Vec::from_slice(alloc, b"too long")?),
        Err(MessageFault::NotAscii) => Ok(Vec::from_slice(alloc, b"not ascii")?),
        Err(MessageFault::Memory) => Err(CaseFault::Memory),
    }
}

// The parts of a message, which keeps its line.
fn text_of(alloc: Global, message: &Message, line: &[u8]) -> Result<Vec<u8>, AllocError> {
    if message.line.as_slice() != line {
        return Vec::from_slice(alloc, b"another line");
    }
    let mut text = Vec::from_slice(alloc, trimmed(&message.lterm.0))?;
    text.push(b' ')?;
    if let Some(number) = message.number {
        put_words(&mut text, &format!(in alloc; "{number} ")?)?;
    }
    text.extend_from_slice(trimmed(&message.tran.0))?;
    text.push(b' ')?;
    text.extend_from_slice(message.text.as_slice())?;
    Ok(text)
}

// The terminal of a line.
fn terminal(alloc: Global, line: &[u8]) -> Result<Vec<u8>, AllocError> {
    match terminal_of(line) {
        Some(name) => Vec::from_slice(alloc, trimmed(&name.0)),
        None => Vec::from_slice(alloc, b"none"),
    }
}

/// The line that is sent for an entry.
pub(crate) fn reply(alloc: Global, input: &str) -> Result<Vec<u8>, CaseFault> {
    let (outcome, rest) = input.split_once(" / ").ok_or(CaseFault::Malformed)?;
    let (line, reply) = rest.split_once(" / ").ok_or(CaseFault::Malformed)?;
    let e = Entry {
        from: 7,
        outcome: outcome_of(alloc, outcome)?,
        line: Bytes::from_vec(unescaped(alloc, line)?),
        reply: Bytes::from_vec(unescaped(alloc, reply)?),
        notes: List::new(alloc),
        items: List::new(alloc),
    };
    Ok(reply_line(alloc, &e)?.into_vec())
}

// An outcome by its word, with what its reply line may show.
fn outcome_of(alloc: Global, text: &str) -> Result<Outcome, CaseFault> {
    match text {
        "done" => Ok(Outcome::Done),
        "verify" => Ok(Outcome::Verify {
            call: 2,
            fsa: 1,
            found: Bytes::from_vec(bytes_of(alloc, "00")?),
        }),
        "seqfull" => Ok(Outcome::SeqFull {
            set: 3,
            begin: 1,
            end: 9,
            n: 2,
        }),
        "deadlock" => Ok(Outcome::Deadlock(Bytes::from_vec(bytes_of(alloc, "0201")?))),
        "device" => Ok(Outcome::Device),
        "memory" => Ok(Outcome::Memory),
        "unknown" => Ok(Outcome::Unknown),
        "format" => Ok(Outcome::Format),
        "purge" => Ok(Outcome::Purge { set: 3, n: 1 }),
        _ => telling_of(alloc, text),
    }
}

// An outcome with what it tells behind its word.
fn telling_of(alloc: Global, text: &str) -> Result<Outcome, CaseFault> {
    let (word, told) = text.split_once(' ').ok_or(CaseFault::Malformed)?;
    match word {
        "roll" => roll_of(told),
        "old" => Ok(Outcome::Old(number_of(told)?)),
        "repeat" => Ok(Outcome::Repeat(Bytes::from_vec(bytes_of(alloc, told)?))),
        _ => Err(CaseFault::Malformed),
    }
}

// A rollback with its code.
fn roll_of(digits: &str) -> Result<Outcome, CaseFault> {
    match u16::try_from(number_of(digits)?) {
        Ok(code) => Ok(Outcome::Roll(code)),
        Err(_) => Err(CaseFault::Malformed),
    }
}
