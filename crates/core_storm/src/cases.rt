//! The cases of a storm.
//!
//!     file   = head { block }
//!     block  = "=== databases " name newline text | "=== scripts " name newline text
//!            | "=== case " databases " " scripts newline definitions { "--- " part newline text }
//!     parts  = lines events dids log sent databases
//!
//! The definitions of a case are its own, without databases, and behind them those that it names.

use crate::telling::{dids_text, hexadecimal};
use core_runs::{Fault, Found, Task, find};
use fp_exits::Exits;
use std::alloc::{AllocError, Global};

/// Texts of databases and scripts, by what stands in the heads of their blocks.
#[derive(Drop)]
pub(crate) struct Texts<'a> {
    known: Vec<(&'a str, &'a str)>,
}

impl<'a> Texts<'a> {
    pub(crate) fn new(alloc: Global) -> Texts<'a> {
        Texts {
            known: Vec::new(alloc),
        }
    }

    /// Makes a text known.
    pub(crate) fn add(&mut self, head: &'a str, text: &'a str) -> Result<(), AllocError> {
        Ok(self.known.push((head, text))?)
    }

    // The text of a kind and a name; none where it isn't known.
    fn of(&self, kind: &str, name: &str) -> &'a str {
        for (head, text) in self.known.iter() {
            if head.strip_prefix(kind) == Some(name) {
                return text;
            }
        }
        ""
    }
}

/// A run, and what is wanted of it. No text has the newline of its last line.
#[derive(Drop)]
pub(crate) struct Case<'a> {
    definitions: String,
    scripts: String,
    lines: String,
    events: &'a str,
    dids: &'a str,
    log: &'a str,
    sent: &'a str,
    databases: &'a str,
}

impl<'a> Case<'a> {
    /// The case of a block; `None` where it hasn't the form of one.
    pub(crate) fn of(
        alloc: Global,
        texts: &Texts<'_>,
        names: &str,
        body: &'a str,
    ) -> Result<Option<Case<'a>>, AllocError> {
        let Some((databases, scripts)) = names.split_once(' ') else {
            return Ok(None);
        };
        let databases = texts.of("databases ", databases);
        let (top, rest) = body.split_once("\n--- ").unwrap_or((body, ""));
        let (lines, rest) = first_part(rest);
        let (events, rest) = first_part(rest);
        let (dids, rest) = first_part(rest);
        let (log, rest) = first_part(rest);
        let (sent, rest) = first_part(rest);
        let (databases_found, _) = first_part(rest);
        Ok(Some(Case {
            definitions: format!(in alloc; "{top}\n{databases}\n")?,
            scripts: String::from_str(alloc, texts.of("scripts ", scripts))?,
            lines: format!(in alloc; "{lines}\n")?,
            events,
            dids,
            log,
            sent,
            databases: databases_found,
        }))
    }

    /// How many events there are before the drain.
    pub(crate) fn events(&self) -> u64 {
        self.events.split_ascii_whitespace().count() as u64
    }

    /// The first part of what comes of the case that isn't as wanted, if there is one.
    pub(crate) fn difference(
        &self,
        alloc: Global,
        exits: &Exits,
    ) -> Result<Option<String>, AllocError> {
        let task = Task {
            definitions: self.definitions.as_bytes(),
            scripts: self.scripts.as_bytes(),
            schedule: self.events.as_bytes(),
            messages: self.lines.as_bytes(),
            numbered: false,
        };
        match find(alloc, &task, exits) {
            Ok(found) => self.first_other(alloc, &found),
            Err(Fault::Memory) => Err(AllocError),
            Err(fault) => Ok(Some(format!(in alloc; "{fault:?}")?)),
        }
    }

    // The first part that isn't as found.
    fn first_other(&self, alloc: Global, found: &Found) -> Result<Option<String>, AllocError> {
        let dids = dids_text(alloc, &found.dids)?;
        let log = hexadecimal(alloc, found.log.as_slice())?;
        let name = if !is_text(dids.as_bytes(), self.dids) {
            "dids"
        } else if !is_text(log.as_bytes(), self.log) {
            "log"
        } else if !is_text(found.sent.as_slice(), self.sent) {
            "sent"
        } else if !is_text(found.databases.as_slice(), self.databases) {
            "databases"
        } else {
            return Ok(None);
        };
        Ok(Some(String::from_str(alloc, name)?))
    }
}

// The text of the first part without its name, and the parts behind it.
fn first_part(parts: &str) -> (&str, &str) {
    let (part, rest) = parts.split_once("\n--- ").unwrap_or((parts, ""));
    let (_, text) = part.split_once('\n').unwrap_or((part, ""));
    (text, rest)
}

// Whether bytes are a text and a newline.
fn is_text(bytes: &[u8], text: &str) -> bool {
    match bytes.split_last() {
        Some((last, front)) => *last == b'\n' && front == text.as_bytes(),
        None => text.is_empty(),
    }
}
