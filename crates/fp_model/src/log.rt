//! What the log records of each transaction.

use fp_lists::{Bytes, List};

/// A part of a database as it is after the entry.
#[derive(Clone, PartialEq, Eq, Drop)]
pub enum Item {
    /// A segment of a main storage database; no bytes: the key was deleted.
    Segment {
        msdb: u8,
        key: Bytes,
        bytes: Bytes,
    },
    /// A whole control interval of the data set of an area.
    Image {
        set: u16,
        ci: u64,
        bytes: Bytes,
    },
    /// Some bytes of a control interval, from a place in it on.
    Range {
        set: u16,
        ci: u64,
        at: u16,
        bytes: Bytes,
    },
}

/// How a transaction ended.
#[derive(PartialEq, Eq, Drop)]
pub enum Outcome {
    /// Committed.
    Done,
    /// A verify or a change failed at the sync point: the place of the call in the queue and of the field
    /// search argument in the call, both from 0 (65,535 where the segment is absent), and the field found.
    Verify {
        call: u32,
        fsa: u16,
        found: Bytes,
    },
    /// The script ended with this rollback code.
    Roll(u16),
    /// The sequential part of this data set had no room for n more.
    SeqFull {
        set: u16,
        begin: u64,
        end: u64,
        n: u64,
    },
    /// A cycle of regions, each waiting for the next; the region that was refused is the first.
    Deadlock(Bytes),
    /// A device failed.
    Device,
    /// There was no memory.
    Memory,
    /// The line was no message, or named no script.
    Unknown,
    /// The message's number is below its terminal's last one, which this is.
    Old(u64),
    /// The message's number is its terminal's last one; the reply line of that message, without its newline.
    Repeat(Bytes),
    /// No transaction: from here on lines are read in format 2, in which messages may have numbers.
    Format,
    /// No transaction: the sequential part of this data set begins n serials later, at most at its end.
    Purge {
        set: u16,
        n: u64,
    },
}

/// An entry of the log.
#[derive(PartialEq, Eq, Drop)]
pub struct Entry {
    /// How many entries stood as the transaction's last try began; its own place where no region makes it.
    pub from: u64,
    pub outcome: Outcome,
    /// The message line; empty in a Purge and a Format.
    pub line: Bytes,
    pub reply: Bytes,
    /// For each unheld look at a main storage database, how many entries stood.
    pub notes: List<u64>,
    pub items: List<Item>,
}
