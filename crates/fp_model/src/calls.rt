//! Messages, the calls that a script makes, what it is answered, and what a transaction keeps to itself.

use crate::database::Root;
use crate::name::Name;
use fp_lists::{Bytes, List};

/// A message of one segment.
#[derive(PartialEq, Eq, Drop)]
pub struct Message {
    /// The terminal that waits for the reply.
    pub lterm: Name,
    /// The transaction that it asks for.
    pub tran: Name,
    /// 0 to 1,000 bytes from 32 to 126.
    pub text: Bytes,
    /// The whole line that it was read from.
    pub line: Bytes,
    /// The number that its terminal gave it, in a format that has numbers.
    pub number: Option<u64>,
}

/// Which segment a get looks for.
#[derive(Clone, Copy, PartialEq, Eq)]
pub enum Get {
    /// GU, and GHU with a hold: the first that is admitted.
    Unique,
    /// GN, and GHN with a hold: the first behind the position.
    Next,
    /// GNP, and GHNP with a hold: the first behind the position and below the parent.
    NextInParent,
}

/// A segment search argument: a type, and a key where it is qualified.
#[derive(Drop)]
pub struct Ssa {
    /// The number of the segment type in its database; 0 in a main storage database.
    pub segment: u8,
    pub key: Option<Bytes>,
}

/// A call to a database. A database number counts the main storage databases first.
#[derive(Drop)]
pub enum Call {
    /// GU, GN, GNP, and with `hold` GHU, GHN, GHNP.
    Get {
        get: Get,
        hold: bool,
        db: u8,
        ssas: List<Ssa>,
    },
    /// A field call: verifies and changes of one segment, given as field search arguments in bytes.
    Fld {
        db: u8,
        key: Bytes,
        fsas: Bytes,
    },
    /// Inserts a segment, the parents named by the first arguments and its type by the last.
    Isrt {
        db: u8,
        ssas: List<Ssa>,
        bytes: Bytes,
    },
    /// Replaces the segment that is held.
    Repl {
        db: u8,
        bytes: Bytes,
    },
    /// Deletes the segment that is held, with all below it.
    Dlet {
        db: u8,
    },
}

/// What a call is answered. A part that the call doesn't fill is 0 or empty.
#[derive(Drop)]
pub struct Answer {
    /// Two letters; two blanks where all is well.
    pub status: [u8; 2],
    /// The number of the segment type shown.
    pub segment: u8,
    /// The segment shown.
    pub bytes: Bytes,
    /// A field call's status letter for each of its field search arguments.
    pub letters: Bytes,
}

/// What a lock stands for.
#[derive(Drop)]
pub enum Resource {
    /// A key of a main storage database.
    Segment { msdb: u8, key: Bytes },
    /// An anchor of a data entry database: its base interval and its whole chain.
    Anchor { dedb: u8, anchor: u32 },
}

/// How a lock is held.
#[derive(Clone, Copy, PartialEq, Eq)]
pub enum Mode {
    Share,
    Exclusive,
}

/// A change of a main storage database that waits for the sync point.
#[derive(Clone, Drop)]
pub enum Deferred {
    Fld { msdb: u8, key: Bytes, fsas: Bytes },
    Repl { msdb: u8, bytes: Bytes },
    Isrt { msdb: u8, bytes: Bytes },
    Dlet { msdb: u8, key: Bytes },
}

/// An anchor whose roots a transaction has changed.
#[derive(Drop)]
pub struct AnchorChange {
    pub dedb: u8,
    pub anchor: u32,
    /// All roots of the anchor after the change.
    pub roots: List<Root>,
}

/// A sequential dependent that waits for the commit step to get its serial.
#[derive(Drop)]
pub struct SeqInsert {
    pub dedb: u8,
    pub anchor: u32,
    /// The key of its root.
    pub key: Bytes,
    pub bytes: Bytes,
}
