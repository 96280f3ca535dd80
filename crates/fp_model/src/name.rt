//! Names of databases, segments, fields, areas, terminals and transactions.

/// 1 to 8 bytes of A to Z and 0 to 9, the first a letter, then blanks (byte 32) up to 8 bytes.
#[derive(Clone, Copy, Debug, PartialEq, Eq, PartialOrd, Ord)]
pub struct Name(pub [u8; 8]);
