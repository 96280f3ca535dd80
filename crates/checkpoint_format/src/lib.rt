//! Checkpoints as bytes, both ways.
//!
//! | Part | Bytes |
//! |---|---|
//! | gate | 1: what stands behind it is a checkpoint where this is 1 |
//! | letters | 8: `IMSFPCK`, and the digit of the format, 1 or 2 |
//! | number | 8: it rises by 1 from one checkpoint to the next |
//! | place | 8: of a gate in the log; at most 2^62 |
//! | count | 8: of the entries before that gate; at most the place |
//! | number of databases | 1 |
//! | each database | length of a segment 2; number of segments 4; the segments, keys ascending |
//! | number of terminals | 8, in format 2 alone |
//! | each terminal | its name 8; its last number 8; length 2 and reply line; names ascending |
//!
//! What stands behind these bytes means nothing. `body` writes what stands behind the gate, `read` reads it, `head`
//! reads the letters and the number alone.
#![tactic(auto)]

mod checkpoint;
mod laws;
mod reading;
mod terminals;
mod writing;

pub use checkpoint::{Loaded, Place};
pub use laws::checkpoints_are_lawful;
pub use reading::{head, read};
pub use writing::body;
