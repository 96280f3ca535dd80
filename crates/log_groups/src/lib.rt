//! The log: groups of entries, each behind a gate, so that a group counts whole or not at all.
//!
//! | Part | Bytes |
//! |---|---|
//! | front | gate 1, `IMSFPLG` 7, the digit of the format 1, length 4 and the definitions, length 4 and the scripts |
//! | group | gate 1, length of the body 8, body: one or more entries |
//! | end | a gate that isn't 1; bytes behind it mean nothing |
//!
//! A group counts where its gate is 1. Between calls (`IsAtRest`) the last gate is closed, in the data set and in
//! all that a crash may leave. `seal` writes length, body and next gate, syncs, opens the gate, syncs. `shut` closes
//! the front's gate. `make` does so too, writes the rest of the front and the first gate, syncs, opens the front's
//! gate, syncs. After a failure the log must be opened again.
#![tactic(auto)]

mod buffer;
mod fault;
mod front;
mod gated;
mod group;
mod log;
mod making;
mod opening;

pub use fault::{LogFault, SealFault};
pub use front::Front;
pub use group::Group;
pub use log::Log;
