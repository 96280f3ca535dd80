//! The commit step: a transaction's queue is settled, its entry appended to the log, and its changes published, all at
//! once or not at all.
#![tactic(auto)]

mod appending;
mod committing;
mod naming;

pub use appending::{append_beside, refusal_room};
pub use committing::{Cause, Draft, commit};
pub use naming::resources;
