//! The sync point of a transaction, run again at a place of the log: its queue of deferred calls is settled at that
//! place, each call on what those before it left, and is taken back where one of them fails.
#![tactic(auto)]

mod back;
mod call;
mod fault;
mod one;
mod queue;
mod settling;

pub use fault::QueueFault;
pub use settling::{settle, try_settle};
