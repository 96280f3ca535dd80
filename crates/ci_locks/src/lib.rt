//! The locks that regions hold, and the requests that wait.
//!
//! A resource is one key of a main storage database or one anchor. Regions share it, or one holds it alone. A region
//! that can't have a lock waits for its holders, unless they wait for that region in turn.
#![tactic(auto)]

mod holding;
mod locks;
mod search;
mod sets;
mod state;

pub use locks::{Grant, Locks};
