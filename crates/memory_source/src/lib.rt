//! A source in memory, which tests make fail at any call.
#![tactic(auto)]

mod failures;
mod memory;
mod portion;

pub use memory::MemorySource;
