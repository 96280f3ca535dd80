//! Two sites for tests: one in memory that they stop at any call, and one over any site, that fails by data set and
//! call.
#![tactic(auto)]

mod call;
mod failing;
mod faults;
mod memory;
mod past;
mod replay;
mod sets;
mod snapshot;

pub use failing::{FailingSite, Kind};
pub use memory::MemorySite;
pub use snapshot::Snapshot;
