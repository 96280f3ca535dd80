//! Areas with their log over a site in memory, one step after another: customers in two areas are changed, sealed,
//! written, checkpointed, purged, and found again by a restart.
#![tactic(auto)]

mod bank;
mod bench;
mod changes;
mod logging;

pub use bench::{Bench, Came, Ended, Named, Step, let_go};
pub use changes::Change;
