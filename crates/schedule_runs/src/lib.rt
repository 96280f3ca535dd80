//! Runs a schedule on the core: its events one after another, then the drain, then the close.
#![tactic(auto)]

mod runs;
mod ways;

pub use runs::run_schedule;
pub use ways::a_way_is_a_run;
