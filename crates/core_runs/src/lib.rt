//! Runs of the interleaved system over a site and a source in memory: what each event did, what was sent, and what the
//! log and the databases hold then.
#![tactic(auto)]

mod fault;
mod running;
mod setup;
mod telling;

pub use fault::Fault;
pub use running::{Found, begun, core_of, find, is_event, run, source_of, step};
pub use setup::{Task, definitions, scripts};
pub use telling::{databases_text, log_text};
