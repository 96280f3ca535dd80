//! Making storage anew, and restarting from it.
//!
//! At this stage the storage is the log alone. `define` makes it, without entries. `restart` syncs it, compares its
//! front, reads the groups up to the first gate that isn't open, and puts their segments over those that the
//! definitions load, and the last number of each terminal. It writes nothing, and keeps no list of groups or entries.
//! `whole_db` copies the state out.
#![tactic(auto)]

mod begun;
mod defining;
mod fault;
mod fitting;
mod numbers;
mod reading;
mod restarting;
mod whole;

pub use defining::define;
pub use fault::RestartFault;
pub use restarting::{Parts, restart};
pub use whole::whole_db;
