//! Schedules: which event comes when.
//!
//!     schedule = tokens between separators                   at most 32,000,000 bytes and 1,000,000 tokens
//!     token    = "IN" | "LOG" | "OUT" | "CKPT" | "R" region | "PURGE/" area "/" count
//!     region   = a number from 1 to the number of regions, without leading zeros
//!     area     = the name of an area that has a sequential part
//!     count    = a number from 1 to 1,000,000,000, without leading zeros
//!
//! Separators are blanks, tabs, newlines and bytes 13, any number of them. An empty schedule has no events.
#![tactic(auto)]

mod events;
mod fault;
mod tokens;
mod whole;

pub use fault::ScheduleFault;
pub use whole::read_events;
