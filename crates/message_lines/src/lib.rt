//! The lines of the messages, taken from a source one after another.
//!
//! `Lines` reads blocks of the part Messages, never a byte a call.
#![tactic(auto)]

mod lines;

pub use lines::{LineFault, Lines};
