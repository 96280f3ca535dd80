//! Every line of the messages has just one entry, and those of a terminal have theirs in the order of their lines.
//!
//! The function does nothing; its contract is the law.
#![tactic(auto)]

mod laws;

pub use laws::every_line_is_answered;
