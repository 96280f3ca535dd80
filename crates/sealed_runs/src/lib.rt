//! The log that a run of the table of turns leaves: it is sound behind each step, and in the middle of one that seals.
//!
//! The functions do nothing; their contracts are the laws.
#![tactic(auto)]

mod logs;

pub use logs::{
    a_run_keeps_the_format, what_a_run_seals_is_sound, what_a_run_sends_is_sealed,
    what_a_step_leaves_is_sound,
};
