//! What follows from the contract of the top call: laws of one call, and of any number of calls and stops.
//!
//! The functions of `laws` and `ways` do nothing; their contracts are the laws. Those of `lives` call `ims` over a site in
//! memory, and show by its contract alone what that site goes on holding.
#![tactic(auto)]

mod laws;
mod lives;
mod ways;

pub use laws::{
    a_call_keeps_what_was_answered, a_log_at_rest_holds_its_entries, a_number_counts_once,
    a_run_that_is_done_answers_each_line, a_sound_log_is_due_its_lines, at_most_one_answer_is_due,
    runs_that_are_done_are_one, what_was_answered_is_held,
};
pub use lives::{define_and_run, define_and_send_again, run_and_stop, run_once};
pub use ways::a_way_is_determined;
