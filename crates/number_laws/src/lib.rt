//! That a numbered message counts once, however often it is sent. Nothing here is run: the function has an empty body,
//! and its contract is the law.
#![tactic(auto)]

mod laws;

pub use laws::a_number_is_used_once;
