//! Laws of machines and runs of this system: who is busy, who holds and asks, that what is held is locked, which
//! messages are fresh, that a message takes effect at most once, and that events determine a run. One run is computed,
//! so that they speak of something.
//!
//! The functions do nothing; their contracts are the laws.
#![tactic(auto)]

mod calls;
mod effects;
mod machines;
mod sample;
mod schedules;

pub use calls::what_is_held_is_locked;
pub use effects::{a_message_has_one_line, a_message_takes_effect_once};
pub use machines::{
    a_terminal_is_busy_with_one_message, messages_stay_fresh, only_active_regions_hold_or_ask,
    sealed_entries_stand, what_is_wanted_is_not_held,
};
pub use sample::a_run;
pub use schedules::{
    a_turn_is_determined, events_and_a_search_determine_a_run, events_determine_a_run,
    every_event_has_a_turn,
};
