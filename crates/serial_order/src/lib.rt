//! Every run of the table of turns is a serial history.
//!
//! The functions do nothing; their contracts are the laws. `specs/Laws.antt` says what they need of the functions
//! that calls, settling and purging are, `specs/Kept.antt` what each turn keeps.
#![tactic(auto)]

mod any_rules;
mod product;

pub use any_rules::{a_rest_is_kept, a_turn_keeps_the_order, every_run_is_serial};
pub use product::{
    a_purge_changes_its_area, a_turn_of_the_system_keeps_the_order, calls_look_at_no_ends,
    calls_look_at_what_is_held, calls_rely_on_what_is_held, every_run_of_the_system_is_serial,
    settling_changes_what_is_held, the_system_keeps_the_laws,
};
