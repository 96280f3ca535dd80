//! The drain ends: each of its rounds leaves less to do, whatever befalls its turns.
//!
//! The functions do nothing; their contracts are the laws. `specs/Measure.antt` says how much a machine has left to do,
//! `specs/Live.antt` what the end needs of the rules and what each turn keeps besides the order, `specs/Rounds.antt`
//! what rounds are, and `specs/ProductGauge.antt` what transactions of this system may still do.
#![tactic(auto)]

mod any_rules;
mod product;

pub use any_rules::{
    a_drain_comes, a_round_leaves_less, counts_bound_the_work, nothing_waits_in_vain,
    the_drain_ends,
};
pub use product::{
    a_round_of_the_system_leaves_less, counts_bound_the_work_of_the_system,
    nothing_of_the_system_waits_in_vain, the_drain_of_the_system_ends,
    the_system_keeps_its_end_laws,
};
