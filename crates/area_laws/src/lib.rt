//! What a commit, a Purge and the start make of areas, and what they make of the databases: the same.
//!
//!     intervals  --HasState-->  state of an area  <--state_of--  databases
//!
//! `area_states` says what calls make of the state of an area. The laws here say that each such state is what the
//! databases behind the same commit, Purge or start have in that area. So whoever stages an area takes from the calls
//! what its intervals stand for, and from here that these are the new databases. The functions do nothing; their
//! contracts are the laws.
#![tactic(auto)]

mod laws;

pub use laws::{
    a_commit_is_that_of_the_databases, a_full_part_is_that_of_the_databases,
    a_purge_is_that_of_the_databases, an_anchor_lies_in_one_area,
    an_area_that_nothing_is_of_keeps_its_state, changed_anchors_keep_the_ends,
    changes_that_fit_keep_lists, changes_that_fit_may_be_stored, databases_have_each_area,
    formatted_areas_stand_for_the_start, good_definitions_give_places, inserts_that_fit_may_be_put,
    roots_are_in_order, roots_lie_where_their_keys_send_them,
};
