//! What the bytes of an area stand for, and how a commit changes it.
//!
//!     intervals  --HasState-->  roots of each anchor, with their sequential lists, and the two ends
//!
//! An anchor keeps of a root's sequential list its newest serial alone; the list is read from there down, serial by
//! serial, as long as serials are kept. `store_all` puts the changed anchors of an area into its intervals, and
//! `append_all` its sequential inserts: what the intervals stand for then is the state with these changes. Nothing here
//! knows where the intervals are held. An area stands for one state.
#![tactic(auto)]

mod appending;
mod finding;
mod keys;
mod laws;
mod place;
mod roots;
mod storing;

pub use appending::append_all;
pub use laws::{
    a_purge_moves_begin, an_area_has_one_state, bytes_that_agree_stand_for_the_same,
    changed_anchors_are_those_of_the_databases, states_follow_the_entries,
};
pub use place::Place;
pub use storing::store_all;
