//! What a change of an anchor's roots is, seen in the two lists alone: whether they are the same, differ in one
//! segment, or one has one segment more than the other; and where.
#![tactic(auto)]

mod differing;
mod gaining;

pub use differing::{Difference, compare_nodes, compare_root, compare_roots, compare_row};
pub use gaining::{Gain, gain_of_roots, gain_of_row};
