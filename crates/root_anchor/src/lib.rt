//! The roots of an anchor, as the elements of an area hold them.
//!
//!     base interval          element of a root                element of a child
//!     root anchor point -->  next root | first child .. -->   next twin | first child ..
//!
//! A pointer is the number of an interval and a place in it. `load` follows the pointers from an anchor's root anchor
//! point, in hierarchical order, and meets no element twice. `store` gives an anchor other roots, in the elements that
//! it had and in new ones; `rewrite` puts the one element in which these differ from those that it has, or the one that
//! comes and the pointer to it.
#![tactic(auto)]

mod anchor;
mod building;
mod filling;
mod finding;
mod gaps;
mod holding;
mod laws;
mod loading;
mod newest;
mod places;
mod plan;
mod putting;
mod rewriting;
mod standing;
mod storing;
mod taking;
mod walk;

pub use anchor_elements::AnchorFault;
pub use laws::{
    a_chain_stays_with_its_elements, a_chain_that_stands_does_not_fail,
    a_newest_serial_that_is_set_is_there, a_root_at_a_place_is_that_of_the_chain,
    an_anchor_has_one_chain, an_element_has_one_segment, each_element_has_a_segment,
    one_interval_is_damaged,
};
pub use loading::load;
pub use newest::set_newest;
pub use places::{RootPlace, root_place};
pub use rewriting::rewrite;
pub use storing::store;
