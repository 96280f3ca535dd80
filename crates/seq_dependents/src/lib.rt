//! The sequential dependents of an area: a circle of slots over its sequential intervals.
//!
//!     control   begin | end
//!     slot      serial 8 | previous serial of the same root 8 (0 for none) | segment
//!
//! Serials are given in order of entry, from 1. Those from `begin` to `end - 1` are kept. The slot of a
//! serial has the number that is the serial modulo the capacity, counted through the intervals, which
//! have as many slots as fit behind their first 32 bytes. This order is the project's profile.
//!
//! After a fault but `Full` the object that holds the area is thrown away.
#![tactic(auto)]

mod appending;
mod bounds;
mod control;
mod descending;
mod fault;
mod laws;
mod part;
mod purging;
mod reading;
mod slot;
mod writing;

pub use appending::append;
pub use bounds::read_ends;
pub use descending::read_down;
pub use fault::SeqFault;
pub use laws::{
    a_serial_has_one_segment, near_serials_have_different_slots, what_is_appended_is_held,
    what_is_kept_stays_held,
};
pub use purging::purge;
pub use reading::read;
