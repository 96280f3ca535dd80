//! The queues of the balancing groups, and the terminals that wait for a reply; the last number of each terminal.
//!
//! A message goes to the group that the stored router picks, and leaves its queue first in, first out. A terminal has
//! one message under way at most: from the moment that it is queued the terminal is busy, until it is answered.
#![tactic(auto)]

mod groups;
mod lasts;
mod queues;

pub use groups::group_count;
pub use lasts::Lasts;
pub use queues::{Offer, Queues};
