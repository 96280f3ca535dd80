//! A bounded pool of the intervals of a site's areas.
#![tactic(auto)]

mod cell;
mod clean;
mod fault;
mod pool;
mod reading;
mod tree;

pub use cell::{Cell, Waiting};
pub use fault::PoolFault;
pub use pool::{Owed, Pool};
