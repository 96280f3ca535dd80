//! The installation's exits: stored functions that send a key to an anchor and a transaction to a balancing group.
//!
//! An exit is a boxed function that is kept beside a fact: on every key, or every name, and every number of places in
//! its range it gives the number of its kind. So whoever calls it through `Spreader` or `Router` knows the number, and
//! whoever makes one proves the fact. `functions` has one plain function for each kind and each use; the boxes are
//! made where the program begins.
#![tactic(auto)]

mod exits;
mod functions;
mod router;
mod spreader;

pub use exits::Exits;
pub use functions::{fold_group, fold_place, range_group, range_place};
pub use router::{Router, Routing};
pub use spreader::{Spreader, Spreading};
