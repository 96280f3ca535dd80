//! The calls of one transaction: what each is answered, which lock it needs first, and what the transaction keeps to
//! itself until it commits. Calls to main storage databases are answered on the committed segments; those to data entry
//! databases on the roots of the anchors that it holds, as it has changed them.
#![tactic(auto)]

mod answering;
mod notes;
mod region_locks;
mod stored_looks;
mod work;

pub use answering::{Ready, answer};
pub use region_locks::RegionLocks;
pub use work::{Parts, Work};
