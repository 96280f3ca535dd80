//! The calls of one transaction to the data entry databases: what each is answered, which lock it needs first, and what
//! the transaction keeps to itself until it commits.
#![tactic(auto)]

mod anchor_locks;
mod anchors;
mod arguments;
mod calls;
mod edits;
mod get;
mod insert;
mod place;
mod randomizer;
mod ready;
mod search;
mod work;

pub use anchor_locks::AnchorLocks;
pub use calls::answer;
pub use ready::DedbReady;
pub use work::DedbWork;
