//! The segments of the main storage databases, by key.
#![tactic(auto)]

mod heads;
mod keyed;
mod segments;
mod settling;
mod staged;
mod staging;
mod store;
mod table;

pub use staged::{Staged, VerifyFault};
pub use store::MsdbStore;
