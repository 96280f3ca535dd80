//! The calls of one transaction to the main storage databases: what each is answered, which look without a hold, which
//! key each needs exclusively first, and what the transaction keeps to itself until it commits.
#![tactic(auto)]

mod calls;
mod database;
mod letters;
mod reply;
mod replying;
mod segment_looks;
mod work;

pub use calls::{database_of, looks};
pub use database::Database;
pub use segment_looks::SegmentLooks;
pub use work::MsdbWork;
