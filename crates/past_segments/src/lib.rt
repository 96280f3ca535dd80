//! The segments of a main storage database at every place of the log.
//!
//! Of each key the values are kept that it had, each with the place from which it stands. Places count entries: the
//! state at a place is the one before the entry there. A value at a place is found by halving, and a change adds one
//! value, so neither costs more where the log is longer, but for a logarithm.
#![tactic(auto)]

mod laws;
mod past;
mod slot;

pub use laws::{a_settled_database_stays, what_is_not_late_is_settled};
pub use past::PastSegments;
