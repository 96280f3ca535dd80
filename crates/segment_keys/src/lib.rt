//! Sets of segments of main storage databases, each named by its database and its key.
#![tactic(auto)]

mod keys;

pub use keys::{Keys, SegmentKey};
