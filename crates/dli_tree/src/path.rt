//! Paths: the steps that lead from the roots of an anchor to a segment.

use fp_model::{Bytes, List};

/// A step of a path: to a root, to a child of the segment above, or to a sequential dependent of a root.
#[derive(Clone, PartialEq, Eq, Drop)]
pub struct Step {
    /// The number of the segment type in its database.
    pub segment: u8,
    /// The key of a direct segment. Empty for a sequential one.
    pub key: Bytes,
    /// The serial of a sequential segment. 0 for a direct one.
    pub serial: u64,
}

/// The steps to a segment, from its root down.
#[derive(Clone, PartialEq, Eq, Drop)]
pub struct Path {
    pub steps: List<Step>,
}
