//! What a checkpoint keeps.
use balancing::Lasts;
use fp_model::{List, Msdb};

/// Where a checkpoint stands.
#[derive(Clone, Copy)]
pub struct Place {
    /// Its number, which rises by 1 from one checkpoint to the next.
    pub number: u64,
    /// The place of a gate in the log.
    pub at: u64,
    /// How many entries stand before that gate.
    pub count: u64,
}

/// A checkpoint that was read.
#[derive(Drop)]
pub struct Loaded {
    pub number: u64,
    /// The place of a gate in the log.
    pub at: u64,
    /// How many entries stand before that gate.
    pub count: u64,
    pub msdbs: List<Msdb>,
    /// Its format, 1 or 2.
    pub format: u8,
    /// The last number of each terminal; none in format 1.
    pub lasts: Lasts,
}
