//! Which intervals of a data set an area has.

/// The intervals of an area: the first `count` of a data set, of `size` bytes each.
#[derive(Clone, Copy)]
pub struct Extent {
    /// The number of its data set.
    pub set: u16,

    /// The size of an interval.
    pub size: u16,

    /// How many there are.
    pub count: u64,
}
