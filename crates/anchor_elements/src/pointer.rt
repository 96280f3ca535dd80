//! Pointers to elements.

/// A place in an area: the number of an interval and the place of an element in it. Zeros are none.
pub type Pointer = (u64, u16);
