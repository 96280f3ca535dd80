//! The intervals of an area, and the elements that tile them.
//!
//! An area is a list of intervals of one size. `Interval` is one interval's bytes with the calls on
//! its elements, its head, control's numbers and sequential slots. `Intervals` is what holds an
//! area's intervals; `MemoryIntervals` holds them in memory.
#![tactic(auto)]

mod elements;
mod head;
mod interval;
mod intervals;
mod memory;
mod numbers;

pub use head::Head;
pub use interval::Interval;
pub use intervals::{GetFault, Intervals, Shape};
pub use memory::MemoryIntervals;

/// There is no memory.
pub type Memory = std::alloc::AllocError;
