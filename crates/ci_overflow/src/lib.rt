//! Room for elements in the intervals of an area, in a fixed order.
//!
//!     control | unit of work 0 | unit of work 1 .. | sequential .. | independent overflow ..
//!               base .. dependent overflow ..
//!
//! An anchor is a base interval. The units of work share the independent overflow intervals: each of
//! these is in the list of one unit of work or in the free chain. A list begins at the link of its
//! unit's first base interval, the free chain at control's last number, and 0 ends both. The owner in
//! an interval's head tells its list: the number of the unit of work plus 1, or 0 in the free chain.
//! An interval joins a list at its front. Intervals in the free chain are empty.
//!
//! `find_room` and `give_back` keep the lists so (`IsInOrder`). After a fault the object that holds the
//! area is thrown away.
#![tactic(auto)]

mod before;
mod freed;
mod joined;
mod known;
mod places;
mod reading;
mod room;
mod seen;
mod tried;

pub use freed::{give_back, give_back_seen};
pub use known::SeenFull;
pub use room::{find_room, find_room_seen};
pub use seen::SeenLinks;

/// Why a call on an area's elements gives none. The object that holds the area is then thrown away.
#[derive(Clone, Copy, PartialEq, Eq)]
pub enum SpaceFault {
    /// This interval is at fault (`IsAtFault`): its bytes are no interval, or not of the kind of its
    /// place; a link in it leads to no interval of the link's list, or on and on back to it; it is
    /// control, and counts another number of independent overflow intervals than there are; its owner
    /// is that of the free chain, and it isn't empty; its owner is no unit of work that has base
    /// intervals, or one whose list doesn't hold it.
    ///
    /// It need not be at fault in two cases: `give_back` found no used element at the place that it was
    /// given, or `find_room` was given a length that not even an empty interval has room for.
    Damaged(u64),

    /// What holds the intervals failed. Its count of faults rose.
    Failed,

    /// There is no memory.
    Memory,
}
