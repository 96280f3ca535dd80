//! The roots of an anchor of an area, each with its whole sequential list.
//!
//!     intervals  --load-->  roots with their newest serials  --read_down-->  roots with their lists
//!
//! Nothing here knows where the intervals are held, and nothing changes them.
#![tactic(auto)]

mod lists;
mod reading;
mod types;

pub use reading::read_anchor;
