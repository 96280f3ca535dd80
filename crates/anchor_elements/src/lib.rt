//! The elements of an area's anchors, each of which holds one segment, and how a segment is spelled in one.
//!
//!     length 2 | tag 1 | segment type 1 | next twin 10 | newest serial 8 | first child 10 .. | segment | zeros ..
//!
//! `read_element` says what stands at a pointer, `put_segment` lets an element say a segment.
#![tactic(auto)]

mod element;
mod fault;
mod pointer;
mod saying;
mod spelling;

pub use element::{
    First, Said, content_length, has_serial, interval_at, is_child_of, read_element,
};
pub use fault::AnchorFault;
pub use pointer::Pointer;
pub use saying::{Saying, put, put_segment};
