//! The intervals of one area as a call changes them, over a pool and a site, and what is staged of them: each changed
//! interval in the pool, with its item.
//!
//!     a call  -->  Staging: those that it put, else the pool, else the data set
//!     what it put  -->  stage_changed: Image, Range or nothing; staged in the pool
#![tactic(auto)]

mod changing;
mod extent;
mod imaging;
mod items;
mod looking;
mod staging;

pub use changing::stage_changed;
pub use extent::Extent;
pub use imaging::{clear, is_imaged, make_room, none_imaged, note_all};
pub use items::item_of;
pub use looking::interval_at;
pub use staging::{Staging, rest};
