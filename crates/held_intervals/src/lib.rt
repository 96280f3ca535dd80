//! The intervals of an area, held by a call while it works: each is read once, and each that it changes is put once, at
//! the end.
//!
//!     a call  -->  Held: those changed, else those read  -->  what holds the area
#![tactic(auto)]

mod held;
mod settling;

pub use held::Held;
pub use settling::put_all;
