//! Writes that count whole or not at all: the bytes go behind a closed gate, and the gate is opened last.
//!
//!     gate | body ..
//!
//! A gate is a byte of a data set; what stands behind it counts where it is 1. The order is
//!
//! 1. `shut`: a sync, and where the gate is open, 0 is written there and synced. A gate that is there and isn't open
//!    isn't written again, since a byte that is written may hold anything until the next sync.
//! 2. `put`, as often as there are pieces: nothing is synced between them.
//! 3. `finish`: a sync, so that every crash leaves the body.
//! 4. `open`: 1 is written to the gate alone, and synced.
//!
//! `write` does 2 to 4 with a body that is at hand. Each call says what a crash leaves at every moment of it: before 4
//! the gate as it was, and from then on the body whole behind it.
#![tactic(auto)]

mod body;
mod gate;

pub use body::{finish, put, write};
pub use gate::{open, shut};
