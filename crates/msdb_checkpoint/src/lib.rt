//! Checkpoints of the main storage databases, written in turn to data sets 1 and 2.
//!
//! A checkpoint goes to the data set that has not the newest sure one, so that one stays open and unchanged while
//! another is written. `begin` makes its bytes; then each `step` does one thing:
//!
//! | Step | What it does |
//! |---|---|
//! | first | closes the gate of the data set |
//! | for each 65,536 bytes | writes them; nothing is synced between |
//! | behind the last | syncs |
//! | last | opens the gate and syncs: it is the newest sure one now |
//!
//! A step that fails gives the checkpoint up, as `forget` does; the next one goes to the same data set.
#![tactic(auto)]

mod checkpoints;
mod fault;
mod newest;
mod stages;

pub use checkpoint_format::Loaded;
pub use checkpoints::Checkpoints;
pub use fault::CkptFault;
pub use stages::{Stage, UnderWay};
