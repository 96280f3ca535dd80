//! One transaction of a log, run again alone: its script from the beginning, each call answered at the place of its
//! entry or of a note, and its sync point.
#![tactic(auto)]

mod alone;
mod replaying;
mod roots;
mod running;
mod settling;

pub use alone::Alone;
pub use replaying::replay;
