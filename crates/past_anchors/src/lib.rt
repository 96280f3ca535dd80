//! The data entry databases at the present place of the log, by plain lists: what a commit makes of them, which area has
//! no room for one, and what a Purge takes away.
#![tactic(auto)]

mod anchors;
mod area;
mod changing;
mod full;
mod numbering;
mod purging;
mod roots;
mod start;

pub use anchors::Anchors;
pub use full::Full;
