//! The definitions file.
#![tactic(auto)]

mod areas;
mod dedbs;
mod exits;
mod msdbs;
mod segments;
mod whole;

pub use def_tables::DefsFault;
pub use whole::read_defs;
