//! The storage that the product writes to, as a trait.
#![tactic(auto)]

mod site;

pub use site::{Failed, Site};
