//! Elements in the order of their keys: where a key stands among them, and what searches and edits make of them.
//!
//! A function here does nothing; its contract is a law.
#![tactic(auto)]

mod laws;

pub use laws::{a_search_finds_what_stands_at_its_place, an_edit_keeps_the_order};
