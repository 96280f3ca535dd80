//! An auditor of the log: it replays the entries one after another by the rules of a serial history, and says which is
//! the first that isn't legal.
#![tactic(auto)]

mod auditor;
mod form;
mod kept;
mod laws;
mod loading;
mod requests;
mod so_far;
mod verdict;

pub use auditor::Auditor;
pub use laws::{
    an_audit_finds_the_first_illegal_entry, entries_found_legal_are_a_serial_history,
    no_serial_history_has_an_illegal_entry,
};
