//! The texts of the databases and of the log, read from a site and sent to its output.
//!
//! `show` restarts and sends the text of the databases; `log` reads the log's groups one after another and sends the
//! text of each. Both write nothing: of the data sets a crash leaves what it might have left before, and of the text a
//! first part.
#![tactic(auto)]

mod databases;
mod groups;
mod telling;

pub use databases::show;
pub use groups::log;
