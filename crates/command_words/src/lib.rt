//! The words behind the program's name, and the command that they are.
//!
//!     words   = command folder
//!     command = "define" | "run" | "show" | "log" | "migrate" | "audit"
//!     folder  = a word that has a byte and doesn't begin with "-"
//!
//! The words are read by `clap`, as one command with a subcommand for each name. It is asked of words alone that it has
//! no reading of its own for: none that is empty or begins with a minus sign, and not more than three.
#![tactic(auto)]

mod app;
mod words;

pub use words::{Command, command_of};
