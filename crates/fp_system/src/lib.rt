//! All that the program does, over any source and any site.
#![tactic(auto)]

mod acting;
mod commands;
mod top;

pub use command_tasks::{Status, fault_text};
pub use top::ims;
