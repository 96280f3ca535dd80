//! What a command is to do: the task that the parts of the source are, or the answer that is given instead.
#![tactic(auto)]

mod parts;
mod status;
mod texts;

pub use parts::{Setup, Task, read_task};
pub use status::{Status, fault_text};
