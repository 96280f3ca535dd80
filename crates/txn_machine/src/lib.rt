//! Runs scripts: a program is a script on its way, and gives one call at a time.
#![tactic(auto)]

mod calls;
mod doing;
mod known;
mod operands;
mod place;
mod program;
mod shown;

pub use program::{Next, Program};
