//! The interleaved system: regions that run transactions side by side, one turn after another.
#![tactic(auto)]

mod acting;
mod answering;
mod asking;
mod committing;
mod did;
mod draining;
mod ending;
mod engine;
mod locking;
mod numbering;
mod reading;
mod refusing;
mod sealing;
mod stepping;
mod stop;
mod taking;

pub use did::Did;
pub use stepping::{Core, Started};
pub use stop::Stop;
