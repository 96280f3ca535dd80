//! The texts that the program is given, as a trait.
//!
//! A source has four parts and gives each piece by piece. `whole` takes a part to its end; it reads blocks, never a
//! byte a call.
#![tactic(auto)]

mod part;
mod source;
mod whole_part;

pub use part::Part;
pub use source::{Failed, Source};
pub use whole_part::{WholeFault, whole};
