//! Words, names and numbers of the texts that are read: schedules today.
//!
//! What each means is said once, in fp_model: `specs/Names.antt`, `specs/Texts.antt`, `specs/Messages.antt`.
#![tactic(auto)]

mod names;
mod numbers;

pub use names::{is_letter_or_digit, is_name, is_separator, name_in};
pub use numbers::digits_number;
