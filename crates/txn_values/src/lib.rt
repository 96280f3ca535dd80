//! Values of scripts: texts as words and numbers, the fields of segments as texts, and texts as the bytes of fields.
#![tactic(auto)]

mod fields;
mod lent;
mod stop;
mod values;

pub use fields::{Layout, empty_segment, field_bytes, field_of, fill_field, layout_of, value_text};
pub use lent::OperandText;
pub use stop::Stop;
pub use values::{compares, operated, without_blanks, word_of};
