//! What the lines of scripts are made of: tokens, the parts that statements have, and the names in them, looked up in the
//! definitions.
//!
//!     token      = word | number | text | "#" digit | "IO." word | one of ( ) = + - * &
//!     operand    = number | text | "#" digit | "IO." field | "STATUS" | "FSAS" | variable
//!     ssa        = segment [ "(" operand ")" ]  |  "KEY(" operand ")" on a main storage database
//!     fsa        = field op operand
//!
//! Each reading gives a part, or why the line that it stands in is none (`LineFault`). What statements are made of these
//! says `txn_lang`. The definitions are in `specs/`.
#![tactic(auto)]

mod fault;
mod lookups;
mod parts;
mod token;
mod tokens;
mod written;

pub use fault::LineFault;
pub use lookups::{are_known, db_of, get_ssas, isrt_fields, isrt_ssas};
pub use parts::{
    comparison_at, count_at, fields_in, fsas_in, is_word, key_at, operand_at, operands_in,
    operation_at, ssas_in, variable_at, word_at,
};
pub use token::Token;
pub use tokens::{tokens_of, unblanked};
pub use written::WrittenSsa;
