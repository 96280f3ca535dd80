//! The script language: a text is read as scripts, or refused with its first fault.
//!
//!     text       = line newline line newline ..            at most 1,000,000 bytes
//!     script     = "TRAN" name, and statements up to the next TRAN
//!     statement  = "SET" variable operand [ ( "+" | "-" | "*" | "&" ) operand ]
//!                | "IF" operand comparison operand, statements, [ "ELSE", statements, ] "END"
//!                | "REPEAT" count, statements, "END"  |  "BREAK"
//!                | "REPLY" operand ..  |  "ROLB" code
//!                | get database ssa ..  |  "FLD" database "KEY(" operand ")" ( field op operand ) ..
//!                | "ISRT" database ssa .. ( field "=" operand ) ..
//!                | "REPL" database ( field "=" operand ) ..  |  "DLET" database
//!     operand    = number | text | "#" digit | "IO." field | "STATUS" | "FSAS" | variable
//!     ssa        = segment [ "(" operand ")" ]  |  "KEY(" operand ")" on a main storage database
//!
//! Each statement line has a line to itself. Blank lines and those that begin with `*` are skipped. Tokens, and the parts
//! of statements, are read by `txn_tokens`. The definitions are in `specs/`, here and there; docs/MODEL.md, 'The script
//! language', says them in plain words.
#![tactic(auto)]

mod blocks;
mod fault;
mod laws;
mod line;
mod parsing;
mod reader;
mod scripts;
mod standing;
mod statements;

pub use fault::ScriptFault;
pub use laws::{a_text_has_one_meaning, definitions_have_byte_numbers, what_was_read_fits};
pub use parsing::parse;
pub use scripts::Scripts;
