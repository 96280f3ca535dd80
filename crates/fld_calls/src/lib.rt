//! Field search arguments: read and written as bytes, and tried on a segment.
//!
//!     field name 8 | status 1 | operation 1 | operand length 2 | operand .. | connector 1
//!
//! The connector is `*` where another argument follows, and a blank at the last.
//!
//! | Operation | Byte |
//! |---|---|
//! | field equal, greater, greater or equal, less, less or equal, not equal to the operand | E G H L M N |
//! | add to the field, subtract from it, put in its place | `+` `-` `=` |
//!
//! An argument that is tried is answered a letter: the first of these that applies, or a blank.
//!
//! | Letter | Where |
//! |---|---|
//! | A | the operation is none of these |
//! | H | no field has that name |
//! | A | `+` or `-` on characters |
//! | C | a change of the key, the first field |
//! | B | the operand is longer than the field of characters, or isn't an optional `-` and 1 to 31 digits |
//! | E | the field isn't a number, which `=` doesn't ask |
//! | D | the comparison is false |
//! | G | the result doesn't fit the field |
//!
//! The letters and their order are this project's profile, as are the two length bytes and the operand as a text.
#![tactic(auto)]

mod arguments;
mod field;
mod layout;
mod operand;
mod operation;
mod settling;
mod trying;

pub use arguments::{Fsa, FsaFault, LentFsa, SettleFault};
pub use layout::{append_fsa, read_list, write_list};
pub use settling::settle_list;
pub use trying::{try_fsas, try_list};
