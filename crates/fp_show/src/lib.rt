//! The texts that `show` and `log` send.
//!
//!     databases = { "msdb " name " " segments newline { "  " fields newline } }
//!                 { "dedb " name newline { area newline } { anchor newline { segment newline } } }
//!     area      = "area " name " begin " serial " end " serial
//!     anchor    = "anchor " number                 only where it has roots; numbered within its database
//!     segment   = blanks name " " fields           two blanks for each level, a root having level 1
//!     fields    = field { " " field }
//!     field     = name "=" value
//!     value     = characters without the blanks behind them | number | "?" hexadecimal
//!
//!     group     = "group " number " entries " count newline { entry newline }
//!     entry     = place " from " place " notes " ( "-" | place { "," place } ) " " outcome " " line " => " reply
//!     outcome   = "DONE" | "VERIFY " call "." fsa " " ( "-" | hexadecimal ) | "ROLB " code
//!               | "SEQFULL " set " " begin " " end " " n | "DEADLOCK " region { "," region }
//!               | "DEVICE" | "MEMORY" | "UNKNOWN" | "OLD " last | "REPEAT" | "FORMAT 2" | "PURGE " set " " n
//!
//! Segments come in hierarchical order. In characters and in a message line a period stands for a byte outside 32 to
//! 126; a line or a reply without bytes is "-". Hexadecimal is in lower case. What is numbered is numbered from 0.
//!
//! The pieces, from `put_msdb_head` to `put_entry_line`, let a caller send a text a part at a time.
#![tactic(auto)]

mod dedb;
mod field;
mod group;
mod msdb;
mod outcome;
mod show;
mod walk;

pub use dedb::{put_anchor, put_dedb_head};
pub use group::{put_entry_line, put_group_head, show_group};
pub use msdb::{put_msdb_head, put_msdb_line};
pub use show::show_db;
