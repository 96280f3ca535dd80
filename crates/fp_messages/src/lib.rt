//! Message lines, and the lines that terminals are sent for log entries.
//!
//!     line       = terminal [ separator number ] [ separator [ transaction [ separator text ] ] ]
//!     separator  = a blank or a tab
//!     terminal, transaction
//!                = 1 to 8 letters A to Z and digits, a letter first
//!     number     = 1 to 18 digits, the first not 0, in format 2 alone
//!     text       = 0 to 1,000 bytes from 32 to 126
//!
//!     reply line = ( ( terminal | "?" ) blank verdict | a line that was kept ) newline
//!     verdict    = "OK" [ blank reply ] | "NO VERIFY" | "NO ROLB " code | "NO SEQFULL" | "NO DEADLOCK"
//!                | "NO DEVICE" | "NO MEMORY" | "NO UNKNOWN" | "NO OLD " last
//!
//! A line of a terminal alone, or of a terminal and a number, is no message, but its terminal can be told so. The text
//! is all that stands behind the transaction's separator, further separators among it. A question mark stands where a
//! line has no terminal.
#![tactic(auto)]

mod message;
mod reply;
mod words;

pub use message::{MessageFault, message_number_of, read_message, terminal_of};
pub use reply::{reply_line, reply_line_of, reply_text};
