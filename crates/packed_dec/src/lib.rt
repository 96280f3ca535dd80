//! Numbers in the fields of segments: unsigned bytes, two's complement, and packed decimal.
//!
//! | Kind | Length | Bytes |
//! |---|---|---|
//! | C | | characters: no number |
//! | X | 1 to 8 | unsigned, the highest byte first |
//! | H | 2 | two's complement, the highest byte first |
//! | F | 4 | two's complement, the highest byte first |
//! | P | 1 to 16 | packed decimal |
//!
//! Packed decimal has two half bytes in each byte: a digit in every one but the last, which is the sign.
//!
//!     byte          1             2                     n
//!     half    digit digit | digit digit | .. | digit  sign
//!
//!     12 3C    123   the digits 1, 2, 3 and the sign C
//!     12 3D   -123   D and B are minus
//!     12 3F    123   A, C, E and F are plus
//!     1A 3C          no number: A is no digit
//!     12 39          no number: 9 is no sign
//!
//! Every sign from A to F is read; C is written, and D for a number below zero. So a field of n bytes holds up to
//! 2n - 1 digits, and 16 bytes hold 31, which an `i128` has room for.
//!
//! Nothing here takes memory.
#![tactic(auto)]

mod reading;
mod writing;

pub use reading::read_number;
pub use writing::write_number;
