//! The tokens of a line.
use fp_model::{Bytes, Name};

/// A token.
#[derive(Drop)]
pub enum Token {
    /// A word, and whether a `=` stands directly behind it.
    Word { name: Name, assigned: bool },
    /// A number. Its leading zeros are gone.
    Number(i128),
    /// A text, without its quotes.
    Text(Bytes),
    /// `#` and a digit.
    Hash(u8),
    /// `IO.` and a word.
    Field(Name),
    /// One of the signs `( ) = + - * &`, as its byte.
    Sign(u8),
}
