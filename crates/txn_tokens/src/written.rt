//! What a line writes before its names are looked up.
use fp_model::{Name, Operand};

/// A segment search argument as it is written: a word, and a key in parentheses where there is one.
#[derive(Drop)]
pub struct WrittenSsa {
    pub name: Name,
    pub key: Option<Operand>,
}
