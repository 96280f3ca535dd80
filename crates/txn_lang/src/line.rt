//! What a line says.
use fp_model::{Comparison, Get, Name, Operand, Statement};

/// The word that a statement line begins with.
#[derive(Clone, Copy)]
pub(crate) enum Keyword {
    Tran,
    Set,
    If,
    Else,
    End,
    Repeat,
    Break,
    Reply,
    Rolb,
    /// GU, GN, GNP, and with hold GHU, GHN, GHNP.
    Get { get: Get, hold: bool },
    Fld,
    Isrt,
    Repl,
    Dlet,
}

/// A statement line.
#[derive(Drop)]
pub(crate) enum Line {
    /// `TRAN name`.
    Tran(Name),
    /// `IF left comparison right`.
    If {
        left: Operand,
        comparison: Comparison,
        right: Operand,
    },
    Else,
    /// `REPEAT n`.
    Repeat(u32),
    End,
    /// A statement that has its line to itself.
    Whole(Statement),
}
