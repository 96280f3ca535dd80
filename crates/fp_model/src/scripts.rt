//! Scripts as trees: what the reader of the script language makes, and what a program runs.

use crate::calls::Get;
use crate::name::Name;
use fp_lists::{Bytes, List};

/// A value in a statement.
#[derive(Drop)]
pub enum Operand {
    /// A text as it stands, or a number in canonical decimal.
    Text(Bytes),
    /// `#0`, the text of the message, or `#1` to `#9`, its words.
    Word(u8),
    /// `IO.f`: a field of the segment that the last successful get showed.
    Field(Name),
    /// The status of the last call.
    Status,
    /// The letters of the last field call.
    Fsas,
    Variable(Name),
}

/// How SET joins two values.
#[derive(Clone, Copy, PartialEq, Eq)]
pub enum Operation {
    Add,
    Subtract,
    Multiply,
    Join,
}

/// How IF compares two values.
#[derive(Clone, Copy, PartialEq, Eq)]
pub enum Comparison {
    Equal,
    NotEqual,
    Less,
    LessOrEqual,
    Greater,
    GreaterOrEqual,
}

/// A segment search argument, its key still to be worked out.
#[derive(Drop)]
pub struct SsaText {
    /// The number of the segment type in its database; 0 in a main storage database.
    pub segment: u8,
    pub key: Option<Operand>,
}

/// A field search argument, its operand still to be worked out.
#[derive(Drop)]
pub struct FsaText {
    pub field: Name,
    /// The letter of a verify (E, G, H, L, M, N or another), or `+`, `-`, `=`.
    pub op: u8,
    pub operand: Operand,
}

/// A field and its value, still to be worked out.
#[derive(Drop)]
pub struct FieldText {
    pub field: Name,
    pub value: Operand,
}

/// A statement, with those in its blocks.
#[derive(Drop)]
pub enum Statement {
    /// `SET v a`, or `SET v a op b`.
    Set {
        variable: Name,
        first: Operand,
        rest: Option<(Operation, Operand)>,
    },
    /// `IF a cmp b` .. `ELSE` .. `END`.
    If {
        left: Operand,
        comparison: Comparison,
        right: Operand,
        then: List<Statement>,
        otherwise: List<Statement>,
    },
    /// `REPEAT n` .. `END`.
    Repeat {
        times: u32,
        body: List<Statement>,
    },
    /// Leaves the innermost loop.
    Break,
    /// Ends with the operands, joined.
    Reply(List<Operand>),
    /// `ROLB n`: ends with a rollback code.
    Roll(u16),
    /// `GU` and the other gets.
    Get {
        get: Get,
        hold: bool,
        db: u8,
        ssas: List<SsaText>,
    },
    /// `FLD database KEY(operand) field op operand ..`.
    Fld {
        db: u8,
        key: Operand,
        fsas: List<FsaText>,
    },
    /// `ISRT database ssa .. field=operand ..`.
    Isrt {
        db: u8,
        ssas: List<SsaText>,
        fields: List<FieldText>,
    },
    /// `REPL database field=operand ..`.
    Repl {
        db: u8,
        fields: List<FieldText>,
    },
    /// `DLET database`.
    Dlet {
        db: u8,
    },
}

/// A transaction's script.
#[derive(Drop)]
pub struct Script {
    pub name: Name,
    pub statements: List<Statement>,
}
