//! The operations of field search arguments.
ghost use Rattle.std.specs.Prelude.{◌≡◌, ◌||◌, false, IfNone, IfSome, ◌<◌, ◌^◌, unsigned_abs};
ghost use Rattle.fp_model.specs.Fsas.{is_change, is_verify, summed, verifies};
ghost use Rattle.fld_calls.specs.inside.Operations.{byte_of, sum_byte, verify_byte};

use std::cmp::Ordering;

/// What an argument asks of a field.
#[derive(Clone, Copy)]
pub(crate) enum Operation {
    Verify(Verify),
    Sum(Sum),
    /// `=`: the operand in its place.
    Put,
}

/// A comparison of the field, on its left, with the operand, on its right.
#[derive(Clone, Copy)]
pub(crate) enum Verify {
    Equal,
    Greater,
    GreaterOrEqual,
    Less,
    LessOrEqual,
    NotEqual,
}

/// A sum of the field and the operand.
#[derive(Clone, Copy)]
pub(crate) enum Sum {
    Add,
    Subtract,
}

impl Operation {
    /// The operation of a byte. None where the byte is none.
    pub(crate) fn of(byte: u8) -> Option<Operation>
        ensures some { IfSome result (λ operation. byte_of operation ≡ byte) }
        ensures none { IfNone result ((is_verify byte || is_change byte) ≡ false) }
    {
        match byte {
            b'E' => Some(Operation::Verify(Verify::Equal)),
            b'G' => Some(Operation::Verify(Verify::Greater)),
            b'H' => Some(Operation::Verify(Verify::GreaterOrEqual)),
            b'L' => Some(Operation::Verify(Verify::Less)),
            b'M' => Some(Operation::Verify(Verify::LessOrEqual)),
            b'N' => Some(Operation::Verify(Verify::NotEqual)),
            b'+' => Some(Operation::Sum(Sum::Add)),
            b'-' => Some(Operation::Sum(Sum::Subtract)),
            b'=' => Some(Operation::Put),
            _ => None,
        }
    }
}

impl Verify {
    /// Whether it holds, by how the field compares with the operand.
    pub(crate) fn holds(self, order: Ordering) -> bool
        ensures { result ≡ verifies (verify_byte self) order }
    {
        match self {
            Verify::Equal => order.is_eq(),
            Verify::Greater => order.is_gt(),
            Verify::GreaterOrEqual => order.is_ge(),
            Verify::Less => order.is_lt(),
            Verify::LessOrEqual => order.is_le(),
            Verify::NotEqual => order.is_ne(),
        }
    }
}

impl Sum {
    /// The sum of what a field holds and the operand.
    pub(crate) fn of(self, held: i128, given: i128) -> i128
        requires held { unsigned_abs held < 10 ^ 31 }
        requires given { unsigned_abs given < 10 ^ 31 }
        ensures { result ≡ summed (sum_byte self) held given }
    {
        match self {
            Sum::Add => held + given,
            Sum::Subtract => held - given,
        }
    }
}
