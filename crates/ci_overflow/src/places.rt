//! Where the parts of an area begin.

ghost use Rattle.std.specs.Prelude.{◌≡◌, ◌<◌, ◌≤◌, ◌*◌, ◌+◌, ◌^◌};
ghost use Rattle.ci_overflow.specs.Places.{first_base, first_dependent, first_sequential, first_independent, uow_of, base_of};

use ci_space::Shape;

/// The kind of control.
pub const CONTROL: u8 = 1;

/// The kind of a base interval.
pub const BASE: u8 = 2;

/// The kind of a dependent overflow interval.
pub const DEPENDENT: u8 = 3;

/// The kind of an independent overflow interval.
pub const INDEPENDENT: u8 = 5;

/// The owner of an interval in the free chain.
pub const NO_UOW: u64 = 0;

/// The first base interval of a unit of work.
pub fn first_base(shape: &Shape, uow: u32) -> u64
    ensures number { result ≡ first_base shape.now uow }
    ensures bound { result < 2 ^ 50 }
{
    1 + u64::from(uow) * (u64::from(shape.base) + u64::from(shape.overflow))
}

/// The first independent overflow interval.
pub fn first_independent(shape: &Shape) -> u64
    ensures number { result ≡ first_independent shape.now }
    ensures bound { result < 2 ^ 51 }
{
    first_base(shape, shape.uows) + u64::from(shape.seq_cis)
}

/// The unit of work of an anchor.
pub fn uow_of(shape: &Shape, anchor: u32) -> u32
    requires { anchor < shape.now.uows * shape.now.base }
    ensures number { result ≡ uow_of shape.now anchor }
    ensures bound { result < shape.now.uows }
{
    anchor / u32::from(shape.base)
}

/// The base interval of an anchor.
pub fn base_of(shape: &Shape, anchor: u32) -> u64
    requires { anchor < shape.now.uows * shape.now.base }
    ensures { result ≡ base_of shape.now anchor }
{
    first_base(shape, uow_of(shape, anchor)) + u64::from(anchor % u32::from(shape.base))
}
