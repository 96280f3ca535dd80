//! An interval's first 32 bytes.
//!
//!     kind 1 | 0 0 0 | root anchor point 10 | 0 0 | link 8 | owner 8
//!
//! What a kind has no use for is 0. The parts of an interval are the manual's, their bytes the
//! project's profile.

ghost use Rattle.std.specs.Prelude.{◌≡◌, ◌↔◌, ◌≤◌, List, length, drop, IsTrue};
ghost use Rattle.ci_space.specs.Interval.{IsHead, IsInterval, Tiles, is_kind, kind_of};
ghost use Rattle.ci_space.specs.Element.{Element};
ghost use Rattle.ci_space.specs.Head.{head_of, ends_of, IsHeadOf};
ghost use Rattle.ci_space.specs.Interval.{Keeps};

use crate::elements::{holds_elements, is_zero};
use crate::numbers::{number_at, put_number, put_short, short_at};

/// The kind of an area's first interval, which has no elements.
pub const CONTROL: u8 = 1;

/// The kind of the intervals that root anchor points stand in.
pub const BASE: u8 = 2;

/// The kind of a sequential interval, which has no elements.
pub const SEQUENTIAL: u8 = 4;

/// The kind of the overflow intervals that the units of work of an area share.
pub const INDEPENDENT: u8 = 5;

/// What the first 32 bytes of an interval say.
#[derive(Clone, Copy, PartialEq, Eq)]
pub struct Head {
    /// 1 control, 2 base, 3 dependent overflow, 4 sequential, 5 independent overflow.
    pub kind: u8,

    /// The root anchor point of a base interval: the interval and the place of its first root, or
    /// zeros. In other kinds zeros.
    pub root: (u64, u16),

    /// In a unit of work's first base interval its first independent overflow interval, in an
    /// independent overflow interval the next of its chain, 0 for none. In other kinds 0.
    pub link: u64,

    /// In an independent overflow interval the number of its unit of work plus 1, or 0 where it is
    /// in the free chain. In other kinds 0.
    pub owner: u64,
}

/// Whether a kind is one of the five.
fn is_known(kind: u8) -> bool
    ensures { result ≡ is_kind kind }
{
    holds_elements(kind) || kind == CONTROL || kind == SEQUENTIAL
}

/// Whether the first 32 bytes are a head.
pub fn is_head(bytes: &[u8]) -> bool
    requires { 32 ≤ length bytes.now }
    ensures { IsTrue result ↔ IsHead bytes.now }
{
    let kind = bytes[0];
    is_known(kind)
        && is_zero(bytes, 1, 4)
        && (kind == BASE || is_zero(bytes, 4, 14))
        && is_zero(bytes, 14, 16)
        && (kind == BASE || kind == INDEPENDENT || is_zero(bytes, 16, 24))
        && (kind == INDEPENDENT || is_zero(bytes, 24, 32))
}

/// The head that the first 32 bytes are.
pub fn head_at(bytes: &[u8]) -> Head
    requires { 32 ≤ length bytes.now }
    ensures { result ≡ head_of bytes.now }
{
    Head {
        kind: bytes[0],
        root: (number_at(bytes, 4), short_at(bytes, 12)),
        link: number_at(bytes, 16),
        owner: number_at(bytes, 24),
    }
}

/// Puts a head's numbers.
fn put_numbers(bytes: &mut [u8], head: Head)
    requires size { 32 ≤ length bytes.old }
    requires kind { head.kind ≡ kind_of bytes.old }
    ensures head { head_of bytes.new ≡ head }
    ensures spare { Keeps bytes.old bytes.new 1 4 }
    ensures between { Keeps bytes.old bytes.new 14 16 }
    ensures others { Keeps bytes.old bytes.new 32 (length bytes.old) }
{
    put_number(bytes, 4, head.root.0);
    put_short(bytes, 12, head.root.1);
    put_number(bytes, 16, head.link);
    put_number(bytes, 24, head.owner);
}

/// Puts a head of the same kind into an interval.
pub fn put_head(bytes: &mut [u8], head: Head)
    requires interval { IsInterval bytes.old }
    requires allowed { IsHeadOf (kind_of bytes.old) head }
    ensures head { head_of bytes.new ≡ head }
    ensures tiles { (elements : List Element) → Tiles bytes.old elements → Tiles bytes.new elements }
    ensures others { drop 32 bytes.new ≡ drop 32 bytes.old }
{
    put_numbers(bytes, head);
}

/// The four numbers of control.
pub fn ends_at(bytes: &[u8]) -> [u64; 4]
    requires { 64 ≤ length bytes.now }
    ensures { result ≡ ends_of bytes.now }
{
    [
        number_at(bytes, 32),
        number_at(bytes, 40),
        number_at(bytes, 48),
        number_at(bytes, 56),
    ]
}

/// Puts four numbers behind the head.
fn put_four(bytes: &mut [u8], ends: [u64; 4])
    requires { 64 ≤ length bytes.old }
    ensures ends { ends_of bytes.new ≡ ends }
    ensures head { Keeps bytes.old bytes.new 0 32 }
    ensures others { Keeps bytes.old bytes.new 64 (length bytes.old) }
{
    put_number(bytes, 32, ends[0]);
    put_number(bytes, 40, ends[1]);
    put_number(bytes, 48, ends[2]);
    put_number(bytes, 56, ends[3]);
}

/// Puts the four numbers of control.
pub fn put_ends(bytes: &mut [u8], ends: [u64; 4])
    requires interval { IsInterval bytes.old }
    requires control { kind_of bytes.old ≡ 1 }
    ensures ends { ends_of bytes.new ≡ ends }
    ensures tiles { (elements : List Element) → Tiles bytes.old elements → Tiles bytes.new elements }
    ensures head { Keeps bytes.old bytes.new 0 32 }
    ensures others { drop 64 bytes.new ≡ drop 64 bytes.old }
{
    put_four(bytes, ends);
}
