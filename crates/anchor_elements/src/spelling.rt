//! What an element's content is to be.
//!
//!     next twin 10 | newest serial 8, at a root where there is a sequential type | first child 10, of each child type | segment | zeros ..

ghost use Rattle.std.specs.Prelude.{◌≡◌, ◌+◌, ◌*◌, ◌^◌, ◌<◌, ◌≤◌, length, slice_range, IsTrue};
ghost use Rattle.byteorder.specs.Endian.{big_from};
ghost use Rattle.ci_space.specs.Interval.{Keeps, IsZero};
ghost use Rattle.ci_space.specs.Numbers.{PutsNumber};
ghost use Rattle.anchor_elements.specs.Elements.{pointer_at, pointers_from};
ghost use Rattle.anchor_elements.specs.Spelling.{Spells, firsts_at, said, spelled_length};

use crate::pointer::Pointer;
use crate::saying::Saying;
use byteorder::{BigEndian, ByteOrder};

/// Puts a number into the 8 bytes from `at` on.
fn put_number(content: &mut [u8], at: usize, number: u64)
    requires { at + 8 ≤ length content.old }
    ensures { PutsNumber content.old content.new at 8 number }
{
    BigEndian::write_u64(&mut content[at..], number);
}

/// Puts a number into the 2 bytes from `at` on.
fn put_short(content: &mut [u8], at: usize, number: u16)
    requires { at + 2 ≤ length content.old }
    ensures { PutsNumber content.old content.new at 2 number }
{
    BigEndian::write_u16(&mut content[at..], number);
}

/// Puts a pointer into the 10 bytes from `at` on.
fn put_pointer(content: &mut [u8], at: usize, pointer: Pointer)
    requires { at + 10 ≤ length content.old }
    ensures pointer { pointer_at content.new at ≡ pointer }
    ensures below { Keeps content.old content.new 0 at }
    ensures above { Keeps content.old content.new (at + 10) (length content.old) }
{
    put_number(content, at, pointer.0);
    put_short(content, at + 8, pointer.1);
}

/// Puts pointers one behind the other, from `from` on.
fn put_pointers(content: &mut [u8], from: usize, pointers: &[Pointer])
    requires { from + 10 * length pointers.now ≤ length content.old }
    ensures pointers { pointers_from content.new from (length pointers.now) ≡ pointers.now }
    ensures below { Keeps content.old content.new 0 from }
    ensures above { Keeps content.old content.new (from + 10 * length pointers.now) (length content.old) }
{
    let mut at = from;
    for pointer in pointers {
        put_pointer(content, at, *pointer);
        at += 10;
    }
}

/// Puts the newest serial behind the next twin, where there is one, and gives the place of the first
/// children.
fn put_serial(content: &mut [u8], with_serial: bool, serial: u64) -> usize
    requires { 18 ≤ length content.old }
    ensures place { result ≡ firsts_at with_serial }
    ensures number { IsTrue with_serial → big_from 10 8 content.new ≡ serial }
    ensures below { Keeps content.old content.new 0 10 }
    ensures above { Keeps content.old content.new result (length content.old) }
{
    if with_serial {
        put_number(content, 10, serial);
        18
    } else {
        10
    }
}

/// Puts bytes from `at` on.
fn put_bytes(content: &mut [u8], at: usize, bytes: &[u8])
    requires { at + length bytes.now ≤ length content.old }
    ensures bytes { slice_range content.new at (at + length bytes.now) ≡ bytes.now }
    ensures below { Keeps content.old content.new 0 at }
    ensures above { Keeps content.old content.new (at + length bytes.now) (length content.old) }
{
    content[at..at + bytes.len()].copy_from_slice(bytes);
}

/// Zeros to spell a content into: as many as the largest interval has bytes.
pub fn zeros() -> [u8; 4096]
    ensures { IsZero result 0 4096 }
{
    [0; 4096]
}

/// How many bytes say it.
pub fn spelled_length(with_serial: bool, saying: Saying<'_>) -> usize
    requires { length saying.firsts.now + length saying.bytes.now < 2 ^ 32 }
    ensures { result ≡ spelled_length with_serial (said saying.entry) }
{
    let firsts = if with_serial { 18 } else { 10 };
    firsts + 10 * saying.firsts.len() + saying.bytes.len()
}

/// Puts what an element is to say into zeros.
pub fn spell(content: &mut [u8], with_serial: bool, saying: Saying<'_>)
    requires zeros { IsZero content.old 0 (length content.old) }
    requires least { 18 ≤ length content.old }
    requires room { spelled_length with_serial (said saying) ≤ length content.old }
    ensures { Spells content.new with_serial (said saying.entry) }
{
    put_pointer(content, 0, saying.next);
    let from = put_serial(content, with_serial, saying.serial);
    put_pointers(content, from, saying.firsts);
    put_bytes(content, from + 10 * saying.firsts.len(), saying.bytes);
}
