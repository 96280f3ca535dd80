//! Big-endian numbers at places of a slice.

ghost use Rattle.std.specs.Prelude.{◌≡◌, ◌+◌, ◌≤◌, length};
ghost use Rattle.byteorder.specs.Endian.{big_from};
ghost use Rattle.ci_space.specs.Numbers.{PutsNumber};

use byteorder::{BigEndian, ByteOrder};

/// The number of eight bytes at `at`.
pub fn number_at(bytes: &[u8], at: usize) -> u64
    requires { at + 8 ≤ length bytes.now }
    ensures { result ≡ big_from at 8 bytes.now }
{
    BigEndian::read_u64(&bytes[at..])
}

/// The number of two bytes at `at`.
pub fn short_at(bytes: &[u8], at: usize) -> u16
    requires { at + 2 ≤ length bytes.now }
    ensures { result ≡ big_from at 2 bytes.now }
{
    BigEndian::read_u16(&bytes[at..])
}

/// Puts a number of eight bytes at `at`.
pub fn put_number(bytes: &mut [u8], at: usize, number: u64)
    requires { at + 8 ≤ length bytes.old }
    ensures { PutsNumber bytes.old bytes.new at 8 number }
{
    BigEndian::write_u64(&mut bytes[at..], number);
}

/// Puts a number of two bytes at `at`.
pub fn put_short(bytes: &mut [u8], at: usize, number: u16)
    requires { at + 2 ≤ length bytes.old }
    ensures { PutsNumber bytes.old bytes.new at 2 number }
{
    BigEndian::write_u16(&mut bytes[at..], number);
}
