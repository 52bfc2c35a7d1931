// Fields of a format: numbers, the highest byte first, and bytes that are to be zero.
ghost use Rattle.std.specs.{Prelude.{◌≡◌, ◌+◌, ◌≤◌, length}, Int.{w16, w32, w64}};
ghost use Rattle.iso_format.specs.Reading.{are_zero, number_at};

use byteorder::{BigEndian, ByteOrder};

/// The number in the two bytes from a place on.
pub fn u16_at(bytes: &[u8], at: usize) -> u16
    requires { at + 2 ≤ length bytes.now }
    ensures { result ≡ number_at w16 at bytes.now }
{
    BigEndian::read_u16(&bytes[at..])
}

/// The number in the four bytes from a place on.
pub fn u32_at(bytes: &[u8], at: usize) -> u32
    requires { at + 4 ≤ length bytes.now }
    ensures { result ≡ number_at w32 at bytes.now }
{
    BigEndian::read_u32(&bytes[at..])
}

/// The number in the eight bytes from a place on.
pub fn u64_at(bytes: &[u8], at: usize) -> u64
    requires { at + 8 ≤ length bytes.now }
    ensures { result ≡ number_at w64 at bytes.now }
{
    BigEndian::read_u64(&bytes[at..])
}

/// Whether `count` bytes from a place on are zero.
pub fn are_zero(bytes: &[u8], at: usize, count: usize) -> bool
    requires { at + count ≤ length bytes.now }
    ensures { result ≡ are_zero at count bytes.now }
{
    bytes[at..at + count].iter().all(|b| *b == 0)
}
