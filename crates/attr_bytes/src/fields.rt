//! Little-endian numbers at an offset.

ghost use Rattle.std.specs.Prelude.{◌≡◌, ◌+◌, ◌≤◌, length};
ghost use Rattle.attr_bytes.specs.Layout.{PutsNumber, number_at};

use byteorder::{ByteOrder, LittleEndian};

/// The number in the four bytes from `offset` on.
pub fn u32_at(bytes: &[u8], offset: usize) -> u32
    requires { offset + 4 ≤ length bytes.now }
    ensures { result ≡ number_at offset 4 bytes.now }
{
    LittleEndian::read_u32(&bytes[offset..])
}

/// The number in the eight bytes from `offset` on.
pub fn u64_at(bytes: &[u8], offset: usize) -> u64
    requires { offset + 8 ≤ length bytes.now }
    ensures { result ≡ number_at offset 8 bytes.now }
{
    LittleEndian::read_u64(&bytes[offset..])
}

/// Puts a number into the four bytes from `offset` on.
pub fn put_u32(bytes: &mut [u8], offset: usize, number: u32)
    requires { offset + 4 ≤ length bytes.old }
    ensures { PutsNumber offset 4 number bytes.old bytes.new }
{
    LittleEndian::write_u32(&mut bytes[offset..], number);
}

/// Puts a number into the eight bytes from `offset` on.
pub fn put_u64(bytes: &mut [u8], offset: usize, number: u64)
    requires { offset + 8 ≤ length bytes.old }
    ensures { PutsNumber offset 8 number bytes.old bytes.new }
{
    LittleEndian::write_u64(&mut bytes[offset..], number);
}
