// Numbers in bytes, the lowest byte first.
ghost use Rattle.std.specs.Prelude.{◌≡◌, ◌≤◌, ◌+◌, length};
ghost use Rattle.f2_bytes.specs.Bytes.{number_at};

use byteorder::{ByteOrder, LittleEndian};

/// The number in the byte at `at`.
pub fn u8_at(b: &[u8], at: usize) -> u8
    requires { at + 1 ≤ length b.now }
    ensures { result ≡ number_at b.now at 1 }
{
    b[at]
}

/// The number in the two bytes from `at` on, the lower one first.
pub fn u16_at(b: &[u8], at: usize) -> u16
    requires { at + 2 ≤ length b.now }
    ensures { result ≡ number_at b.now at 2 }
{
    LittleEndian::read_u16(&b[at..at + 2])
}

/// The number in the four bytes from `at` on, the lowest first.
pub fn u32_at(b: &[u8], at: usize) -> u32
    requires { at + 4 ≤ length b.now }
    ensures { result ≡ number_at b.now at 4 }
{
    LittleEndian::read_u32(&b[at..at + 4])
}

/// The number in the eight bytes from `at` on, the lowest first.
pub fn u64_at(b: &[u8], at: usize) -> u64
    requires { at + 8 ≤ length b.now }
    ensures { result ≡ number_at b.now at 8 }
{
    LittleEndian::read_u64(&b[at..at + 8])
}
