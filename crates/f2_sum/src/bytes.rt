// Bytes that are put one part after the other.
ghost use Rattle.std.specs.Prelude.{◌≡◌, ◌≤◌, ◌+◌, ◌++◌, length, replicate};
ghost use Rattle.byteorder.specs.Endian.{little_bytes};
ghost use Rattle.f2_bytes.specs.Bytes.{with_bytes};

use byteorder::{ByteOrder, LittleEndian};

// Puts these bytes in place of as many from byte `at` on.
pub(crate) fn put_bytes(b: &mut [u8], at: usize, bytes: &[u8])
    requires { at + length bytes.now ≤ length b.old }
    ensures { b.new ≡ with_bytes b.old at bytes.now }
{
    b[at..at + bytes.len()].copy_from_slice(bytes);
}

// Fills a journal area with the count and zeros behind it.
pub(crate) fn start_area(area: &mut [u8], count: u16)
    requires { length area.old ≡ 507 }
    ensures { area.new ≡ little_bytes 2 count ++ replicate 505 0 }
{
    area.fill(0);
    LittleEndian::write_u16(area, count);
}
