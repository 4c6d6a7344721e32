// Numbers that are put into a block.
ghost use Rattle.std.specs.Prelude.{◌≡◌, ◌≤◌, ◌<◌, ◌+◌, ◌^◌};
ghost use Rattle.f2_bytes.specs.Bytes.{number_at, with_number};

use byteorder::{ByteOrder, LittleEndian};
use f2_disk::Block;

// Puts the number `v` into the `width` bytes from `at` on, 1 to 8, and changes no other byte.
pub(crate) fn put_number(b: &mut Block, at: usize, width: usize, v: u64)
    requires inside { at + width ≤ 4096 }
    requires some { 1 ≤ width }
    requires narrow { width ≤ 8 }
    requires fits { v < 256 ^ width }
    ensures bytes { b.new ≡ with_number b.old at width v }
    ensures read { number_at b.new at width ≡ v }
{
    let mut bytes = [0; 8];
    LittleEndian::write_uint(&mut bytes, v, width);
    b.put(at, &bytes[..width]);
}
