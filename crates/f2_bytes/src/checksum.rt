// The checksum of F2FS: CRC-32 with its bits reversed, without a final inversion.
ghost use Rattle.std.specs.Prelude.{◌≡◌, ◌≤◌, ◌+◌, IsTrue, length, take};
ghost use Rattle.f2_bytes.specs.Bytes.{number_at};
ghost use Rattle.f2_bytes.specs.Checksum.{crc_after, is_sealed, with_seal};
ghost use Rattle.f2_bytes.specs.Checksum.{crc as crc_of};

use crate::fields::put_number;
use crate::u32_at;

/// The value with which the checksums of superblock copies and checkpoint blocks begin: the magic number.
pub const START: u32 = 0xF2F5_2010;

const POLYNOMIAL: u32 = 0xEDB8_8320;

// The byte that stands lowest in `c` shifted out.
fn shifted_out(c: u32) -> u32
    ensures { result ≡ crc_after 8 c }
{
    let mut c = c;
    for _ in 0..8u8 {
        c = if c % 2 == 1 {
            (c / 2) ^ POLYNOMIAL
        } else {
            c / 2
        };
    }
    c
}

/// The checksum of the bytes, begun with `start`; of no bytes it is `start`.
///
/// The checksum of the bytes of two parts is that of the second begun with that of the first.
pub fn crc(start: u32, bytes: &[u8]) -> u32
    ensures { result ≡ crc_of start bytes.now }
{
    let mut c = start;
    for byte in bytes {
        c = shifted_out(c ^ u32::from(*byte));
    }
    c
}

/// The checksum of the first `end` bytes, begun with the magic number.
pub fn crc_of_front(bytes: &[u8], end: usize) -> u32
    requires { end ≤ length bytes.now }
    ensures { result ≡ crc_of START (take end bytes.now) }
{
    crc(START, &bytes[..end])
}

/// Whether a block of 4096 bytes is sealed: it has the number 4092 at byte 164, and the checksum of the bytes before
/// at byte 4092.
#[tactic(auto, unfolding(crate::specs::Checksum::is_sealed))]
pub fn sealed(b: &[u8]) -> bool
    requires { length b.now ≡ 4096 }
    ensures { result ≡ is_sealed b.now }
{
    u32_at(b, 164) == 4092 && u32_at(b, 4092) == crc_of_front(b, 4092)
}

/// Seals a block of 4096 bytes: puts 4092 at byte 164 and then the checksum of the bytes before at byte 4092. No other
/// byte changes.
pub fn seal(b: &mut [u8])
    requires { length b.old ≡ 4096 }
    ensures bytes { b.new ≡ with_seal b.old }
    ensures sealed { IsTrue (is_sealed b.new) }
{
    put_number(b, 164, 4, 4092);
    let checksum = crc_of_front(b, 4092);
    put_number(b, 4092, 4, u64::from(checksum));
}
