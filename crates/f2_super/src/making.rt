// The superblock of a new image.
ghost use Rattle.std.specs.Prelude.{◌≡◌, ◌≤◌, ◌<◌, ℕ, ◌+◌, ◌*◌, slice_index, ◌^◌, ◌==◌, not, true, false, if◌then◌else◌, Ok, length, take};
ghost use Rattle.std.specs.List.{list_all};
ghost use Rattle.f2_bytes.specs.Bytes.{has_bit, number_at, with_bytes};
ghost use Rattle.f2_bytes.specs.Fields.{row_at, with_field, field_at};
ghost use Rattle.f2_bytes.specs.Checksum.{crc as crc_of};
ghost use Rattle.f2_bytes.specs.Superblock.{superblock_rows, copy_row};
ghost use Rattle.f2_super.specs.Filled.{FitRows, IsFilled, Keeps};
ghost use Rattle.f2_super.specs.Geometry.{geometry_answer};
ghost use Rattle.f2_super.specs.NewCopy.{IsNewCopy, new_rows};
ghost use Rattle.f2_super.specs.Unsealed.{IsUnsealed};

use crate::{Geometry, Super};
use f2_bytes::{SUPER, crc};

// The magic number, with which checksums begin.
const MAGIC: u32 = 0xF2F5_2010;

// Puts the number `v` into row `k` of a copy.
fn set_row(c: &mut [u8], k: usize, v: u64)
    requires size { length c.old ≡ 3072 }
    requires row { k < 33 }
    requires fits { v < 256 ^ (row_at superblock_rows k).width }
    ensures bytes { c.new ≡ with_field superblock_rows c.old k v }
    ensures read { field_at superblock_rows c.new k ≡ v }
{
    SUPER.set(c, k, v);
}

// Puts these numbers into the rows of a copy; no byte outside of the rows changes.
fn fill(c: &mut [u8], values: &[u64; 33])
    requires size { length c.old ≡ 3072 }
    requires fits { FitRows superblock_rows values.now }
    ensures { IsFilled superblock_rows values.now 33 c.old c.new }
{
    for k in 0..33usize {
        set_row(c, k, values[k]);
    }
}

// Where the checksum stands, if the feature is on.
fn checksum_offset(features: u32) -> u64
    ensures value { result ≡ (if has_bit features 11 then 3068 else 0) }
    ensures fits { result < 2 ^ 32 }
{
    if features / 2048 % 2 == 1 { 3068 } else { 0 }
}

// The numbers of the rows: the uuid and the checksum are zeros here.
fn row_values(g: &Geometry, features: u32) -> [u64; 33]
    requires { geometry_answer g.now.blocks ≡ Ok g.now }
    ensures values { result ≡ new_rows g.now features }
    ensures fits { FitRows superblock_rows result }
{
    let sit = u64::from(g.sit);
    let nat = u64::from(g.nat);
    let ssa = u64::from(g.ssa);
    let main = u64::from(g.main);
    let checksum = checksum_offset(features);
    [
        u64::from(MAGIC),
        1,
        0,
        9,
        3,
        12,
        9,
        1,
        1,
        checksum,
        g.blocks,
        main,
        u64::from(g.segments),
        2,
        sit,
        nat,
        ssa,
        main,
        512,
        512,
        1536,
        1536 + 512 * sit,
        1536 + 512 * (sit + nat),
        512 * (3 + sit + nat + ssa),
        3,
        1,
        2,
        0,
        0,
        0,
        0,
        u64::from(features),
        0,
    ]
}

// Puts these bytes in place of as many from byte `at` on.
fn put(c: &mut [u8], at: usize, bytes: &[u8])
    requires { at + length bytes.now ≤ length c.old }
    ensures { c.new ≡ with_bytes c.old at bytes.now }
{
    c[at..at + bytes.len()].copy_from_slice(bytes);
}

// Puts the uuid in from byte 108 on.
fn put_id(c: &mut [u8], id: &[u8; 16])
    requires { length c.old ≡ 3072 }
    ensures id { (i : ℕ) → i < length id.now → number_at c.new (108 + i) 1 ≡ slice_index id.now i }
    ensures others { Keeps 108 (length id.now) c.old c.new }
{
    put(c, 108, id);
}

// Puts the name of these tools in from byte `at` on, where an image says what made it.
fn put_text(c: &mut [u8], at: usize)
    requires size { length c.old ≡ 3072 }
    requires inside { at + 7 ≤ 3072 }
    ensures { Keeps at 7 c.old c.new }
{
    put(c, at, b"f2tools");
}

// Puts the label in from byte 124 on, the low byte of each unit first.
fn put_label(c: &mut [u8], label: &[u16])
    requires size { length c.old ≡ 3072 }
    requires few { length label.now ≤ 511 }
    ensures units { (i : ℕ) → i < length label.now → number_at c.new (124 + 2 * i) 2 ≡ slice_index label.now i }
    ensures others { Keeps 124 (2 * length label.now) c.old c.new }
{
    for (i, unit) in label.iter().enumerate() {
        put(c, 124 + 2 * i, &[(unit % 256) as u8, (unit / 256) as u8]);
    }
}

// The bytes of the superblock, but for the checksum.
fn unsealed(g: &Geometry, features: u32, uuid: &[u8; 16], label: &[u16]) -> [u8; 3072]
    requires geometry { geometry_answer g.now.blocks ≡ Ok g.now }
    requires few { length label.now ≤ 511 }
    ensures parts { IsUnsealed g.now features uuid.now label.now result }
    ensures no_checksum { copy_row result 32 ≡ 0 }
{
    let mut c = [0; 3072];
    fill(&mut c, &row_values(g, features));
    put_id(&mut c, uuid);
    put_label(&mut c, label);
    put_text(&mut c, 1668);
    put_text(&mut c, 1924);
    c
}

// The checksum of the first `end` bytes.
fn front_sum(c: &[u8], end: usize) -> u32
    requires { end ≤ length c.now }
    ensures { result ≡ crc_of 0xF2F52010 (take end c.now) }
{
    crc(MAGIC, &c[..end])
}

// Puts the checksum in at the end, if the feature is on.
fn put_checksum(c: &mut [u8], features: u32)
    requires { length c.old ≡ 3072 }
    ensures right { has_bit features 11 ≡ true → copy_row c.new 32 ≡ crc_of 0xF2F52010 (take 3068 c.new) }
    ensures others { Keeps 3068 4 c.old c.new }
    ensures none { has_bit features 11 ≡ false → c.new ≡ c.old }
{
    if features / 2048 % 2 == 1 {
        let sum = front_sum(c, 3068);
        set_row(c, 32, u64::from(sum));
    }
}

/// The superblock of a new image with these sizes, feature bits, uuid and label. The label has at most 511 UTF-16 units,
/// none of them zero.
pub fn new_super(g: &Geometry, features: u32, uuid: &[u8; 16], label: &[u16]) -> Super
    requires geometry { geometry_answer g.now.blocks ≡ Ok g.now }
    requires few { length label.now ≤ 511 }
    requires whole { list_all (λ u. not (u == 0)) label.now ≡ true }
    ensures { IsNewCopy g.now features uuid.now label.now result }
{
    let mut c = unsealed(g, features, uuid, label);
    put_checksum(&mut c, features);
    Super::of(&c)
}
