// A superblock copy by itself.
ghost use Rattle.std.specs.Prelude.{◌≡◌, ◌++◌, take, IfSome, true};
ghost use Rattle.f2_bytes.specs.Bytes.{IsBlock};
ghost use Rattle.f2_bytes.specs.Superblock.{copy_passes, is_compared_row};
ghost use Rattle.f2_super.specs.Copy.{copy_in};

use f2_bytes::{Layout, SUPER, passes};
use f2_disk::Block;
use std::marker::Model;

/// A superblock copy that passes: the 3072 bytes from byte 1024 on of block 0 or 1.
#[derive(Clone, Copy)]
pub struct Super {
    bytes: [u8; 3072],
}

impl Model for Super {
    ghost use Rattle.std.specs.Prelude.{◌≡◌, ℕ, List, true};
    ghost use Rattle.f2_bytes.specs.Superblock.{copy_passes};

    ghost Value = { List ℕ };

    ghost view = { λ s. s.bytes };

    ghost invariant = { λ s. copy_passes s.bytes ≡ true };

    ghost inverse = { λ bytes. record { bytes = bytes } };
}

// Whether both copies are to agree in this row of the table of fields: in all but the magic number, the versions, the
// checksum with its place, and the number of extensions.
fn is_compared_row(row: usize) -> bool
    ensures { result ≡ is_compared_row row }
{
    (3 <= row && row <= 8) || (10 <= row && row <= 28) || row == 30 || row == 31
}

impl Super {
    ghost use Rattle.std.specs.Prelude.{◌≡◌, ◌≤◌, ◌<◌, ◌^◌, length, true};
    ghost use Rattle.f2_bytes.specs.Fields.{row_at};
    ghost use Rattle.f2_bytes.specs.Superblock.{superblock_rows, copy_row, copy_passes, agree, agree_at, layout_of, block_count, IsInOrder};

    // The copy with these bytes.
    pub(crate) fn of(bytes: &[u8]) -> Super
        requires size { length bytes.now ≡ 3072 }
        requires passes { copy_passes bytes.now ≡ true }
        ensures { result ≡ bytes.now }
    {
        let mut copy = [0; 3072];
        copy.copy_from_slice(bytes);
        Super { bytes: copy }
    }

    /// The bytes of the copy.
    pub fn bytes(&self) -> &[u8]
        ensures same { result.now ≡ self.now }
        ensures size { length self.now ≡ 3072 }
        ensures passes { copy_passes self.now ≡ true }
    {
        &self.bytes
    }

    /// The number in row `k` of the superblock's table of fields, `SUPER`.
    pub fn field(&self, k: usize) -> u64
        requires { k < 33 }
        ensures value { result ≡ copy_row self.now k }
        ensures fits { result < 256 ^ (row_at superblock_rows k).width }
        ensures passes { copy_passes self.now ≡ true }
    {
        SUPER.get(&self.bytes, k)
    }

    /// Where the areas of the image lie, in blocks.
    pub fn layout(&self) -> Layout
        ensures value { result ≡ layout_of self.now }
        ensures in_order { block_count self.now ≤ 2 ^ 28 → IsInOrder result }
    {
        Layout {
            blocks: self.field(10),
            cp: self.field(19) as u32,
            sit: self.field(20) as u32,
            nat: self.field(21) as u32,
            ssa: self.field(22) as u32,
            main: self.field(23) as u32,
            sit_half: 512 * (self.field(14) / 2) as u32,
            nat_half: 512 * (self.field(15) / 2) as u32,
            segments: self.field(17) as u32,
        }
    }

    // Whether both copies have the same number in this row, if they are to agree there.
    fn agrees_at(&self, other: &Super, row: usize) -> bool
        requires { row < 33 }
        ensures { result ≡ agree_at self.now other.now row }
    {
        !is_compared_row(row) || self.field(row) == other.field(row)
    }

    /// Whether both copies have the same numbers in all rows in which they are to agree.
    pub fn agrees(&self, other: &Super) -> bool
        ensures { result ≡ agree self.now other.now }
    {
        for row in 0..33usize {
            if !self.agrees_at(other, row) {
                return false;
            }
        }
        true
    }
}

/// The copy in a block, where it passes.
#[tactic(auto, unfolding(f2_bytes::specs::Superblock::copy_of))]
pub fn read_copy(b: &Block) -> Option<Super>
    ensures value { result ≡ copy_in b.now }
    ensures passes { IfSome result (λ s. copy_passes s ≡ true) }
{
    let bytes = b.bytes();
    if passes(bytes) {
        let (_, copy) = bytes.split_at(1024);
        Some(Super::of(copy))
    } else {
        None
    }
}

/// Puts a copy into a block from byte 1024 on; the bytes before stay.
pub fn write_copy(s: &Super, b: &mut Block)
    ensures bytes { b.new ≡ take 1024 b.old ++ s.now }
    ensures block { IsBlock b.old }
{
    b.put(1024, s.bytes());
}
