// The superblock copies.
ghost use Rattle.std.specs.Prelude.{◌≡◌, ◌<◌, ◌^◌, IsTrue, length};
ghost use Rattle.f2_bytes.specs.Fields.{row_at, lie_apart};
ghost use Rattle.f2_bytes.specs.Superblock.{superblock_rows, copy_row, has_known_form, has_known_counts, has_joined_areas, has_enough_room, has_right_checksum, copy_passes, copy_of};
ghost use Rattle.f2_bytes.specs.Superblock.{passes as copy_in_passes};

use crate::checksum::{START, crc_of_front};
use crate::fields::rows;
use crate::{Field, FieldTable};

/// The numbers of a superblock copy, which has 3072 bytes and stands from byte 1024 on in blocks 0 and 1.
pub const SUPER: FieldTable<33> = FieldTable {
    rows: rows![
        0 4, 4 2, 6 2, 8 4, 12 4, 16 4, 20 4, 24 4, 28 4, 32 4, 36 8, 44 4, 48 4, 52 4, 56 4, 60 4, 64 4, 68 4,
        72 4, 76 4, 80 4, 84 4, 88 4, 92 4, 96 4, 100 4, 104 4, 108 8, 116 8, 1148 4, 1664 4, 2180 4, 3068 4,
    ],
};

/// The rows of `SUPER` are those of the format, lie in the 3072 bytes of a copy, and don't overlap.
pub fn superblock_rows_lie_apart()
    ensures rows { SUPER.rows ≡ superblock_rows }
    ensures apart { IsTrue (lie_apart 3072 SUPER.rows) }
{}

// The number in row `k` of the copy `c`.
fn row(c: &[u8], k: usize) -> u64
    requires size { length c.now ≡ 3072 }
    requires row { k < 33 }
    ensures value { result ≡ copy_row c.now k }
    ensures fits { result < 256 ^ (row_at superblock_rows k).width }
{
    SUPER.get(c, k)
}

#[tactic(auto, unfolding(crate::specs::Superblock::has_known_form))]
fn has_known_form(c: &[u8]) -> bool
    requires { length c.now ≡ 3072 }
    ensures { result ≡ has_known_form c.now }
{
    let sector = row(c, 3);
    row(c, 0) == u64::from(START)
        && 9 <= sector
        && sector <= 12
        && row(c, 4) == 12 - sector
        && row(c, 5) == 12
        && row(c, 6) == 9
        && row(c, 7) == 1
        && 1 <= row(c, 8)
        && row(c, 30) == 0
        && row(c, 24) == 3
        && row(c, 25) == 1
        && row(c, 26) == 2
}

#[tactic(auto, unfolding(crate::specs::Superblock::has_known_counts))]
fn has_known_counts(c: &[u8]) -> bool
    requires { length c.now ≡ 3072 }
    ensures { result ≡ has_known_counts c.now }
{
    let sit = row(c, 14);
    let nat = row(c, 15);
    let main = row(c, 17);
    row(c, 13) == 2
        && 2 <= sit
        && sit % 2 == 0
        && 2 <= nat
        && nat % 2 == 0
        && 1 <= row(c, 16)
        && 1 <= main
        && row(c, 11) == main
}

#[tactic(auto, unfolding(crate::specs::Superblock::has_joined_areas))]
fn has_joined_areas(c: &[u8]) -> bool
    requires { length c.now ≡ 3072 }
    ensures { result ≡ has_joined_areas c.now }
{
    let cp = row(c, 19);
    let sit = row(c, 20);
    let nat = row(c, 21);
    let ssa = row(c, 22);
    let main = row(c, 23);
    cp == row(c, 18)
        && 2 <= cp
        && sit == cp + 512 * row(c, 13)
        && nat == sit + 512 * row(c, 14)
        && ssa == nat + 512 * row(c, 15)
        && main == ssa + 512 * row(c, 16)
        && main + 512 * row(c, 17) <= row(c, 10)
}

#[tactic(auto, unfolding(crate::specs::Superblock::has_enough_room))]
fn has_enough_room(c: &[u8]) -> bool
    requires { length c.now ≡ 3072 }
    ensures { result ≡ has_enough_room c.now }
{
    let sit = row(c, 14);
    let nat = row(c, 15);
    let ssa = row(c, 16);
    let main = row(c, 17);
    row(c, 13) + sit + nat + ssa + main <= row(c, 12)
        && main <= 512 * ssa
        && main <= 28160 * (sit / 2)
        && 32 * (sit + nat) <= 3900
}

#[tactic(auto, unfolding(crate::specs::Superblock::has_right_checksum))]
fn has_right_checksum(c: &[u8]) -> bool
    requires { length c.now ≡ 3072 }
    ensures { result ≡ has_right_checksum c.now }
{
    row(c, 31) / 2048 % 2 != 1
        || (row(c, 9) == 3068 && row(c, 32) == u64::from(crc_of_front(c, 3068)))
}

#[tactic(auto, unfolding(crate::specs::Superblock::copy_passes))]
fn copy_passes(c: &[u8]) -> bool
    requires { length c.now ≡ 3072 }
    ensures { result ≡ copy_passes c.now }
{
    has_known_form(c)
        && has_known_counts(c)
        && has_joined_areas(c)
        && has_enough_room(c)
        && has_right_checksum(c)
}

/// Whether the superblock copy in a block of 4096 bytes passes: it has the magic number, the geometry that this
/// project reads, areas that follow each other inside the image, and, with the feature sb_checksum, the right
/// checksum. docs/FORMAT.md has the conditions one by one.
#[tactic(auto, unfolding(crate::specs::Superblock::copy_of))]
pub fn passes(b: &[u8]) -> bool
    requires { length b.now ≡ 4096 }
    ensures { result ≡ copy_in_passes b.now }
{
    let (_, copy) = b.split_at(1024);
    copy_passes(copy)
}
