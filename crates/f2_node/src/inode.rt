// The fields of an inode, and the numbers of a node.
ghost use Rattle.std.specs.Prelude.{◌≡◌, ◌≤◌, ◌<◌, ◌*◌, ◌^◌, ℕ, IsTrue};
ghost use Rattle.f2_bytes.specs.Bytes.{with_number};
ghost use Rattle.f2_bytes.specs.Bytes.{word as word_of};
ghost use Rattle.f2_bytes.specs.Fields.{lie_apart, row_at, with_field};
ghost use Rattle.f2_bytes.specs.Node.{inode_rows, inode_row, address_count, inline_length};

use crate::puts::put_number;
use f2_bytes::{Field, FieldTable, u32_at};
use f2_disk::Block;

// The rows of a table, each by its offset and its width.
macro_rules! rows {
    ($($offset:literal $width:literal),* $(,)?) => {
        [$(Field { offset: $offset, width: $width }),*]
    };
}

/// The numbers of an inode, by their place in its block.
pub const INODE: FieldTable<29> = FieldTable {
    rows: rows![
        0 2, 2 1, 3 1, 4 4, 8 4, 12 4, 16 8, 24 8, 32 8, 40 8, 48 8, 56 4, 60 4, 64 4, 68 4, 72 4, 76 4, 80 4, 84 4,
        88 4, 347 1, 348 4, 352 4, 356 4, 4052 4, 4056 4, 4060 4, 4064 4, 4068 4,
    ],
};

/// The rows of `INODE` are those of the format, lie in the 4096 bytes of an inode, and don't overlap.
pub fn inode_rows_lie_apart()
    ensures rows { INODE.rows ≡ inode_rows }
    ensures apart { IsTrue (lie_apart 4096 INODE.rows) }
{}

/// The number in row `k` of the inode in a block.
pub fn inode_field(b: &Block, k: usize) -> u64
    requires { k < 29 }
    ensures value { result ≡ inode_row b.now k }
    ensures fits { result < 256 ^ (row_at inode_rows k).width }
{
    INODE.get(b.bytes(), k)
}

/// Puts the number `v` into row `k` of the inode in a block, and changes no other byte.
pub fn set_inode_field(b: &mut Block, k: usize, v: u64)
    requires row { k < 29 }
    requires fits { v < 256 ^ (row_at inode_rows k).width }
    ensures bytes { b.new ≡ with_field inode_rows b.old k v }
    ensures read { inode_row b.new k ≡ v }
{
    let row = INODE.rows[k];
    put_number(b, row.offset, row.width, v);
}

/// The number `j` of the 1024 four-byte numbers of a block.
pub fn word(b: &Block, j: usize) -> u32
    requires { j < 1024 }
    ensures { result ≡ word_of b.now j }
{
    u32_at(b.bytes(), 4 * j)
}

/// Puts `v` in place of number `j` of the 1024 four-byte numbers of a block, and changes no other byte.
pub fn set_word(b: &mut Block, j: usize, v: u32)
    requires { j < 1024 }
    ensures bytes { b.new ≡ with_number b.old (4 * j) 4 v }
    ensures read { word_of b.new j ≡ v }
{
    put_number(b, 4 * j, 4, u64::from(v));
}

/// How many address words of an inode name blocks: 923, or 50 fewer with attributes or names in the inode.
#[tactic(auto, unfolding(f2_bytes::specs::Node::address_count))]
pub fn addresses(b: &Block) -> u32
    ensures count { result ≡ address_count b.now }
    ensures least { 873 ≤ result }
    ensures most { result ≤ 923 }
{
    let flags = inode_field(b, 2);
    if flags % 2 == 1 || flags / 4 % 2 == 1 {
        873
    } else {
        923
    }
}

/// Where the data or the names that stand in an inode begin, in bytes, and how many bytes there is room for.
pub fn inline_range(b: &Block) -> (usize, usize)
    ensures start { result.0 ≡ 364 }
    ensures length { result.1 ≡ inline_length b.now }
{
    (364, 4 * (addresses(b) as usize - 1))
}
