// Nodes in which the addresses of blocks are the new ones.
ghost use Rattle.std.specs.Prelude.{◌≡◌, ◌≢◌, ◌≤◌, ◌<◌, ◌+◌, ◌*◌, ℕ, ◌&&◌, nat_le, nat_lt, if◌then◌else◌, length, true, All};
ghost use Rattle.std.specs.List.{list_any};
ghost use Rattle.std.specs.List.Sorted.{IsStrictlyIncreasing};
ghost use Rattle.f2_bytes.specs.Bytes.{word as word_of};
ghost use Rattle.f2_bytes.specs.Defragment.{target_block as block_of_targets, is_covered, regular_extent};
ghost use Rattle.f2_bytes.specs.Node.{node_offset, address_count, has_slots as names_blocks, is_direct as is_direct_offset};
ghost use Rattle.f2_bytes.specs.Superblock.{IsInOrder, is_main};
ghost use Rattle.f2_gather.specs.Gathering.{addresses_of};
ghost use Rattle.f2_commit.specs.Shifting.{placed_data, IsShifted};

use f2_bytes::Layout;
use f2_disk::Block;
use f2_free::is_direct;
use f2_gather::{MovedBlock, covers};
use f2_node::{addresses, footer, has_slots, set_word, word};

// The number of the first address word of an inode, of the first of its extent's three, and how many words of another node
// are addresses.
const FIRST_ADDRESS: usize = 90;

const EXTENT: usize = 87;

const IN_NODE: usize = 1018;

// Block `n` of the target segments, one after the other.
pub(crate) fn target_block(l: &Layout, targets: &[u32], n: usize) -> u32
    requires order { IsInOrder l.now }
    requires targets { All (λ s. s < l.now.segments) targets.now }
    requires block { n < 512 * length targets.now }
    ensures value { result ≡ block_of_targets l.now targets.now n }
    ensures main { is_main l.now result ≡ true }
{
    l.main + 512 * targets[n / 512] + (n % 512) as u32
}

// The new address of a block, where these move to the target segments: its own, unless it is one of them.
fn new_address(l: &Layout, targets: &[u32], moved: &[MovedBlock], address: u32) -> u32
    requires order { IsInOrder l.now }
    requires targets { All (λ s. s < l.now.segments) targets.now }
    requires room { length moved.now ≤ 512 * length targets.now }
    requires ascending { IsStrictlyIncreasing (addresses_of moved.now) }
    ensures { result ≡ placed_data l.now targets.now (addresses_of moved.now) address }
{
    let at = moved.partition_point(|b| b.address < address);
    if at < moved.len() && moved[at].address == address {
        target_block(l, targets, at)
    } else {
        address
    }
}

// Puts a number in place of word `j` of a block.
fn put_word(b: &mut Block, j: usize, v: u32)
    requires word { j < 1024 }
    ensures read { word_of b.new j ≡ v }
    ensures others { (i : ℕ) → i ≢ j → word_of b.new i ≡ word_of b.old i }
{
    prove!(b.bytes().len() == 4096);
    set_word(b, j, v);
}

// Puts new addresses into `count` words of a node from word `from` on.
fn move_words(
    b: &mut Block,
    from: usize,
    count: usize,
    l: &Layout,
    targets: &[u32],
    moved: &[MovedBlock],
)
    requires words { from + count ≤ 1024 }
    requires order { IsInOrder l.now }
    requires targets { All (λ s. s < l.now.segments) targets.now }
    requires room { length moved.now ≤ 512 * length targets.now }
    requires ascending { IsStrictlyIncreasing (addresses_of moved.now) }
    ensures { (j : ℕ) → j < 1024 → word_of b.new j ≡ (if nat_le from j && nat_lt j (from + count) then placed_data l.now targets.now (addresses_of moved.now) (word_of b.old j) else word_of b.old j) }
{
    for j in 0..count {
        let address = new_address(l, targets, moved, word(b, from + j));
        put_word(b, from + j, address);
    }
}

// Zeros in place of the extent of an inode.
fn clear_extent(b: &mut Block)
    ensures { (j : ℕ) → j < 1024 → word_of b.new j ≡ (if nat_le 87 j && nat_lt j 90 then 0 else word_of b.old j) }
{
    put_word(b, EXTENT, 0);
    put_word(b, EXTENT + 1, 0);
    put_word(b, EXTENT + 2, 0);
}

// Puts the new addresses of blocks into the slots of an inode.
fn move_slots(b: &mut Block, l: &Layout, targets: &[u32], moved: &[MovedBlock])
    requires order { IsInOrder l.now }
    requires targets { All (λ s. s < l.now.segments) targets.now }
    requires room { length moved.now ≤ 512 * length targets.now }
    requires ascending { IsStrictlyIncreasing (addresses_of moved.now) }
    ensures { (j : ℕ) → j < 1024 → word_of b.new j ≡ (if names_blocks b.old && nat_le 90 j && nat_lt j (90 + address_count b.old) then placed_data l.now targets.now (addresses_of moved.now) (word_of b.old j) else word_of b.old j) }
{
    if has_slots(b) {
        move_words(b, FIRST_ADDRESS, addresses(b) as usize, l, targets, moved);
    }
}

// Zeros in place of the extent of an inode, if that of the inode as it was covers one of these blocks.
fn drop_extent(b: &mut Block, was: &Block, moved: &[MovedBlock])
    requires ascending { IsStrictlyIncreasing (addresses_of moved.now) }
    ensures { (j : ℕ) → j < 1024 → word_of b.new j ≡ (if nat_le 87 j && nat_lt j 90 && list_any (is_covered (regular_extent was.now)) (addresses_of moved.now) then 0 else word_of b.old j) }
{
    if covers(was, moved) {
        clear_extent(b);
    }
}

// An inode with the new addresses of blocks, and without an extent that names an old one.
fn moved_inode(b: &Block, l: &Layout, targets: &[u32], moved: &[MovedBlock]) -> Block
    requires inode { node_offset b.now ≡ 0 }
    requires order { IsInOrder l.now }
    requires targets { All (λ s. s < l.now.segments) targets.now }
    requires room { length moved.now ≤ 512 * length targets.now }
    requires ascending { IsStrictlyIncreasing (addresses_of moved.now) }
    ensures { IsShifted l.now targets.now (addresses_of moved.now) b.now result }
{
    let mut new = *b;
    move_slots(&mut new, l, targets, moved);
    drop_extent(&mut new, b, moved);
    prove!(new.bytes().len() == 4096);
    new
}

// A node of addresses of blocks with the new ones.
fn moved_direct(b: &Block, l: &Layout, targets: &[u32], moved: &[MovedBlock]) -> Block
    requires node { node_offset b.now ≢ 0 }
    requires direct { is_direct_offset (node_offset b.now) ≡ true }
    requires order { IsInOrder l.now }
    requires targets { All (λ s. s < l.now.segments) targets.now }
    requires room { length moved.now ≤ 512 * length targets.now }
    requires ascending { IsStrictlyIncreasing (addresses_of moved.now) }
    ensures { IsShifted l.now targets.now (addresses_of moved.now) b.now result }
{
    let mut new = *b;
    move_words(&mut new, 0, IN_NODE, l, targets, moved);
    prove!(new.bytes().len() == 4096);
    new
}

// A node with the new addresses of blocks, and without an extent that names an old one.
pub(crate) fn moved_node(b: &Block, l: &Layout, targets: &[u32], moved: &[MovedBlock]) -> Block
    requires order { IsInOrder l.now }
    requires targets { All (λ s. s < l.now.segments) targets.now }
    requires room { length moved.now ≤ 512 * length targets.now }
    requires ascending { IsStrictlyIncreasing (addresses_of moved.now) }
    ensures { IsShifted l.now targets.now (addresses_of moved.now) b.now result }
{
    let offset = footer(b).flag / 8;
    if offset == 0 {
        moved_inode(b, l, targets, moved)
    } else if is_direct(offset) {
        moved_direct(b, l, targets, moved)
    } else {
        prove!(b.bytes().len() == 4096);
        *b
    }
}
