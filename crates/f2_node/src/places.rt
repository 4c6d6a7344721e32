// The places where a node names other nodes and blocks.
ghost use Rattle.std.specs.Prelude.{◌≡◌, ◌<◌, ◌||◌};
ghost use Rattle.f2_bytes.specs.Node.{child_nid, child_address};
ghost use Rattle.f2_bytes.specs.Node.{has_slots as names_blocks, is_inline as stands_inline, is_regular, is_symlink};

use crate::inode::{inode_field, word};
use crate::kinds::kind;
use crate::records::{Kind, Spot};
use f2_disk::Block;

// The first address word of an inode, and the first of its nids.
const FIRST_ADDRESS: usize = 90;

const FIRST_NID: usize = 1013;

/// The nid at a place of the node in a block: a place below 1018, of an inode one of its five nids.
pub fn nid_at(b: &Block, spot: Spot) -> u32
    requires node { spot.slot < 1018 }
    requires inode { spot.offset ≡ 0 → spot.slot < 5 }
    ensures { result ≡ child_nid spot.offset b.now spot.slot }
{
    let place = spot.slot as usize;
    if spot.offset == 0 {
        word(b, FIRST_NID + place)
    } else {
        word(b, place)
    }
}

/// The address at a place of the node in a block: a place below 1018, of an inode one of its 923 address words.
pub fn address_at(b: &Block, spot: Spot) -> u32
    requires node { spot.slot < 1018 }
    requires inode { spot.offset ≡ 0 → spot.slot < 923 }
    ensures { result ≡ child_address spot.offset b.now spot.slot }
{
    if spot.offset == 0 {
        word(b, FIRST_ADDRESS + spot.slot as usize)
    } else {
        word(b, spot.slot as usize)
    }
}

/// Whether the data of the regular file or symbolic link, or the names of the directory, stand in the inode in a block.
pub fn is_inline(b: &Block) -> bool
    ensures { result ≡ stands_inline b.now }
{
    let flags = inode_field(b, 2);
    match kind(inode_field(b, 0) as u16) {
        Some(Kind::Regular) => flags / 2 % 2 == 1,
        Some(Kind::Symlink) => flags / 2 % 2 == 1,
        Some(Kind::Directory) => flags / 4 % 2 == 1,
        _ => false,
    }
}

/// Whether the address words of the inode in a block name blocks of the file: a regular file, a symbolic link or a
/// directory that doesn't stand in its inode.
pub fn has_slots(b: &Block) -> bool
    ensures { result ≡ names_blocks b.now }
{
    let flags = inode_field(b, 2);
    match kind(inode_field(b, 0) as u16) {
        Some(Kind::Regular) => flags / 2 % 2 == 0,
        Some(Kind::Symlink) => flags / 2 % 2 == 0,
        Some(Kind::Directory) => flags / 4 % 2 == 0,
        _ => false,
    }
}

/// Whether the inode in a block is that of a regular file or a symbolic link, which has bytes.
pub fn has_bytes(b: &Block) -> bool
    ensures { result ≡ (is_regular b.now || is_symlink b.now) }
{
    match kind(inode_field(b, 0) as u16) {
        Some(Kind::Regular) => true,
        Some(Kind::Symlink) => true,
        _ => false,
    }
}
