// A walk through the blocks of a file.
ghost use Rattle.std.specs.Prelude.{◌≡◌, ◌≤◌, ◌<◌, ◌+◌, ◌*◌, ℕ, List, ◌++◌, take, Some, None, if◌then◌else◌, IfOk, OnOk, IsErrOf, length};
ghost use Rattle.f2_bytes.specs.Bytes.{Image};
ghost use Rattle.f2_bytes.specs.Node.{word_in};
ghost use Rattle.f2_bytes.specs.Superblock.{IsInOrder};
ghost use Rattle.f2_bytes.specs.Superblock.{layout as layout_of_image};
ghost use Rattle.f2_bytes.specs.Tree.{main_block, tree_slot};
ghost use Rattle.f2_disk.specs.Disk.{Reads, Goes, Rose};
ghost use Rattle.f2_view.specs.Mounted.{IsMountOf, layout_in};
ghost use Rattle.f2_dump.specs.Dump.{Gathers, Sinks, IsInside, OnlyReads};
ghost use Rattle.f2_dump.specs.Walk.{IsSteady, IsFileOf, IsReached, part};

use crate::DumpRefusal;
use crate::gathering::{PIECE, keep_room};
use f2_bytes::Layout;
use f2_disk::{Block, Disk, Sink};
use f2_node::{locate, word};
use f2_view::Mount;
use std::alloc::AllocError;

// The bytes of a block.
pub(crate) const BLOCK: usize = 4096;

// What a walk needs of a file whose words name blocks.
#[derive(Drop)]
pub(crate) struct File {
    pub(crate) ino: u32,
    // in bytes
    pub(crate) size: u64,
    // how many address words of the inode name blocks
    pub(crate) addresses: u32,
    // of the image
    pub(crate) layout: Layout,
    // what stands for a block that the file doesn't have
    pub(crate) hole: Block,
}

// The node that was read last, by its offset among those of the file: blocks that follow each other mostly have their
// addresses in one node.
#[derive(Drop)]
pub(crate) struct Reached {
    pub(crate) offset: u32,
    // whether there is one
    pub(crate) found: bool,
    pub(crate) node: Block,
}

// Goes on to the node at this offset.
fn reach<D: Disk>(
    m: &mut Mount,
    ino: u32,
    offset: u32,
    at: &mut Reached,
    d: &mut D,
) -> Result<(), DumpRefusal>
    requires lies { (layout_in m.old).blocks ≤ (D.state d.old).size }
    ensures node { OnOk result ((image : Image) → (D.state d.old).told ≡ Some image → IsMountOf image m.old
        → IsReached image ino at.old → IsReached image ino at.new) }
    ensures offset { OnOk result (at.new.offset ≡ offset) }
    ensures only { OnlyReads result }
    ensures mount { m.new ≡ m.old }
    ensures reads { Reads (D.state d.old) (D.state d.new) }
    ensures goes { Goes (D.state d.old) (D.state d.new) }
    ensures fault { IsErrOf result DumpRefusal.DiskFault → Rose (D.state d.old).faults (D.state d.new).faults }
{
    if at.offset == offset {
        return Ok(());
    }
    at.found = m.file_node(d, ino, offset, &mut at.node)?;
    at.offset = offset;
    Ok(())
}

// The address in a slot of the node that was read last, 0 where there is none.
fn slot_word(at: &Reached, slot: u32) -> u32
    requires inode { at.now.offset ≡ 0 → slot < 923 }
    requires slot { slot < 1018 }
    ensures { result ≡ word_in (at.now.offset, slot) (if at.now.found then Some at.now.node else None) }
{
    if !at.found {
        0
    } else if at.offset == 0 {
        word(&at.node, 90 + slot as usize)
    } else {
        word(&at.node, slot as usize)
    }
}

// The address of block `k` of a file.
fn address_of<D: Disk>(
    m: &mut Mount,
    file: &File,
    k: u64,
    at: &mut Reached,
    d: &mut D,
) -> Result<u32, DumpRefusal>
    requires lies { (layout_in m.old).blocks ≤ (D.state d.old).size }
    requires addresses { file.now.addresses ≤ 923 }
    ensures address { IfOk result (λ address. (image : Image) → (D.state d.old).told ≡ Some image → IsMountOf image m.old
        → IsFileOf image file.now → IsReached image file.now.ino at.old → address ≡ tree_slot image file.now.ino k) }
    ensures reached { OnOk result ((image : Image) → (D.state d.old).told ≡ Some image → IsMountOf image m.old
        → IsReached image file.now.ino at.old → IsReached image file.now.ino at.new) }
    ensures only { OnlyReads result }
    ensures mount { m.new ≡ m.old }
    ensures reads { Reads (D.state d.old) (D.state d.new) }
    ensures goes { Goes (D.state d.old) (D.state d.new) }
    ensures fault { IsErrOf result DumpRefusal.DiskFault → Rose (D.state d.old).faults (D.state d.new).faults }
{
    match locate(k, file.addresses) {
        Some(spot) => {
            reach(m, file.ino, spot.offset, at, d)?;
            Ok(slot_word(at, spot.slot))
        }
        None => Ok(0),
    }
}

// Reads the block at an address, where that lies in main: true exactly then.
fn read_main<D: Disk>(
    l: &Layout,
    address: u32,
    d: &mut D,
    into: &mut Block,
) -> Result<bool, DumpRefusal>
    requires order { IsInOrder l.now }
    requires lies { l.now.blocks ≤ (D.state d.old).size }
    ensures block { IfOk result (λ there. (image : Image) → (D.state d.old).told ≡ Some image → l.now ≡ layout_of_image image
        → main_block image address ≡ (if there then Some into.new else None)) }
    ensures only { OnlyReads result }
    ensures reads { Reads (D.state d.old) (D.state d.new) }
    ensures goes { Goes (D.state d.old) (D.state d.new) }
    ensures fault { IsErrOf result DumpRefusal.DiskFault → Rose (D.state d.old).faults (D.state d.new).faults }
{
    let at = u64::from(address);
    if at < u64::from(l.main) {
        return Ok(false);
    }
    if at >= u64::from(l.main) + 512 * u64::from(l.segments) {
        return Ok(false);
    }
    d.read(at, into)?;
    Ok(true)
}

// Appends the first bytes of a block, or of a hole.
fn push_piece(
    text: &mut Vec<u8>,
    there: bool,
    b: &Block,
    hole: &Block,
    count: u64,
) -> Result<(), AllocError>
    ensures bytes { OnOk result (text.new.items ≡ text.old.items ++ take count (if there then b.now else hole.now)) }
    ensures size { length text.new.items ≤ length text.old.items + BLOCK }
{
    let bytes = if there { b.bytes() } else { hole.bytes() };
    let count = count.min(BLOCK as u64) as usize;
    text.extend_from_slice(&bytes[..count])
}

// Reads and gathers block `k` of a file.
pub(crate) fn gather_piece<D: Disk, O: Sink>(
    text: &mut Vec<u8>,
    m: &mut Mount,
    file: &File,
    k: u64,
    at: &mut Reached,
    block: &mut Block,
    d: &mut D,
    o: &mut O,
) -> Result<(), DumpRefusal>
    requires lies { (layout_in m.old).blocks ≤ (D.state d.old).size }
    requires steady { IsSteady (layout_in m.old) file.now }
    requires inside { 4096 * k < file.now.size }
    requires room { length text.old.items + BLOCK ≤ PIECE }
    ensures lines { (image : Image) → (D.state d.old).told ≡ Some image → IsMountOf image m.old
        → IsFileOf image file.now → IsReached image file.now.ino at.old
        → Gathers (part image file.now.ino file.now.size k) text.old.items text.new.items (O.told o.old) (O.told o.new) result }
    ensures reached { OnOk result ((image : Image) → (D.state d.old).told ≡ Some image → IsMountOf image m.old
        → IsReached image file.now.ino at.old → IsReached image file.now.ino at.new) }
    ensures room { length text.new.items + BLOCK ≤ PIECE }
    ensures inside { IsInside result }
    ensures sink { Sinks (O.faults o.old) (O.faults o.new) result }
    ensures mount { m.new ≡ m.old }
    ensures reads { Reads (D.state d.old) (D.state d.new) }
    ensures goes { Goes (D.state d.old) (D.state d.new) }
    ensures fault { IsErrOf result DumpRefusal.DiskFault → Rose (D.state d.old).faults (D.state d.new).faults }
{
    let address = address_of(m, file, k, at, d)?;
    let there = read_main(&file.layout, address, d, block)?;
    let pushed = push_piece(text, there, block, &file.hole, file.size - 4096 * k);
    keep_room(text, o, pushed, BLOCK)
}
