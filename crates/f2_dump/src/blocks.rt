// The dump of the blocks that a file's words name.
ghost use Rattle.std.specs.Prelude.{◌≡◌, ◌≤◌, ◌<◌, ◌+◌, ◌*◌, ℕ, Some, true, take, IsErrOf, length};
ghost use Rattle.f2_bytes.specs.Bytes.{Image};
ghost use Rattle.f2_bytes.specs.Node.{has_slots};
ghost use Rattle.f2_bytes.specs.Node.{size as size_of};
ghost use Rattle.f2_disk.specs.Disk.{Reads, Goes, Rose};
ghost use Rattle.f2_view.specs.Mounted.{IsMountOf, layout_in};
ghost use Rattle.f2_dump.specs.Dump.{Dumps, Gathers, Sinks, IsInside};
ghost use Rattle.f2_dump.specs.Files.{inode_of, pieces};
ghost use Rattle.f2_dump.specs.Files.{file_blocks as blocks_of_file};
ghost use Rattle.f2_dump.specs.Text.{lines_below};
ghost use Rattle.f2_dump.specs.Walk.{IsSteady, IsFileOf, IsReached, part};

use crate::DumpRefusal;
use crate::gathering::{PIECE, finish};
use crate::walking::{BLOCK, File, Reached, gather_piece};
use f2_disk::{Block, Disk, Sink};
use f2_node::{addresses, inode_field};
use f2_view::Mount;
use std::alloc::Global;

// How many blocks an inode has no address words for: those that hang on its five nids.
const BELOW_NIDS: u64 = 2 * 1018 + 2 * 1018 * 1018 + 1018 * 1018 * 1018;

// How many blocks of a file are dumped. The size may be so large that it can't be rounded up first.
pub(crate) fn file_blocks(b: &Block) -> u64
    ensures blocks { result ≡ blocks_of_file b.now }
    ensures inside { (k : ℕ) → k < result → 4096 * k < size_of b.now }
{
    let size = inode_field(b, 6);
    let begun = if size % 4096 == 0 {
        size / 4096
    } else {
        size / 4096 + 1
    };
    begun.min(u64::from(addresses(b)) + BELOW_NIDS)
}

// Gathers so many blocks of a file.
fn gather_blocks<D: Disk, O: Sink>(
    text: &mut Vec<u8>,
    m: &mut Mount,
    file: &File,
    inode: &Block,
    count: u64,
    d: &mut D,
    o: &mut O,
) -> Result<(), DumpRefusal>
    requires lies { (layout_in m.old).blocks ≤ (D.state d.old).size }
    requires steady { IsSteady (layout_in m.old) file.now }
    requires inside { (k : ℕ) → k < count → 4096 * k < file.now.size }
    requires room { length text.old.items + BLOCK ≤ PIECE }
    ensures lines { (image : Image) → (D.state d.old).told ≡ Some image → IsMountOf image m.old
        → IsFileOf image file.now → inode_of image file.now.ino ≡ Some inode.now
        → Gathers (lines_below (part image file.now.ino file.now.size) count) text.old.items text.new.items (O.told o.old) (O.told o.new) result }
    ensures room { length text.new.items + BLOCK ≤ PIECE }
    ensures inside { IsInside result }
    ensures sink { Sinks (O.faults o.old) (O.faults o.new) result }
    ensures mount { m.new ≡ m.old }
    ensures reads { Reads (D.state d.old) (D.state d.new) }
    ensures goes { Goes (D.state d.old) (D.state d.new) }
    ensures fault { IsErrOf result DumpRefusal.DiskFault → Rose (D.state d.old).faults (D.state d.new).faults }
{
    let mut at = Reached {
        offset: 0,
        found: true,
        node: *inode,
    };
    let mut block = Block::zeros();
    for k in 0..count {
        gather_piece(text, m, file, k, &mut at, &mut block, d, o)?;
    }
    Ok(())
}

// Puts the bytes of the file with this inode, whose words name its blocks.
pub(crate) fn dump_blocks<D: Disk, O: Sink>(
    alloc: Global,
    m: &mut Mount,
    ino: u32,
    inode: &Block,
    d: &mut D,
    o: &mut O,
) -> Result<(), DumpRefusal>
    requires lies { (layout_in m.old).blocks ≤ (D.state d.old).size }
    requires slots { has_slots inode.now ≡ true }
    ensures bytes { (image : Image) → (D.state d.old).told ≡ Some image → IsMountOf image m.old → inode_of image ino ≡ Some inode.now
        → Dumps (take (size_of inode.now) (pieces image ino (blocks_of_file inode.now))) (O.told o.old) (O.told o.new) result }
    ensures inside { IsInside result }
    ensures sink { Sinks (O.faults o.old) (O.faults o.new) result }
    ensures mount { m.new ≡ m.old }
    ensures reads { Reads (D.state d.old) (D.state d.new) }
    ensures goes { Goes (D.state d.old) (D.state d.new) }
    ensures fault { IsErrOf result DumpRefusal.DiskFault → Rose (D.state d.old).faults (D.state d.new).faults }
{
    let file = File {
        ino,
        size: inode_field(inode, 6),
        addresses: addresses(inode),
        layout: m.layout(),
        hole: Block::zeros(),
    };
    let mut text = Vec::with_capacity(alloc, PIECE)?;
    let answer = gather_blocks(&mut text, m, &file, inode, file_blocks(inode), d, o);
    finish(&text, o, answer)
}
