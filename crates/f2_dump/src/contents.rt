// The dump of a file's bytes.
ghost use Rattle.std.specs.Prelude.{◌≡◌, ◌≤◌, Some, None, true, IfOk, IsErrOf, take, length};
ghost use Rattle.f2_bytes.specs.Bytes.{Image};
ghost use Rattle.f2_bytes.specs.Node.{inline_area};
ghost use Rattle.f2_bytes.specs.Node.{size as size_of};
ghost use Rattle.f2_disk.specs.Disk.{Reads, Goes, Rose};
ghost use Rattle.f2_view.specs.Mounted.{IsMountOf, layout_in};
ghost use Rattle.f2_dump.specs.Dump.{Dumps, Refuses, Lacks, Sinks, OnlySink, OnlyReads};
ghost use Rattle.f2_dump.specs.Files.{inode_of, has_file};
ghost use Rattle.f2_dump.specs.Files.{has_bytes as is_dumped};
ghost use Rattle.f2_dump.specs.Text.{bytes_of_file, missing as is_missing};

use crate::blocks::dump_blocks;
use crate::gathering::{PIECE, put_text};
use crate::inodes::read_inode;
use crate::{DumpRefusal, What};
use f2_disk::{Block, Disk, Sink};
use f2_node::{has_bytes, inline_range, inode_field, is_inline};
use f2_view::Mount;
use std::alloc::Global;

// Reads the inode with this number, where it is that of a file whose bytes are dumped: true exactly then.
fn read_file<D: Disk>(
    m: &mut Mount,
    ino: u32,
    d: &mut D,
    into: &mut Block,
) -> Result<bool, DumpRefusal>
    requires lies { (layout_in m.old).blocks ≤ (D.state d.old).size }
    ensures file { IfOk result (λ found. (image : Image) → (D.state d.old).told ≡ Some image → IsMountOf image m.old
        → has_file image ino ≡ found) }
    ensures inode { IfOk result (λ found. found ≡ true → (image : Image) → (D.state d.old).told ≡ Some image → IsMountOf image m.old
        → inode_of image ino ≡ Some into.new) }
    ensures bytes { IfOk result (λ found. found ≡ true → is_dumped into.new ≡ true) }
    ensures only { OnlyReads result }
    ensures mount { m.new ≡ m.old }
    ensures reads { Reads (D.state d.old) (D.state d.new) }
    ensures goes { Goes (D.state d.old) (D.state d.new) }
    ensures fault { IsErrOf result DumpRefusal.DiskFault → Rose (D.state d.old).faults (D.state d.new).faults }
{
    if !read_inode(m, ino, d, into)? {
        return Ok(false);
    }
    Ok(has_bytes(into))
}

// The bytes of a file that stand in its inode.
#[tactic(auto, using(crate::proofs::FileParts::inline_fits))]
pub(crate) fn inline_bytes(b: &Block) -> &[u8]
    ensures bytes { result.now ≡ take (size_of b.now) (inline_area b.now) }
    ensures short { length result.now ≤ PIECE }
{
    let (start, room) = inline_range(b);
    let count = inode_field(b, 6).min(room as u64) as usize;
    let bytes = b.bytes();
    &bytes[start..start + count]
}

// Puts the bytes that stand in an inode.
fn put_inline<O: Sink>(b: &Block, o: &mut O) -> Result<(), DumpRefusal>
    ensures bytes { Dumps (take (size_of b.now) (inline_area b.now)) (O.told o.old) (O.told o.new) result }
    ensures sink { Sinks (O.faults o.old) (O.faults o.new) result }
    ensures only { OnlySink result }
{
    put_text(o, inline_bytes(b))
}

// Puts the bytes of the file with this number, where there is one.
pub(crate) fn dump_contents<D: Disk, O: Sink>(
    alloc: Global,
    m: &mut Mount,
    ino: u32,
    d: &mut D,
    o: &mut O,
) -> Result<(), DumpRefusal>
    requires lies { (layout_in m.old).blocks ≤ (D.state d.old).size }
    ensures lines { (image : Image) → (D.state d.old).told ≡ Some image → IsMountOf image m.old
        → Dumps (bytes_of_file image ino) (O.told o.old) (O.told o.new) result }
    ensures missing { (image : Image) → (D.state d.old).told ≡ Some image → IsMountOf image m.old → Lacks (is_missing image (What.Cat ino)) result }
    ensures range { Refuses None (O.told o.old) (O.told o.new) result }
    ensures sink { Sinks (O.faults o.old) (O.faults o.new) result }
    ensures mount { m.new ≡ m.old }
    ensures reads { Reads (D.state d.old) (D.state d.new) }
    ensures goes { Goes (D.state d.old) (D.state d.new) }
    ensures fault { IsErrOf result DumpRefusal.DiskFault → Rose (D.state d.old).faults (D.state d.new).faults }
{
    let mut inode = Block::zeros();
    if !read_file(m, ino, d, &mut inode)? {
        return Err(DumpRefusal::NoSuchNode(ino));
    }
    if is_inline(&inode) {
        put_inline(&inode, o)
    } else {
        dump_blocks(alloc, m, ino, &inode, d, o)
    }
}
