// Inodes, and the dump of one.
ghost use Rattle.std.specs.Prelude.{◌≡◌, ◌≤◌, ◌<◌, ◌+◌, ◌*◌, ◌++◌, [], Some, None, if◌then◌else◌, IfOk, OnOk, IsErrOf, length};
ghost use Rattle.f2_bytes.specs.Bytes.{Image};
ghost use Rattle.f2_bytes.specs.Node.{has_slots as names_blocks};
ghost use Rattle.f2_disk.specs.Disk.{Reads, Goes, Rose};
ghost use Rattle.f2_view.specs.Mounted.{IsMountOf, layout_in};
ghost use Rattle.f2_dump.specs.Dump.{Dumps, Refuses, Lacks, Sinks, OnlySink, OnlyReads};
ghost use Rattle.f2_dump.specs.Files.{inode_of, inode_lines, address_line, address_lines};
ghost use Rattle.f2_dump.specs.Text.{lines_of_inode, missing as is_missing};

use crate::entries::push_decimal;
use crate::gathering::{PIECE, put_text};
use crate::lines::push_fields;
use crate::names::INODE_NAMES;
use crate::{DumpRefusal, What};
use f2_disk::{Block, Disk, Sink};
use f2_node::{INODE, addresses, has_slots, word};
use f2_view::Mount;
use std::alloc::{AllocError, Global};

// Reads the inode with this number: true exactly where there is one.
pub(crate) fn read_inode<D: Disk>(
    m: &mut Mount,
    ino: u32,
    d: &mut D,
    into: &mut Block,
) -> Result<bool, DumpRefusal>
    requires lies { (layout_in m.old).blocks ≤ (D.state d.old).size }
    ensures inode { IfOk result (λ found. (image : Image) → (D.state d.old).told ≡ Some image → IsMountOf image m.old
        → inode_of image ino ≡ (if found then Some into.new else None)) }
    ensures only { OnlyReads result }
    ensures mount { m.new ≡ m.old }
    ensures reads { Reads (D.state d.old) (D.state d.new) }
    ensures goes { Goes (D.state d.old) (D.state d.new) }
    ensures fault { IsErrOf result DumpRefusal.DiskFault → Rose (D.state d.old).faults (D.state d.new).faults }
{
    if ino >= m.nid_limit() {
        return Ok(false);
    }
    let entry = m.nat_entry(d, ino)?;
    if entry.ino != ino {
        return Ok(false);
    }
    Ok(m.node(d, ino, into)?)
}

// Appends the line of an address word, where it isn't 0.
fn push_address(text: &mut Vec<u8>, j: u32, b: &Block) -> Result<(), AllocError>
    requires { j < 923 }
    ensures line { OnOk result (text.new.items ≡ text.old.items ++ address_line b.now j) }
    ensures size { length text.new.items ≤ length text.old.items + 47 }
{
    let address = word(b, 90 + j as usize);
    if address == 0 {
        return Ok(());
    }
    text.extend_from_slice(b"addr ")?;
    push_decimal(text, u64::from(j), b" ")?;
    push_decimal(text, u64::from(address), b"\n")
}

// Appends the lines of the addresses in an inode.
fn push_addresses(text: &mut Vec<u8>, b: &Block) -> Result<(), AllocError>
    ensures lines { OnOk result (text.new.items ≡ text.old.items ++ address_lines b.now) }
    ensures size { length text.new.items ≤ length text.old.items + 43381 }
{
    for j in 0..addresses(b) {
        push_address(text, j, b)?;
    }
    Ok(())
}

// Appends them where the words name blocks.
fn push_slots(text: &mut Vec<u8>, b: &Block) -> Result<(), AllocError>
    ensures lines { OnOk result (text.new.items ≡ text.old.items ++ (if names_blocks b.now then address_lines b.now else [])) }
    ensures size { length text.new.items ≤ length text.old.items + 43381 }
{
    if has_slots(b) {
        push_addresses(text, b)
    } else {
        Ok(())
    }
}

// The lines of an inode.
pub(crate) fn inode_text(alloc: Global, b: &Block) -> Result<Vec<u8>, AllocError>
    ensures lines { IfOk result (λ text. text.items ≡ inode_lines b.now) }
    ensures size { IfOk result (λ text. length text.items ≤ PIECE) }
{
    let mut text = Vec::new(alloc);
    push_fields(&mut text, &INODE_NAMES, &INODE, b)?;
    push_slots(&mut text, b)?;
    Ok(text)
}

// Puts the lines of an inode.
fn put_inode<O: Sink>(alloc: Global, b: &Block, o: &mut O) -> Result<(), DumpRefusal>
    ensures lines { Dumps (inode_lines b.now) (O.told o.old) (O.told o.new) result }
    ensures sink { Sinks (O.faults o.old) (O.faults o.new) result }
    ensures only { OnlySink result }
{
    match inode_text(alloc, b) {
        Ok(text) => put_text(o, &text),
        Err(_) => Err(DumpRefusal::NoMemory),
    }
}

// Puts the lines of the inode with this number, where there is one.
pub(crate) fn dump_inode<D: Disk, O: Sink>(
    alloc: Global,
    m: &mut Mount,
    ino: u32,
    d: &mut D,
    o: &mut O,
) -> Result<(), DumpRefusal>
    requires lies { (layout_in m.old).blocks ≤ (D.state d.old).size }
    ensures lines { (image : Image) → (D.state d.old).told ≡ Some image → IsMountOf image m.old
        → Dumps (lines_of_inode image ino) (O.told o.old) (O.told o.new) result }
    ensures missing { (image : Image) → (D.state d.old).told ≡ Some image → IsMountOf image m.old → Lacks (is_missing image (What.Inode ino)) result }
    ensures range { Refuses None (O.told o.old) (O.told o.new) result }
    ensures sink { Sinks (O.faults o.old) (O.faults o.new) result }
    ensures mount { m.new ≡ m.old }
    ensures reads { Reads (D.state d.old) (D.state d.new) }
    ensures goes { Goes (D.state d.old) (D.state d.new) }
    ensures fault { IsErrOf result DumpRefusal.DiskFault → Rose (D.state d.old).faults (D.state d.new).faults }
{
    let mut inode = Block::zeros();
    if !read_inode(m, ino, d, &mut inode)? {
        return Err(DumpRefusal::NoSuchNode(ino));
    }
    put_inode(alloc, &inode, o)
}
