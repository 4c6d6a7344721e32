// What a node says of itself.
ghost use Rattle.std.specs.Prelude.{◌≡◌, ℕ, ◌≤◌, option_map, Some, IfOk, IsErrOf};
ghost use Rattle.f2_bytes.specs.Bytes.{Image};
ghost use Rattle.f2_bytes.specs.NodeAddressTable.{nat};
ghost use Rattle.f2_survey.specs.Known.{offset_said as offset_at, kind_said as kind_at};
ghost use Rattle.f2_survey.specs.Said.{said_by, said_at, inode_said};
ghost use Rattle.f2_disk.specs.Disk.{Reads, Goes, Rose};
ghost use Rattle.f2_node.specs.Records.{type_of};
ghost use Rattle.f2_sum.specs.Records.{nat_entry};
ghost use Rattle.f2_view.specs.Mounted.{layout_in, IsMountOf};

use f2_defects::CheckRefusal;
use f2_disk::{Block, Disk};
use f2_node::{Kind, footer, inode_field, kind};
use f2_sum::NatEntry;
use f2_view::Mount;

/// What a node says: its number and that of its file, its offset there, and its mode if it is an inode.
#[derive(Clone, Copy)]
pub struct Said {
    pub nid: u32,
    pub ino: u32,
    pub offset: u32,
    pub mode: u16,
}

// What the node in a block says.
fn said_in(b: &Block) -> Said
    ensures { result ≡ said_by b.now }
{
    let footer = footer(b);
    Said {
        nid: footer.nid,
        ino: footer.ino,
        offset: footer.flag / 8,
        mode: inode_field(b, 0) as u16,
    }
}

/// What the node with this entry says, if it stands in the main area. After a refusal the bytes of the block are any.
pub fn read_said<D: Disk>(
    m: &Mount,
    d: &mut D,
    entry: Option<NatEntry>,
    block: &mut Block,
) -> Result<Option<Said>, CheckRefusal>
    requires lies { (layout_in m.now).blocks ≤ (D.state d.old).size }
    ensures said { IfOk result (λ said. (image : Image) (nid : ℕ) → (D.state d.old).told ≡ Some image → IsMountOf image m.now
        → option_map nat_entry entry ≡ nat image nid → said ≡ said_at image nid) }
    ensures reads { Reads (D.state d.old) (D.state d.new) }
    ensures goes { Goes (D.state d.old) (D.state d.new) }
    ensures fault { IsErrOf result CheckRefusal.DiskFault → Rose (D.state d.old).faults (D.state d.new).faults }
{
    let entry = match entry {
        Some(entry) => entry,
        None => return Ok(None),
    };
    if !m.main_block(d, entry.addr, block)? {
        return Ok(None);
    }
    Ok(Some(said_in(block)))
}

/// What the inode of this number says, if the node with this entry is one.
pub fn said_by_inode(nid: u32, entry: Option<NatEntry>, said: Option<Said>) -> Option<Said>
    ensures { (image : Image) → option_map nat_entry entry ≡ nat image nid → said ≡ said_at image nid → result ≡ inode_said image nid }
{
    match entry {
        Some(entry) => { if entry.ino == nid { said } else { None } }
        None => None,
    }
}

/// The offset to keep of a node: the greatest number for none.
pub fn offset_said(said: Option<Said>) -> u32
    ensures { (image : Image) (nid : ℕ) → said ≡ said_at image nid → result ≡ offset_at image nid }
{
    match said {
        Some(said) => said.offset,
        None => u32::MAX,
    }
}

// The number of a type, as directory entries have it.
fn type_number(kind: Kind) -> u8
    ensures { result ≡ type_of kind }
{
    match kind {
        Kind::Regular => 1,
        Kind::Directory => 2,
        Kind::Character => 3,
        Kind::BlockDevice => 4,
        Kind::Fifo => 5,
        Kind::Socket => 6,
        Kind::Symlink => 7,
    }
}

/// The type to keep of an inode: 0 for none, and 8 for one whose mode has none.
pub fn kind_said(inode: Option<Said>) -> u8
    ensures { (image : Image) (nid : ℕ) → inode ≡ inode_said image nid → result ≡ kind_at image nid }
{
    let inode = match inode {
        Some(inode) => inode,
        None => return 0,
    };
    match kind(inode.mode) {
        Some(kind) => type_number(kind),
        None => 8,
    }
}
