// The names that the nid slots of a file give to nodes.
ghost use Rattle.std.specs.Prelude.{◌≡◌, ℕ, ◌≤◌, ◌<◌, ◌+◌, ◌++◌, ◌^◌, Some, OnOk, IsErrOf};
ghost use Rattle.f2_bytes.specs.Bytes.{Image};
ghost use Rattle.f2_bytes.specs.Node.{inode_nid};
ghost use Rattle.f2_bytes.specs.Tree.{read_node};
ghost use Rattle.f2_survey.specs.Known.{IsKnown};
ghost use Rattle.f2_survey.specs.Named.{span, names_under, inode_names, file_names};
ghost use Rattle.f2_disk.specs.Disk.{Reads, Goes, Rose};
ghost use Rattle.f2_view.specs.Mounted.{layout_in, IsMountOf};

use crate::known_nodes::known_node;
use crate::nodes::Nodes;
use f2_defects::CheckRefusal;
use f2_disk::{Block, Disk};
use f2_node::{Spot, has_slots, nid_at, word};
use f2_view::Mount;
use std::alloc::AllocError;

// How many numbers a node has.
const IN_NODE: u32 = 1018;

/// What a nid slot of a file holds: the offset among the file's nodes that the node it names should say, below 1,039,384,
/// and the nid of that node.
#[derive(Clone, Copy)]
pub struct Name {
    pub offset: u32,
    pub nid: u32,
}

// How many offsets a node takes from which so many steps lead to the direct nodes, with those under it.
fn span_of(height: u8) -> u32
    requires { height ≤ 1 }
    ensures { result ≡ span height }
{
    if height == 0 { 1 } else { 1 + IN_NODE }
}

// The name that one of the five nids of an inode gives to the node at this offset.
fn name_of(inode: &Block, slot: u32, offset: u32) -> Name
    requires { slot < 5 }
    ensures { result ≡ record { offset = offset; nid = inode_nid inode.now slot } }
{
    Name {
        offset,
        nid: nid_at(inode, Spot { offset: 0, slot }),
    }
}

// Pushes the name in the nid slot of the node at an offset, and those of the nodes under that node: so many steps lead
// from it to the direct nodes.
fn push_under<D: Disk>(
    m: &Mount,
    d: &mut D,
    nodes: &Nodes,
    height: u8,
    name: Name,
    into: &mut Vec<Name>,
) -> Result<(), CheckRefusal>
    requires lies { (layout_in m.now).blocks ≤ (D.state d.old).size }
    requires height { height ≤ 2 }
    requires offsets { name.offset + span height ≤ 2 ^ 32 }
    ensures names { OnOk result ((image : Image) → (D.state d.old).told ≡ Some image → IsMountOf image m.now → IsKnown image nodes.now
        → into.new.items ≡ into.old.items ++ names_under image height name.offset name.nid) }
    ensures reads { Reads (D.state d.old) (D.state d.new) }
    ensures goes { Goes (D.state d.old) (D.state d.new) }
    ensures fault { IsErrOf result CheckRefusal.DiskFault → Rose (D.state d.old).faults (D.state d.new).faults }
{
    if name.nid == 0 {
        return Ok(());
    }
    into.push(name)?;
    if height == 0 {
        return Ok(());
    }
    let mut node = Block::zeros();
    if !known_node(m, d, nodes, name.nid, &mut node)? {
        return Ok(());
    }
    let step = span_of(height - 1);
    for j in 0..IN_NODE {
        let below = Name {
            offset: name.offset + 1 + j * step,
            nid: word(&node, j as usize),
        };
        push_under(m, d, nodes, height - 1, below, into)?;
    }
    Ok(())
}

// Pushes the names that the five nids of an inode lead to.
fn push_nids<D: Disk>(
    m: &Mount,
    d: &mut D,
    nodes: &Nodes,
    inode: &Block,
    into: &mut Vec<Name>,
) -> Result<(), CheckRefusal>
    requires lies { (layout_in m.now).blocks ≤ (D.state d.old).size }
    ensures names { OnOk result ((image : Image) → (D.state d.old).told ≡ Some image → IsMountOf image m.now → IsKnown image nodes.now
        → into.new.items ≡ into.old.items ++ inode_names image inode.now) }
    ensures reads { Reads (D.state d.old) (D.state d.new) }
    ensures goes { Goes (D.state d.old) (D.state d.new) }
    ensures fault { IsErrOf result CheckRefusal.DiskFault → Rose (D.state d.old).faults (D.state d.new).faults }
{
    push_under(m, d, nodes, 0, name_of(inode, 0, 1), into)?;
    push_under(m, d, nodes, 0, name_of(inode, 1, 2), into)?;
    push_under(m, d, nodes, 1, name_of(inode, 2, 3), into)?;
    push_under(m, d, nodes, 1, name_of(inode, 3, 1022), into)?;
    push_under(m, d, nodes, 2, name_of(inode, 4, 2041), into)
}

/// Pushes the names of the file with this inode in the order of their offsets, and reads the nodes of nids on the way.
/// A file whose inode has no nid slots has none.
pub fn push_names<D: Disk>(
    m: &Mount,
    d: &mut D,
    nodes: &Nodes,
    inode: &Block,
    into: &mut Vec<Name>,
) -> Result<(), CheckRefusal>
    requires lies { (layout_in m.now).blocks ≤ (D.state d.old).size }
    ensures names { OnOk result ((image : Image) (ino : ℕ) → (D.state d.old).told ≡ Some image → IsMountOf image m.now → IsKnown image nodes.now
        → read_node image ino ≡ Some inode.now → into.new.items ≡ into.old.items ++ file_names image ino) }
    ensures reads { Reads (D.state d.old) (D.state d.new) }
    ensures goes { Goes (D.state d.old) (D.state d.new) }
    ensures fault { IsErrOf result CheckRefusal.DiskFault → Rose (D.state d.old).faults (D.state d.new).faults }
{
    if !has_slots(inode) {
        return Ok(());
    }
    push_nids(m, d, nodes, inode, into)
}
