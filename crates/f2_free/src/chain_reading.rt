// The nodes of a chain, as they are read.
ghost use Rattle.std.specs.Prelude.{◌≡◌, ◌≤◌, ℕ, ◌++◌, ◌∷◌, [], true, is_some, Some, IfOk, OnOk, IsErrOf};
ghost use Rattle.f2_bytes.specs.Bytes.{Image};
ghost use Rattle.f2_bytes.specs.NodeAddressTable.{nat};
ghost use Rattle.f2_bytes.specs.RollForward.{chain_address};
ghost use Rattle.f2_bytes.specs.RollForward.{chain_node as block_in_chain};
ghost use Rattle.f2_bytes.specs.Superblock.{is_main};
ghost use Rattle.f2_free.specs.ChainNodes.{node_read, nodes_read};
ghost use Rattle.f2_free.specs.NodePlaces.{HasTable};
ghost use Rattle.f2_disk.specs.Disk.{Reads, Goes, Rose};
ghost use Rattle.f2_roll.specs.Chain.{chain_in, IsWithin};
ghost use Rattle.f2_view.specs.Mounted.{layout_in, IsMountOf};

use crate::marking::is_node;
use f2_disk::{Block, Disk};
use f2_node::footer;
use f2_roll::Chain;
use f2_sum::NatEntry;
use f2_view::{Mount, ViewRefusal};
use std::alloc::{AllocError, Global};

/// What is read of a node of a chain: what its footer says, and where it stands.
#[derive(Clone, Copy, Debug, PartialEq, Eq)]
pub struct ChainNode {
    /// The number of the node.
    pub nid: u32,
    /// The number of its file's inode.
    pub ino: u32,
    /// Where it stands, in blocks from the start of the image.
    pub address: u32,
    /// Whether it has offset 0, which is that of an inode.
    pub is_inode: bool,
    /// Whether it has the mark of an fsync: one wrote it.
    pub fsync: bool,
    /// Whether it has the mark of a directory entry: its file has a name that is to be added.
    pub dentry: bool,
    /// Whether the node address table has a node with the number of the inode.
    pub listed: bool,
}

// Whether the node address table with these entries has a node of this number.
fn is_listed(entries: &[NatEntry], nid: u32) -> bool
    ensures { (image : Image) → HasTable image entries.now → result ≡ is_some (nat image nid) }
{
    let at = nid as usize;
    if at >= entries.len() {
        return false;
    }
    is_node(nid, entries[at])
}

// The node in a block at this address.
fn chain_node(entries: &[NatEntry], address: u32, b: &Block) -> ChainNode
    ensures { (image : Image) (n : ℕ) → HasTable image entries.now → b.now ≡ block_in_chain image n → address ≡ chain_address image n → result ≡ node_read image n }
{
    let said = footer(b);
    ChainNode {
        nid: said.nid,
        ino: said.ino,
        address,
        is_inode: said.flag / 8 == 0,
        fsync: said.flag / 2 % 2 == 1,
        dentry: said.flag / 4 % 2 == 1,
        listed: is_listed(entries, said.ino),
    }
}

// Reads the node of a chain at this address.
fn read_chain_node<D: Disk>(
    m: &Mount,
    d: &mut D,
    entries: &[NatEntry],
    address: u32,
) -> Result<ChainNode, ViewRefusal>
    requires lies { (layout_in m.now).blocks ≤ (D.state d.old).size }
    requires main { is_main (layout_in m.now) address ≡ true }
    ensures node { IfOk result (λ node. (image : Image) (n : ℕ) → (D.state d.old).told ≡ Some image → HasTable image entries.now → address ≡ chain_address image n
        → node ≡ node_read image n) }
    ensures reads { Reads (D.state d.old) (D.state d.new) }
    ensures goes { Goes (D.state d.old) (D.state d.new) }
    ensures fault { IsErrOf result ViewRefusal.DiskFault → Rose (D.state d.old).faults (D.state d.new).faults }
{
    let _ = m.layout();
    let mut block = Block::zeros();
    d.read(u64::from(address), &mut block)?;
    Ok(chain_node(entries, address, &block))
}

// Puts a node behind the others.
fn add(nodes: &mut Vec<ChainNode>, node: ChainNode) -> Result<(), AllocError>
    ensures { OnOk result (nodes.new.items ≡ nodes.old.items ++ node ∷ []) }
{
    nodes.push(node)?;
    Ok(())
}

/// Reads the nodes of a chain in order, each once. The node address table has these entries, from nid 0 on. It writes
/// nothing, and fails where a read fails (`DiskFault`) or memory is short (`NoMemory`).
pub fn chain_nodes<D: Disk>(
    alloc: Global,
    m: &Mount,
    c: &Chain,
    d: &mut D,
    entries: &[NatEntry],
) -> Result<Vec<ChainNode>, ViewRefusal>
    requires lies { (layout_in m.now).blocks ≤ (D.state d.old).size }
    requires within { IsWithin (layout_in m.now) c.now }
    ensures nodes { IfOk result (λ nodes. (image : Image) → (D.state d.old).told ≡ Some image → IsMountOf image m.now → c.now ≡ chain_in image
        → HasTable image entries.now → nodes.items ≡ nodes_read image) }
    ensures reads { Reads (D.state d.old) (D.state d.new) }
    ensures goes { Goes (D.state d.old) (D.state d.new) }
    ensures fault { IsErrOf result ViewRefusal.DiskFault → Rose (D.state d.old).faults (D.state d.new).faults }
{
    let mut nodes = Vec::new(alloc);
    for address in c.nodes() {
        let node = read_chain_node(m, d, entries, *address)?;
        add(&mut nodes, node)?;
    }
    Ok(nodes)
}
