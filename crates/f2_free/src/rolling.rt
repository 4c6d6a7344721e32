// The node address table after roll-forward.
ghost use Rattle.std.specs.Prelude.{◌≡◌, ◌≤◌, ◌<◌, ◌==◌, ◌&&◌, ℕ, length, get_or, if◌then◌else◌, Some, OnOk, IsErrOf};
ghost use Rattle.f2_bytes.specs.Bytes.{Image};
ghost use Rattle.f2_free.specs.ChainNodes.{nodes_read, counts_of};
ghost use Rattle.f2_free.specs.NodePlaces.{HasTable, HasFound, IsOffZero, entry_of};
ghost use Rattle.f2_disk.specs.Disk.{Reads, Goes, Rose};
ghost use Rattle.f2_roll.specs.Chain.{chain_in, IsWithin};
ghost use Rattle.f2_view.specs.Mounted.{layout_in, IsMountOf};

use crate::chain_reading::{ChainNode, chain_nodes};
use crate::fsyncs::counting;
use f2_disk::Disk;
use f2_roll::Chain;
use f2_sum::NatEntry;
use f2_view::{Mount, ViewRefusal};
use std::alloc::Global;

// Puts the place of a node of the chain into the entry of its number, where it counts and there is such an entry. The
// version stays out: no place depends on it.
fn put(entries: &mut Vec<NatEntry>, node: ChainNode, counts: bool)
    ensures length { length entries.new.items ≡ length entries.old.items }
    ensures entries { (nid : ℕ) (other : NatEntry) → nid < length entries.old.items
        → get_or entries.new.items nid other ≡ (if counts && (node.nid == nid) then entry_of node else get_or entries.old.items nid other) }
{
    let at = node.nid as usize;
    if counts && at < entries.len() {
        entries[at] = NatEntry {
            version: 0,
            ino: node.ino,
            addr: node.address,
        };
    }
}

// Puts the places of the nodes of a chain that count into the entries of their numbers.
fn put_counting(entries: &mut Vec<NatEntry>, nodes: &[ChainNode], counts: &[bool])
    requires { length counts.now ≡ length nodes.now }
    ensures length { length entries.new.items ≡ length entries.old.items }
    ensures found { (image : Image) → HasTable image entries.old.items → nodes.now ≡ nodes_read image → counts.now ≡ counts_of image → IsOffZero image
        → HasFound image entries.new.items }
{
    for n in 0..nodes.len() {
        put(entries, nodes[n], counts[n]);
    }
}

// Puts the places of the nodes of a chain that count into the entries of the node address table.
pub fn roll_forward<D: Disk>(
    alloc: Global,
    m: &Mount,
    c: &Chain,
    d: &mut D,
    entries: &mut Vec<NatEntry>,
) -> Result<(), ViewRefusal>
    requires lies { (layout_in m.now).blocks ≤ (D.state d.old).size }
    requires within { IsWithin (layout_in m.now) c.now }
    ensures found { OnOk result ((image : Image) → (D.state d.old).told ≡ Some image → IsMountOf image m.now → c.now ≡ chain_in image
        → HasTable image entries.old.items → HasFound image entries.new.items) }
    ensures length { OnOk result (length entries.new.items ≡ length entries.old.items) }
    ensures reads { Reads (D.state d.old) (D.state d.new) }
    ensures goes { Goes (D.state d.old) (D.state d.new) }
    ensures fault { IsErrOf result ViewRefusal.DiskFault → Rose (D.state d.old).faults (D.state d.new).faults }
{
    let _ = m.layout();
    let nodes = chain_nodes(alloc, m, c, d, entries)?;
    let counts = counting(alloc, &nodes)?;
    put_counting(entries, &nodes, &counts);
    Ok(())
}
