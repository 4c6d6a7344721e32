// How many blocks move with those at some addresses.
ghost use Rattle.std.specs.Prelude.{◌≡◌, ◌≤◌, length, All, Some, IfOk, IsErrOf, IsTrue, true};
ghost use Rattle.std.specs.List.Sorted.{IsStrictlyIncreasing};
ghost use Rattle.f2_bytes.specs.Bytes.{Image};
ghost use Rattle.f2_bytes.specs.Check.{is_checked, is_marked};
ghost use Rattle.f2_bytes.specs.Defragment.{placement, data_among, nodes_among};
ghost use Rattle.f2_bytes.specs.NodeAddressTable.{nid_limit};
ghost use Rattle.f2_bytes.specs.Superblock.{is_main, layout};
ghost use Rattle.f2_disk.specs.Disk.{Reads, Goes, Rose};
ghost use Rattle.f2_view.specs.Mounted.{layout_in, IsMountOf};

use crate::gathering::gather;
use f2_disk::Disk;
use f2_view::{Mount, ViewRefusal};
use std::alloc::Global;

/// How many blocks move with those at some addresses.
#[derive(Clone, Copy, Debug, PartialEq, Eq)]
pub struct Weight {
    /// Blocks of files.
    pub data_blocks: u64,
    /// Nodes: those that stand at one of the addresses, those that hold the address of a block of a file that moves, and
    /// the inodes of regular files whose extents cover such a block, each once.
    pub node_blocks: u64,
}

/// How many blocks move when the blocks at these addresses of a checked image move: at most 4096 addresses of valid main
/// blocks, ascending. It writes nothing, and fails where a read fails (`DiskFault`) or memory is short (`NoMemory`).
pub fn weigh<D: Disk>(
    alloc: Global,
    m: &mut Mount,
    addrs: &[u32],
    d: &mut D,
) -> Result<Weight, ViewRefusal>
    requires lies { (layout_in m.old).blocks ≤ (D.state d.old).size }
    requires few { length addrs.now ≤ 4096 }
    requires main { All (λ a. is_main (layout_in m.old) a ≡ true) addrs.now }
    requires ascending { IsStrictlyIncreasing addrs.now }
    requires checked { (image : Image) → (D.state d.old).told ≡ Some image → is_checked image ≡ true }
    requires of_image { (image : Image) → (D.state d.old).told ≡ Some image → IsMountOf image m.old }
    requires valid { (image : Image) → (D.state d.old).told ≡ Some image → All (λ a. IsTrue (is_marked image a)) addrs.now }
    ensures weight { IfOk result (λ w. (image : Image) → (D.state d.old).told ≡ Some image → w ≡ record {
      data_blocks = length (data_among (nid_limit (layout image)) (placement image) addrs.now);
      node_blocks = length (nodes_among (nid_limit (layout image)) (placement image) addrs.now);
    }) }
    ensures mount { m.new ≡ m.old }
    ensures reads { Reads (D.state d.old) (D.state d.new) }
    ensures goes { Goes (D.state d.old) (D.state d.new) }
    ensures fault { IsErrOf result ViewRefusal.DiskFault → Rose (D.state d.old).faults (D.state d.new).faults }
{
    let found = gather(alloc, m, addrs, d)?;
    Ok(Weight {
        data_blocks: found.data.len() as u64,
        node_blocks: found.nodes.len() as u64,
    })
}
