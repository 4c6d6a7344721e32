// The nodes of a mounted image's files.
ghost use Rattle.std.specs.Prelude.{◌≡◌, ◌≤◌, false, if◌then◌else◌, Some, None, Ok, IfOk, IsErrOf};
ghost use Rattle.f2_bytes.specs.Bytes.{Image};
ghost use Rattle.f2_bytes.specs.Superblock.{is_main};
ghost use Rattle.f2_bytes.specs.Tree.{read_node, tree_node, tree_slot};
ghost use Rattle.f2_bytes.specs.Tree.{main_block as block_in_main, node_within as node_in_steps};
ghost use Rattle.f2_disk.specs.Disk.{Reads, Goes, Rose};
ghost use Rattle.f2_view.specs.Mounted.{layout_in, IsMountOf};

use crate::{Mount, ViewRefusal};
use f2_bytes::Layout;
use f2_disk::{Block, Disk};
use f2_node::{address_at, addresses, has_slots, locate, nid_at, parent_of};

// The least nid of a node: 0 is none, and 1 and 2 stand for the tables themselves.
const FIRST_NID: u32 = 3;

// Whether a block of the main area has this address.
fn is_in_main(l: &Layout, address: u32) -> bool
    ensures { result ≡ is_main l.now address }
{
    l.main <= address && u64::from(address) < u64::from(l.main) + 512 * u64::from(l.segments)
}

impl Mount {
    /// Reads the block at this address, where that lies in the main area: true exactly then. Else the block stays. After a
    /// refusal its bytes are any.
    pub fn main_block<D: Disk>(
        &self,
        d: &mut D,
        address: u32,
        into: &mut Block,
    ) -> Result<bool, ViewRefusal>
        requires lies { (layout_in self.now).blocks ≤ (D.state d.old).size }
        ensures block { IfOk result (λ found. (image : Image) → (D.state d.old).told ≡ Some image → IsMountOf image self.now
            → block_in_main image address ≡ (if found then Some into.new else None)) }
        ensures stays { result ≡ Ok false → into.new ≡ into.old }
        ensures reads { Reads (D.state d.old) (D.state d.new) }
        ensures goes { Goes (D.state d.old) (D.state d.new) }
        ensures fault { IsErrOf result ViewRefusal.DiskFault → Rose (D.state d.old).faults (D.state d.new).faults }
    {
        let l = self.layout();
        if !is_in_main(&l, address) {
            return Ok(false);
        }
        d.read(u64::from(address), into)?;
        Ok(true)
    }

    /// Reads the node with this nid, where the node address table has one with an address in the main area: true
    /// exactly then. Else the block stays. After a refusal its bytes are any.
    pub fn node<D: Disk>(
        &mut self,
        d: &mut D,
        nid: u32,
        into: &mut Block,
    ) -> Result<bool, ViewRefusal>
        requires lies { (layout_in self.old).blocks ≤ (D.state d.old).size }
        ensures node { IfOk result (λ found. (image : Image) → (D.state d.old).told ≡ Some image → IsMountOf image self.old
            → read_node image nid ≡ (if found then Some into.new else None)) }
        ensures stays { result ≡ Ok false → into.new ≡ into.old }
        ensures mount { self.new ≡ self.old }
        ensures reads { Reads (D.state d.old) (D.state d.new) }
        ensures goes { Goes (D.state d.old) (D.state d.new) }
        ensures fault { IsErrOf result ViewRefusal.DiskFault → Rose (D.state d.old).faults (D.state d.new).faults }
    {
        if nid < FIRST_NID {
            return Ok(false);
        }
        if nid >= self.nat.limit() {
            return Ok(false);
        }
        let address = self.nat_entry(d, nid)?.addr;
        self.main_block(d, address, into)
    }

    // Reads the node of file `ino` at this offset among the file's nodes, where at most so many steps down from the inode
    // lead to it.
    fn node_within<D: Disk>(
        &mut self,
        d: &mut D,
        steps: u8,
        ino: u32,
        offset: u32,
        into: &mut Block,
    ) -> Result<bool, ViewRefusal>
        requires lies { (layout_in self.old).blocks ≤ (D.state d.old).size }
        ensures node { IfOk result (λ found. (image : Image) → (D.state d.old).told ≡ Some image → IsMountOf image self.old
            → node_in_steps steps image ino offset ≡ (if found then Some into.new else None)) }
        ensures mount { self.new ≡ self.old }
        ensures reads { Reads (D.state d.old) (D.state d.new) }
        ensures goes { Goes (D.state d.old) (D.state d.new) }
        ensures fault { IsErrOf result ViewRefusal.DiskFault → Rose (D.state d.old).faults (D.state d.new).faults }
    {
        if offset == 0 {
            return self.node(d, ino, into);
        }
        if steps == 0 {
            return Ok(false);
        }
        let spot = match parent_of(offset) {
            Some(spot) => spot,
            None => return Ok(false),
        };
        if !self.node_within(d, steps - 1, ino, spot.offset, into)? {
            return Ok(false);
        }
        let nid = nid_at(into, spot);
        self.node(d, nid, into)
    }

    /// Reads the node of file `ino` at this offset among the file's nodes, where the nid slots of the nodes above it lead
    /// to one: true exactly then. Else the bytes in `into` are any. The inode itself is at offset 0.
    pub fn file_node<D: Disk>(
        &mut self,
        d: &mut D,
        ino: u32,
        offset: u32,
        into: &mut Block,
    ) -> Result<bool, ViewRefusal>
        requires lies { (layout_in self.old).blocks ≤ (D.state d.old).size }
        ensures node { IfOk result (λ found. (image : Image) → (D.state d.old).told ≡ Some image → IsMountOf image self.old
            → tree_node image ino offset ≡ (if found then Some into.new else None)) }
        ensures mount { self.new ≡ self.old }
        ensures reads { Reads (D.state d.old) (D.state d.new) }
        ensures goes { Goes (D.state d.old) (D.state d.new) }
        ensures fault { IsErrOf result ViewRefusal.DiskFault → Rose (D.state d.old).faults (D.state d.new).faults }
    {
        self.node_within(d, 3, ino, offset, into)
    }

    /// The address of block `k` of file `ino`, as the nid slots of its nodes lead to it: 0 for a hole, where a node on the
    /// way is missing, past the last block that a file can have, and for a file whose inode is missing or names no blocks.
    pub fn slot<D: Disk>(&mut self, d: &mut D, ino: u32, k: u64) -> Result<u32, ViewRefusal>
        requires lies { (layout_in self.old).blocks ≤ (D.state d.old).size }
        ensures slot { IfOk result (λ address. (image : Image) → (D.state d.old).told ≡ Some image → IsMountOf image self.old
            → address ≡ tree_slot image ino k) }
        ensures mount { self.new ≡ self.old }
        ensures reads { Reads (D.state d.old) (D.state d.new) }
        ensures goes { Goes (D.state d.old) (D.state d.new) }
        ensures fault { IsErrOf result ViewRefusal.DiskFault → Rose (D.state d.old).faults (D.state d.new).faults }
    {
        let mut block = Block::zeros();
        if !self.node(d, ino, &mut block)? {
            return Ok(0);
        }
        if !has_slots(&block) {
            return Ok(0);
        }
        let spot = match locate(k, addresses(&block)) {
            Some(spot) => spot,
            None => return Ok(0),
        };
        if spot.offset == 0 {
            return Ok(address_at(&block, spot));
        }
        if !self.file_node(d, ino, spot.offset, &mut block)? {
            return Ok(0);
        }
        Ok(address_at(&block, spot))
    }
}
