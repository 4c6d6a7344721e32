// The entries of a mounted image's directories.
ghost use Rattle.std.specs.Prelude.{◌≡◌, ◌≤◌, ◌<◌, ◌+◌, ◌-◌, ◌*◌, ◌/◌, ◌^◌, ◌++◌, [], ◌∷◌, true, length, Some, IfOk, OnOk, IsErrOf, map, filter};
ghost use Rattle.f2_bytes.specs.Bytes.{Image};
ghost use Rattle.f2_bytes.specs.Directory.{scan, inline_slots};
ghost use Rattle.f2_bytes.specs.Node.{inline_area, inline_length, inode_nid};
ghost use Rattle.f2_bytes.specs.Tree.{tree_items};
ghost use Rattle.f2_disk.specs.Disk.{Reads, Goes, Rose};
ghost use Rattle.f2_view.specs.Directories.{item_of, legal, shifted, kept, IsNamed, items_under, word_items, nid_items, inode_items, Adds};
ghost use Rattle.f2_view.specs.Mounted.{layout_in, IsMountOf};

use crate::{Mount, ViewRefusal};
use f2_dent::{DirScan, Item, Name};
use f2_disk::{Block, Disk};
use f2_node::{Spot, address_at, addresses, has_slots, inline_range, is_inline, nid_at, word};
use std::alloc::AllocError;

// The slots of a block.
const SLOTS: usize = 214;

// How many numbers a node has.
const IN_NODE: u64 = 1018;

// How many blocks hang on an indirect node.
const IN_INDIRECT: u64 = IN_NODE * IN_NODE;

/// An entry of a directory.
#[derive(Clone, Copy)]
pub struct Named {
    /// 214 times the number of its block in the directory plus its slot there; in an inline directory its slot.
    pub place: u64,
    /// The hash that it says.
    pub hash: u32,
    /// The type of the inode that it says: 1 regular, 2 directory, 3 character, 4 block, 5 fifo, 6 socket, 7 symlink.
    pub kind: u8,
    /// The number of the inode that it names.
    pub ino: u32,
    pub name: Name,
}

// Pushes an item of an area if its name is legal. The first slot of the area has the place `first`.
fn push_item(area: &[u8], item: Item, first: u64, into: &mut Vec<Named>) -> Result<(), AllocError>
    requires fits { first + item.slot < 2 ^ 64 }
    requires name { item.legal ≡ true → IsNamed area.now item }
    ensures entries { OnOk result (map item_of into.new.items ≡ map item_of into.old.items ++ legal (kept area.now first item ∷ [])) }
{
    if !item.legal {
        return Ok(());
    }
    let name = Name::new(&area[item.at..item.at + usize::from(item.len)]).unwrap();
    into.push(Named {
        place: first + item.slot as u64,
        hash: item.hash,
        kind: item.kind,
        ino: item.ino,
        name,
    })?;
    Ok(())
}

// Pushes the items of an area whose names are legal.
fn push_items(
    area: &[u8],
    slots: usize,
    first: u64,
    into: &mut Vec<Named>,
) -> Result<(), AllocError>
    requires room { (slots + 7) / 8 + 19 * slots ≤ length area.now }
    requires fits { first + slots < 2 ^ 64 }
    ensures entries { OnOk result (map item_of into.new.items ≡ map item_of into.old.items ++ legal (map (shifted first) (scan area.now slots))) }
{
    for item in DirScan::new(area, slots) {
        push_item(area, item, first, into)?;
    }
    Ok(())
}

// Pushes the entries of the directory that stands in this inode.
fn push_inline(inode: &Block, into: &mut Vec<Named>) -> Result<(), AllocError>
    ensures entries { OnOk result (map item_of into.new.items ≡ map item_of into.old.items ++ legal (scan (inline_area inode.now) (inline_slots (inline_length inode.now)))) }
{
    let (at, len) = inline_range(inode);
    let area = &inode.bytes()[at..at + len];
    push_items(area, 8 * len / 153, 0, into)
}

// One of the five nids of an inode.
fn nid_in(inode: &Block, slot: u32) -> u32
    requires { slot < 5 }
    ensures { result ≡ inode_nid inode.now slot }
{
    nid_at(inode, Spot { offset: 0, slot })
}

impl Mount {
    // Pushes the entries in the block at an address, which is block `first` of a directory.
    fn push_block<D: Disk>(
        &self,
        d: &mut D,
        address: u32,
        first: u64,
        into: &mut Vec<Named>,
    ) -> Result<(), ViewRefusal>
        requires lies { (layout_in self.now).blocks ≤ (D.state d.old).size }
        requires number { first < 2 ^ 32 }
        ensures entries { OnOk result (Adds (D.state d.old).told self.now into.old.items into.new.items (λ image. items_under image 0 first address)) }
        ensures reads { Reads (D.state d.old) (D.state d.new) }
        ensures goes { Goes (D.state d.old) (D.state d.new) }
        ensures fault { IsErrOf result ViewRefusal.DiskFault → Rose (D.state d.old).faults (D.state d.new).faults }
    {
        // the mount knows that main begins past block 0
        let _ = &self.alloc;
        if address == 0 {
            return Ok(());
        }
        let mut block = Block::zeros();
        if self.main_block(d, address, &mut block)? {
            push_items(block.bytes(), SLOTS, SLOTS as u64 * first, into)?;
        }
        Ok(())
    }

    // Pushes the entries in block `first` of a directory, which has this address. At a greater height those in the blocks
    // from that one on, to which the node of a nid leads in so many steps.
    fn push_under<D: Disk>(
        &mut self,
        d: &mut D,
        height: u8,
        number: u32,
        first: u64,
        into: &mut Vec<Named>,
    ) -> Result<(), ViewRefusal>
        requires lies { (layout_in self.old).blocks ≤ (D.state d.old).size }
        requires height { height ≤ 3 }
        requires numbers { first + 1018 ^ height ≤ 2 ^ 32 }
        ensures entries { OnOk result (Adds (D.state d.old).told self.old into.old.items into.new.items (λ image. items_under image height first number)) }
        ensures mount { self.new ≡ self.old }
        ensures reads { Reads (D.state d.old) (D.state d.new) }
        ensures goes { Goes (D.state d.old) (D.state d.new) }
        ensures fault { IsErrOf result ViewRefusal.DiskFault → Rose (D.state d.old).faults (D.state d.new).faults }
    {
        if height == 0 {
            return self.push_block(d, number, first, into);
        }
        let mut node = Block::zeros();
        if !self.node(d, number, &mut node)? {
            return Ok(());
        }
        let span = IN_NODE.pow(u32::from(height - 1));
        for j in 0..IN_NODE {
            let below = word(&node, j as usize);
            self.push_under(d, height - 1, below, first + j * span, into)?;
        }
        Ok(())
    }

    // Pushes the entries in the blocks that the address words of an inode name.
    fn push_words<D: Disk>(
        &mut self,
        d: &mut D,
        inode: &Block,
        into: &mut Vec<Named>,
    ) -> Result<(), ViewRefusal>
        requires lies { (layout_in self.old).blocks ≤ (D.state d.old).size }
        ensures entries { OnOk result (Adds (D.state d.old).told self.old into.old.items into.new.items (λ image. word_items image inode.now)) }
        ensures mount { self.new ≡ self.old }
        ensures reads { Reads (D.state d.old) (D.state d.new) }
        ensures goes { Goes (D.state d.old) (D.state d.new) }
        ensures fault { IsErrOf result ViewRefusal.DiskFault → Rose (D.state d.old).faults (D.state d.new).faults }
    {
        for j in 0..addresses(inode) {
            let address = address_at(inode, Spot { offset: 0, slot: j });
            self.push_block(d, address, u64::from(j), into)?;
        }
        Ok(())
    }

    // Pushes the entries in the blocks that the five nids of an inode lead to.
    fn push_nids<D: Disk>(
        &mut self,
        d: &mut D,
        inode: &Block,
        into: &mut Vec<Named>,
    ) -> Result<(), ViewRefusal>
        requires lies { (layout_in self.old).blocks ≤ (D.state d.old).size }
        ensures entries { OnOk result (Adds (D.state d.old).told self.old into.old.items into.new.items (λ image. nid_items image inode.now)) }
        ensures mount { self.new ≡ self.old }
        ensures reads { Reads (D.state d.old) (D.state d.new) }
        ensures goes { Goes (D.state d.old) (D.state d.new) }
        ensures fault { IsErrOf result ViewRefusal.DiskFault → Rose (D.state d.old).faults (D.state d.new).faults }
    {
        let n = u64::from(addresses(inode));
        let third = n + 2 * IN_NODE;
        self.push_under(d, 1, nid_in(inode, 0), n, into)?;
        self.push_under(d, 1, nid_in(inode, 1), n + IN_NODE, into)?;
        self.push_under(d, 2, nid_in(inode, 2), third, into)?;
        self.push_under(d, 2, nid_in(inode, 3), third + IN_INDIRECT, into)?;
        self.push_under(d, 3, nid_in(inode, 4), third + 2 * IN_INDIRECT, into)
    }

    // Pushes the entries of the directory with this inode.
    fn push_inode<D: Disk>(
        &mut self,
        d: &mut D,
        inode: &Block,
        into: &mut Vec<Named>,
    ) -> Result<(), ViewRefusal>
        requires lies { (layout_in self.old).blocks ≤ (D.state d.old).size }
        ensures entries { OnOk result (Adds (D.state d.old).told self.old into.old.items into.new.items (λ image. inode_items image inode.now)) }
        ensures mount { self.new ≡ self.old }
        ensures reads { Reads (D.state d.old) (D.state d.new) }
        ensures goes { Goes (D.state d.old) (D.state d.new) }
        ensures fault { IsErrOf result ViewRefusal.DiskFault → Rose (D.state d.old).faults (D.state d.new).faults }
    {
        if is_inline(inode) {
            return Ok(push_inline(inode, into)?);
        }
        if !has_slots(inode) {
            return Ok(());
        }
        self.push_words(d, inode, into)?;
        self.push_nids(d, inode, into)
    }

    /// The entries of a directory whose names are legal, `.` and `..` among them, in ascending order of place. A block
    /// that lies outside the main area, or whose node is missing, has none; neither has a directory whose inode is missing.
    pub fn entries<D: Disk>(&mut self, d: &mut D, ino: u32) -> Result<Vec<Named>, ViewRefusal>
        requires lies { (layout_in self.old).blocks ≤ (D.state d.old).size }
        ensures entries { IfOk result (λ entries. (image : Image) → (D.state d.old).told ≡ Some image → IsMountOf image self.old
            → map item_of entries.items ≡ filter (λ item. item.is_legal) (tree_items image ino)) }
        ensures mount { self.new ≡ self.old }
        ensures reads { Reads (D.state d.old) (D.state d.new) }
        ensures goes { Goes (D.state d.old) (D.state d.new) }
        ensures fault { IsErrOf result ViewRefusal.DiskFault → Rose (D.state d.old).faults (D.state d.new).faults }
    {
        let mut entries = Vec::new(self.alloc);
        let mut inode = Block::zeros();
        if self.node(d, ino, &mut inode)? {
            self.push_inode(d, &inode, &mut entries)?;
        }
        Ok(entries)
    }
}
