// What is kept of files on the first tour over them.
ghost use Rattle.std.specs.Prelude.{◌≡◌, ℕ, ◌^◌, ◌<◌, ◌≤◌, ◌++◌, ◌∷◌, [], ◌&&◌, suc, if◌then◌else◌, List, Some, IfOk, OnOk, IsErrOf};
ghost use Rattle.std.specs.List.{cons_option};
ghost use Rattle.f2_bytes.specs.Bytes.{Image, Block as FormatBlock};
ghost use Rattle.f2_bytes.specs.Node.{is_directory, has_slots as stands_in_blocks};
ghost use Rattle.f2_bytes.specs.Superblock.{layout as layout_of_image, IsInOrder};
ghost use Rattle.f2_files.specs.Addresses.{slot_of};
ghost use Rattle.f2_bytes.specs.Check.{inode_of};
ghost use Rattle.f2_items.specs.Directories.{DirectoriesAfter, DirectoriesInside};
ghost use Rattle.f2_files.specs.Kept.{slot_block, HasAttributes, KeptAfter, KeptInside};
ghost use Rattle.f2_survey.specs.Known.{IsKnown};
ghost use Rattle.f2_survey.specs.Slots.{file_slots, Slot as FormatSlot};
ghost use Rattle.f2_files.specs.Usage.{CountsNodes};
ghost use Rattle.f2_disk.specs.Disk.{Reads, Goes, Rose};
ghost use Rattle.f2_view.specs.Mounted.{layout_in, IsMountOf};

use crate::rule_4_addresses::Addresses;
use crate::rule_9_blocks::Usage;
use crate::rule_9_extents::Extents;
use crate::slots::Slot;
use f2_bytes::Layout;
use f2_defects::{CheckRefusal, Collector};
use f2_disk::{Block, Disk};
use f2_items::Directories;
use f2_node::{has_slots, inode_field};
use f2_survey::Nodes;
use f2_view::Mount;
use std::alloc::{AllocError, Global};

// The rows of an inode with the mode and the number of the attribute node.
const MODE: usize = 0;

const ATTRIBUTES: usize = 16;

// The offset that an attribute node says.
const ATTRIBUTE_OFFSET: u64 = 0x1FFF_FFFF;

// Whether the inode in a block is that of a directory that stands in blocks.
fn is_in_blocks(inode: &Block) -> bool
    ensures { result ≡ (is_directory inode.now && stands_in_blocks inode.now) }
{
    inode_field(inode, MODE) / 4096 == 4 && has_slots(inode)
}

// Compares the offset of the attribute node that an inode names.
fn compare_attributes(
    defects: &mut Collector,
    nodes: &Nodes,
    ino: u32,
    inode: &Block,
) -> Result<(), AllocError>
    ensures { OnOk result ((image : Image) → IsKnown image nodes.now → inode_of image ino ≡ Some inode.now → HasAttributes image ino defects.old → HasAttributes image (suc ino) defects.new) }
{
    let nid = inode_field(inode, ATTRIBUTES) as u32;
    if nid == 0 {
        return Ok(());
    }
    let offset = nodes.offset_in(nid, ino);
    defects.same(u64::from(ino), 0, offset, ATTRIBUTE_OFFSET)
}

// Gives the block that a slot names to the directories, where it is the first with that address in a directory that stands
// in blocks.
fn give_block<D: Disk>(
    directories: &mut Directories,
    m: &Mount,
    d: &mut D,
    nodes: &Nodes,
    slot: &Slot,
    gives: bool,
) -> Result<(), CheckRefusal>
    requires lies { (layout_in m.now).blocks ≤ (D.state d.old).size }
    requires number { slot.now.k < 2 ^ 32 }
    ensures gives { OnOk result ((image : Image) (ino : ℕ) (blocks : List (ℕ × FormatBlock)) → (D.state d.old).told ≡ Some image → IsMountOf image m.now → IsKnown image nodes.now
        → DirectoriesInside image ino blocks directories.old → DirectoriesInside image ino (blocks ++ (if gives then cons_option (slot_block image (slot_of slot.now)) [] else [])) directories.new) }
    ensures reads { Reads (D.state d.old) (D.state d.new) }
    ensures goes { Goes (D.state d.old) (D.state d.new) }
    ensures fault { IsErrOf result CheckRefusal.DiskFault → Rose (D.state d.old).faults (D.state d.new).faults }
{
    if !gives {
        return Ok(());
    }
    let mut block = Block::zeros();
    if !m.main_block(d, slot.address, &mut block)? {
        return Ok(());
    }
    directories.block(nodes, slot.k, &block)?;
    Ok(())
}

/// What is kept of files on the first tour over them, for the rules on addresses, on counts, on extents, on attributes and
/// on directories.
pub struct Kept {
    pub addresses: Addresses,
    pub usage: Usage,
    pub extents: Extents,
    pub attributes: Collector,
    pub directories: Directories,
    /// whether the file that is visited is a directory that stands in blocks
    pub in_blocks: bool,
}

// Written out, and not derived, so that it is one call wherever a `Kept` goes out of scope: a derived one is the calls for
// all its fields.
impl Drop for Kept {
    fn drop(self) {
        let Kept {
            addresses: _,
            usage: _,
            extents: _,
            attributes: _,
            directories: _,
            in_blocks: _,
        } = self;
    }
}

impl Kept {
    /// Before the first file, with the owners of blocks as the nodes alone say, how many nodes the file of each number has,
    /// and what is kept of directories before the first one.
    pub fn new(
        alloc: Global,
        layout: &Layout,
        nodes: &Nodes,
        counts: Vec<u32>,
        directories: Directories,
    ) -> Result<Kept, AllocError>
        ensures { IfOk result (λ k. (image : Image) → IsKnown image nodes.now → IsInOrder layout.now → layout_of_image image ≡ layout.now → CountsNodes image counts.items
            → DirectoriesAfter image 0 directories → KeptAfter image 0 k) }
    {
        Ok(Kept {
            addresses: Addresses::new(alloc, layout, nodes)?,
            usage: Usage::new(alloc, counts),
            extents: Extents::new(alloc),
            attributes: Collector::new(alloc, 1),
            directories,
            in_blocks: false,
        })
    }

    /// Begins the file of this number, which has this inode.
    pub fn begin(&mut self, nodes: &Nodes, ino: u32, inode: &Block) -> Result<(), AllocError>
        ensures { OnOk result ((image : Image) → IsKnown image nodes.now → inode_of image ino ≡ Some inode.now → KeptAfter image ino self.old → KeptInside image ino [] self.new) }
    {
        compare_attributes(&mut self.attributes, nodes, ino, inode)?;
        self.usage.begin(inode);
        self.extents.begin(inode);
        self.in_blocks = is_in_blocks(inode);
        self.directories.begin(nodes, ino, inode)
    }

    /// Takes the next slot of the file.
    pub fn take<D: Disk>(
        &mut self,
        m: &Mount,
        d: &mut D,
        nodes: &Nodes,
        slot: &Slot,
    ) -> Result<(), CheckRefusal>
        requires lies { (layout_in m.now).blocks ≤ (D.state d.old).size }
        requires number { slot.now.k < 2 ^ 32 }
        ensures takes { OnOk result ((image : Image) (slots : List FormatSlot) → (D.state d.old).told ≡ Some image → IsMountOf image m.now → IsKnown image nodes.now
            → KeptInside image slot.now.ino slots self.old → KeptInside image slot.now.ino (slots ++ slot_of slot.now ∷ []) self.new) }
        ensures reads { Reads (D.state d.old) (D.state d.new) }
        ensures goes { Goes (D.state d.old) (D.state d.new) }
        ensures fault { IsErrOf result CheckRefusal.DiskFault → Rose (D.state d.old).faults (D.state d.new).faults }
    {
        let first = self.addresses.take(slot)?;
        self.usage.take();
        self.extents.take(slot)?;
        let gives = first && self.in_blocks;
        give_block(&mut self.directories, m, d, nodes, slot, gives)
    }

    /// Ends the file of this number.
    pub fn end(&mut self, nodes: &Nodes, ino: u32) -> Result<(), AllocError>
        ensures { OnOk result ((image : Image) (inode : List ℕ) → IsKnown image nodes.now → inode_of image ino ≡ Some inode
            → KeptInside image ino (file_slots image ino) self.old → KeptAfter image (suc ino) self.new) }
    {
        self.usage.end(ino)?;
        self.extents.end(ino)?;
        self.directories.end(nodes, ino)
    }
}
