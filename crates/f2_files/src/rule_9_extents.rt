// The extents of regular files.
ghost use Rattle.std.specs.Prelude.{◌≡◌, ℕ, ◌+◌, ◌-◌, ◌^◌, ◌<◌, ◌≤◌, ◌++◌, ◌∷◌, [], suc, List, Some, OnOk};
ghost use Rattle.f2_bytes.specs.Bytes.{Image};
ghost use Rattle.f2_bytes.specs.Node.{is_regular as is_regular_file, address_count};
ghost use Rattle.f2_bytes.specs.Node.{block_limit as format_limit};

use crate::slots::Slot;
use f2_defects::Collector;
use f2_disk::Block;
use f2_node::{addresses, inode_field, is_inline};
use std::alloc::{AllocError, Global};

// The rows of an inode with the mode and the extent.
const MODE: usize = 0;

const FIRST_BLOCK: usize = 21;

const ADDRESS: usize = 22;

const LENGTH: usize = 23;

// How many numbers a node has.
const IN_NODE: u64 = 1018;

// The value that stands for none.
const NONE: u64 = 1 << 32;

// Whether the inode in a block is that of a regular file.
fn is_regular(inode: &Block) -> bool
    ensures { result ≡ is_regular_file inode.now }
{
    inode_field(inode, MODE) / 4096 == 8
}

// How many blocks a file of this inode can have.
fn block_limit(inode: &Block) -> u64
    ensures { result ≡ format_limit (address_count inode.now) }
{
    u64::from(addresses(inode)) + 2 * IN_NODE + 2 * IN_NODE * IN_NODE + IN_NODE * IN_NODE * IN_NODE
}

/// The blocks of a file that its extent speaks of, and how far they have been compared.
#[derive(Drop)]
pub struct Extent {
    /// the first block, its address, and where the extent ends
    pub first: u64,
    pub address: u64,
    pub end: u64,
    /// from this block on there are no addresses
    pub limit: u64,
    /// the next block to compare
    pub next: u64,
    ghost begun: { first ≤ next },
    ghost within: { next ≤ end },
    ghost few: { end < 2 ^ 33 },
    ghost low: { address < 2 ^ 32 },
}

impl Extent {
    ghost use Rattle.f2_files.specs.Extents.{extent_of, extent_in, wanted_at};

    // Of no file.
    fn empty() -> Extent {
        Extent {
            first: 0,
            address: 0,
            end: 0,
            limit: 0,
            next: 0,
        }
    }

    // Of the file of this inode.
    fn of_inode(inode: &Block) -> Extent
        ensures says { extent_in result ≡ extent_of inode.now }
        ensures begins { result.next ≡ result.first }
    {
        let first = inode_field(inode, FIRST_BLOCK);
        let end = first + inode_field(inode, LENGTH);
        Extent {
            first,
            address: inode_field(inode, ADDRESS),
            end: if is_regular(inode) { end } else { first },
            limit: if is_inline(inode) {
                end
            } else {
                block_limit(inode)
            },
            next: first,
        }
    }

    // The address that block `k` should have.
    fn wanted(&self, k: u64) -> u64
        requires first { self.now.first ≤ k }
        requires end { k ≤ self.now.end }
        ensures value { result ≡ wanted_at (extent_in self.now) k }
        ensures fits { result + (self.now.end - k) < 2 ^ 64 }
    {
        self.address + (k - self.first)
    }
}

/// What is kept of the extents of files: the defects so far, and the extent of the file that is visited.
#[derive(Drop)]
pub struct Extents {
    pub defects: Collector,
    pub extent: Extent,
}

impl Extents {
    ghost use Rattle.f2_files.specs.Addresses.{slot_of};
    ghost use Rattle.f2_bytes.specs.Check.{inode_of};
    ghost use Rattle.f2_bytes.specs.Check.{Defect as FormatDefect};
    ghost use Rattle.f2_defects.specs.Collected.{Collects, run_defects};
    ghost use Rattle.f2_files.specs.Extents.{extent_of, extent_in, wanted_at, ExtentsAfter, ExtentsInside};
    ghost use Rattle.f2_survey.specs.Slots.{file_slots, Slot as FormatSlot};

    /// Before the first file.
    pub fn new(alloc: Global) -> Extents
        ensures { (image : Image) → ExtentsAfter image 0 result }
    {
        Extents {
            defects: Collector::new(alloc, 3),
            extent: Extent::empty(),
        }
    }

    /// Begins the file of this inode.
    pub fn begin(&mut self, inode: &Block)
        ensures { (image : Image) (ino : ℕ) → inode_of image ino ≡ Some inode.now → ExtentsAfter image ino self.old → ExtentsInside image ino [] self.new }
    {
        self.extent = Extent::of_inode(inode);
    }

    // Compares one value with the addresses that blocks should have up to this one.
    fn run_to(&mut self, ino: u32, to: u64, found: u64) -> Result<(), AllocError>
        requires from { self.old.extent.next ≤ to }
        requires to { to ≤ self.old.extent.end }
        ensures part { self.new.defects.part ≡ self.old.defects.part }
        ensures extent { extent_in self.new.extent ≡ extent_in self.old.extent }
        ensures next { OnOk result (self.new.extent.next ≡ to) }
        ensures defects { OnOk result ((defects : List FormatDefect) → Collects self.old.defects defects → Collects self.new.defects
            (defects ++ run_defects self.old.defects.part ino self.old.extent.next (to - self.old.extent.next) found (wanted_at (extent_in self.old.extent) self.old.extent.next))) }
    {
        let from = self.extent.next;
        let wanted = self.extent.wanted(from);
        self.defects.run(u64::from(ino), from, to, found, wanted)?;
        self.extent.next = to;
        Ok(())
    }

    /// Takes the next slot of the file.
    pub fn take(&mut self, slot: &Slot) -> Result<(), AllocError>
        ensures { OnOk result ((image : Image) (slots : List FormatSlot) → ExtentsInside image slot.now.ino slots self.old → ExtentsInside image slot.now.ino (slots ++ slot_of slot.now ∷ []) self.new) }
    {
        if slot.k < self.extent.next {
            return Ok(());
        }
        if slot.k >= self.extent.end {
            return Ok(());
        }
        self.run_to(slot.ino, slot.k, 0)?;
        let wanted = self.extent.wanted(slot.k);
        self.defects.same(u64::from(slot.ino), slot.k, u64::from(slot.address), wanted)?;
        self.extent.next = slot.k + 1;
        Ok(())
    }

    /// Ends the file of this number.
    pub fn end(&mut self, ino: u32) -> Result<(), AllocError>
        ensures { OnOk result ((image : Image) (inode : List ℕ) → inode_of image ino ≡ Some inode → ExtentsInside image ino (file_slots image ino) self.old → ExtentsAfter image (suc ino) self.new) }
    {
        let end = self.extent.end;
        let holes = self.extent.limit.max(self.extent.next).min(end);
        self.run_to(ino, holes, 0)?;
        self.run_to(ino, end, NONE)
    }
}
