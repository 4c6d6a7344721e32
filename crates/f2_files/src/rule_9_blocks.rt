// How many blocks files use.
ghost use Rattle.std.specs.Prelude.{◌≡◌, ℕ, ◌++◌, ◌∷◌, [], suc, false, List, get_or, Some, OnOk};
ghost use Rattle.f2_bytes.specs.Bytes.{Image};
ghost use Rattle.f2_bytes.specs.Tree.{is_inode};
ghost use Rattle.f2_bytes.specs.Check.{inode_of};
ghost use Rattle.f2_survey.specs.Slots.{file_slots, Slot as FormatSlot};
ghost use Rattle.f2_files.specs.Usage.{CountsNodes, UsageAfter, UsageInside};

use f2_defects::Collector;
use f2_disk::Block;
use f2_node::inode_field;
use std::alloc::{AllocError, Global};

// The row of an inode that says how many blocks the file uses.
const BLOCKS: usize = 7;

/// What is kept of how many blocks files use: their nodes and their slots, against what their inodes say.
#[derive(Drop)]
pub struct Usage {
    /// how many nodes the file of each number has
    pub nodes: Vec<u32>,
    pub defects: Collector,
    /// the used slots of all files that were visited
    pub used: u64,
    /// of the file that is visited: what its inode says, and the used slots so far
    pub blocks: u64,
    pub in_file: u64,
}

impl Usage {
    /// Before the first file. It is given how many nodes the file of each number has.
    pub fn new(alloc: Global, nodes: Vec<u32>) -> Usage
        ensures { (image : Image) → CountsNodes image nodes.items → UsageAfter image 0 result }
    {
        Usage {
            nodes,
            defects: Collector::new(alloc, 1),
            used: 0,
            blocks: 0,
            in_file: 0,
        }
    }

    /// Begins a file.
    pub fn begin(&mut self, inode: &Block)
        ensures { (image : Image) (ino : ℕ) → inode_of image ino ≡ Some inode.now → UsageAfter image ino self.old → UsageInside image ino [] self.new }
    {
        self.blocks = inode_field(inode, BLOCKS);
        self.in_file = 0;
    }

    /// Takes the next slot of the file.
    pub fn take(&mut self)
        ensures { (image : Image) (ino : ℕ) (slots : List FormatSlot) (s : FormatSlot) → UsageInside image ino slots self.old → UsageInside image ino (slots ++ s ∷ []) self.new }
    {
        self.in_file = self.in_file.saturating_add(1);
    }

    // How many nodes the file of this number has.
    fn nodes_of(&self, ino: u32) -> u32
        ensures { result ≡ get_or self.now.nodes.items ino 0 }
    {
        self.nodes.get(ino as usize).copied().unwrap_or(0)
    }

    /// Ends the file of this number.
    pub fn end(&mut self, ino: u32) -> Result<(), AllocError>
        ensures { OnOk result ((image : Image) (inode : List ℕ) → inode_of image ino ≡ Some inode → UsageInside image ino (file_slots image ino) self.old → UsageAfter image (suc ino) self.new) }
    {
        let nodes = self.nodes_of(ino);
        let wanted = self.in_file.saturating_add(u64::from(nodes));
        self.defects.same(u64::from(ino), 0, self.blocks, wanted)?;
        self.used = self.used.saturating_add(self.in_file);
        Ok(())
    }
}
