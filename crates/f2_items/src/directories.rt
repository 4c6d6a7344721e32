// What is kept of the directories of an image while its files are visited.
ghost use Rattle.std.specs.Prelude.{◌≡◌, ℕ, ◌<◌, ◌^◌, suc, Bool, List, [], ◌∷◌, ◌++◌, Some, OnOk, IfOk};
ghost use Rattle.f2_bytes.specs.Bytes.{Image};
ghost use Rattle.f2_bytes.specs.Bytes.{Block as FormatBlock};
ghost use Rattle.f2_bytes.specs.Node.{is_directory as is_directory_of};
ghost use Rattle.f2_bytes.specs.Directory.{Item};
ghost use Rattle.f2_bytes.specs.Check.{inode_of};
ghost use Rattle.f2_bytes.specs.Check.{Defect as FormatDefect};
ghost use Rattle.f2_items.specs.Directories.{WholesFind, WholesCompared, closed_from, DirectoriesAfter, DirectoriesInside};
ghost use Rattle.f2_items.specs.DirectoryBlocks.{directory_blocks};
ghost use Rattle.f2_survey.specs.Known.{IsKnown};
ghost use Rattle.f2_items.specs.OpenDirectories.{IsOpen};

use crate::name_counts::Tallies;
use crate::names_of_directories::Names;
use crate::open_directory::OpenDirectory;
use crate::rule_10_directories::WholeRules;
use crate::rule_10_items::ItemRules;
use crate::visited_files::{Visited, closed_directory, plain_file};
use f2_disk::Block;
use f2_node::inode_field;
use f2_survey::Nodes;
use std::alloc::{AllocError, Global};

// Whether the inode is that of a directory.
fn is_directory(inode: &Block) -> bool
    ensures { result ≡ is_directory_of inode.now }
{
    inode_field(inode, 0) / 4096 == 4
}

/// What is kept of the directories of an image, while its files are visited in ascending order of their numbers: the names
/// of each file, the defects by the parts of rule 10 that look at one directory each, and a little of each file. While a
/// directory is read, its names are kept too.
#[derive(Drop)]
pub struct Directories {
    alloc: Global,
    pub names: Names,
    pub wholes: WholeRules,
    pub files: Vec<Visited>,
    // the directory that is read
    reading: Option<OpenDirectory>,
}

impl Directories {
    /// Nothing so far.
    pub fn new(alloc: Global, nodes: &Nodes) -> Result<Directories, AllocError>
        ensures { IfOk result (λ d. (image : Image) → IsKnown image nodes.now → DirectoriesAfter image 0 d) }
    {
        let limit = nodes.limit().max(4) as usize;
        let tallies = Tallies::new(alloc, limit)?;
        Ok(Directories {
            alloc,
            names: Names {
                tallies,
                rules: ItemRules::new(alloc),
            },
            wholes: WholeRules::new(alloc),
            files: Vec::new(alloc),
            reading: None,
        })
    }

    /// Begins the file of this number, which has this inode.
    pub fn begin(&mut self, nodes: &Nodes, ino: u32, inode: &Block) -> Result<(), AllocError>
        ensures begins { OnOk result ((image : Image) → IsKnown image nodes.now → inode_of image ino ≡ Some inode.now
            → DirectoriesAfter image ino self.old → DirectoriesInside image ino [] self.new) }
    {
        if !is_directory(inode) {
            self.reading = None;
            self.files.push(plain_file(ino, inode))?;
            return Ok(());
        }
        let mut directory = OpenDirectory::new(self.alloc, ino, inode);
        if directory.inode.is_inline {
            self.names.scan_inline(nodes, &mut directory, inode)?;
        }
        self.reading = Some(directory);
        Ok(())
    }

    /// Takes block `k` of the directory that was begun. The blocks have to come in ascending order.
    pub fn block(&mut self, nodes: &Nodes, k: u64, block: &Block) -> Result<(), AllocError>
        requires { k < 2 ^ 32 }
        ensures takes { OnOk result ((image : Image) (ino : ℕ) (blocks : List (ℕ × FormatBlock)) → IsKnown image nodes.now
            → DirectoriesInside image ino blocks self.old → DirectoriesInside image ino (blocks ++ (k, block.now) ∷ []) self.new) }
    {
        match &mut self.reading {
            Some(directory) => self.names.scan_block(nodes, directory, k, block),
            None => Ok(()),
        }
    }

    /// Ends the file of this number.
    pub fn end(&mut self, nodes: &Nodes, ino: u32) -> Result<(), AllocError>
        ensures ends { OnOk result ((image : Image) (inode : FormatBlock) → IsKnown image nodes.now → inode_of image ino ≡ Some inode
            → DirectoriesInside image ino (directory_blocks image ino) self.old → DirectoriesAfter image (suc ino) self.new) }
    {
        match self.reading.take() {
            Some(directory) => self.close(&directory),
            None => Ok(()),
        }
    }

    // Compares a directory whose items were read, and keeps what is kept of it.
    fn close(&mut self, directory: &OpenDirectory) -> Result<(), AllocError>
        ensures wholes { OnOk result ((before : ℕ → List FormatDefect) (is_directory : ℕ → Bool) (ino : ℕ) (inode : FormatBlock) (items : List Item)
            → IsOpen is_directory ino inode items directory.now → WholesFind before self.old.wholes → WholesCompared before ino inode items self.new.wholes) }
        ensures files { OnOk result (self.new.files.items ≡ self.old.files.items ++ closed_from directory.now ∷ []) }
        ensures names { self.new.names ≡ self.old.names }
    {
        self.wholes.close(directory)?;
        self.files.push(closed_directory(directory)?)?;
        Ok(())
    }
}
