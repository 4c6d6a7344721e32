// The parts 6, 7 and 9 of rule 10, which look at whole directories.
ghost use Rattle.std.specs.Prelude.{◌≡◌, ℕ, Bool, List, [], OnOk};
ghost use Rattle.f2_bytes.specs.Bytes.{Block as FormatBlock};
ghost use Rattle.f2_bytes.specs.Directory.{Item};
ghost use Rattle.f2_bytes.specs.Check.{Defect as FormatDefect};
ghost use Rattle.f2_items.specs.Directories.{WholesFind, WholesCompared, DepthCompared, DotCompared, SizeCompared};
ghost use Rattle.f2_items.specs.OpenDirectories.{IsOpen};

use crate::open_directory::OpenDirectory;
use f2_defects::Collector;
use std::alloc::{AllocError, Global};

/// The defects by these parts.
#[derive(Drop)]
pub struct WholeRules {
    pub depths: Collector,
    pub dots: Collector,
    pub sizes: Collector,
}

impl WholeRules {
    /// No directories so far.
    pub fn new(alloc: Global) -> WholeRules
        ensures { WholesFind (λ _. []) result }
    {
        WholeRules {
            depths: Collector::new(alloc, 6),
            dots: Collector::new(alloc, 7),
            sizes: Collector::new(alloc, 9),
        }
    }

    /// Takes a directory whose items were read.
    pub fn close(&mut self, directory: &OpenDirectory) -> Result<(), AllocError>
        ensures { OnOk result ((before : ℕ → List FormatDefect) (is_directory : ℕ → Bool) (ino : ℕ) (inode : FormatBlock) (items : List Item)
            → IsOpen is_directory ino inode items directory.now → WholesFind before self.old → WholesCompared before ino inode items self.new) }
    {
        compare_depth(&mut self.depths, directory)?;
        compare_dot(&mut self.dots, directory)?;
        compare_size(&mut self.sizes, directory)?;
        Ok(())
    }
}

// Compares the levels that the inode says with those that have items.
fn compare_depth(into: &mut Collector, directory: &OpenDirectory) -> Result<(), AllocError>
    ensures part { into.new.part ≡ into.old.part }
    ensures compares { OnOk result (DepthCompared into.old into.new directory.now) }
{
    if directory.inode.is_inline {
        return Ok(());
    }
    into.at_least(
        u64::from(directory.ino),
        0,
        u64::from(directory.inode.current_depth),
        u64::from(directory.reach.levels),
    )?;
    Ok(())
}

// Compares what `.` names with the directory.
fn compare_dot(into: &mut Collector, directory: &OpenDirectory) -> Result<(), AllocError>
    ensures part { into.new.part ≡ into.old.part }
    ensures compares { OnOk result (DotCompared into.old into.new directory.now) }
{
    let ino = u64::from(directory.ino);
    match directory.dots.dot {
        Some(target) => {
            into.same(ino, 0, u64::from(target), ino)?;
            Ok(())
        }
        None => {
            into.compare(ino, 0, 0, ino, !directory.inode.may_lack_dots)?;
            Ok(())
        }
    }
}

// Compares the size that the inode says with the blocks that have items.
fn compare_size(into: &mut Collector, directory: &OpenDirectory) -> Result<(), AllocError>
    ensures part { into.new.part ≡ into.old.part }
    ensures compares { OnOk result (SizeCompared into.old into.new directory.now) }
{
    if directory.inode.is_inline {
        return Ok(());
    }
    into.at_least(
        u64::from(directory.ino),
        0,
        directory.inode.size,
        4096 * directory.reach.blocks,
    )?;
    Ok(())
}
