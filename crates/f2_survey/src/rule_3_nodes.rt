// The comparisons of a node with its entry in the node address table, and of its own words: parts 1 to 5 of rule 3.
ghost use Rattle.std.specs.Prelude.{◌≡◌, is_some, option_map, OnOk};
ghost use Rattle.f2_bytes.specs.Bytes.{Image};
ghost use Rattle.f2_bytes.specs.NodeAddressTable.{nat};
ghost use Rattle.f2_bytes.specs.Superblock.{layout};
ghost use Rattle.f2_survey.specs.Parts.{part_in};
ghost use Rattle.f2_survey.specs.Said.{said_at, inode_said};
ghost use Rattle.f2_survey.specs.Survey.{ComparesAt, IsNumbered, ComparesNode, HasCompared};
ghost use Rattle.f2_sum.specs.Records.{nat_entry};

use crate::node_words::{Said, said_by_inode};
use f2_defects::Collector;
use f2_node::kind;
use f2_sum::NatEntry;
use std::alloc::{AllocError, Global};

// The number of the root, and what a mode of a directory begins with.
const ROOT: u32 = 3;

const DIRECTORY: u64 = 0x4000;

/// The defects of parts 1 to 5 of rule 3.
#[derive(Drop)]
pub struct NodeDefects {
    /// Part 1: addresses outside the main area.
    pub address: Collector,
    /// Part 2: nodes that say another number.
    pub number: Collector,
    /// Part 3: nodes that say another file.
    pub file: Collector,
    /// Part 4: inodes that say another offset than 0.
    pub offset: Collector,
    /// Part 5: inodes without a type, and a root that is no directory.
    pub mode: Collector,
}

// Compares the address of a node with the main area, where it does or does not lie.
fn compare_address(
    c: &mut Collector,
    nid: u32,
    entry: Option<NatEntry>,
    main: u32,
    stands: bool,
) -> Result<(), AllocError>
    ensures part { c.new.part ≡ c.old.part }
    ensures compares { OnOk result ((image : Image) → c.old.part ≡ 1 → option_map nat_entry entry ≡ nat image nid → main ≡ (layout image).main
        → stands ≡ is_some (said_at image nid) → ComparesAt (part_in image 3 1) nid c.old c.new) }
{
    match entry {
        Some(entry) => c.compare(
            u64::from(nid),
            0,
            u64::from(entry.addr),
            u64::from(main),
            !stands,
        ),
        None => Ok(()),
    }
}

// Compares the number that a node says with its own.
fn compare_number(c: &mut Collector, nid: u32, said: Option<Said>) -> Result<(), AllocError>
    ensures part { c.new.part ≡ c.old.part }
    ensures compares { OnOk result ((image : Image) → c.old.part ≡ 2 → said ≡ said_at image nid → ComparesAt (part_in image 3 2) nid c.old c.new) }
{
    match said {
        Some(said) => c.same(u64::from(nid), 0, u64::from(said.nid), u64::from(nid)),
        None => Ok(()),
    }
}

// Compares the file that a node says with that of its entry.
fn compare_file(
    c: &mut Collector,
    nid: u32,
    entry: Option<NatEntry>,
    said: Option<Said>,
) -> Result<(), AllocError>
    ensures part { c.new.part ≡ c.old.part }
    ensures compares { OnOk result ((image : Image) → c.old.part ≡ 3 → option_map nat_entry entry ≡ nat image nid → said ≡ said_at image nid
        → ComparesAt (part_in image 3 3) nid c.old c.new) }
{
    let said = match said {
        Some(said) => said,
        None => return Ok(()),
    };
    match entry {
        Some(entry) => c.same(u64::from(nid), 0, u64::from(said.ino), u64::from(entry.ino)),
        None => Ok(()),
    }
}

// Compares the offset that an inode says with 0.
fn compare_offset(c: &mut Collector, nid: u32, inode: Option<Said>) -> Result<(), AllocError>
    ensures part { c.new.part ≡ c.old.part }
    ensures compares { OnOk result ((image : Image) → c.old.part ≡ 4 → inode ≡ inode_said image nid → ComparesAt (part_in image 3 4) nid c.old c.new) }
{
    match inode {
        Some(inode) => c.same(u64::from(nid), 0, u64::from(inode.offset), 0),
        None => Ok(()),
    }
}

// Compares the mode of the root, which is missing or not, with that of a directory.
fn compare_root(c: &mut Collector, nid: u32, inode: Option<Said>) -> Result<(), AllocError>
    ensures part { c.new.part ≡ c.old.part }
    ensures compares { OnOk result ((image : Image) → c.old.part ≡ 5 → nid ≡ 3 → inode ≡ inode_said image nid → ComparesAt (part_in image 3 5) nid c.old c.new) }
{
    let mode = match inode {
        Some(inode) => u64::from(inode.mode),
        None => 0,
    };
    c.compare(u64::from(nid), 0, mode, DIRECTORY, mode / 4096 != 4)
}

// Compares the mode of the root with that of a directory, and that of another inode with those that have a type.
fn compare_mode(c: &mut Collector, nid: u32, inode: Option<Said>) -> Result<(), AllocError>
    ensures part { c.new.part ≡ c.old.part }
    ensures compares { OnOk result ((image : Image) → c.old.part ≡ 5 → inode ≡ inode_said image nid → ComparesAt (part_in image 3 5) nid c.old c.new) }
{
    if nid == ROOT {
        return compare_root(c, nid, inode);
    }
    match inode {
        Some(inode) => c.compare(
            u64::from(nid),
            0,
            u64::from(inode.mode),
            0,
            kind(inode.mode).is_none(),
        ),
        None => Ok(()),
    }
}

impl NodeDefects {
    /// Nothing compared yet.
    pub fn new(alloc: Global) -> NodeDefects
        ensures numbered { IsNumbered result }
        ensures none { (image : Image) → HasCompared image 0 result }
    {
        NodeDefects {
            address: Collector::new(alloc, 1),
            number: Collector::new(alloc, 2),
            file: Collector::new(alloc, 3),
            offset: Collector::new(alloc, 4),
            mode: Collector::new(alloc, 5),
        }
    }

    /// Compares a number's entry, if it is that of a node, and what the node says, if it stands in the main area, which
    /// begins at `main`.
    pub fn compare(
        &mut self,
        nid: u32,
        entry: Option<NatEntry>,
        said: Option<Said>,
        main: u32,
    ) -> Result<(), AllocError>
        requires { IsNumbered self.old }
        ensures numbered { IsNumbered self.new }
        ensures compares { OnOk result ((image : Image) → option_map nat_entry entry ≡ nat image nid → said ≡ said_at image nid → main ≡ (layout image).main
            → ComparesNode image nid self.old self.new) }
    {
        let inode = said_by_inode(nid, entry, said);
        compare_address(&mut self.address, nid, entry, main, said.is_some())?;
        compare_number(&mut self.number, nid, said)?;
        compare_file(&mut self.file, nid, entry, said)?;
        compare_offset(&mut self.offset, nid, inode)?;
        compare_mode(&mut self.mode, nid, inode)
    }
}
