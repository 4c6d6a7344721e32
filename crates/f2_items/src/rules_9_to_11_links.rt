// What `..` names, how many links there are, and names: part 8 of rule 10, part 2 of rule 9, and the parts 1 and 3 of rule 11.
ghost use Rattle.std.specs.Prelude.{◌≡◌, ◌<◌, not, nat_lt, if◌then◌else◌, Some, IfOk, OnOk};
ghost use Rattle.f2_bytes.specs.Bytes.{Image};
ghost use Rattle.f2_bytes.specs.Bytes.{Block as FormatBlock};
ghost use Rattle.f2_bytes.specs.Node.{is_directory};
ghost use Rattle.f2_bytes.specs.Check.{nids, inode_of, digit, name_count, part_defects};
ghost use Rattle.f2_bytes.specs.Check.{links_wanted as links_wanted_in};
ghost use Rattle.f2_defects.specs.Collected.{Collects, Compares};
ghost use Rattle.f2_items.specs.Directories.{IsGathered, visited_of};
ghost use Rattle.f2_items.specs.EachFile.{HasNames, IsVisited, Takes, up_comparison};
ghost use Rattle.f2_items.specs.EachFile.{up_wanted as up_wanted_in};
ghost use Rattle.f2_survey.specs.Parts.{part_in};

use crate::directories::Directories;
use crate::name_counts::Tallies;
use crate::visited_files::{Closed, FileKind, Visited};
use f2_defects::Collector;
use std::alloc::{AllocError, Global};

// The number of the root.
const ROOT: u32 = 3;

// The value that stands for none.
const NONE: u64 = 1 << 32;

// What `..` of a directory has to name.
fn up_wanted(tallies: &Tallies, ino: u32) -> u64
    ensures { (image : Image) → HasNames image tallies.now → ino < nids image → result ≡ up_wanted_in image ino }
{
    if ino == ROOT {
        return 3;
    }
    match tallies.parent(ino) {
        Some(up) => u64::from(up),
        None => NONE,
    }
}

// Compares what `..` of a directory names.
fn compare_up(into: &mut Collector, ino: u32, closed: Closed, wanted: u64) -> Result<(), AllocError>
    ensures part { into.new.part ≡ into.old.part }
    ensures compares { OnOk result (Compares into.old into.new ino 0 (up_comparison closed.up (not closed.may_lack_dots) wanted)) }
{
    match closed.up {
        Some(target) => into.same(u64::from(ino), 0, u64::from(target), wanted),
        None => into.compare(u64::from(ino), 0, 0, wanted, !closed.may_lack_dots),
    }
}

// Takes a file, if it is a directory.
fn take_up(tallies: &Tallies, file: &Visited, into: &mut Collector) -> Result<(), AllocError>
    ensures { OnOk result ((image : Image) → HasNames image tallies.now → IsVisited image file.now → Takes into.old into.new (part_in image 10 8) file.now) }
{
    match file.kind {
        FileKind::Plain => Ok(()),
        FileKind::Directory(closed) => {
            compare_up(into, file.ino, closed, up_wanted(tallies, file.ino))
        }
    }
}

/// The directories whose `..` doesn't name the directory above: part 8 of rule 10.
pub fn parent_defects(alloc: Global, d: &Directories) -> Result<Collector, AllocError>
    ensures { IfOk result (λ c. (image : Image) → IsGathered image (nids image) d.now → Collects c (part_defects (part_in image 10 8))) }
{
    let mut found = Collector::new(alloc, 8);
    for file in &d.files {
        take_up(&d.names.tallies, file, &mut found)?;
    }
    Ok(found)
}

// The links that the inode of a file should say.
fn links_wanted(tallies: &Tallies, file: &Visited) -> u64
    ensures { (image : Image) (inode : FormatBlock) → HasNames image tallies.now → file.now.ino < nids image → inode_of image file.now.ino ≡ Some inode
        → file.now ≡ visited_of image file.now.ino inode → result ≡ links_wanted_in image file.now.ino inode }
{
    match file.kind {
        FileKind::Plain => tallies.names(file.ino),
        FileKind::Directory(closed) => closed.links_wanted,
    }
}

// Takes a file.
fn take_links(tallies: &Tallies, file: &Visited, into: &mut Collector) -> Result<(), AllocError>
    ensures { OnOk result ((image : Image) → HasNames image tallies.now → IsVisited image file.now → Takes into.old into.new (part_in image 9 2) file.now) }
{
    into.same(
        u64::from(file.ino),
        0,
        u64::from(file.links),
        links_wanted(tallies, file),
    )
}

/// The files whose inodes say another number of links: part 2 of rule 9.
pub fn link_counts(alloc: Global, d: &Directories) -> Result<Collector, AllocError>
    ensures { IfOk result (λ c. (image : Image) → IsGathered image (nids image) d.now → Collects c (part_defects (part_in image 9 2))) }
{
    let mut found = Collector::new(alloc, 2);
    for file in &d.files {
        take_links(&d.names.tallies, file, &mut found)?;
    }
    Ok(found)
}

// How many names a directory has, and whether another file has one.
fn names_found(tallies: &Tallies, file: &Visited) -> u64
    ensures { (image : Image) (inode : FormatBlock) → HasNames image tallies.now → file.now.ino < nids image → file.now ≡ visited_of image file.now.ino inode
        → result ≡ (if is_directory inode then name_count image file.now.ino else digit (nat_lt 0 (name_count image file.now.ino))) }
{
    let names = tallies.names(file.ino);
    match file.kind {
        FileKind::Plain => u64::from(names > 0),
        FileKind::Directory(_) => names,
    }
}

// Takes a file, if it isn't the root.
fn take_names(tallies: &Tallies, file: &Visited, into: &mut Collector) -> Result<(), AllocError>
    ensures { OnOk result ((image : Image) → HasNames image tallies.now → IsVisited image file.now → Takes into.old into.new (part_in image 11 1) file.now) }
{
    if file.ino == ROOT {
        return Ok(());
    }
    into.same(u64::from(file.ino), 0, names_found(tallies, file), 1)
}

/// The files without a name, and the directories with more than one: part 1 of rule 11.
pub fn name_defects(alloc: Global, d: &Directories) -> Result<Collector, AllocError>
    ensures { IfOk result (λ c. (image : Image) → IsGathered image (nids image) d.now → Collects c (part_defects (part_in image 11 1))) }
{
    let mut found = Collector::new(alloc, 1);
    for file in &d.files {
        take_names(&d.names.tallies, file, &mut found)?;
    }
    Ok(found)
}

/// The names of the root, which has none: part 3 of rule 11.
pub fn root_defects(alloc: Global, d: &Directories) -> Result<Collector, AllocError>
    ensures { IfOk result (λ c. (image : Image) → IsGathered image (nids image) d.now → Collects c (part_defects (part_in image 11 3))) }
{
    let mut found = Collector::new(alloc, 3);
    found.same(3, 0, d.names.tallies.names(ROOT), 0)?;
    Ok(found)
}
