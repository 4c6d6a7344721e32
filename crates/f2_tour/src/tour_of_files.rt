// One tour over the files of an image, in ascending order of their numbers.
ghost use Rattle.std.specs.Prelude.{◌≡◌, ℕ, ◌+◌, ◌≤◌, ◌<◌, ◌++◌, [], ◌==◌, ◌^◌, suc, true, is_some, List, flat_map, Some, OnOk, IfOk, IsErrOf};
ghost use Rattle.f2_bytes.specs.Bytes.{Image};
ghost use Rattle.f2_bytes.specs.Node.{xattr_nid};
ghost use Rattle.f2_bytes.specs.Tree.{read_node, is_inode};
ghost use Rattle.f2_bytes.specs.Check.{Defect, digit, nids, defects_at, part_defects, times_named, times_named_in};
ghost use Rattle.f2_defects.specs.Collected.{Collects};
ghost use Rattle.f2_items.specs.Counted.{IsCounted, times_in, times_below};
ghost use Rattle.f2_files.specs.Files.{IsAfter};
ghost use Rattle.f2_survey.specs.Known.{IsKnown};
ghost use Rattle.f2_survey.specs.Named.{name_defects};
ghost use Rattle.f2_survey.specs.Parts.{part_in, HasPlaces};
ghost use Rattle.f2_disk.specs.Disk.{Reads, Goes, Rose};
ghost use Rattle.f2_view.specs.Mounted.{layout_in, IsMountOf};

use crate::file_rows::give_file;
use crate::times_named::Times;
use f2_defects::{CheckRefusal, Collector};
use f2_disk::{Block, Disk};
use f2_files::Files;
use f2_node::inode_field;
use f2_survey::{Name, Nodes, known_node, push_names};
use f2_view::Mount;
use std::alloc::{AllocError, Global};

// The row of an inode's number of its attribute node.
const XATTR_NID: usize = 16;

// What a tour finds of the names that files give to nodes.
#[derive(Drop)]
struct Tour {
    alloc: Global,
    // whether files are given
    gives: bool,
    // of the offsets that the nodes should say
    offsets: Collector,
    times: Times,
    ghost part: { offsets.part ≡ 6 },
}

impl Tour {
    // Takes a name of a file.
    fn take_name(&mut self, nodes: &Nodes, ino: u32, name: Name) -> Result<(), AllocError>
        ensures gives { self.new.gives ≡ self.old.gives }
        ensures offsets { OnOk result ((image : Image) (defects : List Defect) → IsKnown image nodes.now
            → Collects self.old.offsets defects → Collects self.new.offsets (defects ++ name_defects image ino name)) }
        ensures times { OnOk result ((limit : ℕ) (times : ℕ → ℕ) → IsCounted limit self.old.times times
            → IsCounted limit self.new.times (λ n. times n + digit (name.nid == n))) }
    {
        let said = nodes.offset_in(name.nid, ino);
        let wanted = u64::from(name.offset);
        self.offsets.same(u64::from(ino), wanted, said, wanted)?;
        self.times.name(name.nid);
        Ok(())
    }

    // Takes the names of a file.
    fn take_names(&mut self, nodes: &Nodes, ino: u32, names: &[Name]) -> Result<(), AllocError>
        ensures gives { self.new.gives ≡ self.old.gives }
        ensures offsets { OnOk result ((image : Image) (defects : List Defect) → IsKnown image nodes.now
            → Collects self.old.offsets defects → Collects self.new.offsets (defects ++ flat_map (name_defects image ino) names.now)) }
        ensures times { OnOk result ((limit : ℕ) (times : ℕ → ℕ) → IsCounted limit self.old.times times
            → IsCounted limit self.new.times (λ n. times n + times_in names.now n)) }
    {
        for name in names {
            self.take_name(nodes, ino, *name)?;
        }
        Ok(())
    }

    // Takes the names of a file with this inode, and that which it gives to its attribute node.
    fn take_file(
        &mut self,
        nodes: &Nodes,
        ino: u32,
        inode: &Block,
        names: &[Name],
    ) -> Result<(), AllocError>
        ensures gives { self.new.gives ≡ self.old.gives }
        ensures offsets { OnOk result ((image : Image) (defects : List Defect) → IsKnown image nodes.now
            → Collects self.old.offsets defects → Collects self.new.offsets (defects ++ flat_map (name_defects image ino) names.now)) }
        ensures times { OnOk result ((limit : ℕ) (times : ℕ → ℕ) → IsCounted limit self.old.times times
            → IsCounted limit self.new.times (λ n. times n + times_in names.now n + digit (xattr_nid inode.now == n))) }
    {
        self.take_names(nodes, ino, names)?;
        self.times.name(inode_field(inode, XATTR_NID) as u32);
        Ok(())
    }

    // Whether files are given so far: each node said its offset.
    fn is_clean(&self) -> bool
        ensures { self.now.gives ≡ true → Collects self.now.offsets [] → result ≡ true }
    {
        self.gives && self.offsets.is_empty()
    }

    // Visits the file of this number. It is given where each node so far says its offset.
    fn visit<D: Disk>(
        &mut self,
        m: &Mount,
        d: &mut D,
        nodes: &Nodes,
        files: &mut Files,
        ino: u32,
    ) -> Result<(), CheckRefusal>
        requires lies { (layout_in m.now).blocks ≤ (D.state d.old).size }
        ensures gives { self.new.gives ≡ self.old.gives }
        ensures offsets { OnOk result ((image : Image) (defects : List Defect) → (D.state d.old).told ≡ Some image → IsMountOf image m.now → IsKnown image nodes.now
            → is_inode image ino ≡ true → Collects self.old.offsets defects → Collects self.new.offsets (defects ++ defects_at (part_in image 3 6) ino)) }
        ensures times { OnOk result ((image : Image) (limit : ℕ) (times : ℕ → ℕ) → (D.state d.old).told ≡ Some image → IsMountOf image m.now → IsKnown image nodes.now
            → IsCounted limit self.old.times times → IsCounted limit self.new.times (λ n. times n + times_named_in image n ino)) }
        ensures file { OnOk result ((image : Image) → (D.state d.old).told ≡ Some image → IsMountOf image m.now → IsKnown image nodes.now
            → self.old.gives ≡ true → is_inode image ino ≡ true → is_some (read_node image ino) ≡ true
            → Collects self.old.offsets [] → defects_at (part_in image 3 6) ino ≡ [] → IsAfter image ino files.old → IsAfter image (suc ino) files.new) }
        ensures reads { Reads (D.state d.old) (D.state d.new) }
        ensures goes { Goes (D.state d.old) (D.state d.new) }
        ensures fault { IsErrOf result CheckRefusal.DiskFault → Rose (D.state d.old).faults (D.state d.new).faults }
    {
        let mut inode = Block::zeros();
        if !known_node(m, d, nodes, ino, &mut inode)? {
            return Ok(());
        }
        let mut names = Vec::new(self.alloc);
        push_names(m, d, nodes, &inode, &mut names)?;
        self.take_file(nodes, ino, &inode, &names)?;
        if !self.is_clean() {
            return Ok(());
        }
        give_file(m, d, nodes, files, ino, &inode, &names)
    }

    // Passes a number: visits its file, if it is that of one.
    fn pass<D: Disk>(
        &mut self,
        m: &Mount,
        d: &mut D,
        nodes: &Nodes,
        files: &mut Files,
        ino: u32,
    ) -> Result<(), CheckRefusal>
        requires lies { (layout_in m.now).blocks ≤ (D.state d.old).size }
        ensures gives { self.new.gives ≡ self.old.gives }
        ensures offsets { OnOk result ((image : Image) (defects : List Defect) → (D.state d.old).told ≡ Some image → IsMountOf image m.now → IsKnown image nodes.now
            → Collects self.old.offsets defects → Collects self.new.offsets (defects ++ defects_at (part_in image 3 6) ino)) }
        ensures times { OnOk result ((image : Image) (limit : ℕ) → (D.state d.old).told ≡ Some image → IsMountOf image m.now → IsKnown image nodes.now
            → IsCounted limit self.old.times (times_below image ino) → IsCounted limit self.new.times (times_below image (ino + 1))) }
        ensures file { OnOk result ((image : Image) → (D.state d.old).told ≡ Some image → IsMountOf image m.now → IsKnown image nodes.now
            → self.old.gives ≡ true → HasPlaces image → ino < nids image → Collects self.old.offsets []
            → IsAfter image ino files.old → IsAfter image (suc ino) files.new) }
        ensures reads { Reads (D.state d.old) (D.state d.new) }
        ensures goes { Goes (D.state d.old) (D.state d.new) }
        ensures fault { IsErrOf result CheckRefusal.DiskFault → Rose (D.state d.old).faults (D.state d.new).faults }
    {
        if !nodes.is_inode(ino) {
            return Ok(());
        }
        self.visit(m, d, nodes, files, ino)
    }

    // Passes all numbers, from the least one on.
    fn run<D: Disk>(
        &mut self,
        m: &Mount,
        d: &mut D,
        nodes: &Nodes,
        files: &mut Files,
    ) -> Result<(), CheckRefusal>
        requires lies { (layout_in m.now).blocks ≤ (D.state d.old).size }
        ensures offsets { OnOk result ((image : Image) → (D.state d.old).told ≡ Some image → IsMountOf image m.now → IsKnown image nodes.now
            → Collects self.old.offsets [] → Collects self.new.offsets (part_defects (part_in image 3 6))) }
        ensures times { OnOk result ((image : Image) → (D.state d.old).told ≡ Some image → IsMountOf image m.now → IsKnown image nodes.now
            → IsCounted (nids image) self.old.times (λ _. 0) → IsCounted (nids image) self.new.times (times_named image)) }
        ensures files { OnOk result ((image : Image) → (D.state d.old).told ≡ Some image → IsMountOf image m.now → IsKnown image nodes.now
            → self.old.gives ≡ true → HasPlaces image → Collects self.old.offsets []
            → IsAfter image 0 files.old → IsAfter image (nids image) files.new) }
        ensures reads { Reads (D.state d.old) (D.state d.new) }
        ensures goes { Goes (D.state d.old) (D.state d.new) }
        ensures fault { IsErrOf result CheckRefusal.DiskFault → Rose (D.state d.old).faults (D.state d.new).faults }
    {
        let limit = nodes.limit();
        for ino in 0..limit {
            self.pass(m, d, nodes, files, ino)?;
        }
        Ok(())
    }
}

// Takes how often a number is named, where it is that of a node that is no inode.
fn take_times(
    nodes: &Nodes,
    times: &Times,
    nid: u32,
    into: &mut Collector,
) -> Result<(), AllocError>
    ensures part { into.new.part ≡ into.old.part }
    ensures times { OnOk result ((image : Image) (defects : List Defect) → IsKnown image nodes.now → nid < nids image → nids image ≤ 2 ^ 32
        → IsCounted (nids image) times.now (times_named image) → into.old.part ≡ 7
        → Collects into.old defects → Collects into.new (defects ++ defects_at (part_in image 3 7) nid)) }
{
    if nodes.entry(nid).is_none() {
        return Ok(());
    }
    if nodes.is_inode(nid) {
        return Ok(());
    }
    into.same(u64::from(nid), 0, times.of(nid), 1)
}

// The defects of the nodes that are no inodes: each has to be named once.
fn times_found(alloc: Global, nodes: &Nodes, times: &Times) -> Result<Collector, AllocError>
    ensures { IfOk result (λ found. (image : Image) → IsKnown image nodes.now → IsCounted (nids image) times.now (times_named image)
        → Collects found (part_defects (part_in image 3 7))) }
{
    let mut found = Collector::new(alloc, 7);
    let limit = nodes.limit();
    for nid in 0..limit {
        take_times(nodes, times, nid, &mut found)?;
    }
    Ok(found)
}

/// What a tour over the files of an image finds.
#[derive(Drop)]
pub struct Toured {
    /// The defects of part 6 of rule 3: nodes that don't say the offset of the nid slot that names them, or are of another
    /// file.
    pub offsets: Collector,
    /// Those of part 7: nodes that are no inodes, and aren't named just once.
    pub times: Collector,
}

/// Visits the files of an image in ascending order of their numbers, and reads their inodes and their nodes of nids.
/// Where `gives`, each file is given to `files` with its rows, and its direct nodes are read, as long as each node that
/// was named so far said its offset.
pub fn tour_files<D: Disk>(
    alloc: Global,
    m: &Mount,
    d: &mut D,
    nodes: &Nodes,
    gives: bool,
    files: &mut Files,
) -> Result<Toured, CheckRefusal>
    requires lies { (layout_in m.now).blocks ≤ (D.state d.old).size }
    ensures offsets { IfOk result (λ toured. (image : Image) → (D.state d.old).told ≡ Some image → IsMountOf image m.now → IsKnown image nodes.now
        → Collects toured.offsets (part_defects (part_in image 3 6))) }
    ensures times { IfOk result (λ toured. (image : Image) → (D.state d.old).told ≡ Some image → IsMountOf image m.now → IsKnown image nodes.now
        → Collects toured.times (part_defects (part_in image 3 7))) }
    ensures files { OnOk result ((image : Image) → (D.state d.old).told ≡ Some image → IsMountOf image m.now → IsKnown image nodes.now
        → gives ≡ true → HasPlaces image → IsAfter image 0 files.old → IsAfter image (nids image) files.new) }
    ensures reads { Reads (D.state d.old) (D.state d.new) }
    ensures goes { Goes (D.state d.old) (D.state d.new) }
    ensures fault { IsErrOf result CheckRefusal.DiskFault → Rose (D.state d.old).faults (D.state d.new).faults }
{
    let mut tour = Tour {
        alloc,
        gives,
        offsets: Collector::new(alloc, 6),
        times: Times::new(alloc, nodes.limit())?,
    };
    tour.run(m, d, nodes, files)?;
    let times = times_found(alloc, nodes, &tour.times)?;
    let Tour {
        alloc: _,
        gives: _,
        offsets,
        times: _,
    } = tour;
    Ok(Toured { offsets, times })
}
