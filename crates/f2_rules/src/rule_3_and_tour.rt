// The third rule, and what is found of the image on the way: the nodes are surveyed, and the files visited.
ghost use Rattle.std.specs.Prelude.{◌≡◌, ◌≤◌, length, true, IfOk, IsErrOf, Some};
ghost use Rattle.f2_bytes.specs.Bytes.{Image};
ghost use Rattle.f2_bytes.specs.Check.{nids, defects, part_defects};
ghost use Rattle.f2_defects.specs.Collected.{Collects};
ghost use Rattle.f2_files.specs.Files.{IsAfter};
ghost use Rattle.f2_files.specs.Kept.{KeptAfter};
ghost use Rattle.f2_survey.specs.Known.{IsKnown};
ghost use Rattle.f2_survey.specs.Parts.{part_in, first_parts, HasPlaces};
ghost use Rattle.f2_survey.specs.Survey.{HasNodeDefects};
ghost use Rattle.f2_areas.specs.Totals.{node_total, inode_total, HasTotals};
ghost use Rattle.f2_files.specs.Usage.{CountsNodes};
ghost use Rattle.f2_rules.specs.Worked.{HasBegun, Begins};
ghost use Rattle.f2_disk.specs.Disk.{Reads, Goes, Rose};
ghost use Rattle.f2_view.specs.Mounted.{layout_in, IsMountOf};

use crate::work::Work;
use f2_areas::Totals;
use f2_defects::{CheckRefusal, Collector};
use f2_disk::Disk;
use f2_files::{Files, Kept};
use f2_items::Directories;
use f2_survey::{NodeDefects, Nodes, Survey, Tally, survey};
use f2_tour::{Toured, tour_files};
use f2_view::Mount;
use std::alloc::{AllocError, Global};

// The defects of nodes that a survey found: parts 1 to 5.
fn survey_defects(alloc: Global, defects: &NodeDefects) -> Result<Collector, AllocError>
    ensures { IfOk result (λ c. (image : Image) → HasNodeDefects image defects.now → Collects c (first_parts image 3 5)) }
{
    let mut c = Collector::new(alloc, 1);
    c.append(&defects.address)?;
    c.append(&defects.number)?;
    c.append(&defects.file)?;
    c.append(&defects.offset)?;
    c.append(&defects.mode)?;
    Ok(c)
}

// The same, of defects that nothing more is asked of.
fn first_defects(alloc: Global, defects: NodeDefects) -> Result<Collector, AllocError>
    ensures { IfOk result (λ c. (image : Image) → HasNodeDefects image defects → Collects c (first_parts image 3 5)) }
{
    survey_defects(alloc, &defects)
}

// What is kept of files before the first one, where the file of each number has so many nodes.
fn no_files(alloc: Global, m: &Mount, nodes: &Nodes, counts: Vec<u32>) -> Result<Files, AllocError>
    ensures { IfOk result (λ f. (image : Image) → IsMountOf image m.now → IsKnown image nodes.now → CountsNodes image counts.items → IsAfter image 0 f) }
{
    let layout = m.layout();
    let directories = Directories::new(alloc, nodes)?;
    let kept = Kept::new(alloc, &layout, nodes, counts, directories)?;
    Ok(Files::Kept(kept))
}

// What is kept of all files after the first tour, which keeps nothing else.
fn kept_of(files: Files) -> Result<Kept, AllocError>
    ensures { IfOk result (λ k. (image : Image) → IsAfter image (nids image) files → KeptAfter image (nids image) k) }
{
    match files {
        Files::Kept(kept) => Ok(kept),
        Files::Claims(_) => Err(AllocError),
        Files::Repeats(_) => Err(AllocError),
    }
}

// What the nodes and the slots of files sum up to.
fn totals_of(nodes: u32, inodes: u32, kept: &Kept) -> Totals
    ensures { (image : Image) → nodes ≡ node_total image → inodes ≡ inode_total image → KeptAfter image (nids image) kept.now → HasTotals image result }
{
    Totals {
        nodes: u64::from(nodes),
        inodes: u64::from(inodes),
        slots: kept.usage.used,
    }
}

// Visits all files, of whose nodes a survey was made. They are looked at further where `gives`.
fn visit_files<D: Disk>(
    alloc: Global,
    m: &Mount,
    d: &mut D,
    nodes: &Nodes,
    counts: Vec<u32>,
    gives: bool,
) -> Result<(Toured, Kept), CheckRefusal>
    requires lies { (layout_in m.now).blocks ≤ (D.state d.old).size }
    ensures offsets { IfOk result (λ r. (image : Image) → (D.state d.old).told ≡ Some image → IsMountOf image m.now → IsKnown image nodes.now
        → Collects r.0.offsets (part_defects (part_in image 3 6))) }
    ensures times { IfOk result (λ r. (image : Image) → (D.state d.old).told ≡ Some image → IsMountOf image m.now → IsKnown image nodes.now
        → Collects r.0.times (part_defects (part_in image 3 7))) }
    ensures kept { IfOk result (λ r. (image : Image) → (D.state d.old).told ≡ Some image → IsMountOf image m.now → IsKnown image nodes.now
        → CountsNodes image counts.items → gives ≡ true → HasPlaces image → KeptAfter image (nids image) r.1) }
    ensures reads { Reads (D.state d.old) (D.state d.new) }
    ensures goes { Goes (D.state d.old) (D.state d.new) }
    ensures fault { IsErrOf result CheckRefusal.DiskFault → Rose (D.state d.old).faults (D.state d.new).faults }
{
    let mut files = no_files(alloc, m, nodes, counts)?;
    let toured = tour_files(alloc, m, d, nodes, gives, &mut files)?;
    let kept = kept_of(files)?;
    Ok((toured, kept))
}

// Joins the defects of nodes that a survey found with those that a tour found.
fn joined(first: Collector, toured: &Toured) -> Result<Collector, AllocError>
    ensures { IfOk result (λ c. (image : Image) → Collects first (first_parts image 3 5) → Collects toured.now.offsets (part_defects (part_in image 3 6))
        → Collects toured.now.times (part_defects (part_in image 3 7)) → Collects c (defects image 3)) }
{
    let mut found = first;
    found.append(&toured.offsets)?;
    found.append(&toured.times)?;
    Ok(found)
}

/// The defects by rule 3, and what is found of the nodes and of the files of an image.
#[derive(Drop)]
pub struct Beginning {
    pub found: Collector,
    pub nodes: Nodes,
    pub kept: Kept,
    pub totals: Totals,
}

// Looks at all nodes, and visits all files.
fn look<D: Disk>(alloc: Global, m: &mut Mount, d: &mut D) -> Result<Beginning, CheckRefusal>
    requires lies { (layout_in m.old).blocks ≤ (D.state d.old).size }
    ensures begun { IfOk result (λ b. (image : Image) → (D.state d.old).told ≡ Some image → IsMountOf image m.old → HasBegun image b) }
    ensures mount { m.new ≡ m.old }
    ensures reads { Reads (D.state d.old) (D.state d.new) }
    ensures goes { Goes (D.state d.old) (D.state d.new) }
    ensures fault { IsErrOf result CheckRefusal.DiskFault → Rose (D.state d.old).faults (D.state d.new).faults }
{
    let Survey {
        nodes,
        defects,
        tally,
    } = survey(alloc, m, d)?;
    let Tally {
        nodes: node_count,
        inodes: inode_count,
        of_files,
    } = tally;
    let first = first_defects(alloc, defects)?;
    let gives = first.is_empty();
    let (toured, kept) = visit_files(alloc, m, d, &nodes, of_files, gives)?;
    let found = joined(first, &toured)?;
    let totals = totals_of(node_count, inode_count, &kept);
    Ok(Beginning {
        found,
        nodes,
        kept,
        totals,
    })
}

/// The defects by rule 3: nodes that the table and their footers say differently, and nodes that hang in no place or in more
/// than one. Where there is none, what was found of the nodes and of the files is for the rules after it.
pub fn node_defects<D: Disk>(
    alloc: Global,
    m: &mut Mount,
    d: &mut D,
) -> Result<(Collector, Work), CheckRefusal>
    requires lies { (layout_in m.old).blocks ≤ (D.state d.old).size }
    ensures begins { IfOk result (λ r. Begins (D.state d.old).told m.old r.0 r.1) }
    ensures table { IfOk result (λ r. length r.1.entries.items ≡ (layout_in m.old).segments) }
    ensures mount { m.new ≡ m.old }
    ensures reads { Reads (D.state d.old) (D.state d.new) }
    ensures goes { Goes (D.state d.old) (D.state d.new) }
    ensures fault { IsErrOf result CheckRefusal.DiskFault → Rose (D.state d.old).faults (D.state d.new).faults }
{
    let Beginning {
        found,
        nodes,
        kept,
        totals,
    } = look(alloc, m, d)?;
    let entries = m.sit_entries(d)?;
    Ok((
        found,
        Work {
            nodes,
            kept,
            totals,
            entries,
        },
    ))
}
