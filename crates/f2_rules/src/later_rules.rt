// The rules from the fourth on, each of which is looked at where the image meets those before it.
ghost use Rattle.std.specs.Prelude.{◌≡◌, ◌≤◌, ◌<◌, ℕ, Option, length, IfOk, IsErrOf};
ghost use Rattle.f2_bytes.specs.Bytes.{Image};
ghost use Rattle.f2_bytes.specs.Check.{part_defects};
ghost use Rattle.f2_defects.specs.Collected.{Collects};
ghost use Rattle.f2_survey.specs.Parts.{part_in, first_parts};
ghost use Rattle.f2_rules.specs.Worked.{Decides};
ghost use Rattle.f2_disk.specs.Disk.{Reads, Goes, Rose};
ghost use Rattle.f2_view.specs.Mounted.{layout_in};

use crate::rule_4_repeats::claimed_twice;
use crate::work::Work;
use f2_areas::{check_counts, check_logs, check_summaries, check_validity};
use f2_defects::{CheckRefusal, Collector};
use f2_disk::Disk;
use f2_items::{check_directories, link_counts, loop_defects, name_defects, root_defects};
use f2_view::Mount;
use std::alloc::{AllocError, Global};

// The defects of a rule with three parts.
fn three_parts(
    alloc: Global,
    first: &Collector,
    second: &Collector,
    third: &Collector,
) -> Result<Collector, AllocError>
    ensures { IfOk result (λ c. (image : Image) (rule : ℕ) → Collects first.now (part_defects (part_in image rule 1)) → Collects second.now (part_defects (part_in image rule 2))
        → Collects third.now (part_defects (part_in image rule 3)) → Collects c (first_parts image rule 3)) }
{
    let mut c = Collector::new(alloc, 1);
    c.append(first)?;
    c.append(second)?;
    c.append(third)?;
    Ok(c)
}

// The defects by rule 4: slots that name no main block, or one that another slot or a node has too.
fn address_defects<D: Disk>(
    alloc: Global,
    m: &Mount,
    d: &mut D,
    work: &Work,
) -> Result<Collector, CheckRefusal>
    requires lies { (layout_in m.now).blocks ≤ (D.state d.old).size }
    ensures decides { IfOk result (Decides (D.state d.old).told m.now 4 work.now) }
    ensures reads { Reads (D.state d.old) (D.state d.new) }
    ensures goes { Goes (D.state d.old) (D.state d.new) }
    ensures fault { IsErrOf result CheckRefusal.DiskFault → Rose (D.state d.old).faults (D.state d.new).faults }
{
    let mut c = Collector::new(alloc, 1);
    c.append(&work.kept.addresses.outside)?;
    let twice = claimed_twice(alloc, m, d, work)?;
    c.append(&twice)?;
    Ok(c)
}

// The defects by rule 5: blocks that the segment table marks and that belong to nothing, or the other way round, wrong
// counts, and segments of another type.
fn validity_defects(alloc: Global, m: &Mount, work: &Work) -> Result<Collector, AllocError>
    requires table { length work.now.entries.items ≡ (layout_in m.now).segments }
    ensures { (told : Option Image) → IfOk result (Decides told m.now 5 work.now) }
{
    let v = check_validity(alloc, m, &work.entries, &work.kept.addresses.owners)?;
    three_parts(alloc, &v.marks, &v.counts, &v.kinds)
}

// The defects by rule 6: summaries that lead from a block to another node or place, or are of another type.
fn summary_defects<D: Disk>(
    alloc: Global,
    m: &mut Mount,
    d: &mut D,
    work: &Work,
) -> Result<Collector, CheckRefusal>
    requires table { length work.now.entries.items ≡ (layout_in m.old).segments }
    requires lies { (layout_in m.old).blocks ≤ (D.state d.old).size }
    ensures decides { IfOk result (Decides (D.state d.old).told m.old 6 work.now) }
    ensures mount { m.new ≡ m.old }
    ensures reads { Reads (D.state d.old) (D.state d.new) }
    ensures goes { Goes (D.state d.old) (D.state d.new) }
    ensures fault { IsErrOf result CheckRefusal.DiskFault → Rose (D.state d.old).faults (D.state d.new).faults }
{
    let s = check_summaries(alloc, m, d, &work.entries, &work.kept.addresses.owners)?;
    Ok(three_parts(alloc, &s.nids, &s.places, &s.types)?)
}

// The defects by rule 7: counts of the checkpoint that are not those of the nodes, the slots and the segments.
fn count_defects(alloc: Global, m: &Mount, work: &Work) -> Result<Collector, AllocError>
    requires table { length work.now.entries.items ≡ (layout_in m.now).segments }
    ensures { (told : Option Image) → IfOk result (Decides told m.now 7 work.now) }
{
    check_counts(alloc, m, &work.entries, work.totals)
}

// The defects by rule 8: logs that share a segment, fill one of another type, or write where a block stands.
fn log_defects(alloc: Global, m: &Mount, work: &Work) -> Result<Collector, AllocError>
    requires table { length work.now.entries.items ≡ (layout_in m.now).segments }
    ensures { (told : Option Image) → IfOk result (Decides told m.now 8 work.now) }
{
    check_logs(alloc, m, &work.entries)
}

// The defects by rule 9: counts in inodes, and extents, that are not those of the file.
fn inode_defects(alloc: Global, m: &Mount, work: &Work) -> Result<Collector, AllocError>
    ensures { (told : Option Image) → IfOk result (Decides told m.now 9 work.now) }
{
    let links = link_counts(alloc, &work.kept.directories)?;
    let kept = &work.kept;
    three_parts(alloc, &kept.usage.defects, &links, &kept.extents.defects)
}

// The defects by rule 10: items of directories that are not legal, repeat a name, or stand in the wrong place, and wrong `.`
// and `..`.
fn directory_defects(alloc: Global, m: &Mount, work: &Work) -> Result<Collector, AllocError>
    ensures { (told : Option Image) → IfOk result (Decides told m.now 10 work.now) }
{
    check_directories(alloc, &work.kept.directories)
}

// The defects by rule 11: files without a name, directories with more than one or in a loop, and names of the root.
fn link_defects(alloc: Global, m: &Mount, work: &Work) -> Result<Collector, AllocError>
    ensures { (told : Option Image) → IfOk result (Decides told m.now 11 work.now) }
{
    let directories = &work.kept.directories;
    let names = name_defects(alloc, directories)?;
    let loops = loop_defects(alloc, &work.nodes, directories)?;
    let root = root_defects(alloc, directories)?;
    three_parts(alloc, &names, &loops, &root)
}

// The defects by rule 12: attribute nodes that are no node of their file.
fn attribute_defects(alloc: Global, m: &Mount, work: &Work) -> Result<Collector, AllocError>
    ensures { (told : Option Image) → IfOk result (Decides told m.now 12 work.now) }
{
    let mut c = Collector::new(alloc, 1);
    c.append(&work.kept.attributes)?;
    Ok(c)
}

// The defects by one of the rules from 7 to 12, which read nothing more of the disk.
fn defects_of_work(alloc: Global, m: &Mount, rule: u8, work: &Work) -> Result<Collector, AllocError>
    requires low { 7 ≤ rule }
    requires high { rule < 13 }
    requires table { length work.now.entries.items ≡ (layout_in m.now).segments }
    ensures { (told : Option Image) → IfOk result (Decides told m.now rule work.now) }
{
    match rule {
        7 => count_defects(alloc, m, work),
        8 => log_defects(alloc, m, work),
        9 => inode_defects(alloc, m, work),
        10 => directory_defects(alloc, m, work),
        11 => link_defects(alloc, m, work),
        12 => attribute_defects(alloc, m, work),
        _ => unreachable!(),
    }
}

/// The defects by one of the rules from 4 to 12, of an image that meets those before it.
pub fn rule_defects<D: Disk>(
    alloc: Global,
    m: &mut Mount,
    d: &mut D,
    rule: u8,
    work: &Work,
) -> Result<Collector, CheckRefusal>
    requires low { 4 ≤ rule }
    requires high { rule < 13 }
    requires table { length work.now.entries.items ≡ (layout_in m.old).segments }
    requires lies { (layout_in m.old).blocks ≤ (D.state d.old).size }
    ensures decides { IfOk result (Decides (D.state d.old).told m.old rule work.now) }
    ensures mount { m.new ≡ m.old }
    ensures reads { Reads (D.state d.old) (D.state d.new) }
    ensures goes { Goes (D.state d.old) (D.state d.new) }
    ensures fault { IsErrOf result CheckRefusal.DiskFault → Rose (D.state d.old).faults (D.state d.new).faults }
{
    match rule {
        4 => address_defects(alloc, m, d, work),
        5 => Ok(validity_defects(alloc, m, work)?),
        6 => summary_defects(alloc, m, d, work),
        _ => Ok(defects_of_work(alloc, m, rule, work)?),
    }
}
