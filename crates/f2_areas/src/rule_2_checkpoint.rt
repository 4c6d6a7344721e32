// Whether the image was left in order: rule 2.
ghost use Rattle.std.specs.Prelude.{◌≡◌, ◌≤◌, ◌<◌, ◌^◌, ◌==◌, IfOk, IsErrOf, Some};
ghost use Rattle.std.specs.List.{list_any};
ghost use Rattle.f2_bytes.specs.Bytes.{Image, count_below};
ghost use Rattle.f2_bytes.specs.Check.{same as same_values, single, part_defects};
ghost use Rattle.f2_defects.specs.Collected.{Collects};
ghost use Rattle.f2_survey.specs.Parts.{part_in};
ghost use Rattle.f2_areas.specs.RuleAnswers.{Finds};
ghost use Rattle.f2_disk.specs.Disk.{Reads, Goes, Rose};
ghost use Rattle.f2_view.specs.Mounted.{layout_in, IsMountOf};

use f2_defects::{CheckRefusal, Collector};
use f2_disk::Disk;
use f2_roll::chain;
use f2_view::Mount;
use std::alloc::{AllocError, Global};
use std::collections::BTreeSet;

// The row of a checkpoint with its flags.
const FLAGS: usize = 38;

// The flags of an image that is not in order: errors were met (0x8), a check is due (0x10), or checkpoints are disabled
// (0x1000).
const FAULTY: u64 = 0x1018;

// How many different numbers there are.
fn distinct(alloc: Global, numbers: &[u32]) -> Result<u64, AllocError>
    ensures { IfOk result (λ n. n ≡ count_below (2 ^ 32) (λ number. list_any (λ x. x == number) numbers.now)) }
{
    let mut met = BTreeSet::new(alloc);
    for number in numbers {
        met.insert(*number)?;
    }
    Ok(met.len() as u64)
}

/// The defects of a part with one comparison, where the values have to be the same.
pub fn single_defects(
    alloc: Global,
    part: u8,
    found: u64,
    wanted: u64,
) -> Result<Collector, AllocError>
    ensures { IfOk result (λ c. Collects c (part_defects (single part (same_values found wanted)))) }
{
    let mut c = Collector::new(alloc, part);
    c.same(0, 0, found, wanted)?;
    Ok(c)
}

// Orphans: part 1.
fn orphan_defects(alloc: Global, m: &Mount) -> Result<Collector, AllocError>
    ensures { IfOk result (λ c. (image : Image) → IsMountOf image m.now → Collects c (part_defects (part_in image 2 1))) }
{
    let count = distinct(alloc, m.chosen().orphans())?;
    single_defects(alloc, 1, count, 0)
}

// Nodes that were written after the checkpoint: part 2.
fn later_defects<D: Disk>(alloc: Global, m: &Mount, d: &mut D) -> Result<Collector, CheckRefusal>
    requires lies { (layout_in m.now).blocks ≤ (D.state d.old).size }
    ensures finds { IfOk result (λ c. (image : Image) → (D.state d.old).told ≡ Some image → IsMountOf image m.now → Collects c (part_defects (part_in image 2 2))) }
    ensures reads { Reads (D.state d.old) (D.state d.new) }
    ensures goes { Goes (D.state d.old) (D.state d.new) }
    ensures fault { IsErrOf result CheckRefusal.DiskFault → Rose (D.state d.old).faults (D.state d.new).faults }
{
    let l = m.layout();
    let later = chain(alloc, d, &l, m.chosen().head().block())?;
    Ok(single_defects(alloc, 2, later.nodes().len() as u64, 0)?)
}

// Flags that say that the image is not in order: part 3.
fn flag_defects(alloc: Global, m: &Mount) -> Result<Collector, AllocError>
    ensures { IfOk result (λ c. (image : Image) → IsMountOf image m.now → Collects c (part_defects (part_in image 2 3))) }
{
    let flags = m.chosen().head().field(FLAGS);
    single_defects(alloc, 3, flags & FAULTY, 0)
}

/// The defects by rule 2: orphans, nodes that were written after the checkpoint, and flags that say errors.
pub fn checkpoint_defects<D: Disk>(
    alloc: Global,
    m: &Mount,
    d: &mut D,
) -> Result<Collector, CheckRefusal>
    requires lies { (layout_in m.now).blocks ≤ (D.state d.old).size }
    ensures finds { IfOk result (Finds (D.state d.old).told m.now 2) }
    ensures reads { Reads (D.state d.old) (D.state d.new) }
    ensures goes { Goes (D.state d.old) (D.state d.new) }
    ensures fault { IsErrOf result CheckRefusal.DiskFault → Rose (D.state d.old).faults (D.state d.new).faults }
{
    let mut c = orphan_defects(alloc, m)?;
    c.append(&later_defects(alloc, m, d)?)?;
    c.append(&flag_defects(alloc, m)?)?;
    Ok(c)
}
