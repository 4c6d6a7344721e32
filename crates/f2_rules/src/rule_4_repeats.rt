// How often each block was claimed, where some block was claimed twice: all files are visited twice more.
ghost use Rattle.std.specs.Prelude.{◌≡◌, ◌≤◌, IfOk, IsErrOf, Some};
ghost use Rattle.f2_bytes.specs.Bytes.{Image};
ghost use Rattle.f2_bytes.specs.Check.{nids, part_defects};
ghost use Rattle.f2_defects.specs.Collected.{Collects};
ghost use Rattle.f2_files.specs.Files.{IsAfter};
ghost use Rattle.f2_survey.specs.Known.{IsKnown};
ghost use Rattle.f2_survey.specs.Parts.{part_in, HasPlaces, MeetsBefore};
ghost use Rattle.f2_files.specs.Repeats.{HasClaims, HasRepeats};
ghost use Rattle.f2_survey.specs.Slots.{all_slots};
ghost use Rattle.f2_rules.specs.Worked.{IsWork};
ghost use Rattle.f2_disk.specs.Disk.{Reads, Goes, Rose};
ghost use Rattle.f2_view.specs.Mounted.{layout_in, IsMountOf};

use crate::work::Work;
use f2_defects::{CheckRefusal, Collector};
use f2_disk::Disk;
use f2_files::{Claims, Files, Repeats};
use f2_survey::Nodes;
use f2_tour::tour_files;
use f2_view::Mount;
use std::alloc::{AllocError, Global};

// What is kept of all files after the second tour, which keeps nothing else.
fn claims_of(files: Files) -> Result<Claims, AllocError>
    ensures { IfOk result (λ c. (image : Image) → IsAfter image (nids image) files → HasClaims image (all_slots image) c) }
{
    match files {
        Files::Claims(claims) => Ok(claims),
        Files::Kept(_) => Err(AllocError),
        Files::Repeats(_) => Err(AllocError),
    }
}

// The same after the third one.
fn repeats_of(files: Files) -> Result<Repeats, AllocError>
    ensures { IfOk result (λ r. (image : Image) → IsAfter image (nids image) files → HasRepeats image (all_slots image) r) }
{
    match files {
        Files::Repeats(repeats) => Ok(repeats),
        Files::Kept(_) => Err(AllocError),
        Files::Claims(_) => Err(AllocError),
    }
}

// Takes the addresses of all nodes, and those in all slots.
fn take_claims<D: Disk>(
    alloc: Global,
    m: &Mount,
    d: &mut D,
    nodes: &Nodes,
) -> Result<Claims, CheckRefusal>
    requires lies { (layout_in m.now).blocks ≤ (D.state d.old).size }
    ensures claims { IfOk result (λ c. (image : Image) → (D.state d.old).told ≡ Some image → IsMountOf image m.now → IsKnown image nodes.now
        → HasPlaces image → HasClaims image (all_slots image) c) }
    ensures reads { Reads (D.state d.old) (D.state d.new) }
    ensures goes { Goes (D.state d.old) (D.state d.new) }
    ensures fault { IsErrOf result CheckRefusal.DiskFault → Rose (D.state d.old).faults (D.state d.new).faults }
{
    let mut files = Files::Claims(Claims::of_nodes(alloc, nodes)?);
    tour_files(alloc, m, d, nodes, true, &mut files)?;
    Ok(claims_of(files)?)
}

// Counts how often the address in each slot is among these.
fn count_claims<D: Disk>(
    alloc: Global,
    m: &Mount,
    d: &mut D,
    nodes: &Nodes,
    claims: Claims,
) -> Result<Repeats, CheckRefusal>
    requires lies { (layout_in m.now).blocks ≤ (D.state d.old).size }
    ensures repeats { IfOk result (λ r. (image : Image) → (D.state d.old).told ≡ Some image → IsMountOf image m.now → IsKnown image nodes.now
        → HasPlaces image → HasClaims image (all_slots image) claims → HasRepeats image (all_slots image) r) }
    ensures reads { Reads (D.state d.old) (D.state d.new) }
    ensures goes { Goes (D.state d.old) (D.state d.new) }
    ensures fault { IsErrOf result CheckRefusal.DiskFault → Rose (D.state d.old).faults (D.state d.new).faults }
{
    let mut files = Files::Repeats(Repeats::of_claims(alloc, claims));
    tour_files(alloc, m, d, nodes, true, &mut files)?;
    Ok(repeats_of(files)?)
}

/// The defects of slots that name a block which another slot or a node has too. All files are visited twice: once to take
/// all addresses, then to count each.
pub fn repeat_defects<D: Disk>(
    alloc: Global,
    m: &Mount,
    d: &mut D,
    nodes: &Nodes,
) -> Result<Collector, CheckRefusal>
    requires lies { (layout_in m.now).blocks ≤ (D.state d.old).size }
    ensures repeats { IfOk result (λ c. (image : Image) → (D.state d.old).told ≡ Some image → IsMountOf image m.now → IsKnown image nodes.now
        → HasPlaces image → Collects c (part_defects (part_in image 4 2))) }
    ensures reads { Reads (D.state d.old) (D.state d.new) }
    ensures goes { Goes (D.state d.old) (D.state d.new) }
    ensures fault { IsErrOf result CheckRefusal.DiskFault → Rose (D.state d.old).faults (D.state d.new).faults }
{
    let claims = take_claims(alloc, m, d, nodes)?;
    let Repeats {
        addresses: _,
        defects,
    } = count_claims(alloc, m, d, nodes, claims)?;
    Ok(defects)
}

/// The same of an image on which this was found. Where no block was claimed twice, no file is visited again.
pub fn claimed_twice<D: Disk>(
    alloc: Global,
    m: &Mount,
    d: &mut D,
    work: &Work,
) -> Result<Collector, CheckRefusal>
    requires lies { (layout_in m.now).blocks ≤ (D.state d.old).size }
    ensures repeats { IfOk result (λ c. (image : Image) → (D.state d.old).told ≡ Some image → IsMountOf image m.now → MeetsBefore image 4
        → IsWork image work.now → Collects c (part_defects (part_in image 4 2))) }
    ensures reads { Reads (D.state d.old) (D.state d.new) }
    ensures goes { Goes (D.state d.old) (D.state d.new) }
    ensures fault { IsErrOf result CheckRefusal.DiskFault → Rose (D.state d.old).faults (D.state d.new).faults }
{
    if !work.kept.addresses.owners.is_spoiled() {
        return Ok(Collector::new(alloc, 2));
    }
    repeat_defects(alloc, m, d, &work.nodes)
}
