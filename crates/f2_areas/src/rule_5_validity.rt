// Whether the segment table marks just the blocks that nodes have: rule 5.
ghost use Rattle.std.specs.Prelude.{◌≡◌, ◌+◌, ◌*◌, ◌^◌, ◌≤◌, ◌<◌, length, map, IfOk, OnOk};
ghost use Rattle.f2_bytes.specs.Bytes.{Image};
ghost use Rattle.f2_bytes.specs.Superblock.{layout};
ghost use Rattle.f2_bytes.specs.Check.{same as same_values, where_true, digit, part_defects};
ghost use Rattle.f2_defects.specs.Collected.{Collects, Compares};
ghost use Rattle.f2_survey.specs.OwnedBlocks.{is_somebody, kind_comparison};
ghost use Rattle.f2_survey.specs.OwnerTables.{IsOwners};
ghost use Rattle.f2_survey.specs.Segments.{IsSegment, HasTable};
ghost use Rattle.f2_survey.specs.Parts.{part_in};
ghost use Rattle.f2_areas.specs.Walked.{HasWalked, WalksRow};
ghost use Rattle.f2_sum.specs.Records.{sit_entry};
ghost use Rattle.f2_view.specs.Mounted.{layout_in, IsMountOf};

use crate::segments::count_valid;
use f2_bytes::bit_msb;
use f2_defects::Collector;
use f2_sum::SitEntry;
use f2_survey::{Owner, Owners};
use f2_view::Mount;
use std::alloc::{AllocError, Global};

/// The defects by rule 5.
#[derive(Drop)]
pub struct Validity {
    /// Blocks that are marked and have no owner, or have one and are not marked.
    pub marks: Collector,
    /// Segments whose count is not that of their marks.
    pub counts: Collector,
    /// Marked blocks in a segment of another type.
    pub kinds: Collector,
}

// Compares the mark of a block with its owner.
fn compare_mark(
    c: &mut Collector,
    segno: u32,
    k: u32,
    marked: bool,
    owner: Owner,
) -> Result<(), AllocError>
    ensures part { c.new.part ≡ c.old.part }
    ensures compares { OnOk result (Compares c.old c.new segno k (same_values (digit marked) (digit (is_somebody owner)))) }
{
    let owned = match owner {
        Owner::Nobody => 0,
        Owner::Node(_) => 1,
        Owner::Slot(_, _) => 1,
    };
    c.same(u64::from(segno), u64::from(k), u64::from(marked), owned)
}

// Compares the type of the segment of a block with the block's owner, if it is marked.
fn compare_kind(
    c: &mut Collector,
    segno: u32,
    k: u32,
    marked: bool,
    kind: u8,
    owner: Owner,
) -> Result<(), AllocError>
    ensures part { c.new.part ≡ c.old.part }
    ensures compares { OnOk result (Compares c.old c.new segno k (where_true marked (kind_comparison kind owner))) }
{
    if !marked {
        return Ok(());
    }
    let (a, b, found) = (u64::from(segno), u64::from(k), u64::from(kind));
    match owner {
        Owner::Nobody => Ok(()),
        Owner::Node(_) => c.compare(a, b, found, 3, kind < 3 || kind > 5),
        Owner::Slot(_, _) => c.compare(a, b, found, 0, kind > 2),
    }
}

// Compares the count of a segment with the number of its marks.
fn compare_count(c: &mut Collector, segno: u32, count: u16, marked: u32) -> Result<(), AllocError>
    ensures part { c.new.part ≡ c.old.part }
    ensures compares { OnOk result (Compares c.old c.new segno 0 (same_values count marked)) }
{
    c.same(u64::from(segno), 0, u64::from(count), u64::from(marked))
}

// Compares the blocks of a segment, the first of which has this address, with their owners.
fn compare_blocks(
    marks: &mut Collector,
    kinds: &mut Collector,
    segno: u32,
    first: u32,
    entry: &SitEntry,
    owners: &Owners,
) -> Result<(), AllocError>
    requires { first + 512 ≤ 2 ^ 32 }
    ensures marks { OnOk result ((image : Image) → IsSegment image owners.now segno first (sit_entry entry.now) → WalksRow marks.old marks.new (part_in image 5 1) segno) }
    ensures kinds { OnOk result ((image : Image) → IsSegment image owners.now segno first (sit_entry entry.now) → WalksRow kinds.old kinds.new (part_in image 5 3) segno) }
{
    for k in 0..512u32 {
        let marked = bit_msb(&entry.map, k as usize);
        let owner = owners.at(first + k);
        compare_mark(marks, segno, k, marked, owner)?;
        compare_kind(kinds, segno, k, marked, entry.kind, owner)?;
    }
    Ok(())
}

impl Validity {
    // No defects so far.
    fn new(alloc: Global) -> Validity
        ensures marks { (image : Image) → HasWalked result.marks (part_in image 5 1) 0 0 }
        ensures counts { (image : Image) → HasWalked result.counts (part_in image 5 2) 0 0 }
        ensures kinds { (image : Image) → HasWalked result.kinds (part_in image 5 3) 0 0 }
    {
        Validity {
            marks: Collector::new(alloc, 1),
            counts: Collector::new(alloc, 2),
            kinds: Collector::new(alloc, 3),
        }
    }

    // Compares a segment of the table, whose first block has this address.
    fn compare_segment(
        &mut self,
        segno: u32,
        first: u32,
        entry: &SitEntry,
        owners: &Owners,
    ) -> Result<(), AllocError>
        requires { first + 512 ≤ 2 ^ 32 }
        ensures marks { OnOk result ((image : Image) → IsSegment image owners.now segno first (sit_entry entry.now) → WalksRow self.old.marks self.new.marks (part_in image 5 1) segno) }
        ensures counts { OnOk result ((image : Image) → IsSegment image owners.now segno first (sit_entry entry.now) → WalksRow self.old.counts self.new.counts (part_in image 5 2) segno) }
        ensures kinds { OnOk result ((image : Image) → IsSegment image owners.now segno first (sit_entry entry.now) → WalksRow self.old.kinds self.new.kinds (part_in image 5 3) segno) }
    {
        let marked = count_valid(entry);
        compare_count(&mut self.counts, segno, entry.count, marked)?;
        if marked == 0 && owners.is_idle(segno) {
            return Ok(());
        }
        compare_blocks(
            &mut self.marks,
            &mut self.kinds,
            segno,
            first,
            entry,
            owners,
        )
    }
}

/// Compares the segment table, read whole, with the owners of all main blocks.
pub fn check_validity(
    alloc: Global,
    m: &Mount,
    entries: &[SitEntry],
    owners: &Owners,
) -> Result<Validity, AllocError>
    requires { length entries.now ≡ (layout_in m.now).segments }
    ensures marks { IfOk result (λ v. (image : Image) → IsMountOf image m.now → HasTable image entries.now → IsOwners image owners.now → Collects v.marks (part_defects (part_in image 5 1))) }
    ensures counts { IfOk result (λ v. (image : Image) → IsMountOf image m.now → HasTable image entries.now → IsOwners image owners.now → Collects v.counts (part_defects (part_in image 5 2))) }
    ensures kinds { IfOk result (λ v. (image : Image) → IsMountOf image m.now → HasTable image entries.now → IsOwners image owners.now → Collects v.kinds (part_defects (part_in image 5 3))) }
{
    let l = m.layout();
    let mut v = Validity::new(alloc);
    for segno in 0..l.segments {
        v.compare_segment(
            segno,
            l.main + 512 * segno,
            &entries[segno as usize],
            owners,
        )?;
    }
    Ok(v)
}
