// Whether the summaries lead from the blocks to their nodes: rule 6.
ghost use Rattle.std.specs.Prelude.{◌≡◌, ◌+◌, ◌*◌, ◌^◌, ◌≤◌, ◌<◌, not, true, length, map, nat_lt, Some, IfOk, OnOk, IsErrOf};
ghost use Rattle.f2_bytes.specs.Bytes.{Image, block_at};
ghost use Rattle.f2_bytes.specs.Checkpoint.{head, log, log_numbers};
ghost use Rattle.f2_bytes.specs.Summary.{entry_type};
ghost use Rattle.f2_bytes.specs.Superblock.{layout};
ghost use Rattle.f2_bytes.specs.Check.{same as same_values, where_true, digit, part_defects};
ghost use Rattle.f2_defects.specs.Collected.{Collects, Compares};
ghost use Rattle.f2_survey.specs.OwnedBlocks.{nid_of_owner, place_comparison};
ghost use Rattle.f2_survey.specs.OwnerTables.{IsOwners};
ghost use Rattle.f2_survey.specs.Parts.{part_in};
ghost use Rattle.f2_survey.specs.Segments.{IsSegment, HasTable, HasSummaries};
ghost use Rattle.f2_areas.specs.Walked.{HasWalked, WalksRow};
ghost use Rattle.f2_bytes.specs.Checkpoint.{is_log_segment};
ghost use Rattle.f2_disk.specs.Disk.{Reads, Goes, Rose};
ghost use Rattle.f2_sum.specs.Records.{sit_entry};
ghost use Rattle.f2_view.specs.Mounted.{layout_in, IsMountOf};

use crate::segments::{has_segment, has_valid, log_segments};
use f2_bytes::{bit_msb, u8_at};
use f2_defects::{CheckRefusal, Collector};
use f2_disk::{Block, Disk};
use f2_sum::{SitEntry, summary};
use f2_survey::{Owner, Owners};
use f2_tables::ssa_read;
use f2_view::Mount;
use std::alloc::{AllocError, Global};

// The number that stands for no node, and the byte of a summary block with the type of its entries.
const NO_NODE: u64 = 0x1_0000_0000;

const TYPE_BYTE: usize = 4091;

/// The defects by rule 6.
#[derive(Drop)]
pub struct Summaries {
    /// Marked blocks whose summary says another node.
    pub nids: Collector,
    /// Marked blocks whose summary says another place.
    pub places: Collector,
    /// Summary blocks of another type than their segment.
    pub types: Collector,
}

// Compares the node that a block's summary says with the block's owner, if it is marked.
fn compare_nid(
    c: &mut Collector,
    segno: u32,
    k: u32,
    marked: bool,
    found: u32,
    owner: Owner,
) -> Result<(), AllocError>
    ensures part { c.new.part ≡ c.old.part }
    ensures compares { OnOk result (Compares c.old c.new segno k (where_true marked (same_values found (nid_of_owner owner)))) }
{
    if !marked {
        return Ok(());
    }
    let wanted = match owner {
        Owner::Nobody => NO_NODE,
        Owner::Node(nid) => u64::from(nid),
        Owner::Slot(nid, _) => u64::from(nid),
    };
    c.same(u64::from(segno), u64::from(k), u64::from(found), wanted)
}

// Compares the place that it says with that of the block's slot, if it has one and is marked.
fn compare_place(
    c: &mut Collector,
    segno: u32,
    k: u32,
    marked: bool,
    found: u16,
    owner: Owner,
) -> Result<(), AllocError>
    ensures part { c.new.part ≡ c.old.part }
    ensures compares { OnOk result (Compares c.old c.new segno k (where_true marked (place_comparison found owner))) }
{
    if !marked {
        return Ok(());
    }
    match owner {
        Owner::Nobody => Ok(()),
        Owner::Node(_) => Ok(()),
        Owner::Slot(_, place) => c.same(
            u64::from(segno),
            u64::from(k),
            u64::from(found),
            u64::from(place),
        ),
    }
}

// Compares the type of a segment's summary block with that of the segment, if its summaries stand there.
fn compare_type(
    c: &mut Collector,
    segno: u32,
    stored: bool,
    block: &Block,
    kind: u8,
) -> Result<(), AllocError>
    ensures part { c.new.part ≡ c.old.part }
    ensures compares { OnOk result (Compares c.old c.new segno 0 (where_true stored (same_values (entry_type block.now) (digit (nat_lt 2 kind))))) }
{
    if !stored {
        return Ok(());
    }
    let found = u8_at(block.bytes(), TYPE_BYTE);
    c.same(u64::from(segno), 0, u64::from(found), u64::from(2 < kind))
}

// Compares the summaries of a segment's blocks, the first of which has this address, with their owners.
fn compare_blocks(
    nids: &mut Collector,
    places: &mut Collector,
    segno: u32,
    first: u32,
    block: &Block,
    entry: &SitEntry,
    owners: &Owners,
) -> Result<(), AllocError>
    requires { first + 512 ≤ 2 ^ 32 }
    ensures nids { OnOk result ((image : Image) → IsSegment image owners.now segno first (sit_entry entry.now) → HasSummaries image first block.now → WalksRow nids.old nids.new (part_in image 6 1) segno) }
    ensures places { OnOk result ((image : Image) → IsSegment image owners.now segno first (sit_entry entry.now) → HasSummaries image first block.now → WalksRow places.old places.new (part_in image 6 2) segno) }
{
    for k in 0..512u32 {
        let marked = bit_msb(&entry.map, k as usize);
        let owner = owners.at(first + k);
        let s = summary(block.bytes(), k as usize);
        compare_nid(nids, segno, k, marked, s.nid, owner)?;
        compare_place(places, segno, k, marked, s.ofs, owner)?;
    }
    Ok(())
}

// Fills `into` with the summaries of the blocks of a segment, where the logs fill these segments. Answers whether it is the
// segment's summary block, as it is where no log fills the segment. After a refusal the bytes are any.
fn read_summaries<D: Disk>(
    m: &mut Mount,
    d: &mut D,
    logs: &[u32; 6],
    segno: u32,
    into: &mut Block,
) -> Result<bool, CheckRefusal>
    requires logs { logs.now ≡ map (λ t. (log m.old.chosen.head t).segment) log_numbers }
    requires segment { segno < (layout_in m.old).segments }
    requires lies { (layout_in m.old).blocks ≤ (D.state d.old).size }
    ensures summaries { OnOk result ((image : Image) → (D.state d.old).told ≡ Some image → IsMountOf image m.old → HasSummaries image ((layout_in m.old).main + 512 * segno) into.new) }
    ensures stored { IfOk result (λ stored. (image : Image) → (D.state d.old).told ≡ Some image → IsMountOf image m.old → stored ≡ true → into.new ≡ block_at image ((layout image).ssa + segno)) }
    ensures log { IfOk result (λ stored. (image : Image) → IsMountOf image m.old → stored ≡ not (is_log_segment (head image) segno)) }
    ensures mount { m.new ≡ m.old }
    ensures reads { Reads (D.state d.old) (D.state d.new) }
    ensures goes { Goes (D.state d.old) (D.state d.new) }
    ensures fault { IsErrOf result CheckRefusal.DiskFault → Rose (D.state d.old).faults (D.state d.new).faults }
{
    let l = m.layout();
    if has_segment(logs, segno) {
        m.summaries(d, segno, into)?;
        return Ok(false);
    }
    ssa_read(d, &l, segno, into)?;
    Ok(true)
}

impl Summaries {
    // No defects so far.
    fn new(alloc: Global) -> Summaries
        ensures nids { (image : Image) → HasWalked result.nids (part_in image 6 1) 0 0 }
        ensures places { (image : Image) → HasWalked result.places (part_in image 6 2) 0 0 }
        ensures types { (image : Image) → HasWalked result.types (part_in image 6 3) 0 0 }
    {
        Summaries {
            nids: Collector::new(alloc, 1),
            places: Collector::new(alloc, 2),
            types: Collector::new(alloc, 3),
        }
    }

    // Compares the summaries of a segment, where the logs fill these segments.
    fn compare_segment<D: Disk>(
        &mut self,
        m: &mut Mount,
        d: &mut D,
        logs: &[u32; 6],
        segno: u32,
        entry: &SitEntry,
        owners: &Owners,
    ) -> Result<(), CheckRefusal>
        requires logs { logs.now ≡ map (λ t. (log m.old.chosen.head t).segment) log_numbers }
        requires segment { segno < (layout_in m.old).segments }
        requires lies { (layout_in m.old).blocks ≤ (D.state d.old).size }
        ensures nids { OnOk result ((image : Image) → (D.state d.old).told ≡ Some image → IsMountOf image m.old → IsSegment image owners.now segno ((layout_in m.old).main + 512 * segno) (sit_entry entry.now) → WalksRow self.old.nids self.new.nids (part_in image 6 1) segno) }
        ensures places { OnOk result ((image : Image) → (D.state d.old).told ≡ Some image → IsMountOf image m.old → IsSegment image owners.now segno ((layout_in m.old).main + 512 * segno) (sit_entry entry.now) → WalksRow self.old.places self.new.places (part_in image 6 2) segno) }
        ensures types { OnOk result ((image : Image) → (D.state d.old).told ≡ Some image → IsMountOf image m.old → IsSegment image owners.now segno ((layout_in m.old).main + 512 * segno) (sit_entry entry.now) → WalksRow self.old.types self.new.types (part_in image 6 3) segno) }
        ensures mount { m.new ≡ m.old }
        ensures reads { Reads (D.state d.old) (D.state d.new) }
        ensures goes { Goes (D.state d.old) (D.state d.new) }
        ensures fault { IsErrOf result CheckRefusal.DiskFault → Rose (D.state d.old).faults (D.state d.new).faults }
    {
        if !has_valid(entry) {
            return Ok(());
        }
        let l = m.layout();
        let mut block = Block::zeros();
        let stored = read_summaries(m, d, logs, segno, &mut block)?;
        compare_type(&mut self.types, segno, stored, &block, entry.kind)?;
        compare_blocks(
            &mut self.nids,
            &mut self.places,
            segno,
            l.main + 512 * segno,
            &block,
            entry,
            owners,
        )?;
        Ok(())
    }
}

/// Compares the summaries of all marked blocks with their owners, by the segment table, read whole.
pub fn check_summaries<D: Disk>(
    alloc: Global,
    m: &mut Mount,
    d: &mut D,
    entries: &[SitEntry],
    owners: &Owners,
) -> Result<Summaries, CheckRefusal>
    requires segments { length entries.now ≡ (layout_in m.old).segments }
    requires lies { (layout_in m.old).blocks ≤ (D.state d.old).size }
    ensures nids { IfOk result (λ s. (image : Image) → (D.state d.old).told ≡ Some image → IsMountOf image m.old → HasTable image entries.now → IsOwners image owners.now → Collects s.nids (part_defects (part_in image 6 1))) }
    ensures places { IfOk result (λ s. (image : Image) → (D.state d.old).told ≡ Some image → IsMountOf image m.old → HasTable image entries.now → IsOwners image owners.now → Collects s.places (part_defects (part_in image 6 2))) }
    ensures types { IfOk result (λ s. (image : Image) → (D.state d.old).told ≡ Some image → IsMountOf image m.old → HasTable image entries.now → IsOwners image owners.now → Collects s.types (part_defects (part_in image 6 3))) }
    ensures mount { m.new ≡ m.old }
    ensures reads { Reads (D.state d.old) (D.state d.new) }
    ensures goes { Goes (D.state d.old) (D.state d.new) }
    ensures fault { IsErrOf result CheckRefusal.DiskFault → Rose (D.state d.old).faults (D.state d.new).faults }
{
    let l = m.layout();
    let logs = log_segments(m);
    let mut s = Summaries::new(alloc);
    for segno in 0..l.segments {
        s.compare_segment(m, d, &logs, segno, &entries[segno as usize], owners)?;
    }
    Ok(s)
}
