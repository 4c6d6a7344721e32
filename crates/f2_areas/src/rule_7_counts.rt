// Whether the checkpoint counts what there is: rule 7.
ghost use Rattle.std.specs.Prelude.{◌≡◌, ◌<◌, ◌==◌, ◌&&◌, not, length, IfOk};
ghost use Rattle.std.specs.List.{list_any};
ghost use Rattle.f2_bytes.specs.Bits.{bit_msb};
ghost use Rattle.f2_bytes.specs.Bytes.{Image, numbers_below, count_below};
ghost use Rattle.f2_bytes.specs.Checkpoint.{checkpoint_row};
ghost use Rattle.f2_bytes.specs.Superblock.{layout};
ghost use Rattle.f2_bytes.specs.Check.{defects, part_defects};
ghost use Rattle.f2_defects.specs.Collected.{Collects};
ghost use Rattle.f2_survey.specs.Parts.{part_in};
ghost use Rattle.f2_survey.specs.Segments.{HasTable};
ghost use Rattle.f2_areas.specs.Totals.{HasTotals, is_free as is_free_in};
ghost use Rattle.f2_view.specs.Mounted.{layout_in, IsMountOf};

use crate::rule_2_checkpoint::single_defects;
use crate::segments::{has_valid, log_segments};
use f2_defects::Collector;
use f2_sum::SitEntry;
use f2_view::Mount;
use std::alloc::{AllocError, Global};

// The rows of a checkpoint with its counts of valid blocks, free segments, nodes and inodes.
const VALID_BLOCKS: usize = 2;

const FREE_SEGMENTS: usize = 5;

const VALID_NODES: usize = 41;

const VALID_INODES: usize = 42;

/// What is counted in a whole image, for the checkpoint's counts.
#[derive(Clone, Copy, Debug, PartialEq, Eq)]
pub struct Totals {
    /// The numbers of nodes that the node address table has an entry for.
    pub nodes: u64,
    /// Those of inodes in the main area.
    pub inodes: u64,
    /// The slots of files that aren't holes.
    pub slots: u64,
}

// The number in a row of the checkpoint.
fn said(m: &Mount, row: usize) -> u64
    requires { row < 65 }
    ensures { result ≡ checkpoint_row m.now.chosen.head row }
{
    m.chosen().head().field(row)
}

// The valid blocks: part 1.
fn block_defects(alloc: Global, m: &Mount, totals: Totals) -> Result<Collector, AllocError>
    ensures { IfOk result (λ c. (image : Image) → IsMountOf image m.now → HasTotals image totals → Collects c (part_defects (part_in image 7 1))) }
{
    // the layout of a mount is in order, so that the sum can be counted
    let _ = m.layout();
    let counted = said(m, VALID_BLOCKS);
    let found = totals.nodes.saturating_add(totals.slots);
    single_defects(alloc, 1, counted, found)
}

// The nodes: part 2.
fn node_defects(alloc: Global, m: &Mount, totals: Totals) -> Result<Collector, AllocError>
    ensures { IfOk result (λ c. (image : Image) → IsMountOf image m.now → HasTotals image totals → Collects c (part_defects (part_in image 7 2))) }
{
    let counted = said(m, VALID_NODES);
    single_defects(alloc, 2, counted, totals.nodes)
}

// The inodes: part 3.
fn inode_defects(alloc: Global, m: &Mount, totals: Totals) -> Result<Collector, AllocError>
    ensures { IfOk result (λ c. (image : Image) → IsMountOf image m.now → HasTotals image totals → Collects c (part_defects (part_in image 7 3))) }
{
    let counted = said(m, VALID_INODES);
    single_defects(alloc, 3, counted, totals.inodes)
}

// Whether a segment has no valid block and is none of these, which logs fill.
fn is_free(entry: &SitEntry, segno: u32, logs: &[u32]) -> bool
    ensures { result ≡ (not (list_any (bit_msb entry.now.map) (numbers_below 512)) && not (list_any (λ s. s == segno) logs.now)) }
{
    !has_valid(entry) && !logs.contains(&segno)
}

// How many segments are free, by the segment table read whole.
fn count_free(m: &Mount, entries: &[SitEntry]) -> u32
    requires { length entries.now ≡ (layout_in m.now).segments }
    ensures { (image : Image) → IsMountOf image m.now → HasTable image entries.now → result ≡ count_below (layout image).segments (is_free_in image) }
{
    let l = m.layout();
    let logs = log_segments(m);
    let mut free = 0;
    for segno in 0..l.segments {
        let is_one = is_free(&entries[segno as usize], segno, &logs);
        free += u32::from(is_one);
    }
    free
}

// The free segments: part 4.
fn free_defects(alloc: Global, m: &Mount, entries: &[SitEntry]) -> Result<Collector, AllocError>
    requires { length entries.now ≡ (layout_in m.now).segments }
    ensures { IfOk result (λ c. (image : Image) → IsMountOf image m.now → HasTable image entries.now → Collects c (part_defects (part_in image 7 4))) }
{
    let counted = said(m, FREE_SEGMENTS);
    let free = count_free(m, entries);
    single_defects(alloc, 4, counted, u64::from(free))
}

/// The defects by rule 7: counts of the checkpoint that are not these totals, or not that of the free segments of the
/// segment table, read whole.
pub fn check_counts(
    alloc: Global,
    m: &Mount,
    entries: &[SitEntry],
    totals: Totals,
) -> Result<Collector, AllocError>
    requires { length entries.now ≡ (layout_in m.now).segments }
    ensures { IfOk result (λ c. (image : Image) → IsMountOf image m.now → HasTable image entries.now → HasTotals image totals → Collects c (defects image 7)) }
{
    let mut c = block_defects(alloc, m, totals)?;
    c.append(&node_defects(alloc, m, totals)?)?;
    c.append(&inode_defects(alloc, m, totals)?)?;
    c.append(&free_defects(alloc, m, entries)?)?;
    Ok(c)
}
