// Whether the logs have segments of their own, with room where they write: rule 8.
ghost use Rattle.std.specs.Prelude.{◌≡◌, ◌<◌, ◌==◌, ◌&&◌, not, nat_lt, length, unwrap_or, IfOk, OnOk};
ghost use Rattle.std.specs.List.{list_any};
ghost use Rattle.f2_bytes.specs.Bits.{bit_msb as bit_of};
ghost use Rattle.f2_bytes.specs.Bytes.{Image, numbers_below};
ghost use Rattle.f2_bytes.specs.Summary.{log_of as least_log};
ghost use Rattle.f2_bytes.specs.Check.{same as same_values, where_true, fails_where, digit, defects, part_defects};
ghost use Rattle.f2_defects.specs.Collected.{Collects, Compares};
ghost use Rattle.f2_areas.specs.LogSegments.{FillsSegment};
ghost use Rattle.f2_survey.specs.Parts.{part_in};
ghost use Rattle.f2_survey.specs.Segments.{HasTable};
ghost use Rattle.f2_areas.specs.Walked.{WalksRow};
ghost use Rattle.f2_pack.specs.Logs.{log_of};
ghost use Rattle.f2_sum.specs.Records.{sit_entry};
ghost use Rattle.f2_view.specs.Mounted.{layout_in, IsMountOf};

use crate::segments::has_valid;
use f2_bytes::bit_msb;
use f2_defects::Collector;
use f2_pack::Log;
use f2_sum::SitEntry;
use f2_view::Mount;
use std::alloc::{AllocError, Global};

// The least log that fills this segment, 0 where none does.
fn first_log(m: &Mount, segno: u32) -> usize
    ensures { result ≡ unwrap_or (least_log m.now.chosen.head segno) 0 }
{
    for t in 0..6 {
        if m.log(t).segno == segno {
            return t;
        }
    }
    0
}

// Logs whose segment a log before them fills too: part 1.
fn share_defects(alloc: Global, m: &Mount) -> Result<Collector, AllocError>
    ensures { IfOk result (λ c. (image : Image) → IsMountOf image m.now → Collects c (part_defects (part_in image 8 1))) }
{
    let mut c = Collector::new(alloc, 1);
    for t in 0..6 {
        let at = m.log(t);
        let first = first_log(m, at.segno);
        c.same(t as u64, 0, first as u64, t as u64)?;
    }
    Ok(c)
}

// Compares the type of a log's segment with that of the log, if the segment has a valid block.
fn compare_kind(c: &mut Collector, t: usize, entry: &SitEntry) -> Result<(), AllocError>
    ensures part { c.new.part ≡ c.old.part }
    ensures compares { OnOk result (Compares c.old c.new t 0 (where_true (list_any (bit_of entry.now.map) (numbers_below 512)) (fails_where (not (digit (nat_lt entry.now.kind 3) == digit (nat_lt t 3))) entry.now.kind t))) }
{
    if !has_valid(entry) {
        return Ok(());
    }
    let fails = u8::from(entry.kind < 3) != u8::from(t < 3);
    c.compare(t as u64, 0, u64::from(entry.kind), t as u64, fails)
}

// Logs of data in a segment of nodes, and the other way round: part 2.
fn kind_defects(alloc: Global, m: &Mount, entries: &[SitEntry]) -> Result<Collector, AllocError>
    requires { length entries.now ≡ (layout_in m.now).segments }
    ensures { IfOk result (λ c. (image : Image) → IsMountOf image m.now → HasTable image entries.now → Collects c (part_defects (part_in image 8 2))) }
{
    // the segments of a mount's logs lie in the main area
    let _ = m.layout();
    let mut c = Collector::new(alloc, 2);
    for t in 0..6 {
        let at = m.log(t);
        compare_kind(&mut c, t, &entries[at.segno as usize])?;
    }
    Ok(c)
}

// Compares a block of a log's segment with being free, if the log is to write it.
fn compare_free(
    c: &mut Collector,
    t: usize,
    k: u16,
    reached: bool,
    marked: bool,
) -> Result<(), AllocError>
    ensures part { c.new.part ≡ c.old.part }
    ensures compares { OnOk result (Compares c.old c.new t k (where_true reached (same_values (digit marked) 0))) }
{
    if !reached {
        return Ok(());
    }
    c.same(t as u64, u64::from(k), u64::from(marked), 0)
}

// Whether a log is to write block `k` of its segment after its next one: it does, unless it reuses holes.
fn comes_later(at: Log, k: u16) -> bool
    ensures { result ≡ (((log_of at).allocation == 0) && nat_lt at.offset k) }
{
    !at.reuse && at.offset < k
}

// Compares the blocks of the segment that log `t` fills: its next block, and those after it.
fn compare_blocks(
    next: &mut Collector,
    later: &mut Collector,
    t: usize,
    at: Log,
    entry: &SitEntry,
) -> Result<(), AllocError>
    ensures next { OnOk result ((image : Image) → FillsSegment image t (log_of at) (sit_entry entry.now) → WalksRow next.old next.new (part_in image 8 3) t) }
    ensures later { OnOk result ((image : Image) → FillsSegment image t (log_of at) (sit_entry entry.now) → WalksRow later.old later.new (part_in image 8 4) t) }
{
    for k in 0..512u16 {
        let marked = bit_msb(&entry.map, k as usize);
        let is_next = k == at.offset;
        let is_later = comes_later(at, k);
        compare_free(next, t, k, is_next, marked)?;
        compare_free(later, t, k, is_later, marked)?;
    }
    Ok(())
}

// Valid blocks where a log writes next, and after it: parts 3 and 4.
fn write_defects(
    alloc: Global,
    m: &Mount,
    entries: &[SitEntry],
) -> Result<(Collector, Collector), AllocError>
    requires { length entries.now ≡ (layout_in m.now).segments }
    ensures next { IfOk result (λ r. (image : Image) → IsMountOf image m.now → HasTable image entries.now → Collects r.0 (part_defects (part_in image 8 3))) }
    ensures later { IfOk result (λ r. (image : Image) → IsMountOf image m.now → HasTable image entries.now → Collects r.1 (part_defects (part_in image 8 4))) }
{
    let _ = m.layout();
    let mut next = Collector::new(alloc, 3);
    let mut later = Collector::new(alloc, 4);
    for t in 0..6 {
        let at = m.log(t);
        compare_blocks(&mut next, &mut later, t, at, &entries[at.segno as usize])?;
    }
    Ok((next, later))
}

/// The defects by rule 8, by the segment table read whole: logs that share a segment, fill one of another type, or write
/// where a block stands.
pub fn check_logs(alloc: Global, m: &Mount, entries: &[SitEntry]) -> Result<Collector, AllocError>
    requires { length entries.now ≡ (layout_in m.now).segments }
    ensures { IfOk result (λ c. (image : Image) → IsMountOf image m.now → HasTable image entries.now → Collects c (defects image 8)) }
{
    let mut c = share_defects(alloc, m)?;
    c.append(&kind_defects(alloc, m, entries)?)?;
    let (next, later) = write_defects(alloc, m, entries)?;
    c.append(&next)?;
    c.append(&later)?;
    Ok(c)
}
