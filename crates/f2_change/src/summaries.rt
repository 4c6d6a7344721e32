// The summary blocks of the new pack, and those of the summary area.
ghost use Rattle.std.specs.Prelude.{◌≡◌, ◌≤◌, ◌<◌, ◌+◌, ◌++◌, ◌∷◌, if◌then◌else◌, ℕ, [], All, length, take, drop, Some, IfOk, OnOk, IsErrOf};
ghost use Rattle.f2_bytes.specs.Bytes.{Image, block_at};
ghost use Rattle.f2_bytes.specs.Checkpoint.{is_log_segment};
ghost use Rattle.f2_bytes.specs.Summary.{summary_entry};
ghost use Rattle.f2_bytes.specs.Superblock.{IsInOrder};
ghost use Rattle.f2_disk.specs.Disk.{Reads, Goes, Rose};
ghost use Rattle.f2_view.specs.Mounted.{layout_in, IsMountOf};
ghost use Rattle.f2_change.specs.Change.{next_summary, stored_sums, is_filled, summary_end, kind_of, log_at};

use crate::PrepareRefusal;
use crate::given::{given, is_filled};
use f2_bytes::Layout;
use f2_disk::{Block, Disk};
use f2_pack::Log;
use f2_view::Mount;

/// Whether one of the six logs of the mounted checkpoint fills this main segment, counted from 0.
pub fn was_log(m: &Mount, segno: u32) -> bool
    ensures { result ≡ is_log_segment m.now.chosen.head segno }
{
    let logs = [m.log(0), m.log(1), m.log(2), m.log(3), m.log(4), m.log(5)];
    is_filled(&logs, segno)
}

// A block with the summaries of a segment of a log of the mount, or zeros where no log fills it.
fn held_summaries<D: Disk>(m: &mut Mount, d: &mut D, segno: u32) -> Result<Block, PrepareRefusal>
    requires segment { segno < (layout_in m.old).segments }
    requires lies { (layout_in m.old).blocks ≤ (D.state d.old).size }
    ensures entries { IfOk result (λ b. (image : Image) → (D.state d.old).told ≡ Some image → IsMountOf image m.old
        → (k : ℕ) → k < 512 → summary_entry b k ≡ next_summary image [] segno k) }
    ensures mount { m.new ≡ m.old }
    ensures reads { Reads (D.state d.old) (D.state d.new) }
    ensures goes { Goes (D.state d.old) (D.state d.new) }
    ensures fault { IsErrOf result PrepareRefusal.DiskFault → Rose (D.state d.old).faults (D.state d.new).faults }
{
    let mut b = Block::zeros();
    if !was_log(m, segno) {
        return Ok(b);
    }
    m.summaries(d, segno, &mut b)?;
    Ok(b)
}

// A block with the summaries that the segment of a new log is to have.
fn new_summaries<D: Disk>(
    m: &mut Mount,
    d: &mut D,
    sums: &[(u32, Block)],
    segno: u32,
) -> Result<Block, PrepareRefusal>
    requires segment { segno < (layout_in m.old).segments }
    requires lies { (layout_in m.old).blocks ≤ (D.state d.old).size }
    ensures entries { IfOk result (λ b. (image : Image) → (D.state d.old).told ≡ Some image → IsMountOf image m.old
        → (k : ℕ) → k < 512 → summary_entry b k ≡ next_summary image sums.now segno k) }
    ensures mount { m.new ≡ m.old }
    ensures reads { Reads (D.state d.old) (D.state d.new) }
    ensures goes { Goes (D.state d.old) (D.state d.new) }
    ensures fault { IsErrOf result PrepareRefusal.DiskFault → Rose (D.state d.old).faults (D.state d.new).faults }
{
    match given(sums, segno) {
        Some(b) => Ok(b),
        None => held_summaries(m, d, segno),
    }
}

// The first bytes of many.
fn front(bytes: &[u8], count: usize) -> &[u8]
    requires { count ≤ length bytes.now }
    ensures { result.now ≡ take count bytes.now }
{
    &bytes[..count]
}

/// A summary block with the 512 entries of a block, its kind in byte 4091 (0 for data, 1 for nodes), and zeros in its other
/// bytes: its journal is empty.
pub fn log_block(entries: &Block, kind: u8) -> Block
    ensures entries { (k : ℕ) → k < 512 → summary_entry result k ≡ summary_entry entries.now k }
    ensures end { drop 3584 result ≡ summary_end kind }
{
    let mut b = Block::zeros();
    b.put(0, front(entries.bytes(), 3584));
    b.put(4091, &[kind]);
    b
}

// The summary block of log `t`.
fn log_sum<D: Disk>(
    m: &mut Mount,
    d: &mut D,
    sums: &[(u32, Block)],
    logs: &[Log; 6],
    t: usize,
) -> Result<Block, PrepareRefusal>
    requires log { t < 6 }
    requires segments { All (λ at. at.segno < (layout_in m.old).segments) logs.now }
    requires lies { (layout_in m.old).blocks ≤ (D.state d.old).size }
    ensures entries { IfOk result (λ b. (image : Image) → (D.state d.old).told ≡ Some image → IsMountOf image m.old
        → (k : ℕ) → k < 512 → summary_entry b k ≡ next_summary image sums.now (log_at logs.now t).segno k) }
    ensures end { IfOk result (λ b. drop 3584 b ≡ summary_end (kind_of t)) }
    ensures mount { m.new ≡ m.old }
    ensures reads { Reads (D.state d.old) (D.state d.new) }
    ensures goes { Goes (D.state d.old) (D.state d.new) }
    ensures fault { IsErrOf result PrepareRefusal.DiskFault → Rose (D.state d.old).faults (D.state d.new).faults }
{
    let entries = new_summaries(m, d, sums, logs[t].segno)?;
    let kind = if t < 3 { 0 } else { 1 };
    Ok(log_block(&entries, kind))
}

// The summary blocks of the six logs.
pub(crate) fn log_sums<D: Disk>(
    m: &mut Mount,
    d: &mut D,
    sums: &[(u32, Block)],
    logs: &[Log; 6],
) -> Result<[Block; 6], PrepareRefusal>
    requires segments { All (λ at. at.segno < (layout_in m.old).segments) logs.now }
    requires lies { (layout_in m.old).blocks ≤ (D.state d.old).size }
    ensures six { IfOk result (λ blocks. length blocks ≡ 6) }
    ensures entries { IfOk result (λ blocks. (image : Image) → (D.state d.old).told ≡ Some image → IsMountOf image m.old
        → (t k : ℕ) → t < 6 → k < 512 → summary_entry (block_at blocks t) k ≡ next_summary image sums.now (log_at logs.now t).segno k) }
    ensures ends { IfOk result (λ blocks. (t : ℕ) → t < 6 → drop 3584 (block_at blocks t) ≡ summary_end (kind_of t)) }
    ensures mount { m.new ≡ m.old }
    ensures reads { Reads (D.state d.old) (D.state d.new) }
    ensures goes { Goes (D.state d.old) (D.state d.new) }
    ensures fault { IsErrOf result PrepareRefusal.DiskFault → Rose (D.state d.old).faults (D.state d.new).faults }
{
    let mut blocks = [Block::zeros(); 6];
    for t in 0..6usize {
        blocks[t] = log_sum(m, d, sums, logs, t)?;
    }
    Ok(blocks)
}

// Appends the summary block of a segment with its address in the summary area, unless a new log fills the segment.
fn push_sum(
    l: &Layout,
    logs: &[Log; 6],
    segno: u32,
    block: &Block,
    into: &mut Vec<(u32, Block)>,
) -> Result<(), PrepareRefusal>
    requires order { IsInOrder l.now }
    requires segment { segno < l.now.segments }
    ensures blocks { OnOk result (into.new.items ≡ into.old.items ++ (if is_filled logs.now segno then [] else (l.now.ssa + segno, block.now) ∷ [])) }
    ensures fault { IsErrOf result PrepareRefusal.DiskFault → ⊥ }
{
    if is_filled(logs, segno) {
        return Ok(());
    }
    into.push((l.ssa + segno, *block))?;
    Ok(())
}

// Appends the summary blocks of the segments that no new log fills, with their addresses in the summary area.
pub(crate) fn push_sums(
    l: &Layout,
    logs: &[Log; 6],
    sums: &[(u32, Block)],
    into: &mut Vec<(u32, Block)>,
) -> Result<(), PrepareRefusal>
    requires order { IsInOrder l.now }
    requires segments { All (λ w. w.0 < l.now.segments) sums.now }
    ensures blocks { OnOk result (into.new.items ≡ into.old.items ++ stored_sums l.now logs.now sums.now) }
    ensures fault { IsErrOf result PrepareRefusal.DiskFault → ⊥ }
{
    for w in sums {
        push_sum(l, logs, w.0, &w.1, into)?;
    }
    Ok(())
}
