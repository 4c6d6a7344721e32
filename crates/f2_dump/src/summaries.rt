// The dump of the summaries.
ghost use Rattle.std.specs.Prelude.{◌≡◌, ◌≤◌, ◌<◌, ◌+◌, ◌++◌, Some, OnOk, IsErrOf, length};
ghost use Rattle.f2_bytes.specs.Bytes.{Image};
ghost use Rattle.f2_disk.specs.Disk.{Reads, Goes, Rose};
ghost use Rattle.f2_sum.specs.Records.{summary_of};
ghost use Rattle.f2_view.specs.Mounted.{IsMountOf, layout_in};
ghost use Rattle.f2_dump.specs.Dump.{Dumps, Gathers, Sinks, OnlySink, IsInside};
ghost use Rattle.f2_dump.specs.Text.{entry_lines, lines_between, summary_lines};
ghost use Rattle.f2_dump.specs.Text.{summary_line as line_of_summary};

use crate::DumpRefusal;
use crate::entries::push_decimal;
use crate::gathering::{FULL, PIECE, finish, keep};
use f2_disk::{Block, Disk, Sink};
use f2_sum::{Summary, summary};
use f2_view::Mount;
use std::alloc::{AllocError, Global};

// Appends the line of the summary of block `k` of a segment.
pub(crate) fn push_summary_line(
    text: &mut Vec<u8>,
    segment: u32,
    k: u32,
    s: &Summary,
) -> Result<(), AllocError>
    ensures line { OnOk result (text.new.items ≡ text.old.items ++ line_of_summary segment k (summary_of s.now)) }
    ensures size { length text.new.items ≤ length text.old.items + 256 }
{
    push_decimal(text, u64::from(segment), b" ")?;
    push_decimal(text, u64::from(k), b" ")?;
    push_decimal(text, u64::from(s.nid), b" ")?;
    push_decimal(text, u64::from(s.version), b" ")?;
    push_decimal(text, u64::from(s.ofs), b"\n")
}

// Gathers the lines of the entries of a summary block.
fn gather_entries<O: Sink>(
    text: &mut Vec<u8>,
    segment: u32,
    b: &Block,
    o: &mut O,
) -> Result<(), DumpRefusal>
    requires room { length text.old.items ≤ FULL }
    ensures lines { Gathers (entry_lines segment b.now) text.old.items text.new.items (O.told o.old) (O.told o.new) result }
    ensures room { length text.new.items ≤ FULL }
    ensures only { OnlySink result }
    ensures sink { Sinks (O.faults o.old) (O.faults o.new) result }
{
    let bytes = b.bytes();
    for k in 0..512 {
        let pushed = push_summary_line(text, segment, k, &summary(bytes, k as usize));
        keep(text, o, pushed)?;
    }
    Ok(())
}

// Reads and gathers the lines of a segment's summaries.
fn gather_summaries<D: Disk, O: Sink>(
    text: &mut Vec<u8>,
    m: &mut Mount,
    segment: u32,
    d: &mut D,
    o: &mut O,
) -> Result<(), DumpRefusal>
    requires segment { segment < (layout_in m.old).segments }
    requires lies { (layout_in m.old).blocks ≤ (D.state d.old).size }
    requires room { length text.old.items ≤ FULL }
    ensures lines { (image : Image) → (D.state d.old).told ≡ Some image → IsMountOf image m.old
        → Gathers (summary_lines image segment) text.old.items text.new.items (O.told o.old) (O.told o.new) result }
    ensures room { length text.new.items ≤ FULL }
    ensures inside { IsInside result }
    ensures sink { Sinks (O.faults o.old) (O.faults o.new) result }
    ensures mount { m.new ≡ m.old }
    ensures reads { Reads (D.state d.old) (D.state d.new) }
    ensures goes { Goes (D.state d.old) (D.state d.new) }
    ensures fault { IsErrOf result DumpRefusal.DiskFault → Rose (D.state d.old).faults (D.state d.new).faults }
{
    let mut block = Block::zeros();
    m.summaries(d, segment, &mut block)?;
    gather_entries(text, segment, &block, o)
}

// Gathers the lines of the summaries of the segments of a range.
fn gather_range<D: Disk, O: Sink>(
    text: &mut Vec<u8>,
    m: &mut Mount,
    first: u32,
    end: u32,
    d: &mut D,
    o: &mut O,
) -> Result<(), DumpRefusal>
    requires range { first ≤ end }
    requires limit { end ≤ (layout_in m.old).segments }
    requires lies { (layout_in m.old).blocks ≤ (D.state d.old).size }
    requires room { length text.old.items ≤ FULL }
    ensures lines { (image : Image) → (D.state d.old).told ≡ Some image → IsMountOf image m.old
        → Gathers (lines_between (summary_lines image) first end) text.old.items text.new.items (O.told o.old) (O.told o.new) result }
    ensures room { length text.new.items ≤ FULL }
    ensures inside { IsInside result }
    ensures sink { Sinks (O.faults o.old) (O.faults o.new) result }
    ensures mount { m.new ≡ m.old }
    ensures reads { Reads (D.state d.old) (D.state d.new) }
    ensures goes { Goes (D.state d.old) (D.state d.new) }
    ensures fault { IsErrOf result DumpRefusal.DiskFault → Rose (D.state d.old).faults (D.state d.new).faults }
{
    for segment in first..end {
        gather_summaries(text, m, segment, d, o)?;
    }
    Ok(())
}

// Puts the lines of the summaries of the segments of a range, up to `end` and without it.
pub(crate) fn dump_summaries<D: Disk, O: Sink>(
    alloc: Global,
    m: &mut Mount,
    first: u32,
    end: u32,
    d: &mut D,
    o: &mut O,
) -> Result<(), DumpRefusal>
    requires range { first ≤ end }
    requires limit { end ≤ (layout_in m.old).segments }
    requires lies { (layout_in m.old).blocks ≤ (D.state d.old).size }
    ensures lines { (image : Image) → (D.state d.old).told ≡ Some image → IsMountOf image m.old
        → Dumps (lines_between (summary_lines image) first end) (O.told o.old) (O.told o.new) result }
    ensures inside { IsInside result }
    ensures sink { Sinks (O.faults o.old) (O.faults o.new) result }
    ensures mount { m.new ≡ m.old }
    ensures reads { Reads (D.state d.old) (D.state d.new) }
    ensures goes { Goes (D.state d.old) (D.state d.new) }
    ensures fault { IsErrOf result DumpRefusal.DiskFault → Rose (D.state d.old).faults (D.state d.new).faults }
{
    let mut text = Vec::with_capacity(alloc, PIECE)?;
    let answer = gather_range(&mut text, m, first, end, d, o);
    finish(&text, o, answer)
}
