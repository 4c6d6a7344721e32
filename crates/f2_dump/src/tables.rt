// The dumps of both tables.
ghost use Rattle.std.specs.Prelude.{◌≡◌, ◌≤◌, ◌<◌, ℕ, Some, None, IfOk, IsErrOf, length};
ghost use Rattle.f2_bytes.specs.Bytes.{Image};
ghost use Rattle.f2_bytes.specs.NodeAddressTable.{nid_limit, nat, image_nat_entry};
ghost use Rattle.f2_disk.specs.Disk.{Reads, Goes, Rose};
ghost use Rattle.f2_view.specs.Mounted.{IsMountOf, layout_in};
ghost use Rattle.f2_dump.specs.Dump.{Dumps, Gathers, Sinks, IsInside, OnlyReads};
ghost use Rattle.f2_dump.specs.Text.{lines_between, node_line, segment_line};

use crate::DumpRefusal;
use crate::entries::{push_nat_line, push_sit_line};
use crate::gathering::{FULL, PIECE, finish, keep};
use f2_disk::{Disk, Sink};
use f2_view::Mount;
use std::alloc::Global;

// The least number of a node from one on and below `end`, or else `end`.
fn next_node<D: Disk>(m: &mut Mount, d: &mut D, from: u32, end: u32) -> Result<u32, DumpRefusal>
    requires range { from ≤ end }
    requires limit { end ≤ nid_limit (layout_in m.old) }
    requires lies { (layout_in m.old).blocks ≤ (D.state d.old).size }
    ensures later { IfOk result (λ next. from ≤ next) }
    ensures within { IfOk result (λ next. next ≤ end) }
    ensures none { IfOk result (λ next. (image : Image) → (D.state d.old).told ≡ Some image → IsMountOf image m.old
        → (nid : ℕ) → from ≤ nid → nid < next → nat image nid ≡ None) }
    ensures node { IfOk result (λ next. (image : Image) → (D.state d.old).told ≡ Some image → IsMountOf image m.old
        → next < end → nat image next ≡ Some (image_nat_entry image next)) }
    ensures only { OnlyReads result }
    ensures mount { m.new ≡ m.old }
    ensures reads { Reads (D.state d.old) (D.state d.new) }
    ensures goes { Goes (D.state d.old) (D.state d.new) }
    ensures fault { IsErrOf result DumpRefusal.DiskFault → Rose (D.state d.old).faults (D.state d.new).faults }
{
    // The search for a node may go far past the end.
    if from == end {
        return Ok(end);
    }
    match m.live(d, from)? {
        Some(nid) => Ok(nid.min(end)),
        None => Ok(end),
    }
}

// Reads and gathers the line of a node.
fn gather_node<D: Disk, O: Sink>(
    text: &mut Vec<u8>,
    m: &mut Mount,
    nid: u32,
    d: &mut D,
    o: &mut O,
) -> Result<(), DumpRefusal>
    requires nid { nid < nid_limit (layout_in m.old) }
    requires lies { (layout_in m.old).blocks ≤ (D.state d.old).size }
    requires room { length text.old.items ≤ FULL }
    ensures lines { (image : Image) → (D.state d.old).told ≡ Some image → IsMountOf image m.old
        → nat image nid ≡ Some (image_nat_entry image nid)
        → Gathers (node_line image nid) text.old.items text.new.items (O.told o.old) (O.told o.new) result }
    ensures room { length text.new.items ≤ FULL }
    ensures inside { IsInside result }
    ensures sink { Sinks (O.faults o.old) (O.faults o.new) result }
    ensures mount { m.new ≡ m.old }
    ensures reads { Reads (D.state d.old) (D.state d.new) }
    ensures goes { Goes (D.state d.old) (D.state d.new) }
    ensures fault { IsErrOf result DumpRefusal.DiskFault → Rose (D.state d.old).faults (D.state d.new).faults }
{
    let entry = m.nat_entry(d, nid)?;
    let pushed = push_nat_line(text, nid, &entry);
    keep(text, o, pushed)
}

// Gathers the lines of the nodes of a range.
fn gather_nodes<D: Disk, O: Sink>(
    text: &mut Vec<u8>,
    m: &mut Mount,
    first: u32,
    end: u32,
    d: &mut D,
    o: &mut O,
) -> Result<(), DumpRefusal>
    requires range { first ≤ end }
    requires limit { end ≤ nid_limit (layout_in m.old) }
    requires lies { (layout_in m.old).blocks ≤ (D.state d.old).size }
    requires room { length text.old.items ≤ FULL }
    ensures lines { (image : Image) → (D.state d.old).told ≡ Some image → IsMountOf image m.old
        → Gathers (lines_between (node_line image) first end) text.old.items text.new.items (O.told o.old) (O.told o.new) result }
    ensures room { length text.new.items ≤ FULL }
    ensures inside { IsInside result }
    ensures sink { Sinks (O.faults o.old) (O.faults o.new) result }
    ensures mount { m.new ≡ m.old }
    ensures reads { Reads (D.state d.old) (D.state d.new) }
    ensures goes { Goes (D.state d.old) (D.state d.new) }
    ensures fault { IsErrOf result DumpRefusal.DiskFault → Rose (D.state d.old).faults (D.state d.new).faults }
{
    let mut nid = next_node(m, d, first, end)?;
    while nid < end {
        gather_node(text, m, nid, d, o)?;
        nid = next_node(m, d, nid + 1, end)?;
    }
    Ok(())
}

// Puts the lines of the nodes of a range, up to `end` and without it.
pub(crate) fn dump_nodes<D: Disk, O: Sink>(
    alloc: Global,
    m: &mut Mount,
    first: u32,
    end: u32,
    d: &mut D,
    o: &mut O,
) -> Result<(), DumpRefusal>
    requires range { first ≤ end }
    requires limit { end ≤ nid_limit (layout_in m.old) }
    requires lies { (layout_in m.old).blocks ≤ (D.state d.old).size }
    ensures lines { (image : Image) → (D.state d.old).told ≡ Some image → IsMountOf image m.old
        → Dumps (lines_between (node_line image) first end) (O.told o.old) (O.told o.new) result }
    ensures inside { IsInside result }
    ensures sink { Sinks (O.faults o.old) (O.faults o.new) result }
    ensures mount { m.new ≡ m.old }
    ensures reads { Reads (D.state d.old) (D.state d.new) }
    ensures goes { Goes (D.state d.old) (D.state d.new) }
    ensures fault { IsErrOf result DumpRefusal.DiskFault → Rose (D.state d.old).faults (D.state d.new).faults }
{
    let mut text = Vec::with_capacity(alloc, PIECE)?;
    let answer = gather_nodes(&mut text, m, first, end, d, o);
    finish(&text, o, answer)
}

// Reads and gathers the line of a segment.
fn gather_segment<D: Disk, O: Sink>(
    text: &mut Vec<u8>,
    m: &mut Mount,
    segment: u32,
    d: &mut D,
    o: &mut O,
) -> Result<(), DumpRefusal>
    requires segment { segment < (layout_in m.old).segments }
    requires lies { (layout_in m.old).blocks ≤ (D.state d.old).size }
    requires room { length text.old.items ≤ FULL }
    ensures lines { (image : Image) → (D.state d.old).told ≡ Some image → IsMountOf image m.old
        → Gathers (segment_line image segment) text.old.items text.new.items (O.told o.old) (O.told o.new) result }
    ensures room { length text.new.items ≤ FULL }
    ensures inside { IsInside result }
    ensures sink { Sinks (O.faults o.old) (O.faults o.new) result }
    ensures mount { m.new ≡ m.old }
    ensures reads { Reads (D.state d.old) (D.state d.new) }
    ensures goes { Goes (D.state d.old) (D.state d.new) }
    ensures fault { IsErrOf result DumpRefusal.DiskFault → Rose (D.state d.old).faults (D.state d.new).faults }
{
    let entry = m.sit_entry(d, segment)?;
    let pushed = push_sit_line(text, segment, &entry);
    keep(text, o, pushed)
}

// Gathers the lines of the segments of a range.
fn gather_segments<D: Disk, O: Sink>(
    text: &mut Vec<u8>,
    m: &mut Mount,
    first: u32,
    end: u32,
    d: &mut D,
    o: &mut O,
) -> Result<(), DumpRefusal>
    requires range { first ≤ end }
    requires limit { end ≤ (layout_in m.old).segments }
    requires lies { (layout_in m.old).blocks ≤ (D.state d.old).size }
    requires room { length text.old.items ≤ FULL }
    ensures lines { (image : Image) → (D.state d.old).told ≡ Some image → IsMountOf image m.old
        → Gathers (lines_between (segment_line image) first end) text.old.items text.new.items (O.told o.old) (O.told o.new) result }
    ensures room { length text.new.items ≤ FULL }
    ensures inside { IsInside result }
    ensures sink { Sinks (O.faults o.old) (O.faults o.new) result }
    ensures mount { m.new ≡ m.old }
    ensures reads { Reads (D.state d.old) (D.state d.new) }
    ensures goes { Goes (D.state d.old) (D.state d.new) }
    ensures fault { IsErrOf result DumpRefusal.DiskFault → Rose (D.state d.old).faults (D.state d.new).faults }
{
    for segment in first..end {
        gather_segment(text, m, segment, d, o)?;
    }
    Ok(())
}

// Puts the lines of the segments of a range, up to `end` and without it.
pub(crate) fn dump_segments<D: Disk, O: Sink>(
    alloc: Global,
    m: &mut Mount,
    first: u32,
    end: u32,
    d: &mut D,
    o: &mut O,
) -> Result<(), DumpRefusal>
    requires range { first ≤ end }
    requires limit { end ≤ (layout_in m.old).segments }
    requires lies { (layout_in m.old).blocks ≤ (D.state d.old).size }
    ensures lines { (image : Image) → (D.state d.old).told ≡ Some image → IsMountOf image m.old
        → Dumps (lines_between (segment_line image) first end) (O.told o.old) (O.told o.new) result }
    ensures inside { IsInside result }
    ensures sink { Sinks (O.faults o.old) (O.faults o.new) result }
    ensures mount { m.new ≡ m.old }
    ensures reads { Reads (D.state d.old) (D.state d.new) }
    ensures goes { Goes (D.state d.old) (D.state d.new) }
    ensures fault { IsErrOf result DumpRefusal.DiskFault → Rose (D.state d.old).faults (D.state d.new).faults }
{
    let mut text = Vec::with_capacity(alloc, PIECE)?;
    let answer = gather_segments(&mut text, m, first, end, d, o);
    finish(&text, o, answer)
}
