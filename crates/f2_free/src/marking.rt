// Marks on the segments that an image uses.
ghost use Rattle.std.specs.Prelude.{◌≡◌, ◌≤◌, ◌==◌, ◌||◌, false, if◌then◌else◌, length, is_some, Some, None, IfOk, OnOk, IsErrOf};
ghost use Rattle.std.specs.List.{list_any};
ghost use Rattle.std.specs.Option.{option_map_or};
ghost use Rattle.f2_bytes.specs.Bytes.{Image};
ghost use Rattle.f2_bytes.specs.Checkpoint.{is_log_segment};
ghost use Rattle.f2_bytes.specs.NodeAddressTable.{nid_limit};
ghost use Rattle.f2_bytes.specs.RollForward.{found_place, node_of};
ghost use Rattle.f2_free.specs.NodePlaces.{HasTable, HasFound, place_said, some_in_table, uses, some_uses};
ghost use Rattle.f2_free.specs.SegmentMarks.{MarksMore, MarksBlocks, KeepsMarks};
ghost use Rattle.f2_disk.specs.Disk.{Reads, Goes, Rose};
ghost use Rattle.f2_view.specs.Mounted.{layout_in, IsMountOf};

use crate::marks::Marks;
use crate::slots::mark_slots;
use f2_disk::{Block, Disk};
use f2_node::footer;
use f2_roll::Chain;
use f2_sum::NatEntry;
use f2_view::{Mount, ViewRefusal};

// The least number of a node.
const FIRST_NID: u32 = 3;

// Marks the segments of the logs.
pub fn mark_logs(marks: &mut Marks, m: &Mount)
    ensures { MarksMore marks.old marks.new (is_log_segment m.now.chosen.head) }
{
    for t in 0..6 {
        marks.mark_segment(m.log(t).segno);
    }
}

// Marks the segments of the blocks at these addresses.
fn mark_addresses(marks: &mut Marks, addresses: &[u32])
    ensures { MarksBlocks marks.old marks.new (λ a. list_any (λ x. x == a) addresses.now) }
{
    for address in addresses {
        marks.mark(*address);
    }
}

// Marks the segments of the blocks of a chain, and of the one behind it.
pub fn mark_chain(marks: &mut Marks, c: &Chain)
    ensures { MarksBlocks marks.old marks.new (λ a. list_any (λ x. x == a) c.now.nodes || option_map_or (λ x. x == a) c.now.stop false) }
{
    mark_addresses(marks, c.nodes());
    match c.stop() {
        Some(address) => marks.mark(address),
        None => {}
    }
}

// Whether the entry of a number below the limit is that of a node.
pub fn is_node(nid: u32, entry: NatEntry) -> bool
    ensures { result ≡ is_some (place_said nid entry) }
{
    nid >= FIRST_NID && entry.addr != 0
}

// Marks the segment where an entry says that the node of this number stands, if it is one.
fn mark_entry(marks: &mut Marks, nid: u32, entry: NatEntry)
    ensures { MarksBlocks marks.old marks.new (λ a. option_map_or (λ at. at.address == a) (place_said nid entry) false) }
{
    if is_node(nid, entry) {
        marks.mark(entry.addr);
    }
}

// Marks the segments of the nodes of a table with these entries.
pub fn mark_entries(marks: &mut Marks, m: &Mount, entries: &[NatEntry])
    requires { length entries.now ≡ nid_limit (layout_in m.now) }
    ensures keeps { KeepsMarks marks.old marks.new }
    ensures marks { (image : Image) → HasTable image entries.now
        → MarksBlocks marks.old marks.new (some_in_table image) }
{
    for nid in 0..m.nid_limit() {
        mark_entry(marks, nid, entries[nid as usize]);
    }
}

// Reads the node of this number where its entry says, if it is one, that block lies in the main area, and its footer
// agrees: true exactly then. Else the bytes are any.
fn read_node<D: Disk>(
    m: &Mount,
    d: &mut D,
    nid: u32,
    entry: NatEntry,
    into: &mut Block,
) -> Result<bool, ViewRefusal>
    requires lies { (layout_in m.now).blocks ≤ (D.state d.old).size }
    ensures node { IfOk result (λ found. (image : Image) → (D.state d.old).told ≡ Some image → IsMountOf image m.now
        → node_of image nid (place_said nid entry) ≡ (if found then Some into.new else None)) }
    ensures reads { Reads (D.state d.old) (D.state d.new) }
    ensures goes { Goes (D.state d.old) (D.state d.new) }
    ensures fault { IsErrOf result ViewRefusal.DiskFault → Rose (D.state d.old).faults (D.state d.new).faults }
{
    if !is_node(nid, entry) {
        return Ok(false);
    }
    if !m.main_block(d, entry.addr, into)? {
        return Ok(false);
    }
    let said = footer(into);
    Ok(said.nid == nid && said.ino == entry.ino)
}

// Marks the segments of the blocks that the node of this number uses, where it has this entry after roll-forward.
fn mark_node<D: Disk>(
    m: &Mount,
    d: &mut D,
    marks: &mut Marks,
    nid: u32,
    entry: NatEntry,
    block: &mut Block,
) -> Result<(), ViewRefusal>
    requires lies { (layout_in m.now).blocks ≤ (D.state d.old).size }
    ensures marks { OnOk result ((image : Image) → (D.state d.old).told ≡ Some image → IsMountOf image m.now → place_said nid entry ≡ found_place image nid
        → MarksBlocks marks.old marks.new (uses image nid)) }
    ensures keeps { OnOk result (KeepsMarks marks.old marks.new) }
    ensures reads { Reads (D.state d.old) (D.state d.new) }
    ensures goes { Goes (D.state d.old) (D.state d.new) }
    ensures fault { IsErrOf result ViewRefusal.DiskFault → Rose (D.state d.old).faults (D.state d.new).faults }
{
    mark_entry(marks, nid, entry);
    if read_node(m, d, nid, entry, block)? {
        mark_slots(marks, block);
    }
    Ok(())
}

// Marks the segments of the blocks that nodes use, where they have these entries after roll-forward. Each node is read
// once.
pub fn mark_nodes<D: Disk>(
    m: &Mount,
    d: &mut D,
    marks: &mut Marks,
    entries: &[NatEntry],
) -> Result<(), ViewRefusal>
    requires lies { (layout_in m.now).blocks ≤ (D.state d.old).size }
    requires entries { length entries.now ≡ nid_limit (layout_in m.now) }
    ensures marks { OnOk result ((image : Image) → (D.state d.old).told ≡ Some image → IsMountOf image m.now → HasFound image entries.now
        → MarksBlocks marks.old marks.new (some_uses image)) }
    ensures keeps { OnOk result (KeepsMarks marks.old marks.new) }
    ensures reads { Reads (D.state d.old) (D.state d.new) }
    ensures goes { Goes (D.state d.old) (D.state d.new) }
    ensures fault { IsErrOf result ViewRefusal.DiskFault → Rose (D.state d.old).faults (D.state d.new).faults }
{
    let mut block = Block::zeros();
    for nid in 0..m.nid_limit() {
        mark_node(m, d, marks, nid, entries[nid as usize], &mut block)?;
    }
    Ok(())
}
