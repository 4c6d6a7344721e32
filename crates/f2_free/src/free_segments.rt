// The free segments of an image.
ghost use Rattle.std.specs.Prelude.{◌≡◌, ◌≤◌, ◌<◌, length, Some, All, IsFalse, IfOk, IsErrOf};
ghost use Rattle.std.specs.List.Sorted.{IsStrictlyIncreasing};
ghost use Rattle.f2_bytes.specs.Bytes.{Image};
ghost use Rattle.f2_bytes.specs.Checkpoint.{head, is_log_segment};
ghost use Rattle.f2_bytes.specs.NodeAddressTable.{nid_limit};
ghost use Rattle.f2_bytes.specs.Superblock.{layout};
ghost use Rattle.f2_bytes.specs.Support.{free_segments};
ghost use Rattle.f2_free.specs.NodePlaces.{HasTable, stands_at, is_used};
ghost use Rattle.f2_free.specs.SegmentMarks.{HasLogs, HasMarks};
ghost use Rattle.f2_disk.specs.Disk.{Reads, Goes, Rose};
ghost use Rattle.f2_roll.specs.Chain.{chain_in, IsWithin};
ghost use Rattle.f2_view.specs.Mounted.{layout_in, IsMountOf};

use crate::marking::{mark_chain, mark_entries, mark_logs, mark_nodes};
use crate::marks::Marks;
use crate::rolling::roll_forward;
use f2_disk::Disk;
use f2_roll::Chain;
use f2_sum::NatEntry;
use f2_view::{Mount, ViewRefusal};
use std::alloc::{AllocError, Global};

// Marks on the segments of the logs, of the chain, and of the nodes of a table with these entries.
fn standing(alloc: Global, m: &Mount, c: &Chain, entries: &[NatEntry]) -> Result<Marks, AllocError>
    requires { length entries.now ≡ nid_limit (layout_in m.now) }
    ensures logs { IfOk result (HasLogs (layout_in m.now) m.now.chosen.head) }
    ensures marks { IfOk result (λ marks. (image : Image) → IsMountOf image m.now → c.now ≡ chain_in image → HasTable image entries.now
        → HasMarks (layout image) (head image) (stands_at image) marks) }
{
    let layout = m.layout();
    let mut marks = Marks::new(alloc, &layout)?;
    mark_logs(&mut marks, m);
    mark_entries(&mut marks, m, entries);
    mark_chain(&mut marks, c);
    Ok(marks)
}

// Marks on all segments that the image uses.
fn used<D: Disk>(
    alloc: Global,
    m: &Mount,
    c: &Chain,
    d: &mut D,
    entries: Vec<NatEntry>,
) -> Result<Marks, ViewRefusal>
    requires lies { (layout_in m.now).blocks ≤ (D.state d.old).size }
    requires within { IsWithin (layout_in m.now) c.now }
    requires entries { length entries.items ≡ nid_limit (layout_in m.now) }
    ensures logs { IfOk result (HasLogs (layout_in m.now) m.now.chosen.head) }
    ensures marks { IfOk result (λ marks. (image : Image) → (D.state d.old).told ≡ Some image → IsMountOf image m.now → c.now ≡ chain_in image
        → HasTable image entries.items → HasMarks (layout image) (head image) (is_used image) marks) }
    ensures reads { Reads (D.state d.old) (D.state d.new) }
    ensures goes { Goes (D.state d.old) (D.state d.new) }
    ensures fault { IsErrOf result ViewRefusal.DiskFault → Rose (D.state d.old).faults (D.state d.new).faults }
{
    let mut marks = standing(alloc, m, c, &entries)?;
    let mut entries = entries;
    roll_forward(alloc, m, c, d, &mut entries)?;
    mark_nodes(m, d, &mut marks, &entries)?;
    Ok(marks)
}

/// The free segments of an image in ascending order: those that no log fills, and without a block that the image depends
/// on, be it by the node address table, by the chain behind the checkpoint, or after roll-forward.
///
/// Each block of the node address table and each node is read once, and those of the chain twice. It writes nothing.
pub fn free<D: Disk>(
    alloc: Global,
    m: &mut Mount,
    c: &Chain,
    d: &mut D,
) -> Result<Vec<u32>, ViewRefusal>
    requires lies { (layout_in m.old).blocks ≤ (D.state d.old).size }
    requires within { IsWithin (layout_in m.old) c.now }
    ensures free { IfOk result (λ segments. (image : Image) → (D.state d.old).told ≡ Some image → IsMountOf image m.old → c.now ≡ chain_in image
        → segments.items ≡ free_segments image) }
    // Also on a disk that tells nothing: they are segments of the main area that no log fills, in ascending order.
    ensures below { IfOk result (λ segments. All (λ segment. segment < (layout_in m.old).segments) segments.items) }
    ensures no_log { IfOk result (λ segments. All (λ segment. IsFalse (is_log_segment m.old.chosen.head segment)) segments.items) }
    ensures ascending { IfOk result (λ segments. IsStrictlyIncreasing segments.items) }
    ensures mount { m.new ≡ m.old }
    ensures reads { Reads (D.state d.old) (D.state d.new) }
    ensures goes { Goes (D.state d.old) (D.state d.new) }
    ensures fault { IsErrOf result ViewRefusal.DiskFault → Rose (D.state d.old).faults (D.state d.new).faults }
{
    let _ = m.layout();
    let entries = m.nat_entries(d)?;
    let marks = used(alloc, m, c, d, entries)?;
    Ok(marks.unmarked(alloc)?)
}
