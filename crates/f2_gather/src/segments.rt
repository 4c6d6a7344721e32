// A segment at hand: the type of its blocks and their summaries.
ghost use Rattle.std.specs.Prelude.{◌≡◌, ◌≤◌, ◌<◌, Some, IfOk, OnOk, IsErrOf};
ghost use Rattle.f2_bytes.specs.Bytes.{Image};
ghost use Rattle.f2_disk.specs.Disk.{Reads, Goes, Rose};
ghost use Rattle.f2_view.specs.Mounted.{layout_in, IsMountOf};
ghost use Rattle.f2_gather.specs.Gathering.{Shows};

use f2_disk::{Block, Disk};
use f2_view::{Mount, ViewRefusal};

/// A main segment, counted from 0: whether its blocks are data, and their 512 summaries.
#[derive(Drop)]
pub(crate) struct Segment {
    pub number: u32,
    pub is_data: bool,
    pub summaries: Block,
}

/// Reads a segment.
pub(crate) fn read_segment<D: Disk>(
    m: &mut Mount,
    d: &mut D,
    number: u32,
) -> Result<Segment, ViewRefusal>
    requires segment { number < (layout_in m.old).segments }
    requires lies { (layout_in m.old).blocks ≤ (D.state d.old).size }
    ensures number { IfOk result (λ s. s.number ≡ number) }
    ensures shows { IfOk result (λ s. (image : Image) → (D.state d.old).told ≡ Some image → IsMountOf image m.old → Shows image s) }
    ensures mount { m.new ≡ m.old }
    ensures reads { Reads (D.state d.old) (D.state d.new) }
    ensures goes { Goes (D.state d.old) (D.state d.new) }
    ensures fault { IsErrOf result ViewRefusal.DiskFault → Rose (D.state d.old).faults (D.state d.new).faults }
{
    let kind = m.sit_entry(d, number)?.kind;
    let mut summaries = Block::zeros();
    m.summaries(d, number, &mut summaries)?;
    Ok(Segment {
        number,
        is_data: kind < 3,
        summaries,
    })
}

/// Turns to another segment, unless this one is at hand.
pub(crate) fn turn_to<D: Disk>(
    m: &mut Mount,
    d: &mut D,
    number: u32,
    held: &mut Segment,
) -> Result<(), ViewRefusal>
    requires segment { number < (layout_in m.old).segments }
    requires lies { (layout_in m.old).blocks ≤ (D.state d.old).size }
    ensures number { OnOk result (held.new.number ≡ number) }
    ensures shows { OnOk result ((image : Image) → (D.state d.old).told ≡ Some image → IsMountOf image m.old → Shows image held.old → Shows image held.new) }
    ensures mount { m.new ≡ m.old }
    ensures reads { Reads (D.state d.old) (D.state d.new) }
    ensures goes { Goes (D.state d.old) (D.state d.new) }
    ensures fault { IsErrOf result ViewRefusal.DiskFault → Rose (D.state d.old).faults (D.state d.new).faults }
{
    if held.number != number {
        *held = read_segment(m, d, number)?;
    }
    Ok(())
}
