// The segment summary area.
ghost use Rattle.std.specs.Prelude.{◌≡◌, ◌≤◌, ◌<◌, ◌+◌, Some, OnOk, OnErr};
ghost use Rattle.f2_bytes.specs.Bytes.{Image, block_at};
ghost use Rattle.f2_bytes.specs.Superblock.{IsInOrder};
ghost use Rattle.f2_disk.specs.Disk.{Reads, Goes, Rose};

use f2_bytes::Layout;
use f2_disk::{Block, Disk, DiskFault};

/// Reads the summary block of a main segment, counted from 0. After a fault the bytes in `into` are any.
pub fn ssa_read<D: Disk>(
    d: &mut D,
    l: &Layout,
    segno: u32,
    into: &mut Block,
) -> Result<(), DiskFault>
    requires order { IsInOrder l.now }
    requires lies { l.now.blocks ≤ (D.state d.old).size }
    requires segment { segno < l.now.segments }
    ensures block { OnOk result ((image : Image) → (D.state d.old).told ≡ Some image → into.new ≡ block_at image (l.now.ssa + segno)) }
    ensures reads { Reads (D.state d.old) (D.state d.new) }
    ensures goes { Goes (D.state d.old) (D.state d.new) }
    ensures fault { OnErr result (Rose (D.state d.old).faults (D.state d.new).faults) }
{
    d.read(u64::from(l.ssa + segno), into)
}
