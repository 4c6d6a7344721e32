// The mount of the image of a disk.
ghost use Rattle.std.specs.Prelude.{◌≤◌, ◌<◌, ◌^◌, ◌≡◌, true, IfOk};
ghost use Rattle.f2_bytes.specs.Checkpoint.{checkpoint_ver};
ghost use Rattle.f2_bytes.specs.Superblock.{is_main};
ghost use Rattle.f2_disk.specs.Disk.{Goes, Reads};
ghost use Rattle.f2_view.specs.Mounted.{layout_in};

use crate::failures::of_mount;
use f2_bytes::Layout;
use f2_case_disk::CallError;
use f2_disk::Disk;
use f2_view::{Mount, mount};
use std::alloc::Global;

// Mounts the image.
pub(crate) fn mounted<D: Disk>(alloc: Global, d: &mut D) -> Result<Mount, CallError>
    ensures lies { IfOk result (λ m. (layout_in m).blocks ≤ (D.state d.new).size) }
    ensures version { IfOk result (λ m. checkpoint_ver m.chosen.head < 2 ^ 62) }
    ensures reads { Reads (D.state d.old) (D.state d.new) }
    ensures goes { Goes (D.state d.old) (D.state d.new) }
{
    match mount(alloc, d) {
        Ok(m) => Ok(m),
        Err(refusal) => Err(of_mount(refusal)),
    }
}

// Whether an address lies in the main area.
pub(crate) fn is_in_main(l: &Layout, address: u32) -> bool
    ensures { result ≡ is_main l.now address }
{
    address >= l.main && (address - l.main) / 512 < l.segments
}
