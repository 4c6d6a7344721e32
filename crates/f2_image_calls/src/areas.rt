// Where the areas of the image of a disk lie.
ghost use Rattle.std.specs.Prelude.{◌≤◌, IfOk};
ghost use Rattle.f2_bytes.specs.Superblock.{IsInOrder};
ghost use Rattle.f2_disk.specs.Disk.{Goes, Reads};

use f2_bytes::Layout;
use f2_case_disk::CallError;
use f2_disk::{Block, Disk};
use f2_super::read_copy;

// The layout that the superblock copy in this block says, of an image that fits the disk.
pub(crate) fn layout_on<D: Disk>(d: &mut D, b: &Block) -> Result<Layout, CallError>
    ensures order { IfOk result IsInOrder }
    ensures lies { IfOk result (λ l. l.blocks ≤ (D.state d.new).size) }
    ensures reads { Reads (D.state d.old) (D.state d.new) }
    ensures goes { Goes (D.state d.old) (D.state d.new) }
{
    let size = match d.size() {
        Ok(size) => size,
        Err(_) => return Err(CallError::DiskFault),
    };
    let Some(copy) = read_copy(b) else {
        return Err(CallError::Words);
    };
    if copy.field(10) > 268_435_456 {
        return Err(CallError::Words);
    }
    let l = copy.layout();
    if l.blocks > size {
        return Err(CallError::Words);
    }
    Ok(l)
}
