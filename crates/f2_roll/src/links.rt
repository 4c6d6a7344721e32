// One step from a node of a chain to the next.
ghost use Rattle.std.specs.Prelude.{◌≡◌, ◌+◌, ◌≤◌, ◌<◌, ◌^◌, if◌then◌else◌, true, Some, None, IfOk, IfSome, IsErrOf};
ghost use Rattle.f2_bytes.specs.Bytes.{Image, block_at};
ghost use Rattle.f2_bytes.specs.Checkpoint.{checkpoint_row, checkpoint_rows, log};
ghost use Rattle.f2_bytes.specs.Fields.{row_at};
ghost use Rattle.f2_bytes.specs.RollForward.{is_of_version};
ghost use Rattle.f2_bytes.specs.Superblock.{is_main, segment_start, IsInOrder};
ghost use Rattle.f2_disk.specs.Disk.{Reads, Goes, Rose};
ghost use Rattle.f2_roll.specs.Chain.{link_in};

use crate::RollRefusal;
use crate::walked::Walked;
use f2_bytes::{CHECKPOINT, Layout};
use f2_disk::{Block, Disk};
use f2_node::footer;

// The row of a checkpoint with the version.
const VERSION: usize = 0;

// The rows with the segment of the log of warm nodes, and with the place of its next block there.
const WARM_SEGMENT: usize = 7;

const WARM_OFFSET: usize = 15;

// The row with the flags.
const FLAGS: usize = 38;

// The row with the checksum.
const CHECKSUM: usize = 64;

// The flag by which a node carries the checksum above the checkpoint's version.
const CRC_RECOVERY: u64 = 0x40;

// The flag by which the low halves of the two versions alone are to agree. It goes before the other.
const NOCRC_RECOVERY: u64 = 0x200;

// A node of a chain: its address, and that of the next one.
#[derive(Clone, Copy)]
pub struct Link {
    pub at: u32,
    pub next: u32,
}

// The number in row `k` of the checkpoint with this head.
fn field(head: &Block, k: usize) -> u64
    requires { k < 65 }
    ensures value { result ≡ checkpoint_row head.now k }
    ensures fits { result < 256 ^ (row_at checkpoint_rows k).width }
{
    CHECKPOINT.get(head.bytes(), k)
}

// The address at which the chain begins: the next block of the log of warm nodes.
pub fn first_address(l: &Layout, head: &Block) -> u64
    ensures { result ≡ segment_start l.now (log head.now 4).segment + (log head.now 4).offset }
{
    u64::from(l.main) + 512 * field(head, WARM_SEGMENT) + field(head, WARM_OFFSET)
}

// The address, where it lies in the main area.
pub fn main_address(l: &Layout, address: u64) -> Option<u32>
    requires { IsInOrder l.now }
    ensures address { result ≡ (if is_main l.now address then Some address else None) }
    ensures within { IfSome result (λ at. is_main l.now at ≡ true) }
{
    let start = u64::from(l.main);
    if start <= address && address < start + 512 * u64::from(l.segments) {
        Some(address as u32)
    } else {
        None
    }
}

// Whether a node was written after the checkpoint with this head.
fn is_later(head: &Block, node: &Block) -> bool
    ensures { result ≡ is_of_version head.now node.now }
{
    let flags = field(head, FLAGS);
    let version = field(head, VERSION);
    let written = footer(node).cp_ver;
    if flags / NOCRC_RECOVERY % 2 == 1 {
        written % (1 << 32) == version % (1 << 32)
    } else if flags / CRC_RECOVERY % 2 == 1 {
        written == version | (field(head, CHECKSUM) << 32)
    } else {
        written == version
    }
}

// The node at this address, if the chain goes on there.
pub fn link_at<D: Disk>(
    d: &mut D,
    l: &Layout,
    head: &Block,
    walked: &Walked,
    address: u64,
) -> Result<Option<Link>, RollRefusal>
    requires order { IsInOrder l.now }
    requires lies { l.now.blocks ≤ (D.state d.old).size }
    ensures link { IfOk result (λ link. (image : Image) → (D.state d.old).told ≡ Some image → link ≡ link_in l.now head.now walked.now image address) }
    ensures within { IfOk result (λ link. IfSome link (λ link. is_main l.now link.at ≡ true)) }
    ensures reads { Reads (D.state d.old) (D.state d.new) }
    ensures goes { Goes (D.state d.old) (D.state d.new) }
    ensures fault { IsErrOf result RollRefusal.DiskFault → Rose (D.state d.old).faults (D.state d.new).faults }
{
    let at = match main_address(l, address) {
        Some(at) => at,
        None => return Ok(None),
    };
    if walked.has(at) {
        return Ok(None);
    }
    let mut node = Block::zeros();
    d.read(u64::from(at), &mut node)?;
    if !is_later(head, &node) {
        return Ok(None);
    }
    let next = footer(&node).next;
    Ok(Some(Link { at, next }))
}
