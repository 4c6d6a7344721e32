// The chain of nodes behind a checkpoint.
ghost use Rattle.std.specs.Prelude.{◌≡◌, ◌≤◌, Some, IfOk, IsErrOf};
ghost use Rattle.f2_bytes.specs.Bytes.{Image};
ghost use Rattle.f2_bytes.specs.Checkpoint.{head as head_of};
ghost use Rattle.f2_bytes.specs.Superblock.{layout, IsInOrder};
ghost use Rattle.f2_disk.specs.Disk.{Reads, Goes, Rose};
ghost use Rattle.f2_roll.specs.Chain.{chain_in, IsWithin};

use crate::Chain;
use crate::links::{first_address, link_at, main_address};
use crate::refusal::RollRefusal;
use crate::walked::Walked;
use f2_bytes::Layout;
use f2_disk::{Block, Disk};
use std::alloc::Global;

/// Follows the chain of nodes behind the checkpoint with this head. It begins at the next block of the log of warm nodes
/// and goes on to the address that each node names, while that lies in the main area, comes for the first time, and has a
/// node of the checkpoint's version.
///
/// It reads each node once and the block behind them at most, and writes nothing. Memory is taken for the nodes' addresses
/// alone. It answers `DiskFault` where a read failed, and `NoMemory` where there is no room for an address.
pub fn chain<D: Disk>(
    alloc: Global,
    d: &mut D,
    l: &Layout,
    head: &Block,
) -> Result<Chain, RollRefusal>
    requires order { IsInOrder l.now }
    requires lies { l.now.blocks ≤ (D.state d.old).size }
    ensures chain { IfOk result (λ c. (image : Image) → (D.state d.old).told ≡ Some image → l.now ≡ layout image → head.now ≡ head_of image
        → c ≡ chain_in image) }
    // Also on a disk that tells nothing.
    ensures within { IfOk result (IsWithin l.now) }
    ensures reads { Reads (D.state d.old) (D.state d.new) }
    ensures goes { Goes (D.state d.old) (D.state d.new) }
    ensures fault { IsErrOf result RollRefusal.DiskFault → Rose (D.state d.old).faults (D.state d.new).faults }
{
    let mut walked = Walked::new(alloc);
    let mut address = first_address(l, head);
    // No address comes twice, so there are at most as many nodes as the main area has blocks.
    for _ in 0..512 * u64::from(l.segments) {
        match link_at(d, l, head, &walked, address)? {
            Some(link) => {
                walked = walked.with(link.at)?;
                address = u64::from(link.next);
            }
            None => return Ok(walked.chain(main_address(l, address))),
        }
    }
    Ok(walked.chain(main_address(l, address)))
}
