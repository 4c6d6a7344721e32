// Whether a pack is valid, by its head and its tail.
ghost use Rattle.std.specs.Prelude.{◌≡◌, ◌≤◌, ◌<◌, ◌+◌, ◌*◌, ℕ, Some, true, IfOk, IfSome, OnErr};
ghost use Rattle.f2_bytes.specs.Bytes.{Image};
ghost use Rattle.f2_bytes.specs.Checkpoint.{log, pack_at, is_log_valid as log_is_valid, agrees_with_layout as head_agrees, has_room_for_summaries as head_has_room};
ghost use Rattle.f2_bytes.specs.Superblock.{IsInOrder};
ghost use Rattle.f2_disk.specs.Disk.{State, Reads, Goes, Rose};
ghost use Rattle.f2_pack.specs.Valid.{head_in, is_head_valid as head_is_valid, is_tail_of as tail_fits};

use crate::Checkpoint;
use f2_bytes::{Layout, sealed};
use f2_disk::{Block, Disk, DiskFault};

// Log `t` lies in a main segment.
fn is_log_valid(head: &Checkpoint, l: &Layout, t: usize) -> bool
    requires { t < 6 }
    ensures { result ≡ log_is_valid l.now (log head.now t) }
{
    head.segment(t) < u64::from(l.segments) && head.offset(t) < 512 && head.allocation(t) <= 1
}

// The head's bitmaps and logs agree with the layout.
#[tactic(auto, unfolding(f2_bytes::specs::Checkpoint::agrees_with_layout))]
fn agrees_with_layout(head: &Checkpoint, l: &Layout) -> bool
    ensures { result ≡ head_agrees l.now head.now }
{
    head.field(44) == u64::from(l.sit_half / 8)
        && head.field(45) == u64::from(l.nat_half / 8)
        && is_log_valid(head, l, 0)
        && is_log_valid(head, l, 1)
        && is_log_valid(head, l, 2)
        && is_log_valid(head, l, 3)
        && is_log_valid(head, l, 4)
        && is_log_valid(head, l, 5)
}

// The pack has room for its orphans, its summaries and its tail.
#[tactic(auto, unfolding(f2_bytes::specs::Checkpoint::has_room_for_summaries))]
fn has_room_for_summaries(head: &Checkpoint) -> bool
    ensures { result ≡ head_has_room head.now }
{
    let start = head.field(40);
    let taken = start + head.data_blocks() + head.node_blocks() + 1;
    1 <= start && taken <= head.field(39)
}

// All that a head says by itself is valid.
#[tactic(auto, unfolding(crate::specs::Valid::is_head_valid))]
pub(crate) fn is_head_valid(head: &Checkpoint, l: &Layout) -> bool
    ensures { result ≡ head_is_valid l.now head.now }
{
    sealed(head.block().bytes())
        && !head.has_large_nat_bitmap()
        && head.field(39) <= 512
        && agrees_with_layout(head, l)
        && has_room_for_summaries(head)
}

// The block is the tail of a pack with this head.
pub(crate) fn is_tail_of(head: &Checkpoint, tail: &Block) -> bool
    ensures { result ≡ tail_fits head.now tail.now }
{
    sealed(tail.bytes()) && Checkpoint::of(tail).field(0) == head.field(0)
}

// The head of pack 0 or 1, where that pack is valid.
pub(crate) fn valid_head<D: Disk>(
    d: &mut D,
    l: &Layout,
    pack: u8,
) -> Result<Option<Checkpoint>, DiskFault>
    requires in_order { IsInOrder l.now }
    requires inside { l.now.blocks ≤ (D.state d.old).size }
    requires pack { pack < 2 }
    ensures head { IfOk result (λ head. (image : Image) → (D.state d.old).told ≡ Some image → head ≡ head_in l.now (pack_at l.now image pack)) }
    ensures valid { IfOk result (λ head. IfSome head (λ h. head_is_valid l.now h ≡ true)) }
    ensures reads { Reads (D.state d.old) (D.state d.new) }
    ensures goes { Goes (D.state d.old) (D.state d.new) }
    ensures fault { OnErr result (Rose (D.state d.old).faults (D.state d.new).faults) }
{
    let start = u64::from(l.cp) + 512 * u64::from(pack);
    let mut block = Block::zeros();
    d.read(start, &mut block)?;
    let head = Checkpoint::of(&block);
    if !is_head_valid(&head, l) {
        return Ok(None);
    }
    let last = start + (head.field(39) - 1);
    d.read(last, &mut block)?;
    if is_tail_of(&head, &block) {
        Ok(Some(head))
    } else {
        Ok(None)
    }
}
