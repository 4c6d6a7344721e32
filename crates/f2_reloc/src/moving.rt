// One batch moves.
ghost use Rattle.std.specs.Prelude.{◌≡◌, ℕ, ◌≤◌, ◌<◌, ◌+◌, ◌^◌, All, length, true, false, Some, Err, IfOk, IsErrOf, IsTrue};
ghost use Rattle.std.specs.List.Sorted.{IsStrictlyIncreasing};
ghost use Rattle.f2_bytes.specs.Bytes.{Image};
ghost use Rattle.f2_bytes.specs.Check.{is_checked, is_marked};
ghost use Rattle.f2_bytes.specs.Checkpoint.{checkpoint_ver};
ghost use Rattle.f2_bytes.specs.Defragment.{placement, batch_need};
ghost use Rattle.f2_bytes.specs.NodeAddressTable.{nid_limit};
ghost use Rattle.f2_bytes.specs.Superblock.{is_main, layout};
ghost use Rattle.f2_disk.specs.Disk.{Reads, Goes, Rose, LeavesOnly};
ghost use Rattle.f2_view.specs.Mounted.{layout_in, IsMountOf};
ghost use Rattle.f2_commit.specs.Moves.{AreTargets, HasMoved, HasSameFiles};
ghost use Rattle.f2_reloc.specs.Emptying.{part_of, need_of, IsInside, IsWithin, IsReady, HasStepped};
ghost use Rattle.f2_commit.specs.declared.relocating.RelocRefusal.TheVariants.{NoSpace};

use crate::batches::{Batch, MOST, Range, valid_in};
use f2_commit::{RelocRefusal, Weight, shift, weigh};
use f2_disk::Disk;
use f2_view::Mount;
use std::alloc::Global;

// What a batch took: the blocks that lay in its part of the range, and the target segments.
#[derive(Clone, Copy)]
pub struct Step {
    pub blocks: u64,
    pub targets: u64,
}

// The segments that so many blocks take.
fn need(weight: Weight) -> u64
    ensures { result ≡ need_of weight }
{
    weight.data_blocks.div_ceil(512) + weight.node_blocks.div_ceil(512)
}

// The segments that a batch needs; none where it has too many blocks, which is so on no disk that tells a checked image.
pub(crate) fn need_for<D: Disk>(
    alloc: Global,
    m: &mut Mount,
    d: &mut D,
    addresses: &[u32],
) -> Result<u64, RelocRefusal>
    requires lies { (layout_in m.old).blocks ≤ (D.state d.old).size }
    requires main { All (λ a. is_main (layout_in m.old) a ≡ true) addresses.now }
    requires rises { IsStrictlyIncreasing addresses.now }
    requires checked { (image : Image) → (D.state d.old).told ≡ Some image → is_checked image ≡ true }
    requires of_image { (image : Image) → (D.state d.old).told ≡ Some image → IsMountOf image m.old }
    requires valid { (image : Image) → (D.state d.old).told ≡ Some image → All (λ a. IsTrue (is_marked image a)) addresses.now }
    ensures need { IfOk result (λ n. (image : Image) → (D.state d.old).told ≡ Some image → length addresses.now ≤ 4096
        → n ≡ batch_need (nid_limit (layout image)) (placement image) addresses.now) }
    ensures mount { m.new ≡ m.old }
    ensures reads { Reads (D.state d.old) (D.state d.new) }
    ensures goes { Goes (D.state d.old) (D.state d.new) }
    ensures fault { IsErrOf result RelocRefusal.DiskFault → Rose (D.state d.old).faults (D.state d.new).faults }
    ensures never { (need have : ℕ) → result ≡ Err (NoSpace need have) → ⊥ }
{
    let _ = m.layout();
    if addresses.len() > MOST {
        return Ok(0);
    }
    Ok(need(weigh(alloc, m, addresses, d)?))
}

// Moves these blocks, some and at most 4096, if the targets are enough.
fn move_valid<D: Disk>(
    alloc: Global,
    m: Mount,
    d: &mut D,
    addresses: &[u32],
    targets: &[u32],
) -> Result<(Mount, Step), RelocRefusal>
    requires lies { (layout_in m).blocks ≤ (D.state d.old).size }
    requires version { checkpoint_ver m.chosen.head < 2 ^ 63 }
    requires some { 1 ≤ length addresses.now }
    requires few { length addresses.now ≤ 4096 }
    requires main { All (λ a. is_main (layout_in m) a ≡ true) addresses.now }
    requires rises { IsStrictlyIncreasing addresses.now }
    requires below { All (λ s. s < (layout_in m).segments) targets.now }
    requires checked { (image : Image) → (D.state d.old).told ≡ Some image → is_checked image ≡ true }
    requires of_image { (image : Image) → (D.state d.old).told ≡ Some image → IsMountOf image m }
    requires valid { (image : Image) → (D.state d.old).told ≡ Some image → All (λ a. IsTrue (is_marked image a)) addresses.now }
    requires targets { (image : Image) → (D.state d.old).told ≡ Some image → AreTargets image addresses.now targets.now }
    ensures moved { IfOk result (λ r. (image : Image) → (D.state d.old).told ≡ Some image
        → (new : Image) × ((D.state d.new).told ≡ Some new) × IsMountOf new r.0 × HasMoved image new addresses.now targets.now
        × (r.1.blocks ≡ length addresses.now) × (r.1.targets ≡ batch_need (nid_limit (layout image)) (placement image) addresses.now)) }
    ensures layout { IfOk result (λ r. layout_in r.0 ≡ layout_in m) }
    ensures version { IfOk result (λ r. checkpoint_ver r.0.chosen.head ≤ checkpoint_ver m.chosen.head + 2) }
    ensures durable { (D.state d.old).pending ≡ false → IfOk result (λ _. (D.state d.new).pending ≡ false) }
    ensures taken { IfOk result (λ r. r.1.targets ≤ length targets.now) }
    ensures few { IfOk result (λ r. r.1.blocks ≤ 4096) }
    ensures either { (image : Image) → (D.state d.old).told ≡ Some image → (now : Image) × ((D.state d.new).told ≡ Some now) × HasSameFiles image now }
    ensures any_moment { (D.state d.old).pending ≡ false → (image : Image) → (D.state d.old).told ≡ Some image
        → LeavesOnly (D.state d.old) (D.state d.new) (HasSameFiles image) }
    ensures goes { Goes (D.state d.old) (D.state d.new) }
    ensures fault { IsErrOf result RelocRefusal.DiskFault → Rose (D.state d.old).faults (D.state d.new).faults }
    ensures never { (need have : ℕ) → result ≡ Err (NoSpace need have) → ⊥ }
{
    let mut m = m;
    let takes = need_for(alloc, &mut m, d, addresses)?;
    if takes > targets.len() as u64 {
        return Ok((
            m,
            Step {
                blocks: 0,
                targets: 0,
            },
        ));
    }
    let blocks = addresses.len() as u64;
    let n = shift(alloc, m, addresses, targets, d)?;
    Ok((
        n,
        Step {
            blocks,
            targets: takes,
        },
    ))
}

// Moves the blocks of a batch.
pub(crate) fn move_batch<D: Disk>(
    alloc: Global,
    m: Mount,
    d: &mut D,
    range: Range,
    batch: Batch,
    targets: &[u32],
) -> Result<(Mount, Step), RelocRefusal>
    requires lies { (layout_in m).blocks ≤ (D.state d.old).size }
    requires version { checkpoint_ver m.chosen.head < 2 ^ 63 }
    requires range { IsInside (layout_in m) range }
    requires batch { IsWithin (layout_in m) batch }
    requires below { All (λ s. s < (layout_in m).segments) targets.now }
    requires of_image { (image : Image) → (D.state d.old).told ≡ Some image → IsMountOf image m }
    requires ready { (image : Image) → (D.state d.old).told ≡ Some image → IsReady image (part_of (layout_in m) range batch) targets.now }
    ensures moved { IfOk result (λ r. (image : Image) → (D.state d.old).told ≡ Some image
        → (new : Image) × ((D.state d.new).told ≡ Some new) × IsMountOf new r.0 × HasStepped image (part_of (layout_in m) range batch) targets.now r.1 new) }
    ensures layout { IfOk result (λ r. layout_in r.0 ≡ layout_in m) }
    ensures version { IfOk result (λ r. checkpoint_ver r.0.chosen.head ≤ checkpoint_ver m.chosen.head + 2) }
    ensures durable { (D.state d.old).pending ≡ false → IfOk result (λ _. (D.state d.new).pending ≡ false) }
    ensures taken { IfOk result (λ r. r.1.targets ≤ length targets.now) }
    ensures few { IfOk result (λ r. r.1.blocks ≤ 4096) }
    ensures either { (image : Image) → (D.state d.old).told ≡ Some image → (now : Image) × ((D.state d.new).told ≡ Some now) × HasSameFiles image now }
    ensures any_moment { (D.state d.old).pending ≡ false → (image : Image) → (D.state d.old).told ≡ Some image
        → LeavesOnly (D.state d.old) (D.state d.new) (HasSameFiles image) }
    ensures goes { Goes (D.state d.old) (D.state d.new) }
    ensures fault { IsErrOf result RelocRefusal.DiskFault → Rose (D.state d.old).faults (D.state d.new).faults }
    ensures never { (need have : ℕ) → result ≡ Err (NoSpace need have) → ⊥ }
{
    let mut m = m;
    let addresses = valid_in(alloc, &mut m, d, range, batch)?;
    if addresses.is_empty() || addresses.len() > MOST {
        return Ok((
            m,
            Step {
                blocks: 0,
                targets: 0,
            },
        ));
    }
    move_valid(alloc, m, d, &addresses, targets)
}
