// A range is emptied.
ghost use Rattle.std.specs.Prelude.{◌≡◌, ◌≤◌, ◌<◌, ◌+◌, ◌*◌, ◌^◌, ◌++◌, ℕ, All, length, map, drop, sum_by, Bool, true, false, Some, None, Err, IfOk, IfSome, IsErrOf, IsTrue, IsFalse};
ghost use Rattle.f2_bytes.specs.Bytes.{Image};
ghost use Rattle.f2_bytes.specs.Check.{is_checked, is_marked};
ghost use Rattle.f2_bytes.specs.Checkpoint.{checkpoint_ver};
ghost use Rattle.f2_bytes.specs.Defragment.{defrag_batches, defrag_targets, defrag_need, defrag_have};
ghost use Rattle.f2_bytes.specs.Superblock.{layout};
ghost use Rattle.f2_disk.specs.Disk.{Reads, Goes, Rose, LeavesOnly};
ghost use Rattle.f2_commit.specs.Moves.{HasSameFiles};
ghost use Rattle.f2_view.specs.Mounted.{layout_in, IsMountOf};
ghost use Rattle.f2_reloc.specs.Emptying.{end_of, part_of, moved_with, IsInside, IsWithin, IsNeed, AreChosen, IsPlan, IsSafePlan, IsEmptied};
ghost use Rattle.f2_commit.specs.declared.relocating.RelocRefusal.TheVariants.{NoSpace};

use crate::batches::{Batch, Range, cut, valid_in};
use crate::moving::{Step, move_batch, need_for};
use crate::targets::targets;
use f2_commit::{Moved, RelocRefusal, free};
use f2_disk::Disk;
use f2_roll::chain;
use f2_view::Mount;
use std::alloc::Global;

// The segments that a batch needs, as everything stands at first.
fn batch_need<D: Disk>(
    alloc: Global,
    m: &mut Mount,
    d: &mut D,
    range: Range,
    batch: Batch,
) -> Result<u64, RelocRefusal>
    requires lies { (layout_in m.old).blocks ≤ (D.state d.old).size }
    requires range { IsInside (layout_in m.old) range }
    requires batch { IsWithin (layout_in m.old) batch }
    requires checked { (image : Image) → (D.state d.old).told ≡ Some image → is_checked image ≡ true }
    requires of_image { (image : Image) → (D.state d.old).told ≡ Some image → IsMountOf image m.old }
    ensures need { IfOk result (λ n. (image : Image) → (D.state d.old).told ≡ Some image → IsNeed image (part_of (layout_in m.old) range batch) n) }
    ensures mount { m.new ≡ m.old }
    ensures reads { Reads (D.state d.old) (D.state d.new) }
    ensures goes { Goes (D.state d.old) (D.state d.new) }
    ensures fault { IsErrOf result RelocRefusal.DiskFault → Rose (D.state d.old).faults (D.state d.new).faults }
    ensures never { (need have : ℕ) → result ≡ Err (NoSpace need have) → ⊥ }
{
    let addresses = valid_in(alloc, m, d, range, batch)?;
    need_for(alloc, m, d, &addresses)
}

// The segments that all batches need, as everything stands at first; none where no block is valid.
fn need_of_all<D: Disk>(
    alloc: Global,
    m: &mut Mount,
    d: &mut D,
    range: Range,
    batches: &[Batch],
) -> Result<u64, RelocRefusal>
    requires lies { (layout_in m.old).blocks ≤ (D.state d.old).size }
    requires range { IsInside (layout_in m.old) range }
    requires within { All (IsWithin (layout_in m.old)) batches.now }
    requires checked { (image : Image) → (D.state d.old).told ≡ Some image → is_checked image ≡ true }
    requires of_image { (image : Image) → (D.state d.old).told ≡ Some image → IsMountOf image m.old }
    requires count { length batches.now ≤ (layout_in m.old).segments + 1 }
    requires cut { (image : Image) → (D.state d.old).told ≡ Some image → map (part_of (layout_in m.old) range) batches.now ≡ defrag_batches image range.start (end_of range) }
    ensures need { IfOk result (λ n. (image : Image) → (D.state d.old).told ≡ Some image → n ≡ defrag_need image range.start (end_of range)) }
    ensures mount { m.new ≡ m.old }
    ensures reads { Reads (D.state d.old) (D.state d.new) }
    ensures goes { Goes (D.state d.old) (D.state d.new) }
    ensures fault { IsErrOf result RelocRefusal.DiskFault → Rose (D.state d.old).faults (D.state d.new).faults }
    ensures never { (need have : ℕ) → result ≡ Err (NoSpace need have) → ⊥ }
{
    let _ = m.layout();
    let mut sum = 0u64;
    for batch in batches {
        let more = batch_need(alloc, m, d, range, *batch)?;
        sum = sum.saturating_add(more);
    }
    Ok(sum)
}

// The free segments that may take what moves, in the order in which they do.
fn targets_for<D: Disk>(
    alloc: Global,
    m: &mut Mount,
    d: &mut D,
    range: Range,
    target: u64,
    down: bool,
) -> Result<Vec<u32>, RelocRefusal>
    requires lies { (layout_in m.old).blocks ≤ (D.state d.old).size }
    requires range { IsInside (layout_in m.old) range }
    requires target { (layout_in m.old).main ≤ target }
    ensures targets { IfOk result (λ targets. (image : Image) → (D.state d.old).told ≡ Some image → IsMountOf image m.old
        → targets.items ≡ defrag_targets image range.start (end_of range) target down) }
    ensures below { IfOk result (λ targets. All (λ segment. segment < (layout_in m.old).segments) targets.items) }
    ensures mount { m.new ≡ m.old }
    ensures reads { Reads (D.state d.old) (D.state d.new) }
    ensures goes { Goes (D.state d.old) (D.state d.new) }
    ensures fault { IsErrOf result RelocRefusal.DiskFault → Rose (D.state d.old).faults (D.state d.new).faults }
    ensures never { (need have : ℕ) → result ≡ Err (NoSpace need have) → ⊥ }
{
    let l = m.layout();
    let later = chain(alloc, d, &l, m.chosen().head().block())?;
    let segments = free(alloc, m, &later, d)?;
    Ok(targets(alloc, &l, &segments, range, target, down)?)
}

// The numbers with those of a batch.
fn more_moved(moved: Moved, step: Step) -> Moved
    requires blocks { moved.blocks + step.blocks < 2 ^ 64 }
    requires batches { moved.batches + 1 < 2 ^ 64 }
    ensures { result ≡ moved_with moved step }
{
    let batches = if step.blocks == 0 { 0 } else { 1 };
    Moved {
        blocks: moved.blocks + step.blocks,
        batches: moved.batches + batches,
    }
}

// The targets behind those that are taken.
fn left(targets: &[u32], taken: usize) -> &[u32]
    requires { taken ≤ length targets.now }
    ensures { result.now ≡ drop taken targets.now }
{
    &targets[taken..]
}

// Moves all batches, one after the other, to these targets.
fn move_all<D: Disk>(
    alloc: Global,
    m: Mount,
    d: &mut D,
    range: Range,
    batches: &[Batch],
    targets: &[u32],
) -> Result<(Mount, Moved), RelocRefusal>
    requires lies { (layout_in m).blocks ≤ (D.state d.old).size }
    requires version { checkpoint_ver m.chosen.head < 2 ^ 62 }
    requires range { IsInside (layout_in m) range }
    requires within { All (IsWithin (layout_in m)) batches.now }
    requires count { length batches.now ≤ (layout_in m).segments + 1 }
    requires below { All (λ s. s < (layout_in m).segments) targets.now }
    requires of_image { (image : Image) → (D.state d.old).told ≡ Some image → IsMountOf image m }
    requires checked { (image : Image) → (D.state d.old).told ≡ Some image → is_checked image ≡ true }
    requires cut { (image : Image) → (D.state d.old).told ≡ Some image → map (part_of (layout_in m) range) batches.now ≡ defrag_batches image range.start (end_of range) }
    requires targets { (image : Image) → (D.state d.old).told ≡ Some image → AreChosen image range.start (end_of range) targets.now }
    ensures moved { IfOk result (λ r. (image : Image) → (D.state d.old).told ≡ Some image
        → (new : Image) × ((D.state d.new).told ≡ Some new) × IsMountOf new r.0
        × ((target : ℕ) (down : Bool) → targets.now ≡ defrag_targets image range.start (end_of range) target down → defrag_need image range.start (end_of range) ≤ length targets.now
        → IsEmptied image range.start (end_of range) target down new r.1)) }
    ensures layout { IfOk result (λ r. layout_in r.0 ≡ layout_in m) }
    ensures version { IfOk result (λ r. checkpoint_ver r.0.chosen.head ≤ checkpoint_ver m.chosen.head + 2 * ((layout_in m).segments + 1)) }
    ensures durable { (D.state d.old).pending ≡ false → IfOk result (λ _. (D.state d.new).pending ≡ false) }
    ensures either { (image : Image) → (D.state d.old).told ≡ Some image → (now : Image) × ((D.state d.new).told ≡ Some now) × HasSameFiles image now }
    ensures any_moment { (D.state d.old).pending ≡ false → (image : Image) → (D.state d.old).told ≡ Some image
        → LeavesOnly (D.state d.old) (D.state d.new) (HasSameFiles image) }
    ensures goes { Goes (D.state d.old) (D.state d.new) }
    ensures fault { IsErrOf result RelocRefusal.DiskFault → Rose (D.state d.old).faults (D.state d.new).faults }
    ensures never { (need have : ℕ) → result ≡ Err (NoSpace need have) → ⊥ }
{
    let _ = m.layout();
    let mut m = m;
    let mut moved = Moved {
        blocks: 0,
        batches: 0,
    };
    let mut taken = 0usize;
    for batch in batches {
        let (n, step) = move_batch(alloc, m, d, range, *batch, left(targets, taken))?;
        m = n;
        taken += step.targets as usize;
        moved = more_moved(moved, step);
    }
    Ok((m, moved))
}

// The batches of a range and the targets that take them; none where nothing is to move.
fn planned<D: Disk>(
    alloc: Global,
    m: &mut Mount,
    d: &mut D,
    range: Range,
    target: u64,
    down: bool,
) -> Result<Option<(Vec<Batch>, Vec<u32>)>, RelocRefusal>
    requires lies { (layout_in m.old).blocks ≤ (D.state d.old).size }
    requires range { IsInside (layout_in m.old) range }
    requires target { (layout_in m.old).main ≤ target }
    requires checked { (image : Image) → (D.state d.old).told ≡ Some image → is_checked image ≡ true }
    requires of_image { (image : Image) → (D.state d.old).told ≡ Some image → IsMountOf image m.old }
    ensures none { IfOk result (λ p. p ≡ None → (image : Image) → (D.state d.old).told ≡ Some image → defrag_need image range.start (end_of range) ≡ 0) }
    ensures plan { IfOk result (λ p. IfSome p (λ w. (image : Image) → (D.state d.old).told ≡ Some image → IsPlan (layout_in m.old) image range target down w.0.items w.1.items)) }
    ensures safe { IfOk result (λ p. IfSome p (λ w. IsSafePlan (layout_in m.old) w.0.items w.1.items)) }
    ensures no_space { (need have : ℕ) → result ≡ Err (NoSpace need have) → (image : Image) → (D.state d.old).told ≡ Some image
        → (need ≡ defrag_need image range.start (end_of range)) × (have ≡ defrag_have image range.start (end_of range) target down) × (have < need) }
    ensures mount { m.new ≡ m.old }
    ensures reads { Reads (D.state d.old) (D.state d.new) }
    ensures goes { Goes (D.state d.old) (D.state d.new) }
    ensures fault { IsErrOf result RelocRefusal.DiskFault → Rose (D.state d.old).faults (D.state d.new).faults }
{
    let batches = cut(alloc, m, d, range)?;
    let need = need_of_all(alloc, m, d, range, &batches)?;
    if need == 0 {
        return Ok(None);
    }
    let targets = targets_for(alloc, m, d, range, target, down)?;
    let have = targets.len() as u64;
    if need > have {
        return Err(RelocRefusal::NoSpace { need, have });
    }
    Ok(Some((batches, targets)))
}

/// Empties a range of the main area of a checked image: the blocks that stand there, and the nodes that hold their addresses,
/// move to free segments outside of it, from the target's on upward, or downward; batch by batch. All that names them follows,
/// as with `shift`.
///
/// Where the range has no valid block nothing is written, and the free segments are not looked for. After `NoSpace` nothing was
/// written. Whatever it answers, the disk reads as a checked image with the same tree and the same superblock copies, and, where
/// nothing was pending before, so does what a crash at any moment leaves.
pub fn defrag<D: Disk>(
    alloc: Global,
    m: Mount,
    range: Range,
    target: u64,
    down: bool,
    d: &mut D,
) -> Result<(Mount, Moved), RelocRefusal>
    requires lies { (layout_in m).blocks ≤ (D.state d.old).size }
    requires version { checkpoint_ver m.chosen.head < 2 ^ 62 }
    requires range { IsInside (layout_in m) range }
    requires target { (layout_in m).main ≤ target }
    requires checked { (image : Image) → (D.state d.old).told ≡ Some image → is_checked image ≡ true }
    requires of_image { (image : Image) → (D.state d.old).told ≡ Some image → IsMountOf image m }
    // The range is empty, and the mount that is answered is of the new image.
    ensures emptied { IfOk result (λ r. (image : Image) → (D.state d.old).told ≡ Some image
        → (new : Image) × ((D.state d.new).told ≡ Some new) × IsMountOf new r.0 × IsEmptied image range.start (end_of range) target down new r.1) }
    ensures layout { IfOk result (λ r. layout_in r.0 ≡ layout_in m) }
    ensures version { IfOk result (λ r. checkpoint_ver r.0.chosen.head ≤ checkpoint_ver m.chosen.head + 2 * ((layout_in m).segments + 1)) }
    ensures durable { (D.state d.old).pending ≡ false → IfOk result (λ _. (D.state d.new).pending ≡ false) }
    // A range without a valid block: nothing was written.
    ensures idle { (image : Image) → (D.state d.old).told ≡ Some image → ((a : ℕ) → range.start ≤ a → a < end_of range → IsFalse (is_marked image a)) → Reads (D.state d.old) (D.state d.new) }
    // Too few free segments: nothing was written.
    ensures no_space { (need have : ℕ) → result ≡ Err (NoSpace need have) → (image : Image) → (D.state d.old).told ≡ Some image
        → (need ≡ defrag_need image range.start (end_of range)) × (have ≡ defrag_have image range.start (end_of range) target down) × (have < need) }
    ensures unwritten { (need have : ℕ) → result ≡ Err (NoSpace need have) → Reads (D.state d.old) (D.state d.new) }
    // Whatever it answers, the disk reads as a checked image with the same tree and the same superblock copies.
    ensures either { (image : Image) → (D.state d.old).told ≡ Some image → (now : Image) × ((D.state d.new).told ≡ Some now) × HasSameFiles image now }
    // So does what a crash at any moment of it leaves.
    ensures any_moment { (D.state d.old).pending ≡ false → (image : Image) → (D.state d.old).told ≡ Some image
        → LeavesOnly (D.state d.old) (D.state d.new) (HasSameFiles image) }
    ensures goes { Goes (D.state d.old) (D.state d.new) }
    ensures fault { IsErrOf result RelocRefusal.DiskFault → Rose (D.state d.old).faults (D.state d.new).faults }
{
    let mut m = m;
    match planned(alloc, &mut m, d, range, target, down)? {
        Some((batches, targets)) => move_all(alloc, m, d, range, &batches, &targets),
        None => Ok((
            m,
            Moved {
                blocks: 0,
                batches: 0,
            },
        )),
    }
}
