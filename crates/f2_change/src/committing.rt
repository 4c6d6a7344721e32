// The writes of a commit.
ghost use Rattle.std.specs.Prelude.{◌≡◌, ◌-◌, ◌≤◌, ◌<◌, ◌+◌, ℕ, Some, true, false, IfOk, OnOk, OnErr, length, slice_set};
ghost use Rattle.std.specs.List.{All};
ghost use Rattle.f2_bytes.specs.Bytes.{Image};
ghost use Rattle.f2_disk.specs.Disk.{Goes, Rose, Lands, LeavesOnly};
ghost use Rattle.f2_disk.specs.Memory.{zero_block};
ghost use Rattle.f2_pack.specs.Held.{chosen_of};
ghost use Rattle.f2_pack.specs.Written.{written};
ghost use Rattle.f2_view.specs.Mounted.{layout_in, IsMountOf};
ghost use Rattle.f2_change.specs.CommitSteps.{SameBut, WritesOnly, IsBetween, filled};
ghost use Rattle.f2_change.specs.Writes.{IsPrepared, Follows, AvoidsSupport, OldOrNew, head_address, filling, pack_body, with_writes, committed};

use crate::Ready;
use f2_disk::{Block, Disk, DiskFault};
use f2_pack::{NewPack, write_body, write_head};
use f2_view::Mount;

// Writes a block, and syncs.
fn write_through<D: Disk>(d: &mut D, at: u64, block: &Block) -> Result<(), DiskFault>
    requires { at < (D.state d.old).size }
    ensures done { OnOk result ((image : Image) → (D.state d.old).told ≡ Some image → (D.state d.new).told ≡ Some (slice_set image at block.now)) }
    ensures durable { OnOk result ((D.state d.new).pending ≡ false) }
    ensures either { (image : Image) → (D.state d.old).told ≡ Some image → (now : Image) × ((D.state d.new).told ≡ Some now) × Lands at block.now image now }
    ensures any_moment { (D.state d.old).pending ≡ false → (image : Image) → (D.state d.old).told ≡ Some image → LeavesOnly (D.state d.old) (D.state d.new) (Lands at block.now image) }
    ensures goes { Goes (D.state d.old) (D.state d.new) }
    ensures fault { OnErr result (Rose (D.state d.old).faults (D.state d.new).faults) }
{
    d.write(at, block)?;
    d.sync()
}

// Writes these blocks in order.
fn write_blocks<D: Disk>(d: &mut D, blocks: &[(u32, Block)]) -> Result<(), DiskFault>
    requires { All (λ w. w.0 < (D.state d.old).size) blocks.now }
    ensures done { OnOk result ((image : Image) → (D.state d.old).told ≡ Some image → (D.state d.new).told ≡ Some (with_writes image blocks.now)) }
    ensures only { WritesOnly blocks.now (D.state d.old) (D.state d.new) }
    ensures goes { Goes (D.state d.old) (D.state d.new) }
    ensures fault { OnErr result (Rose (D.state d.old).faults (D.state d.new).faults) }
{
    for w in blocks {
        d.write(u64::from(w.0), &w.1)?;
    }
    Ok(())
}

// The address of the pack's head.
fn address_of_head(r: &Ready) -> u64
    ensures address { result ≡ head_address r.now }
    ensures prepared { IsPrepared r.now }
{
    u64::from(r.layout.cp) + 512 * u64::from(r.pack.pack)
}

// What their types say of the parts of a new pack: the head is whole, and there are six summary blocks.
fn check_sizes(head: &Block, summaries: &[Block; 6])
    ensures head { length head.now ≡ 4096 }
    ensures summaries { length summaries.now ≡ 6 }
{
    let bytes = head.bytes();
    prove!(bytes.len() == 4096);
    let all: &[Block] = summaries;
    prove!(all.len() == 6);
}

// Writes the blocks of the pack behind its head.
fn write_pack_body<D: Disk>(d: &mut D, r: &Ready) -> Result<(), DiskFault>
    requires { r.now.layout.blocks ≤ (D.state d.old).size }
    ensures done { OnOk result ((image : Image) → (D.state d.old).told ≡ Some image → (D.state d.new).told ≡ Some (with_writes image (pack_body r.now))) }
    ensures only { WritesOnly (pack_body r.now) (D.state d.old) (D.state d.new) }
    ensures goes { Goes (D.state d.old) (D.state d.new) }
    ensures fault { OnErr result (Rose (D.state d.old).faults (D.state d.new).faults) }
{
    let head = address_of_head(r);
    let mut block = Block::zeros();
    for k in 1..8usize {
        write_body(&r.pack, k, &mut block);
        d.write(head + k as u64, &block)?;
    }
    Ok(())
}

// Writes all but the head.
fn write_filling<D: Disk>(d: &mut D, r: &Ready) -> Result<(), DiskFault>
    requires { r.now.layout.blocks ≤ (D.state d.old).size }
    ensures done { OnOk result ((image : Image) → (D.state d.old).told ≡ Some image → (D.state d.new).told ≡ Some (with_writes image (filling r.now))) }
    ensures only { WritesOnly (filling r.now) (D.state d.old) (D.state d.new) }
    ensures goes { Goes (D.state d.old) (D.state d.new) }
    ensures fault { OnErr result (Rose (D.state d.old).faults (D.state d.new).faults) }
{
    write_blocks(d, &r.blocks)?;
    write_pack_body(d, r)
}

// Puts zeros over the head of the pack that is replaced, and syncs.
fn clear<D: Disk>(d: &mut D, r: &Ready) -> Result<(), DiskFault>
    requires { r.now.layout.blocks ≤ (D.state d.old).size }
    ensures done { OnOk result ((image : Image) → (D.state d.old).told ≡ Some image → (D.state d.new).told ≡ Some (slice_set image (head_address r.now) zero_block)) }
    ensures durable { OnOk result ((D.state d.new).pending ≡ false) }
    ensures either { (image : Image) → (D.state d.old).told ≡ Some image → (now : Image) × ((D.state d.new).told ≡ Some now) × Lands (head_address r.now) zero_block image now }
    ensures any_moment { (D.state d.old).pending ≡ false → (image : Image) → (D.state d.old).told ≡ Some image → LeavesOnly (D.state d.old) (D.state d.new) (Lands (head_address r.now) zero_block image) }
    ensures goes { Goes (D.state d.old) (D.state d.new) }
    ensures fault { OnErr result (Rose (D.state d.old).faults (D.state d.new).faults) }
{
    write_through(d, address_of_head(r), &Block::zeros())
}

// Writes all but the head, and syncs.
fn fill<D: Disk>(d: &mut D, r: &Ready) -> Result<(), DiskFault>
    requires { r.now.layout.blocks ≤ (D.state d.old).size }
    ensures done { OnOk result ((image : Image) → (D.state d.old).told ≡ Some image → (D.state d.new).told ≡ Some (with_writes image (filling r.now))) }
    ensures durable { OnOk result ((D.state d.new).pending ≡ false) }
    ensures either { (image : Image) → (D.state d.old).told ≡ Some image → (now : Image) × ((D.state d.new).told ≡ Some now) × SameBut (filling r.now) image now }
    ensures any_moment { (D.state d.old).pending ≡ false → (image : Image) → (D.state d.old).told ≡ Some image → LeavesOnly (D.state d.old) (D.state d.new) (SameBut (filling r.now) image) }
    ensures goes { Goes (D.state d.old) (D.state d.new) }
    ensures fault { OnErr result (Rose (D.state d.old).faults (D.state d.new).faults) }
{
    write_filling(d, r)?;
    d.sync()
}

// Writes the new head, and syncs.
fn write_new_head<D: Disk>(d: &mut D, r: &Ready) -> Result<(), DiskFault>
    requires { r.now.layout.blocks ≤ (D.state d.old).size }
    ensures done { OnOk result ((image : Image) → (D.state d.old).told ≡ Some image → (D.state d.new).told ≡ Some (slice_set image (head_address r.now) (written r.now.pack 0))) }
    ensures durable { OnOk result ((D.state d.new).pending ≡ false) }
    ensures either { (image : Image) → (D.state d.old).told ≡ Some image → (now : Image) × ((D.state d.new).told ≡ Some now) × Lands (head_address r.now) (written r.now.pack 0) image now }
    ensures any_moment { (D.state d.old).pending ≡ false → (image : Image) → (D.state d.old).told ≡ Some image → LeavesOnly (D.state d.old) (D.state d.new) (Lands (head_address r.now) (written r.now.pack 0) image) }
    ensures goes { Goes (D.state d.old) (D.state d.new) }
    ensures fault { OnErr result (Rose (D.state d.old).faults (D.state d.new).faults) }
{
    let mut head = Block::zeros();
    write_head(&r.pack, &mut head);
    write_through(d, address_of_head(r), &head)
}

// Writes all of it, in three steps that each end with a sync.
fn write_all<D: Disk>(d: &mut D, r: &Ready) -> Result<(), DiskFault>
    requires { r.now.layout.blocks ≤ (D.state d.old).size }
    ensures done { OnOk result ((image : Image) → (D.state d.old).told ≡ Some image → (D.state d.new).told ≡ Some (committed r.now image)) }
    ensures durable { OnOk result ((D.state d.new).pending ≡ false) }
    ensures either { (image : Image) → (D.state d.old).told ≡ Some image → (now : Image) × ((D.state d.new).told ≡ Some now) × IsBetween image r.now now }
    ensures any_moment { (D.state d.old).pending ≡ false → (image : Image) → (D.state d.old).told ≡ Some image → LeavesOnly (D.state d.old) (D.state d.new) (IsBetween image r.now) }
    ensures goes { Goes (D.state d.old) (D.state d.new) }
    ensures fault { OnErr result (Rose (D.state d.old).faults (D.state d.new).faults) }
{
    clear(d, r)?;
    fill(d, r)?;
    write_new_head(d, r)
}

/// Commits a change: writes what is ready to the disk of the image that the mount is of, and answers the mount of the
/// new image. It takes no memory.
///
/// Where nothing was pending before, a crash at any moment leaves the old image, with all that its tree depends on
/// unchanged, or the new one. After a fault the disk reads as one of these, too: mount it anew.
pub fn commit<D: Disk>(d: &mut D, m: Mount, r: Ready) -> Result<Mount, DiskFault>
    requires lies { (layout_in m).blocks ≤ (D.state d.old).size }
    requires follows { Follows m r }
    requires avoids { (image : Image) → (D.state d.old).told ≡ Some image → AvoidsSupport image r }
    requires of_image { (image : Image) → (D.state d.old).told ≡ Some image → IsMountOf image m }
    // The image is the new one, and the mount that is answered is its.
    ensures done { OnOk result ((image : Image) → (D.state d.old).told ≡ Some image → (D.state d.new).told ≡ Some (committed r image)) }
    ensures mount { IfOk result (λ renewed. renewed ≡ record { found = m.found; chosen = chosen_of (written r.pack) r.pack.pack }) }
    ensures renewed { IfOk result (λ renewed. (image : Image) → (D.state d.old).told ≡ Some image → IsMountOf (committed r image) renewed) }
    ensures durable { OnOk result ((D.state d.new).pending ≡ false) }
    // Whatever it answers, what the disk then reads is the old image with its support unchanged, or the new one.
    ensures either { (image : Image) → (D.state d.old).told ≡ Some image → (now : Image) × ((D.state d.new).told ≡ Some now) × OldOrNew image r now }
    // So is what a crash at any moment of it leaves.
    ensures any_moment { (D.state d.old).pending ≡ false → (image : Image) → (D.state d.old).told ≡ Some image → LeavesOnly (D.state d.old) (D.state d.new) (OldOrNew image r) }
    ensures goes { Goes (D.state d.old) (D.state d.new) }
    ensures fault { OnErr result (Rose (D.state d.old).faults (D.state d.new).faults) }
{
    check_sizes(&r.pack.head, &r.pack.sums);
    write_all(d, &r)?;
    Ok(m.renew(r.chosen, r.nat, r.sit, &r.changed))
}
