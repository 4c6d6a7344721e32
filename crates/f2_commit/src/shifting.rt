// A batch of blocks that moves to free segments.
ghost use Rattle.std.specs.Prelude.{◌≡◌, ◌≢◌, ◌≤◌, ◌<◌, ◌+◌, ◌*◌, ◌^◌, ◌++◌, ◌-◌, ℕ, List, length, drop, map, true, false, All, Some, None, Err, IfOk, IfSome, IsErrOf, IsTrue};
ghost use Rattle.std.specs.List.Sorted.{IsStrictlyIncreasing};
ghost use Rattle.f2_bytes.specs.Bytes.{Image, quotient_up};
ghost use Rattle.f2_bytes.specs.Check.{is_checked, is_marked};
ghost use Rattle.f2_bytes.specs.Checkpoint.{checkpoint_ver, log, user_block_count, valid_block_count, valid_node_count, valid_inode_count, free_segment_count};
ghost use Rattle.f2_bytes.specs.Defragment.{is_among};
ghost use Rattle.f2_bytes.specs.Journal.{FitsSitEntry};
ghost use Rattle.f2_bytes.specs.NodeAddressTable.{nid_limit};
ghost use Rattle.f2_bytes.specs.Superblock.{IsInOrder, is_main, layout};
ghost use Rattle.f2_disk.specs.Disk.{Reads, Goes, Rose, LeavesOnly};
ghost use Rattle.f2_pack.specs.Logs.{log_of};
ghost use Rattle.f2_pack.specs.Written.{written};
ghost use Rattle.f2_sum.specs.Records.{sit_entry};
ghost use Rattle.f2_sum.specs.declared.records.NatEntry.{NatEntry as HeldNatEntry};
ghost use Rattle.f2_view.specs.Mounted.{layout_in, IsKept, IsMountOf};
ghost use Rattle.f2_change.specs.Change.{log_at};
ghost use Rattle.f2_gather.specs.Gathering.{AllMain, addresses_of, moved_block};
ghost use Rattle.f2_commit.specs.Moves.{AreTargets, HasMoved, HasSameFiles, moved_data, moved_nodes};
ghost use Rattle.f2_commit.specs.Shifting.{IsBatch, HasBlocks, HasSegments, HasSummaries, HasParts, IsSafe, node_addresses};
ghost use Rattle.f2_change.specs.Writes.{Follows, AvoidsSupport, committed};

use crate::ShiftRefusal;
use crate::free_nids::least_free_nid;
use crate::moved_blocks::{
    moved_entries, node_entries, push_data_blocks, push_data_sums, push_node_blocks, push_node_sums,
};
use crate::moved_segments::{WARM_DATA, WARM_NODE, push_filled, push_left};
use f2_bytes::Layout;
use f2_change::{Change, Counts, Ready, commit, prepare};
use f2_disk::{Block, Disk};
use f2_gather::{MovedBlock, gather, put_in_order};
use f2_pack::Log;
use f2_sum::SitEntry;
use f2_tables::NatEntry;
use f2_view::Mount;
use std::alloc::{AllocError, Global};

// How many segments take so many blocks.
fn segments_for(blocks: usize) -> usize
    ensures { result ≡ quotient_up blocks 512 }
{
    blocks.div_ceil(512)
}

// The targets behind those that so many blocks take.
fn behind(targets: &[u32], blocks: usize) -> &[u32]
    requires { quotient_up blocks 512 ≤ length targets.now }
    ensures { result.now ≡ drop (quotient_up blocks 512) targets.now }
{
    &targets[segments_for(blocks)..]
}

// The addresses that blocks and nodes leave, ascending.
fn left_addresses(
    alloc: Global,
    moved: &[MovedBlock],
    nodes: &[(u32, NatEntry)],
) -> Result<Vec<u32>, AllocError>
    ensures rises { IfOk result (λ left. IsStrictlyIncreasing left.items) }
    ensures same { IfOk result (λ left. (a : ℕ) → is_among left.items a ≡ is_among (addresses_of moved.now ++ node_addresses nodes.now) a) }
    ensures main { IfOk result (λ left. (l : Layout) → AllMain l moved.now → All (λ w. is_main l w.1.addr ≡ true) nodes.now → All (λ a. is_main l a ≡ true) left.items) }
{
    let mut left = Vec::new(alloc);
    for b in moved {
        left.push(b.address)?;
    }
    for (_, entry) in nodes {
        left.push(entry.addr)?;
    }
    put_in_order(&mut left);
    Ok(left)
}

// The blocks of a batch at their new places.
fn moved_blocks<D: Disk>(
    alloc: Global,
    d: &mut D,
    l: &Layout,
    targets: &[u32],
    node_targets: &[u32],
    moved: &[MovedBlock],
    nodes: &[(u32, NatEntry)],
) -> Result<Vec<(u32, Block)>, ShiftRefusal>
    requires order { IsInOrder l.now }
    requires targets { All (λ s. s < l.now.segments) targets.now }
    requires room { length moved.now ≤ 512 * length targets.now }
    requires node_targets { All (λ s. s < l.now.segments) node_targets.now }
    requires node_room { length nodes.now ≤ 512 * length node_targets.now }
    requires ascending { IsStrictlyIncreasing (addresses_of moved.now) }
    requires main { AllMain l.now moved.now }
    requires node_main { All (λ w. is_main l.now w.1.addr ≡ true) nodes.now }
    requires lies { l.now.blocks ≤ (D.state d.old).size }
    ensures blocks { IfOk result (λ blocks. (image : Image) → (D.state d.old).told ≡ Some image → l.now ≡ layout image → HasBlocks image targets.now node_targets.now moved.now nodes.now blocks.items) }
    ensures main { IfOk result (λ blocks. All (λ w. is_main l.now w.0 ≡ true) blocks.items) }
    ensures reads { Reads (D.state d.old) (D.state d.new) }
    ensures goes { Goes (D.state d.old) (D.state d.new) }
    ensures fault { IsErrOf result ShiftRefusal.DiskFault → Rose (D.state d.old).faults (D.state d.new).faults }
{
    let mut blocks = Vec::new(alloc);
    push_data_blocks(d, l, targets, moved, &mut blocks)?;
    push_node_blocks(d, l, targets, moved, node_targets, nodes, &mut blocks)?;
    Ok(blocks)
}

// The entries of the segments of a batch, and how many of those that it leaves are free then.
fn moved_segments<D: Disk>(
    alloc: Global,
    m: &mut Mount,
    d: &mut D,
    targets: &[u32],
    node_targets: &[u32],
    moved: &[MovedBlock],
    nodes: &[(u32, NatEntry)],
) -> Result<(Vec<(u32, SitEntry)>, u32), ShiftRefusal>
    requires lies { (layout_in m.old).blocks ≤ (D.state d.old).size }
    requires targets { All (λ s. s < (layout_in m.old).segments) targets.now }
    requires room { length moved.now ≤ 512 * length targets.now }
    requires node_targets { All (λ s. s < (layout_in m.old).segments) node_targets.now }
    requires node_room { length nodes.now ≤ 512 * length node_targets.now }
    requires main { AllMain (layout_in m.old) moved.now }
    requires node_main { All (λ w. is_main (layout_in m.old) w.1.addr ≡ true) nodes.now }
    ensures entries { IfOk result (λ found. (image : Image) → (D.state d.old).told ≡ Some image → IsMountOf image m.old
        → HasSegments image targets.now node_targets.now moved.now nodes.now found.1 found.0.items) }
    ensures few { IfOk result (λ found. found.1 ≤ (layout_in m.old).segments) }
    ensures fits { IfOk result (λ found. All (λ w. (w.0 < (layout_in m.old).segments) × FitsSitEntry (sit_entry w.1)) found.0.items) }
    ensures mount { m.new ≡ m.old }
    ensures reads { Reads (D.state d.old) (D.state d.new) }
    ensures goes { Goes (D.state d.old) (D.state d.new) }
    ensures fault { IsErrOf result ShiftRefusal.DiskFault → Rose (D.state d.old).faults (D.state d.new).faults }
{
    let left = left_addresses(alloc, moved, nodes)?;
    let mut entries: Vec<(u32, SitEntry)> = Vec::new(alloc);
    let freed = push_left(m, d, &left, &mut entries)?;
    push_filled(m, d, targets, WARM_DATA, moved.len(), &mut entries)?;
    push_filled(m, d, node_targets, WARM_NODE, nodes.len(), &mut entries)?;
    Ok((entries, freed))
}

// The summary blocks of a batch.
fn moved_sums(
    alloc: Global,
    targets: &[u32],
    node_targets: &[u32],
    moved: &[MovedBlock],
    nids: &[u32],
) -> Result<Vec<(u32, Block)>, AllocError>
    requires room { length moved.now ≤ 512 * length targets.now }
    requires node_room { length nids.now ≤ 512 * length node_targets.now }
    ensures sums { IfOk result (λ sums. (nodes : List (ℕ × HeldNatEntry)) → map (λ w. w.0) nodes ≡ nids.now → HasSummaries targets.now node_targets.now moved.now nodes sums.items) }
    ensures below { IfOk result (λ sums. (limit : ℕ) → All (λ s. s < limit) targets.now → All (λ s. s < limit) node_targets.now → All (λ w. w.0 < limit) sums.items) }
{
    let mut sums: Vec<(u32, Block)> = Vec::new(alloc);
    push_data_sums(targets, moved, &mut sums)?;
    push_node_sums(node_targets, nids, &mut sums)?;
    Ok(sums)
}

// The counts of the checkpoint after a batch: as before, but for the free segments and the next free nid.
fn counts_after(m: &Mount, next_nid: u32, freed: u32, taken: u32) -> Counts
    ensures user { result.user ≡ user_block_count m.now.chosen.head }
    ensures valid { result.valid ≡ valid_block_count m.now.chosen.head }
    ensures nodes { result.nodes ≡ valid_node_count m.now.chosen.head }
    ensures inodes { result.inodes ≡ valid_inode_count m.now.chosen.head }
    ensures next { result.next_nid ≡ next_nid }
    ensures free { free_segment_count m.now.chosen.head + freed < 2 ^ 32 → result.free ≡ free_segment_count m.now.chosen.head + freed - taken }
{
    let head = m.chosen().head();
    Counts {
        user: head.field(1),
        valid: head.field(2),
        nodes: head.field(41) as u32,
        inodes: head.field(42) as u32,
        free: (head.field(5) as u32)
            .saturating_add(freed)
            .saturating_sub(taken),
        next_nid,
    }
}

// The six logs.
fn six_logs(m: &Mount) -> [Log; 6]
    ensures six { length result ≡ 6 }
    ensures logs { (t : ℕ) → t < 6 → log_of (log_at result t) ≡ log m.now.chosen.head t }
    ensures safe { IsKept m.now → All (λ at. (at.segno < (layout_in m.now).segments) × (at.offset < 512)) result }
{
    [m.log(0), m.log(1), m.log(2), m.log(3), m.log(4), m.log(5)]
}

// The change that moves a batch with these nodes, whose data go to the first targets and whose nodes to the next ones.
fn change_of<D: Disk>(
    alloc: Global,
    m: &mut Mount,
    d: &mut D,
    moved: &[MovedBlock],
    nids: &[u32],
    nodes: &[(u32, NatEntry)],
    targets: &[u32],
) -> Result<Change, ShiftRefusal>
    requires lies { (layout_in m.old).blocks ≤ (D.state d.old).size }
    requires targets { All (λ s. s < (layout_in m.old).segments) targets.now }
    requires room { quotient_up (length moved.now) 512 + quotient_up (length nids.now) 512 ≤ length targets.now }
    requires few { (length moved.now ≤ 4096) × (length nids.now ≤ 8192) }
    requires ascending { IsStrictlyIncreasing (addresses_of moved.now) }
    requires main { AllMain (layout_in m.old) moved.now }
    requires nids { map (λ w. w.0) nodes.now ≡ nids.now }
    requires node_main { All (λ w. is_main (layout_in m.old) w.1.addr ≡ true) nodes.now }
    requires below { All (λ n. n < nid_limit (layout_in m.old)) nids.now }
    ensures parts { IfOk result (λ c. (image : Image) → (D.state d.old).told ≡ Some image → IsMountOf image m.old → is_checked image ≡ true
        → HasParts image targets.now (drop (quotient_up (length moved.now) 512) targets.now) moved.now nodes.now c) }
    ensures safe { IfOk result (IsSafe (layout_in m.old)) }
    ensures mount { m.new ≡ m.old }
    ensures reads { Reads (D.state d.old) (D.state d.new) }
    ensures goes { Goes (D.state d.old) (D.state d.new) }
    ensures fault { IsErrOf result ShiftRefusal.DiskFault → Rose (D.state d.old).faults (D.state d.new).faults }
{
    let l = m.layout();
    let node_targets = behind(targets, moved.len());
    let blocks = moved_blocks(alloc, d, &l, targets, node_targets, moved, nodes)?;
    let (sit, freed) = moved_segments(alloc, m, d, targets, node_targets, moved, nodes)?;
    let next_nid = least_free_nid(alloc, m, d)?;
    let nat = moved_entries(alloc, &l, node_targets, nodes)?;
    let sums = moved_sums(alloc, targets, node_targets, moved, nids)?;
    let taken = (segments_for(moved.len()) + segments_for(nids.len())) as u32;
    let logs = six_logs(m);
    let counts = counts_after(m, next_nid, freed, taken);
    Ok(Change {
        nat,
        sit,
        blocks,
        sums,
        logs,
        counts,
    })
}

// The change that moves a batch, whose data go to the first targets and whose nodes to the next ones; or none where a node says
// no address in main.
fn moving<D: Disk>(
    alloc: Global,
    m: &mut Mount,
    d: &mut D,
    moved: &[MovedBlock],
    nids: &[u32],
    targets: &[u32],
) -> Result<Option<Change>, ShiftRefusal>
    requires lies { (layout_in m.old).blocks ≤ (D.state d.old).size }
    requires targets { All (λ s. s < (layout_in m.old).segments) targets.now }
    requires room { quotient_up (length moved.now) 512 + quotient_up (length nids.now) 512 ≤ length targets.now }
    requires few { (length moved.now ≤ 4096) × (length nids.now ≤ 8192) }
    requires ascending { IsStrictlyIncreasing (addresses_of moved.now) }
    requires main { AllMain (layout_in m.old) moved.now }
    requires below { All (λ n. n < nid_limit (layout_in m.old)) nids.now }
    // On a checked image, with what is gathered of it, it has all parts of the batch, and there is one.
    ensures parts { IfOk result (λ change. IfSome change (λ c. (image : Image) → (D.state d.old).told ≡ Some image → IsMountOf image m.old → is_checked image ≡ true
        → (addresses : List ℕ) → addresses_of moved.now ≡ moved_data image addresses → All (λ b. b ≡ moved_block image b.address) moved.now → nids.now ≡ moved_nodes image addresses
        → (nodes : List (ℕ × HeldNatEntry)) × IsBatch image addresses moved.now nodes × HasParts image targets.now (drop (quotient_up (length moved.now) 512) targets.now) moved.now nodes c)) }
    ensures some { IfOk result (λ change. (image : Image) → (D.state d.old).told ≡ Some image → IsMountOf image m.old → is_checked image ≡ true
        → (addresses : List ℕ) → All (λ a. is_main (layout_in m.old) a ≡ true) addresses → nids.now ≡ moved_nodes image addresses → change ≢ None) }
    ensures safe { IfOk result (λ change. IfSome change (IsSafe (layout_in m.old))) }
    ensures mount { m.new ≡ m.old }
    ensures reads { Reads (D.state d.old) (D.state d.new) }
    ensures goes { Goes (D.state d.old) (D.state d.new) }
    ensures fault { IsErrOf result ShiftRefusal.DiskFault → Rose (D.state d.old).faults (D.state d.new).faults }
{
    match node_entries(alloc, m, d, nids)? {
        Some(nodes) => Ok(Some(change_of(alloc, m, d, moved, nids, &nodes, targets)?)),
        None => Ok(None),
    }
}

// What is ready to be committed so that a batch moves; or none where its blocks can't be moved as they are read.
fn ready_to_move<D: Disk>(
    alloc: Global,
    m: &mut Mount,
    addrs: &[u32],
    targets: &[u32],
    d: &mut D,
) -> Result<Option<Ready>, ShiftRefusal>
    requires lies { (layout_in m.old).blocks ≤ (D.state d.old).size }
    requires version { checkpoint_ver m.old.chosen.head < 2 ^ 63 }
    requires few { length addrs.now ≤ 4096 }
    requires main { All (λ a. is_main (layout_in m.old) a ≡ true) addrs.now }
    requires ascending { IsStrictlyIncreasing addrs.now }
    requires below { All (λ s. s < (layout_in m.old).segments) targets.now }
    requires checked { (image : Image) → (D.state d.old).told ≡ Some image → is_checked image ≡ true }
    requires of_image { (image : Image) → (D.state d.old).told ≡ Some image → IsMountOf image m.old }
    requires valid { (image : Image) → (D.state d.old).told ≡ Some image → All (λ a. IsTrue (is_marked image a)) addrs.now }
    requires targets { (image : Image) → (D.state d.old).told ≡ Some image → AreTargets image addrs.now targets.now }
    ensures follows { IfOk result (λ ready. IfSome ready (Follows m.old)) }
    ensures near { IfOk result (λ ready. IfSome ready (λ r. checkpoint_ver (written r.pack 0) ≤ checkpoint_ver m.old.chosen.head + 2)) }
    ensures avoids { IfOk result (λ ready. IfSome ready (λ r. (image : Image) → (D.state d.old).told ≡ Some image → AvoidsSupport image r)) }
    // Once it is committed the batch has moved.
    ensures moves { IfOk result (λ ready. IfSome ready (λ r. (image : Image) → (D.state d.old).told ≡ Some image → HasMoved image (committed r image) addrs.now targets.now)) }
    ensures some { IfOk result (λ ready. (image : Image) → (D.state d.old).told ≡ Some image → ready ≢ None) }
    ensures mount { m.new ≡ m.old }
    ensures reads { Reads (D.state d.old) (D.state d.new) }
    ensures goes { Goes (D.state d.old) (D.state d.new) }
    ensures fault { IsErrOf result ShiftRefusal.DiskFault → Rose (D.state d.old).faults (D.state d.new).faults }
{
    let found = gather(alloc, m, addrs, d)?;
    if segments_for(found.data.len()) + segments_for(found.nodes.len()) > targets.len() {
        return Ok(None);
    }
    match moving(alloc, m, d, &found.data, &found.nodes, targets)? {
        Some(change) => Ok(Some(prepare(alloc, m, change, d)?)),
        None => Ok(None),
    }
}

/// Moves the blocks at these addresses of a checked image to free segments: at most 4096 addresses of valid main
/// blocks, ascending. The data go to the first targets by ascending address, and the nodes that move with them to the next ones
/// by ascending nid; an extent that covers a block that moves is made zero. Targets are different free main segments, counted
/// from 0; there are at least as many as the data and the nodes that `weigh` answers fill, 512 blocks each. They become
/// segments of warm data and of warm nodes. The node address table keeps all versions and inodes.
///
/// Where nothing was pending before, a crash at any moment leaves a checked image with the same tree and the same superblock
/// copies; so does a fault, after which the image is to be mounted anew. After `NoMemory` nothing was written. On a disk that tells nothing of its blocks, a batch whose
/// blocks can't be moved as they are read (they need more targets, or lie outside of main) makes no write, and the mount is
/// answered.
pub fn shift<D: Disk>(
    alloc: Global,
    m: Mount,
    addrs: &[u32],
    targets: &[u32],
    d: &mut D,
) -> Result<Mount, ShiftRefusal>
    requires lies { (layout_in m).blocks ≤ (D.state d.old).size }
    requires version { checkpoint_ver m.chosen.head < 2 ^ 63 }
    requires few { length addrs.now ≤ 4096 }
    requires main { All (λ a. is_main (layout_in m) a ≡ true) addrs.now }
    requires ascending { IsStrictlyIncreasing addrs.now }
    requires below { All (λ s. s < (layout_in m).segments) targets.now }
    requires checked { (image : Image) → (D.state d.old).told ≡ Some image → is_checked image ≡ true }
    requires of_image { (image : Image) → (D.state d.old).told ≡ Some image → IsMountOf image m }
    requires valid { (image : Image) → (D.state d.old).told ≡ Some image → All (λ a. IsTrue (is_marked image a)) addrs.now }
    requires targets { (image : Image) → (D.state d.old).told ≡ Some image → AreTargets image addrs.now targets.now }
    // The batch moved, and the mount that is answered is of the new image.
    ensures moved { IfOk result (λ n. (image : Image) → (D.state d.old).told ≡ Some image
        → (new : Image) × ((D.state d.new).told ≡ Some new) × HasMoved image new addrs.now targets.now × IsMountOf new n) }
    ensures layout { IfOk result (λ n. layout_in n ≡ layout_in m) }
    ensures version { IfOk result (λ n. checkpoint_ver n.chosen.head ≤ checkpoint_ver m.chosen.head + 2) }
    ensures durable { (D.state d.old).pending ≡ false → IfOk result (λ _. (D.state d.new).pending ≡ false) }
    // Whatever it answers, the disk reads as a checked image with the same tree and the same superblock copies.
    ensures either { (image : Image) → (D.state d.old).told ≡ Some image → (now : Image) × ((D.state d.new).told ≡ Some now) × HasSameFiles image now }
    // So does what a crash at any moment of it leaves.
    ensures any_moment { (D.state d.old).pending ≡ false → (image : Image) → (D.state d.old).told ≡ Some image
        → LeavesOnly (D.state d.old) (D.state d.new) (HasSameFiles image) }
    ensures unwritten { result ≡ Err ShiftRefusal.NoMemory → Reads (D.state d.old) (D.state d.new) }
    ensures goes { Goes (D.state d.old) (D.state d.new) }
    ensures fault { IsErrOf result ShiftRefusal.DiskFault → Rose (D.state d.old).faults (D.state d.new).faults }
{
    let mut m = m;
    match ready_to_move(alloc, &mut m, addrs, targets, d)? {
        Some(ready) => Ok(commit(d, m, ready)?),
        None => Ok(m),
    }
}
