// The blocks of a batch at their new places, the entries of its nodes, and the summaries of the segments that take it.
ghost use Rattle.std.specs.Prelude.{◌≡◌, ◌≢◌, ◌≤◌, ◌<◌, ◌+◌, ◌*◌, ◌++◌, List, ℕ, map, length, get_or, true, All, Some, None, IfOk, IfSome, OnOk, IsErrOf};
ghost use Rattle.std.specs.List.Sorted.{IsStrictlyIncreasing};
ghost use Rattle.f2_bytes.specs.Bytes.{Image, Block as FormatBlock, block_at};
ghost use Rattle.f2_bytes.specs.NodeAddressTable.{nid_limit, image_nat_entry};
ghost use Rattle.f2_bytes.specs.Summary.{entry_type, summary_entry};
ghost use Rattle.f2_bytes.specs.Superblock.{IsInOrder, is_main, layout};
ghost use Rattle.f2_disk.specs.Disk.{Reads, Goes, Rose};
ghost use Rattle.f2_sum.specs.Records.{nat_entry};
ghost use Rattle.f2_view.specs.Mounted.{layout_in, IsMountOf};
ghost use Rattle.f2_gather.specs.Gathering.{AllMain, addresses_of};
ghost use Rattle.f2_commit.specs.Moves.{node_summary};
ghost use Rattle.f2_commit.specs.Shifting.{data_blocks, AreShifted, HavePlaces, HasSums, AreSums, data_summary};

use crate::ShiftRefusal;
use crate::moved_nodes::{moved_node, target_block};
use f2_bytes::Layout;
use f2_change::log_block;
use f2_disk::{Block, Disk};
use f2_gather::MovedBlock;
use f2_sum::{Summary, put_summary};
use f2_tables::NatEntry;
use f2_view::Mount;
use std::alloc::{AllocError, Global};

// The types of summary blocks of data and of nodes.
const OF_DATA: u8 = 0;

const OF_NODES: u8 = 1;

// How many blocks a segment has.
const IN_SEGMENT: usize = 512;

// Reads the block at an address.
fn read_block<D: Disk>(d: &mut D, address: u32) -> Result<Block, ShiftRefusal>
    requires lies { address < (D.state d.old).size }
    ensures block { IfOk result (λ b. (image : Image) → (D.state d.old).told ≡ Some image → b ≡ block_at image address) }
    ensures reads { Reads (D.state d.old) (D.state d.new) }
    ensures goes { Goes (D.state d.old) (D.state d.new) }
    ensures fault { IsErrOf result ShiftRefusal.DiskFault → Rose (D.state d.old).faults (D.state d.new).faults }
{
    let mut block = Block::zeros();
    d.read(u64::from(address), &mut block)?;
    Ok(block)
}

// Appends the data blocks, each with its new address.
pub(crate) fn push_data_blocks<D: Disk>(
    d: &mut D,
    l: &Layout,
    targets: &[u32],
    moved: &[MovedBlock],
    into: &mut Vec<(u32, Block)>,
) -> Result<(), ShiftRefusal>
    requires order { IsInOrder l.now }
    requires targets { All (λ s. s < l.now.segments) targets.now }
    requires room { length moved.now ≤ 512 * length targets.now }
    requires main { AllMain l.now moved.now }
    requires lies { l.now.blocks ≤ (D.state d.old).size }
    ensures blocks { OnOk result ((image : Image) → (D.state d.old).told ≡ Some image → into.new.items ≡ into.old.items ++ data_blocks image l.now targets.now (addresses_of moved.now)) }
    ensures main { OnOk result (All (λ w. is_main l.now w.0 ≡ true) into.old.items → All (λ w. is_main l.now w.0 ≡ true) into.new.items) }
    ensures reads { Reads (D.state d.old) (D.state d.new) }
    ensures goes { Goes (D.state d.old) (D.state d.new) }
    ensures fault { IsErrOf result ShiftRefusal.DiskFault → Rose (D.state d.old).faults (D.state d.new).faults }
{
    for n in 0..moved.len() {
        let block = read_block(d, moved[n].address)?;
        into.push((target_block(l, targets, n), block))?;
    }
    Ok(())
}

// The entries that the nodes have, or none where one of them says no address in main.
pub(crate) fn node_entries<D: Disk>(
    alloc: Global,
    m: &mut Mount,
    d: &mut D,
    nids: &[u32],
) -> Result<Option<Vec<(u32, NatEntry)>>, ShiftRefusal>
    requires lies { (layout_in m.old).blocks ≤ (D.state d.old).size }
    requires below { All (λ n. n < nid_limit (layout_in m.old)) nids.now }
    ensures entries { IfOk result (λ found. IfSome found (λ v. (image : Image) → (D.state d.old).told ≡ Some image → IsMountOf image m.old
        → map (λ w. nat_entry w.1) v.items ≡ map (image_nat_entry image) nids.now)) }
    ensures nids { IfOk result (λ found. IfSome found (λ v. map (λ w. w.0) v.items ≡ nids.now)) }
    ensures main { IfOk result (λ found. IfSome found (λ v. All (λ w. is_main (layout_in m.old) w.1.addr ≡ true) v.items)) }
    ensures all { IfOk result (λ found. (image : Image) → (D.state d.old).told ≡ Some image → IsMountOf image m.old
        → All (λ n. is_main (layout image) (image_nat_entry image n).address ≡ true) nids.now → found ≢ None) }
    ensures mount { m.new ≡ m.old }
    ensures reads { Reads (D.state d.old) (D.state d.new) }
    ensures goes { Goes (D.state d.old) (D.state d.new) }
    ensures fault { IsErrOf result ShiftRefusal.DiskFault → Rose (D.state d.old).faults (D.state d.new).faults }
{
    let l = m.layout();
    let mut entries = Vec::new(alloc);
    for nid in nids {
        let entry = m.nat_entry(d, *nid)?;
        if !is_in_main(&l, entry.addr) {
            return Ok(None);
        }
        entries.push((*nid, entry))?;
    }
    Ok(Some(entries))
}

// Whether a block lies in the main area.
fn is_in_main(l: &Layout, address: u32) -> bool
    ensures { result ≡ is_main l.now address }
{
    l.main <= address && u64::from(address) < u64::from(l.main) + 512 * u64::from(l.segments)
}

// Appends the nodes with what they hold of now, each with its new address in segments of their own.
pub(crate) fn push_node_blocks<D: Disk>(
    d: &mut D,
    l: &Layout,
    targets: &[u32],
    moved: &[MovedBlock],
    node_targets: &[u32],
    nodes: &[(u32, NatEntry)],
    into: &mut Vec<(u32, Block)>,
) -> Result<(), ShiftRefusal>
    requires order { IsInOrder l.now }
    requires targets { All (λ s. s < l.now.segments) targets.now }
    requires room { length moved.now ≤ 512 * length targets.now }
    requires node_targets { All (λ s. s < l.now.segments) node_targets.now }
    requires node_room { length nodes.now ≤ 512 * length node_targets.now }
    requires ascending { IsStrictlyIncreasing (addresses_of moved.now) }
    requires main { All (λ w. is_main l.now w.1.addr ≡ true) nodes.now }
    requires lies { l.now.blocks ≤ (D.state d.old).size }
    ensures blocks { OnOk result ((image : Image) → (D.state d.old).told ≡ Some image → (new : List (ℕ × FormatBlock)) × (into.new.items ≡ into.old.items ++ new)
        × AreShifted image l.now targets.now (addresses_of moved.now) node_targets.now nodes.now new) }
    ensures main { OnOk result (All (λ w. is_main l.now w.0 ≡ true) into.old.items → All (λ w. is_main l.now w.0 ≡ true) into.new.items) }
    ensures reads { Reads (D.state d.old) (D.state d.new) }
    ensures goes { Goes (D.state d.old) (D.state d.new) }
    ensures fault { IsErrOf result ShiftRefusal.DiskFault → Rose (D.state d.old).faults (D.state d.new).faults }
{
    for n in 0..nodes.len() {
        let block = read_block(d, nodes[n].1.addr)?;
        let new = moved_node(&block, l, targets, moved);
        into.push((target_block(l, node_targets, n), new))?;
    }
    Ok(())
}

// The entries of the nodes with their new addresses.
pub(crate) fn moved_entries(
    alloc: Global,
    l: &Layout,
    node_targets: &[u32],
    nodes: &[(u32, NatEntry)],
) -> Result<Vec<(u32, NatEntry)>, AllocError>
    requires order { IsInOrder l.now }
    requires targets { All (λ s. s < l.now.segments) node_targets.now }
    requires room { length nodes.now ≤ 512 * length node_targets.now }
    ensures { IfOk result (λ entries. HavePlaces l.now node_targets.now nodes.now entries.items) }
{
    let mut entries = Vec::new(alloc);
    for n in 0..nodes.len() {
        let (nid, entry) = nodes[n];
        let addr = target_block(l, node_targets, n);
        let entry = NatEntry {
            version: entry.version,
            ino: entry.ino,
            addr,
        };
        entries.push((nid, entry))?;
    }
    Ok(entries)
}

// A summary block with the entries of these bytes.
fn sum_block(bytes: &[u8; 4096], kind: u8) -> Block
    ensures kind { entry_type result ≡ kind }
    ensures entries { (k : ℕ) → k < 512 → summary_entry result k ≡ summary_entry bytes.now k }
{
    let mut block = Block::zeros();
    block.put(0, bytes);
    log_block(&block, kind)
}

// Puts the summaries of the data blocks from one on into a summary block.
fn put_data_sums(bytes: &mut [u8], moved: &[MovedBlock], first: usize)
    requires block { length bytes.old ≡ 4096 }
    requires some { first ≤ length moved.now }
    ensures { (k : ℕ) → k < 512 → first + k < length moved.now → summary_entry bytes.new k ≡ get_or (map data_summary moved.now) (first + k) (node_summary 0) }
{
    for k in 0..IN_SEGMENT.min(moved.len() - first) {
        let b = moved[first + k];
        let sum = Summary {
            nid: b.nid,
            version: b.version,
            ofs: b.place,
        };
        put_summary(bytes, k, sum);
    }
}

// The summary block of the segment that takes the `i`-th 512 of these data blocks.
fn data_sums(moved: &[MovedBlock], i: usize) -> Block
    requires { 512 * i < length moved.now }
    ensures { HasSums 0 (map data_summary moved.now) i result }
{
    let mut bytes = [0; 4096];
    put_data_sums(&mut bytes, moved, IN_SEGMENT * i);
    sum_block(&bytes, OF_DATA)
}

// Puts the summaries of the nodes from one on into a summary block.
fn put_node_sums(bytes: &mut [u8], nids: &[u32], first: usize)
    requires block { length bytes.old ≡ 4096 }
    requires some { first ≤ length nids.now }
    ensures { (k : ℕ) → k < 512 → first + k < length nids.now → summary_entry bytes.new k ≡ get_or (map node_summary nids.now) (first + k) (node_summary 0) }
{
    for k in 0..IN_SEGMENT.min(nids.len() - first) {
        let sum = Summary {
            nid: nids[first + k],
            version: 0,
            ofs: 0,
        };
        put_summary(bytes, k, sum);
    }
}

// The summary block of the segment that takes the `i`-th 512 of these nodes.
fn node_sums(nids: &[u32], i: usize) -> Block
    requires { 512 * i < length nids.now }
    ensures { HasSums 1 (map node_summary nids.now) i result }
{
    let mut bytes = [0; 4096];
    put_node_sums(&mut bytes, nids, IN_SEGMENT * i);
    sum_block(&bytes, OF_NODES)
}

// Appends the summary blocks of the segments that take these data blocks.
pub(crate) fn push_data_sums(
    targets: &[u32],
    moved: &[MovedBlock],
    into: &mut Vec<(u32, Block)>,
) -> Result<(), AllocError>
    requires room { length moved.now ≤ 512 * length targets.now }
    ensures { OnOk result ((new : List (ℕ × FormatBlock)) × (into.new.items ≡ into.old.items ++ new) × AreSums targets.now 0 (map data_summary moved.now) new) }
{
    for i in 0..moved.len().div_ceil(IN_SEGMENT) {
        into.push((targets[i], data_sums(moved, i)))?;
    }
    Ok(())
}

// Appends the summary blocks of the segments that take these nodes.
pub(crate) fn push_node_sums(
    node_targets: &[u32],
    nids: &[u32],
    into: &mut Vec<(u32, Block)>,
) -> Result<(), AllocError>
    requires room { length nids.now ≤ 512 * length node_targets.now }
    ensures { OnOk result ((new : List (ℕ × FormatBlock)) × (into.new.items ≡ into.old.items ++ new) × AreSums node_targets.now 1 (map node_summary nids.now) new) }
{
    for i in 0..nids.len().div_ceil(IN_SEGMENT) {
        into.push((node_targets[i], node_sums(nids, i)))?;
    }
    Ok(())
}
