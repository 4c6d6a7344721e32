// The inodes whose extents cover blocks that move.
ghost use Rattle.std.specs.Prelude.{◌≡◌, ◌≤◌, ◌<◌, ◌+◌, ℕ, ◌||◌, ◌++◌, ◌∷◌, [], true, if◌then◌else◌, length, flat_map, All, Some, IfOk, OnOk, IsErrOf};
ghost use Rattle.std.specs.List.{list_any};
ghost use Rattle.std.specs.List.Sorted.{IsStrictlyIncreasing};
ghost use Rattle.f2_bytes.specs.Bytes.{Image};
ghost use Rattle.f2_bytes.specs.Defragment.{is_among, is_covered, regular_extent};
ghost use Rattle.f2_bytes.specs.NodeAddressTable.{nid_limit};
ghost use Rattle.f2_disk.specs.Disk.{Reads, Goes, Rose};
ghost use Rattle.f2_view.specs.Mounted.{layout_in, IsMountOf};
ghost use Rattle.f2_gather.specs.Gathering.{file_at, covering_at, addresses_of, holders_of, number_within};

use crate::gathering::MovedBlock;
use f2_disk::{Block, Disk};
use f2_node::inode_field;
use f2_view::{Mount, ViewRefusal};
use std::alloc::{AllocError, Global};

// Pushes a number where the test passes.
fn push_where(test: bool, number: u32, into: &mut Vec<u32>) -> Result<(), AllocError>
    ensures items { OnOk result (into.new.items ≡ into.old.items ++ (if test then number ∷ [] else [])) }
    ensures few { OnOk result (length into.new.items ≤ length into.old.items + 1) }
    ensures below { OnOk result ((limit : ℕ) → (test ≡ true → number < limit) → All (λ n. n < limit) into.old.items → All (λ n. n < limit) into.new.items) }
{
    if test {
        into.push(number)?;
    }
    Ok(())
}

/// Pushes a number that is below the limit.
#[tactic(auto, unfolding(crate::specs::Gathering::number_within))]
pub(crate) fn push_within(number: u32, limit: u32, into: &mut Vec<u32>) -> Result<(), AllocError>
    ensures items { OnOk result (into.new.items ≡ into.old.items ++ number_within limit number) }
    ensures few { OnOk result (length into.new.items ≤ length into.old.items + 1) }
    ensures below { OnOk result (All (λ n. n < limit) into.old.items → All (λ n. n < limit) into.new.items) }
{
    push_where(number < limit, number, into)
}

/// Puts numbers in ascending order, each once: the same numbers, and no others.
pub fn put_in_order(numbers: &mut Vec<u32>)
    ensures rises { IsStrictlyIncreasing numbers.new.items }
    ensures same { (n : ℕ) → is_among numbers.new.items n ≡ is_among numbers.old.items n }
    ensures few { length numbers.new.items ≤ length numbers.old.items }
    ensures below { (limit : ℕ) → All (λ n. n < limit) numbers.old.items → All (λ n. n < limit) numbers.new.items }
{
    numbers.sort_unstable();
    numbers.dedup();
}

// The nodes that hold the addresses of these blocks, ascending, each once.
fn holders(alloc: Global, blocks: &[MovedBlock]) -> Result<Vec<u32>, AllocError>
    ensures same { IfOk result (λ nids. (n : ℕ) → is_among nids.items n ≡ is_among (holders_of blocks.now) n) }
    ensures few { IfOk result (λ nids. length nids.items ≤ length blocks.now) }
{
    let mut nids = Vec::new(alloc);
    for b in blocks {
        nids.push(b.nid)?;
    }
    put_in_order(&mut nids);
    Ok(nids)
}

// Pushes the file of a node.
fn push_file<D: Disk>(
    m: &mut Mount,
    d: &mut D,
    nid: u32,
    into: &mut Vec<u32>,
) -> Result<(), ViewRefusal>
    requires lies { (layout_in m.old).blocks ≤ (D.state d.old).size }
    ensures file { OnOk result ((image : Image) → (D.state d.old).told ≡ Some image → IsMountOf image m.old → into.new.items ≡ into.old.items ++ file_at image nid) }
    ensures few { OnOk result (length into.new.items ≤ length into.old.items + 1) }
    ensures below { OnOk result (All (λ n. n < nid_limit (layout_in m.old)) into.old.items → All (λ n. n < nid_limit (layout_in m.old)) into.new.items) }
    ensures mount { m.new ≡ m.old }
    ensures reads { Reads (D.state d.old) (D.state d.new) }
    ensures goes { Goes (D.state d.old) (D.state d.new) }
    ensures fault { IsErrOf result ViewRefusal.DiskFault → Rose (D.state d.old).faults (D.state d.new).faults }
{
    let limit = m.nid_limit();
    if nid >= limit {
        return Ok(());
    }
    let ino = m.nat_entry(d, nid)?.ino;
    Ok(push_within(ino, limit, into)?)
}

// Pushes the files of nodes.
fn push_files<D: Disk>(
    m: &mut Mount,
    d: &mut D,
    nids: &[u32],
    into: &mut Vec<u32>,
) -> Result<(), ViewRefusal>
    requires lies { (layout_in m.old).blocks ≤ (D.state d.old).size }
    ensures files { OnOk result ((image : Image) → (D.state d.old).told ≡ Some image → IsMountOf image m.old → into.new.items ≡ into.old.items ++ flat_map (file_at image) nids.now) }
    ensures few { OnOk result (length into.new.items ≤ length into.old.items + length nids.now) }
    ensures below { OnOk result (All (λ n. n < nid_limit (layout_in m.old)) into.old.items → All (λ n. n < nid_limit (layout_in m.old)) into.new.items) }
    ensures mount { m.new ≡ m.old }
    ensures reads { Reads (D.state d.old) (D.state d.new) }
    ensures goes { Goes (D.state d.old) (D.state d.new) }
    ensures fault { IsErrOf result ViewRefusal.DiskFault → Rose (D.state d.old).faults (D.state d.new).faults }
{
    for nid in nids {
        push_file(m, d, *nid, into)?;
    }
    Ok(())
}

// The files of the nodes that hold the addresses of these blocks, ascending, each once.
fn files_of<D: Disk>(
    alloc: Global,
    m: &mut Mount,
    d: &mut D,
    blocks: &[MovedBlock],
) -> Result<Vec<u32>, ViewRefusal>
    requires lies { (layout_in m.old).blocks ≤ (D.state d.old).size }
    ensures files { IfOk result (λ files. (image : Image) → (D.state d.old).told ≡ Some image → IsMountOf image m.old
        → (n : ℕ) → is_among files.items n ≡ is_among (flat_map (file_at image) (holders_of blocks.now)) n) }
    ensures few { IfOk result (λ files. length files.items ≤ length blocks.now) }
    ensures below { IfOk result (λ files. All (λ n. n < nid_limit (layout_in m.old)) files.items) }
    ensures mount { m.new ≡ m.old }
    ensures reads { Reads (D.state d.old) (D.state d.new) }
    ensures goes { Goes (D.state d.old) (D.state d.new) }
    ensures fault { IsErrOf result ViewRefusal.DiskFault → Rose (D.state d.old).faults (D.state d.new).faults }
{
    let nids = holders(alloc, blocks)?;
    let mut files = Vec::new(alloc);
    push_files(m, d, &nids, &mut files)?;
    put_in_order(&mut files);
    Ok(files)
}

/// Whether the inode in a block is that of a regular file whose extent covers one of these blocks, whose addresses ascend. It
/// reads only the inode's mode and extent, and says nothing where the addresses don't ascend.
pub fn covers(inode: &Block, blocks: &[MovedBlock]) -> bool
    ensures { IsStrictlyIncreasing (addresses_of blocks.now) → result ≡ list_any (is_covered (regular_extent inode.now)) (addresses_of blocks.now) }
{
    if inode_field(inode, 0) / 4096 != 8 {
        return false;
    }
    let start = inode_field(inode, 22);
    let end = start + inode_field(inode, 23);
    let at = blocks.partition_point(|b| (b.address as u64) < start);
    at < blocks.len() && u64::from(blocks[at].address) < end
}

// Pushes a file whose extent covers one of these blocks.
fn push_covering<D: Disk>(
    m: &mut Mount,
    d: &mut D,
    file: u32,
    blocks: &[MovedBlock],
    into: &mut Vec<u32>,
) -> Result<(), ViewRefusal>
    requires lies { (layout_in m.old).blocks ≤ (D.state d.old).size }
    ensures file { OnOk result ((image : Image) → (D.state d.old).told ≡ Some image → IsMountOf image m.old → IsStrictlyIncreasing (addresses_of blocks.now)
        → into.new.items ≡ into.old.items ++ covering_at image (addresses_of blocks.now) file) }
    ensures few { OnOk result (length into.new.items ≤ length into.old.items + 1) }
    ensures below { OnOk result ((limit : ℕ) → file < limit → All (λ n. n < limit) into.old.items → All (λ n. n < limit) into.new.items) }
    ensures mount { m.new ≡ m.old }
    ensures reads { Reads (D.state d.old) (D.state d.new) }
    ensures goes { Goes (D.state d.old) (D.state d.new) }
    ensures fault { IsErrOf result ViewRefusal.DiskFault → Rose (D.state d.old).faults (D.state d.new).faults }
{
    let mut inode = Block::zeros();
    if !m.node(d, file, &mut inode)? {
        return Ok(());
    }
    Ok(push_where(covers(&inode, blocks), file, into)?)
}

// Pushes the files whose extents cover some of these blocks.
fn push_all_covering<D: Disk>(
    m: &mut Mount,
    d: &mut D,
    files: &[u32],
    blocks: &[MovedBlock],
    into: &mut Vec<u32>,
) -> Result<(), ViewRefusal>
    requires lies { (layout_in m.old).blocks ≤ (D.state d.old).size }
    ensures files { OnOk result ((image : Image) → (D.state d.old).told ≡ Some image → IsMountOf image m.old → IsStrictlyIncreasing (addresses_of blocks.now)
        → into.new.items ≡ into.old.items ++ flat_map (covering_at image (addresses_of blocks.now)) files.now) }
    ensures few { OnOk result (length into.new.items ≤ length into.old.items + length files.now) }
    ensures below { OnOk result ((limit : ℕ) → All (λ n. n < limit) files.now → All (λ n. n < limit) into.old.items → All (λ n. n < limit) into.new.items) }
    ensures mount { m.new ≡ m.old }
    ensures reads { Reads (D.state d.old) (D.state d.new) }
    ensures goes { Goes (D.state d.old) (D.state d.new) }
    ensures fault { IsErrOf result ViewRefusal.DiskFault → Rose (D.state d.old).faults (D.state d.new).faults }
{
    for file in files {
        push_covering(m, d, *file, blocks, into)?;
    }
    Ok(())
}

/// Pushes the files of the nodes that hold the addresses of these blocks, which ascend, where their extents cover some of
/// the blocks.
pub(crate) fn push_coverings<D: Disk>(
    alloc: Global,
    m: &mut Mount,
    d: &mut D,
    blocks: &[MovedBlock],
    into: &mut Vec<u32>,
) -> Result<(), ViewRefusal>
    requires lies { (layout_in m.old).blocks ≤ (D.state d.old).size }
    ensures files { OnOk result ((image : Image) → (D.state d.old).told ≡ Some image → IsMountOf image m.old → IsStrictlyIncreasing (addresses_of blocks.now)
        → (n : ℕ) → is_among into.new.items n ≡ (is_among into.old.items n || is_among (flat_map (covering_at image (addresses_of blocks.now)) (flat_map (file_at image) (holders_of blocks.now))) n)) }
    ensures few { OnOk result (length into.new.items ≤ length into.old.items + length blocks.now) }
    ensures below { OnOk result (All (λ n. n < nid_limit (layout_in m.old)) into.old.items → All (λ n. n < nid_limit (layout_in m.old)) into.new.items) }
    ensures mount { m.new ≡ m.old }
    ensures reads { Reads (D.state d.old) (D.state d.new) }
    ensures goes { Goes (D.state d.old) (D.state d.new) }
    ensures fault { IsErrOf result ViewRefusal.DiskFault → Rose (D.state d.old).faults (D.state d.new).faults }
{
    let files = files_of(alloc, m, d, blocks)?;
    push_all_covering(m, d, &files, blocks, into)
}
