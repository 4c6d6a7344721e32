// Which nodes of a chain count.
ghost use Rattle.std.specs.Prelude.{◌≡◌, ◌||◌, ℕ, length, if◌then◌else◌, Some, IfOk, OnOk};
ghost use Rattle.std.specs.BTreeMap.{get};
ghost use Rattle.std.specs.BTreeSet.{contains};
ghost use Rattle.std.specs.Ordering.{nat_cmp};
ghost use Rattle.f2_bytes.specs.Bytes.{Image};
ghost use Rattle.f2_bytes.specs.RollForward.{chain_length};
ghost use Rattle.f2_free.specs.ChainNodes.{nodes_read, counts_of, is_marked_by, ends_by, ends_later, HasEnds};

use crate::chain_reading::ChainNode;
use std::alloc::{AllocError, Global};
use std::collections::{BTreeMap, BTreeSet};

// Takes the next node for the set of the files whose inode came with both marks.
fn take_inode(marked: &mut BTreeSet<u32>, node: ChainNode) -> Result<(), AllocError>
    ensures { OnOk result ((ino : ℕ) → contains nat_cmp marked.new ino ≡ (contains nat_cmp marked.old ino || is_marked_by node ino)) }
{
    if node.nid == node.ino && node.is_inode && node.fsync && node.dentry {
        marked.insert(node.ino)?;
    }
    Ok(())
}

// Takes the node at place `n` for the last place at which an fsync of each file ends.
fn take_end(
    ends: &mut BTreeMap<u32, usize>,
    marked: &BTreeSet<u32>,
    node: ChainNode,
    n: usize,
) -> Result<(), AllocError>
    ensures { OnOk result ((ino : ℕ) → get nat_cmp ends.new ino ≡ (if ends_by marked.now node ino then Some n else get nat_cmp ends.old ino)) }
{
    if node.fsync && (node.listed || marked.contains(&node.ino)) {
        ends.insert(node.ino, n)?;
    }
    Ok(())
}

// For each file the last place at which an fsync of it ends.
fn last_ends(alloc: Global, nodes: &[ChainNode]) -> Result<BTreeMap<u32, usize>, AllocError>
    ensures { IfOk result (λ ends. (image : Image) → nodes.now ≡ nodes_read image → HasEnds image (chain_length image) ends) }
{
    let mut marked = BTreeSet::new(alloc);
    let mut ends = BTreeMap::new(alloc);
    for n in 0..nodes.len() {
        take_inode(&mut marked, nodes[n])?;
        take_end(&mut ends, &marked, nodes[n], n)?;
    }
    Ok(ends)
}

// Whether an fsync of the file of the node at place `n` ends there or later.
fn ends_there(ends: &BTreeMap<u32, usize>, ino: u32, n: usize) -> bool
    ensures { result ≡ ends_later ends.now ino n }
{
    match ends.get(&ino) {
        Some(end) => n <= *end,
        None => false,
    }
}

/// For each node of a chain, in order, whether it counts: whether an fsync of its file ends there or later. An fsync ends at
/// a node that it wrote, where the node address table has the node's file, or where the file's inode came by then and has
/// both marks. It reads nothing of the disk, and fails for want of memory alone.
pub fn counting(alloc: Global, nodes: &[ChainNode]) -> Result<Vec<bool>, AllocError>
    ensures counts { IfOk result (λ counts. (image : Image) → nodes.now ≡ nodes_read image → counts.items ≡ counts_of image) }
    ensures length { IfOk result (λ counts. length counts.items ≡ length nodes.now) }
{
    let ends = last_ends(alloc, nodes)?;
    let mut counts = Vec::new(alloc);
    for n in 0..nodes.len() {
        counts.push(ends_there(&ends, nodes[n].ino, n))?;
    }
    Ok(counts)
}
