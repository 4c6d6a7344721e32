// Which blocks and nodes move when the blocks at some addresses of an image move.
ghost use Rattle.std.specs.Prelude.{◌≡◌, ◌≤◌, ◌<◌, ◌+◌, ◌*◌, ℕ, List, true, ◌∷◌, ◌++◌, length, map, flat_map, All, Some, IfOk, OnOk, IsErrOf, IsTrue};
ghost use Rattle.std.specs.List.Sorted.{IsStrictlyIncreasing};
ghost use Rattle.f2_bytes.specs.Bytes.{Image};
ghost use Rattle.f2_bytes.specs.Check.{is_checked, is_marked};
ghost use Rattle.f2_bytes.specs.Defragment.{placement, data_among, nodes_among};
ghost use Rattle.f2_bytes.specs.NodeAddressTable.{nid_limit};
ghost use Rattle.f2_bytes.specs.Superblock.{is_main, layout, segment_of, segment_start};
ghost use Rattle.f2_disk.specs.Disk.{Reads, Goes, Rose};
ghost use Rattle.f2_view.specs.Mounted.{layout_in, IsKept, IsMountOf};
ghost use Rattle.f2_gather.specs.Gathering.{Shows, AllMain, moved_block, data_at, node_at, addresses_of};

use crate::coverings::{push_coverings, push_within, put_in_order};
use crate::segments::{Segment, read_segment, turn_to};
use f2_bytes::Layout;
use f2_disk::Disk;
use f2_sum::summary;
use f2_view::{Mount, ViewRefusal};
use std::alloc::{AllocError, Global};

/// A block of a file that moves, as the summary at its address says.
#[derive(Clone, Copy)]
pub struct MovedBlock {
    /// Its block address.
    pub address: u32,
    /// The node that holds its address.
    pub nid: u32,
    /// The version of that node in its summary.
    pub version: u8,
    /// The place of the address in that node.
    pub place: u16,
}

/// What moves with the blocks at some addresses.
#[derive(Drop)]
pub struct Gathered {
    /// The blocks of files, by ascending address.
    pub data: Vec<MovedBlock>,
    /// The nids of the nodes, ascending, each once.
    pub nodes: Vec<u32>,
}

// Pushes the block at an address, if its segment is one of data.
fn push_data(
    segment: &Segment,
    k: usize,
    address: u32,
    into: &mut Vec<MovedBlock>,
) -> Result<(), AllocError>
    requires place { k < 512 }
    ensures data { OnOk result ((image : Image) → Shows image segment.now → segment.now.number ≡ segment_of (layout image) address
        → address ≡ segment_start (layout image) segment.now.number + k → into.new.items ≡ into.old.items ++ data_at image address) }
    ensures rises { OnOk result ((later : List ℕ) → IsStrictlyIncreasing (addresses_of into.old.items ++ address ∷ later) → IsStrictlyIncreasing (addresses_of into.new.items ++ later)) }
    ensures few { OnOk result (length into.new.items ≤ length into.old.items + 1) }
    ensures main { OnOk result ((l : Layout) → is_main l address ≡ true → AllMain l into.old.items → AllMain l into.new.items) }
{
    if segment.is_data {
        let s = summary(segment.summaries.bytes(), k);
        into.push(MovedBlock {
            address,
            nid: s.nid,
            version: s.version,
            place: s.ofs,
        })?;
    }
    Ok(())
}

// Pushes the node that the block at an address belongs to.
fn push_node(
    segment: &Segment,
    k: usize,
    address: u32,
    limit: u32,
    into: &mut Vec<u32>,
) -> Result<(), AllocError>
    requires place { k < 512 }
    ensures node { OnOk result ((image : Image) → Shows image segment.now → limit ≡ nid_limit (layout image)
        → address ≡ segment_start (layout image) segment.now.number + k → into.new.items ≡ into.old.items ++ node_at image address) }
    ensures few { OnOk result (length into.new.items ≤ length into.old.items + 1) }
    ensures below { OnOk result (All (λ n. n < limit) into.old.items → All (λ n. n < limit) into.new.items) }
{
    let s = summary(segment.summaries.bytes(), k);
    push_within(s.nid, limit, into)
}

// Adds what the block at an address of this segment is: data with the node that holds its address, or a node.
fn look_at(
    l: &Layout,
    limit: u32,
    segment: &Segment,
    address: u32,
    into: &mut Gathered,
) -> Result<(), AllocError>
    requires main { is_main l.now address ≡ true }
    requires segment { segment.now.number ≡ segment_of l.now address }
    ensures data { OnOk result ((image : Image) → l.now ≡ layout image → Shows image segment.now → into.new.data.items ≡ into.old.data.items ++ data_at image address) }
    ensures nodes { OnOk result ((image : Image) → l.now ≡ layout image → limit ≡ nid_limit l.now → Shows image segment.now
        → into.new.nodes.items ≡ into.old.nodes.items ++ node_at image address) }
    ensures rises { OnOk result ((later : List ℕ) → IsStrictlyIncreasing (addresses_of into.old.data.items ++ address ∷ later) → IsStrictlyIncreasing (addresses_of into.new.data.items ++ later)) }
    ensures few_data { OnOk result (length into.new.data.items ≤ length into.old.data.items + 1) }
    ensures few_nodes { OnOk result (length into.new.nodes.items ≤ length into.old.nodes.items + 1) }
    ensures main { OnOk result (AllMain l.now into.old.data.items → AllMain l.now into.new.data.items) }
    ensures below { OnOk result (All (λ n. n < limit) into.old.nodes.items → All (λ n. n < limit) into.new.nodes.items) }
{
    let k = ((address - l.main) % 512) as usize;
    push_data(segment, k, address, &mut into.data)?;
    push_node(segment, k, address, limit, &mut into.nodes)
}

// The main segment of an address.
fn segment_number(l: &Layout, address: u32) -> u32
    requires main { is_main l.now address ≡ true }
    ensures number { result ≡ segment_of l.now address }
    ensures low { result < l.now.segments }
{
    (address - l.main) / 512
}

// Adds what the blocks at these addresses are, segment by segment, beginning with the one at hand.
fn look_through<D: Disk>(
    m: &mut Mount,
    d: &mut D,
    addrs: &[u32],
    held: &mut Segment,
    into: &mut Gathered,
) -> Result<(), ViewRefusal>
    requires lies { (layout_in m.old).blocks ≤ (D.state d.old).size }
    requires main { All (λ a. is_main (layout_in m.old) a ≡ true) addrs.now }
    ensures data { OnOk result ((image : Image) → (D.state d.old).told ≡ Some image → IsMountOf image m.old → Shows image held.old
        → into.new.data.items ≡ into.old.data.items ++ flat_map (data_at image) addrs.now) }
    ensures nodes { OnOk result ((image : Image) → (D.state d.old).told ≡ Some image → IsMountOf image m.old → Shows image held.old
        → into.new.nodes.items ≡ into.old.nodes.items ++ flat_map (node_at image) addrs.now) }
    ensures rises { OnOk result (IsStrictlyIncreasing (addresses_of into.old.data.items ++ addrs.now) → IsStrictlyIncreasing (addresses_of into.new.data.items)) }
    ensures few_data { OnOk result (length into.new.data.items ≤ length into.old.data.items + length addrs.now) }
    ensures few_nodes { OnOk result (length into.new.nodes.items ≤ length into.old.nodes.items + length addrs.now) }
    ensures main { OnOk result (AllMain (layout_in m.old) into.old.data.items → AllMain (layout_in m.old) into.new.data.items) }
    ensures below { OnOk result (All (λ n. n < nid_limit (layout_in m.old)) into.old.nodes.items → All (λ n. n < nid_limit (layout_in m.old)) into.new.nodes.items) }
    ensures mount { m.new ≡ m.old }
    ensures reads { Reads (D.state d.old) (D.state d.new) }
    ensures goes { Goes (D.state d.old) (D.state d.new) }
    ensures fault { IsErrOf result ViewRefusal.DiskFault → Rose (D.state d.old).faults (D.state d.new).faults }
{
    let l = m.layout();
    let limit = m.nid_limit();
    for address in addrs {
        let number = segment_number(&l, *address);
        turn_to(m, d, number, held)?;
        look_at(&l, limit, held, *address, into)?;
    }
    Ok(())
}

// What the blocks at these addresses are: the data, and the nodes among them and those that hold the data's addresses, in
// the order of the addresses.
fn look_up<D: Disk>(
    alloc: Global,
    m: &mut Mount,
    d: &mut D,
    addrs: &[u32],
) -> Result<Gathered, ViewRefusal>
    requires lies { (layout_in m.old).blocks ≤ (D.state d.old).size }
    requires main { All (λ a. is_main (layout_in m.old) a ≡ true) addrs.now }
    ensures data { IfOk result (λ g. (image : Image) → (D.state d.old).told ≡ Some image → IsMountOf image m.old → g.data.items ≡ flat_map (data_at image) addrs.now) }
    ensures nodes { IfOk result (λ g. (image : Image) → (D.state d.old).told ≡ Some image → IsMountOf image m.old → g.nodes.items ≡ flat_map (node_at image) addrs.now) }
    ensures rises { IfOk result (λ g. IsStrictlyIncreasing addrs.now → IsStrictlyIncreasing (addresses_of g.data.items)) }
    ensures few_data { IfOk result (λ g. length g.data.items ≤ length addrs.now) }
    ensures few_nodes { IfOk result (λ g. length g.nodes.items ≤ length addrs.now) }
    ensures main { IfOk result (λ g. AllMain (layout_in m.old) g.data.items) }
    ensures below { IfOk result (λ g. All (λ n. n < nid_limit (layout_in m.old)) g.nodes.items) }
    ensures kept { IsKept m.old }
    ensures mount { m.new ≡ m.old }
    ensures reads { Reads (D.state d.old) (D.state d.new) }
    ensures goes { Goes (D.state d.old) (D.state d.new) }
    ensures fault { IsErrOf result ViewRefusal.DiskFault → Rose (D.state d.old).faults (D.state d.new).faults }
{
    let l = m.layout();
    let mut found = Gathered {
        data: Vec::new(alloc),
        nodes: Vec::new(alloc),
    };
    if addrs.is_empty() {
        return Ok(found);
    }
    let first = segment_number(&l, addrs[0]);
    let mut held = read_segment(m, d, first)?;
    look_through(m, d, addrs, &mut held, &mut found)?;
    Ok(found)
}

/// Which blocks and nodes move when the blocks at these addresses of a checked image move: at most 4096 addresses of valid main
/// blocks, ascending. Each block of a file is answered as its summary says, by ascending address; the nodes are those that
/// stand at one of the addresses, those that hold the address of such a block, and the inodes of regular files whose extents
/// cover one. It writes nothing, and fails where a read fails (`DiskFault`) or memory is short (`NoMemory`).
pub fn gather<D: Disk>(
    alloc: Global,
    m: &mut Mount,
    addrs: &[u32],
    d: &mut D,
) -> Result<Gathered, ViewRefusal>
    requires lies { (layout_in m.old).blocks ≤ (D.state d.old).size }
    requires few { length addrs.now ≤ 4096 }
    requires main { All (λ a. is_main (layout_in m.old) a ≡ true) addrs.now }
    requires ascending { IsStrictlyIncreasing addrs.now }
    requires checked { (image : Image) → (D.state d.old).told ≡ Some image → is_checked image ≡ true }
    requires of_image { (image : Image) → (D.state d.old).told ≡ Some image → IsMountOf image m.old }
    requires valid { (image : Image) → (D.state d.old).told ≡ Some image → All (λ a. IsTrue (is_marked image a)) addrs.now }
    ensures data { IfOk result (λ g. (image : Image) → (D.state d.old).told ≡ Some image
        → addresses_of g.data.items ≡ data_among (nid_limit (layout image)) (placement image) addrs.now) }
    ensures blocks { IfOk result (λ g. (image : Image) → (D.state d.old).told ≡ Some image → All (λ b. b ≡ moved_block image b.address) g.data.items) }
    ensures nodes { IfOk result (λ g. (image : Image) → (D.state d.old).told ≡ Some image
        → g.nodes.items ≡ nodes_among (nid_limit (layout image)) (placement image) addrs.now) }
    ensures rises { IfOk result (λ g. IsStrictlyIncreasing (addresses_of g.data.items)) }
    ensures few_data { IfOk result (λ g. length g.data.items ≤ length addrs.now) }
    ensures few_nodes { IfOk result (λ g. length g.nodes.items ≤ 2 * length addrs.now) }
    ensures main { IfOk result (λ g. AllMain (layout_in m.old) g.data.items) }
    ensures below { IfOk result (λ g. All (λ n. n < nid_limit (layout_in m.old)) g.nodes.items) }
    ensures mount { m.new ≡ m.old }
    ensures reads { Reads (D.state d.old) (D.state d.new) }
    ensures goes { Goes (D.state d.old) (D.state d.new) }
    ensures fault { IsErrOf result ViewRefusal.DiskFault → Rose (D.state d.old).faults (D.state d.new).faults }
{
    let Gathered { data, mut nodes } = look_up(alloc, m, d, addrs)?;
    push_coverings(alloc, m, d, &data, &mut nodes)?;
    put_in_order(&mut nodes);
    Ok(Gathered { data, nodes })
}
