// Preparing a checkpoint.
ghost use Rattle.std.specs.Prelude.{◌≡◌, ◌≤◌, ◌<◌, ◌+◌, ◌++◌, ◌^◌, true, All, map, length, unwrap_or, Some, IfOk, OnOk, IsErrOf, IsTrue, IsFalse};
ghost use Rattle.f2_bytes.specs.Bytes.{Image, IsBlock, block_at};
ghost use Rattle.f2_bytes.specs.Checkpoint.{checkpoint_ver, sit_bits, nat_bits};
ghost use Rattle.f2_bytes.specs.Journal.{FitsSitEntry};
ghost use Rattle.f2_bytes.specs.NodeAddressTable.{nid_limit, image_nat_entry};
ghost use Rattle.f2_bytes.specs.SegmentTable.{sit as sit_in_image};
ghost use Rattle.f2_bytes.specs.Superblock.{IsInOrder, is_main, segment_of};
ghost use Rattle.f2_bytes.specs.Support.{is_free, is_support};
ghost use Rattle.f2_disk.specs.Disk.{Reads, Goes, Rose};
ghost use Rattle.f2_sum.specs.Records.{sit_entry};
ghost use Rattle.f2_view.specs.Mounted.{layout_in, IsMountOf};
ghost use Rattle.f2_change.specs.Carried.{IsFor, Carries};
ghost use Rattle.f2_change.specs.Change.{given, nat_given, sit_given, log_at, stored_sums, TurnsBits, next_version, nat_turned, sit_turned, turned_below, nat_other_address, sit_other_address};
ghost use Rattle.f2_change.specs.NewPacks.{FollowsHead, IsNewPack, IsPackOf, version_after};
ghost use Rattle.f2_change.specs.TableBlocks.{IsNatBlock, IsSitBlock, AreEach};
ghost use Rattle.f2_change.specs.Writes.{IsPrepared, Follows, AvoidsSupport, committed};

use crate::given::{are_blocks, given};
use crate::heads::{next_head, turned_bits};
use crate::summaries::{log_sums, push_sums};
use crate::tables::{change_nat, change_sit, nat_blocks, sit_blocks};
use crate::{Change, PrepareRefusal, Ready};
use f2_bytes::{Layout, NoMemory};
use f2_disk::{Block, Disk};
use f2_node::footer;
use f2_pack::{Chosen, Log, NewPack};
use f2_sum::SitEntry;
use f2_tables::{Nat, NatEntry, Sit};
use f2_view::Mount;
use std::alloc::Global;

// The new version bitmap of a table, and its blocks that are written, with their addresses.
#[derive(Drop)]
struct NewTable {
    bits: Vec<u8>,
    blocks: Vec<(u32, Block)>,
}

// The node address table with these entries.
fn new_nat<D: Disk>(
    alloc: Global,
    m: &Mount,
    entries: &[(u32, NatEntry)],
    d: &mut D,
) -> Result<NewTable, PrepareRefusal>
    requires lies { (layout_in m.now).blocks ≤ (D.state d.old).size }
    requires nids { All (λ w. w.0 < nid_limit (layout_in m.now)) entries.now }
    ensures bits { IfOk result (λ t. TurnsBits (nat_bits m.now.chosen.head) t.bits.items (nat_turned (layout_in m.now) entries.now m.now.chosen.nat_journal)) }
    ensures addresses { IfOk result (λ t. map (λ w. w.0) t.blocks.items ≡ map (nat_other_address (layout_in m.now) (nat_bits m.now.chosen.head)) (turned_below (layout_in m.now).nat_half (nat_turned (layout_in m.now) entries.now m.now.chosen.nat_journal))) }
    ensures entries { IfOk result (λ t. (image : Image) → (D.state d.old).told ≡ Some image → IsMountOf image m.now
        → AreEach (IsNatBlock (λ nid. unwrap_or (nat_given entries.now nid) (image_nat_entry image nid))) (turned_below (layout_in m.now).nat_half (nat_turned (layout_in m.now) entries.now m.now.chosen.nat_journal)) t.blocks.items) }
    ensures reads { Reads (D.state d.old) (D.state d.new) }
    ensures goes { Goes (D.state d.old) (D.state d.new) }
    ensures fault { IsErrOf result PrepareRefusal.DiskFault → Rose (D.state d.old).faults (D.state d.new).faults }
{
    let l = m.layout();
    let chosen = m.chosen();
    let mut nat = Nat::open(alloc, &l, chosen.nat_bits(), chosen.nat_journal())?;
    change_nat(&mut nat, d, entries)?;
    let dirty = nat.dirty()?;
    let bits = turned_bits(alloc, chosen.nat_bits(), &dirty)?;
    let blocks = nat_blocks(alloc, &mut nat, d, &l, chosen.nat_bits(), &dirty)?;
    Ok(NewTable { bits, blocks })
}

// The segment table with these entries.
fn new_sit<D: Disk>(
    alloc: Global,
    m: &Mount,
    entries: &[(u32, SitEntry)],
    d: &mut D,
) -> Result<NewTable, PrepareRefusal>
    requires lies { (layout_in m.now).blocks ≤ (D.state d.old).size }
    requires segments { All (λ w. (w.0 < (layout_in m.now).segments) × FitsSitEntry (sit_entry w.1)) entries.now }
    ensures bits { IfOk result (λ t. TurnsBits (sit_bits m.now.chosen.head) t.bits.items (sit_turned (layout_in m.now) entries.now m.now.chosen.sit_journal)) }
    ensures addresses { IfOk result (λ t. map (λ w. w.0) t.blocks.items ≡ map (sit_other_address (layout_in m.now) (sit_bits m.now.chosen.head)) (turned_below (layout_in m.now).sit_half (sit_turned (layout_in m.now) entries.now m.now.chosen.sit_journal))) }
    ensures entries { IfOk result (λ t. (image : Image) → (D.state d.old).told ≡ Some image → IsMountOf image m.now
        → AreEach (IsSitBlock (layout_in m.now).segments (λ segment. unwrap_or (sit_given entries.now segment) (sit_in_image image segment))) (turned_below (layout_in m.now).sit_half (sit_turned (layout_in m.now) entries.now m.now.chosen.sit_journal)) t.blocks.items) }
    ensures reads { Reads (D.state d.old) (D.state d.new) }
    ensures goes { Goes (D.state d.old) (D.state d.new) }
    ensures fault { IsErrOf result PrepareRefusal.DiskFault → Rose (D.state d.old).faults (D.state d.new).faults }
{
    let l = m.layout();
    let chosen = m.chosen();
    let mut sit = Sit::open(alloc, &l, chosen.sit_bits(), chosen.sit_journal())?;
    change_sit(&mut sit, d, entries)?;
    let dirty = sit.dirty()?;
    let bits = turned_bits(alloc, chosen.sit_bits(), &dirty)?;
    let blocks = sit_blocks(alloc, &mut sit, d, &l, chosen.sit_bits(), &dirty)?;
    Ok(NewTable { bits, blocks })
}

// The block at an address of the main area once these blocks are written.
fn block_after<D: Disk>(
    d: &mut D,
    blocks: &[(u32, Block)],
    addr: u32,
) -> Result<Block, PrepareRefusal>
    requires lies { addr < (D.state d.old).size }
    ensures block { IfOk result (λ b. (image : Image) → (D.state d.old).told ≡ Some image → b ≡ unwrap_or (given blocks.now addr) (block_at image addr)) }
    ensures reads { Reads (D.state d.old) (D.state d.new) }
    ensures goes { Goes (D.state d.old) (D.state d.new) }
    ensures fault { IsErrOf result PrepareRefusal.DiskFault → Rose (D.state d.old).faults (D.state d.new).faults }
{
    if let Some(block) = given(blocks, addr) {
        return Ok(block);
    }
    let mut block = Block::zeros();
    d.read(u64::from(addr), &mut block)?;
    Ok(block)
}

// The next version, so that this block, which follows the log of warm nodes, is not taken for one that was written after it.
fn next_version(version: u64, next: &Block) -> u64
    requires { version < 2 ^ 63 }
    ensures value { result ≡ next_version version next.now }
    ensures later { version < result }
    ensures near { result ≤ version + 2 }
{
    if (version + 1) % 0x1_0000_0000 == footer(next).cp_ver % 0x1_0000_0000 {
        version + 2
    } else {
        version + 1
    }
}

// The head of the new pack, with these version bitmaps.
fn new_head<D: Disk>(
    m: &Mount,
    c: &Change,
    sit: &[u8],
    nat: &[u8],
    d: &mut D,
) -> Result<Block, PrepareRefusal>
    requires lies { (layout_in m.now).blocks ≤ (D.state d.old).size }
    requires version { checkpoint_ver m.now.chosen.head < 2 ^ 63 }
    requires logs { All (λ at. (at.segno < (layout_in m.now).segments) × (at.offset < 512)) c.now.logs }
    requires sit { TurnsBits (sit_bits m.now.chosen.head) sit.now (sit_turned (layout_in m.now) c.now.sit.items m.now.chosen.sit_journal) }
    requires nat { TurnsBits (nat_bits m.now.chosen.head) nat.now (nat_turned (layout_in m.now) c.now.nat.items m.now.chosen.nat_journal) }
    ensures six { length c.now.logs ≡ 6 }
    ensures head { IfOk result (FollowsHead m.now c.now) }
    ensures later { IfOk result (λ head. checkpoint_ver m.now.chosen.head < checkpoint_ver head) }
    ensures near { IfOk result (λ head. checkpoint_ver head ≤ checkpoint_ver m.now.chosen.head + 2) }
    ensures version { IfOk result (λ head. (image : Image) → (D.state d.old).told ≡ Some image → checkpoint_ver head ≡ version_after image m.now c.now) }
    ensures reads { Reads (D.state d.old) (D.state d.new) }
    ensures goes { Goes (D.state d.old) (D.state d.new) }
    ensures fault { IsErrOf result PrepareRefusal.DiskFault → Rose (D.state d.old).faults (D.state d.new).faults }
{
    let l = m.layout();
    let log = warm_nodes(&c.logs);
    let next = block_after(
        d,
        &c.blocks,
        l.main + 512 * log.segno + u32::from(log.offset),
    )?;
    let version = next_version(m.version(), &next);
    Ok(next_head(
        m.chosen().head().block(),
        version,
        &c.logs,
        &c.counts,
        sit,
        nat,
    ))
}

// The log of warm nodes.
fn warm_nodes(logs: &[Log; 6]) -> Log
    ensures log { result ≡ log_at logs.now 4 }
    ensures six { length logs.now ≡ 6 }
{
    let all: &[Log] = logs;
    prove!(all.len() == 6);
    logs[4]
}

// The pack that is written for a change, with these version bitmaps.
fn new_pack<D: Disk>(
    m: &mut Mount,
    c: &Change,
    sit: &[u8],
    nat: &[u8],
    d: &mut D,
) -> Result<NewPack, PrepareRefusal>
    requires lies { (layout_in m.old).blocks ≤ (D.state d.old).size }
    requires version { checkpoint_ver m.old.chosen.head < 2 ^ 63 }
    requires logs { All (λ at. (at.segno < (layout_in m.old).segments) × (at.offset < 512)) c.now.logs }
    requires sit { TurnsBits (sit_bits m.old.chosen.head) sit.now (sit_turned (layout_in m.old) c.now.sit.items m.old.chosen.sit_journal) }
    requires nat { TurnsBits (nat_bits m.old.chosen.head) nat.now (nat_turned (layout_in m.old) c.now.nat.items m.old.chosen.nat_journal) }
    ensures six { length c.now.logs ≡ 6 }
    ensures pack { IfOk result (IsNewPack m.old c.now) }
    ensures of_image { IfOk result (λ p. (image : Image) → (D.state d.old).told ≡ Some image → IsMountOf image m.old → IsPackOf image m.old c.now p) }
    ensures mount { m.new ≡ m.old }
    ensures reads { Reads (D.state d.old) (D.state d.new) }
    ensures goes { Goes (D.state d.old) (D.state d.new) }
    ensures fault { IsErrOf result PrepareRefusal.DiskFault → Rose (D.state d.old).faults (D.state d.new).faults }
{
    let pack = 1 - m.chosen().pack();
    let head = new_head(m, c, sit, nat, d)?;
    let sums = log_sums(m, d, &c.sums, &c.logs)?;
    Ok(NewPack { head, sums, pack })
}

// Appends the summary blocks and those of the two tables to the blocks of a change.
fn push_blocks(
    l: &Layout,
    logs: &[Log; 6],
    sums: &[(u32, Block)],
    sit: &[(u32, Block)],
    nat: &[(u32, Block)],
    into: &mut Vec<(u32, Block)>,
) -> Result<(), PrepareRefusal>
    requires order { IsInOrder l.now }
    requires segments { All (λ w. w.0 < l.now.segments) sums.now }
    ensures blocks { OnOk result (into.new.items ≡ into.old.items ++ stored_sums l.now logs.now sums.now ++ sit.now ++ nat.now) }
    ensures whole { OnOk result (All (λ w. IsBlock w.1) into.new.items) }
    ensures fault { IsErrOf result PrepareRefusal.DiskFault → ⊥ }
{
    push_sums(l, logs, sums, into)?;
    into.extend_from_slice(sit)?;
    into.extend_from_slice(nat)?;
    are_blocks(into);
    Ok(())
}

// What is ready with this pack and these blocks, once all that a mount keeps of it is made.
fn ready(
    alloc: Global,
    l: &Layout,
    pack: NewPack,
    blocks: Vec<(u32, Block)>,
    changed: Vec<(u32, SitEntry)>,
) -> Result<Ready, NoMemory>
    requires { IsPrepared (record { layout = l.now; pack = pack; blocks = blocks.items }) }
    ensures { IfOk result (λ r. r ≡ record { layout = l.now; pack = pack; blocks = blocks.items }) }
{
    let chosen = Chosen::of_pack(alloc, l, &pack)?;
    let nat = Nat::open(alloc, l, chosen.nat_bits(), chosen.nat_journal())?;
    let sit = Sit::open(alloc, l, chosen.sit_bits(), chosen.sit_journal())?;
    Ok(Ready {
        layout: *l,
        pack,
        blocks,
        chosen,
        nat,
        sit,
        changed,
    })
}

/// Prepares a checkpoint that carries a change. It reads and writes nothing.
///
/// The new pack is the other one, with empty journals: each block of a table that has a changed entry, or a record of a
/// journal, is to be written whole to its copy that is not in use. The mount stands as before, also after a refusal.
pub fn prepare<D: Disk>(
    alloc: Global,
    m: &mut Mount,
    c: Change,
    d: &mut D,
) -> Result<Ready, PrepareRefusal>
    requires lies { (layout_in m.old).blocks ≤ (D.state d.old).size }
    requires version { checkpoint_ver m.old.chosen.head < 2 ^ 63 }
    requires blocks { All (λ w. is_main (layout_in m.old) w.0 ≡ true) c.blocks.items }
    requires sums { All (λ w. w.0 < (layout_in m.old).segments) c.sums.items }
    requires nids { All (λ w. w.0 < nid_limit (layout_in m.old)) c.nat.items }
    requires segments { All (λ w. (w.0 < (layout_in m.old).segments) × FitsSitEntry (sit_entry w.1)) c.sit.items }
    requires logs { All (λ at. (at.segno < (layout_in m.old).segments) × (at.offset < 512)) c.logs }
    // Where the disk tells its blocks, the mount is of its image, whose support the change leaves alone.
    requires of_image { (image : Image) → (D.state d.old).told ≡ Some image → IsMountOf image m.old }
    requires free { (image : Image) → (D.state d.old).told ≡ Some image → All (λ w. IsTrue (is_free image (segment_of (layout_in m.old) w.0))) c.blocks.items }
    requires spare { (image : Image) → (D.state d.old).told ≡ Some image → All (λ w. IsFalse (is_support image ((layout_in m.old).ssa + w.0))) c.sums.items }
    ensures follows { IfOk result (Follows m.old) }
    ensures made { IfOk result (IsFor m.old c) }
    ensures near { IfOk result (λ r. checkpoint_ver r.pack.head ≤ checkpoint_ver m.old.chosen.head + 2) }
    ensures avoids { IfOk result (λ r. (image : Image) → (D.state d.old).told ≡ Some image → AvoidsSupport image r) }
    // What the image says once this is committed.
    ensures carries { IfOk result (λ r. (image : Image) → (D.state d.old).told ≡ Some image → Carries image c r.pack (committed r image)) }
    ensures mount { m.new ≡ m.old }
    ensures reads { Reads (D.state d.old) (D.state d.new) }
    ensures goes { Goes (D.state d.old) (D.state d.new) }
    ensures fault { IsErrOf result PrepareRefusal.DiskFault → Rose (D.state d.old).faults (D.state d.new).faults }
{
    let l = m.layout();
    let sit = new_sit(alloc, m, &c.sit, d)?;
    let nat = new_nat(alloc, m, &c.nat, d)?;
    let pack = new_pack(m, &c, &sit.bits, &nat.bits, d)?;
    let mut blocks = c.blocks;
    push_blocks(&l, &c.logs, &c.sums, &sit.blocks, &nat.blocks, &mut blocks)?;
    Ok(ready(alloc, &l, pack, blocks, c.sit)?)
}
