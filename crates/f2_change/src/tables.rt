// The blocks of the two tables that a change is written to.
ghost use Rattle.std.specs.Prelude.{◌≡◌, ◌≤◌, ◌<◌, ◌/◌, ℕ, All, length, map, Some, IfOk, OnOk, IsErrOf};
ghost use Rattle.f2_bytes.specs.Bytes.{Image};
ghost use Rattle.f2_bytes.specs.Journal.{FitsSitEntry};
ghost use Rattle.f2_bytes.specs.NodeAddressTable.{nid_limit};
ghost use Rattle.f2_bytes.specs.Superblock.{IsInOrder};
ghost use Rattle.f2_disk.specs.Disk.{Reads, Goes, Rose};
ghost use Rattle.f2_sum.specs.Records.{sit_entry};
ghost use Rattle.f2_tables.specs.Tables.{nat_in, sit_in};
ghost use Rattle.f2_change.specs.Change.{nat_other_address, sit_other_address};
ghost use Rattle.f2_change.specs.TableBlocks.{ChangesNat, ChangesSit, IsNatBlock, IsSitBlock, AreEach};

use crate::PrepareRefusal;
use f2_bytes::{Layout, bit_msb};
use f2_disk::{Block, Disk};
use f2_sum::SitEntry;
use f2_tables::{Nat, NatEntry, Sit};
use std::alloc::Global;

// Gives these nodes their entries.
pub(crate) fn change_nat<D: Disk>(
    nat: &mut Nat,
    d: &mut D,
    entries: &[(u32, NatEntry)],
) -> Result<(), PrepareRefusal>
    requires nids { All (λ w. w.0 < nid_limit nat.old.layout) entries.now }
    ensures done { OnOk result (ChangesNat entries.now nat.old nat.new) }
    ensures disk { d.new ≡ d.old }
    ensures fault { IsErrOf result PrepareRefusal.DiskFault → ⊥ }
{
    for w in entries {
        nat.set(d, w.0, w.1)?;
    }
    Ok(())
}

// Gives these segments their entries.
pub(crate) fn change_sit<D: Disk>(
    sit: &mut Sit,
    d: &mut D,
    entries: &[(u32, SitEntry)],
) -> Result<(), PrepareRefusal>
    requires segments { All (λ w. (w.0 < sit.old.layout.segments) × FitsSitEntry (sit_entry w.1)) entries.now }
    ensures done { OnOk result (ChangesSit entries.now sit.old sit.new) }
    ensures disk { d.new ≡ d.old }
    ensures fault { IsErrOf result PrepareRefusal.DiskFault → ⊥ }
{
    for w in entries {
        sit.set(d, w.0, w.1)?;
    }
    Ok(())
}

// Where block `k` of the node address table has its copy that is not in use.
fn nat_other(l: &Layout, bits: &[u8], k: u32) -> u32
    requires order { IsInOrder l.now }
    requires block { k < l.now.nat_half }
    requires bits { length bits.now ≡ l.now.nat_half / 8 }
    ensures { result ≡ nat_other_address l.now bits.now k }
{
    let first = l.nat + 2 * k - k % 512;
    if bit_msb(bits, k as usize) {
        first
    } else {
        first + 512
    }
}

// Where block `k` of the segment table has its copy that is not in use.
fn sit_other(l: &Layout, bits: &[u8], k: u32) -> u32
    requires order { IsInOrder l.now }
    requires block { k < l.now.sit_half }
    requires bits { length bits.now ≡ l.now.sit_half / 8 }
    ensures { result ≡ sit_other_address l.now bits.now k }
{
    let first = l.sit + k;
    if bit_msb(bits, k as usize) {
        first
    } else {
        first + l.sit_half
    }
}

// These blocks of the node address table with all entries of now, each with the address of its copy that is not in use.
pub(crate) fn nat_blocks<D: Disk>(
    alloc: Global,
    nat: &mut Nat,
    d: &mut D,
    l: &Layout,
    bits: &[u8],
    blocks: &[u32],
) -> Result<Vec<(u32, Block)>, PrepareRefusal>
    requires layout { nat.old.layout ≡ l.now }
    requires order { IsInOrder l.now }
    requires blocks { All (λ k. k < l.now.nat_half) blocks.now }
    requires bits { length bits.now ≡ l.now.nat_half / 8 }
    requires lies { l.now.blocks ≤ (D.state d.old).size }
    ensures addresses { IfOk result (λ v. map (λ w. w.0) v.items ≡ map (nat_other_address l.now bits.now) blocks.now) }
    ensures entries { IfOk result (λ v. (image : Image) → (D.state d.old).told ≡ Some image → AreEach (IsNatBlock (nat_in nat.old image)) blocks.now v.items) }
    ensures reads { Reads (D.state d.old) (D.state d.new) }
    ensures goes { Goes (D.state d.old) (D.state d.new) }
    ensures fault { IsErrOf result PrepareRefusal.DiskFault → Rose (D.state d.old).faults (D.state d.new).faults }
{
    let mut written = Vec::new(alloc);
    for k in blocks {
        let block = nat.table_block(d, *k)?;
        written.push((nat_other(l, bits, *k), block))?;
    }
    Ok(written)
}

// These blocks of the segment table with all entries of now, each with the address of its copy that is not in use.
pub(crate) fn sit_blocks<D: Disk>(
    alloc: Global,
    sit: &mut Sit,
    d: &mut D,
    l: &Layout,
    bits: &[u8],
    blocks: &[u32],
) -> Result<Vec<(u32, Block)>, PrepareRefusal>
    requires layout { sit.old.layout ≡ l.now }
    requires order { IsInOrder l.now }
    requires blocks { All (λ k. k < l.now.sit_half) blocks.now }
    requires bits { length bits.now ≡ l.now.sit_half / 8 }
    requires lies { l.now.blocks ≤ (D.state d.old).size }
    ensures addresses { IfOk result (λ v. map (λ w. w.0) v.items ≡ map (sit_other_address l.now bits.now) blocks.now) }
    ensures entries { IfOk result (λ v. (image : Image) → (D.state d.old).told ≡ Some image → AreEach (IsSitBlock l.now.segments (sit_in sit.old image)) blocks.now v.items) }
    ensures reads { Reads (D.state d.old) (D.state d.new) }
    ensures goes { Goes (D.state d.old) (D.state d.new) }
    ensures fault { IsErrOf result PrepareRefusal.DiskFault → Rose (D.state d.old).faults (D.state d.new).faults }
{
    let mut written = Vec::new(alloc);
    for k in blocks {
        let block = sit.table_block(d, *k)?;
        written.push((sit_other(l, bits, *k), block))?;
    }
    Ok(written)
}
