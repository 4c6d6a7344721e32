// Reading what is kept of a pack.
ghost use Rattle.std.specs.Prelude.{◌≡◌, ◌≤◌, ◌<◌, ◌+◌, ◌-◌, ◌*◌, ◌^◌, ◌++◌, [], if◌then◌else◌, ℕ, Some, true, Ok, IfOk, IfErr, OnOk, IsErrOf, length, map, flat_map};
ghost use Rattle.std.specs.List.{range_with_len};
ghost use Rattle.f2_bytes.specs.Bytes.{Image, IsBlock, block_at, bytes_at};
ghost use Rattle.f2_bytes.specs.Checkpoint.{data_summary_blocks, pack_start_sum, orphans_in, has_orphans};
ghost use Rattle.f2_disk.specs.Disk.{State, Reads, Goes, Rose};
ghost use Rattle.f2_pack.specs.Held.{nat_area_in, sit_area_in};
ghost use Rattle.f2_pack.specs.Choice.{OnlyFails, journals_in};

use crate::{Checkpoint, PackRefusal};
use f2_bytes::u32_at;
use f2_disk::{Block, Disk};
use f2_sum::{NatJournal, SitJournal};
use std::alloc::{AllocError, Global};

// So many blocks of a pack that begins at block `pack` of the disk, from its block `start` on.
pub(crate) fn read_blocks<D: Disk>(
    alloc: Global,
    d: &mut D,
    pack: u64,
    start: u64,
    count: u64,
) -> Result<Vec<Block>, PackRefusal>
    requires inside { pack + start + count ≤ (D.state d.old).size }
    requires few { pack + start + count ≤ 2 ^ 28 }
    ensures blocks { IfOk result (λ v. (image : Image) → (D.state d.old).told ≡ Some image → v.items ≡ map (λ j. block_at image (pack + j)) (range_with_len start count)) }
    ensures count { IfOk result (λ v. length v.items ≡ count) }
    ensures reads { Reads (D.state d.old) (D.state d.new) }
    ensures goes { Goes (D.state d.old) (D.state d.new) }
    ensures fault { IsErrOf result PackRefusal.DiskFault → Rose (D.state d.old).faults (D.state d.new).faults }
    ensures only { IfErr result OnlyFails }
{
    let mut blocks = Vec::new(alloc);
    for k in 0..count {
        let mut block = Block::zeros();
        d.read(pack + start + k, &mut block)?;
        blocks.push(block)?;
    }
    Ok(blocks)
}

// The journal area of 507 bytes in a block, from byte `at` on.
fn area(b: &Block, at: usize) -> [u8; 507]
    requires { at + 507 ≤ 4096 }
    ensures { result ≡ bytes_at b.now at 507 }
{
    let mut area = [0; 507];
    area.copy_from_slice(&b.bytes()[at..at + 507]);
    area
}

// The journals in these areas.
fn read_journals(nat: &[u8; 507], sit: &[u8; 507]) -> Result<(NatJournal, SitJournal), PackRefusal>
    ensures { result ≡ journals_in nat.now sit.now }
{
    let nat = match NatJournal::read(nat) {
        Ok(journal) => journal,
        Err(bad) => return Err(PackRefusal::BadSummary(u32::from(bad.0))),
    };
    match SitJournal::read(sit) {
        Ok(sit) => Ok((nat, sit)),
        Err(bad) => Err(PackRefusal::BadSummary(u32::from(bad.0))),
    }
}

// The journals in the summary blocks of the data logs.
pub(crate) fn journals(
    head: &Checkpoint,
    summaries: &[Block],
) -> Result<(NatJournal, SitJournal), PackRefusal>
    requires { length summaries.now ≡ data_summary_blocks head.now }
    ensures { result ≡ journals_in (nat_area_in head.now summaries.now) (sit_area_in head.now summaries.now) }
{
    if head.is_compact() {
        read_journals(&area(&summaries[0], 0), &area(&summaries[0], 507))
    } else {
        read_journals(&area(&summaries[0], 3584), &area(&summaries[2], 3584))
    }
}

// Puts the inode numbers of an orphan block behind the others.
fn push_orphans(orphans: &mut Vec<u32>, b: &Block) -> Result<(), AllocError>
    ensures { OnOk result (orphans.new.items ≡ orphans.old.items ++ orphans_in b.now) }
{
    let bytes = b.bytes();
    let count = u32_at(bytes, 4088).min(1020) as usize;
    for k in 0..count {
        orphans.push(u32_at(bytes, 4 * k))?;
    }
    Ok(())
}

// The inode numbers in the orphan blocks of a pack with this head that begins at block `pack` of the disk.
pub(crate) fn read_orphans<D: Disk>(
    alloc: Global,
    d: &mut D,
    pack: u64,
    head: &Checkpoint,
) -> Result<Vec<u32>, PackRefusal>
    requires first { 1 ≤ pack_start_sum head.now }
    requires inside { pack + pack_start_sum head.now ≤ (D.state d.old).size }
    requires few { pack + pack_start_sum head.now ≤ 2 ^ 28 }
    ensures orphans { IfOk result (λ v. (image : Image) → (D.state d.old).told ≡ Some image → v.items ≡ (if has_orphans head.now then flat_map (λ j. orphans_in (block_at image (pack + j))) (range_with_len 1 (pack_start_sum head.now - 1)) else [])) }
    ensures reads { Reads (D.state d.old) (D.state d.new) }
    ensures goes { Goes (D.state d.old) (D.state d.new) }
    ensures fault { IsErrOf result PackRefusal.DiskFault → Rose (D.state d.old).faults (D.state d.new).faults }
    ensures only { IfErr result OnlyFails }
{
    let mut orphans = Vec::new(alloc);
    if !head.has_orphans() {
        return Ok(orphans);
    }
    for j in 1..head.field(40) {
        let mut block = Block::zeros();
        d.read(pack + j, &mut block)?;
        push_orphans(&mut orphans, &block)?;
    }
    Ok(orphans)
}
