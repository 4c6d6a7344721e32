// The least number of a node that is free.
ghost use Rattle.std.specs.Prelude.{◌≡◌, ◌≤◌, ◌<◌, ◌+◌, ◌*◌, ◌==◌, if◌then◌else◌, Some, IfOk, IsErrOf};
ghost use Rattle.f2_bytes.specs.Bytes.{Image};
ghost use Rattle.f2_bytes.specs.Journal.{nat_entry_at as entry_of_bytes};
ghost use Rattle.f2_disk.specs.Disk.{Reads, Goes, Rose};
ghost use Rattle.f2_tables.specs.Tables.{nat_in};
ghost use Rattle.f2_view.specs.Mounted.{layout_in, IsMountOf};
ghost use Rattle.f2_commit.specs.FreeNids.{IsFirstFree, least_free_nid as least_of};

use crate::ShiftRefusal;
use f2_disk::{Block, Disk};
use f2_sum::nat_entry_at;
use f2_tables::{Nat, TableRefusal};
use f2_view::Mount;
use std::alloc::Global;

// How many entries a block of the node address table has, and the least number that a new node gets.
const ENTRIES: u32 = 455;

const LEAST: u32 = 4;

// The first entry of a block from place `from` on that is no node's.
fn first_free(block: &Block, from: u32) -> Option<u32>
    ensures { IsFirstFree from 455 (λ j. entry_of_bytes block.now (9 * j)) result }
{
    let bytes = block.bytes();
    for j in from..ENTRIES {
        if nat_entry_at(bytes, 9 * j as usize).addr == 0 {
            return Some(j);
        }
    }
    None
}

// The place in block `k` of the first entry that a new node may get.
fn first_place(k: u32) -> u32
    ensures { result ≡ (if k == 0 then 4 else 0) }
{
    if k == 0 { LEAST } else { 0 }
}

// The first nid of block `k` of a table that a new node may get.
fn free_in_block<D: Disk>(nat: &mut Nat, d: &mut D, k: u32) -> Result<Option<u32>, TableRefusal>
    requires block { k < nat.old.layout.nat_half }
    requires lies { nat.old.layout.blocks ≤ (D.state d.old).size }
    ensures free { IfOk result (λ found. (image : Image) → (D.state d.old).told ≡ Some image → IsFirstFree (if k == 0 then 4 else 455 * k) (455 * (k + 1)) (nat_in nat.old image) found) }
    ensures table { nat.new ≡ nat.old }
    ensures reads { Reads (D.state d.old) (D.state d.new) }
    ensures goes { Goes (D.state d.old) (D.state d.new) }
    ensures fault { IsErrOf result TableRefusal.DiskFault → Rose (D.state d.old).faults (D.state d.new).faults }
{
    prove!(k < nat.limit() / ENTRIES);
    let block = nat.table_block(d, k)?;
    match first_free(&block, first_place(k)) {
        Some(j) => Ok(Some(ENTRIES * k + j)),
        None => Ok(None),
    }
}

// The least nid from 4 on that no node has, or 4.
pub(crate) fn least_free_nid<D: Disk>(
    alloc: Global,
    m: &Mount,
    d: &mut D,
) -> Result<u32, ShiftRefusal>
    requires lies { (layout_in m.now).blocks ≤ (D.state d.old).size }
    ensures least { IfOk result (λ nid. (image : Image) → (D.state d.old).told ≡ Some image → IsMountOf image m.now → nid ≡ least_of image) }
    ensures reads { Reads (D.state d.old) (D.state d.new) }
    ensures goes { Goes (D.state d.old) (D.state d.new) }
    ensures fault { IsErrOf result ShiftRefusal.DiskFault → Rose (D.state d.old).faults (D.state d.new).faults }
{
    let l = m.layout();
    let chosen = m.chosen();
    let mut nat = Nat::open(alloc, &l, chosen.nat_bits(), chosen.nat_journal())?;
    for k in 0..l.nat_half {
        let found = free_in_block(&mut nat, d, k)?;
        match found {
            Some(nid) => return Ok(nid),
            None => {}
        }
    }
    Ok(LEAST)
}
