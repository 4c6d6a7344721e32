// The node address table.
ghost use Rattle.std.specs.Prelude.{◌≡◌, ◌≢◌, ℕ, ◌≤◌, ◌<◌, ◌+◌, ◌-◌, ◌*◌, ◌/◌, ◌++◌, length, map, option_map, unwrap_or, is_some, true, Some, Err, IfOk, IfSome, OnOk, OnErr, IsErrOf};
ghost use Rattle.std.specs.List.{range_with_len};
ghost use Rattle.f2_bytes.specs.Bytes.{Image, block_at, numbers_below};
ghost use Rattle.f2_bytes.specs.Journal.{nat_entry_at};
ghost use Rattle.f2_bytes.specs.NodeAddressTable.{nid_limit, nat_block_address, nat_entry_in, nat_journal_entry, next_live};
ghost use Rattle.f2_bytes.specs.Superblock.{IsInOrder};
ghost use Rattle.f2_disk.specs.Disk.{Reads, Goes, Rose};
ghost use Rattle.f2_sum.specs.Records.{nat_entry};
ghost use Rattle.f2_tables.specs.Tables.{value_at, nat_newer, IsNat, OpensNat, SetsNat, IsFirst, nat_over, nat_in, nat_dirty};

use crate::TableRefusal;
use crate::newer::Newer;
use crate::put::put_nat;
use f2_bytes::{Layout, NoMemory, bit_msb};
use f2_disk::{Block, Disk};
use f2_sum::{NatEntry, NatJournal, nat_entry_at};
use std::alloc::{AllocError, Global};
use std::marker::Model;

// How many entries a block has.
const ENTRIES: u32 = 455;

// The least number of a node.
const FIRST_NID: u32 = 3;

/// The node address table: for each node its inode and the block where it stands.
///
/// What was set goes before the first record of the journal, and that before the block of the table that is in use.
#[derive(Drop)]
pub struct Nat {
    layout: Layout,
    bits: Vec<u8>,
    newer: Newer<NatEntry>,
}

impl Model for Nat {
    ghost use Rattle.f2_tables.specs.Tables.{NatTable, IsNat};

    ghost Value = { NatTable };

    ghost view = { λ t. record { layout = t.layout; bits = t.bits.items; newer = t.newer } };

    ghost invariant = { λ t. IsNat (record { layout = t.layout; bits = t.bits.items; newer = t.newer }) };
}

impl Nat {
    /// The table in the areas of a layout, with these bits of its blocks and this journal. Nothing is set.
    pub fn open(alloc: Global, l: &Layout, bits: &[u8], j: &NatJournal) -> Result<Nat, NoMemory>
        requires order { IsInOrder l.now }
        requires bits { length bits.now ≡ l.now.nat_half / 8 }
        ensures { IfOk result (OpensNat l.now bits.now j.now) }
    {
        let bits = match bits.to_vec(alloc) {
            Ok(bits) => bits,
            Err(_) => return Err(NoMemory),
        };
        let newer = first_records(alloc, j)?;
        Ok(Nat {
            layout: *l,
            bits,
            newer,
        })
    }

    /// The number of nids: each is below it.
    pub fn limit(&self) -> u32
        ensures limit { result ≡ nid_limit self.now.layout }
        ensures known { IsNat self.now }
    {
        ENTRIES * self.layout.nat_half
    }

    // Reads block `k` of the copies in use.
    fn read<D: Disk>(&self, d: &mut D, k: u32) -> Result<Block, TableRefusal>
        requires block { k < self.now.layout.nat_half }
        requires lies { self.now.layout.blocks ≤ (D.state d.old).size }
        ensures block { IfOk result (λ b. (image : Image) → (D.state d.old).told ≡ Some image → b ≡ block_at image (nat_block_address self.now.layout self.now.bits k)) }
        ensures reads { Reads (D.state d.old) (D.state d.new) }
        ensures goes { Goes (D.state d.old) (D.state d.new) }
        ensures fault { IsErrOf result TableRefusal.DiskFault → Rose (D.state d.old).faults (D.state d.new).faults }
        ensures only { result ≢ Err TableRefusal.NoMemory }
    {
        let first = self.layout.nat + 2 * k - k % 512;
        let second = if bit_msb(&self.bits, k as usize) {
            512
        } else {
            0
        };
        let mut block = Block::zeros();
        d.read(u64::from(first + second), &mut block)?;
        Ok(block)
    }

    // The entry of a nid, whose block of the table is this one.
    fn entry(&self, block: &Block, nid: u32) -> NatEntry
        ensures { nat_entry result ≡ nat_over self.now block.now nid }
    {
        match self.newer.get(nid) {
            Some(entry) => entry,
            None => nat_entry_at(block.bytes(), 9 * (nid % ENTRIES) as usize),
        }
    }

    /// The entry of a nid below the limit, whether it is that of a node or not.
    pub fn get<D: Disk>(&mut self, d: &mut D, nid: u32) -> Result<NatEntry, TableRefusal>
        requires nid { nid < nid_limit self.old.layout }
        requires lies { self.old.layout.blocks ≤ (D.state d.old).size }
        ensures entry { IfOk result (λ e. (image : Image) → (D.state d.old).told ≡ Some image → nat_entry e ≡ nat_in self.old image nid) }
        // What was set or stands in the journal needs no disk.
        ensures newer { is_some (nat_newer self.old nid) ≡ true → IfOk result (λ e. nat_newer self.old nid ≡ Some (nat_entry e)) }
        ensures table { self.new ≡ self.old }
        ensures reads { Reads (D.state d.old) (D.state d.new) }
        ensures goes { Goes (D.state d.old) (D.state d.new) }
        ensures fault { IsErrOf result TableRefusal.DiskFault → Rose (D.state d.old).faults (D.state d.new).faults }
    {
        if let Some(entry) = self.newer.get(nid) {
            return Ok(entry);
        }
        let block = self.read(d, nid / ENTRIES)?;
        Ok(self.entry(&block, nid))
    }

    // Appends the entries of the nids from one on and below another, all of this block.
    fn push_entries(
        &self,
        block: &Block,
        from: u32,
        to: u32,
        into: &mut Vec<NatEntry>,
    ) -> Result<(), AllocError>
        requires { from ≤ to }
        ensures entries { OnOk result (map nat_entry into.new.items ≡ map nat_entry into.old.items ++ map (nat_over self.now block.now) (range_with_len from (to - from))) }
        ensures length { OnOk result (length into.new.items ≡ length into.old.items + (to - from)) }
    {
        for nid in from..to {
            into.push(self.entry(block, nid))?;
        }
        Ok(())
    }

    /// The entries of all nids in ascending order, whether they are those of nodes or not. Each block of the table is read
    /// once.
    pub fn entries<D: Disk>(
        &mut self,
        alloc: Global,
        d: &mut D,
    ) -> Result<Vec<NatEntry>, TableRefusal>
        requires lies { self.old.layout.blocks ≤ (D.state d.old).size }
        ensures entries { IfOk result (λ entries. (image : Image) → (D.state d.old).told ≡ Some image → map nat_entry entries.items ≡ map (nat_in self.old image) (numbers_below (nid_limit self.old.layout))) }
        ensures length { IfOk result (λ entries. length entries.items ≡ nid_limit self.old.layout) }
        ensures table { self.new ≡ self.old }
        ensures reads { Reads (D.state d.old) (D.state d.new) }
        ensures goes { Goes (D.state d.old) (D.state d.new) }
        ensures fault { IsErrOf result TableRefusal.DiskFault → Rose (D.state d.old).faults (D.state d.new).faults }
    {
        let mut entries = Vec::with_capacity(alloc, self.limit() as usize)?;
        for k in 0..self.layout.nat_half {
            let block = self.read(d, k)?;
            self.push_entries(&block, ENTRIES * k, ENTRIES * (k + 1), &mut entries)?;
        }
        Ok(entries)
    }

    // The least nid from one on and below another, all of this block, that has an address.
    fn first_live(&self, block: &Block, from: u32, to: u32) -> Option<u32>
        ensures { IsFirst from to (nat_over self.now block.now) result }
    {
        for nid in from..to {
            if self.entry(block, nid).addr != 0 {
                return Some(nid);
            }
        }
        None
    }

    /// The least nid of a node from `from` on, if there is one. Each block of the table is read once at most.
    pub fn live<D: Disk>(&mut self, d: &mut D, from: u32) -> Result<Option<u32>, TableRefusal>
        requires lies { self.old.layout.blocks ≤ (D.state d.old).size }
        ensures next { IfOk result (λ next. (image : Image) → (D.state d.old).told ≡ Some image → next ≡ next_live self.old.layout (nat_in self.old image) from) }
        ensures within { IfOk result (λ next. IfSome next (λ nid. (from ≤ nid) × (nid < nid_limit self.old.layout))) }
        ensures table { self.new ≡ self.old }
        ensures reads { Reads (D.state d.old) (D.state d.new) }
        ensures goes { Goes (D.state d.old) (D.state d.new) }
        ensures fault { IsErrOf result TableRefusal.DiskFault → Rose (D.state d.old).faults (D.state d.new).faults }
    {
        let from = from.max(FIRST_NID);
        for k in from / ENTRIES..self.layout.nat_half {
            let block = self.read(d, k)?;
            let first = from.max(ENTRIES * k);
            if let Some(nid) = self.first_live(&block, first, ENTRIES * (k + 1)) {
                return Ok(Some(nid));
            }
        }
        Ok(None)
    }

    // The entries of all nids of block `k`, which was read as this block, in a block of their own.
    fn put_entries(&self, block: &Block, k: u32) -> Block
        requires block { k < self.now.layout.nat_half }
        ensures { (j : ℕ) → j < 455 → nat_entry_at result (9 * j) ≡ nat_over self.now block.now (455 * k + j) }
    {
        let mut whole = Block::zeros();
        prove!(k < self.layout.nat_half);
        for j in 0..ENTRIES {
            put_nat(&mut whole, j as usize, self.entry(block, ENTRIES * k + j));
        }
        whole
    }

    /// Block `k` of the table, counted from 0, with the entries of now. The block of the table is read once.
    pub fn table_block<D: Disk>(&mut self, d: &mut D, k: u32) -> Result<Block, TableRefusal>
        requires block { k < self.old.layout.nat_half }
        requires lies { self.old.layout.blocks ≤ (D.state d.old).size }
        ensures entries { IfOk result (λ b. (image : Image) → (D.state d.old).told ≡ Some image → (j : ℕ) → j < 455 → nat_entry_at b (9 * j) ≡ nat_in self.old image (455 * k + j)) }
        ensures table { self.new ≡ self.old }
        ensures reads { Reads (D.state d.old) (D.state d.new) }
        ensures goes { Goes (D.state d.old) (D.state d.new) }
        ensures fault { IsErrOf result TableRefusal.DiskFault → Rose (D.state d.old).faults (D.state d.new).faults }
    {
        let block = self.read(d, k)?;
        Ok(self.put_entries(&block, k))
    }

    /// The numbers of the table's blocks that have an entry which stands in the journal or was set, in ascending order.
    pub fn dirty(&self) -> Result<Vec<u32>, NoMemory>
        ensures { IfOk result (λ blocks. blocks.items ≡ nat_dirty self.now) }
    {
        self.newer
            .blocks(self.layout.nat_half, ENTRIES, self.limit())
    }

    /// Gives a nid below the limit this entry. The disk is not asked.
    pub fn set<D: Disk>(&mut self, d: &mut D, nid: u32, e: NatEntry) -> Result<(), TableRefusal>
        requires nid { nid < nid_limit self.old.layout }
        ensures done { OnOk result (SetsNat nid (nat_entry e) self.old self.new) }
        ensures err { OnErr result (self.new ≡ self.old) }
        ensures disk { d.new ≡ d.old }
        ensures fault { IsErrOf result TableRefusal.DiskFault → ⊥ }
    {
        match self.newer.set(nid, e) {
            Ok(()) => Ok(()),
            Err(_) => Err(TableRefusal::NoMemory),
        }
    }
}

// The entries of the first record of each nid.
fn first_records(alloc: Global, j: &NatJournal) -> Result<Newer<NatEntry>, NoMemory>
    ensures { IfOk result (λ newer. (n : ℕ) → option_map nat_entry (value_at newer n) ≡ nat_journal_entry j.now n) }
{
    let mut newer = Newer::new(alloc);
    for k in 0..j.len() {
        let record = j.get(k);
        let entry = NatEntry {
            version: record.version,
            ino: record.ino,
            addr: record.addr,
        };
        newer.set_first(record.nid, entry)?;
    }
    Ok(newer)
}
