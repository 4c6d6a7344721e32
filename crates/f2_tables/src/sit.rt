// The segment table.
ghost use Rattle.std.specs.Prelude.{◌≡◌, ◌≢◌, ◌≤◌, ◌<◌, ◌+◌, ◌-◌, ◌*◌, ◌/◌, ◌++◌, ℕ, length, map, All, option_map, is_some, true, Some, Err, IfOk, OnOk, OnErr, IsErrOf};
ghost use Rattle.std.specs.List.{range_with_len};
ghost use Rattle.f2_bytes.specs.Bytes.{Image, block_at, numbers_below};
ghost use Rattle.f2_bytes.specs.Journal.{SitEntry as FormatSitEntry, FitsSitEntry, sit_entry_at};
ghost use Rattle.f2_bytes.specs.SegmentTable.{sit_block_address, sit_journal_entry};
ghost use Rattle.f2_bytes.specs.Superblock.{IsInOrder};
ghost use Rattle.f2_disk.specs.Disk.{Reads, Goes, Rose};
ghost use Rattle.f2_sum.specs.Records.{sit_entry};
ghost use Rattle.f2_tables.specs.Tables.{value_at, sit_newer, IsSit, OpensSit, SetsSit, sit_over, sit_in, sit_dirty};

use crate::TableRefusal;
use crate::newer::Newer;
use crate::put::put_sit;
use f2_bytes::{Layout, NoMemory, bit_msb};
use f2_disk::{Block, Disk};
use f2_sum::{SitEntry, SitJournal, sit_entry_at};
use std::alloc::{AllocError, Global};
use std::marker::Model;

// How many entries a block has.
const ENTRIES: u32 = 55;

/// The segment table: for each main segment the type of its blocks, and which of them are valid.
///
/// What was set goes before the first record of the journal, and that before the block of the table that is in use.
#[derive(Drop)]
pub struct Sit {
    layout: Layout,
    bits: Vec<u8>,
    newer: Newer<SitEntry>,
}

impl Model for Sit {
    ghost use Rattle.f2_tables.specs.Tables.{SitTable, IsSit};

    ghost Value = { SitTable };

    ghost view = { λ t. record { layout = t.layout; bits = t.bits.items; newer = t.newer } };

    ghost invariant = { λ t. IsSit (record { layout = t.layout; bits = t.bits.items; newer = t.newer }) };
}

// The entries of the first record of each segment.
fn first_records(alloc: Global, j: &SitJournal) -> Result<Newer<SitEntry>, NoMemory>
    ensures records { IfOk result (λ newer. (n : ℕ) → option_map sit_entry (value_at newer n) ≡ sit_journal_entry j.now n) }
    ensures fits { IfOk result (λ newer. (n : ℕ) (e : FormatSitEntry) → option_map sit_entry (value_at newer n) ≡ Some e → FitsSitEntry e) }
{
    let mut newer = Newer::new(alloc);
    for k in 0..j.len() {
        let record = j.get(k);
        newer.set_first(record.segno, record.entry)?;
    }
    Ok(newer)
}

impl Sit {
    /// The table in the areas of a layout, with these bits of its blocks and this journal. Nothing is set.
    pub fn open(alloc: Global, l: &Layout, bits: &[u8], j: &SitJournal) -> Result<Sit, NoMemory>
        requires order { IsInOrder l.now }
        requires bits { length bits.now ≡ l.now.sit_half / 8 }
        ensures { IfOk result (OpensSit l.now bits.now j.now) }
    {
        let bits = match bits.to_vec(alloc) {
            Ok(bits) => bits,
            Err(_) => return Err(NoMemory),
        };
        let newer = first_records(alloc, j)?;
        Ok(Sit {
            layout: *l,
            bits,
            newer,
        })
    }

    // Reads block `k` of the copies in use.
    fn read<D: Disk>(&self, d: &mut D, k: u32) -> Result<Block, TableRefusal>
        requires block { k < self.now.layout.sit_half }
        requires lies { self.now.layout.blocks ≤ (D.state d.old).size }
        ensures block { IfOk result (λ b. (image : Image) → (D.state d.old).told ≡ Some image → b ≡ block_at image (sit_block_address self.now.layout self.now.bits k)) }
        ensures reads { Reads (D.state d.old) (D.state d.new) }
        ensures goes { Goes (D.state d.old) (D.state d.new) }
        ensures fault { IsErrOf result TableRefusal.DiskFault → Rose (D.state d.old).faults (D.state d.new).faults }
        ensures only { result ≢ Err TableRefusal.NoMemory }
    {
        let first = self.layout.sit + k;
        let second = if bit_msb(&self.bits, k as usize) {
            self.layout.sit_half
        } else {
            0
        };
        let mut block = Block::zeros();
        d.read(u64::from(first + second), &mut block)?;
        Ok(block)
    }

    // The entry of a segment, whose block of the table is this one.
    fn entry(&self, block: &Block, segno: u32) -> SitEntry
        ensures entry { sit_entry result ≡ sit_over self.now block.now segno }
        ensures fits { FitsSitEntry (sit_entry result) }
    {
        match self.newer.get(segno) {
            Some(entry) => entry,
            None => sit_entry_at(block.bytes(), 74 * (segno % ENTRIES) as usize),
        }
    }

    /// The entry of a main segment, counted from 0.
    pub fn get<D: Disk>(&mut self, d: &mut D, segno: u32) -> Result<SitEntry, TableRefusal>
        requires segment { segno < self.old.layout.segments }
        requires lies { self.old.layout.blocks ≤ (D.state d.old).size }
        ensures entry { IfOk result (λ e. (image : Image) → (D.state d.old).told ≡ Some image → sit_entry e ≡ sit_in self.old image segno) }
        ensures fits { IfOk result (λ e. FitsSitEntry (sit_entry e)) }
        // What was set or stands in the journal needs no disk.
        ensures newer { is_some (sit_newer self.old segno) ≡ true → IfOk result (λ e. sit_newer self.old segno ≡ Some (sit_entry e)) }
        ensures table { self.new ≡ self.old }
        ensures reads { Reads (D.state d.old) (D.state d.new) }
        ensures goes { Goes (D.state d.old) (D.state d.new) }
        ensures fault { IsErrOf result TableRefusal.DiskFault → Rose (D.state d.old).faults (D.state d.new).faults }
    {
        if let Some(entry) = self.newer.get(segno) {
            return Ok(entry);
        }
        let block = self.read(d, segno / ENTRIES)?;
        Ok(self.entry(&block, segno))
    }

    // Appends the entries of the segments from one on and below another, all of this block.
    fn push_entries(
        &self,
        block: &Block,
        from: u32,
        to: u32,
        into: &mut Vec<SitEntry>,
    ) -> Result<(), AllocError>
        requires { from ≤ to }
        ensures entries { OnOk result (map sit_entry into.new.items ≡ map sit_entry into.old.items ++ map (sit_over self.now block.now) (range_with_len from (to - from))) }
        ensures length { OnOk result (length into.new.items ≡ length into.old.items + (to - from)) }
        ensures fits { OnOk result (All (λ e. FitsSitEntry (sit_entry e)) into.old.items → All (λ e. FitsSitEntry (sit_entry e)) into.new.items) }
    {
        for segno in from..to {
            into.push(self.entry(block, segno))?;
        }
        Ok(())
    }

    /// The entries of all main segments in order. Each block of the table that has one of them is read once.
    pub fn entries<D: Disk>(
        &mut self,
        alloc: Global,
        d: &mut D,
    ) -> Result<Vec<SitEntry>, TableRefusal>
        requires lies { self.old.layout.blocks ≤ (D.state d.old).size }
        ensures entries { IfOk result (λ entries. (image : Image) → (D.state d.old).told ≡ Some image → map sit_entry entries.items ≡ map (sit_in self.old image) (numbers_below self.old.layout.segments)) }
        ensures length { IfOk result (λ entries. length entries.items ≡ self.old.layout.segments) }
        ensures fits { IfOk result (λ entries. All (λ e. FitsSitEntry (sit_entry e)) entries.items) }
        ensures table { self.new ≡ self.old }
        ensures reads { Reads (D.state d.old) (D.state d.new) }
        ensures goes { Goes (D.state d.old) (D.state d.new) }
        ensures fault { IsErrOf result TableRefusal.DiskFault → Rose (D.state d.old).faults (D.state d.new).faults }
    {
        let segments = self.layout.segments;
        let mut entries = Vec::with_capacity(alloc, segments as usize)?;
        for k in 0..segments.div_ceil(ENTRIES) {
            let block = self.read(d, k)?;
            let end = segments.min(ENTRIES * (k + 1));
            self.push_entries(&block, ENTRIES * k, end, &mut entries)?;
        }
        Ok(entries)
    }

    // The entries of the segments of block `k`, which was read as this block, in a block of their own.
    fn put_entries(&self, block: &Block, k: u32) -> Block
        requires block { k < self.now.layout.sit_half }
        ensures { (j : ℕ) → j < 55 → 55 * k + j < self.now.layout.segments → sit_entry_at result (74 * j) ≡ sit_over self.now block.now (55 * k + j) }
    {
        let mut whole = Block::zeros();
        prove!(k < self.layout.sit_half);
        let first = ENTRIES * k;
        let end = self.layout.segments.min(first + ENTRIES);
        for segno in first..end {
            put_sit(
                &mut whole,
                (segno - first) as usize,
                self.entry(block, segno),
            );
        }
        whole
    }

    /// Block `k` of the table, counted from 0, with the entries of now, and zeros behind the last segment's. The block of
    /// the table is read once.
    pub fn table_block<D: Disk>(&mut self, d: &mut D, k: u32) -> Result<Block, TableRefusal>
        requires block { k < self.old.layout.sit_half }
        requires lies { self.old.layout.blocks ≤ (D.state d.old).size }
        ensures entries { IfOk result (λ b. (image : Image) → (D.state d.old).told ≡ Some image → (j : ℕ) → j < 55 → 55 * k + j < self.old.layout.segments → sit_entry_at b (74 * j) ≡ sit_in self.old image (55 * k + j)) }
        ensures table { self.new ≡ self.old }
        ensures reads { Reads (D.state d.old) (D.state d.new) }
        ensures goes { Goes (D.state d.old) (D.state d.new) }
        ensures fault { IsErrOf result TableRefusal.DiskFault → Rose (D.state d.old).faults (D.state d.new).faults }
    {
        let block = self.read(d, k)?;
        Ok(self.put_entries(&block, k))
    }

    /// The numbers of the table's blocks that have an entry which stands in the journal or was set, in ascending order.
    pub fn dirty(&self) -> Result<Vec<u32>, NoMemory>
        ensures { IfOk result (λ blocks. blocks.items ≡ sit_dirty self.now) }
    {
        self.newer
            .blocks(self.layout.sit_half, ENTRIES, self.layout.segments)
    }

    /// Gives a main segment this entry, whose kind is below 64 and whose count is below 1024. The disk is not asked.
    pub fn set<D: Disk>(&mut self, d: &mut D, segno: u32, e: SitEntry) -> Result<(), TableRefusal>
        requires segment { segno < self.old.layout.segments }
        requires fits { FitsSitEntry (sit_entry e) }
        ensures done { OnOk result (SetsSit segno (sit_entry e) self.old self.new) }
        ensures err { OnErr result (self.new ≡ self.old) }
        ensures disk { d.new ≡ d.old }
        ensures fault { IsErrOf result TableRefusal.DiskFault → ⊥ }
    {
        match self.newer.set(segno, e) {
            Ok(()) => Ok(()),
            Err(_) => Err(TableRefusal::NoMemory),
        }
    }
}
