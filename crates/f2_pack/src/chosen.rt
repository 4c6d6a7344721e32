// What is kept of the pack that counts.
ghost use Rattle.std.specs.Prelude.{◌≡◌, ◌≤◌, ◌<◌, ◌+◌, ℕ, length, true, if◌then◌else◌, option_map, Some, None};
ghost use Rattle.f2_bytes.specs.Bytes.{block_at, bytes_at};
ghost use Rattle.f2_bytes.specs.Checkpoint.{log, compact_count, is_compact, has_node_summaries, data_summary_blocks, node_summary_blocks, nat_ver_bitmap_bytesize, sit_ver_bitmap_bytesize, nat_bits as bits_of_nat, sit_bits as bits_of_sit};
ghost use Rattle.f2_bytes.specs.Summary.{summary_at, summary_entry};
ghost use Rattle.f2_pack.specs.Logs.{log_of};
ghost use Rattle.f2_sum.specs.Records.{summary_of};
ghost use Rattle.f2_pack.specs.Held.{data_summary_in};

use crate::{Checkpoint, Log};
use f2_disk::Block;
use f2_sum::{NatJournal, SitJournal, Summary, compact_spot, summary, summary_at};
use std::marker::Model;

/// The pack that counts: its head, its journals, its orphans and the summaries of its logs.
#[derive(Drop)]
pub struct Chosen {
    head: Checkpoint,
    pack: u8,
    nat_journal: NatJournal,
    sit_journal: SitJournal,
    orphans: Vec<u32>,
    data_summaries: Vec<Block>,
    node_summaries: Vec<Block>,
}

impl Model for Chosen {
    ghost use Rattle.f2_pack.specs.Held.{Held, IsHeld, held_of};

    ghost Value = { Held };

    ghost view = { λ c. held_of c.head c.pack (c.nat_journal, c.sit_journal) c.orphans.items c.data_summaries.items c.node_summaries.items };

    ghost invariant = { λ c. IsHeld (held_of c.head c.pack (c.nat_journal, c.sit_journal) c.orphans.items c.data_summaries.items c.node_summaries.items) };
}

// Entry `k` of node log `t`, counted from 0.
fn node_entry(head: &Checkpoint, summaries: &[Block], t: usize, k: usize) -> Option<Summary>
    requires log { t < 3 }
    requires entry { k < 512 }
    requires length { length summaries.now ≡ node_summary_blocks head.now }
    ensures { option_map summary_of result ≡ (if has_node_summaries head.now then Some (summary_entry (block_at summaries.now t) k) else None) }
{
    if head.has_node_summaries() {
        Some(summary(summaries[t].bytes(), k))
    } else {
        None
    }
}

// The `len` bytes of a head from `start` on.
fn part(head: &Checkpoint, start: usize, len: usize) -> &[u8]
    requires { start + len ≤ 4096 }
    ensures bytes { result.now ≡ bytes_at head.now start len }
    ensures length { length result.now ≡ len }
{
    &head.block().bytes()[start..start + len]
}

// Entry `k` of data log `t` in the compact form.
fn compact_entry(head: &Checkpoint, summaries: &[Block], t: usize, k: usize) -> Option<Summary>
    requires log { t < 3 }
    requires compact { is_compact head.now ≡ true }
    requires length { length summaries.now ≡ data_summary_blocks head.now }
    requires counts { (n : ℕ) → n < 3 → compact_count head.now n ≤ 512 }
    ensures { option_map summary_of result ≡ data_summary_in head.now summaries.now t k }
{
    let counts = [
        head.compact_count(0) as u16,
        head.compact_count(1) as u16,
        head.compact_count(2) as u16,
    ];
    if k >= usize::from(counts[t]) {
        return None;
    }
    let (block, at) = compact_spot(counts, t, k);
    Some(summary_at(summaries[block].bytes(), at))
}

impl Chosen {
    ghost use Rattle.f2_pack.specs.Held.{IsHeld, held_of, held_summary};

    // What was read of a pack.
    pub(crate) fn of(
        head: &Checkpoint,
        pack: u8,
        journals: (NatJournal, SitJournal),
        orphans: Vec<u32>,
        data_summaries: Vec<Block>,
        node_summaries: Vec<Block>,
    ) -> Chosen
        requires { IsHeld (held_of head.now pack journals orphans.items data_summaries.items node_summaries.items) }
        ensures { result ≡ held_of head.now pack journals orphans.items data_summaries.items node_summaries.items }
    {
        let (nat_journal, sit_journal) = journals;
        Chosen {
            head: *head,
            pack,
            nat_journal,
            sit_journal,
            orphans,
            data_summaries,
            node_summaries,
        }
    }

    /// The head of the pack.
    pub fn head(&self) -> &Checkpoint
        ensures value { result.now ≡ self.now.head }
        ensures held { IsHeld self.now }
    {
        &self.head
    }

    /// The number of the pack, 0 or 1.
    pub fn pack(&self) -> u8
        ensures value { result ≡ self.now.number }
        ensures held { IsHeld self.now }
    {
        self.pack
    }

    /// The journal of the node address table.
    pub fn nat_journal(&self) -> &NatJournal
        ensures value { result.now ≡ self.now.nat_journal }
        ensures held { IsHeld self.now }
    {
        &self.nat_journal
    }

    /// The journal of the segment table.
    pub fn sit_journal(&self) -> &SitJournal
        ensures value { result.now ≡ self.now.sit_journal }
        ensures held { IsHeld self.now }
    {
        &self.sit_journal
    }

    /// The version bitmap of the node address table, each byte's most significant bit first.
    pub fn nat_bits(&self) -> &[u8]
        ensures value { result.now ≡ bits_of_nat self.now.head }
        ensures length { length result.now ≡ nat_ver_bitmap_bytesize self.now.head }
        ensures held { IsHeld self.now }
    {
        let start = 192 + self.head.field(44) as usize;
        part(&self.head, start, self.head.field(45) as usize)
    }

    /// The version bitmap of the segment table, each byte's most significant bit first.
    pub fn sit_bits(&self) -> &[u8]
        ensures value { result.now ≡ bits_of_sit self.now.head }
        ensures length { length result.now ≡ sit_ver_bitmap_bytesize self.now.head }
        ensures held { IsHeld self.now }
    {
        part(&self.head, 192, self.head.field(44) as usize)
    }

    /// Log `t`: 0 to 2 are hot, warm and cold data, 3 to 5 hot, warm and cold nodes.
    pub fn log(&self, t: usize) -> Log
        requires { t < 6 }
        ensures value { log_of result ≡ log self.now.head t }
        ensures held { IsHeld self.now }
    {
        let _ = &self.pack;
        Log {
            segno: self.head.segment(t) as u32,
            offset: self.head.offset(t) as u16,
            reuse: self.head.allocation(t) == 1,
        }
    }

    /// The inode numbers of the orphans, in the order of the pack.
    pub fn orphans(&self) -> &[u32]
        ensures value { result.now ≡ self.now.orphan_inodes }
        ensures held { IsHeld self.now }
    {
        &self.orphans
    }

    /// The summary that the pack holds of block `k` of log `t`. None where it holds none: from block 512 on, in the
    /// compact form from the log's count on, and for a node log without summaries.
    pub fn entry(&self, t: usize, k: usize) -> Option<Summary>
        requires { t < 6 }
        ensures value { option_map summary_of result ≡ held_summary self.now t k }
        ensures held { IsHeld self.now }
    {
        if k >= 512 {
            None
        } else if t >= 3 {
            node_entry(&self.head, &self.node_summaries, t - 3, k)
        } else if self.head.is_compact() {
            compact_entry(&self.head, &self.data_summaries, t, k)
        } else {
            Some(summary(self.data_summaries[t].bytes(), k))
        }
    }
}
