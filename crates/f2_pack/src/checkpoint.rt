// The head of a pack.
ghost use Rattle.std.specs.Prelude.{◌≡◌, ◌==◌, ◌≤◌, ◌<◌, ◌+◌, ◌^◌, length, true};
ghost use Rattle.std.specs.Int.RustNames.{bit_and};
ghost use Rattle.f2_bytes.specs.Bytes.{number_at};

use crate::flags::CheckpointFlags;
use bitflags::Flags;
use f2_bytes::CHECKPOINT;
use f2_disk::Block;
use std::marker::Model;

/// The block with which a checkpoint pack begins.
#[derive(Clone, Copy)]
pub struct Checkpoint {
    block: Block,
}

impl Model for Checkpoint {
    ghost use Rattle.std.specs.Prelude.{ℕ, List};

    ghost Value = { List ℕ };

    ghost view = { λ c. c.block };

    ghost inverse = { λ block. record { block = block } };
}

/// A log: where the next block of its kind is to be written.
#[derive(Clone, Copy, Debug, PartialEq, Eq)]
pub struct Log {
    /// The main segment that it fills, counted from 0.
    pub segno: u32,
    /// Its next block there, 0 to 511.
    pub offset: u16,
    /// Whether it reuses holes of the segment, instead of appending.
    pub reuse: bool,
}

impl Checkpoint {
    ghost use Rattle.f2_bytes.specs.Bytes.{IsBlock};
    ghost use Rattle.f2_bytes.specs.Fields.{row_at};
    ghost use Rattle.f2_bytes.specs.Checkpoint.{checkpoint_rows, checkpoint_row, ckpt_flags, log, compact_count, compact_blocks, data_summary_blocks, node_summary_blocks, has_room_for_summaries};
    ghost use Rattle.f2_bytes.specs.Checkpoint.{has_orphans as has_orphan_blocks, is_compact as has_compact_form, has_node_summaries as has_summaries_of_nodes, has_large_nat_bitmap as has_large_bitmap};
    ghost use Rattle.f2_bytes.specs.Journal.{data_summary_start, node_summary_start};

    // The head in this block.
    pub(crate) fn of(block: &Block) -> Checkpoint
        ensures { result ≡ block.now }
    {
        Checkpoint { block: *block }
    }

    /// The number in row `k` of the table of the checkpoint's fields, `CHECKPOINT`.
    pub fn field(&self, k: usize) -> u64
        requires { k < 65 }
        ensures value { result ≡ checkpoint_row self.now k }
        ensures fits { result < 256 ^ (row_at checkpoint_rows k).width }
    {
        CHECKPOINT.get(self.block.bytes(), k)
    }

    /// The block.
    pub fn block(&self) -> &Block
        ensures same { result.now ≡ self.now }
        ensures block { IsBlock self.now }
    {
        let bytes = self.block.bytes();
        prove!(bytes.len() == 4096);
        &self.block
    }

    // The segment of log `t`, as the head says it.
    pub(crate) fn segment(&self, t: usize) -> u64
        requires { t < 6 }
        ensures value { result ≡ (log self.now t).segment }
        ensures fits { result < 2 ^ 32 }
    {
        if t < 3 {
            self.field(22 + t)
        } else {
            self.field(3 + t)
        }
    }

    // The offset of log `t` in its segment.
    pub(crate) fn offset(&self, t: usize) -> u64
        requires { t < 6 }
        ensures value { result ≡ (log self.now t).offset }
        ensures fits { result < 2 ^ 16 }
    {
        if t < 3 {
            self.field(30 + t)
        } else {
            self.field(11 + t)
        }
    }

    // How log `t` takes blocks: 0 where it appends, 1 where it reuses holes.
    pub(crate) fn allocation(&self, t: usize) -> u64
        requires { t < 6 }
        ensures { result ≡ (log self.now t).allocation }
    {
        self.field(48 + t)
    }

    // Whether the head has this flag.
    fn has(&self, flag: CheckpointFlags) -> bool
        ensures { result ≡ (bit_and (ckpt_flags self.now) flag.0 == flag.0) }
    {
        CheckpointFlags::from_bits_retain(self.field(38) as u32).contains(flag)
    }

    // Whether the pack has orphan blocks.
    pub(crate) fn has_orphans(&self) -> bool
        ensures { result ≡ has_orphan_blocks self.now }
    {
        self.has(CheckpointFlags::ORPHANS)
    }

    // Whether the summaries of the data logs stand in the compact form.
    pub(crate) fn is_compact(&self) -> bool
        ensures { result ≡ has_compact_form self.now }
    {
        self.has(CheckpointFlags::COMPACT_SUMMARIES)
    }

    // Whether the pack has summaries of the node logs.
    pub(crate) fn has_node_summaries(&self) -> bool
        ensures { result ≡ has_summaries_of_nodes self.now }
    {
        self.has(CheckpointFlags::UMOUNT) || self.has(CheckpointFlags::FASTBOOT)
    }

    // Whether the bitmap of the node address table has a block of its own, which the tools don't read.
    pub(crate) fn has_large_nat_bitmap(&self) -> bool
        ensures { result ≡ has_large_bitmap self.now }
    {
        self.has(CheckpointFlags::LARGE_NAT_BITMAP)
    }

    // How many entries of data log `t` the compact form holds.
    pub(crate) fn compact_count(&self, t: usize) -> u64
        requires { t < 3 }
        ensures value { result ≡ compact_count self.now t }
        ensures fits { result < 2 ^ 16 }
    {
        if self.allocation(t) == 1 {
            512
        } else {
            self.offset(t)
        }
    }

    // How many blocks the summaries of the data logs take.
    pub(crate) fn data_blocks(&self) -> u64
        ensures value { result ≡ data_summary_blocks self.now }
        ensures few { result ≤ 3 }
    {
        let entries = self.compact_count(0) + self.compact_count(1) + self.compact_count(2);
        if !self.is_compact() {
            3
        } else if entries <= 439 {
            1
        } else if entries <= 1023 {
            2
        } else {
            3
        }
    }

    // How many blocks the summaries of the node logs take.
    pub(crate) fn node_blocks(&self) -> u64
        ensures value { result ≡ node_summary_blocks self.now }
        ensures few { result ≤ 3 }
    {
        if self.has_node_summaries() { 3 } else { 0 }
    }

    // The first of those of the data logs.
    pub(crate) fn data_start(&self) -> u64
        requires { has_room_for_summaries self.now ≡ true }
        ensures { result ≡ data_summary_start self.now }
    {
        if self.is_compact() {
            self.field(40)
        } else {
            self.field(39) - self.node_blocks() - 4
        }
    }

    // The first of those of the node logs. A pack without them may have less than 4 blocks.
    pub(crate) fn node_start(&self) -> u64
        ensures { result ≡ node_summary_start self.now }
    {
        self.field(39).saturating_sub(4)
    }
}
