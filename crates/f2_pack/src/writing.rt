// Writing a pack.
ghost use Rattle.std.specs.Prelude.{◌≡◌, ◌≤◌, ◌<◌, ◌+◌, length, slice_range, true, IfOk};
ghost use Rattle.f2_bytes.specs.Bytes.{IsBlock};
ghost use Rattle.f2_bytes.specs.Checkpoint.{is_pack_valid, pack_total_block_count};
ghost use Rattle.f2_bytes.specs.Checksum.{with_seal};
ghost use Rattle.f2_bytes.specs.Journal.{are_journals_bounded};
ghost use Rattle.f2_bytes.specs.Superblock.{IsInOrder};
ghost use Rattle.f2_pack.specs.Choice.{IsChosen};
ghost use Rattle.f2_pack.specs.Held.{chosen_of};
ghost use Rattle.f2_pack.specs.Written.{written, IsNormal};

use crate::reading::journals;
use crate::{Checkpoint, Chosen};
use f2_bytes::{Layout, NoMemory, seal};
use f2_disk::Block;
use std::alloc::Global;

/// A pack that is to be written.
#[derive(Clone, Copy)]
pub struct NewPack {
    /// The head; its seal is put in as it is written.
    pub head: Block,
    /// The summary blocks of the six logs, with the journals in those of logs 0 and 2.
    pub sums: [Block; 6],
    /// The number of the pack, 0 or 1.
    pub pack: u8,
}

// A block with its seal put in.
fn sealed_copy(b: &Block) -> Block
    ensures bytes { result ≡ with_seal b.now }
    ensures size { length b.now ≡ 4096 }
    ensures block { IsBlock result }
{
    let mut bytes = [0; 4096];
    bytes.copy_from_slice(b.bytes());
    seal(&mut bytes);
    let mut copy = Block::zeros();
    copy.put(0, &bytes);
    let written = copy.bytes();
    prove!(written.len() == 4096);
    copy
}

/// The pack's head, sealed: its block 0, and its last block too.
pub fn write_head(p: &NewPack, b: &mut Block)
    requires { IsNormal p.now.head }
    ensures { b.new ≡ written p.now 0 }
{
    *b = sealed_copy(&p.head);
}

/// Block `k` of the pack, from 1 on: the summary blocks of the logs, and last the sealed head again.
pub fn write_body(p: &NewPack, k: usize, b: &mut Block)
    requires normal { IsNormal p.now.head }
    requires first { 1 ≤ k }
    requires last { k < pack_total_block_count p.now.head }
    ensures { b.new ≡ written p.now k }
{
    if k == 7 {
        *b = sealed_copy(&p.head);
    } else {
        *b = p.sums[k - 1];
    }
}

// Three blocks from `start` on.
fn three(blocks: &[Block], start: usize) -> &[Block]
    requires { start + 3 ≤ length blocks.now }
    ensures blocks { result.now ≡ slice_range blocks.now start (start + 3) }
    ensures count { length result.now ≡ 3 }
{
    &blocks[start..start + 3]
}

impl Chosen {
    /// What `choose` answers once this pack is written and counts.
    pub fn of_pack(alloc: Global, l: &Layout, p: &NewPack) -> Result<Chosen, NoMemory>
        requires in_order { IsInOrder l.now }
        requires normal { IsNormal p.now.head }
        requires pack { p.now.pack < 2 }
        requires valid { is_pack_valid l.now (written p.now) ≡ true }
        requires bounded { are_journals_bounded (written p.now) ≡ true }
        ensures value { IfOk result (λ c. c ≡ chosen_of (written p.now) p.now.pack) }
        ensures sound { IfOk result (IsChosen l.now) }
    {
        let head = Checkpoint::of(&sealed_copy(&p.head));
        let records = match journals(&head, three(&p.sums, 0)) {
            Ok(records) => records,
            Err(_) => unreachable!(),
        };
        let Ok(data_summaries) = Vec::from_slice(alloc, three(&p.sums, 0)) else {
            return Err(NoMemory);
        };
        let Ok(node_summaries) = Vec::from_slice(alloc, three(&p.sums, 3)) else {
            return Err(NoMemory);
        };
        Ok(Chosen::of(
            &head,
            p.pack,
            records,
            Vec::new(alloc),
            data_summaries,
            node_summaries,
        ))
    }
}
