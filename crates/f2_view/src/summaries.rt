// What the summaries of a mounted image say.
ghost use Rattle.std.specs.Prelude.{◌≡◌, ◌≤◌, ◌<◌, ◌+◌, ◌*◌, ◌^◌, ℕ, true, Some, IfOk, IfSome, OnOk, OnErr, IsErrOf, unwrap_or};
ghost use Rattle.f2_bytes.specs.Bytes.{Image, block_at};
ghost use Rattle.f2_bytes.specs.Checkpoint.{pack};
ghost use Rattle.f2_bytes.specs.Summary.{summary_entry, pack_summary};
ghost use Rattle.f2_bytes.specs.Summary.{summary as summary_in_image, missing_summary as missing_in_image, log_of as log_of_segment};
ghost use Rattle.f2_bytes.specs.Superblock.{is_main, IsInOrder};
ghost use Rattle.f2_disk.specs.Disk.{Reads, Goes, Rose};
ghost use Rattle.f2_sum.specs.Records.{summary_of};
ghost use Rattle.f2_view.specs.Mounted.{layout_in, IsMountOf};

use crate::{Mount, ViewRefusal};
use f2_bytes::Layout;
use f2_disk::{Block, Disk, DiskFault};
use f2_node::footer;
use f2_sum::{Summary, put_summary, summary};
use f2_tables::ssa_read;

// The summary of a block of log `t` of which the pack holds none. For a node the footer says which one it is.
fn missing_summary<D: Disk>(d: &mut D, t: usize, addr: u32) -> Result<Summary, DiskFault>
    requires lies { addr < (D.state d.old).size }
    ensures summary { IfOk result (λ s. (image : Image) → (D.state d.old).told ≡ Some image → summary_of s ≡ missing_in_image image t addr) }
    ensures reads { Reads (D.state d.old) (D.state d.new) }
    ensures goes { Goes (D.state d.old) (D.state d.new) }
    ensures fault { OnErr result (Rose (D.state d.old).faults (D.state d.new).faults) }
{
    if t < 3 {
        return Ok(Summary {
            nid: 0,
            version: 0,
            ofs: 0,
        });
    }
    let mut block = Block::zeros();
    d.read(u64::from(addr), &mut block)?;
    Ok(Summary {
        nid: footer(&block).nid,
        version: 0,
        ofs: 0,
    })
}

// The summary of block `k` of a segment that is no log's.
fn stored_summary<D: Disk>(
    d: &mut D,
    l: &Layout,
    segno: u32,
    k: usize,
) -> Result<Summary, DiskFault>
    requires order { IsInOrder l.now }
    requires lies { l.now.blocks ≤ (D.state d.old).size }
    requires segment { segno < l.now.segments }
    requires block { k < 512 }
    ensures summary { IfOk result (λ s. (image : Image) → (D.state d.old).told ≡ Some image → summary_of s ≡ summary_entry (block_at image (l.now.ssa + segno)) k) }
    ensures reads { Reads (D.state d.old) (D.state d.new) }
    ensures goes { Goes (D.state d.old) (D.state d.new) }
    ensures fault { OnErr result (Rose (D.state d.old).faults (D.state d.new).faults) }
{
    let mut block = Block::zeros();
    ssa_read(d, l, segno, &mut block)?;
    Ok(summary(block.bytes(), k))
}

impl Mount {
    // The least log that fills this segment, if one does.
    fn log_of(&self, segno: u32) -> Option<usize>
        ensures log { result ≡ log_of_segment self.now.chosen.head segno }
        ensures few { IfSome result (λ t. t < 6) }
    {
        for t in 0..6 {
            if self.log(t).segno == segno {
                return Some(t);
            }
        }
        None
    }

    // The summary of block `k` of log `t`, which has this address.
    fn log_summary<D: Disk>(
        &self,
        d: &mut D,
        t: usize,
        k: usize,
        addr: u32,
    ) -> Result<Summary, ViewRefusal>
        requires log { t < 6 }
        requires block { k < 512 }
        requires lies { addr < (D.state d.old).size }
        ensures summary { IfOk result (λ s. (image : Image) → (D.state d.old).told ≡ Some image → IsMountOf image self.now
            → summary_of s ≡ unwrap_or (pack_summary (pack image) t k) (missing_in_image image t addr)) }
        ensures reads { Reads (D.state d.old) (D.state d.new) }
        ensures goes { Goes (D.state d.old) (D.state d.new) }
        ensures fault { IsErrOf result ViewRefusal.DiskFault → Rose (D.state d.old).faults (D.state d.new).faults }
    {
        match self.chosen().entry(t, k) {
            Some(s) => Ok(s),
            None => Ok(missing_summary(d, t, addr)?),
        }
    }

    // Fills `into` with the summaries of the 512 blocks of log `t`, the first of which has this address.
    fn log_summaries<D: Disk>(
        &self,
        d: &mut D,
        t: usize,
        first: u32,
        into: &mut Block,
    ) -> Result<(), ViewRefusal>
        requires log { t < 6 }
        requires fits { first + 512 ≤ 2 ^ 28 }
        requires lies { first + 512 ≤ (D.state d.old).size }
        ensures summaries { OnOk result ((image : Image) → (D.state d.old).told ≡ Some image → IsMountOf image self.now
            → (k : ℕ) → k < 512 → summary_entry into.new k ≡ unwrap_or (pack_summary (pack image) t k) (missing_in_image image t (first + k))) }
        ensures reads { Reads (D.state d.old) (D.state d.new) }
        ensures goes { Goes (D.state d.old) (D.state d.new) }
        ensures fault { IsErrOf result ViewRefusal.DiskFault → Rose (D.state d.old).faults (D.state d.new).faults }
    {
        let mut bytes = [0; 4096];
        for k in 0..512 {
            let s = self.log_summary(d, t, k, first + k as u32)?;
            put_summary(&mut bytes, k, s);
        }
        into.put(0, &bytes);
        Ok(())
    }

    /// The summary of the block at an address of the main area.
    pub fn summary<D: Disk>(&mut self, d: &mut D, addr: u32) -> Result<Summary, ViewRefusal>
        requires main { is_main (layout_in self.old) addr ≡ true }
        requires lies { (layout_in self.old).blocks ≤ (D.state d.old).size }
        ensures summary { IfOk result (λ s. (image : Image) → (D.state d.old).told ≡ Some image → IsMountOf image self.old
            → summary_of s ≡ summary_in_image image addr) }
        ensures mount { self.new ≡ self.old }
        ensures reads { Reads (D.state d.old) (D.state d.new) }
        ensures goes { Goes (D.state d.old) (D.state d.new) }
        ensures fault { IsErrOf result ViewRefusal.DiskFault → Rose (D.state d.old).faults (D.state d.new).faults }
    {
        let l = self.layout();
        let segno = (addr - l.main) / 512;
        let k = (addr - l.main) % 512;
        match self.log_of(segno) {
            Some(t) => self.log_summary(d, t, k as usize, addr),
            None => Ok(stored_summary(d, &l, segno, k as usize)?),
        }
    }

    /// Fills `into` with the summaries of the 512 blocks of a main segment, as the entries of a summary block. After a
    /// refusal its bytes are any.
    pub fn summaries<D: Disk>(
        &mut self,
        d: &mut D,
        segno: u32,
        into: &mut Block,
    ) -> Result<(), ViewRefusal>
        requires segment { segno < (layout_in self.old).segments }
        requires lies { (layout_in self.old).blocks ≤ (D.state d.old).size }
        ensures summaries { OnOk result ((image : Image) → (D.state d.old).told ≡ Some image → IsMountOf image self.old
            → (k : ℕ) → k < 512 → summary_entry into.new k ≡ summary_in_image image ((layout_in self.old).main + 512 * segno + k)) }
        ensures mount { self.new ≡ self.old }
        ensures reads { Reads (D.state d.old) (D.state d.new) }
        ensures goes { Goes (D.state d.old) (D.state d.new) }
        ensures fault { IsErrOf result ViewRefusal.DiskFault → Rose (D.state d.old).faults (D.state d.new).faults }
    {
        let l = self.layout();
        match self.log_of(segno) {
            Some(t) => self.log_summaries(d, t, l.main + 512 * segno, into),
            None => Ok(ssa_read(d, &l, segno, into)?),
        }
    }
}
