// A disk in memory that never fails.
ghost use Rattle.f2_disk.specs.Disk.{IsImage};
ghost use Rattle.std.specs.Prelude.{length};

use crate::{Block, Disk, DiskFault};
use f2_bytes::NoMemory;
use std::alloc::Global;

/// A disk whose blocks are all made at the start, and whose calls never fail.
///
/// It tells its blocks, and not what a crash may leave.
#[derive(Drop)]
pub struct CalmDisk {
    blocks: Vec<Block>,
    pending: bool,
    writes: u64,
    ghost image: { IsImage (length blocks.items) blocks.items },
}

impl CalmDisk {
    ghost use Rattle.std.specs.Prelude.{◌≡◌, false, IfOk, Some};
    ghost use Rattle.f2_disk.specs.Fakes.{calm_of};
    ghost use Rattle.f2_disk.specs.Memory.{zeros};

    /// So many blocks of zeros.
    pub fn new(alloc: Global, blocks: u64) -> Result<CalmDisk, NoMemory>
        ensures size { IfOk result (λ d. (calm_of d).size ≡ blocks) }
        ensures zeros { IfOk result (λ d. (calm_of d).told ≡ Some (zeros blocks)) }
        ensures settled { IfOk result (λ d. (calm_of d).pending ≡ false) }
    {
        let mut all = Vec::new(alloc);
        for _ in 0..blocks {
            if all.push(Block::zeros()).is_err() {
                return Err(NoMemory);
            }
        }
        Ok(CalmDisk {
            blocks: all,
            pending: false,
            writes: 0,
        })
    }
}

impl Disk for CalmDisk {
    ghost use Rattle.std.specs.Prelude.{◌≡◌, ◌<◌, IsOk, IfOk, OnOk, Some, slice_set, true, false};
    ghost use Rattle.f2_bytes.specs.Bytes.{Image, block_at};
    ghost use Rattle.f2_disk.specs.Calm.{whole, tells_none};
    ghost use Rattle.f2_disk.specs.Fakes.{calm_of};
    ghost use Rattle.f2_disk.specs.Disk.{Goes, Reads, Writes, Wrote, Syncs};

    ghost state = { λ d. calm_of d };

    ghost whole = { λ d image told. whole (length d.blocks.items) d.blocks.items image d.image told };

    ghost settled = { λ d c calm left. absurd left };

    ghost stays = { λ d image tells told. tells_none tells };

    ghost counts_now = { λ d t c le left. left };

    ghost only_now = { λ d c left. left };

    fn size(&mut self) -> Result<u64, DiskFault>
        ensures done { IsOk result }
        ensures size { IfOk result (λ n. n ≡ (calm_of self.old).size) }
        ensures reads { Reads (calm_of self.old) (calm_of self.new) }
        ensures goes { Goes (calm_of self.old) (calm_of self.new) }
    {
        Ok(self.blocks.len() as u64)
    }

    fn read(&mut self, at: u64, into: &mut Block) -> Result<(), DiskFault>
        requires { at < (calm_of self.old).size }
        ensures done { IsOk result }
        ensures block { OnOk result ((image : Image) → (calm_of self.old).told ≡ Some image → into.new ≡ block_at image at) }
        ensures reads { Reads (calm_of self.old) (calm_of self.new) }
        ensures goes { Goes (calm_of self.old) (calm_of self.new) }
    {
        *into = self.blocks[at as usize];
        Ok(())
    }

    fn write(&mut self, at: u64, from: &Block) -> Result<(), DiskFault>
        requires { at < (calm_of self.old).size }
        ensures ok { IsOk result }
        ensures done { OnOk result (Wrote at from.now (calm_of self.old) (calm_of self.new)) }
        ensures writes { Writes at from.now (calm_of self.old) (calm_of self.new) }
        ensures goes { Goes (calm_of self.old) (calm_of self.new) }
    {
        let bytes = from.bytes();
        prove!(bytes.len() == 4096);
        self.blocks[at as usize] = *from;
        self.pending = true;
        self.writes = self.writes.saturating_add(1);
        Ok(())
    }

    fn sync(&mut self) -> Result<(), DiskFault>
        ensures ok { IsOk result }
        ensures done { OnOk result ((calm_of self.new).pending ≡ false) }
        ensures syncs { Syncs (calm_of self.old) (calm_of self.new) }
        ensures goes { Goes (calm_of self.old) (calm_of self.new) }
    {
        self.pending = false;
        Ok(())
    }
}
