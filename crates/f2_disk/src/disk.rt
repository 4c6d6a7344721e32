// A disk as all jobs see it.
ghost use Rattle.std.specs.Prelude.{◌≡◌, ◌≤◌, ◌<◌, ℕ, false, true, IfOk, OnOk, OnErr, Some};
ghost use Rattle.f2_bytes.specs.Bytes.{Image, block_at};
ghost use Rattle.f2_disk.specs.Disk.{State, IsImage, Goes, Reads, Writes, Wrote, Syncs, Rose};

use crate::Block;
use thiserror::Error;

/// A call of a disk failed.
#[derive(Clone, Copy, Debug, PartialEq, Eq, Error)]
#[error("a call of the disk failed")]
pub struct DiskFault;

/// A disk of blocks of 4096 bytes, whose length never changes.
///
/// A disk may tell its blocks, and what a crash may leave; what it tells at one moment it tells at every later one.
/// Clauses on content hold where it tells. Each call answers `DiskFault` only where the count of faults rose in that
/// call, or stands at its type's end. `size` and `read` write nothing, whatever they answer.
pub trait Disk {
    /// What it means at this moment.
    ghost state: { Self → State };

    /// The length in blocks.
    fn size(&mut self) -> Result<u64, DiskFault>
        ensures size { IfOk result (λ n. n ≡ (state self.old).size) }
        ensures reads { Reads (state self.old) (state self.new) }
        ensures goes { Goes (state self.old) (state self.new) }
        ensures fault { OnErr result (Rose (state self.old).faults (state self.new).faults) };

    /// Reads block `at`. After a fault the bytes in `into` are any.
    fn read(&mut self, at: u64, into: &mut Block) -> Result<(), DiskFault>
        requires { at < (state self.old).size }
        ensures block { OnOk result ((image : Image) → (state self.old).told ≡ Some image → into.new ≡ block_at image at) }
        ensures reads { Reads (state self.old) (state self.new) }
        ensures goes { Goes (state self.old) (state self.new) }
        ensures fault { OnErr result (Rose (state self.old).faults (state self.new).faults) };

    /// Writes block `at`. Until a sync a crash may leave it as it was, written, or torn. After a fault it reads as one
    /// of these.
    fn write(&mut self, at: u64, from: &Block) -> Result<(), DiskFault>
        requires { at < (state self.old).size }
        ensures done { OnOk result (Wrote at from.now (state self.old) (state self.new)) }
        ensures writes { Writes at from.now (state self.old) (state self.new) }
        ensures goes { Goes (state self.old) (state self.new) }
        ensures fault { OnErr result (Rose (state self.old).faults (state self.new).faults) };

    /// Ends what is pending: a crash leaves what was written before. After a fault all is as before.
    fn sync(&mut self) -> Result<(), DiskFault>
        ensures done { OnOk result ((state self.new).pending ≡ false) }
        ensures failed { OnErr result (Reads (state self.old) (state self.new)) }
        ensures syncs { Syncs (state self.old) (state self.new) }
        ensures goes { Goes (state self.old) (state self.new) }
        ensures fault { OnErr result (Rose (state self.old).faults (state self.new).faults) };

    /// What it tells is an image: as many blocks as its length says, each of 4096 bytes.
    ghost whole: { (d : Self) (image : Image) → (state d).told ≡ Some image → IsImage (state d).size image };

    /// Where nothing is pending, a crash leaves what is read.
    ghost settled: { (d : Self) (c : Image) → (state d).pending ≡ false → (state d).may_leave c → (state d).told ≡ Some c };

    /// What is read is one of the images that a crash may leave.
    ghost stays: { (d : Self) (image : Image) → (state d).tells_left ≡ true → (state d).told ≡ Some image → (state d).may_leave image };

    /// This moment is one of those since an earlier one.
    ghost counts_now: { (d : Self) (t : ℕ) (c : Image) → t ≤ (state d).moment → (state d).may_leave c → (state d).left_since t c };

    /// Since this moment there is no other.
    ghost only_now: { (d : Self) (c : Image) → (state d).left_since (state d).moment c → (state d).may_leave c };
}
