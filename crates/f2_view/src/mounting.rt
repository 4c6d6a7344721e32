// Mounting an image.
ghost use Rattle.std.specs.Prelude.{◌≡◌, ℕ, Some, IfOk, IsErrOf};
ghost use Rattle.f2_bytes.specs.Bytes.{Image};
ghost use Rattle.f2_disk.specs.Disk.{Reads, Goes, Rose};
ghost use Rattle.f2_view.specs.Mounted.{IsMounted, IsMountOf};
ghost use Rattle.f2_view.specs.Mounting.{mounted, super_refusal, pack_refusal, OrFails};
ghost use Rattle.f2_view.specs.declared.mounting.MountRefusal.TheVariants.{NoMemory as MemoryShort};

use crate::Mount;
use f2_bytes::NoMemory;
use f2_disk::Disk;
use f2_pack::{PackRefusal, choose};
use f2_super::{SuperRefusal, load};
use f2_tables::{Nat, Sit};
use std::alloc::Global;
use thiserror::Error;

/// Why an image can't be mounted.
#[derive(Clone, Copy, Debug, PartialEq, Eq, Error)]
pub enum MountRefusal {
    /// Neither superblock copy passes.
    #[error("no superblock copy passes")]
    NoSuper,
    /// The superblock has these feature bits, which the tools don't read.
    #[error("unsupported feature bits {0:#x}")]
    Unsupported(u32),
    /// The superblock says that there are this many blocks, more than 2^28.
    #[error("{0} blocks are too many")]
    TooLarge(u64),
    /// The superblock says that there are `blocks` blocks, more than the `held` ones of the disk.
    #[error("the superblock says {blocks} blocks, and the disk has {held}")]
    Truncated { blocks: u64, held: u64 },
    /// Neither checkpoint pack is valid.
    #[error("no checkpoint pack is valid")]
    NoPack,
    /// The version of the pack that counts is 2^62 or more.
    #[error("version {0} of the checkpoint is too high")]
    VersionLimit(u64),
    /// A journal says this many records: more than 38 of the node address table, or more than 6 of the segment table.
    #[error("a journal says {0} records")]
    BadSummary(u32),
    /// A call of the disk failed.
    #[error("a call of the disk failed")]
    DiskFault,
    /// No memory is left.
    #[error("no memory is left")]
    NoMemory,
}

impl From<SuperRefusal> for MountRefusal {
    ghost from_gives = { λ refusal e. e ≡ super_refusal refusal };

    fn from(refusal: SuperRefusal) -> Self {
        match refusal {
            SuperRefusal::NoSuper => MountRefusal::NoSuper,
            SuperRefusal::Unsupported(bits) => MountRefusal::Unsupported(bits),
            SuperRefusal::TooLarge(blocks) => MountRefusal::TooLarge(blocks),
            SuperRefusal::Truncated { blocks, held } => MountRefusal::Truncated { blocks, held },
            SuperRefusal::DiskFault => MountRefusal::DiskFault,
        }
    }
}

impl From<PackRefusal> for MountRefusal {
    ghost from_gives = { λ refusal e. e ≡ pack_refusal refusal };

    fn from(refusal: PackRefusal) -> Self {
        match refusal {
            PackRefusal::NoPack => MountRefusal::NoPack,
            PackRefusal::VersionLimit(version) => MountRefusal::VersionLimit(version),
            PackRefusal::BadSummary(count) => MountRefusal::BadSummary(count),
            PackRefusal::DiskFault => MountRefusal::DiskFault,
            PackRefusal::NoMemory => MountRefusal::NoMemory,
        }
    }
}

impl From<NoMemory> for MountRefusal {
    ghost from_gives = { λ _ e. e ≡ MemoryShort };

    fn from(_: NoMemory) -> Self {
        MountRefusal::NoMemory
    }
}

/// Mounts the image of a disk. It reads alone.
pub fn mount<D: Disk>(alloc: Global, d: &mut D) -> Result<Mount, MountRefusal>
    // Exactly which answer, where the disk tells its blocks.
    ensures exact { (image : Image) → (D.state d.old).told ≡ Some image → OrFails result (mounted (D.state d.old).size image) }
    // The mount is then of that image.
    ensures of_image { IfOk result (λ m. (image : Image) → (D.state d.old).told ≡ Some image → IsMountOf image m) }
    // What is known of it on every disk.
    ensures sound { IfOk result (IsMounted (D.state d.old).size) }
    ensures reads { Reads (D.state d.old) (D.state d.new) }
    ensures goes { Goes (D.state d.old) (D.state d.new) }
    // It answers a fault only where the disk had one.
    ensures fault { IsErrOf result MountRefusal.DiskFault → Rose (D.state d.old).faults (D.state d.new).faults }
{
    let found = load(d)?;
    let layout = found.sup.layout();
    let chosen = choose(alloc, d, &layout)?;
    let nat = Nat::open(alloc, &layout, chosen.nat_bits(), chosen.nat_journal())?;
    let sit = Sit::open(alloc, &layout, chosen.sit_bits(), chosen.sit_journal())?;
    Ok(Mount::of(alloc, found, chosen, nat, sit))
}
