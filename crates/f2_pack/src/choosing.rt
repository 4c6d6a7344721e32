// The pack that counts.
ghost use Rattle.std.specs.Prelude.{◌≡◌, ◌≤◌, ◌<◌, ◌+◌, ◌*◌, ◌^◌, ℕ, Some, true, Ok, IfOk, IfErr, IfSome, IsErrOf};
ghost use Rattle.f2_bytes.specs.Bytes.{Image};
ghost use Rattle.f2_bytes.specs.Checkpoint.{pack_at, pack_head, checkpoint_ver};
ghost use Rattle.f2_bytes.specs.Superblock.{IsInOrder};
ghost use Rattle.f2_disk.specs.Disk.{State, Reads, Goes, Rose};
ghost use Rattle.f2_pack.specs.Choice.{choice, read_of, below_limit, higher_of, OrFails, IsChosen};
ghost use Rattle.f2_pack.specs.Valid.{is_head_valid as head_is_valid};
ghost use Rattle.f2_pack.specs.declared.choosing.PackRefusal.TheVariants.{DiskFault as Faulted, NoMemory as MemoryShort};

use crate::reading::{journals, read_blocks, read_orphans};
use crate::validity::valid_head;
use crate::{Checkpoint, Chosen};
use f2_bytes::Layout;
use f2_disk::{Disk, DiskFault};
use std::alloc::{AllocError, AllocFailed, Global};
use thiserror::Error;

// The version from which on no pack is taken, so that no later one passes the end of its type.
const VERSION_LIMIT: u64 = 1 << 62;

/// Why no pack was chosen.
#[derive(Clone, Copy, Debug, PartialEq, Eq, Error)]
pub enum PackRefusal {
    /// Neither pack is valid.
    #[error("no checkpoint pack is valid")]
    NoPack,
    /// The version of the pack that counts is 2^62 or more.
    #[error("version {0} of the checkpoint is too high")]
    VersionLimit(u64),
    /// A journal says this many records: more than 38 of the node address table, or more than 6 of the segment table.
    #[error("a journal says {0} records")]
    BadSummary(u32),
    /// A call of the disk failed.
    #[error("a call of the disk failed")]
    DiskFault,
    /// No memory is left.
    #[error("no memory is left")]
    NoMemory,
}

impl From<DiskFault> for PackRefusal {
    ghost from_gives = { λ _ e. e ≡ Faulted };

    fn from(_: DiskFault) -> Self {
        PackRefusal::DiskFault
    }
}

impl From<AllocError> for PackRefusal {
    ghost from_gives = { λ _ e. e ≡ MemoryShort };

    fn from(_: AllocError) -> Self {
        PackRefusal::NoMemory
    }
}

impl<T: Drop> From<AllocFailed<T>> for PackRefusal {
    ghost from_gives = { λ _ e. e ≡ MemoryShort };

    fn from(_: AllocFailed<T>) -> Self {
        PackRefusal::NoMemory
    }
}

// The head of the higher version, that of pack 0 at a tie, with the number of its pack.
fn higher(first: Option<Checkpoint>, second: Option<Checkpoint>) -> Option<(Checkpoint, u8)>
    ensures { result ≡ higher_of first second }
{
    match (first, second) {
        (Some(a), Some(b)) => {
            if b.field(0) <= a.field(0) {
                Some((a, 0))
            } else {
                Some((b, 1))
            }
        }
        (Some(a), None) => Some((a, 0)),
        (None, Some(b)) => Some((b, 1)),
        (None, None) => None,
    }
}

// The head that counts of two, where there is one below the limit of versions, with the number of its pack.
fn below_limit(
    first: Option<Checkpoint>,
    second: Option<Checkpoint>,
) -> Result<(Checkpoint, u8), PackRefusal>
    ensures { result ≡ below_limit (higher_of first second) }
{
    match higher(first, second) {
        Some((head, pack)) => {
            let version = head.field(0);
            if version >= VERSION_LIMIT {
                Err(PackRefusal::VersionLimit(version))
            } else {
                Ok((head, pack))
            }
        }
        None => Err(PackRefusal::NoPack),
    }
}

// What is kept of a pack whose head was found valid.
fn read_pack<D: Disk>(
    alloc: Global,
    d: &mut D,
    l: &Layout,
    head: &Checkpoint,
    pack: u8,
) -> Result<Chosen, PackRefusal>
    requires in_order { IsInOrder l.now }
    requires inside { l.now.blocks ≤ (D.state d.old).size }
    requires valid { head_is_valid l.now head.now ≡ true }
    requires pack { pack < 2 }
    ensures exact { (image : Image) → (D.state d.old).told ≡ Some image → pack_head (pack_at l.now image pack) ≡ head.now → OrFails result (read_of (pack_at l.now image pack) pack) }
    ensures sound { IfOk result (IsChosen l.now) }
    ensures head { IfOk result (λ c. c.head ≡ head.now) }
    ensures reads { Reads (D.state d.old) (D.state d.new) }
    ensures goes { Goes (D.state d.old) (D.state d.new) }
    ensures fault { IsErrOf result PackRefusal.DiskFault → Rose (D.state d.old).faults (D.state d.new).faults }
{
    let block = head.block();
    prove!(block.bytes().len() == 4096);
    let start = u64::from(l.cp) + 512 * u64::from(pack);
    let data_summaries = read_blocks(alloc, d, start, head.data_start(), head.data_blocks())?;
    let records = journals(head, &data_summaries)?;
    let node_summaries = read_blocks(alloc, d, start, head.node_start(), head.node_blocks())?;
    let orphans = read_orphans(alloc, d, start, head)?;
    Ok(Chosen::of(head, pack, records, orphans, data_summaries, node_summaries))
}

/// Chooses the pack that counts, the valid one of the higher version and pack 0 at a tie, and reads what is kept of
/// it. No block is read twice.
pub fn choose<D: Disk>(alloc: Global, d: &mut D, l: &Layout) -> Result<Chosen, PackRefusal>
    requires in_order { IsInOrder l.now }
    requires inside { l.now.blocks ≤ (D.state d.old).size }

    // Exactly which answer, where the disk tells its blocks.
    ensures exact { (image : Image) → (D.state d.old).told ≡ Some image → OrFails result (choice l.now image) }

    // What is known of it on every disk.
    ensures sound { IfOk result (IsChosen l.now) }
    ensures version { IfOk result (λ c. checkpoint_ver c.head < 2 ^ 62) }
    ensures reads { Reads (D.state d.old) (D.state d.new) }
    ensures goes { Goes (D.state d.old) (D.state d.new) }

    // It answers a fault only where the disk had one.
    ensures fault { IsErrOf result PackRefusal.DiskFault → Rose (D.state d.old).faults (D.state d.new).faults }
{
    let first = valid_head(d, l, 0)?;
    let second = valid_head(d, l, 1)?;
    let (head, pack) = below_limit(first, second)?;
    read_pack(alloc, d, l, &head, pack)
}
