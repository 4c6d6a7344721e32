// The superblock of a disk.
ghost use Rattle.std.specs.Prelude.{◌≡◌, ◌≤◌, ◌<◌, ◌^◌, ℕ, Some, None, true, false, Ok, IfSome, IfOk, OnOk, OnErr, IsErrOf};
ghost use Rattle.f2_bytes.specs.Bytes.{Image, block_at};
ghost use Rattle.f2_bytes.specs.Superblock.{copy_passes, block_count, has_twins, unsupported_features as unsupported_bits};
ghost use Rattle.f2_disk.specs.Disk.{State, Reads, Goes, Rose, LeavesOnly};
ghost use Rattle.f2_super.specs.Copy.{copy_in};
ghost use Rattle.f2_super.specs.Choice.{found_of};
ghost use Rattle.f2_super.specs.Load.{loaded, refusal_of, OrFault, repaired, IsRepairing, KeepsSuper, IsSound};
ghost use Rattle.f2_super.specs.declared.loading.SuperRefusal.TheVariants.{DiskFault as Faulted};

use crate::features::Features;
use crate::{Super, read_copy, write_copy};
use bitflags::Flags;
use f2_disk::{Block, Disk, DiskFault};
use thiserror::Error;

/// The most blocks that an image may have: 1 TiB.
const MOST_BLOCKS: u64 = 1 << 28;

/// The superblock copy that counts.
#[derive(Clone, Copy)]
pub struct Found {
    /// The copy.
    pub sup: Super,
    /// Its number: 0, or 1 where copy 0 doesn't pass.
    pub copy: u8,
    /// Whether the other copy passes and agrees with it.
    pub twin: bool,
}

/// Why no superblock was loaded.
#[derive(Clone, Copy, Debug, PartialEq, Eq, Error)]
pub enum SuperRefusal {
    /// Neither copy passes.
    #[error("no superblock copy passes")]
    NoSuper,
    /// The copy that counts has these feature bits, which the tools don't read.
    #[error("unsupported feature bits {0:#x}")]
    Unsupported(u32),
    /// It says that there are this many blocks, more than 2^28.
    #[error("{0} blocks are too many")]
    TooLarge(u64),
    /// It says that there are `blocks` blocks, more than the `held` ones of the disk.
    #[error("the superblock says {blocks} blocks, and the disk has {held}")]
    Truncated { blocks: u64, held: u64 },
    /// A call of the disk failed.
    #[error("a call of the disk failed")]
    DiskFault,
}

impl From<DiskFault> for SuperRefusal {
    ghost from_gives = { λ _ e. e ≡ Faulted };

    fn from(_: DiskFault) -> Self {
        SuperRefusal::DiskFault
    }
}

// The copy in block `at` of the disk, none past its end.
fn copy_at<D: Disk>(d: &mut D, size: u64, at: u64) -> Result<Option<Super>, DiskFault>
    requires { size ≡ (D.state d.old).size }
    ensures copy { IfOk result (λ copy. (image : Image) → (D.state d.old).told ≡ Some image → copy ≡ copy_in (block_at image at)) }
    ensures passes { IfOk result (λ copy. IfSome copy (λ s. copy_passes s ≡ true)) }
    ensures reads { Reads (D.state d.old) (D.state d.new) }
    ensures goes { Goes (D.state d.old) (D.state d.new) }
    ensures fault { OnErr result (Rose (D.state d.old).faults (D.state d.new).faults) }
{
    if at >= size {
        return Ok(None);
    }
    let mut b = Block::zeros();
    d.read(at, &mut b)?;
    Ok(read_copy(&b))
}

// The feature bits of a copy that the tools don't read.
fn unsupported_features(sup: &Super) -> u32
    ensures { result ≡ unsupported_bits sup.now }
{
    let features = Features::from_bits_retain(sup.field(31) as u32);
    features.difference(Features::all()).bits()
}

// What a copy is refused for on a disk of `size` blocks.
#[tactic(auto, unfolding(crate::specs::Load::refusal_of))]
fn refusal(size: u64, sup: &Super) -> Option<SuperRefusal>
    ensures value { result ≡ refusal_of size sup.now }
    ensures few { result ≡ None → block_count sup.now ≤ 2 ^ 28 }
    ensures held { result ≡ None → block_count sup.now ≤ size }
    ensures room { result ≡ None → copy_passes sup.now ≡ true → 2 ≤ size }
    ensures no_fault { result ≡ Some SuperRefusal.DiskFault → ⊥ }
{
    let unsupported = unsupported_features(sup);
    let blocks = sup.field(10);
    if unsupported != 0 {
        Some(SuperRefusal::Unsupported(unsupported))
    } else if blocks > MOST_BLOCKS {
        Some(SuperRefusal::TooLarge(blocks))
    } else if blocks > size {
        Some(SuperRefusal::Truncated { blocks, held: size })
    } else {
        None
    }
}

// The copy that counts of both.
fn choose(size: u64, first: Option<Super>, second: Option<Super>) -> Result<Found, SuperRefusal>
    requires first { IfSome first (λ s. copy_passes s ≡ true) }
    requires second { IfSome second (λ s. copy_passes s ≡ true) }
    ensures value { result ≡ found_of size first second }
    ensures sound { IfOk result (IsSound size) }
    ensures no_fault { IsErrOf result SuperRefusal.DiskFault → ⊥ }
{
    let twin = match (&first, &second) {
        (Some(a), Some(b)) => a.agrees(b),
        _ => false,
    };
    let (sup, copy) = match (first, second) {
        (Some(a), _) => (a, 0),
        (None, Some(b)) => (b, 1),
        (None, None) => return Err(SuperRefusal::NoSuper),
    };
    match refusal(size, &sup) {
        Some(refusal) => Err(refusal),
        None => Ok(Found { sup, copy, twin }),
    }
}

/// Reads both copies, and answers the one that counts: copy 0 where it passes, else copy 1.
pub fn load<D: Disk>(d: &mut D) -> Result<Found, SuperRefusal>
    // Exactly which answer, where the disk tells its blocks.
    ensures exact { (image : Image) → (D.state d.old).told ≡ Some image → OrFault result (loaded (D.state d.old).size image) }
    // What is known of it on every disk.
    ensures sound { IfOk result (IsSound (D.state d.old).size) }
    ensures reads { Reads (D.state d.old) (D.state d.new) }
    ensures goes { Goes (D.state d.old) (D.state d.new) }
    // It answers a fault only where the disk had one.
    ensures fault { IsErrOf result SuperRefusal.DiskFault → Rose (D.state d.old).faults (D.state d.new).faults }
{
    let size = d.size()?;
    let first = copy_at(d, size, 0)?;
    let second = copy_at(d, size, 1)?;
    choose(size, first, second)
}

/// Writes the copy that counts over the other one, and syncs. The other block's first 1024 bytes stay.
pub fn repair<D: Disk>(d: &mut D, f: &Found) -> Result<(), DiskFault>
    requires twin { f.now.twin ≡ false }
    requires copy { f.now.copy < 2 }
    requires room { 2 ≤ (D.state d.old).size }
    requires found { (image : Image) → (D.state d.old).told ≡ Some image → loaded (D.state d.old).size image ≡ Ok f.now }

    // The other copy's block has the bytes of the superblock, and all other blocks are as before.
    ensures done { OnOk result ((image : Image) → (D.state d.old).told ≡ Some image → (D.state d.new).told ≡ Some (repaired f.now image)) }
    ensures twins { OnOk result ((image : Image) → (D.state d.new).told ≡ Some image → has_twins image ≡ true) }
    ensures durable { OnOk result ((D.state d.new).pending ≡ false) }
    ensures counted { OnOk result (Rose (D.state d.old).writes (D.state d.new).writes) }

    // Whatever it answers, no block differs but the other copy's: that is the old one, the new one, or torn where a
    // write was cut short.
    ensures either { (image : Image) → (D.state d.old).told ≡ Some image
        → (now : Image) × ((D.state d.new).told ≡ Some now) × IsRepairing f.now image now }

    // A crash at any moment of the call leaves such an image too, with the same superblock.
    ensures any_moment { KeepsSuper (D.state d.old) (D.state d.new) }
    ensures repairing { (D.state d.old).pending ≡ false → (image : Image) → (D.state d.old).told ≡ Some image
        → LeavesOnly (D.state d.old) (D.state d.new) (IsRepairing f.now image) }

    // It gives up only at a fault of the disk.
    ensures goes { Goes (D.state d.old) (D.state d.new) }
    ensures fault { OnErr result (Rose (D.state d.old).faults (D.state d.new).faults) }
{
    let at = 1 - u64::from(f.copy);
    let mut b = Block::zeros();
    d.read(at, &mut b)?;
    write_copy(&f.sup, &mut b);
    d.write(at, &b)?;
    d.sync()
}
