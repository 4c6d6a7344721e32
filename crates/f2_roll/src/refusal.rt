// Why a chain can't be followed.
ghost use Rattle.std.specs.Prelude.{◌≡◌};
ghost use Rattle.f2_roll.specs.declared.refusal.RollRefusal.TheVariants.{DiskFault as Faulted, NoMemory as MemoryShort};

use f2_disk::DiskFault;
use std::alloc::{AllocError, AllocFailed};
use thiserror::Error;

/// Why a chain can't be followed.
#[derive(Clone, Copy, Debug, PartialEq, Eq, Error)]
pub enum RollRefusal {
    /// A call of the disk failed.
    #[error("a call of the disk failed")]
    DiskFault,
    /// No memory is left.
    #[error("no memory is left")]
    NoMemory,
}

impl From<DiskFault> for RollRefusal {
    ghost from_gives = { λ _ e. e ≡ Faulted };

    fn from(_: DiskFault) -> Self {
        RollRefusal::DiskFault
    }
}

impl<T: Drop> From<AllocFailed<T>> for RollRefusal {
    ghost from_gives = { λ _ e. e ≡ MemoryShort };

    fn from(_: AllocFailed<T>) -> Self {
        RollRefusal::NoMemory
    }
}
