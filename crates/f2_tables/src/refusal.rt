// Why a call of a table failed.
ghost use Rattle.std.specs.Prelude.{◌≡◌};
ghost use Rattle.f2_tables.specs.declared.refusal.TableRefusal.TheVariants.{DiskFault as Faulted, NoMemory as MemoryShort};

use f2_disk::DiskFault;
use std::alloc::{AllocError, AllocFailed};
use thiserror::Error;

/// Why a call of a table failed. The table is as it was before.
#[derive(Clone, Copy, Debug, PartialEq, Eq, Error)]
pub enum TableRefusal {
    /// A call of the disk failed.
    #[error("a call of the disk failed")]
    DiskFault,
    /// No memory is left.
    #[error("no memory is left")]
    NoMemory,
}

impl From<DiskFault> for TableRefusal {
    ghost from_gives = { λ _ e. e ≡ Faulted };

    fn from(_: DiskFault) -> Self {
        TableRefusal::DiskFault
    }
}

impl<T: Drop> From<AllocFailed<T>> for TableRefusal {
    ghost from_gives = { λ _ e. e ≡ MemoryShort };

    fn from(_: AllocFailed<T>) -> Self {
        TableRefusal::NoMemory
    }
}

impl From<AllocError> for TableRefusal {
    ghost from_gives = { λ _ e. e ≡ MemoryShort };

    fn from(_: AllocError) -> Self {
        TableRefusal::NoMemory
    }
}
