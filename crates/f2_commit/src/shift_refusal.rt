// Why blocks can't be moved.
ghost use Rattle.std.specs.Prelude.{◌≡◌};
ghost use Rattle.f2_commit.specs.ShiftRefusals.{of_table, of_view, of_prepare};
ghost use Rattle.f2_commit.specs.declared.shift_refusal.ShiftRefusal.TheVariants.{DiskFault as Faulted, NoMemory as MemoryShort};

use f2_bytes::NoMemory;
use f2_change::PrepareRefusal;
use f2_disk::DiskFault;
use f2_tables::TableRefusal;
use f2_view::ViewRefusal;
use std::alloc::{AllocError, AllocFailed};
use thiserror::Error;

/// Why blocks can't be moved.
#[derive(Clone, Copy, Debug, PartialEq, Eq, Error)]
pub enum ShiftRefusal {
    /// A call of the disk failed. The image is checked, with the same tree.
    #[error("a call of the disk failed")]
    DiskFault,
    /// No memory is left. Nothing was written.
    #[error("no memory is left")]
    NoMemory,
}

impl From<ViewRefusal> for ShiftRefusal {
    ghost from_gives = { λ refusal e. e ≡ of_view refusal };

    fn from(refusal: ViewRefusal) -> Self {
        match refusal {
            ViewRefusal::DiskFault => ShiftRefusal::DiskFault,
            ViewRefusal::NoMemory => ShiftRefusal::NoMemory,
        }
    }
}

impl From<TableRefusal> for ShiftRefusal {
    ghost from_gives = { λ refusal e. e ≡ of_table refusal };

    fn from(refusal: TableRefusal) -> Self {
        match refusal {
            TableRefusal::DiskFault => ShiftRefusal::DiskFault,
            TableRefusal::NoMemory => ShiftRefusal::NoMemory,
        }
    }
}

impl From<PrepareRefusal> for ShiftRefusal {
    ghost from_gives = { λ refusal e. e ≡ of_prepare refusal };

    fn from(refusal: PrepareRefusal) -> Self {
        match refusal {
            PrepareRefusal::DiskFault => ShiftRefusal::DiskFault,
            PrepareRefusal::NoMemory => ShiftRefusal::NoMemory,
        }
    }
}

impl From<DiskFault> for ShiftRefusal {
    ghost from_gives = { λ _ e. e ≡ Faulted };

    fn from(_: DiskFault) -> Self {
        ShiftRefusal::DiskFault
    }
}

impl From<NoMemory> for ShiftRefusal {
    ghost from_gives = { λ _ e. e ≡ MemoryShort };

    fn from(_: NoMemory) -> Self {
        ShiftRefusal::NoMemory
    }
}

impl From<AllocError> for ShiftRefusal {
    ghost from_gives = { λ _ e. e ≡ MemoryShort };

    fn from(_: AllocError) -> Self {
        ShiftRefusal::NoMemory
    }
}

impl<T: Drop> From<AllocFailed<T>> for ShiftRefusal {
    ghost from_gives = { λ _ e. e ≡ MemoryShort };

    fn from(_: AllocFailed<T>) -> Self {
        ShiftRefusal::NoMemory
    }
}
