// Why an image can't be checked.
ghost use Rattle.std.specs.Prelude.{◌≡◌};
ghost use Rattle.f2_defects.specs.Refusals.{view_refusal, roll_refusal};
ghost use Rattle.f2_defects.specs.declared.refusal.CheckRefusal.TheVariants.{DiskFault as Faulted, NoMemory as MemoryShort};

use f2_disk::DiskFault;
use f2_roll::RollRefusal;
use f2_view::ViewRefusal;
use std::alloc::{AllocError, AllocFailed};
use thiserror::Error;

/// Why an image can't be checked.
#[derive(Clone, Copy, Debug, PartialEq, Eq, Error)]
pub enum CheckRefusal {
    /// A call of the disk failed.
    #[error("a call of the disk failed")]
    DiskFault,
    /// No memory is left.
    #[error("no memory is left")]
    NoMemory,
}

impl From<DiskFault> for CheckRefusal {
    ghost from_gives = { λ _ e. e ≡ Faulted };

    fn from(_: DiskFault) -> Self {
        CheckRefusal::DiskFault
    }
}

impl From<AllocError> for CheckRefusal {
    ghost from_gives = { λ _ e. e ≡ MemoryShort };

    fn from(_: AllocError) -> Self {
        CheckRefusal::NoMemory
    }
}

impl<T: Drop> From<AllocFailed<T>> for CheckRefusal {
    ghost from_gives = { λ _ e. e ≡ MemoryShort };

    fn from(_: AllocFailed<T>) -> Self {
        CheckRefusal::NoMemory
    }
}

impl From<ViewRefusal> for CheckRefusal {
    ghost from_gives = { λ refusal e. e ≡ view_refusal refusal };

    fn from(refusal: ViewRefusal) -> Self {
        match refusal {
            ViewRefusal::DiskFault => CheckRefusal::DiskFault,
            ViewRefusal::NoMemory => CheckRefusal::NoMemory,
        }
    }
}

impl From<RollRefusal> for CheckRefusal {
    ghost from_gives = { λ refusal e. e ≡ roll_refusal refusal };

    fn from(refusal: RollRefusal) -> Self {
        match refusal {
            RollRefusal::DiskFault => CheckRefusal::DiskFault,
            RollRefusal::NoMemory => CheckRefusal::NoMemory,
        }
    }
}
