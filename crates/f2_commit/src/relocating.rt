// What comes of moving the blocks of many batches.
ghost use Rattle.std.specs.Prelude.{◌≡◌};
ghost use Rattle.f2_commit.specs.RelocRefusals.{of_shift, of_view, of_roll};
ghost use Rattle.f2_commit.specs.declared.relocating.RelocRefusal.TheVariants.{NoMemory as MemoryShort};

use crate::ShiftRefusal;
use f2_roll::RollRefusal;
use f2_view::ViewRefusal;
use std::alloc::{AllocError, AllocFailed};
use thiserror::Error;

/// How much moved.
#[derive(Clone, Copy, Debug, PartialEq, Eq)]
pub struct Moved {
    /// The blocks that were to move when their batch began.
    pub blocks: u64,
    /// The batches with such a block.
    pub batches: u64,
}

/// Why batches of blocks can't move.
#[derive(Clone, Copy, Debug, PartialEq, Eq, Error)]
pub enum RelocRefusal {
    /// The moves need `need` free segments, and there are `have`. Nothing was written.
    #[error("the moves need {need} free segments, and there are {have}")]
    NoSpace { need: u64, have: u64 },
    /// A call of the disk failed.
    #[error("a call of the disk failed")]
    DiskFault,
    /// No memory is left.
    #[error("no memory is left")]
    NoMemory,
}

impl From<ShiftRefusal> for RelocRefusal {
    ghost from_gives = { λ refusal e. e ≡ of_shift refusal };

    fn from(refusal: ShiftRefusal) -> Self {
        match refusal {
            ShiftRefusal::DiskFault => RelocRefusal::DiskFault,
            ShiftRefusal::NoMemory => RelocRefusal::NoMemory,
        }
    }
}

impl From<ViewRefusal> for RelocRefusal {
    ghost from_gives = { λ refusal e. e ≡ of_view refusal };

    fn from(refusal: ViewRefusal) -> Self {
        match refusal {
            ViewRefusal::DiskFault => RelocRefusal::DiskFault,
            ViewRefusal::NoMemory => RelocRefusal::NoMemory,
        }
    }
}

impl From<RollRefusal> for RelocRefusal {
    ghost from_gives = { λ refusal e. e ≡ of_roll refusal };

    fn from(refusal: RollRefusal) -> Self {
        match refusal {
            RollRefusal::DiskFault => RelocRefusal::DiskFault,
            RollRefusal::NoMemory => RelocRefusal::NoMemory,
        }
    }
}

impl From<AllocError> for RelocRefusal {
    ghost from_gives = { λ _ e. e ≡ MemoryShort };

    fn from(_: AllocError) -> Self {
        RelocRefusal::NoMemory
    }
}

impl<T: Drop> From<AllocFailed<T>> for RelocRefusal {
    ghost from_gives = { λ _ e. e ≡ MemoryShort };

    fn from(_: AllocFailed<T>) -> Self {
        RelocRefusal::NoMemory
    }
}
