// What a checkpoint changes, and why it can't be prepared.
ghost use Rattle.std.specs.Prelude.{◌≡◌};
ghost use Rattle.f2_change.specs.Refusals.{of_table, of_view};
ghost use Rattle.f2_change.specs.declared.change.PrepareRefusal.TheVariants.{DiskFault as Faulted, NoMemory as MemoryShort};

use f2_bytes::NoMemory;
use f2_disk::{Block, DiskFault};
use f2_pack::Log;
use f2_sum::SitEntry;
use f2_tables::{NatEntry, TableRefusal};
use f2_view::ViewRefusal;
use std::alloc::{AllocError, AllocFailed};
use thiserror::Error;

/// What a checkpoint changes. Where a list names a number twice, its last entry counts.
#[derive(Drop)]
pub struct Change {
    /// New entries of the node address table, by the numbers of their nodes.
    pub nat: Vec<(u32, NatEntry)>,
    /// New entries of the segment table, by their main segments, counted from 0.
    pub sit: Vec<(u32, SitEntry)>,
    /// New blocks of the main area, by their addresses.
    pub blocks: Vec<(u32, Block)>,
    /// New summary blocks, by their main segments.
    pub sums: Vec<(u32, Block)>,
    /// The six logs.
    pub logs: [Log; 6],
    /// The counts of the checkpoint.
    pub counts: Counts,
}

/// The counts of a checkpoint.
#[derive(Clone, Copy, Debug, PartialEq, Eq)]
pub struct Counts {
    /// How many blocks users may have.
    pub user: u64,
    /// How many blocks are valid.
    pub valid: u64,
    /// How many nodes there are.
    pub nodes: u32,
    /// How many of them are inodes.
    pub inodes: u32,
    /// How many main segments are free.
    pub free: u32,
    /// From where on the number of a new node is looked for.
    pub next_nid: u32,
}

/// Why a checkpoint can't be prepared. Nothing was written.
#[derive(Clone, Copy, Debug, PartialEq, Eq, Error)]
pub enum PrepareRefusal {
    /// A call of the disk failed.
    #[error("a call of the disk failed")]
    DiskFault,
    /// No memory is left.
    #[error("no memory is left")]
    NoMemory,
}

impl From<TableRefusal> for PrepareRefusal {
    ghost from_gives = { λ refusal e. e ≡ of_table refusal };

    fn from(refusal: TableRefusal) -> Self {
        match refusal {
            TableRefusal::DiskFault => PrepareRefusal::DiskFault,
            TableRefusal::NoMemory => PrepareRefusal::NoMemory,
        }
    }
}

impl From<ViewRefusal> for PrepareRefusal {
    ghost from_gives = { λ refusal e. e ≡ of_view refusal };

    fn from(refusal: ViewRefusal) -> Self {
        match refusal {
            ViewRefusal::DiskFault => PrepareRefusal::DiskFault,
            ViewRefusal::NoMemory => PrepareRefusal::NoMemory,
        }
    }
}

impl From<DiskFault> for PrepareRefusal {
    ghost from_gives = { λ _ e. e ≡ Faulted };

    fn from(_: DiskFault) -> Self {
        PrepareRefusal::DiskFault
    }
}

impl From<NoMemory> for PrepareRefusal {
    ghost from_gives = { λ _ e. e ≡ MemoryShort };

    fn from(_: NoMemory) -> Self {
        PrepareRefusal::NoMemory
    }
}

impl From<AllocError> for PrepareRefusal {
    ghost from_gives = { λ _ e. e ≡ MemoryShort };

    fn from(_: AllocError) -> Self {
        PrepareRefusal::NoMemory
    }
}

impl<T: Drop> From<AllocFailed<T>> for PrepareRefusal {
    ghost from_gives = { λ _ e. e ≡ MemoryShort };

    fn from(_: AllocFailed<T>) -> Self {
        PrepareRefusal::NoMemory
    }
}
