//! A disk of blocks and a sink of bytes, as all jobs see them, and fakes of both for tests.
//!
//! `specs/Disk` says what a disk means: its length, its blocks as read, whether a write is pending, the images that a
//! crash may leave, and two counts, of faults and of writes. `proofs/Runs` has the lemmas by which a run of calls is
//! put together.
#![tactic(auto)]

mod block;
mod calls;
mod calm;
mod disk;
mod memory;
mod sink;
mod stop;

pub use block::Block;
pub use calm::CalmDisk;
pub use disk::{Disk, DiskFault};
pub use memory::{Event, MemoryDisk};
pub use sink::{MemorySink, Sink, SinkFault};
pub use stop::{StopDisk, Torn};
