//! Numbers, bits, checksums and tables of fields in the bytes of an F2FS image, the test of a superblock copy, and
//! where the areas of an image lie. Nothing here takes memory.
//!
//! `specs/` has the definitions of the on-disk format that the contracts of all crates cite. The format is that of
//! the kernel's documentation, filesystems/f2fs, and of Lee et al., "F2FS: A New File System for Flash Storage"
//! (FAST 2015).
#![tactic(auto)]

mod aim;
mod bits;
mod checkpoint;
mod checksum;
mod fields;
mod laws;
mod layout;
mod readers;
mod superblock;

pub use aim::Aim;
pub use bits::{bit_lsb, bit_msb, count_bits, set_bit_lsb, set_bit_msb};
pub use checkpoint::{CHECKPOINT, checkpoint_rows_lie_apart};
pub use checksum::{crc, seal, sealed};
pub use fields::{Field, FieldTable};
pub use laws::{
    checked_is_mountable, free_segments_hold_no_support, moved_blocks_keep_the_tree,
    support_keeps_tree,
};
pub use layout::Layout;
pub use readers::{u8_at, u16_at, u32_at, u64_at};
pub use superblock::{SUPER, passes, superblock_rows_lie_apart};
use thiserror::Error;

/// The answer of a call that can be refused for memory alone.
#[derive(Clone, Copy, Debug, PartialEq, Eq, Error)]
#[error("no memory is left")]
pub struct NoMemory;
