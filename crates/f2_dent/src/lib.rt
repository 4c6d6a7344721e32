//! Directories: the hash of a name, the buckets where it may stand, the items in a block or an inline area, and the
//! blocks of a new directory.
//!
//! `f2_bytes` has the definitions of the format: `specs/Names`, `specs/Directory` and `specs/Buckets`.
#![tactic(auto)]

mod buckets;
mod building;
mod hash;
mod names;
mod page;
mod placing;
mod scan;

pub use buckets::{bucket_range, level_of};
pub use building::{BuildRefusal, Built, Entry, build};
pub use hash::name_hash;
pub use names::Name;
pub use scan::{DirScan, Item};
