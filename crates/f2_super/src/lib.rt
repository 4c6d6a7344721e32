//! The superblock copies in blocks 0 and 1: reading and writing one, loading the one that counts, and repairing the
//! other. Nothing here takes memory.
#![tactic(auto)]

mod copies;
mod features;
mod loading;
mod making;
mod sizes;
mod sizing;

pub use copies::{Super, read_copy, write_copy};
pub use loading::{Found, SuperRefusal, load, repair};
pub use making::new_super;
pub use sizes::{Geometry, GeometryRefusal};
pub use sizing::{geometry, geometry_of};
