//! What moves with the blocks at some addresses of a checked image: the blocks of files among them, and the nodes that stand
//! there, that hold the address of such a block, or whose extent covers one. Begin with `gather`, which lists them, or with
//! `weigh`, which counts them.
#![tactic(auto)]

mod coverings;
mod gathering;
mod segments;
mod weighing;

pub use coverings::{covers, put_in_order};
pub use gathering::{Gathered, MovedBlock, gather};
pub use weighing::{Weight, weigh};
