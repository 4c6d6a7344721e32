//! The node address table and the segment table as they are read through their journals and what was set since, and
//! the blocks of the segment summary area.
//!
//! A table lies on the disk in two copies of each block; a bitmap of the checkpoint says which one is in use.
#![tactic(auto)]

mod nat;
mod newer;
mod put;
mod refusal;
mod sit;
mod ssa;

pub use f2_sum::NatEntry;
pub use nat::Nat;
pub use put::{put_nat, put_sit};
pub use refusal::TableRefusal;
pub use sit::Sit;
pub use ssa::ssa_read;
