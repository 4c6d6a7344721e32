//! The texts of the dumps: what a mounted image holds, as lines.
#![tactic(auto)]

mod blocks;
mod contents;
mod directories;
mod dumping;
mod entries;
mod gathering;
mod hex;
mod inodes;
mod lines;
mod names;
mod pending;
mod printing;
mod ranges;
mod summaries;
mod tables;
mod trees;
mod walking;

pub use dumping::{DumpRefusal, What, dump};
pub use entries::push_decimal;
pub use names::{checkpoint_names_are_known, inode_names_are_known};
pub use trees::dump_tree;
