//! The segments that an image leaves free for what is to be written. Each segment is marked that a log fills, that a block
//! in use stands in, or that a node written after the checkpoint stands in; the others are free. Begin with `free`.
//! `chain_nodes` and `counting` answer which nodes stand behind the checkpoint, and which of them count.
#![tactic(auto)]

mod chain_reading;
mod free_segments;
mod fsyncs;
mod marking;
mod marks;
mod rolling;
mod slots;

pub use chain_reading::{ChainNode, chain_nodes};
pub use free_segments::free;
pub use fsyncs::counting;
pub use slots::is_direct;
