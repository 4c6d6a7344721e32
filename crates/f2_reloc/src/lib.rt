//! A range of block addresses is emptied: what stands there moves to free segments, batch by batch.
#![tactic(auto)]

mod batches;
mod emptying;
mod moving;
mod targets;

pub use batches::Range;
pub use emptying::defrag;
