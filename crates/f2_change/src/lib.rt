//! A change of an image as a new checkpoint. Begin with `prepare`, which makes the checkpoint that carries a `Change` ready,
//! without a write; `commit` writes it, so that a crash at any moment leaves the old image with its support unchanged, or the
//! new one whole.
#![tactic(auto)]

mod change;
mod committing;
mod given;
mod heads;
mod preparing;
mod ready;
mod summaries;
mod tables;

pub use change::{Change, Counts, PrepareRefusal};
pub use committing::commit;
pub use preparing::prepare;
pub use ready::Ready;
pub use summaries::{log_block, was_log};
