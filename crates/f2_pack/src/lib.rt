//! The checkpoint packs: choosing the one that counts, what is kept of it, and writing a new one.
//!
//! `f2_bytes` has the definitions of the format: `specs/Checkpoint`, `specs/Journal` and `specs/Summary`. Here
//! `specs/Held` says what is kept of a pack, `specs/Choice` which pack that is, and `specs/Written` what is written.
#![tactic(auto)]

mod checkpoint;
mod choosing;
mod chosen;
mod flags;
mod laws;
mod reading;
mod validity;
mod writing;

pub use checkpoint::{Checkpoint, Log};
pub use choosing::{PackRefusal, choose};
pub use chosen::Chosen;
pub use laws::{
    higher_pack_counts, pack_reads_its_blocks, pack_summaries_are_kept, written_pack_is_read,
};
pub use writing::{NewPack, write_body, write_head};
