//! Blocks of an image move to free segments: `shift` moves those at some addresses, with the nodes that name them, as one
//! change that is prepared and committed. What a caller needs beside it stands in the crates below and is named here too:
//! `free`, the free segments; `weigh`, how many blocks move; `prepare` and `commit`, for any other change.
#![tactic(auto)]

mod free_nids;
mod laws;
mod moved_blocks;
mod moved_nodes;
mod moved_segments;
mod relocating;
mod shift_refusal;
mod shifting;

pub use f2_change::{Change, Counts, PrepareRefusal, Ready, commit, prepare};
pub use f2_free::{ChainNode, chain_nodes, counting, free};
pub use f2_gather::{Weight, weigh};
pub use laws::{free_segments_spare_their_summaries, moves_follow_each_other};
pub use relocating::{Moved, RelocRefusal};
pub use shift_refusal::ShiftRefusal;
pub use shifting::shift;
