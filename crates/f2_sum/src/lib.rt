//! The summary of a block of the main area, the entries of the node address table and the segment table, and the
//! journals of both as they stand in the summary blocks of a checkpoint pack. Nothing here takes memory.
//!
//! `f2_bytes` has the definitions of the format: `specs/Summary` and `specs/Journal`.
#![tactic(auto)]

mod bytes;
mod compact;
mod entries;
mod nat_journal;
mod records;
mod sit_journal;

pub use compact::compact_spot;
pub use entries::{put_summary, summary};
pub use nat_journal::NatJournal;
pub use records::{
    BadCount, NatEntry, NatRecord, SitEntry, SitRecord, Summary, nat_entry_at, nat_entry_bytes,
    sit_entry_at, sit_entry_bytes, summary_at,
};
pub use sit_journal::SitJournal;
