//! The rules on what a file's slots name (4, and the blocks and extents of 9): rows of address words are taken slot by slot.
//!
//! Begin with `Files`: on the first tour it keeps what the rules ask, on two more how often each address is claimed.
#![tactic(auto)]

mod address_rows;
mod files;
mod kept_of_files;
mod repeated_claims;
mod rule_4_addresses;
mod rule_9_blocks;
mod rule_9_extents;
mod slots;

pub use address_rows::{Row, direct_before};
pub use files::Files;
pub use kept_of_files::Kept;
pub use repeated_claims::{Claims, Repeats};
