//! Node blocks: the footer of a node, the fields of an inode, and where the blocks of a file have their addresses.
//! Nothing here takes memory.
//!
//! `f2_bytes` has the definitions of the format: `specs/Node`.
#![tactic(auto)]

mod footers;
mod inode;
mod kinds;
mod laws;
mod places;
mod puts;
mod records;
mod spots;
mod words;

pub use footers::{FOOTER, footer, footer_rows_lie_apart, set_footer};
pub use inode::{
    INODE, addresses, inline_range, inode_field, inode_rows_lie_apart, set_inode_field, set_word,
    word,
};
pub use kinds::kind;
pub use laws::{slots_lie_before_the_inline_attributes, three_steps_lead_to_the_inode};
pub use places::{address_at, has_bytes, has_slots, is_inline, nid_at};
pub use records::{Footer, Kind, Spot};
pub use spots::{locate, parent_of};
pub use words::words_used;
