//! Laws that a resize rests on: what its moves of logs and its last part leave is checked, with the
//! same tree.
//!
//! A resize takes three steps. Logs in segments that fall away go on in free ones, in one commit.
//! The blocks in use there are moved, batch by batch. In the last part the areas are laid anew,
//! while the blocks of the main area stay where they are. The sizes that it aims at and the
//! segments that it needs stand in f2_bytes (specs/Resize); here specs/MovedLogs has the first
//! step, specs/Emptied what stands before the last part, and specs/Relaid with
//! specs/CopiedSummaries what the last part leaves.
//!
//! Each law is the contract of a call that takes nothing and does nothing: a proof cites it. Begin
//! with `relaid_areas_keep_the_tree`; `emptied_images_have_room`, `copies_of_aims_pass` and
//! `copied_summaries_stay` give what it asks for.
#![tactic(auto)]

mod laws;

pub use laws::{
    aims_are_in_order, copied_summaries_stay, copies_of_aims_pass, emptied_images_have_room,
    moved_logs_keep_the_tree, relaid_areas_have_no_chain, relaid_areas_keep_the_tree,
};
