//! The reading of all nodes of an image, by their numbers: what the check, the free segments and a plan to mend an image
//! have in common.
//!
//! Each node is read once. What is kept: each number's entry with what its node says of itself (`Nodes`), how many nodes
//! each file has (`Tally`), which node each block of the main area belongs to (`Owners`), which nid slots name a node, and
//! the defects by the third rule. Begin with `survey`.
#![tactic(auto)]

mod known_nodes;
mod nid_slot_names;
mod node_counts;
mod node_reading;
mod node_words;
mod nodes;
mod owners;
mod rule_3_nodes;
mod survey_so_far;

pub use known_nodes::known_node;
pub use nid_slot_names::{Name, push_names};
pub use node_counts::Tally;
pub use node_reading::survey;
pub use nodes::Nodes;
pub use owners::{Owner, Owners};
pub use rule_3_nodes::NodeDefects;
pub use survey_so_far::Survey;
