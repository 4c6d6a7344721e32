//! The rules on directories and names (10, 11 and the links of 9): the items of each directory are read once, with the
//! first place of each name, how many names each file has, and which directories lie above it.
//!
//! Begin with `Directories`, to which each directory and each file is given, in ascending order.
#![tactic(auto)]

mod ancestors;
mod directories;
mod directory_block;
mod item_reach;
mod name_counts;
mod name_places;
mod names_of_directories;
mod open_directory;
mod rule_10_directories;
mod rule_10_items;
mod rule_10_parts;
mod rule_11_loops;
mod rules_9_to_11_links;
mod visited_files;

pub use directories::Directories;
pub use rule_10_parts::check_directories;
pub use rule_11_loops::loop_defects;
pub use rules_9_to_11_links::{link_counts, name_defects, root_defects};
