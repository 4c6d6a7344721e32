//! The rules on what stands beside the files: the superblock copies (1), the checkpoint (2), the marks of the segment table
//! (5), the summaries (6), the counts of the checkpoint (7) and the logs (8). Each rule has a file and a call of its own.
#![tactic(auto)]

mod rule_1_copies;
mod rule_2_checkpoint;
mod rule_5_validity;
mod rule_6_summaries;
mod rule_7_counts;
mod rule_8_logs;
mod segments;

pub use rule_1_copies::copy_defects;
pub use rule_2_checkpoint::checkpoint_defects;
pub use rule_5_validity::check_validity;
pub use rule_6_summaries::check_summaries;
pub use rule_7_counts::{Totals, check_counts};
pub use rule_8_logs::check_logs;
