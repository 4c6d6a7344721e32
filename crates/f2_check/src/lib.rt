//! The check of an image: twelve rules, each of which is looked at where the image meets all rules before it.
//!
//! Begin with `check`. The definition of a checked image stands in f2_bytes, specs/Check. The rules stand in the crates below:
//! on nodes in f2_survey, on addresses, blocks and extents in f2_files, on directories and names in f2_items, on the other areas
//! in f2_areas; f2_tour visits the files for them, f2_rules puts each rule together, and f2_defects has the verdict.
#![tactic(auto)]

mod checking;

pub use checking::{check, check_body};
pub use f2_defects::{CheckRefusal, Defect, Verdict};
