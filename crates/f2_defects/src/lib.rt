//! What a check of an image answers: a verdict, the defects by a rule as they are found, and why there is none.
//!
//! A `Collector` keeps the first 64 defects of each part of a rule, and counts all. Begin with `Collector::new`.
#![tactic(auto)]

mod collector;
mod refusal;
mod verdict;

pub use collector::{Collector, Defect};
pub use refusal::CheckRefusal;
pub use verdict::Verdict;
