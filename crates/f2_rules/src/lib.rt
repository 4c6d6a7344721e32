//! The rules from the third on, over what is found of an image while they are looked at one after the other.
//!
//! `node_defects` looks at the third rule, and finds what the rules after it ask of the nodes and the files: a `Work`. The
//! defects by each later rule are those of `rule_defects`.
#![tactic(auto)]

mod later_rules;
mod rule_3_and_tour;
mod rule_4_repeats;
mod work;

pub use later_rules::rule_defects;
pub use rule_3_and_tour::node_defects;
pub use work::Work;
