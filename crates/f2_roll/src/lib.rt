//! Roll-forward: the chain of the nodes that were written after the checkpoint, each of which names the address of the
//! next one.
//!
//! `f2_bytes` has the definitions: `specs/RollForward`.
#![tactic(auto)]

mod following;
mod links;
mod nodes;
mod refusal;
mod walked;

pub use following::chain;
pub use nodes::Chain;
pub use refusal::RollRefusal;
