//! What the crates that run cases share: a disk whose blocks a case lays out, the answer of a library call where it
//! can't be made, and the reading of numbers and writing of lines.
//!
//! Begin with `CaseDisk::new`. It tells nothing of its blocks, so what is called on it owes nothing that is said of the
//! image of a disk: nobody has to show that the blocks of a case are a checked image.
#![tactic(auto)]

mod case_disk;
mod error;
mod text;

pub use case_disk::{CallKind, CaseDisk};
pub use error::CallError;
pub use text::{hexadecimal_of, number_of};
