//! A tour over all files of an image, in ascending order of their numbers: each inode and each node of nids is read again, and
//! each row of addresses is given to what is kept of the files. Begin with `tour_files`.
#![tactic(auto)]

mod file_rows;
mod times_named;
mod tour_of_files;

pub use tour_of_files::{Toured, tour_files};
