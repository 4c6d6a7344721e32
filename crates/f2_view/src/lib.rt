//! The mount: an image as it is read through its superblock and its checkpoint pack.
#![tactic(auto)]

mod accessors;
mod directories;
mod files;
mod mounting;
mod readings;
mod summaries;

pub use accessors::Mount;
pub use directories::Named;
pub use mounting::{MountRefusal, mount};
pub use readings::ViewRefusal;
