//! The top call of f2tools: it reads the words of a command line, does the job that they name on any disk, and puts
//! the text of its answer into any sink. `job` tells the job alone. docs/COMMANDS.md has the words, texts and statuses.
#![tactic(auto)]

mod answer;
mod checks;
mod commands;
mod dumps;
mod features;
mod jobs;
mod mounts;
mod moves;
mod new_images;
mod numbers;
mod report;
mod super_copies;
mod top;
mod words;

pub use answer::{Answer, Refusal};
pub use jobs::{Job, WordsRefusal};
pub use top::run;
pub use words::job;
