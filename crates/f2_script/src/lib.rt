//! Runs files of cases: each lays out a disk, runs a command line or calls a library, and says what is to come of it.
//! docs/CASES.md has the language. Begin with `Runner::new`, give each file's text to `run_file`, and ask at the end for
//! `passed` and `failures`.
#![tactic(auto)]

mod bench;
mod calls;
mod counts;
mod each;
mod expected;
mod job_text;
mod laying;
mod lines;
mod names;
mod numbers;
mod runner;
mod runs;
mod slip;
mod text_lines;
mod user_image;

pub use runner::Runner;
