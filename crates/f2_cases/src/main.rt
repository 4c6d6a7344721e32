//! Runs the files of cases that the words name, and prints each case that fails and how many passed.
#![tactic(auto)]

use f2_script::Runner;
use std::alloc::Global;
use std::fs;
use std::process::ExitCode;

// The names of the files.
fn names(rt: &HostRuntime, alloc: Global) -> Option<Vec<String>> {
    let words = std::env::args(rt).ok()?;
    words.collect(alloc).ok()
}

// Runs all files. The answer is whether each could be read, and memory sufficed.
fn run_all(rt: &HostRuntime, alloc: Global, runner: &mut Runner) -> bool {
    let Some(names) = names(rt, alloc) else {
        return false;
    };
    for name in names.iter().skip(1) {
        match fs::read_to_string(rt, name.as_str()) {
            Ok(text) if runner.run_file(alloc, name.as_str(), text.as_str()) => {}
            _ => {
                let _ = println!(rt; "{name} could not be read or run");
                return false;
            }
        }
    }
    true
}

fn main(rt: HostRuntime) -> ExitCode {
    let alloc = rt.alloc();
    let mut runner = Runner::new(alloc);
    let whole = run_all(&rt, alloc, &mut runner);
    for failure in runner.failures() {
        let _ = println!(rt; "{failure}");
    }
    let failed = runner.failures().len();
    let passed = runner.passed();
    if failed > 0 {
        let _ = println!(rt; "{failed} cases failed");
    }
    let _ = println!(rt; "{passed} cases passed");
    ExitCode::from(u8::from(!whole || failed > 0))
}
