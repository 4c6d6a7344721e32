//! Calls of the libraries by themselves, for benchmarks and for tests against real images: the words say which call, how
//! large, and how often.
#![tactic(auto)]

mod chains;
mod directories;

use std::alloc::Global;
use std::process::ExitCode;

// What went wrong, as text.
pub(crate) enum Failed {
    // The words name no call.
    Usage,
    // A call was refused.
    Refused,
}

// A number of the words.
pub(crate) fn number(word: &str) -> Result<u32, Failed> {
    match word.parse::<u32>() {
        Ok(number) => Ok(number),
        Err(_) => Err(Failed::Usage),
    }
}

fn call(rt: &HostRuntime, alloc: Global, words: &[String]) -> Result<(), Failed> {
    match words {
        [call, names, times] if call.as_str() == "build" => {
            directories::build_often(rt, alloc, number(names.as_str())?, number(times.as_str())?)
        }
        [call, nodes, times] if call.as_str() == "chain" => {
            chains::follow_often(rt, alloc, number(nodes.as_str())?, number(times.as_str())?)
        }
        [call, names @ ..] if call.as_str() == "hash" => directories::put_hashes(rt, alloc, names),
        _ => Err(Failed::Usage),
    }
}

fn main(rt: HostRuntime) -> ExitCode {
    let alloc = rt.alloc();
    let words: Vec<String> = match std::env::args(&rt) {
        Ok(words) => match words.collect(alloc) {
            Ok(words) => words,
            Err(_) => return ExitCode::from(32),
        },
        Err(_) => Vec::new(alloc),
    };
    let rest: &[String] = if words.len() > 1 { &words[1..] } else { &[] };
    match call(&rt, alloc, rest) {
        Ok(()) => ExitCode::SUCCESS,
        Err(Failed::Usage) => {
            let _ = println!(rt;
                "usage: f2_measure build NAMES TIMES | chain NODES TIMES | hash DIGITS .."
            );
            ExitCode::from(16)
        }
        Err(Failed::Refused) => ExitCode::from(20),
    }
}
