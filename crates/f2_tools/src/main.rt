//! The program f2tools: a file or memory as the disk, standard output as the sink, and the words of the command line.
#![tactic(auto)]

mod ahead;
mod file_disk;
mod fresh;
mod memory_image;
mod stdout_sink;
#[cfg(test)]
mod tests;

use f2_disk::MemoryDisk;
use f2_top::{Answer, run};
use file_disk::FileDisk;
use fresh::{fresh_uuid, time};
use memory_image::memory_blocks;
use std::alloc::Global;
use std::fs::File;
use std::io;
use std::process::ExitCode;
use stdout_sink::StdoutSink;

// The words of the command line, the program's name first. Words that are no text name no job, as no words do.
fn words(rt: &HostRuntime, alloc: Global) -> Result<Vec<String>, Answer> {
    match std::env::args(rt) {
        Ok(words) => words.collect(alloc).map_err(|_| Answer::NoMemory),
        Err(error) if error.kind() == io::ErrorKind::OutOfMemory => Err(Answer::NoMemory),
        Err(_) => Ok(Vec::new(alloc)),
    }
}

// Runs the words behind the image, which is a file, or zeros in memory.
fn answer(rt: &HostRuntime, alloc: Global) -> Answer {
    let words = match words(rt, alloc) {
        Ok(words) => words,
        Err(answer) => return answer,
    };
    let image = match words.get(1) {
        Some(image) => image.as_str(),
        None => "",
    };
    let rest: &[String] = if words.len() > 2 { &words[2..] } else { &[] };
    let mut out = StdoutSink::new(rt.stdout());
    let now = time(rt);
    let (moment, id) = (now.as_secs(), fresh_uuid(now.as_nanos()));
    match memory_blocks(image) {
        Some(blocks) => {
            let mut disk = MemoryDisk::new(alloc, blocks, Vec::new(alloc));
            run(alloc, rest, &mut disk, &mut out, moment, id)
        }
        None => {
            let mut disk = FileDisk::open(rt, image);
            run(alloc, rest, &mut disk, &mut out, moment, id)
        }
    }
}

fn main(rt: HostRuntime) -> ExitCode {
    // A file that is opened takes the least number that is free: were standard output closed, the image would get its
    // number, and the text would go into the image. These three take the places of the standard streams.
    let _input = File::open(&rt, "/");
    let _output = File::open(&rt, "/");
    let _errors = File::open(&rt, "/");
    let alloc = rt.alloc();
    ExitCode::from(answer(&rt, alloc).status())
}
