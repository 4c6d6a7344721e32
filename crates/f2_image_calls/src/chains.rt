// The chain of nodes behind a checkpoint.
use crate::areas::layout_on;
use crate::words::{number, of_memory};
use f2_case_disk::{CallError, CaseDisk};
use f2_roll::{RollRefusal, chain};
use std::alloc::Global;

// How many nodes it has, their addresses, the last one, and where it stops.
pub(crate) fn put_chain(
    alloc: Global,
    disk: &mut CaseDisk,
    words: &[String],
    text: &mut String,
) -> Result<(), CallError> {
    let [head] = words else {
        return Err(CallError::Words);
    };
    let head = disk.get(number(head.as_str())?);
    let copy = disk.get(0);
    let l = layout_on(disk, &copy)?;
    let found = match chain(alloc, disk, &l, &head) {
        Ok(found) => found,
        Err(RollRefusal::DiskFault) => return Err(CallError::DiskFault),
        Err(RollRefusal::NoMemory) => return Err(CallError::NoMemory),
    };
    writeln!(text, "count {}", found.nodes().len()).map_err(of_memory)?;
    text.push_str("nodes").map_err(of_memory)?;
    for address in found.nodes() {
        write!(text, " {address}").map_err(of_memory)?;
    }
    text.push_str("\n").map_err(of_memory)?;
    match found.nodes().last() {
        Some(last) => writeln!(text, "last {last}"),
        None => writeln!(text, "last none"),
    }
    .map_err(of_memory)?;
    match found.stop() {
        Some(stop) => writeln!(text, "stop {stop}"),
        None => writeln!(text, "stop none"),
    }
    .map_err(of_memory)
}
