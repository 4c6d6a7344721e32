// A change that is being written, kept as text in a block of the disk.
use crate::failures::of_memory;
use crate::words::number;
use f2_case_disk::{CallError, CaseDisk};
use f2_disk::Block;
use std::alloc::Global;

// The text of a block: its bytes before the first 0.
pub(crate) fn text_of(block: &Block) -> Result<&str, CallError> {
    let bytes = block.bytes();
    let kept = match bytes.iter().position(|byte| *byte == 0) {
        Some(end) => &bytes[..end],
        None => bytes,
    };
    std::str::from_utf8(kept).map_err(|_| CallError::Words)
}

// The words as a line.
fn line_of(alloc: Global, words: &[String]) -> Result<String, CallError> {
    let mut line = String::new(alloc);
    for word in words {
        if !line.is_empty() {
            line.push(' ').map_err(of_memory)?;
        }
        line.push_str(word.as_str()).map_err(of_memory)?;
    }
    line.push('\n').map_err(of_memory)?;
    Ok(line)
}

// Puts a part of a change behind those that the block already has.
pub(crate) fn keep(
    alloc: Global,
    disk: &mut CaseDisk,
    words: &[String],
) -> Result<String, CallError> {
    let (at, part) = match words {
        [at, part @ ..] => (number(at.as_str())?, part),
        _ => return Err(CallError::Words),
    };
    if at >= disk.blocks() || part.is_empty() {
        return Err(CallError::Words);
    }
    let mut block = disk.get(at);
    let end = text_of(&block)?.len();
    let line = line_of(alloc, part)?;
    if line.len() > 4096 || end > 4096 - line.len() {
        return Err(CallError::Words);
    }
    block.put(end, line.as_bytes());
    disk.set(at, &block)?;
    Ok(String::new(alloc))
}
