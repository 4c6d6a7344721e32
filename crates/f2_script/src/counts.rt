// How many words a statement has.
use crate::lines::Line;
use crate::slip::Slip;
use std::alloc::Global;

// The least and the largest count of words of a statement, with its first one.
fn counts(verb: &str) -> (usize, usize) {
    match verb {
        "wrong" | "unchanged" => (1, 1),
        "disk" | "memory" | "calm" | "on" | "seal" | "lay" | "each" | "same" => (2, 2),
        "calls" | "writes" | "syncs" | "length" | "lines" => (2, 2),
        "let" | "copy" | "stop" | "given" | "alike" => (3, 3),
        "text" | "istext" => (4, 4),
        "fill" | "sum" => (5, 5),
        "image" => (2, 4),
        "at" | "n2" | "n4" | "n8" | "is" | "is2" | "is4" | "is8" => (4, usize::MAX),
        "fail" | "noput" | "do" | "make" | "call" | "=" | "names" => (2, usize::MAX),
        _ => (1, usize::MAX),
    }
}

// A statement has as many words as it needs.
pub(crate) fn need_words(alloc: Global, line: &Line) -> Result<(), Slip> {
    let (least, most) = counts(line.verb());
    let count = line.words.len();
    if least <= count && count <= most {
        return Ok(());
    }
    let verb = line.verb();
    Err(Slip::Wrong(format!(in alloc; "`{verb}` has {count} words")?))
}
