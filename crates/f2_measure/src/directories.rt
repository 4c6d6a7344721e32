// Building directories, and the hashes of names.
use crate::Failed;
use f2_dent::{Entry, Name, build, name_hash};
use std::alloc::Global;

// The levels of a directory that is built.
const LEVELS: u32 = 25;

// An entry with a name of its own.
fn entry(alloc: Global, number: u32) -> Result<Entry, Failed> {
    let Ok(text) = format!(in alloc; "file-{number}.txt") else {
        return Err(Failed::Refused);
    };
    match Name::new(text.as_bytes()) {
        Some(name) => Ok(Entry {
            name,
            ino: number,
            kind: 1,
        }),
        None => Err(Failed::Refused),
    }
}

fn entries(alloc: Global, names: u32) -> Result<Vec<Entry>, Failed> {
    let mut entries = Vec::new(alloc);
    for number in 0..names {
        let entry = entry(alloc, number)?;
        if entries.push(entry).is_err() {
            return Err(Failed::Refused);
        }
    }
    Ok(entries)
}

/// Builds a directory of so many names so often, and puts how many blocks it has.
pub fn build_often(rt: &HostRuntime, alloc: Global, names: u32, times: u32) -> Result<(), Failed> {
    let entries = entries(alloc, names)?;
    let mut blocks = 0;
    let mut depth = 0;
    for _ in 0..times {
        match build(alloc, &entries, LEVELS) {
            Ok(built) => {
                blocks = built.blocks.len();
                depth = built.depth;
            }
            Err(_) => return Err(Failed::Refused),
        }
    }
    match println!(rt; "names {names} blocks {blocks} depth {depth}") {
        Ok(()) => Ok(()),
        Err(_) => Err(Failed::Refused),
    }
}

// The bytes of a name, from two hexadecimal digits for each.
fn bytes_of(alloc: Global, digits: &str) -> Result<Vec<u8>, Failed> {
    let mut bytes = Vec::new(alloc);
    for pair in digits.as_bytes().chunks(2) {
        let Ok(text) = std::str::from_utf8(pair) else {
            return Err(Failed::Usage);
        };
        let Ok(byte) = u8::from_str_radix(text, 16) else {
            return Err(Failed::Usage);
        };
        if bytes.push(byte).is_err() {
            return Err(Failed::Refused);
        }
    }
    Ok(bytes)
}

/// Puts the hash of each name; the words give the names' bytes as hexadecimal digits.
pub fn put_hashes(rt: &HostRuntime, alloc: Global, names: &[String]) -> Result<(), Failed> {
    for name in names {
        let bytes = bytes_of(alloc, name.as_str())?;
        let hash = name_hash(&bytes);
        if println!(rt; "{hash}").is_err() {
            return Err(Failed::Refused);
        }
    }
    Ok(())
}
