// The call of f2_dent that builds a directory.
use crate::words::{Words, put_block};
use f2_case_disk::{CallError, CaseDisk, number_of};
use f2_dent::{BuildRefusal, Built, DirScan, Entry, Name, build};
use std::alloc::Global;

// The number of a part of a word.
fn number(digits: &str) -> Result<u64, CallError> {
    number_of(digits).ok_or(CallError::Words)
}

// The parts of a word before and behind a mark.
fn split<'a>(word: &'a str, mark: char) -> Result<(&'a str, &'a str), CallError> {
    word.rsplit_once(mark).ok_or(CallError::Words)
}

// The entry that a word `NAME=INO/TYPE` says.
fn named_entry(name: &str, rest: &str) -> Result<Entry, CallError> {
    let (ino, kind) = split(rest, '/')?;
    Ok(Entry {
        name: Name::new(name.as_bytes()).ok_or(CallError::Words)?,
        ino: u32::try_from(number(ino)?).map_err(|_| CallError::Words)?,
        kind: u8::try_from(number(kind)?).map_err(|_| CallError::Words)?,
    })
}

// Entry `k` of those with numbered names, with a name of so many bytes.
fn numbered_entry(k: u32, len: u64) -> Result<Entry, CallError> {
    if k >= 1000 || len < 3 || len > 255 {
        return Err(CallError::Words);
    }
    let mut name = [b'n'; 255];
    name[0] = b'0' + (k / 100) as u8;
    name[1] = b'0' + (k / 10 % 10) as u8;
    name[2] = b'0' + (k % 10) as u8;
    Ok(Entry {
        name: Name::new(&name[..len as usize]).ok_or(CallError::Words)?,
        ino: 100 + k,
        kind: 1,
    })
}

// Pushes the entries that a word `COUNTxSHORTEST-LONGEST` says.
fn push_numbered(entries: &mut Vec<Entry>, word: &str) -> Result<(), CallError> {
    let (count, lengths) = split(word, 'x')?;
    let (shortest, longest) = split(lengths, '-')?;
    let (count, shortest, longest) = (number(count)?, number(shortest)?, number(longest)?);
    if count > 1000 || longest > 255 || shortest > longest {
        return Err(CallError::Words);
    }
    for k in 0..count as u32 {
        let more = u64::from(k) % (longest + 1 - shortest);
        entries.push(numbered_entry(k, shortest + more)?)?;
    }
    Ok(())
}

// The entries that the words from the third on say.
fn entries_of(alloc: Global, words: Words<'_>) -> Result<Vec<Entry>, CallError> {
    let mut entries = Vec::new(alloc);
    for place in 3..words.count().saturating_add(1) {
        let word = words.text(place)?;
        match word.rsplit_once('=') {
            Some((name, rest)) => entries.push(named_entry(name, rest)?)?,
            None => push_numbered(&mut entries, word)?,
        }
    }
    Ok(entries)
}

// How many of the items of the blocks have the name, inode and type of this entry.
fn standing(built: &Built, entry: &Entry) -> u64 {
    let mut count = 0u64;
    for (_, block) in &built.blocks {
        let bytes = block.bytes();
        for item in DirScan::new(bytes, 214) {
            let to = item.at.saturating_add(usize::from(item.len));
            if item.legal
                && item.ino == entry.ino
                && item.kind == entry.kind
                && bytes.get(item.at..to) == Some(entry.name.bytes())
            {
                count = count.saturating_add(1);
            }
        }
    }
    count
}

// Whether the numbers of the blocks rise, and the size is the end of the last one.
fn is_in_order(built: &Built) -> bool {
    let mut end = 0u64;
    for (k, _) in &built.blocks {
        if *k < end {
            return false;
        }
        end = k.saturating_add(1);
    }
    built.size == end.saturating_mul(4096)
}

// Puts the blocks on the disk from block `at` on, and says what was built.
fn put_built(
    disk: &mut CaseDisk,
    at: u64,
    entries: &[Entry],
    built: &Built,
    text: &mut String,
) -> Result<(), CallError> {
    let mut found = 0u64;
    for entry in entries {
        found = found.saturating_add(standing(built, entry));
    }
    let count = entries.len();
    writeln!(text, "found {found} of {count}")?;
    text.push_str(if is_in_order(built) {
        "in order\n"
    } else {
        "out of order\n"
    })?;
    let (depth, size) = (built.depth, built.size);
    writeln!(text, "depth {depth} size {size}")?;
    for (k, block) in &built.blocks {
        put_block(disk, at.saturating_add(*k), block)?;
        writeln!(text, "block {k}")?;
    }
    Ok(())
}

// Builds a directory of the entries that the words from the third on say, with so many levels as the first one says.
pub(crate) fn build_blocks(
    alloc: Global,
    disk: &mut CaseDisk,
    words: Words<'_>,
    text: &mut String,
) -> Result<(), CallError> {
    let levels = words.four(1)?;
    let at = words.number(2)?;
    if levels > 25 {
        return Err(CallError::Words);
    }
    let entries = entries_of(alloc, words)?;
    match build(alloc, &entries, levels) {
        Ok(built) => put_built(disk, at, &entries, &built, text),
        Err(BuildRefusal::NoMemory) => Err(CallError::NoMemory),
        Err(refusal) => {
            writeln!(text, "{refusal}")?;
            Ok(())
        }
    }
}
