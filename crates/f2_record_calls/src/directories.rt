// Calls of f2_dent: names and their hashes, buckets, and scans.
use crate::building::build_blocks;
use crate::words::{Words, part, yes_or_no};
use f2_case_disk::{CallError, CaseDisk};
use f2_dent::{DirScan, Item, Name, bucket_range, level_of, name_hash};
use std::alloc::Global;

pub(crate) fn call(
    alloc: Global,
    disk: &mut CaseDisk,
    words: Words<'_>,
    text: &mut String,
) -> Result<(), CallError> {
    match (words.name(), words.count()) {
        ("name-hash", 1) => say_hash(text, name_hash(words.text(1)?.as_bytes())),
        ("name-hash-at", 4) => say_hash_at(alloc, disk, words, text),
        ("name", 3) => say_name(disk, words, text),
        ("same-name", 2) => say_same(words, text),
        ("bucket", 3) => say_bucket(words, text),
        ("bucket-of", 2) => say_level(words, text),
        ("scan", 4) => say_items(disk, words, text),
        ("build", _) => build_blocks(alloc, disk, words, text),
        _ => Err(CallError::Unknown),
    }
}

fn say_hash(text: &mut String, hash: u32) -> Result<(), CallError> {
    writeln!(text, "0x{hash:08x}")?;
    Ok(())
}

fn say_hash_at(
    alloc: Global,
    disk: &CaseDisk,
    words: Words<'_>,
    text: &mut String,
) -> Result<(), CallError> {
    let b = words.block(disk)?;
    let bytes = part(&b, words.number(2)?, words.number(3)?)?;
    let mut name = Vec::new(alloc);
    for _ in 0..words.up_to(4, 255)? {
        name.extend_from_slice(bytes)?;
    }
    say_hash(text, name_hash(&name))
}

fn say_name(disk: &CaseDisk, words: Words<'_>, text: &mut String) -> Result<(), CallError> {
    let b = words.block(disk)?;
    match Name::new(part(&b, words.number(2)?, words.number(3)?)?) {
        Some(name) => {
            let len = name.bytes().len();
            let hash = name_hash(name.bytes());
            writeln!(text, "{len} bytes, hash 0x{hash:08x}")?;
        }
        None => text.push_str("none\n")?,
    }
    Ok(())
}

fn say_same(words: Words<'_>, text: &mut String) -> Result<(), CallError> {
    let one = Name::new(words.text(1)?.as_bytes()).ok_or(CallError::Words)?;
    let other = Name::new(words.text(2)?.as_bytes()).ok_or(CallError::Words)?;
    yes_or_no(text, one == other)
}

fn say_bucket(words: Words<'_>, text: &mut String) -> Result<(), CallError> {
    let level = words.four(1)?;
    if level >= 63 {
        return Err(CallError::Words);
    }
    let (first, blocks) = bucket_range(level, words.one(2)?, words.four(3)?);
    writeln!(text, "first {first} blocks {blocks}")?;
    Ok(())
}

fn say_level(words: Words<'_>, text: &mut String) -> Result<(), CallError> {
    let (level, bucket) = level_of(u64::from(words.four(1)?), words.one(2)?);
    writeln!(text, "level {level} bucket {bucket}")?;
    Ok(())
}

fn say_item(text: &mut String, item: &Item) -> Result<(), CallError> {
    let (slot, at, len) = (item.slot, item.at, item.len);
    let (hash, ino, kind) = (item.hash, item.ino, item.kind);
    let legal = if item.legal { "legal" } else { "illegal" };
    writeln!(
        text,
        "slot {slot} at {at} length {len} hash 0x{hash:08x} ino {ino} type {kind} {legal}"
    )?;
    Ok(())
}

fn say_items(disk: &CaseDisk, words: Words<'_>, text: &mut String) -> Result<(), CallError> {
    let b = words.block(disk)?;
    let area = part(&b, words.number(2)?, words.number(3)?)?;
    let slots = words.up_to(4, 4096)?;
    if (slots + 7) / 8 + 19 * slots > area.len() {
        return Err(CallError::Words);
    }
    for item in DirScan::new(area, slots) {
        say_item(text, &item)?;
    }
    Ok(())
}
