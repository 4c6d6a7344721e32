// Calls of f2_sum: summaries and the entries of tables.
ghost use Rattle.std.specs.Prelude.{◌≤◌, IfOk};
ghost use Rattle.f2_bytes.specs.Journal.{FitsSitEntry};
ghost use Rattle.f2_sum.specs.Records.{sit_entry};

use crate::words::{Words, all_bytes, block_of, part, put_block, put_part};
use f2_case_disk::{CallError, CaseDisk};
use f2_sum::{
    NatEntry, SitEntry, Summary, compact_spot, nat_entry_at, nat_entry_bytes, put_summary,
    sit_entry_at, sit_entry_bytes, summary, summary_at,
};

pub(crate) fn call(
    disk: &mut CaseDisk,
    words: Words<'_>,
    text: &mut String,
) -> Result<(), CallError> {
    match (words.name(), words.count()) {
        ("summary", 2) => say_entry(disk, words, text),
        ("compact-summary", 2) => say_compact(disk, words, text),
        ("set-summary", 5) => set_summary(disk, words),
        ("compact-spot", 5) => say_spot(words, text),
        ("nat-entry", 2) => say_nat_entry(disk, words, text),
        ("set-nat-entry", 5) => set_nat_entry(disk, words),
        ("sit-entry", 2) => say_sit_entry(disk, words, text),
        ("set-sit-entry", 6) => set_sit_entry(disk, words),
        _ => Err(CallError::Unknown),
    }
}

fn say(text: &mut String, s: Summary) -> Result<(), CallError> {
    let (nid, version, ofs) = (s.nid, s.version, s.ofs);
    writeln!(text, "nid {nid} version {version} ofs {ofs}")?;
    Ok(())
}

fn say_entry(disk: &CaseDisk, words: Words<'_>, text: &mut String) -> Result<(), CallError> {
    let bytes = all_bytes(&words.block(disk)?);
    say(text, summary(&bytes, words.up_to(2, 511)?))
}

fn say_compact(disk: &CaseDisk, words: Words<'_>, text: &mut String) -> Result<(), CallError> {
    let b = words.block(disk)?;
    say(text, summary_at(part(&b, words.number(2)?, 7)?, 0))
}

fn set_summary(disk: &mut CaseDisk, words: Words<'_>) -> Result<(), CallError> {
    let mut bytes = all_bytes(&words.block(disk)?);
    let k = words.up_to(2, 511)?;
    let s = Summary {
        nid: words.four(3)?,
        version: words.one(4)?,
        ofs: words.two(5)?,
    };
    put_summary(&mut bytes, k, s);
    put_block(disk, words.number(1)?, &block_of(&bytes))
}

// A count of entries of the compact form, at most 512.
fn count_of(words: Words<'_>, place: usize) -> Result<u16, CallError>
    ensures { IfOk result (λ count. count ≤ 512) }
{
    let count = words.two(place)?;
    if count > 512 {
        return Err(CallError::Words);
    }
    Ok(count)
}

fn say_spot(words: Words<'_>, text: &mut String) -> Result<(), CallError> {
    let counts = [
        count_of(words, 1)?,
        count_of(words, 2)?,
        count_of(words, 3)?,
    ];
    let log = words.up_to(4, 2)?;
    let k = words.up_to(5, 511)?;
    if k >= usize::from(counts[log]) {
        return Err(CallError::Words);
    }
    let (block, byte) = compact_spot(counts, log, k);
    writeln!(text, "block {block} byte {byte}")?;
    Ok(())
}

fn say_nat_entry(disk: &CaseDisk, words: Words<'_>, text: &mut String) -> Result<(), CallError> {
    let b = words.block(disk)?;
    let entry = nat_entry_at(part(&b, words.number(2)?, 9)?, 0);
    let (version, ino, addr) = (entry.version, entry.ino, entry.addr);
    writeln!(text, "version {version} ino {ino} addr {addr}")?;
    Ok(())
}

fn set_nat_entry(disk: &mut CaseDisk, words: Words<'_>) -> Result<(), CallError> {
    let mut b = words.block(disk)?;
    let entry = NatEntry {
        version: words.one(3)?,
        ino: words.four(4)?,
        addr: words.four(5)?,
    };
    put_part(&mut b, words.number(2)?, &nat_entry_bytes(entry))?;
    put_block(disk, words.number(1)?, &b)
}

// What an entry of the segment table says: a line of numbers, and its map in two lines of 32 bytes.
pub(crate) fn say_segment(text: &mut String, entry: &SitEntry) -> Result<(), CallError> {
    let (kind, count, mtime) = (entry.kind, entry.count, entry.mtime);
    writeln!(text, "type {kind} valid {count} mtime {mtime}")?;
    for (k, byte) in entry.map.iter().enumerate() {
        write!(text, "{byte:02x}")?;
        if k % 32 == 31 {
            text.push('\n')?;
        }
    }
    Ok(())
}

fn say_sit_entry(disk: &CaseDisk, words: Words<'_>, text: &mut String) -> Result<(), CallError> {
    let b = words.block(disk)?;
    say_segment(text, &sit_entry_at(part(&b, words.number(2)?, 74)?, 0))
}

// The entry in four words from this place on: type, valid blocks, the byte of the map, and time.
pub(crate) fn segment_of(words: Words<'_>, place: usize) -> Result<SitEntry, CallError>
    ensures { IfOk result (λ entry. FitsSitEntry (sit_entry entry)) }
{
    let kind = words.one(place)?;
    let count = words.two(place.saturating_add(1))?;
    if kind >= 64 || count >= 1024 {
        return Err(CallError::Words);
    }
    Ok(SitEntry {
        kind,
        count,
        map: [words.one(place.saturating_add(2))?; 64],
        mtime: words.number(place.saturating_add(3))?,
    })
}

fn set_sit_entry(disk: &mut CaseDisk, words: Words<'_>) -> Result<(), CallError> {
    let mut b = words.block(disk)?;
    let entry = segment_of(words, 3)?;
    put_part(&mut b, words.number(2)?, &sit_entry_bytes(entry))?;
    put_block(disk, words.number(1)?, &b)
}
