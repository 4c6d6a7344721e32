// The segment table, and the summary blocks.
ghost use Rattle.std.specs.Prelude.{◌≡◌, ◌≤◌};
ghost use Rattle.f2_disk.specs.Disk.{Goes};

use crate::areas::layout_on;
use crate::node_tables::of_table;
use crate::words::{number, of_memory, small};
use f2_case_disk::{CallError, CaseDisk};
use f2_disk::{Block, Disk};
use f2_pack::choose;
use f2_sum::SitEntry;
use f2_tables::{Sit, ssa_read};
use std::alloc::Global;

fn put_entry(segment: u32, e: &SitEntry, text: &mut String) -> Result<(), CallError> {
    writeln!(
        text,
        "segment {segment} type {} valid {} modified {}",
        e.kind, e.count, e.mtime
    )
    .map_err(of_memory)
}

fn put_get<D: Disk>(
    sit: &mut Sit,
    d: &mut D,
    segments: u32,
    segment: u32,
    text: &mut String,
) -> Result<(), CallError>
    requires lies { sit.old.layout.blocks ≤ (D.state d.old).size }
    requires segments { segments ≡ sit.old.layout.segments }
    ensures layout { sit.new.layout ≡ sit.old.layout }
    ensures goes { Goes (D.state d.old) (D.state d.new) }
{
    if segment >= segments {
        return Err(CallError::Words);
    }
    let entry = sit.get(d, segment).map_err(of_table)?;
    put_entry(segment, &entry, text)
}

// Sets an entry of hot nodes with so many valid blocks.
fn put_set<D: Disk>(
    sit: &mut Sit,
    d: &mut D,
    segments: u32,
    segment: u32,
    count: u32,
) -> Result<(), CallError>
    requires lies { sit.old.layout.blocks ≤ (D.state d.old).size }
    requires segments { segments ≡ sit.old.layout.segments }
    ensures layout { sit.new.layout ≡ sit.old.layout }
    ensures goes { Goes (D.state d.old) (D.state d.new) }
{
    if segment >= segments || count >= 1024 {
        return Err(CallError::Words);
    }
    let entry = SitEntry {
        kind: 3,
        count: count as u16,
        map: [0x80; 64],
        mtime: 9,
    };
    sit.set(d, segment, entry).map_err(of_table)
}

fn put_dirty(sit: &Sit, text: &mut String) -> Result<(), CallError> {
    text.push_str("dirty").map_err(of_memory)?;
    for k in sit.dirty()? {
        write!(text, " {k}").map_err(of_memory)?;
    }
    text.push_str("\n").map_err(of_memory)
}

// Puts the line of the first step, and answers the words behind it.
fn put_first<'a, D: Disk>(
    sit: &mut Sit,
    d: &mut D,
    segments: u32,
    words: &'a [String],
    text: &mut String,
) -> Result<&'a [String], CallError>
    requires lies { sit.old.layout.blocks ≤ (D.state d.old).size }
    requires segments { segments ≡ sit.old.layout.segments }
    ensures layout { sit.new.layout ≡ sit.old.layout }
    ensures goes { Goes (D.state d.old) (D.state d.new) }
{
    match words {
        [step, rest @ ..] if step.as_str() == "dirty" => {
            put_dirty(sit, text)?;
            Ok(rest)
        }
        [step, segment, rest @ ..] if step.as_str() == "get" => {
            put_get(sit, d, segments, small(segment.as_str())?, text)?;
            Ok(rest)
        }
        [step, segment, count, rest @ ..] if step.as_str() == "set" => {
            let (segment, count) = (small(segment.as_str())?, small(count.as_str())?);
            put_set(sit, d, segments, segment, count)?;
            Ok(rest)
        }
        _ => Err(CallError::Words),
    }
}

fn put_all_steps<D: Disk>(
    sit: &mut Sit,
    d: &mut D,
    segments: u32,
    words: &[String],
    text: &mut String,
) -> Result<(), CallError>
    requires lies { sit.old.layout.blocks ≤ (D.state d.old).size }
    requires segments { segments ≡ sit.old.layout.segments }
    ensures layout { sit.new.layout ≡ sit.old.layout }
    ensures goes { Goes (D.state d.old) (D.state d.new) }
{
    let mut rest = words;
    for _ in 0..words.len() {
        if !rest.is_empty() {
            rest = put_first(sit, d, segments, rest, text)?;
        }
    }
    Ok(())
}

fn put_entries<D: Disk>(
    alloc: Global,
    sit: &mut Sit,
    d: &mut D,
    words: &[String],
    text: &mut String,
) -> Result<(), CallError>
    requires lies { sit.old.layout.blocks ≤ (D.state d.old).size }
{
    let entries = sit.entries(alloc, d).map_err(of_table)?;
    writeln!(text, "entries {}", entries.len()).map_err(of_memory)?;
    for word in words {
        let segment = small(word.as_str())?;
        match entries.get(segment as usize) {
            Some(entry) => put_entry(segment, entry, text)?,
            None => return Err(CallError::Words),
        }
    }
    Ok(())
}

// A block of the table with the entries of now.
fn block_of<D: Disk>(sit: &mut Sit, d: &mut D, half: u32, k: u32) -> Result<Block, CallError>
    requires lies { sit.old.layout.blocks ≤ (D.state d.old).size }
    requires half { half ≡ sit.old.layout.sit_half }
{
    if k >= half {
        return Err(CallError::Words);
    }
    sit.table_block(d, k).map_err(of_table)
}

// The table that the pack opens which counts; it is asked step by step, for all entries, or for a block of its own.
pub(crate) fn put_steps(
    alloc: Global,
    disk: &mut CaseDisk,
    words: &[String],
    text: &mut String,
) -> Result<(), CallError> {
    let copy = disk.get(0);
    let l = layout_on(disk, &copy)?;
    let Ok(c) = choose(alloc, disk, &l) else {
        return Err(CallError::Words);
    };
    let mut sit = Sit::open(alloc, &l, c.sit_bits(), c.sit_journal())?;
    match words {
        [step, rest @ ..] if step.as_str() == "all" => {
            put_entries(alloc, &mut sit, disk, rest, text)
        }
        [step, k, to, rest @ ..] if step.as_str() == "block" => {
            let (k, to) = (small(k.as_str())?, number(to.as_str())?);
            put_all_steps(&mut sit, disk, l.segments, rest, text)?;
            let b = block_of(&mut sit, disk, l.sit_half, k)?;
            disk.set(to, &b)?;
            Ok(())
        }
        _ => put_all_steps(&mut sit, disk, l.segments, words, text),
    }
}

// Puts the summary block of a segment into a block.
pub(crate) fn put_summaries(disk: &mut CaseDisk, words: &[String]) -> Result<(), CallError> {
    let [segment, to] = words else {
        return Err(CallError::Words);
    };
    let (segment, to) = (small(segment.as_str())?, number(to.as_str())?);
    let copy = disk.get(0);
    let l = layout_on(disk, &copy)?;
    if segment >= l.segments {
        return Err(CallError::Words);
    }
    let mut b = Block::zeros();
    match ssa_read(disk, &l, segment, &mut b) {
        Ok(()) => {}
        Err(_) => return Err(CallError::DiskFault),
    }
    disk.set(to, &b)?;
    Ok(())
}
