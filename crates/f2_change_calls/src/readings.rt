// What a mount reads.
ghost use Rattle.std.specs.Prelude.{◌≡◌, ◌≤◌};
ghost use Rattle.f2_disk.specs.Disk.{Goes};
ghost use Rattle.f2_view.specs.Mounted.{layout_in};

use crate::failures::{of_memory, of_view};
use crate::mounts::{is_in_main, mounted};
use crate::words::{number, small};
use f2_case_disk::{CallError, CaseDisk};
use f2_disk::Disk;
use f2_view::Mount;
use std::alloc::Global;

// The entry of a node in the node address table.
fn put_node<D: Disk>(m: &mut Mount, d: &mut D, nid: u32, text: &mut String) -> Result<(), CallError>
    requires lies { (layout_in m.old).blocks ≤ (D.state d.old).size }
    ensures mount { m.new ≡ m.old }
    ensures goes { Goes (D.state d.old) (D.state d.new) }
{
    if nid >= m.nid_limit() {
        return Err(CallError::Words);
    }
    let entry = m.nat_entry(d, nid).map_err(of_view)?;
    let (version, ino, at) = (entry.version, entry.ino, entry.addr);
    writeln!(text, "node {nid} version {version} ino {ino} at {at}").map_err(of_memory)
}

// The entry of a segment in the segment table, with a digit for each of its first eight blocks.
fn put_segment<D: Disk>(
    m: &mut Mount,
    d: &mut D,
    segment: u32,
    text: &mut String,
) -> Result<(), CallError>
    requires lies { (layout_in m.old).blocks ≤ (D.state d.old).size }
    ensures mount { m.new ≡ m.old }
    ensures goes { Goes (D.state d.old) (D.state d.new) }
{
    let l = m.layout();
    if segment >= l.segments {
        return Err(CallError::Words);
    }
    let entry = m.sit_entry(d, segment).map_err(of_view)?;
    let (kind, count, first, mtime) = (entry.kind, entry.count, entry.map[0], entry.mtime);
    writeln!(
        text,
        "segment {segment} type {kind} valid {count} first {first:08b} modified {mtime}"
    )
    .map_err(of_memory)
}

// The summary of a block.
fn put_summary<D: Disk>(
    m: &mut Mount,
    d: &mut D,
    address: u32,
    text: &mut String,
) -> Result<(), CallError>
    requires lies { (layout_in m.old).blocks ≤ (D.state d.old).size }
    ensures mount { m.new ≡ m.old }
    ensures goes { Goes (D.state d.old) (D.state d.new) }
{
    let l = m.layout();
    if !is_in_main(&l, address) {
        return Err(CallError::Words);
    }
    let summary = m.summary(d, address).map_err(of_view)?;
    let (nid, version, ofs) = (summary.nid, summary.version, summary.ofs);
    writeln!(
        text,
        "summary {address} nid {nid} version {version} offset {ofs}"
    )
    .map_err(of_memory)
}

// The address of a block of a file.
fn put_slot<D: Disk>(
    m: &mut Mount,
    d: &mut D,
    ino: u32,
    block: u64,
    text: &mut String,
) -> Result<(), CallError>
    requires lies { (layout_in m.old).blocks ≤ (D.state d.old).size }
    ensures mount { m.new ≡ m.old }
    ensures goes { Goes (D.state d.old) (D.state d.new) }
{
    let at = m.slot(d, ino, block).map_err(of_view)?;
    writeln!(text, "slot {ino} {block} at {at}").map_err(of_memory)
}

// The counts of the checkpoint, and its version.
fn put_counts(m: &Mount, text: &mut String) -> Result<(), CallError> {
    let version = m.version();
    let head = m.chosen().head();
    let (user, valid, free) = (head.field(1), head.field(2), head.field(5));
    let (nodes, inodes) = (head.field(41), head.field(42));
    writeln!(
        text,
        "version {version} user {user} valid {valid} nodes {nodes} inodes {inodes} free {free}"
    )
    .map_err(of_memory)
}

// Puts the first reading that the words name, and answers the words behind it.
fn put_first<'a, D: Disk>(
    m: &mut Mount,
    d: &mut D,
    words: &'a [String],
    text: &mut String,
) -> Result<&'a [String], CallError>
    requires lies { (layout_in m.old).blocks ≤ (D.state d.old).size }
    ensures mount { m.new ≡ m.old }
    ensures goes { Goes (D.state d.old) (D.state d.new) }
{
    match words {
        [name, rest @ ..] if name.as_str() == "counts" => {
            put_counts(m, text)?;
            Ok(rest)
        }
        [name, ino, block, rest @ ..] if name.as_str() == "slot" => {
            put_slot(m, d, small(ino.as_str())?, number(block.as_str())?, text)?;
            Ok(rest)
        }
        [name, which, rest @ ..] => {
            let which = small(which.as_str())?;
            match name.as_str() {
                "node" => put_node(m, d, which, text)?,
                "segment" => put_segment(m, d, which, text)?,
                "summary" => put_summary(m, d, which, text)?,
                _ => return Err(CallError::Words),
            }
            Ok(rest)
        }
        _ => Err(CallError::Words),
    }
}

// Puts a line for each reading that the words name.
pub(crate) fn put_readings<D: Disk>(
    m: &mut Mount,
    d: &mut D,
    words: &[String],
    text: &mut String,
) -> Result<(), CallError>
    requires lies { (layout_in m.old).blocks ≤ (D.state d.old).size }
{
    let mut rest = words;
    for _ in 0..words.len() {
        if !rest.is_empty() {
            rest = put_first(m, d, rest, text)?;
        }
    }
    Ok(())
}

// What a new mount reads.
pub(crate) fn read_anew(
    alloc: Global,
    disk: &mut CaseDisk,
    words: &[String],
) -> Result<String, CallError> {
    let mut text = String::new(alloc);
    let mut m = mounted(alloc, disk)?;
    put_readings(&mut m, disk, words, &mut text)?;
    Ok(text)
}
