// The parts of a change, each a line of its text, as the doc of `call` lists them.
use crate::drafts::text_of;
use crate::words::{narrow, number};
use f2_bytes::{count_bits, set_bit_msb};
use f2_case_disk::{CallError, CaseDisk};
use f2_commit::{Change, Counts};
use f2_pack::Log;
use f2_sum::SitEntry;
use f2_tables::NatEntry;
use f2_view::Mount;
use std::alloc::Global;

// A change that leaves all as it is.
fn no_change(alloc: Global, m: &Mount) -> Change {
    let head = m.chosen().head();
    Change {
        nat: Vec::new(alloc),
        sit: Vec::new(alloc),
        blocks: Vec::new(alloc),
        sums: Vec::new(alloc),
        logs: [m.log(0), m.log(1), m.log(2), m.log(3), m.log(4), m.log(5)],
        counts: Counts {
            user: head.field(1),
            valid: head.field(2),
            nodes: head.field(41) as u32,
            inodes: head.field(42) as u32,
            free: head.field(5) as u32,
            next_nid: head.field(43) as u32,
        },
    }
}

fn add_node(c: &mut Change, numbers: &[u64]) -> Result<(), CallError> {
    let (nid, version, ino, address) = match numbers {
        [nid, version, ino, address] => (*nid, *version, *ino, *address),
        _ => return Err(CallError::Words),
    };
    let entry = NatEntry {
        version: u8::try_from(version).map_err(|_| CallError::Words)?,
        ino: narrow(ino)?,
        addr: narrow(address)?,
    };
    let nid = narrow(nid)?;
    c.nat.push((nid, entry)).map_err(|_| CallError::NoMemory)
}

// The map of a segment in which these blocks are valid, and how many they are.
fn map_of(offsets: &[u64]) -> Result<([u8; 64], u16), CallError> {
    let mut map = [0; 64];
    for offset in offsets {
        if *offset >= 512 {
            return Err(CallError::Words);
        }
        set_bit_msb(&mut map, *offset as usize, true);
    }
    let count = u16::try_from(count_bits(&map)).map_err(|_| CallError::Words)?;
    Ok((map, count))
}

fn add_segment(c: &mut Change, numbers: &[u64]) -> Result<(), CallError> {
    let (segment, kind, mtime, offsets) = match numbers {
        [segment, kind, mtime, offsets @ ..] => (*segment, *kind, *mtime, offsets),
        _ => return Err(CallError::Words),
    };
    let (map, count) = map_of(offsets)?;
    let entry = SitEntry {
        kind: u8::try_from(kind).map_err(|_| CallError::Words)?,
        count,
        map,
        mtime,
    };
    let segment = narrow(segment)?;
    c.sit
        .push((segment, entry))
        .map_err(|_| CallError::NoMemory)
}

fn set_log(c: &mut Change, numbers: &[u64]) -> Result<(), CallError> {
    let (t, segno, offset) = match numbers {
        [t, segno, offset] if *t < 6 => (*t as usize, *segno, *offset),
        _ => return Err(CallError::Words),
    };
    c.logs[t] = Log {
        segno: narrow(segno)?,
        offset: u16::try_from(offset).map_err(|_| CallError::Words)?,
        reuse: false,
    };
    Ok(())
}

fn set_count(c: &mut Change, name: &str, n: u64) -> Result<(), CallError> {
    match name {
        "user" => c.counts.user = n,
        "valid" => c.counts.valid = n,
        "nodes" => c.counts.nodes = narrow(n)?,
        "inodes" => c.counts.inodes = narrow(n)?,
        "free" => c.counts.free = narrow(n)?,
        "next" => c.counts.next_nid = narrow(n)?,
        _ => return Err(CallError::Words),
    }
    Ok(())
}

// Adds a part with this name and these numbers.
fn add(c: &mut Change, disk: &CaseDisk, name: &str, numbers: &[u64]) -> Result<(), CallError> {
    match (name, numbers) {
        ("node", _) => add_node(c, numbers),
        ("segment", _) => add_segment(c, numbers),
        ("log", _) => set_log(c, numbers),
        ("block", [address, from]) => {
            let block = (narrow(*address)?, disk.get(*from));
            c.blocks.push(block).map_err(|_| CallError::NoMemory)
        }
        ("summaries", [segment, from]) => {
            let block = (narrow(*segment)?, disk.get(*from));
            c.sums.push(block).map_err(|_| CallError::NoMemory)
        }
        (_, [n]) => set_count(c, name, *n),
        _ => Err(CallError::Words),
    }
}

// Adds the part that a line says.
fn add_line(alloc: Global, c: &mut Change, disk: &CaseDisk, line: &str) -> Result<(), CallError> {
    let mut name = "";
    let mut numbers = Vec::new(alloc);
    for word in line.split(' ') {
        if name.is_empty() {
            name = word;
        } else {
            let number = number(word)?;
            numbers.push(number).map_err(|_| CallError::NoMemory)?;
        }
    }
    add(c, disk, name, &numbers)
}

// The change whose parts stand in a block.
pub(crate) fn change_in(
    alloc: Global,
    m: &Mount,
    disk: &CaseDisk,
    at: u64,
) -> Result<Change, CallError> {
    let block = disk.get(at);
    let mut c = no_change(alloc, m);
    for line in text_of(&block)?.lines() {
        add_line(alloc, &mut c, disk, line)?;
    }
    Ok(c)
}
