// The node address table.
ghost use Rattle.std.specs.Prelude.{◌≡◌, ◌≤◌};
ghost use Rattle.f2_disk.specs.Disk.{Goes};

use crate::areas::layout_on;
use crate::words::{number, of_memory, small};
use f2_case_disk::{CallError, CaseDisk};
use f2_disk::{Block, Disk};
use f2_pack::choose;
use f2_sum::NatEntry;
use f2_tables::{Nat, TableRefusal};
use std::alloc::Global;

pub(crate) fn of_table(refusal: TableRefusal) -> CallError {
    match refusal {
        TableRefusal::DiskFault => CallError::DiskFault,
        TableRefusal::NoMemory => CallError::NoMemory,
    }
}

// The entry of a node, or that the disk failed.
fn put_entry(
    nid: u32,
    found: Result<NatEntry, TableRefusal>,
    text: &mut String,
) -> Result<(), CallError> {
    match found {
        Ok(e) => writeln!(
            text,
            "node {nid} version {} ino {} at {}",
            e.version, e.ino, e.addr
        ),
        Err(TableRefusal::DiskFault) => writeln!(text, "disk fault"),
        Err(TableRefusal::NoMemory) => return Err(CallError::NoMemory),
    }
    .map_err(of_memory)
}

fn put_get<D: Disk>(nat: &mut Nat, d: &mut D, nid: u32, text: &mut String) -> Result<(), CallError>
    requires lies { nat.old.layout.blocks ≤ (D.state d.old).size }
    ensures layout { nat.new.layout ≡ nat.old.layout }
    ensures goes { Goes (D.state d.old) (D.state d.new) }
{
    if nid >= nat.limit() {
        return Err(CallError::Words);
    }
    let found = nat.get(d, nid);
    put_entry(nid, found, text)
}

fn put_live<D: Disk>(
    nat: &mut Nat,
    d: &mut D,
    from: u32,
    text: &mut String,
) -> Result<(), CallError>
    requires lies { nat.old.layout.blocks ≤ (D.state d.old).size }
    ensures layout { nat.new.layout ≡ nat.old.layout }
    ensures goes { Goes (D.state d.old) (D.state d.new) }
{
    match nat.live(d, from) {
        Ok(Some(nid)) => writeln!(text, "live {nid}"),
        Ok(None) => writeln!(text, "live none"),
        Err(TableRefusal::DiskFault) => writeln!(text, "disk fault"),
        Err(TableRefusal::NoMemory) => return Err(CallError::NoMemory),
    }
    .map_err(of_memory)
}

fn put_set<D: Disk>(
    nat: &mut Nat,
    d: &mut D,
    nid: u32,
    ino: u32,
    addr: u32,
) -> Result<(), CallError>
    requires lies { nat.old.layout.blocks ≤ (D.state d.old).size }
    ensures layout { nat.new.layout ≡ nat.old.layout }
    ensures goes { Goes (D.state d.old) (D.state d.new) }
{
    if nid >= nat.limit() {
        return Err(CallError::Words);
    }
    let entry = NatEntry {
        version: 1,
        ino,
        addr,
    };
    nat.set(d, nid, entry).map_err(of_table)
}

// Which blocks have newer entries.
fn put_dirty(nat: &Nat, text: &mut String) -> Result<(), CallError> {
    text.push_str("dirty").map_err(of_memory)?;
    for k in nat.dirty()? {
        write!(text, " {k}").map_err(of_memory)?;
    }
    text.push_str("\n").map_err(of_memory)
}

// Puts the line of the first step, and answers the words behind it.
fn put_first<'a, D: Disk>(
    nat: &mut Nat,
    d: &mut D,
    words: &'a [String],
    text: &mut String,
) -> Result<&'a [String], CallError>
    requires lies { nat.old.layout.blocks ≤ (D.state d.old).size }
    ensures layout { nat.new.layout ≡ nat.old.layout }
    ensures goes { Goes (D.state d.old) (D.state d.new) }
{
    match words {
        [step, rest @ ..] if step.as_str() == "dirty" => {
            put_dirty(nat, text)?;
            Ok(rest)
        }
        [step, nid, rest @ ..] if step.as_str() == "get" => {
            put_get(nat, d, small(nid.as_str())?, text)?;
            Ok(rest)
        }
        [step, nid, rest @ ..] if step.as_str() == "live" => {
            put_live(nat, d, small(nid.as_str())?, text)?;
            Ok(rest)
        }
        [step, nid, ino, addr, rest @ ..] if step.as_str() == "set" => {
            let (nid, ino) = (small(nid.as_str())?, small(ino.as_str())?);
            put_set(nat, d, nid, ino, small(addr.as_str())?)?;
            Ok(rest)
        }
        _ => Err(CallError::Words),
    }
}

fn put_all_steps<D: Disk>(
    nat: &mut Nat,
    d: &mut D,
    words: &[String],
    text: &mut String,
) -> Result<(), CallError>
    requires lies { nat.old.layout.blocks ≤ (D.state d.old).size }
    ensures layout { nat.new.layout ≡ nat.old.layout }
    ensures goes { Goes (D.state d.old) (D.state d.new) }
{
    let mut rest = words;
    for _ in 0..words.len() {
        if !rest.is_empty() {
            rest = put_first(nat, d, rest, text)?;
        }
    }
    Ok(())
}

// The lines of some of the entries of all nodes, and how many there are.
fn put_entries<D: Disk>(
    alloc: Global,
    nat: &mut Nat,
    d: &mut D,
    words: &[String],
    text: &mut String,
) -> Result<(), CallError>
    requires lies { nat.old.layout.blocks ≤ (D.state d.old).size }
{
    let entries = nat.entries(alloc, d).map_err(of_table)?;
    writeln!(text, "entries {}", entries.len()).map_err(of_memory)?;
    for word in words {
        let nid = small(word.as_str())?;
        match entries.get(nid as usize) {
            Some(entry) => put_entry(nid, Ok(*entry), text)?,
            None => return Err(CallError::Words),
        }
    }
    Ok(())
}

// A block of the table with the entries of now.
fn block_of<D: Disk>(nat: &mut Nat, d: &mut D, l: u32, k: u32) -> Result<Block, CallError>
    requires lies { nat.old.layout.blocks ≤ (D.state d.old).size }
    requires half { l ≡ nat.old.layout.nat_half }
{
    if k >= l {
        return Err(CallError::Words);
    }
    nat.table_block(d, k).map_err(of_table)
}

// The table that the pack opens which counts; it is asked step by step, for all entries, or for a block of its own.
pub(crate) fn put_steps(
    alloc: Global,
    disk: &mut CaseDisk,
    words: &[String],
    text: &mut String,
) -> Result<(), CallError> {
    let copy = disk.get(0);
    let l = layout_on(disk, &copy)?;
    let Ok(c) = choose(alloc, disk, &l) else {
        return Err(CallError::Words);
    };
    let mut nat = Nat::open(alloc, &l, c.nat_bits(), c.nat_journal())?;
    match words {
        [step, rest @ ..] if step.as_str() == "all" => {
            put_entries(alloc, &mut nat, disk, rest, text)
        }
        [step, k, to, rest @ ..] if step.as_str() == "block" => {
            let (k, to) = (small(k.as_str())?, number(to.as_str())?);
            put_all_steps(&mut nat, disk, rest, text)?;
            let b = block_of(&mut nat, disk, l.nat_half, k)?;
            disk.set(to, &b)?;
            Ok(())
        }
        _ => put_all_steps(&mut nat, disk, words, text),
    }
}
