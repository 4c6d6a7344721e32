// The checkpoint pack that counts.
use crate::areas::layout_on;
use crate::words::{number, of_memory, small};
use f2_case_disk::{CallError, CaseDisk};
use f2_pack::{Chosen, PackRefusal, choose};
use std::alloc::Global;

// Which pack counts, or why none does.
fn put_choice(chosen: &Result<Chosen, PackRefusal>, text: &mut String) -> Result<(), CallError> {
    match chosen {
        Ok(c) => writeln!(text, "pack {} version {}", c.pack(), c.head().field(0)),
        Err(PackRefusal::NoPack) => writeln!(text, "refused NoPack"),
        Err(PackRefusal::VersionLimit(version)) => writeln!(text, "refused VersionLimit {version}"),
        Err(PackRefusal::BadSummary(count)) => writeln!(text, "refused BadSummary {count}"),
        Err(PackRefusal::DiskFault) => return Err(CallError::DiskFault),
        Err(PackRefusal::NoMemory) => return Err(CallError::NoMemory),
    }
    .map_err(of_memory)
}

// The first byte of a bitmap, and how many there are.
fn put_bits(name: &str, bits: &[u8], text: &mut String) -> Result<(), CallError> {
    let first = bits.first().copied().unwrap_or(0);
    writeln!(text, "{name} bitmap of {} bytes from {first}", bits.len()).map_err(of_memory)
}

// The logs, the orphans, the journals and the bitmaps.
fn put_parts(c: &Chosen, text: &mut String) -> Result<(), CallError> {
    for t in 0..6usize {
        let log = c.log(t);
        let how = if log.reuse { "reuses" } else { "appends" };
        writeln!(
            text,
            "log {t} segment {} next {} {how}",
            log.segno, log.offset
        )
        .map_err(of_memory)?;
    }
    text.push_str("orphans").map_err(of_memory)?;
    for ino in c.orphans() {
        write!(text, " {ino}").map_err(of_memory)?;
    }
    text.push_str("\n").map_err(of_memory)?;
    let (nodes, segments) = (c.nat_journal().len(), c.sit_journal().len());
    writeln!(text, "journals {nodes} nodes {segments} segments").map_err(of_memory)?;
    put_bits("segment", c.sit_bits(), text)?;
    put_bits("node", c.nat_bits(), text)
}

// The node of the summary for each place of a log.
fn put_summaries(c: &Chosen, words: &[String], text: &mut String) -> Result<(), CallError> {
    for pair in words.chunks(2) {
        let [log, place] = pair else {
            return Err(CallError::Words);
        };
        let (log, place) = (number(log.as_str())?, small(place.as_str())?);
        if log >= 6 {
            return Err(CallError::Words);
        }
        match c.entry(log as usize, place as usize) {
            Some(summary) => writeln!(text, "{log} {place} node {}", summary.nid),
            None => writeln!(text, "{log} {place} none"),
        }
        .map_err(of_memory)?;
    }
    Ok(())
}

// What the words ask of the pack.
pub(crate) fn put_pack(
    alloc: Global,
    disk: &mut CaseDisk,
    name: &str,
    words: &[String],
    text: &mut String,
) -> Result<(), CallError> {
    let copy = disk.get(0);
    let l = layout_on(disk, &copy)?;
    let chosen = choose(alloc, disk, &l);
    put_choice(&chosen, text)?;
    match (&chosen, name) {
        (Ok(c), "pack-parts") => put_parts(c, text),
        (Ok(c), "pack-summaries") => put_summaries(c, words, text),
        _ => Ok(()),
    }
}
