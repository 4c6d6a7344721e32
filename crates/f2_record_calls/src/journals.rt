// Calls of f2_sum: the journals of the node address table and the segment table.
use crate::summaries::{say_segment, segment_of};
use crate::words::{Words, part, put_block, put_part};
use f2_case_disk::{CallError, CaseDisk};
use f2_sum::{BadCount, NatJournal, NatRecord, SitJournal, SitRecord};

pub(crate) fn call(
    disk: &mut CaseDisk,
    words: Words<'_>,
    text: &mut String,
) -> Result<(), CallError> {
    match (words.name(), words.count()) {
        ("nat-journal", 2) => say_nat(disk, words, text),
        ("sit-journal", 2) => say_sit(disk, words, text),
        ("empty-journal", 3) => put_empty(disk, words),
        ("push-nat", 7) => push_nat(disk, words, text),
        ("push-sit", 8) => push_sit(disk, words, text),
        _ => Err(CallError::Unknown),
    }
}

// The bytes of the journal area that the first two words name.
fn area_of(disk: &CaseDisk, words: Words<'_>) -> Result<[u8; 507], CallError> {
    let b = words.block(disk)?;
    let mut area = [0; 507];
    area.copy_from_slice(part(&b, words.number(2)?, 507)?);
    Ok(area)
}

fn put_area(disk: &mut CaseDisk, at: u64, offset: u64, area: &[u8; 507]) -> Result<(), CallError> {
    let mut b = disk.get(at);
    put_part(&mut b, offset, area)?;
    put_block(disk, at, &b)
}

fn say_bad(text: &mut String, bad: BadCount) -> Result<(), CallError> {
    let count = bad.0;
    writeln!(text, "bad count {count}")?;
    Ok(())
}

fn say_nat(disk: &CaseDisk, words: Words<'_>, text: &mut String) -> Result<(), CallError> {
    let journal = match NatJournal::read(&area_of(disk, words)?) {
        Ok(journal) => journal,
        Err(bad) => return say_bad(text, bad),
    };
    let len = journal.len();
    writeln!(text, "records {len}")?;
    for k in 0..len {
        let record = journal.get(k);
        let (nid, version) = (record.nid, record.version);
        let (ino, addr) = (record.ino, record.addr);
        writeln!(text, "nid {nid} version {version} ino {ino} addr {addr}")?;
    }
    Ok(())
}

fn say_sit(disk: &CaseDisk, words: Words<'_>, text: &mut String) -> Result<(), CallError> {
    let journal = match SitJournal::read(&area_of(disk, words)?) {
        Ok(journal) => journal,
        Err(bad) => return say_bad(text, bad),
    };
    let len = journal.len();
    writeln!(text, "records {len}")?;
    for k in 0..len {
        let record = journal.get(k);
        let segment = record.segno;
        write!(text, "segment {segment} ")?;
        say_segment(text, &record.entry)?;
    }
    Ok(())
}

fn put_empty(disk: &mut CaseDisk, words: Words<'_>) -> Result<(), CallError> {
    let mut area = [0; 507];
    match words.text(1)? {
        "nat" => NatJournal::empty().write(&mut area),
        "sit" => SitJournal::empty().write(&mut area),
        _ => return Err(CallError::Words),
    }
    put_area(disk, words.number(2)?, words.number(3)?, &area)
}

fn push_nat(disk: &mut CaseDisk, words: Words<'_>, text: &mut String) -> Result<(), CallError> {
    let mut area = area_of(disk, words)?;
    let mut journal = match NatJournal::read(&area) {
        Ok(journal) => journal,
        Err(bad) => return say_bad(text, bad),
    };
    let mut record = NatRecord {
        nid: words.four(3)?,
        version: words.one(4)?,
        ino: words.four(5)?,
        addr: words.four(6)?,
    };
    let times = words.up_to(7, 100)?;
    let mut pushed = 0u64;
    for _ in 0..times {
        if journal.push(record) {
            pushed = pushed.saturating_add(1);
        }
        record.nid = record.nid.wrapping_add(1);
        record.addr = record.addr.wrapping_add(1);
    }
    writeln!(text, "pushed {pushed} of {times}")?;
    journal.write(&mut area);
    put_area(disk, words.number(1)?, words.number(2)?, &area)
}

fn push_sit(disk: &mut CaseDisk, words: Words<'_>, text: &mut String) -> Result<(), CallError> {
    let mut area = area_of(disk, words)?;
    let mut journal = match SitJournal::read(&area) {
        Ok(journal) => journal,
        Err(bad) => return say_bad(text, bad),
    };
    let mut segno = words.four(3)?;
    let entry = segment_of(words, 4)?;
    let times = words.up_to(8, 100)?;
    let mut pushed = 0u64;
    for _ in 0..times {
        if journal.push(SitRecord { segno, entry }) {
            pushed = pushed.saturating_add(1);
        }
        segno = segno.wrapping_add(1);
    }
    writeln!(text, "pushed {pushed} of {times}")?;
    journal.write(&mut area);
    put_area(disk, words.number(1)?, words.number(2)?, &area)
}
