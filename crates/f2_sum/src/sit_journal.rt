// The journal of the segment table.
ghost use Rattle.std.specs.Prelude.{◌≡◌, ◌≤◌, ◌<◌, ◌+◌, ◌*◌, ◌↔◌, ◌++◌, [], ◌∷◌, length, take, map, All, IsTrue, IfOk, OnOk, IfErr, OnErr, slice_get};
ghost use Rattle.std.specs.Bool.{OnTrue, OnFalse};
ghost use Rattle.std.specs.List.{range_with_len};
ghost use Rattle.f2_bytes.specs.Journal.{sit_record_at, sit_records, sit_room, sit_area, journal_count, FitsSitEntry};
ghost use Rattle.f2_sum.specs.Records.{sit_entry, sit_record, FitsSitRecord};

use crate::bytes::{put_bytes, start_area};
use crate::records::{BadCount, SitEntry, SitRecord, sit_record_at, sit_record_bytes};
use f2_bytes::u16_at;
use std::marker::Model;

// How many records have room in a journal area.
const ROOM: usize = 6;

const NO_RECORD: SitRecord = SitRecord {
    segno: 0,
    entry: SitEntry {
        kind: 0,
        count: 0,
        map: [0; 64],
        mtime: 0,
    },
};

/// The journal of the segment table: at most 6 records, seen as the list of them. The first record of a segment goes
/// before the table.
#[derive(Debug, Drop)]
pub struct SitJournal {
    records: [SitRecord; ROOM],
    len: usize,
}

impl Model for SitJournal {
    ghost use Rattle.std.specs.Prelude.{List, take, map};
    ghost use Rattle.f2_bytes.specs.Journal.{SitRecord};

    ghost Value = { List SitRecord };

    ghost use Rattle.f2_sum.specs.Records.{sit_record, IsSitJournal};

    ghost view = { λ j. map sit_record (take j.len j.records) };

    ghost invariant = { λ j. IsSitJournal j.len j.records };
}

// The first `count` records of a journal area, in an array.
fn read_records(area: &[u8], count: usize) -> [SitRecord; ROOM]
    requires size { length area.now ≡ 507 }
    requires room { count ≤ sit_room }
    ensures size { length result ≡ 6 }
    ensures records { map sit_record (take count result) ≡ map (λ k. sit_record_at area.now (2 + 78 * k)) (range_with_len 0 count) }
    ensures fits { All (λ r. FitsSitEntry r.entry) (map sit_record (take count result)) }
{
    let mut records = [NO_RECORD; ROOM];
    for k in 0..count {
        records[k] = sit_record_at(area, 2 + 78 * k);
    }
    records
}

// Fills a journal area with these records.
fn write_records(area: &mut [u8], records: &[SitRecord])
    requires size { length area.old ≡ 507 }
    requires room { length records.now ≤ sit_room }
    requires entries { All (λ r. FitsSitEntry r.entry) (map sit_record records.now) }
    ensures bytes { area.new ≡ sit_area (map sit_record records.now) }
    ensures fits { All FitsSitRecord (map sit_record records.now) }
{
    start_area(area, records.len() as u16);
    for (k, record) in records.iter().enumerate() {
        put_bytes(area, 2 + 78 * k, &sit_record_bytes(*record));
    }
}

impl SitJournal {
    /// A journal without records.
    pub fn empty() -> SitJournal
        ensures { result ≡ [] }
    {
        SitJournal {
            records: [NO_RECORD; ROOM],
            len: 0,
        }
    }

    /// The journal in an area of 507 bytes, or the count that the area says where that passes 6.
    pub fn read(area: &[u8; 507]) -> Result<SitJournal, BadCount>
        ensures ok { IfOk result (λ journal. journal ≡ sit_records area.now) }
        ensures within { OnOk result (journal_count area.now ≤ sit_room) }
        ensures past { OnErr result (sit_room < journal_count area.now) }
        ensures count { IfErr result (λ bad. bad.0 ≡ journal_count area.now) }
    {
        let count = u16_at(area, 0);
        if usize::from(count) > ROOM {
            return Err(BadCount(count));
        }
        let len = usize::from(count);
        Ok(SitJournal {
            records: read_records(area, len),
            len,
        })
    }

    /// Fills the area: the number of records, the records in their order, and zeros behind them. `read` of the area
    /// gives the journal again.
    pub fn write(&self, area: &mut [u8; 507])
        ensures bytes { area.new ≡ sit_area self.now }
        ensures count { journal_count area.new ≡ length self.now }
        ensures read { sit_records area.new ≡ self.now }
    {
        write_records(area, &self.records[..self.len]);
    }

    /// The number of records, at most 6.
    pub fn len(&self) -> usize
        ensures len { result ≡ length self.now }
        ensures room { result ≤ sit_room }
    {
        self.len
    }

    /// Record `k`.
    pub fn get(&self, k: usize) -> SitRecord
        requires { k < length self.now }
        ensures record { slice_get self.now k ≡ Some (sit_record result) }
        ensures fits { FitsSitEntry (sit_entry result.entry) }
    {
        let records = &self.records;
        records[k]
    }

    /// Puts the record, whose kind is below 64 and whose count is below 1024, behind the others; false where the
    /// journal is full, which then stays as it is.
    pub fn push(&mut self, r: SitRecord) -> bool
        requires { FitsSitEntry (sit_entry r.entry) }
        ensures room { IsTrue result ↔ (length self.old < sit_room) }
        ensures ok { OnTrue result (self.new ≡ self.old ++ sit_record r ∷ []) }
        ensures full { OnFalse result (length self.old ≡ sit_room) }
        ensures unchanged { OnFalse result (self.new ≡ self.old) }
    {
        if self.len == ROOM {
            return false;
        }
        self.records[self.len] = r;
        self.len += 1;
        true
    }
}
