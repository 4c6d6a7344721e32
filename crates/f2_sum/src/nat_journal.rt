// The journal of the node address table.
ghost use Rattle.std.specs.Prelude.{◌≡◌, ◌≤◌, ◌<◌, ◌+◌, ◌*◌, ◌↔◌, ◌++◌, [], ◌∷◌, length, take, map, All, IsTrue, IfOk, OnOk, IfErr, OnErr, slice_get};
ghost use Rattle.std.specs.Bool.{OnTrue, OnFalse};
ghost use Rattle.std.specs.List.{range_with_len};
ghost use Rattle.f2_bytes.specs.Journal.{nat_record_at, nat_records, nat_room, nat_area, journal_count};
ghost use Rattle.f2_sum.specs.Records.{nat_record, FitsNatRecord};

use crate::bytes::{put_bytes, start_area};
use crate::records::{BadCount, NatRecord, nat_record_at, nat_record_bytes};
use f2_bytes::u16_at;
use std::marker::Model;

// How many records have room in a journal area.
const ROOM: usize = 38;

const NO_RECORD: NatRecord = NatRecord {
    nid: 0,
    version: 0,
    ino: 0,
    addr: 0,
};

/// The journal of the node address table: at most 38 records, seen as the list of them. The first record of a nid goes
/// before the table.
#[derive(Debug, Drop)]
pub struct NatJournal {
    records: [NatRecord; ROOM],
    len: usize,
}

impl Model for NatJournal {
    ghost use Rattle.std.specs.Prelude.{◌≡◌, ◌≤◌, List, length, take, map};
    ghost use Rattle.f2_bytes.specs.Journal.{NatRecord};

    ghost Value = { List NatRecord };

    ghost use Rattle.f2_sum.specs.Records.{nat_record};

    ghost view = { λ j. map nat_record (take j.len j.records) };

    ghost invariant = { λ j. (length j.records ≡ 38) × (j.len ≤ 38) };
}

// The first `count` records of a journal area, in an array.
fn read_records(area: &[u8], count: usize) -> [NatRecord; ROOM]
    requires size { length area.now ≡ 507 }
    requires room { count ≤ nat_room }
    ensures size { length result ≡ 38 }
    ensures records { map nat_record (take count result) ≡ map (λ k. nat_record_at area.now (2 + 13 * k)) (range_with_len 0 count) }
{
    let mut records = [NO_RECORD; ROOM];
    for k in 0..count {
        records[k] = nat_record_at(area, 2 + 13 * k);
    }
    records
}

// Fills a journal area with these records.
fn write_records(area: &mut [u8], records: &[NatRecord])
    requires size { length area.old ≡ 507 }
    requires room { length records.now ≤ nat_room }
    ensures bytes { area.new ≡ nat_area (map nat_record records.now) }
    ensures fits { All FitsNatRecord (map nat_record records.now) }
{
    start_area(area, records.len() as u16);
    for (k, record) in records.iter().enumerate() {
        put_bytes(area, 2 + 13 * k, &nat_record_bytes(*record));
    }
}

impl NatJournal {
    /// A journal without records.
    pub fn empty() -> NatJournal
        ensures { result ≡ [] }
    {
        NatJournal {
            records: [NO_RECORD; ROOM],
            len: 0,
        }
    }

    /// The journal in an area of 507 bytes, or the count that the area says where that passes 38.
    pub fn read(area: &[u8; 507]) -> Result<NatJournal, BadCount>
        ensures ok { IfOk result (λ journal. journal ≡ nat_records area.now) }
        ensures within { OnOk result (journal_count area.now ≤ nat_room) }
        ensures past { OnErr result (nat_room < journal_count area.now) }
        ensures count { IfErr result (λ bad. bad.0 ≡ journal_count area.now) }
    {
        let count = u16_at(area, 0);
        if usize::from(count) > ROOM {
            return Err(BadCount(count));
        }
        let len = usize::from(count);
        Ok(NatJournal {
            records: read_records(area, len),
            len,
        })
    }

    /// Fills the area: the number of records, the records in their order, and zeros behind them. `read` of the area
    /// gives the journal again.
    pub fn write(&self, area: &mut [u8; 507])
        ensures bytes { area.new ≡ nat_area self.now }
        ensures count { journal_count area.new ≡ length self.now }
        ensures read { nat_records area.new ≡ self.now }
    {
        write_records(area, &self.records[..self.len]);
    }

    /// The number of records, at most 38.
    pub fn len(&self) -> usize
        ensures len { result ≡ length self.now }
        ensures room { result ≤ nat_room }
    {
        self.len
    }

    /// Record `k`.
    pub fn get(&self, k: usize) -> NatRecord
        requires { k < length self.now }
        ensures { slice_get self.now k ≡ Some (nat_record result) }
    {
        let records = &self.records;
        records[k]
    }

    /// Puts the record behind the others; false where the journal is full, which then stays as it is.
    pub fn push(&mut self, r: NatRecord) -> bool
        ensures room { IsTrue result ↔ (length self.old < nat_room) }
        ensures ok { OnTrue result (self.new ≡ self.old ++ nat_record r ∷ []) }
        ensures full { OnFalse result (length self.old ≡ nat_room) }
        ensures unchanged { OnFalse result (self.new ≡ self.old) }
    {
        if self.len == ROOM {
            return false;
        }
        self.records[self.len] = r;
        self.len += 1;
        true
    }
}
