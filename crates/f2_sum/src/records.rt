// The records of summaries and journals, and their bytes.
ghost use Rattle.std.specs.Prelude.{◌≡◌, ◌≤◌, ◌+◌, length};
ghost use Rattle.byteorder.specs.Endian.{little_bytes};
ghost use Rattle.f2_bytes.specs.Bytes.{bytes_at};
ghost use Rattle.f2_bytes.specs.Summary.{summary_at, summary_bytes as bytes_of_summary};
ghost use Rattle.f2_bytes.specs.Journal.{nat_entry_at, nat_record_at, FitsNatEntry, sit_entry_at, sit_record_at, FitsSitEntry, FitsSitBytes};
ghost use Rattle.f2_bytes.specs.Journal.{nat_entry_bytes as bytes_of_nat_entry, nat_record_bytes as bytes_of_nat_record};
ghost use Rattle.f2_bytes.specs.Journal.{sit_entry_bytes as bytes_of_sit_entry, sit_record_bytes as bytes_of_sit_record};
ghost use Rattle.f2_sum.specs.Records.{summary_of, nat_entry, nat_record, sit_entry, sit_record, FitsSummary, FitsNatRecord, FitsSitRecord};

use crate::bytes::put_bytes;
use byteorder::{ByteOrder, LittleEndian};
use f2_bytes::{u8_at, u16_at, u32_at, u64_at};

/// What a block of the main area holds: which node it belongs to, and its place there.
#[derive(Clone, Copy, Debug, PartialEq, Eq)]
pub struct Summary {
    /// The node to which the block belongs, or for a node block the node itself.
    pub nid: u32,
    /// The version of that node in the node address table.
    pub version: u8,
    /// The place of the block in that node.
    pub ofs: u16,
}

/// An entry of the node address table.
#[derive(Clone, Copy, Debug, PartialEq, Eq)]
pub struct NatEntry {
    /// How often the node's number was given out anew.
    pub version: u8,
    /// The inode to which the node belongs.
    pub ino: u32,
    /// The block where the node stands, or 0.
    pub addr: u32,
}

/// A record of the journal of the node address table.
#[derive(Clone, Copy, Debug, PartialEq, Eq)]
pub struct NatRecord {
    /// The node.
    pub nid: u32,
    /// How often the node's number was given out anew.
    pub version: u8,
    /// The inode to which the node belongs.
    pub ino: u32,
    /// The block where the node stands, or 0.
    pub addr: u32,
}

/// An entry of the segment table.
#[derive(Clone, Copy, Debug, PartialEq, Eq)]
pub struct SitEntry {
    /// The type of the segment's blocks, below 64.
    pub kind: u8,
    /// The number of valid blocks, below 1024.
    pub count: u16,
    /// A bit for each of the 512 blocks, each byte's most significant bit first.
    pub map: [u8; 64],
    /// When the segment was last written, in seconds.
    pub mtime: u64,
}

/// A record of the journal of the segment table.
#[derive(Clone, Copy, Debug, PartialEq, Eq)]
pub struct SitRecord {
    /// The main segment, counted from 0.
    pub segno: u32,
    /// Its entry, which goes before that of the table.
    pub entry: SitEntry,
}

/// The count of a journal area that says more records than have room there.
#[derive(Clone, Copy, Debug, PartialEq, Eq)]
pub struct BadCount(pub u16);

/// The summary in the 7 bytes from `at` on.
pub fn summary_at(b: &[u8], at: usize) -> Summary
    requires { at + 7 ≤ length b.now }
    ensures { summary_of result ≡ summary_at b.now at }
{
    Summary {
        nid: u32_at(b, at),
        version: u8_at(b, at + 4),
        ofs: u16_at(b, at + 5),
    }
}

// The 7 bytes of a summary.
pub(crate) fn summary_bytes(s: Summary) -> [u8; 7]
    ensures bytes { result ≡ bytes_of_summary (summary_of s) }
    ensures fits { FitsSummary (summary_of s) }
{
    let mut bytes = [0; 7];
    LittleEndian::write_u32(&mut bytes[0..4], s.nid);
    bytes[4] = s.version;
    LittleEndian::write_u16(&mut bytes[5..7], s.ofs);
    bytes
}

/// The entry of the node address table in the 9 bytes from `at` on.
pub fn nat_entry_at(b: &[u8], at: usize) -> NatEntry
    requires { at + 9 ≤ length b.now }
    ensures { nat_entry result ≡ nat_entry_at b.now at }
{
    NatEntry {
        version: u8_at(b, at),
        ino: u32_at(b, at + 1),
        addr: u32_at(b, at + 5),
    }
}

/// The 9 bytes of an entry of the node address table.
pub fn nat_entry_bytes(e: NatEntry) -> [u8; 9]
    ensures bytes { result ≡ bytes_of_nat_entry (nat_entry e) }
    ensures fits { FitsNatEntry (nat_entry e) }
{
    let mut bytes = [0; 9];
    bytes[0] = e.version;
    LittleEndian::write_u32(&mut bytes[1..5], e.ino);
    LittleEndian::write_u32(&mut bytes[5..9], e.addr);
    bytes
}

// The record in the 13 bytes from `at` on.
pub(crate) fn nat_record_at(b: &[u8], at: usize) -> NatRecord
    requires { at + 13 ≤ length b.now }
    ensures { nat_record result ≡ nat_record_at b.now at }
{
    let entry = nat_entry_at(b, at + 4);
    NatRecord {
        nid: u32_at(b, at),
        version: entry.version,
        ino: entry.ino,
        addr: entry.addr,
    }
}

// The 13 bytes of a record.
pub(crate) fn nat_record_bytes(r: NatRecord) -> [u8; 13]
    ensures bytes { result ≡ bytes_of_nat_record (nat_record r) }
    ensures fits { FitsNatRecord (nat_record r) }
{
    let mut bytes = [0; 13];
    LittleEndian::write_u32(&mut bytes[0..4], r.nid);
    bytes[4] = r.version;
    LittleEndian::write_u32(&mut bytes[5..9], r.ino);
    LittleEndian::write_u32(&mut bytes[9..13], r.addr);
    bytes
}

// The 64 bytes from `at` on.
fn read_map(b: &[u8], at: usize) -> [u8; 64]
    requires { at + 64 ≤ length b.now }
    ensures { result ≡ bytes_at b.now at 64 }
{
    let mut map = [0; 64];
    map.copy_from_slice(&b[at..at + 64]);
    map
}

/// The entry of the segment table in the 74 bytes from `at` on.
pub fn sit_entry_at(b: &[u8], at: usize) -> SitEntry
    requires { at + 74 ≤ length b.now }
    ensures bytes { sit_entry result ≡ sit_entry_at b.now at }
    ensures fits { FitsSitEntry (sit_entry result) }
{
    let blocks = u16_at(b, at);
    SitEntry {
        kind: (blocks / 1024) as u8,
        count: blocks % 1024,
        map: read_map(b, at + 2),
        mtime: u64_at(b, at + 66),
    }
}

// The bytes of a number of two bytes.
fn half_bytes(v: u16) -> [u8; 2]
    ensures { result ≡ little_bytes 2 v }
{
    let mut bytes = [0; 2];
    LittleEndian::write_u16(&mut bytes[0..2], v);
    bytes
}

// The bytes of a number of four bytes.
fn word_bytes(v: u32) -> [u8; 4]
    ensures { result ≡ little_bytes 4 v }
{
    let mut bytes = [0; 4];
    LittleEndian::write_u32(&mut bytes[0..4], v);
    bytes
}

// The bytes of a number of eight bytes.
fn long_bytes(v: u64) -> [u8; 8]
    ensures { result ≡ little_bytes 8 v }
{
    let mut bytes = [0; 8];
    LittleEndian::write_u64(&mut bytes[0..8], v);
    bytes
}

/// The 74 bytes of an entry of the segment table, whose kind is below 64 and whose count is below 1024.
pub fn sit_entry_bytes(e: SitEntry) -> [u8; 74]
    requires { FitsSitEntry (sit_entry e) }
    ensures bytes { result ≡ bytes_of_sit_entry (sit_entry e) }
    ensures fits { FitsSitBytes (sit_entry e) }
{
    let blocks = 1024 * u16::from(e.kind) + e.count;
    let mut bytes = [0; 74];
    put_bytes(&mut bytes, 0, &half_bytes(blocks));
    put_bytes(&mut bytes, 2, &e.map);
    put_bytes(&mut bytes, 66, &long_bytes(e.mtime));
    bytes
}

// The record in the 78 bytes from `at` on.
pub(crate) fn sit_record_at(b: &[u8], at: usize) -> SitRecord
    requires { at + 78 ≤ length b.now }
    ensures bytes { sit_record result ≡ sit_record_at b.now at }
    ensures fits { FitsSitEntry (sit_entry result.entry) }
{
    SitRecord {
        segno: u32_at(b, at),
        entry: sit_entry_at(b, at + 4),
    }
}

// The 78 bytes of a record.
pub(crate) fn sit_record_bytes(r: SitRecord) -> [u8; 78]
    requires { FitsSitEntry (sit_entry r.entry) }
    ensures bytes { result ≡ bytes_of_sit_record (sit_record r) }
    ensures fits { FitsSitRecord (sit_record r) }
{
    let mut bytes = [0; 78];
    put_bytes(&mut bytes, 0, &word_bytes(r.segno));
    put_bytes(&mut bytes, 4, &sit_entry_bytes(r.entry));
    bytes
}
