// The lines of the entries of both tables.
ghost use Rattle.std.specs.Prelude.{◌≡◌, ◌≤◌, ◌+◌, ◌++◌, length, decimal, Some, OnOk};
ghost use Rattle.f2_sum.specs.Records.{nat_entry, sit_entry};
ghost use Rattle.f2_dump.specs.Text.{nat_line, sit_line};

use crate::hex::push_hex;
use f2_sum::{NatEntry, SitEntry};
use itoa::Buffer;
use std::alloc::AllocError;

/// Appends a number in decimal digits, and then these bytes.
pub fn push_decimal(text: &mut Vec<u8>, number: u64, after: &[u8]) -> Result<(), AllocError>
    ensures digits { OnOk result (text.new.items ≡ text.old.items ++ decimal number ++ after.now) }
    ensures size { length text.new.items ≤ length text.old.items + 20 + length after.now }
{
    let mut buffer = Buffer::new();
    text.extend_from_slice(buffer.format(number).as_bytes())?;
    text.extend_from_slice(after)
}

// Appends the line of a node.
pub(crate) fn push_nat_line(text: &mut Vec<u8>, nid: u32, e: &NatEntry) -> Result<(), AllocError>
    ensures line { OnOk result (text.new.items ≡ text.old.items ++ nat_line nid (Some (nat_entry e.now))) }
    ensures size { length text.new.items ≤ length text.old.items + 256 }
{
    push_decimal(text, u64::from(nid), b" ")?;
    push_decimal(text, u64::from(e.ino), b" ")?;
    push_decimal(text, u64::from(e.addr), b" ")?;
    push_decimal(text, u64::from(e.version), b"\n")
}

// Appends the line of a segment.
pub(crate) fn push_sit_line(
    text: &mut Vec<u8>,
    segment: u32,
    e: &SitEntry,
) -> Result<(), AllocError>
    ensures line { OnOk result (text.new.items ≡ text.old.items ++ sit_line segment (sit_entry e.now)) }
    ensures size { length text.new.items ≤ length text.old.items + 256 }
{
    push_decimal(text, u64::from(segment), b" ")?;
    push_decimal(text, u64::from(e.kind), b" ")?;
    push_decimal(text, u64::from(e.count), b" ")?;
    push_decimal(text, e.mtime, b" ")?;
    push_hex(text, &e.map)?;
    text.extend_from_slice(b"\n")
}
