// Calls of f2_bytes: checksums, seals, bits, and the numbers of records.
ghost use Rattle.std.specs.Prelude.{◌≤◌, ◌<◌, ◌+◌, ◌^◌, IsTrue};
ghost use Rattle.f2_bytes.specs.Fields.{row_at};

use crate::words::{Words, all_bytes, block_of, part, put_block, put_part, yes_or_no};
use f2_bytes::{
    CHECKPOINT, FieldTable, SUPER, bit_lsb, bit_msb, count_bits, crc, passes, seal, sealed,
    set_bit_lsb, set_bit_msb, u8_at, u16_at, u32_at, u64_at,
};
use f2_case_disk::{CallError, CaseDisk};
use f2_disk::Block;
use f2_node::{FOOTER, INODE, inode_field, set_inode_field};

pub(crate) fn call(
    disk: &mut CaseDisk,
    words: Words<'_>,
    text: &mut String,
) -> Result<(), CallError> {
    match (words.name(), words.count()) {
        ("crc", 4) => say_crc(disk, words, text),
        ("sealed", 1) => yes_or_no(text, sealed(&all_bytes(&words.block(disk)?))),
        ("passes", 1) => yes_or_no(text, passes(&all_bytes(&words.block(disk)?))),
        ("seal", 1) => seal_block(disk, words),
        ("number", 3) => say_number(disk, words, text),
        ("bits", 4) => say_bits(disk, words, text),
        ("set-bit", 6) => set_bit(disk, words),
        ("count-bits", 3) => say_count(disk, words, text),
        ("field", 3) => say_field(disk, words, text),
        ("set-field", 4) => set_field(disk, words),
        _ => Err(CallError::Unknown),
    }
}

fn say_crc(disk: &CaseDisk, words: Words<'_>, text: &mut String) -> Result<(), CallError> {
    let b = disk.get(words.number(2)?);
    let bytes = part(&b, words.number(3)?, words.number(4)?)?;
    let checksum = crc(words.four(1)?, bytes);
    writeln!(text, "0x{checksum:08x}")?;
    Ok(())
}

fn seal_block(disk: &mut CaseDisk, words: Words<'_>) -> Result<(), CallError> {
    let mut bytes = all_bytes(&words.block(disk)?);
    seal(&mut bytes);
    put_block(disk, words.number(1)?, &block_of(&bytes))
}

fn say_number(disk: &CaseDisk, words: Words<'_>, text: &mut String) -> Result<(), CallError> {
    let b = words.block(disk)?;
    let width = words.number(3)?;
    let bytes = part(&b, words.number(2)?, width)?;
    let number = match width {
        1 => u64::from(u8_at(bytes, 0)),
        2 => u64::from(u16_at(bytes, 0)),
        4 => u64::from(u32_at(bytes, 0)),
        8 => u64_at(bytes, 0),
        _ => return Err(CallError::Words),
    };
    writeln!(text, "{number}")?;
    Ok(())
}

// The order of the bits in a byte.
#[derive(Clone, Copy)]
enum Order {
    Msb,
    Lsb,
}

fn order_of(words: Words<'_>) -> Result<Order, CallError> {
    match words.text(1)? {
        "msb" => Ok(Order::Msb),
        "lsb" => Ok(Order::Lsb),
        _ => Err(CallError::Words),
    }
}

fn say_bits(disk: &CaseDisk, words: Words<'_>, text: &mut String) -> Result<(), CallError> {
    let order = order_of(words)?;
    let b = disk.get(words.number(2)?);
    let map = part(&b, words.number(3)?, words.number(4)?)?;
    for k in 0..8 * map.len() {
        let set = match order {
            Order::Msb => bit_msb(map, k),
            Order::Lsb => bit_lsb(map, k),
        };
        text.push(if set { '1' } else { '0' })?;
        if k % 8 == 7 {
            text.push('\n')?;
        }
    }
    Ok(())
}

fn set_bit(disk: &mut CaseDisk, words: Words<'_>) -> Result<(), CallError> {
    let order = order_of(words)?;
    let at = words.number(2)?;
    let offset = words.number(3)?;
    let mut b = disk.get(at);
    let old = part(&b, offset, words.number(4)?)?;
    let mut map = [0; 4096];
    map[..old.len()].copy_from_slice(old);
    let k = words.number(5)?;
    if k >= 8 * old.len() as u64 {
        return Err(CallError::Words);
    }
    let on = words.up_to(6, 1)? == 1;
    let len = old.len();
    match order {
        Order::Msb => set_bit_msb(&mut map[..len], k as usize, on),
        Order::Lsb => set_bit_lsb(&mut map[..len], k as usize, on),
    }
    put_part(&mut b, offset, &map[..len])?;
    put_block(disk, at, &b)
}

fn say_count(disk: &CaseDisk, words: Words<'_>, text: &mut String) -> Result<(), CallError> {
    let b = words.block(disk)?;
    let count = count_bits(part(&b, words.number(2)?, words.number(3)?)?);
    writeln!(text, "{count}")?;
    Ok(())
}

// Whether a row lies in a record of so many bytes and has at most 8.
fn has_row<const N: usize>(table: &FieldTable<N>, len: usize, k: usize) -> bool
    ensures row { IsTrue result → k < N }
    ensures inside { IsTrue result → let row = row_at table.now.rows k in row.offset + row.width ≤ len }
    ensures narrow { IsTrue result → (row_at table.now.rows k).width ≤ 8 }
{
    if k >= N {
        return false;
    }
    let row = table.rows[k];
    row.width <= 8 && row.offset <= len && row.width <= len - row.offset
}

fn field<const N: usize>(table: &FieldTable<N>, record: &[u8], k: usize) -> Result<u64, CallError> {
    if !has_row(table, record.len(), k) {
        return Err(CallError::Words);
    }
    Ok(table.get(record, k))
}

fn put_field<const N: usize>(
    table: &FieldTable<N>,
    record: &mut [u8],
    k: usize,
    number: u64,
) -> Result<(), CallError> {
    if !has_row(table, record.len(), k) {
        return Err(CallError::Words);
    }
    if !fits(number, table.rows[k].width) {
        return Err(CallError::Words);
    }
    table.set(record, k, number);
    Ok(())
}

// Whether a number has room in so many bytes, of which a field has 1, 2, 4 or 8.
fn fits(number: u64, width: usize) -> bool
    ensures { IsTrue result → number < 256 ^ width }
{
    match width {
        1 => number < 0x100,
        2 => number < 0x1_0000,
        4 => number < 0x1_0000_0000,
        8 => true,
        _ => false,
    }
}

fn say_field(disk: &CaseDisk, words: Words<'_>, text: &mut String) -> Result<(), CallError> {
    let b = disk.get(words.number(2)?);
    let k = words.up_to(3, 64)?;
    let number = match words.text(1)? {
        "superblock" => field(&SUPER, &b.bytes()[1024..], k)?,
        "checkpoint" => field(&CHECKPOINT, b.bytes(), k)?,
        "footer" => field(&FOOTER, b.bytes(), k)?,
        "inode" if k < 29 => inode_field(&b, k),
        _ => return Err(CallError::Words),
    };
    writeln!(text, "{number}")?;
    Ok(())
}

// Puts a number into row `k` of the inode in a block.
fn put_inode_field(b: &mut Block, k: usize, number: u64) -> Result<(), CallError> {
    if k >= 29 || !fits(number, INODE.rows[k].width) {
        return Err(CallError::Words);
    }
    set_inode_field(b, k, number);
    Ok(())
}

fn set_field(disk: &mut CaseDisk, words: Words<'_>) -> Result<(), CallError> {
    let at = words.number(2)?;
    let mut b = disk.get(at);
    let mut bytes = all_bytes(&b);
    let k = words.up_to(3, 64)?;
    let number = words.number(4)?;
    match words.text(1)? {
        "superblock" => put_field(&SUPER, &mut bytes[1024..], k, number)?,
        "checkpoint" => put_field(&CHECKPOINT, &mut bytes, k, number)?,
        "footer" => put_field(&FOOTER, &mut bytes, k, number)?,
        "inode" => {
            put_inode_field(&mut b, k, number)?;
            bytes = all_bytes(&b);
        }
        _ => return Err(CallError::Words),
    }
    put_block(disk, at, &block_of(&bytes))
}
