// A block of names of a directory.
use crate::lines::Word;
use crate::numbers::Numbers;
use crate::slip::{Slip, wrong};
use f2_dent::name_hash;
use f2_disk::Block;
use std::alloc::Global;

// Puts bytes into a block, as far as they have room there.
fn put(b: &mut Block, offset: usize, bytes: &[u8]) {
    if offset < 4096 && bytes.len() <= 4096 - offset {
        b.put(offset, bytes);
    }
}

// Puts an item into a slot of a block, and answers the slot behind it.
fn put_item(b: &mut Block, slot: usize, name: &[u8], ino: u32, kind: u8) -> usize {
    let taken = (name.len().min(255) + 7) / 8;
    let end = slot.min(214) + taken.max(1);
    for k in slot.min(214)..end.min(214) {
        let bits = b.bytes()[k / 8] | 1u8 << (k % 8);
        put(b, k / 8, &[bits]);
    }
    let at = 30 + 11 * slot.min(214);
    put(b, at, &name_hash(name).to_le_bytes());
    put(b, at + 4, &ino.to_le_bytes());
    put(b, at + 8, &[name.len().min(255) as u8, 0, kind]);
    put(b, 2384 + 8 * slot.min(214), name);
    end
}

// The name, inode number and type of a word `NAME=INO/TYPE`.
fn item_of(alloc: Global, numbers: &Numbers, text: &str) -> Result<(String, u32, u8), Slip> {
    let form = "an item is written NAME=INO/TYPE";
    let Some((name, rest)) = text.rsplit_once('=') else {
        return Err(wrong(alloc, form));
    };
    let Some((ino, kind)) = rest.split_once('/') else {
        return Err(wrong(alloc, form));
    };
    match (numbers.value(ino), numbers.value(kind)) {
        (Some(ino), Some(kind)) if ino < 0x1_0000_0000 && kind < 256 => {
            Ok((String::from_str(alloc, name)?, ino as u32, kind as u8))
        }
        _ => Err(wrong(alloc, form)),
    }
}

// A block with these items, one behind the other from slot 0 on.
pub(crate) fn block_of_names(
    alloc: Global,
    numbers: &Numbers,
    words: &[Word],
) -> Result<Block, Slip> {
    let mut b = Block::zeros();
    let mut slot = 0;
    for word in words {
        let (name, ino, kind) = item_of(alloc, numbers, word.text.as_str())?;
        slot = put_item(&mut b, slot, name.as_bytes(), ino, kind);
    }
    Ok(b)
}
