// The words of a call, and the parts of blocks that they name.
ghost use Rattle.std.specs.Prelude.{◌≡◌, ◌≤◌, length, IfOk};

use f2_case_disk::{CallError, CaseDisk, number_of};
use f2_disk::Block;

// The words of a call: its name, and those behind, which are counted from 1.
#[derive(Clone, Copy)]
pub(crate) struct Words<'a> {
    words: &'a [String],
}

impl<'a> Words<'a> {
    ghost use Rattle.std.specs.Prelude.{◌≤◌, IfOk};

    pub(crate) fn new(words: &'a [String]) -> Words<'a> {
        Words { words }
    }

    // The name of the call.
    pub(crate) fn name(self) -> &'a str {
        match self.words.first() {
            Some(word) => word.as_str(),
            None => "",
        }
    }

    // How many words stand behind the name.
    pub(crate) fn count(self) -> usize {
        self.words.len().saturating_sub(1)
    }

    pub(crate) fn text(self, place: usize) -> Result<&'a str, CallError> {
        match self.words.get(place) {
            Some(word) => Ok(word.as_str()),
            None => Err(CallError::Words),
        }
    }

    pub(crate) fn number(self, place: usize) -> Result<u64, CallError> {
        number_of(self.text(place)?).ok_or(CallError::Words)
    }

    // A number of at most four bytes.
    pub(crate) fn four(self, place: usize) -> Result<u32, CallError> {
        u32::try_from(self.number(place)?).map_err(|_| CallError::Words)
    }

    // A number of at most two bytes.
    pub(crate) fn two(self, place: usize) -> Result<u16, CallError> {
        u16::try_from(self.number(place)?).map_err(|_| CallError::Words)
    }

    // A number of one byte.
    pub(crate) fn one(self, place: usize) -> Result<u8, CallError> {
        u8::try_from(self.number(place)?).map_err(|_| CallError::Words)
    }

    // A number of at most this much.
    pub(crate) fn up_to(self, place: usize, most: usize) -> Result<usize, CallError>
        ensures { IfOk result (λ number. number ≤ most) }
    {
        let number = self.number(place)?;
        if number > most as u64 {
            return Err(CallError::Words);
        }
        Ok(number as usize)
    }

    // The block at the number in the first word.
    pub(crate) fn block(self, disk: &CaseDisk) -> Result<Block, CallError> {
        Ok(disk.get(self.number(1)?))
    }
}

// So many bytes of a block from an offset on.
pub(crate) fn part<'a>(b: &'a Block, offset: u64, count: u64) -> Result<&'a [u8], CallError>
    ensures length { IfOk result (λ part. length part.now ≡ count) }
    ensures few { IfOk result (λ part. length part.now ≤ 4096) }
{
    if offset > 4096 || count > 4096 - offset {
        return Err(CallError::Words);
    }
    let from = offset as usize;
    Ok(&b.bytes()[from..from + count as usize])
}

// Puts bytes into a block from an offset on, where they have room.
pub(crate) fn put_part(b: &mut Block, offset: u64, bytes: &[u8]) -> Result<(), CallError> {
    if offset > 4096 || bytes.len() as u64 > 4096 - offset {
        return Err(CallError::Words);
    }
    b.put(offset as usize, bytes);
    Ok(())
}

// The 4096 bytes of a block.
pub(crate) fn all_bytes(b: &Block) -> [u8; 4096] {
    let mut bytes = [0; 4096];
    bytes.copy_from_slice(b.bytes());
    bytes
}

// The block with these bytes.
pub(crate) fn block_of(bytes: &[u8; 4096]) -> Block {
    let mut b = Block::zeros();
    b.put(0, bytes);
    b
}

// Puts a block on the disk, which has a place for it.
pub(crate) fn put_block(disk: &mut CaseDisk, at: u64, b: &Block) -> Result<(), CallError> {
    if at >= disk.blocks() {
        return Err(CallError::Words);
    }
    disk.set(at, b)?;
    Ok(())
}

// `yes` or `no`.
pub(crate) fn yes_or_no(text: &mut String, yes: bool) -> Result<(), CallError> {
    text.push_str(if yes { "yes\n" } else { "no\n" })?;
    Ok(())
}
