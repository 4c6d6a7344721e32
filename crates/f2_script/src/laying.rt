// The statements that lay out blocks.
use crate::bench::{Bench, Kind};
use crate::lines::Line;
use crate::names::block_of_names;
use crate::slip::{Slip, wrong};
use f2_bytes::{crc, seal};
use f2_disk::Block;
use std::alloc::Global;

// Puts bytes into a block where they have room.
fn put(alloc: Global, b: &mut Block, offset: u64, bytes: &[u8]) -> Result<(), Slip> {
    if offset < 4096 && bytes.len() as u64 <= 4096 - offset {
        b.put(offset as usize, bytes);
        return Ok(());
    }
    Err(wrong(alloc, "the bytes pass the end of the block"))
}

impl Bench {
    // Puts bytes into the block and at the offset that the line names first.
    fn put_bytes(&mut self, line: &Line, bytes: &[u8]) -> Result<(), Slip> {
        let at = self.block_at(line, 1)?;
        let offset = self.numbers.at(line, 2)?;
        let mut b = self.disk.get(at);
        put(self.alloc, &mut b, offset, bytes)?;
        self.disk.set(at, &b)?;
        Ok(())
    }

    // The block that the word at this place names; it lies in the disk.
    pub(crate) fn block_at(&self, line: &Line, place: usize) -> Result<u64, Slip> {
        let at = self.numbers.at(line, place)?;
        if at < self.disk.blocks() {
            Ok(at)
        } else {
            Err(wrong(self.alloc, "the disk has no such block"))
        }
    }

    // Numbers of so many bytes each, the least byte first.
    pub(crate) fn bytes_of(
        &self,
        line: &Line,
        place: usize,
        width: usize,
    ) -> Result<Vec<u8>, Slip> {
        let mut bytes = Vec::new(self.alloc);
        for number in self.numbers.from(line, place)? {
            let all = number.to_le_bytes();
            for (k, byte) in all.iter().enumerate() {
                if k < width {
                    bytes.push(*byte)?;
                } else if *byte != 0 {
                    return Err(wrong(self.alloc, "a number is too large for its bytes"));
                }
            }
        }
        Ok(bytes)
    }

    fn lay_disk(&mut self, line: &Line, kind: Kind) -> Result<(), Slip> {
        let blocks = self.numbers.at(line, 1)?;
        self.disk = f2_case_disk::CaseDisk::new(self.alloc, blocks);
        self.kind = kind;
        Ok(())
    }

    fn lay_fill(&mut self, line: &Line) -> Result<(), Slip> {
        let count = self.numbers.at(line, 3)?;
        let byte = self.numbers.at(line, 4)?;
        if count > 4096 || byte > 255 {
            return Err(wrong(self.alloc, "fill BLOCK OFFSET COUNT BYTE"));
        }
        let mut bytes = Vec::new(self.alloc);
        for _ in 0..count {
            bytes.push(byte as u8)?;
        }
        self.put_bytes(line, &bytes)
    }

    fn lay_copy(&mut self, line: &Line) -> Result<(), Slip> {
        let from = self.block_at(line, 1)?;
        let to = self.block_at(line, 2)?;
        let b = self.disk.get(from);
        self.disk.set(to, &b)?;
        Ok(())
    }

    fn lay_seal(&mut self, line: &Line) -> Result<(), Slip> {
        let at = self.block_at(line, 1)?;
        let mut bytes = [0; 4096];
        bytes.copy_from_slice(self.disk.get(at).bytes());
        seal(&mut bytes);
        let mut b = Block::zeros();
        b.put(0, &bytes);
        self.disk.set(at, &b)?;
        Ok(())
    }

    // `sum BLOCK START LENGTH OFFSET`: the checksum of some bytes of a block goes to an offset of it.
    fn lay_sum(&mut self, line: &Line) -> Result<(), Slip> {
        let at = self.block_at(line, 1)?;
        let start = self.numbers.at(line, 2)?;
        let length = self.numbers.at(line, 3)?;
        let offset = self.numbers.at(line, 4)?;
        let mut b = self.disk.get(at);
        if start > 4096 || length > 4096 - start {
            return Err(wrong(self.alloc, "the bytes pass the end of the block"));
        }
        let (_, rest) = b.bytes().split_at(start as usize);
        let (part, _) = rest.split_at(length as usize);
        let sum = crc(0xF2F5_2010, part);
        put(self.alloc, &mut b, offset, &sum.to_le_bytes())?;
        self.disk.set(at, &b)?;
        Ok(())
    }

    fn lay_names(&mut self, line: &Line) -> Result<(), Slip> {
        let at = self.block_at(line, 1)?;
        let (_, words) = line.words.split_at(2.min(line.words.len()));
        let b = block_of_names(self.alloc, &self.numbers, words)?;
        self.disk.set(at, &b)?;
        Ok(())
    }

    fn lay_numbers(&mut self, line: &Line, width: usize) -> Result<(), Slip> {
        let bytes = self.bytes_of(line, 3, width)?;
        self.put_bytes(line, &bytes)
    }

    // Lays out what the line says. Answers whether it is a line that lays out something.
    pub(crate) fn lay(&mut self, line: &Line) -> Result<bool, Slip> {
        match line.verb() {
            "disk" => self.lay_disk(line, Kind::Case)?,
            "memory" => self.lay_disk(line, Kind::Memory)?,
            "calm" => self.lay_disk(line, Kind::Calm)?,
            "at" => self.lay_numbers(line, 1)?,
            "n2" => self.lay_numbers(line, 2)?,
            "n4" => self.lay_numbers(line, 4)?,
            "n8" => self.lay_numbers(line, 8)?,
            "text" => self.put_bytes(line, line.word(3).as_bytes())?,
            "fill" => self.lay_fill(line)?,
            "copy" => self.lay_copy(line)?,
            "seal" => self.lay_seal(line)?,
            "sum" => self.lay_sum(line)?,
            "names" => self.lay_names(line)?,
            "lay" => self.lay_image(line)?,
            _ => return Ok(false),
        }
        Ok(true)
    }
}
