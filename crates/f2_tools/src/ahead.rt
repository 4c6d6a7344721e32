// Blocks of a file that are read before they are asked for: calls on blocks that follow each other are then served from
// memory.
ghost use Rattle.std.specs.Prelude.{◌≡◌, ◌<◌, ◌≤◌, ◌-◌, ◌^◌, true, IfSome, length};

use std::fs::File;
use std::os::unix::fs::FileExt;

// The bytes of a block, and the most blocks that are read at once.
const BLOCK: usize = 4096;

const MOST: u8 = 16;

/// Blocks that follow each other, as they were read.
#[derive(Drop)]
pub struct Ahead {
    first: u64,
    count: u8,
    bytes: [u8; 65_536],
}

impl Ahead {
    /// No blocks.
    pub fn none() -> Ahead {
        Ahead {
            first: u64::MAX,
            count: 0,
            bytes: [0; 65_536],
        }
    }

    // Whether a block is among them.
    fn has(&self, at: u64) -> bool
        ensures { result ≡ true → (self.now.first ≤ at) × (at - self.now.first < self.now.count) }
    {
        self.first <= at && at - self.first < u64::from(self.count)
    }

    /// The bytes of a block, if it is among them.
    pub fn get(&self, at: u64) -> Option<&[u8]>
        ensures { IfSome result (λ bytes. length bytes.now ≡ 4096) }
    {
        if !self.has(at) {
            return None;
        }
        let start = (at - self.first) as usize * BLOCK;
        self.bytes.get(start..start + BLOCK)
    }

    /// Forgets them all, if a block is among them.
    pub fn forget(&mut self, at: u64) {
        if self.has(at) {
            self.count = 0;
        }
    }

    // How many blocks to read from one on, where the file has so many: twice as many as the last time where they follow those.
    fn wanted(&self, at: u64, blocks: u64) -> u8
        requires small { at < 2 ^ 52 }
        ensures some { 1 ≤ result }
        ensures few { result ≤ 16 }
    {
        let twice = self.count.saturating_mul(2).min(MOST).max(1);
        let follows = self.first.checked_add(u64::from(self.count)) == Some(at);
        if follows && at + u64::from(twice) <= blocks {
            twice
        } else {
            1
        }
    }

    // Reads so many blocks.
    fn read(&mut self, file: &File, at: u64, count: u8) -> bool
        requires small { at < 2 ^ 52 }
        requires few { count ≤ 16 }
    {
        self.count = 0;
        let part = &mut self.bytes[..usize::from(count) * BLOCK];
        if file.read_exact_at(part, at * 4096).is_err() {
            return false;
        }
        self.first = at;
        self.count = count;
        true
    }

    /// Sees to it that a block of a file of so many blocks was read, and reads some behind it where reads go on in order.
    /// False where it can't be read.
    pub fn find(&mut self, file: &File, at: u64, blocks: u64) -> bool
        requires { at < 2 ^ 52 }
    {
        if self.has(at) {
            return true;
        }
        let count = self.wanted(at, blocks);
        // where more than the block can't be read, it may be there by itself
        self.read(file, at, count) || self.read(file, at, 1)
    }
}
