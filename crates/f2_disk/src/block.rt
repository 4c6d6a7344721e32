// A block of a disk.
use std::marker::Model;

/// The 4096 bytes of a block.
#[derive(Clone, Copy)]
pub struct Block {
    bytes: [u8; 4096],
}

impl Model for Block {
    ghost use Rattle.std.specs.Prelude.{ℕ, List};
    ghost use Rattle.f2_bytes.specs.Bytes.{IsBlock};

    ghost Value = { List ℕ };

    ghost view = { λ b. b.bytes };

    ghost invariant = { λ b. IsBlock b.bytes };

    ghost inverse = { λ bytes. record { bytes = bytes } };
}

impl Block {
    ghost use Rattle.std.specs.Prelude.{◌≡◌, ◌≤◌, ◌+◌, ◌++◌, length, take, drop, replicate};
    ghost use Rattle.f2_bytes.specs.Bytes.{IsBlock};

    /// A block of zeros.
    pub fn zeros() -> Block
        ensures { result ≡ replicate 4096 0 }
    {
        Block { bytes: [0; 4096] }
    }

    /// The 4096 bytes.
    pub fn bytes(&self) -> &[u8]
        ensures same { result.now ≡ self.now }
        ensures block { IsBlock self.now }
    {
        &self.bytes
    }

    /// Puts these bytes in from byte `at` on, and changes no other byte.
    pub fn put(&mut self, at: usize, from: &[u8])
        requires { at + length from.now ≤ 4096 }
        ensures bytes { self.new ≡ take at self.old ++ from.now ++ drop (at + length from.now) self.old }
        ensures block { IsBlock self.old }
    {
        self.bytes[at..at + from.len()].copy_from_slice(from);
    }
}
