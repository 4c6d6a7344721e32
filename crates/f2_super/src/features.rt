// The feature bits of a superblock.
ghost use Rattle.std.specs.Prelude.{⊤, [], ◌∷◌, codes};

use bitflags::{Flag, Flags, bitflag_items};

/// The feature bits that the tools read.
#[derive(Clone, Copy, PartialEq, Eq, Debug)]
pub struct Features(u32);

bitflag_items! {
    impl Features: u32 {
        const LOST_FOUND = 0x200;
        const SB_CHECKSUM = 0x800;
    }
}

impl Flags for Features {
    type Bits = u32;

    ghost exact = { ⊤ };

    ghost table = { (codes "LOST_FOUND", 0x200) ∷ (codes "SB_CHECKSUM", 0x800) ∷ [] };

    ghost set_of = { λ features. features.0 };

    fn flags<'a>() -> &'a [Flag<Features>] {
        Features::FLAGS
    }

    fn bits(&self) -> u32 {
        self.0
    }

    fn from_bits_retain(bits: u32) -> Features {
        Features(bits)
    }
}
