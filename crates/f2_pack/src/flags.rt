// The flags of a checkpoint.
ghost use Rattle.std.specs.Prelude.{⊤, [], ◌∷◌, codes};

use bitflags::{Flag, Flags, bitflag_items};

/// The flags of a checkpoint that say what its pack holds.
#[derive(Clone, Copy, PartialEq, Eq, Debug)]
pub struct CheckpointFlags(u32);

bitflag_items! {
    impl CheckpointFlags: u32 {
        const UMOUNT = 0x1;
        const ORPHANS = 0x2;
        const COMPACT_SUMMARIES = 0x4;
        const FASTBOOT = 0x20;
        const LARGE_NAT_BITMAP = 0x400;
    }
}

impl Flags for CheckpointFlags {
    type Bits = u32;

    ghost exact = { ⊤ };

    ghost table = { (codes "UMOUNT", 0x1) ∷ (codes "ORPHANS", 0x2) ∷ (codes "COMPACT_SUMMARIES", 0x4) ∷ (codes "FASTBOOT", 0x20)
        ∷ (codes "LARGE_NAT_BITMAP", 0x400) ∷ [] };

    ghost set_of = { λ flags. flags.0 };

    fn flags<'a>() -> &'a [Flag<CheckpointFlags>] {
        CheckpointFlags::FLAGS
    }

    fn bits(&self) -> u32 {
        self.0
    }

    fn from_bits_retain(bits: u32) -> CheckpointFlags {
        CheckpointFlags(bits)
    }
}
