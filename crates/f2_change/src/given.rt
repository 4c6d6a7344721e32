// Blocks by their numbers.
ghost use Rattle.std.specs.Prelude.{◌≡◌, All};
ghost use Rattle.f2_bytes.specs.Bytes.{IsBlock};
ghost use Rattle.f2_change.specs.Change.{given, is_filled};

use f2_disk::Block;
use f2_pack::Log;

// The block that a list gives a number, its last one for it.
pub(crate) fn given(blocks: &[(u32, Block)], number: u32) -> Option<Block>
    ensures { result ≡ given blocks.now number }
{
    let mut found = None;
    for w in blocks {
        if w.0 == number {
            found = Some(w.1);
        }
    }
    found
}

// Whether one of the logs fills this segment.
pub(crate) fn is_filled(logs: &[Log; 6], segno: u32) -> bool
    ensures { result ≡ is_filled logs.now segno }
{
    logs.iter().any(|log| log.segno == segno)
}

// Each of them is a block.
pub(crate) fn are_blocks(blocks: &[(u32, Block)])
    ensures { All (λ w. IsBlock w.1) blocks.now }
{
    for w in blocks {
        let bytes = w.1.bytes();
        prove!(bytes.len() == 4096);
    }
}
