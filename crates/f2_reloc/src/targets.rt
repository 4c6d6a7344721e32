// The segments that take what moves.
ghost use Rattle.std.specs.Prelude.{◌≡◌, ◌≤◌, ◌<◌, ◌+◌, ◌*◌, ◌||◌, nat_le, if◌then◌else◌, All, IfOk};
ghost use Rattle.f2_bytes.specs.Defragment.{move_targets};
ghost use Rattle.f2_bytes.specs.Superblock.{IsInOrder, segment_start};
ghost use Rattle.f2_reloc.specs.Emptying.{end_of, IsInside};

use crate::batches::{Range, push_if};
use f2_bytes::Layout;
use std::alloc::{AllocError, Global};

// Whether no block of a segment lies in a range.
fn is_apart(l: &Layout, segno: u32, range: Range) -> bool
    requires order { IsInOrder l.now }
    requires segment { segno < l.now.segments }
    requires range { IsInside l.now range }
    ensures { result ≡ (nat_le (end_of range) (segment_start l.now segno) || nat_le (segment_start l.now (segno + 1)) range.start) }
{
    let first = u64::from(l.main) + 512 * u64::from(segno);
    range.start + range.blocks <= first || first + 512 <= range.start
}

// Whether a segment lies on the side of the target's.
fn is_beyond(segno: u32, from: u64, down: bool) -> bool
    ensures { result ≡ (if down then nat_le segno from else nat_le from segno) }
{
    let segno = u64::from(segno);
    if down { segno <= from } else { from <= segno }
}

// The free segments without a block of the range, from the target's segment on upward, or downward.
pub(crate) fn targets(
    alloc: Global,
    l: &Layout,
    free: &[u32],
    range: Range,
    target: u64,
    down: bool,
) -> Result<Vec<u32>, AllocError>
    requires order { IsInOrder l.now }
    requires range { IsInside l.now range }
    requires target { l.now.main ≤ target }
    requires free { All (λ segment. segment < l.now.segments) free.now }
    ensures targets { IfOk result (λ chosen. chosen.items ≡ move_targets l.now free.now range.start (end_of range) target down) }
{
    let from = (target - u64::from(l.main)) / 512;
    let mut chosen = Vec::new(alloc);
    for segno in free {
        let beyond = is_beyond(*segno, from, down);
        let apart = is_apart(l, *segno, range);
        push_if(&mut chosen, *segno, beyond && apart)?;
    }
    if down {
        chosen.reverse();
    }
    Ok(chosen)
}
