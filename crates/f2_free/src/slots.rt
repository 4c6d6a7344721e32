// The slots of a node.
ghost use Rattle.std.specs.Prelude.{◌≡◌, ◌+◌, ◌≤◌, ◌==◌};
ghost use Rattle.std.specs.List.{list_any};
ghost use Rattle.f2_bytes.specs.Bytes.{numbers_below};
ghost use Rattle.f2_bytes.specs.Bytes.{word as word_of};
ghost use Rattle.f2_bytes.specs.Node.{is_direct as is_direct_offset};
ghost use Rattle.f2_bytes.specs.Support.{has_slot_word};
ghost use Rattle.f2_free.specs.SegmentMarks.{MarksBlocks};

use crate::marks::Marks;
use f2_disk::Block;
use f2_node::{addresses, footer, has_slots, word, words_used};

// The number of the first address word of an inode, and how many numbers a node has.
const FIRST_ADDRESS: usize = 90;

const IN_NODE: usize = 1018;

// Every node of a file has an offset below this one.
const OFFSETS: u32 = 1_039_384;

/// Whether a node with this offset in its file holds addresses of blocks; any other holds nids. The inode, at offset 0, is
/// not among them, nor is any offset that no node of a file has.
#[tactic(auto, unfolding(f2_bytes::specs::Node::offset_limit))]
pub fn is_direct(offset: u32) -> bool
    ensures { result ≡ is_direct_offset offset }
{
    0 < offset
        && offset < OFFSETS
        && offset != 3
        && offset != 1022
        && offset != 2041
        && !(2042 <= offset && (offset - 2042) % 1019 == 0)
}

// Marks the segments of the blocks with the addresses in `count` numbers of a block, from number `from` on.
fn mark_words(marks: &mut Marks, b: &Block, from: usize, count: usize)
    requires { from + count ≤ 1024 }
    ensures { MarksBlocks marks.old marks.new (λ a. list_any (λ j. word_of b.now (from + j) == a) (numbers_below count)) }
{
    // The zeros at the end are one address, which the first of them marks for all.
    let used = words_used(b, from, count);
    for j in 0..count.min(used + 1) {
        marks.mark(word(b, from + j));
    }
}

// Marks the segments of the blocks with the addresses in the slots of the node in a block.
pub fn mark_slots(marks: &mut Marks, b: &Block)
    ensures { MarksBlocks marks.old marks.new (has_slot_word b.now) }
{
    let offset = footer(b).flag / 8;
    if offset == 0 {
        if has_slots(b) {
            mark_words(marks, b, FIRST_ADDRESS, addresses(b) as usize);
        }
    } else if is_direct(offset) {
        mark_words(marks, b, 0, IN_NODE);
    }
}
