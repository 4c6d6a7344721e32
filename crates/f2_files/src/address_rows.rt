// Rows of address words: those of an inode, or of a direct node.
ghost use Rattle.std.specs.Prelude.{◌≡◌, ℕ, ◌+◌, ◌*◌, ◌<◌, ◌≤◌, ◌^◌, true, false, length, get_or, map, MatchOption, IfSome};
ghost use Rattle.f2_bytes.specs.Bytes.{numbers_below};
ghost use Rattle.f2_bytes.specs.Bytes.{word as word_of};
ghost use Rattle.f2_survey.specs.Slots.{inode_row_of};
ghost use Rattle.f2_survey.specs.Slots.{direct_before as rows_before};
ghost use Rattle.f2_bytes.specs.Node.{is_direct};

use f2_disk::Block;
use f2_node::{addresses, word, words_used};
use std::marker::Model;

// The number of the first address word of an inode, and how many numbers a node has.
const FIRST_ADDRESS: usize = 90;

const IN_NODE: usize = 1018;

// Every node of a file has an offset below this one.
const OFFSETS: u32 = 1_039_384;

/// How many direct nodes of a file stand before the one at this offset, at most 1,038,361. None exactly for the offset of
/// an inode or of a node of nids, and past those of all nodes.
pub fn direct_before(offset: u32) -> Option<u32>
    ensures row { MatchOption result (is_direct offset ≡ false) (λ row. (is_direct offset ≡ true) × (row ≡ rows_before offset)) }
    ensures few { IfSome result (λ row. row < 1038362) }
{
    match offset {
        1..=2 => Some(offset - 1),
        4..=1021 => Some(offset - 2),
        1023..=2040 => Some(offset - 3),
        2042..OFFSETS => before_deep(offset - 2042),
        _ => None,
    }
}

// The same for an offset so far past that of the first node under the double indirect one.
fn before_deep(past: u32) -> Option<u32>
    requires { past < 1037342 }
    ensures row { MatchOption result (is_direct (2042 + past) ≡ false) (λ row. (is_direct (2042 + past) ≡ true) × (row ≡ rows_before (2042 + past))) }
    ensures few { IfSome result (λ row. row < 1038362) }
{
    let place = past % 1019;
    if place == 0 {
        return None;
    }
    Some(2037 + 1018 * (past / 1019) + place)
}

/// The address words of a node, and where they stand in its file: the first is that of block `first`.
#[derive(Drop)]
pub struct Row<'a> {
    ino: u32,
    nid: u32,
    first: u64,
    block: &'a Block,
    // the number of the first word in the block, and how many there are
    at: usize,
    count: usize,
    ghost inside: { at + count ≤ 1024 },
    ghost few: { first + count ≤ 2 ^ 32 },
}

impl<'a> Model for Row<'a> {
    ghost use Rattle.std.specs.Prelude.{◌+◌, map};
    ghost use Rattle.f2_bytes.specs.Bytes.{word, numbers_below};
    ghost use Rattle.f2_survey.specs.Slots.{Row as FormatRow};

    ghost Value = { FormatRow };

    ghost view = { λ r. record { ino = r.ino; nid = r.nid; first = r.first; words = map (λ j. word r.block.now (r.at + j)) (numbers_below r.count) } };
}

impl<'a> Row<'a> {
    /// The row in the inode of a file, which stands in the block.
    pub fn of_inode(ino: u32, inode: &'a Block) -> Row<'a>
        ensures { result ≡ inode_row_of ino inode.now }
    {
        Row {
            ino,
            nid: ino,
            first: 0,
            block: inode,
            at: FIRST_ADDRESS,
            count: addresses(inode) as usize,
        }
    }

    /// The row in a direct node of a file, which stands in the block: its first word is for block `first`.
    pub fn of_node(ino: u32, nid: u32, first: u64, node: &'a Block) -> Row<'a>
        requires { first + 1018 ≤ 2 ^ 32 }
        ensures { result ≡ record { ino = ino; nid = nid; first = first; words = map (word_of node.now) (numbers_below 1018) } }
    {
        Row {
            ino,
            nid,
            first,
            block: node,
            at: 0,
            count: IN_NODE,
        }
    }

    /// The number of the file.
    pub fn ino(&self) -> u32
        ensures { result ≡ self.now.ino }
    {
        self.ino
    }

    /// The number of the node.
    pub fn nid(&self) -> u32
        ensures { result ≡ self.now.nid }
    {
        self.nid
    }

    /// The number in the file of the block that the first word is for.
    pub fn first(&self) -> u64
        ensures value { result ≡ self.now.first }
        ensures few { result + length self.now.words ≤ 2 ^ 32 }
    {
        self.first
    }

    /// How many words stand before the zeros at their end: up to the last one that isn't 0.
    pub fn used(&self) -> usize
        ensures inside { result ≤ length self.now.words }
        ensures few { result ≤ 1024 }
        ensures zeros { (j : ℕ) → result ≤ j → j < length self.now.words → get_or self.now.words j 0 ≡ 0 }
    {
        words_used(self.block, self.at, self.count)
    }

    /// Word `j`.
    pub fn word(&self, j: usize) -> u32
        requires { j < length self.now.words }
        ensures { result ≡ get_or self.now.words j 0 }
    {
        word(self.block, self.at + j)
    }
}
