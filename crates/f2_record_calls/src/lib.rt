//! Calls of the libraries of records by words, for cases: the numbers, bits and checksums of f2_bytes, the summaries
//! and journals of f2_sum, the nodes of f2_node, and the directories of f2_dent.
//!
//! Begin with `call`; its words and answers are listed there. A call reads blocks off the disk of the case, and what it
//! changes or builds it puts there. What a library requires is tested first: words that break it are refused.
#![tactic(auto)]

mod building;
mod bytes;
mod directories;
mod journals;
mod nodes;
mod summaries;
mod words;

use crate::words::Words;
use f2_case_disk::{CallError, CaseDisk};
use std::alloc::Global;

/// Does the call that the words name, and answers what the library says as lines of text. No call of the disk is made.
///
/// Numbers are decimal, or hexadecimal behind `0x`; AT is a number of a block. A call that changes a block answers
/// nothing, unless its line says what.
///
/// | words | answer |
/// |---|---|
/// | `crc START AT OFFSET LENGTH` | the checksum of bytes of a block, `0x340bc6d9` |
/// | `sealed AT`, `passes AT` | `yes` or `no`: of the seal of a block, of the superblock copy in it |
/// | `seal AT` | seals the block |
/// | `number AT OFFSET WIDTH` | the number in 1, 2, 4 or 8 bytes |
/// | `bits ORDER AT OFFSET LENGTH` | the bits of a map of so many bytes, 8 to a line; ORDER is `msb` or `lsb` |
/// | `set-bit ORDER AT OFFSET LENGTH K BIT` | sets bit K of such a map to 0 or 1 |
/// | `count-bits AT OFFSET LENGTH` | how many are set |
/// | `field RECORD AT K`, `set-field RECORD AT K NUMBER` | row K of a `superblock`, `checkpoint`, `footer` or `inode` |
/// | `summary AT K`, `compact-summary AT OFFSET` | `nid 4 version 1 ofs 7` |
/// | `set-summary AT K NID VERSION OFS` | puts it into an entry of a summary block |
/// | `compact-spot COUNT COUNT COUNT LOG K` | `block 0 byte 1014` |
/// | `nat-entry AT OFFSET`, `sit-entry AT OFFSET` | `version 1 ino 3 addr 4097`; `type 3 valid 5 mtime 7`, the map |
/// | `set-nat-entry AT OFFSET VERSION INO ADDR` | puts its 9 bytes |
/// | `set-sit-entry AT OFFSET TYPE VALID BYTE MTIME` | puts its 74 bytes, each of the map the same |
/// | `nat-journal AT OFFSET`, `sit-journal AT OFFSET` | `records 1` and a line for each record; `bad count 39` |
/// | `empty-journal TABLE AT OFFSET` | puts an area without records; TABLE is `nat` or `sit` |
/// | `push-nat AT OFFSET NID VERSION INO ADDR TIMES` | pushes records, of rising NID and ADDR: `pushed 38 of 39` |
/// | `push-sit AT OFFSET SEGMENT TYPE VALID BYTE MTIME TIMES` | the same of rising SEGMENT |
/// | `node-location K ADDRESSES`, `node-parent OFFSET` | `node 4 slot 0`, or `none` |
/// | `address-at AT OFFSET SLOT`, `nid-at AT OFFSET SLOT` | what a slot of the node at an offset names |
/// | `addresses AT`, `inline-range AT` | `923`; `byte 364 length 3688` |
/// | `kind MODE` | `Regular`, or `none` |
/// | `content AT` | `inline false slots true bytes true` |
/// | `footer AT` | `nid 3 ino 3 flag 0 version 1 next 6145` |
/// | `set-footer AT NID INO FLAG VERSION NEXT` | puts it |
/// | `word AT K`, `set-word AT K NUMBER`, `words-used AT FROM COUNT` | of the 1024 words of a block |
/// | `words-used-alone AT FROM COUNT` | how many are the last used one where they alone are 1: `9 of 9` |
/// | `name-hash TEXT`, `name-hash-at AT OFFSET LENGTH TIMES` | the hash of a name, repeated: `0x2dbf9e80` |
/// | `name AT OFFSET LENGTH` | `10 bytes, hash 0x2dbf9e80`, or `none` |
/// | `same-name TEXT TEXT` | `yes` or `no` |
/// | `bucket LEVEL DIR_LEVEL HASH` | `first 0 blocks 2` |
/// | `bucket-of BLOCK DIR_LEVEL` | `level 0 bucket 0` |
/// | `scan AT OFFSET LENGTH SLOTS` | for each item `slot 0 at 2384 length 1 hash 0x00000000 ino 3 type 2 legal` |
/// | `build LEVELS AT ENTRY ..` | builds a directory, whose block k it puts at AT + k; see below |
///
/// An ENTRY is `NAME=INO/TYPE`, or `COUNTxSHORTEST-LONGEST` for so many names of files: the k-th is the three digits of
/// k and then `n`s, the first of SHORTEST bytes, each later one a byte longer, and behind LONGEST it begins anew; its inode
/// is 100 + k. The answer is `found 2 of 2`, as many entries as stand in the blocks with their inode and type; `in order`
/// where the numbers of the blocks rise and the size is the end of the last; `depth 1 size 4096`; and `block 0` for each
/// block. Where the directory can't be built it is the refusal.
///
/// # Errors
///
/// `Unknown` where no call has this name and as many words; `Words` where they break what the library requires, or a
/// block lies behind the end of the disk; `NoMemory`.
pub fn call(alloc: Global, disk: &mut CaseDisk, words: &[String]) -> Result<Vec<u8>, CallError> {
    let words = Words::new(words);
    let mut text = String::new(alloc);
    let mut answer = bytes::call(disk, words, &mut text);
    if answer == Err(CallError::Unknown) {
        answer = summaries::call(disk, words, &mut text);
    }
    if answer == Err(CallError::Unknown) {
        answer = journals::call(disk, words, &mut text);
    }
    if answer == Err(CallError::Unknown) {
        answer = nodes::call(disk, words, &mut text);
    }
    if answer == Err(CallError::Unknown) {
        answer = directories::call(alloc, disk, words, &mut text);
    }
    answer?;
    Ok(text.into_bytes())
}
