//! Library calls of cases on the parts of an image: a superblock copy, the checkpoint pack that counts, both tables, the chain
//! behind a checkpoint, and the names of a directory. Begin with `call`.
//!
//!     superblock BLOCK                  the areas that the superblock copy in a block says, or `none`
//!     copy-superblock FROM TO           puts the copy of one block into another
//!     pack                              which checkpoint pack counts, and its version
//!     pack-parts                        its logs, orphans, journals and bitmaps
//!     pack-summaries LOG PLACE ..       the node of the summary that it holds for each place of a log
//!     node-table [block K BLOCK] STEP ..     steps: get NID, live NID, set NID INO ADDRESS, dirty; block K with the entries of now
//!                                       goes to a block
//!     node-table all NID ..             how many entries there are, and those of some nodes
//!     segment-table [block K BLOCK] STEP ..  the same: get SEGMENT, set SEGMENT COUNT, dirty
//!     segment-table all SEGMENT ..
//!     summary-block SEGMENT BLOCK       the summary block of a segment
//!     chain HEAD                        the nodes behind the checkpoint whose head stands in a block
//!     ring ADDRESS COUNT VERSION        puts nodes from an address on, each of which names the next, and the last the first
//!     limits                            what a mount says of the image's size
//!     names INO                         place, hash, inode, type and name of each entry of a directory
//!
//! The areas are those of the superblock copy in block 0. Each call asks the disk for its size once.
#![tactic(auto)]

mod areas;
mod chains;
mod names;
mod node_tables;
mod packs;
mod rings;
mod segment_tables;
mod superblocks;
mod words;

use f2_case_disk::{CallError, CaseDisk};
use std::alloc::Global;

/// Does the library call that the words name. Answers its text: lines that each end with `\n`.
///
/// # Errors
///
/// `Unknown` where no call has this name, `Words` where the words don't parse or break what the library requires, and
/// where the disk has no image that mounts; `DiskFault` and `NoMemory` as the library answers them.
pub fn call(alloc: Global, disk: &mut CaseDisk, words: &[String]) -> Result<Vec<u8>, CallError> {
    let (name, rest) = match words {
        [name, rest @ ..] => (name.as_str(), rest),
        _ => return Err(CallError::Unknown),
    };
    let mut text = String::new(alloc);
    match name {
        "superblock" => superblocks::put_fields(disk, rest, &mut text)?,
        "copy-superblock" => superblocks::copy(disk, rest)?,
        "pack" | "pack-parts" | "pack-summaries" => {
            packs::put_pack(alloc, disk, name, rest, &mut text)?
        }
        "node-table" => node_tables::put_steps(alloc, disk, rest, &mut text)?,
        "segment-table" => segment_tables::put_steps(alloc, disk, rest, &mut text)?,
        "summary-block" => segment_tables::put_summaries(disk, rest)?,
        "ring" => rings::put_ring(disk, rest)?,
        "chain" => chains::put_chain(alloc, disk, rest, &mut text)?,
        "limits" => names::put_limits(alloc, disk, &mut text)?,
        "names" => names::put_names(alloc, disk, rest, &mut text)?,
        _ => return Err(CallError::Unknown),
    }
    Ok(text.into_bytes())
}
