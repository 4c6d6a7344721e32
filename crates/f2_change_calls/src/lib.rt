//! Library calls of cases on changes of an image: which segments are free, which nodes of a chain count, how many
//! blocks move, a change prepared and committed, and a batch of blocks moved. Begin with `call`, which lists them.
#![tactic(auto)]

mod chains;
mod commits;
mod drafts;
mod failures;
mod mounts;
mod parts;
mod readings;
mod shifts;
mod words;

use f2_case_disk::{CallError, CaseDisk};
use std::alloc::Global;

/// Does the library call that the words name. Answers its text: lines that each end with `\n`.
///
///     free-segments                   the free segments, ascending
///     chain-nodes                     each node of the chain, its marks, and whether it counts
///     counting NODE ..                `yes` or `no` for each; NODE: node NID INO, and of inode fsync dentry listed
///     weigh ADDRESS ..                how many blocks move with those at these addresses
///     shift ADDRESS .. to SEGMENT .. [then READING ..]    moves them to these segments; then what its mount reads
///     change BLOCK PART               puts a part of a change, as a line of text, behind those that the block has
///     commit BLOCK [READING ..]       prepares and commits the change of a block; then what its mount reads
///     reading READING ..              what a new mount reads
///
/// A READING is `node NID`, `segment SEGMENT`, `summary ADDRESS`, `slot INO BLOCK` or `counts`. The PARTs of a change:
///
///     node NID VERSION INO ADDRESS              an entry of the node address table
///     segment SEGMENT TYPE MODIFIED OFFSET ..   an entry of the segment table, in which these of its blocks are valid
///     block ADDRESS FROM                        a block of the main area, as it stands at FROM
///     summaries SEGMENT FROM                    the summary block of a segment, as it stands at FROM
///     log TYPE SEGMENT OFFSET                   a log: 0 to 2 are hot, warm and cold data, 3 to 5 nodes
///     user N, valid N, nodes N, inodes N, free N, next N      the counts of the checkpoint, and its next free nid
///
/// Logs and counts of which nothing is said stay as they are.
///
/// # Errors
///
/// `Unknown` where no call has this name, `Words` where the words don't parse or break what the library requires, and
/// where the disk has no image that mounts; `DiskFault` and `NoMemory` as the library answers them.
pub fn call(alloc: Global, disk: &mut CaseDisk, words: &[String]) -> Result<Vec<u8>, CallError> {
    let (name, rest) = match words {
        [name, rest @ ..] => (name.as_str(), rest),
        _ => return Err(CallError::Unknown),
    };
    let text = match name {
        "free-segments" => chains::free_segments(alloc, disk, rest)?,
        "chain-nodes" => chains::nodes(alloc, disk, rest)?,
        "counting" => chains::counts(alloc, rest)?,
        "weigh" => shifts::weight(alloc, disk, rest)?,
        "shift" => shifts::shifted(alloc, disk, rest)?,
        "change" => drafts::keep(alloc, disk, rest)?,
        "commit" => commits::committed(alloc, disk, rest)?,
        "reading" => readings::read_anew(alloc, disk, rest)?,
        _ => return Err(CallError::Unknown),
    };
    Ok(text.into_bytes())
}
