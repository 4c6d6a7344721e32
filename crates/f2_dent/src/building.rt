// The blocks of a new directory.
ghost use Rattle.std.specs.Prelude.{◌≡◌, ◌≤◌, Some, IfOk, IsErrOf};
ghost use Rattle.f2_bytes.specs.Buckets.{first_without_place};
ghost use Rattle.f2_dent.specs.Built.{IsBuilt, names_in, RefusesBuild};

use crate::placing::{blocks_of, place_entry};
use crate::{Name, level_of};
use f2_disk::Block;
use std::alloc::Global;
use std::collections::BTreeMap;
use thiserror::Error;

/// A name of a new directory, and the inode that it names.
#[derive(Clone, Copy)]
pub struct Entry {
    pub name: Name,
    /// The number of the inode.
    pub ino: u32,
    /// The type of the inode: 1 regular, 2 directory, 3 character, 4 block, 5 fifo, 6 socket, 7 symlink.
    pub kind: u8,
}

/// A new directory.
#[derive(Drop)]
pub struct Built {
    /// The blocks that hold an entry, each with its number in the directory, in ascending order.
    pub blocks: Vec<(u64, Block)>,
    /// 1 plus the greatest level with an entry, 0 where there is none.
    pub depth: u32,
    /// The bytes up to the end of the last block with an entry, 0 where there is none.
    pub size: u64,
}

/// Why a directory can't be built.
#[derive(Clone, Copy, Debug, PartialEq, Eq, Error)]
pub enum BuildRefusal {
    /// The entry with this number, counted from 0, is the first one that has no place.
    #[error("entry {0} has no place")]
    DirFull(usize),
    /// No memory is left.
    #[error("no memory is left")]
    NoMemory,
}

/// Builds the blocks of a directory that names these entries, with the levels below `levels` and one bucket in the first.
/// Each entry in turn gets the first place that is free: in the lowest level, there in the first block of its bucket,
/// there from the lowest slot on.
///
/// `levels` is at most 25. Any names and inodes are taken: two entries may have the same name, and a name need not be legal.
/// The first entry without a place is refused by its number.
pub fn build(alloc: Global, entries: &[Entry], levels: u32) -> Result<Built, BuildRefusal>
    requires levels { levels ≤ 25 }
    ensures built { IfOk result (IsBuilt levels entries.now) }
    ensures full { RefusesBuild levels entries.now result }
{
    let mut pages = BTreeMap::new(alloc);
    let mut full = [0; 33];
    let mut depth = 0;
    let mut end = 0;
    for (i, entry) in entries.iter().enumerate() {
        match place_entry(&mut pages, &mut full, levels, entry) {
            Ok(Some(block)) => {
                depth = depth.max(level_of(block, 0).0 + 1);
                end = end.max(block + 1);
            }
            Ok(None) => return Err(BuildRefusal::DirFull(i)),
            Err(_) => return Err(BuildRefusal::NoMemory),
        }
    }
    match blocks_of(alloc, &pages) {
        Ok(blocks) => Ok(Built {
            blocks,
            depth,
            size: 4096 * end,
        }),
        Err(_) => Err(BuildRefusal::NoMemory),
    }
}
