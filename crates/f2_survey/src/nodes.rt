// What is kept of the nodes of an image.
ghost use Rattle.std.specs.Prelude.{◌≡◌, ◌<◌, map, is_some, option_map};
ghost use Rattle.std.specs.Option.{option_map_or};
ghost use Rattle.f2_bytes.specs.Bytes.{Image};
ghost use Rattle.f2_bytes.specs.Node.{node_offset};
ghost use Rattle.f2_bytes.specs.NodeAddressTable.{nat, image_nat_entry};
ghost use Rattle.f2_bytes.specs.Tree.{read_node, is_inode as is_inode_of};
ghost use Rattle.f2_bytes.specs.Check.{nids, directory_of, kind_of_inode, inode_of, none_value};
ghost use Rattle.f2_bytes.specs.Check.{offset_of_node as node_offset_in};
ghost use Rattle.f2_survey.specs.Known.{IsKnown, IsLevel, belongs_to};
ghost use Rattle.f2_sum.specs.Records.{nat_entry};

use f2_sum::NatEntry;
use std::marker::Model;

// The least number of a node.
const FIRST_NID: u32 = 3;

// The offset that stands for none, and the value that does.
const NO_OFFSET: u32 = u32::MAX;

const NONE: u64 = 1 << 32;

// The type that an inode without one has here, and that of a directory.
const UNTYPED: u8 = 8;

const DIRECTORY: u64 = 2;

/// What is kept of each number that the node address table has an entry for: the entry, the offset that the node says, and
/// the type of an inode.
#[derive(Drop)]
pub struct Nodes {
    entries: Vec<NatEntry>,
    offsets: Vec<u32>,
    kinds: Vec<u8>,
}

impl Model for Nodes {
    ghost use Rattle.std.specs.Prelude.{map};
    ghost use Rattle.f2_sum.specs.Records.{nat_entry};
    ghost use Rattle.f2_survey.specs.Known.{Known, IsLevel};

    ghost Value = { Known };

    ghost view = { λ n. record { entries = map nat_entry n.entries.items; offsets = n.offsets.items; kinds = n.kinds.items } };

    ghost invariant = { λ n. IsLevel (record { entries = map nat_entry n.entries.items; offsets = n.offsets.items; kinds = n.kinds.items }) };
}

/// The entry of a number below the limit, if it is that of a node.
pub fn live(nid: u32, entry: NatEntry) -> Option<NatEntry>
    ensures { (image : Image) → nid < nids image → nat_entry entry ≡ image_nat_entry image nid → option_map nat_entry result ≡ nat image nid }
{
    if nid < FIRST_NID {
        return None;
    }
    if entry.addr == 0 {
        return None;
    }
    Some(entry)
}

impl Nodes {
    /// The nodes with these entries, offsets and types, one of each for every number.
    pub fn of(entries: Vec<NatEntry>, offsets: Vec<u32>, kinds: Vec<u8>) -> Nodes
        requires { IsLevel (record { entries = map nat_entry entries.items; offsets = offsets.items; kinds = kinds.items }) }
        ensures { result ≡ record { entries = map nat_entry entries.items; offsets = offsets.items; kinds = kinds.items } }
    {
        Nodes {
            entries,
            offsets,
            kinds,
        }
    }

    /// How many numbers there are.
    pub fn limit(&self) -> u32
        ensures { (image : Image) → IsKnown image self.now → result ≡ nids image }
    {
        self.entries.len() as u32
    }

    /// The entry of the node with this number, if there is one.
    pub fn entry(&self, nid: u32) -> Option<NatEntry>
        ensures { (image : Image) → IsKnown image self.now → option_map nat_entry result ≡ nat image nid }
    {
        let at = nid as usize;
        if at >= self.entries.len() {
            return None;
        }
        live(nid, self.entries[at])
    }

    /// Whether there is a node with this number, and belongs to this file.
    pub fn belongs(&self, nid: u32, ino: u32) -> bool
        ensures { (image : Image) → IsKnown image self.now → result ≡ belongs_to image nid ino }
    {
        match self.entry(nid) {
            Some(entry) => entry.ino == ino,
            None => false,
        }
    }

    /// Whether the node with this number is an inode.
    pub fn is_inode(&self, nid: u32) -> bool
        ensures { (image : Image) → IsKnown image self.now → result ≡ is_inode_of image nid }
    {
        self.belongs(nid, nid)
    }

    // The offset that the node with this number says, if it stands in the main area; else 2^32.
    fn offset(&self, nid: u32) -> u64
        ensures { (image : Image) → IsKnown image self.now → result ≡ option_map_or node_offset (read_node image nid) none_value }
    {
        let at = nid as usize;
        if at >= self.offsets.len() {
            return NONE;
        }
        let offset = self.offsets[at];
        if offset == NO_OFFSET {
            return NONE;
        }
        u64::from(offset)
    }

    /// The offset that the node with this number says, if it is of this file and stands in the main area; else 2^32.
    pub fn offset_in(&self, nid: u32, ino: u32) -> u64
        ensures { (image : Image) → IsKnown image self.now → result ≡ node_offset_in image nid ino }
    {
        if !self.belongs(nid, ino) {
            return NONE;
        }
        self.offset(nid)
    }

    /// Whether the inode with this number stands in the main area and is a directory.
    pub fn is_directory(&self, nid: u32) -> bool
        ensures { (image : Image) → IsKnown image self.now → result ≡ is_some (directory_of image nid) }
    {
        self.kind(nid) == DIRECTORY
    }

    /// The type of the inode with this number, as entries that name it have to say; 2^32 where there is none.
    pub fn kind(&self, nid: u32) -> u64
        ensures { (image : Image) → IsKnown image self.now → result ≡ kind_of_inode (inode_of image nid) }
    {
        let at = nid as usize;
        if at >= self.kinds.len() {
            return NONE;
        }
        let kind = self.kinds[at];
        if kind == 0 {
            return NONE;
        }
        if kind == UNTYPED {
            return 0;
        }
        u64::from(kind)
    }
}
