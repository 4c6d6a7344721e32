// The records of nodes.
/// The footer of a node.
#[derive(Clone, Copy, Debug, PartialEq, Eq)]
pub struct Footer {
    /// The number of the node.
    pub nid: u32,
    /// The number of its inode.
    pub ino: u32,
    /// Bit 0: cold; bit 1: written by fsync; bit 2: with a name to be added. From bit 3 on stands the offset of the node
    /// among those of its file.
    pub flag: u32,
    /// The version of the checkpoint after which it was written.
    pub cp_ver: u64,
    /// The address of the next node that was written.
    pub next: u32,
}

/// The kind of a file.
#[derive(Clone, Copy, Debug, PartialEq, Eq)]
pub enum Kind {
    Regular,
    Directory,
    Character,
    BlockDevice,
    Fifo,
    Socket,
    Symlink,
}

/// A place in a node of a file.
#[derive(Clone, Copy, Debug, PartialEq, Eq)]
pub struct Spot {
    /// The offset of the node among those of its file; 0 is the inode.
    pub offset: u32,
    /// The place there: of an address word, or of a nid.
    pub slot: u32,
}
