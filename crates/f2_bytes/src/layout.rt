// Where the areas of an image lie.

/// Where the areas of an image begin, in blocks, and how large they are.
///
/// The areas follow each other in this order: checkpoint, segment information table (SIT), node address table (NAT),
/// segment summary area (SSA), main. `specs/Superblock` says when a layout is in order.
#[derive(Clone, Copy, Debug, PartialEq, Eq)]
pub struct Layout {
    /// The number of blocks of the image.
    pub blocks: u64,
    /// The first block of the checkpoint area.
    pub cp: u32,
    /// The first block of the segment information table.
    pub sit: u32,
    /// The first block of the node address table.
    pub nat: u32,
    /// The first block of the segment summary area.
    pub ssa: u32,
    /// The first block of the main area.
    pub main: u32,
    /// Half of the segment information table, in blocks: the size of one copy.
    pub sit_half: u32,
    /// Half of the node address table, in blocks: the size of one copy.
    pub nat_half: u32,
    /// The number of main segments, each of 512 blocks.
    pub segments: u32,
}
