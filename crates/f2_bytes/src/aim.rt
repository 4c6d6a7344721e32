// The size that a resize aims at.

/// The size that a resize gives an image, and the segments that its areas get.
///
/// `specs/Resize` says which aim a size has.
#[derive(Clone, Copy, Debug, PartialEq, Eq)]
pub struct Aim {
    /// The number of blocks of the image.
    pub blocks: u64,
    /// The segments of the segment information table, both copies together.
    pub sit: u32,
    /// The segments of the node address table, both copies together.
    pub nat: u32,
    /// The segments of the segment summary area.
    pub ssa: u32,
    /// The segments of the main area.
    pub main: u32,
    /// By how many segments the main area begins later.
    pub delta: u32,
}
