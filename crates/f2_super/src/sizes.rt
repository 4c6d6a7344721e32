// The sizes of a new image.
use thiserror::Error;

/// The sizes of a new image: its blocks, its segments behind the first one, and those of four areas. The checkpoints take
/// two segments.
#[derive(Clone, Copy, Debug, PartialEq, Eq)]
pub struct Geometry {
    pub blocks: u64,
    pub segments: u32,
    pub sit: u32,
    pub nat: u32,
    pub ssa: u32,
    pub main: u32,
}

/// Why there can't be an image of a size.
#[derive(Clone, Copy, Debug, PartialEq, Eq, Error)]
pub enum GeometryRefusal {
    /// It would have this many blocks, more than 2^28.
    #[error("{0} blocks are too many")]
    TooLarge(u64),
    /// It would have `main` main segments, fewer than the `least` ones that there must be.
    #[error("{main} main segments are fewer than {least}")]
    TooSmall { main: u64, least: u64 },
}
