// Slots of files.

/// A slot that is no hole: block `k` of a file has this address, which stands in this place of a node.
#[derive(Clone, Copy)]
pub struct Slot {
    pub ino: u32,
    pub k: u64,
    pub address: u32,
    pub nid: u32,
    pub place: u16,
}
