// Images as users may have them, laid out on disks in memory.
use crate::slip::{Slip, wrong};
use f2_bytes::crc;
use f2_case_disk::CaseDisk;
use f2_dent::{Entry, Name, build, name_hash};
use f2_disk::{Block, MemorySink};
use f2_top::run;
use std::alloc::Global;

// A new image of so many blocks.
fn new_image(alloc: Global, blocks: u64) -> Result<CaseDisk, Slip> {
    let mut disk = CaseDisk::new(alloc, blocks);
    let mut out = MemorySink::new(alloc, Vec::new(alloc));
    let mut words = Vec::new(alloc);
    words.push(String::from_str(alloc, "mkfs")?)?;
    if run(alloc, &words, &mut disk, &mut out, 5, [7; 16]).status() != 0 {
        return Err(wrong(alloc, "there is no new image"));
    }
    Ok(disk)
}

// A block of the image.
fn load(disk: &CaseDisk, at: u64) -> Block {
    disk.get(at)
}

// Puts a block into the image, if there is such a one.
fn store(disk: &mut CaseDisk, at: u64, b: &Block) -> Result<(), Slip> {
    disk.set(at, b)?;
    Ok(())
}

// Puts bytes into a block, if they have room there.
fn set(b: &mut Block, offset: usize, bytes: &[u8]) {
    if offset < 4096 && bytes.len() <= 4096 - offset {
        b.put(offset, bytes);
    }
}

// The first main segments of the blocks of files and of the nodes, and their first blocks.
const DATA_SEGMENT: u32 = 6;

const DATA: u32 = 7168;

const NODE_SEGMENT: u32 = 60;

const NODES: u32 = 34816;

// The blocks of the image.
const BLOCKS: u64 = 65536;

// How many files the large directory has, and the number of the first one.
const FILES: u32 = 2000;

const FIRST_FILE: u32 = 10;

// How many directories the chain has.
const CHAIN: u32 = 3000;

// An image, and what was laid out on it: for each node its number and that of its inode, and for each block of a file the
// number of the node with its address and the place there.
#[derive(Drop)]
struct Laid {
    disk: CaseDisk,
    nodes: Vec<(u32, u32)>,
    blocks: Vec<(u32, u32)>,
}

// A new image, on which nothing was laid out.
fn nothing_laid(alloc: Global) -> Result<Laid, Slip> {
    Ok(Laid {
        disk: new_image(alloc, BLOCKS)?,
        nodes: Vec::new(alloc),
        blocks: Vec::new(alloc),
    })
}

// Lays out a node.
fn lay_node(laid: &mut Laid, nid: u32, ino: u32, offset: u32, node: &Block) -> Result<(), Slip> {
    let mut b = *node;
    set(&mut b, 4072, &nid.to_le_bytes());
    set(&mut b, 4076, &ino.to_le_bytes());
    set(&mut b, 4080, &offset.wrapping_mul(8).to_le_bytes());
    let address = NODES + laid.nodes.len().min(8191) as u32;
    store(&mut laid.disk, u64::from(address), &b)?;
    laid.nodes.push((nid, ino))?;
    Ok(())
}

// Lays out a block of a file, whose address stands in this node at this place, and answers the address.
fn lay_block(laid: &mut Laid, nid: u32, place: u32, block: &Block) -> Result<u32, Slip> {
    let address = DATA + laid.blocks.len().min(8191) as u32;
    store(&mut laid.disk, u64::from(address), block)?;
    laid.blocks.push((nid, place))?;
    Ok(address)
}

// An inode.
fn inode(mode: u16, inline: u8, links: u32, size: u64, blocks: u64) -> Block {
    let mut b = Block::zeros();
    set(&mut b, 0, &mode.to_le_bytes());
    set(&mut b, 3, &[inline]);
    set(&mut b, 12, &links.to_le_bytes());
    set(&mut b, 16, &size.to_le_bytes());
    set(&mut b, 24, &blocks.to_le_bytes());
    b
}

// One of a file that stands in it.
fn inline_inode(mode: u16, links: u32, content: &[u8], blocks: u64) -> Block {
    let mut b = inode(mode, 10, links, content.len() as u64, blocks);
    set(&mut b, 364, content);
    b
}

// Lays out a file with a block, or, where its number is even, one that stands in its inode.
fn lay_file(laid: &mut Laid, nid: u32) -> Result<(), Slip> {
    if nid % 2 == 0 {
        let b = inline_inode(0x81A4, 1, b"hello", 1);
        return lay_node(laid, nid, nid, 0, &b);
    }
    let mut content = Block::zeros();
    set(&mut content, 0, &nid.to_le_bytes());
    let address = lay_block(laid, nid, 0, &content)?;
    let mut b = inode(0x81A4, 0, 1, 4096, 2);
    set(&mut b, 360, &address.to_le_bytes());
    lay_node(laid, nid, nid, 0, &b)
}

// Appends an entry.
fn push_entry(entries: &mut Vec<Entry>, name: &[u8], ino: u32, kind: u8) -> Result<(), Slip> {
    let Some(name) = Name::new(name) else {
        return Err(Slip::NoMemory);
    };
    entries.push(Entry { name, ino, kind })?;
    Ok(())
}

// The entries of a directory.
fn entries_of(alloc: Global, names: &[(&[u8], u32, u8)]) -> Result<Vec<Entry>, Slip> {
    let mut entries = Vec::new(alloc);
    for (name, ino, kind) in names {
        push_entry(&mut entries, name, *ino, *kind)?;
    }
    Ok(entries)
}

// Lays out the files of the large directory, and answers its entries.
fn lay_files(alloc: Global, laid: &mut Laid) -> Result<Vec<Entry>, Slip> {
    let mut entries = entries_of(alloc, &[(b".", 4, 2), (b"..", 3, 2)])?;
    for i in 0..FILES {
        let name = format!(in alloc; "file {i}")?;
        push_entry(&mut entries, name.as_bytes(), FIRST_FILE + i, 1)?;
        lay_file(laid, FIRST_FILE + i)?;
    }
    Ok(entries)
}

// Lays out the large directory, 4, in the blocks of its buckets.
fn lay_many(alloc: Global, laid: &mut Laid) -> Result<(), Slip> {
    let entries = lay_files(alloc, laid)?;
    let Ok(built) = build(alloc, &entries, 25) else {
        return Err(wrong(alloc, "the names have no room"));
    };
    let count = built.blocks.len().min(923) as u64;
    let mut b = inode(0x41ED, 0, 2, built.size, 1 + count);
    set(&mut b, 72, &built.depth.to_le_bytes());
    for (k, block) in &built.blocks {
        let place = (*k).min(922) as u32;
        let address = lay_block(laid, 4, place, block)?;
        set(&mut b, 360 + 4 * place as usize, &address.to_le_bytes());
    }
    lay_node(laid, 4, 4, 0, &b)
}

// Puts an entry into an inode with the names of a directory.
fn put_item(b: &mut Block, slot: u8, name: &[u8], ino: u32, kind: u8) {
    let slot = usize::from(slot);
    let at = 394 + 11 * slot;
    set(b, at, &name_hash(name).to_le_bytes());
    set(b, at + 4, &ino.to_le_bytes());
    set(b, at + 8, &[name.len().min(255) as u8, 0, kind]);
    set(b, 2396 + 8 * slot, name);
}

// The inode of a directory that stands in it, with the dots.
fn inline_directory(nid: u32, parent: u32, links: u32) -> Block {
    let mut b = inode(0x41ED, 4, links, 3488, 1);
    set(&mut b, 364, &[3]);
    put_item(&mut b, 0, b".", nid, 2);
    put_item(&mut b, 1, b"..", parent, 2);
    b
}

// The same with a third name.
fn directory_with(nid: u32, parent: u32, links: u32, name: &[u8], ino: u32, kind: u8) -> Block {
    let mut b = inline_directory(nid, parent, links);
    set(&mut b, 364, &[7]);
    put_item(&mut b, 2, name, ino, kind);
    b
}

// Lays out a direct node of the file 7, with a block at this place.
fn lay_direct(laid: &mut Laid, nid: u32, offset: u32, place: u8) -> Result<(), Slip> {
    let address = lay_block(laid, nid, u32::from(place), &Block::zeros())?;
    let mut b = Block::zeros();
    set(&mut b, 4 * usize::from(place), &address.to_le_bytes());
    lay_node(laid, nid, 7, offset, &b)
}

// Lays out the nodes of the file 7 below its inode.
fn lay_below(laid: &mut Laid) -> Result<(), Slip> {
    lay_direct(laid, 2010, 1, 0)?;
    lay_direct(laid, 2011, 2, 5)?;
    lay_direct(laid, 2013, 4, 7)?;
    let mut indirect = Block::zeros();
    set(&mut indirect, 0, &2013u32.to_le_bytes());
    lay_node(laid, 2012, 7, 3, &indirect)
}

// Lays out the file 7: five blocks, one of them far behind, a reserved block, and holes.
fn lay_sparse(laid: &mut Laid) -> Result<(), Slip> {
    let mut b = inode(0x81A4, 0, 1, 12_152_832, 11);
    let address = lay_block(laid, 7, 0, &Block::zeros())?;
    set(&mut b, 360, &address.to_le_bytes());
    set(&mut b, 372, &[255, 255, 255, 255]);
    let address = lay_block(laid, 7, 500, &Block::zeros())?;
    set(&mut b, 2360, &address.to_le_bytes());
    set(&mut b, 4052, &2010u32.to_le_bytes());
    set(&mut b, 4056, &2011u32.to_le_bytes());
    set(&mut b, 4060, &2012u32.to_le_bytes());
    lay_below(laid)?;
    lay_node(laid, 7, 7, 0, &b)
}

// Lays out a directory in its inode, a device, a symbolic link, and a file with two names and attributes.
fn lay_forms(laid: &mut Laid) -> Result<(), Slip> {
    let names = directory_with(5, 3, 2, b"leaf", 9, 1);
    lay_node(laid, 5, 5, 0, &names)?;
    let mut device = inode(0x2180, 0, 1, 0, 1);
    set(&mut device, 360, &[1, 5]);
    lay_node(laid, 6, 6, 0, &device)?;
    let link = inline_inode(0xA1FF, 1, b"many", 1);
    lay_node(laid, 8, 8, 0, &link)?;
    let mut leaf = inline_inode(0x81A4, 2, b"hello", 2);
    set(&mut leaf, 76, &2014u32.to_le_bytes());
    lay_node(laid, 9, 9, 0, &leaf)?;
    lay_node(laid, 2014, 9, 0x1FFF_FFFF, &Block::zeros())
}

// Puts the names of the root into its block, and its links into its inode.
fn put_root(
    alloc: Global,
    disk: &mut CaseDisk,
    names: &[(&[u8], u32, u8)],
    links: u32,
) -> Result<(), Slip> {
    let entries = entries_of(alloc, names)?;
    let Ok(built) = build(alloc, &entries, 1) else {
        return Err(wrong(alloc, "the names have no room"));
    };
    for (_, block) in &built.blocks {
        store(disk, 4096, block)?;
    }
    let mut b = load(disk, 5632);
    set(&mut b, 12, &links.to_le_bytes());
    store(disk, 5632, &b)
}

// Puts the entry of a node into the node address table.
fn put_node(disk: &mut CaseDisk, nid: u32, ino: u32, address: u32) -> Result<(), Slip> {
    let at = 2560 + u64::from(nid / 455);
    let offset = 9 * (nid % 455) as usize;
    let mut b = load(disk, at);
    set(&mut b, offset + 1, &ino.to_le_bytes());
    set(&mut b, offset + 5, &address.to_le_bytes());
    store(disk, at, &b)
}

// The summaries of blocks with these owners in a segment of nodes or of files.
fn summaries(owners: &[(u32, u32)], nodes: bool) -> Block {
    let mut summary = Block::zeros();
    for (j, (nid, place)) in owners.iter().enumerate() {
        let at = 7 * j.min(511);
        set(&mut summary, at, &nid.to_le_bytes());
        if !nodes {
            let place = (*place).min(65535) as u16;
            set(&mut summary, at + 5, &place.to_le_bytes());
        }
    }
    set(&mut summary, 4091, &[u8::from(nodes)]);
    summary
}

// The map of a segment with so many blocks at its start.
fn map_of(count: usize) -> [u8; 64] {
    let mut map = [0; 64];
    for k in 0..count.min(512) {
        map[k / 8] |= 128 >> (k % 8);
    }
    map
}

// Puts the entry of a segment into the segment table, and its summaries.
fn put_segment(
    disk: &mut CaseDisk,
    segment: u32,
    nodes: bool,
    owners: &[(u32, u32)],
) -> Result<(), Slip> {
    store(disk, 3584 + u64::from(segment), &summaries(owners, nodes))?;
    let at = 1536 + u64::from(segment / 55);
    let offset = 74 * (segment % 55) as usize;
    let mut b = load(disk, at);
    let kind = if nodes { 3072 } else { 0 };
    let count = owners.len().min(512) as u16;
    set(&mut b, offset, &(kind + count).to_le_bytes());
    set(&mut b, offset + 2, &map_of(owners.len()));
    store(disk, at, &b)
}

// The same for all blocks of nodes or of files. Answers how many segments they fill.
fn put_segments(
    disk: &mut CaseDisk,
    first: u32,
    nodes: bool,
    owners: &[(u32, u32)],
) -> Result<u32, Slip> {
    let mut segments = 0u32;
    for part in owners.chunks(512) {
        put_segment(disk, first.wrapping_add(segments), nodes, part)?;
        segments = segments.saturating_add(1);
    }
    Ok(segments)
}

// Seals a head of a checkpoint.
fn seal_head(b: &mut Block) {
    let (head, _) = b.bytes().split_at(4092);
    let sum = crc(0xF2F5_2010, head);
    set(b, 4092, &sum.to_le_bytes());
}

// Puts the summaries of the checkpoint pack in the compact form.
fn put_summaries(disk: &mut CaseDisk) -> Result<(), Slip> {
    for at in 516..519u64 {
        let b = load(disk, at);
        store(disk, at - 2, &b)?;
    }
    // the summary of the root's block, behind empty journals
    let mut summaries = Block::zeros();
    set(&mut summaries, 1014, &[3]);
    store(disk, 513, &summaries)
}

// Puts the heads of the pack, with these counts: of valid blocks, nodes, inodes and free segments.
fn put_heads(
    disk: &mut CaseDisk,
    valid: u64,
    nodes: u32,
    inodes: u32,
    free: u32,
) -> Result<(), Slip> {
    let mut b = load(disk, 512);
    set(&mut b, 16, &valid.to_le_bytes());
    set(&mut b, 32, &free.to_le_bytes());
    // UMOUNT, COMPACT_SUM and CRC_RECOVERY
    set(&mut b, 132, &[0x45]);
    set(&mut b, 136, &[6]);
    set(&mut b, 144, &nodes.to_le_bytes());
    set(&mut b, 148, &inodes.to_le_bytes());
    set(&mut b, 152, &nodes.wrapping_add(3).to_le_bytes());
    seal_head(&mut b);
    store(disk, 512, &b)?;
    store(disk, 517, &b)
}

// Puts the tables and the checkpoint for what was laid out, besides the root, its block, and so many reserved blocks.
fn put_tables(laid: &mut Laid, reserved: u8) -> Result<(), Slip> {
    let mut inodes = 1u32;
    let mut address = NODES;
    for (nid, ino) in &laid.nodes {
        put_node(&mut laid.disk, *nid, *ino, address)?;
        address = address.wrapping_add(1);
        inodes = inodes.wrapping_add(u32::from(nid == ino));
    }
    let data = put_segments(&mut laid.disk, DATA_SEGMENT, false, &laid.blocks)?;
    let hold = put_segments(&mut laid.disk, NODE_SEGMENT, true, &laid.nodes)?;
    let nodes = 1 + laid.nodes.len().min(8191) as u32;
    let blocks = 1 + laid.blocks.len().min(8191) as u64;
    let valid = u64::from(nodes) + blocks + u64::from(reserved);
    let free = 114u32.saturating_sub(data).saturating_sub(hold);
    put_summaries(&mut laid.disk)?;
    put_heads(&mut laid.disk, valid, nodes, inodes, free)
}

// The names of the root.
const NAMES: [(&[u8], u32, u8); 8] = [
    (b".", 3, 2),
    (b"..", 3, 2),
    (b"many", 4, 2),
    (b"inline", 5, 2),
    (b"device", 6, 3),
    (b"sparse", 7, 1),
    (b"soft", 8, 7),
    (b"hard", 9, 1),
];

// An image with 2,000 files in a directory, and with a directory, files and a symbolic link that stand in their inodes, a
// sparse file with a reserved block, a device, and a file with two names. Its checkpoint is in the compact form.
pub(crate) fn user_image(alloc: Global) -> Result<CaseDisk, Slip> {
    let mut laid = nothing_laid(alloc)?;
    lay_many(alloc, &mut laid)?;
    lay_sparse(&mut laid)?;
    lay_forms(&mut laid)?;
    put_root(alloc, &mut laid.disk, &NAMES, 4)?;
    put_tables(&mut laid, 1)?;
    Ok(laid.disk)
}

// Lays out a chain of directories, each of which stands in its inode and names the next one.
fn lay_chain(laid: &mut Laid) -> Result<(), Slip> {
    for nid in 4..3 + CHAIN {
        let b = directory_with(nid, nid - 1, 3, b"d", nid + 1, 2);
        lay_node(laid, nid, nid, 0, &b)?;
    }
    let last = inline_directory(3 + CHAIN, 2 + CHAIN, 2);
    lay_node(laid, 3 + CHAIN, 3 + CHAIN, 0, &last)
}

// An image with a chain of directories.
pub(crate) fn chain_image(alloc: Global) -> Result<CaseDisk, Slip> {
    let mut laid = nothing_laid(alloc)?;
    lay_chain(&mut laid)?;
    let names: [(&[u8], u32, u8); 3] = [(b".", 3, 2), (b"..", 3, 2), (b"d", 4, 2)];
    put_root(alloc, &mut laid.disk, &names, 3)?;
    put_tables(&mut laid, 0)?;
    Ok(laid.disk)
}

// Lays out the file 4, whose node stands in segment 6, with a block in each of the 17 segments behind it.
fn lay_spread(disk: &mut CaseDisk) -> Result<(), Slip> {
    let mut b = inode(0x81A4, 0, 1, 69_632, 18);
    for k in 0..17u32 {
        set(
            &mut b,
            360 + 4 * k as usize,
            &(7680 + 512 * k).to_le_bytes(),
        );
        put_segment(disk, 7 + k, false, &[(4, k)])?;
    }
    set(&mut b, 4072, &[4]);
    set(&mut b, 4076, &[4]);
    store(disk, 7168, &b)?;
    put_segment(disk, 6, true, &[(4, 4)])?;
    put_node(disk, 4, 4, 7168)
}

// An image of 24 main segments with no free one: each that no log fills has a block of the file 4, or its node.
pub(crate) fn full_image(alloc: Global) -> Result<CaseDisk, Slip> {
    let mut disk = new_image(alloc, 16384)?;
    lay_spread(&mut disk)?;
    let names: [(&[u8], u32, u8); 3] = [(b".", 3, 2), (b"..", 3, 2), (b"f", 4, 1)];
    put_root(alloc, &mut disk, &names, 2)?;
    put_summaries(&mut disk)?;
    put_heads(&mut disk, 20, 2, 2, 0)?;
    Ok(disk)
}
