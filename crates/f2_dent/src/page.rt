// A block of a directory that is being built.
ghost use Rattle.std.specs.Prelude.{◌≡◌, ◌≤◌, ◌<◌, ◌+◌, ◌||◌, ℕ, length, drop, replicate, find, true, false, if◌then◌else◌};
ghost use Rattle.f2_bytes.specs.Bits.{bit_lsb};
ghost use Rattle.f2_bytes.specs.Bytes.{IsBlock, numbers_below};
ghost use Rattle.f2_bytes.specs.Directory.{block_slots};
ghost use Rattle.f2_bytes.specs.Names.{slots_for};
ghost use Rattle.f2_dent.specs.Pages.{is_run, HasRoom, is_among, new_item, HasPut};
ghost use Rattle.f2_dent.specs.Pages.{entry_bytes as bytes_of_entry};

use byteorder::{ByteOrder, LittleEndian};
use f2_bytes::{bit_lsb, set_bit_lsb};
use f2_disk::Block;

// The slots of a block.
pub(crate) const SLOTS: usize = 214;

// The bytes of a bitmap of so many slots.
const MAP_BYTES: usize = 27;

// The block, and a length that no run of free slots in it exceeds.
#[derive(Clone, Copy)]
pub(crate) struct Page {
    pub(crate) block: Block,
    room: usize,
    ghost has_room: { HasRoom block room },
}

// The free slots in a row up to this one, with those before it.
fn in_a_row(taken: bool, before: usize) -> usize
    requires { before < 214 }
    ensures { result ≡ (if taken then 0 else before + 1) }
{
    if taken { 0 } else { before + 1 }
}

// The first slot where so many free ones begin that lie within the block.
fn first_run(map: &[u8], slots: usize) -> Option<usize>
    requires map { 27 ≤ length map.now }
    requires some { 1 ≤ slots }
    ensures { result ≡ find (is_run block_slots map.now slots) (numbers_below block_slots) }
{
    let mut free = 0;
    for at in 0..SLOTS {
        free = in_a_row(bit_lsb(map, at), free);
        if free == slots {
            return Some(at + 1 - slots);
        }
    }
    None
}

// Marks so many slots as taken.
fn take_slots(block: &mut Block, slot: usize, slots: usize)
    requires { slot + slots ≤ block_slots }
    ensures bits { (t : ℕ) → t < block_slots → bit_lsb block.new t ≡ (bit_lsb block.old t || is_among slot slots t) }
    ensures rest { drop 27 block.new ≡ drop 27 block.old }
    ensures block { IsBlock block.old }
{
    let mut map = [0; MAP_BYTES];
    map.copy_from_slice(&block.bytes()[..MAP_BYTES]);
    for at in slot..slot + slots {
        set_bit_lsb(&mut map, at, true);
    }
    block.put(0, &map);
}

// The 11 bytes of an entry.
fn entry_bytes(hash: u32, ino: u32, len: u16, kind: u8) -> [u8; 11]
    ensures { result ≡ bytes_of_entry hash ino len kind }
{
    let mut bytes = [0; 11];
    LittleEndian::write_u32(&mut bytes[0..4], hash);
    LittleEndian::write_u32(&mut bytes[4..8], ino);
    LittleEndian::write_u16(&mut bytes[8..10], len);
    bytes[10] = kind;
    bytes
}

// How many slots a name takes.
pub(crate) fn slots_of(name: &[u8]) -> usize
    ensures { result ≡ slots_for (length name.now) }
{
    name.len().div_ceil(8)
}

// Puts a name into the slots from this one on.
fn put_item(block: &mut Block, slot: usize, hash: u32, ino: u32, kind: u8, name: &[u8])
    requires some { 1 ≤ length name.now }
    requires few { length name.now ≤ 255 }
    requires inside { slot + slots_for (length name.now) ≤ block_slots }
    ensures { HasPut block.old block.new (new_item slot hash ino kind name.now) }
{
    let len = name.len() as u16;
    take_slots(block, slot, slots_of(name));
    block.put(30 + 11 * slot, &entry_bytes(hash, ino, len, kind));
    block.put(2384 + 8 * slot, name);
}

impl Page {
    // With no names in it.
    pub(crate) fn new() -> Page
        ensures { result.block ≡ replicate 4096 0 }
    {
        Page {
            block: Block::zeros(),
            room: SLOTS,
        }
    }

    // The first slot where so many free ones begin that lie within the block.
    pub(crate) fn first_run(&mut self, slots: usize) -> Option<usize>
        requires { 1 ≤ slots }
        ensures first { result ≡ find (is_run block_slots self.old.block slots) (numbers_below block_slots) }
        ensures same { self.new.block ≡ self.old.block }
    {
        if self.room < slots {
            return None;
        }
        match first_run(self.block.bytes(), slots) {
            Some(slot) => Some(slot),
            None => {
                self.room = slots - 1;
                None
            }
        }
    }

    // Whether it is known that no run of so many slots is free.
    pub(crate) fn lacks_run(&self, slots: usize) -> bool
        ensures { result ≡ true → (slot : ℕ) → is_run block_slots self.now.block slots slot ≡ false }
    {
        self.room < slots
    }

    // Puts a name into the slots from this one on.
    pub(crate) fn put(&mut self, slot: usize, hash: u32, ino: u32, kind: u8, name: &[u8])
        requires some { 1 ≤ length name.now }
        requires few { length name.now ≤ 255 }
        requires inside { slot + slots_for (length name.now) ≤ block_slots }
        ensures { HasPut self.old.block self.new.block (new_item slot hash ino kind name.now) }
    {
        put_item(&mut self.block, slot, hash, ino, kind, name);
    }
}
