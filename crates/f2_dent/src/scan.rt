// The items in a block of a directory, or in the inline area of one.
ghost use Rattle.std.specs.Prelude.{◌≡◌, ◌+◌, ◌*◌, ◌/◌, ◌^◌, ◌<◌, ◌≤◌, ◌==◌, not, ◌&&◌, ◌||◌, nat_lt, if◌then◌else◌, length};
ghost use Rattle.std.specs.List.{list_all};
ghost use Rattle.f2_bytes.specs.Names.{slots_for, is_legal_name};

use f2_bytes::{bit_lsb, u8_at, u16_at, u32_at};

/// An entry as it stands in an area.
#[derive(Clone, Copy, Debug, PartialEq, Eq)]
pub struct Item {
    /// The slot in which it begins.
    pub slot: usize,
    /// The hash that it says.
    pub hash: u32,
    /// The number of the inode that it names.
    pub ino: u32,
    /// The type of that inode: 1 regular, 2 directory, 3 character, 4 block, 5 fifo, 6 socket, 7 symlink.
    pub kind: u8,
    /// The byte of the area at which the name begins.
    pub at: usize,
    /// The bytes of the name.
    pub len: u16,
    /// The name has 1 to 255 bytes, none of them a zero or a slash, and lies within the area.
    pub legal: bool,
}

/// The items of an area of slots, in order. An illegal one is among them; one whose name is longer than 255 bytes or goes
/// past the last slot is the last. It takes no memory.
#[derive(Clone, Copy, Debug)]
pub struct DirScan<'a> {
    area: &'a [u8],
    slots: usize,
    // the slot where it goes on
    at: usize,
    ghost room: { (slots + 7) / 8 + 19 * slots ≤ length area.now },
}

// Whether no byte is a zero or a slash.
fn is_plain(name: &[u8]) -> bool
    ensures { result ≡ list_all (λ c. not (c == 0) && not (c == 47)) name.now }
{
    name.iter().all(|c| *c != 0 && *c != b'/')
}

// Whether the name is legal.
fn is_legal_name(name: &[u8]) -> bool
    ensures { result ≡ is_legal_name name.now }
{
    !name.is_empty() && name.len() <= 255 && is_plain(name)
}

// The slots that a name of this length takes.
fn slots_for(len: u16) -> usize
    ensures { result ≡ slots_for len }
{
    (usize::from(len) + 7) / 8
}

// Whether a name of this length in a slot is too long, or goes past the last slot.
fn is_cut(slots: usize, slot: usize, len: u16) -> bool
    requires within { slot < slots }
    requires small { slots < 2 ^ 63 }
    ensures { result ≡ nat_lt 255 len || nat_lt slots (slot + slots_for len) }
{
    len > 255 || slot + slots_for(len) > slots
}

impl<'a> DirScan<'a> {
    ghost use Rattle.std.specs.Prelude.{◌≡◌, ◌<◌, [], map, MatchOption};
    ghost use Rattle.f2_bytes.specs.Directory.{scan, item_in};
    ghost use Rattle.f2_dent.specs.Scan.{items_left, item_in_area, IsNextSet};

    /// A scan of an area: the bitmap of its slots, unused bytes, an entry of 11 bytes for each slot, and 8 bytes of names
    /// for each.
    pub fn new(area: &'a [u8], slots: usize) -> DirScan<'a>
        requires { (slots + 7) / 8 + 19 * slots ≤ length area.now }
        ensures { items_left result ≡ map (item_in_area area.now slots) (scan area.now slots) }
    {
        DirScan { area, slots, at: 0 }
    }

    // The first slot from `at` on whose bit is set.
    fn next_set(&self) -> Option<usize>
        ensures { MatchOption result (items_left self.now ≡ []) (IsNextSet self.now) }
    {
        for slot in self.at..self.slots {
            if bit_lsb(self.area, slot) {
                return Some(slot);
            }
        }
        None
    }

    // The item that begins in a slot.
    fn item_in(&self, slot: usize) -> Item
        requires { slot < self.now.slots }
        ensures { result ≡ item_in_area self.now.area.now self.now.slots (item_in self.now.area.now self.now.slots slot) }
    {
        let area = self.area;
        let entry = area.len() - 19 * self.slots + 11 * slot;
        let at = area.len() - 8 * self.slots + 8 * slot;
        let len = u16_at(area, entry + 8);
        let legal = !is_cut(self.slots, slot, len)
            && is_legal_name(&area[at..at + usize::from(len)]);
        Item {
            slot,
            hash: u32_at(area, entry),
            ino: u32_at(area, entry + 4),
            kind: u8_at(area, entry + 10),
            at,
            len,
            legal,
        }
    }
}

// Where a scan goes on behind a name of this length in a slot.
fn behind(slots: usize, slot: usize, len: u16) -> usize
    requires within { slot < slots }
    requires small { slots < 2 ^ 63 }
    ensures { result ≡ (if len == 0 then slot + 1 else (if nat_lt 255 len || nat_lt slots (slot + slots_for len) then slots else slot + slots_for len)) }
{
    if len == 0 {
        slot + 1
    } else if is_cut(slots, slot, len) {
        slots
    } else {
        slot + slots_for(len)
    }
}

impl<'a> Iterator for DirScan<'a> {
    ghost use Rattle.std.specs.Iterator.{item_count, YieldsFirst};
    ghost use Rattle.f2_dent.specs.Scan.{items_left};

    type Item = Item;

    ghost next_gives = { YieldsFirst items_left };

    ghost remaining = { item_count items_left };

    fn next(&mut self) -> Option<Item> {
        let slot = self.next_set()?;
        let item = self.item_in(slot);
        self.at = behind(self.slots, slot, item.len);
        Some(item)
    }
}
