// Where names go in a directory that is being built.
ghost use Rattle.std.specs.Prelude.{All, ◌≡◌, ◌≤◌, ◌<◌, ◌+◌, ◌-◌, ◌^◌, ℕ, length, map, find, true, Some, None, IfOk, OnOk};
ghost use Rattle.std.specs.BTreeMap.{IsOrdered, get};
ghost use Rattle.std.specs.Option.{option_map};
ghost use Rattle.std.specs.Ordering.{nat_cmp};
ghost use Rattle.f2_bytes.specs.Bytes.{numbers_below};
ghost use Rattle.f2_bytes.specs.Directory.{block_slots};
ghost use Rattle.f2_bytes.specs.Names.{slots_for};
ghost use Rattle.f2_dent.specs.Entries.{PlacesEntry};
ghost use Rattle.f2_dent.specs.Pages.{new_item};
ghost use Rattle.f2_bytes.specs.Buckets.{level_start};
ghost use Rattle.f2_dent.specs.Places.{LacksRun, IsFull, block_in, is_free, has_place, place_at, places_from, level_places, PutsIn};

use crate::page::{Page, slots_of};
use crate::{Entry, bucket_range, level_of, name_hash};
use f2_disk::Block;
use std::alloc::{AllocError, Global};
use std::collections::BTreeMap;

// The blocks of 25 levels.
const BLOCKS: u64 = 67_108_862;

// The first place for so many slots in this block.
fn run_in_block(pages: &mut BTreeMap<u64, Page>, block: u64, slots: usize) -> Option<usize>
    requires some { 1 ≤ slots }
    requires few { slots ≤ 214 }
    ensures first { result ≡ find (is_free (block_in pages.old block) slots) (numbers_below block_slots) }
    ensures same { (k : ℕ) → block_in pages.new k ≡ block_in pages.old k }
{
    match pages.get_mut(&block) {
        Some(page) => page.first_run(slots),
        None => Some(0),
    }
}

// The first place for so many slots in these blocks: the block and the slot.
fn run_in_blocks(
    pages: &mut BTreeMap<u64, Page>,
    first: u64,
    blocks: u64,
    slots: usize,
) -> Option<(u64, usize)>
    requires some { 1 ≤ slots }
    requires few { slots ≤ 214 }
    requires fits { first + blocks < 2 ^ 64 }
    ensures first { option_map (place_at slots) result ≡ find (has_place (block_in pages.old)) (places_from slots first blocks) }
    ensures same { (k : ℕ) → block_in pages.new k ≡ block_in pages.old k }
{
    for block in first..first + blocks {
        match run_in_block(pages, block, slots) {
            Some(slot) => return Some((block, slot)),
            None => {}
        }
    }
    None
}

// The first place for so many slots in the buckets of a hash, in the levels from `from` on.
fn run_in_levels(
    pages: &mut BTreeMap<u64, Page>,
    from: u32,
    levels: u32,
    hash: u32,
    slots: usize,
) -> Option<(u64, usize)>
    requires levels { levels ≤ 25 }
    requires some { 1 ≤ slots }
    requires few { slots ≤ 214 }
    ensures first { option_map (place_at slots) result ≡ find (has_place (block_in pages.old)) (level_places hash slots from (levels - from)) }
    ensures same { (k : ℕ) → block_in pages.new k ≡ block_in pages.old k }
{
    for level in from..levels {
        let (first, blocks) = bucket_range(level, 0, hash);
        match run_in_blocks(pages, first, blocks, slots) {
            Some(place) => return Some(place),
            None => {}
        }
    }
    None
}

// Whether this block is known to have no run of so many free slots.
fn lacks_run(pages: &BTreeMap<u64, Page>, block: u64, slots: usize) -> bool
    ensures { result ≡ true → LacksRun (block_in pages.now) slots block }
{
    match pages.get(&block) {
        Some(page) => page.lacks_run(slots),
        None => false,
    }
}

// The first block from this one on that may have such a run.
fn first_with_run(pages: &BTreeMap<u64, Page>, from: u64, slots: usize) -> u64
    ensures lacks { (k : ℕ) → from ≤ k → k < result → LacksRun (block_in pages.now) slots k }
    ensures small { result ≤ 67108862 }
{
    for block in from..BLOCKS {
        if !lacks_run(pages, block, slots) {
            return block;
        }
    }
    BLOCKS
}

// The level in which a search for so many slots begins: no block of a lower one has a run of so many. `full` has for each
// number of slots the first block that may have one, which is found again from there on.
fn first_level(pages: &BTreeMap<u64, Page>, full: &mut [u64; 33], slots: usize) -> u32
    requires few { slots ≤ 32 }
    requires full { IsFull (block_in pages.now) full.old }
    ensures full { IsFull (block_in pages.now) full.new }
    ensures lower { (k : ℕ) → k < level_start result 0 → LacksRun (block_in pages.now) slots k }
{
    let first = first_with_run(pages, full[slots], slots);
    full[slots] = first;
    level_of(first, 0).0
}

// Puts an entry into this block, from this slot on.
fn put_entry(
    pages: &mut BTreeMap<u64, Page>,
    block: u64,
    slot: usize,
    hash: u32,
    entry: &Entry,
) -> Result<(), AllocError>
    requires { slot + slots_for (length entry.now.name) ≤ block_slots }
    ensures { OnOk result (PutsIn (block_in pages.old) (block_in pages.new) block (new_item slot hash entry.now.ino entry.now.kind entry.now.name)) }
{
    match pages.get_mut(&block) {
        Some(page) => page.put(slot, hash, entry.ino, entry.kind, entry.name.bytes()),
        None => {
            let mut page = Page::new();
            page.put(slot, hash, entry.ino, entry.kind, entry.name.bytes());
            pages.insert(block, page)?;
        }
    }
    Ok(())
}

// Puts an entry into the first place that is free for it, and gives its block. There may be none.
pub(crate) fn place_entry(
    pages: &mut BTreeMap<u64, Page>,
    full: &mut [u64; 33],
    levels: u32,
    entry: &Entry,
) -> Result<Option<u64>, AllocError>
    requires levels { levels ≤ 25 }
    requires full { IsFull (block_in pages.old) full.old }
    ensures full { IfOk result (λ _. IsFull (block_in pages.new) full.new) }
    ensures places { IfOk result (PlacesEntry levels (block_in pages.old) (block_in pages.new) entry.now) }
{
    let name = entry.name.bytes();
    let hash = name_hash(name);
    let slots = slots_of(name);
    let from = first_level(pages, full, slots);
    match run_in_levels(pages, from, levels, hash, slots) {
        Some((block, slot)) => {
            put_entry(pages, block, slot, hash, entry)?;
            Ok(Some(block))
        }
        None => Ok(None),
    }
}

// The blocks, each with its number.
pub(crate) fn blocks_of(
    alloc: Global,
    pages: &BTreeMap<u64, Page>,
) -> Result<Vec<(u64, Block)>, AllocError>
    ensures items { IfOk result (λ blocks. blocks.items ≡ map (λ e. (e.0, e.1.block)) pages.now.entries) }
    ensures ordered { OnOk result (IsOrdered nat_cmp pages.now) }
    ensures found { OnOk result (All (λ e. get nat_cmp pages.now e.0 ≡ Some e.1) pages.now.entries) }
{
    pages
        .iter()
        .map(|(k, page)| (*k, page.block))
        .collect(alloc)
}
