// The entries of the segments that a batch leaves, and of those that take it.
ghost use Rattle.std.specs.Prelude.{◌≡◌, ◌≢◌, ◌≤◌, ◌<◌, ◌+◌, ◌-◌, ◌*◌, ◌/◌, ◌%◌, ◌++◌, List, ℕ, length, true, false, nat_lt, All, Some, IfOk, OnOk, IsErrOf, filter, slice_index};
ghost use Rattle.std.specs.List.Sorted.{IsStrictlyIncreasing};
ghost use Rattle.f2_bytes.specs.Bits.{bit_msb};
ghost use Rattle.f2_bytes.specs.Bytes.{Image, count_below};
ghost use Rattle.f2_bytes.specs.Journal.{FitsSitEntry};
ghost use Rattle.f2_bytes.specs.Superblock.{is_main, segment_of};
ghost use Rattle.f2_disk.specs.Disk.{Reads, Goes, Rose};
ghost use Rattle.f2_sum.specs.Records.{sit_entry};
ghost use Rattle.f2_sum.specs.declared.records.SitEntry.{SitEntry as HeldSitEntry};
ghost use Rattle.f2_view.specs.Mounted.{layout_in, IsMountOf};
ghost use Rattle.f2_commit.specs.Shifting.{IsEmptied, AreEmptied, is_freed, IsTaken, AreTaken};

use crate::ShiftRefusal;
use f2_bytes::{count_bits, set_bit_msb};
use f2_change::was_log;
use f2_disk::Disk;
use f2_sum::SitEntry;
use f2_view::Mount;

// The types of segments of warm data and of warm nodes.
pub(crate) const WARM_DATA: u8 = 1;

pub(crate) const WARM_NODE: u8 = 4;

// How many blocks a segment has.
const IN_SEGMENT: usize = 512;

// An entry with this map, which counts its marks.
fn entry_with(kind: u8, map: &[u8; 64], mtime: u64) -> SitEntry
    requires kind { kind < 64 }
    ensures kind { result.kind ≡ kind }
    ensures map { result.map ≡ map.now }
    ensures count { result.count ≡ count_below 512 (bit_msb map.now) }
    ensures fits { FitsSitEntry (sit_entry result) }
{
    SitEntry {
        kind,
        count: count_bits(map) as u16,
        map: *map,
        mtime,
    }
}

// A map that marks the first blocks of a segment.
fn first_marks(held: usize) -> [u8; 64]
    requires { held ≤ 512 }
    ensures { (k : ℕ) → k < 512 → bit_msb result k ≡ nat_lt k held }
{
    let mut map = [0; 64];
    for k in 0..held {
        set_bit_msb(&mut map, k, true);
    }
    map
}

// The entry of the `i`-th segment that takes so many blocks, with the time of an old one.
fn filled(old: &SitEntry, kind: u8, blocks: usize, i: usize) -> SitEntry
    requires kind { kind < 64 }
    requires some { 512 * i < blocks }
    ensures taken { IsTaken kind blocks i (sit_entry result) }
    ensures fits { FitsSitEntry (sit_entry result) }
{
    let held = IN_SEGMENT.min(blocks - IN_SEGMENT * i);
    entry_with(kind, &first_marks(held), old.mtime)
}

// Appends the entries of the segments that take so many blocks of a type.
pub(crate) fn push_filled<D: Disk>(
    m: &mut Mount,
    d: &mut D,
    targets: &[u32],
    kind: u8,
    blocks: usize,
    into: &mut Vec<(u32, SitEntry)>,
) -> Result<(), ShiftRefusal>
    requires lies { (layout_in m.old).blocks ≤ (D.state d.old).size }
    requires targets { All (λ s. s < (layout_in m.old).segments) targets.now }
    requires room { blocks ≤ 512 * length targets.now }
    requires kind { kind < 64 }
    ensures entries { OnOk result ((new : List (ℕ × HeldSitEntry)) × (into.new.items ≡ into.old.items ++ new) × AreTaken targets.now kind blocks new) }
    ensures fits { OnOk result (All (λ w. (w.0 < (layout_in m.old).segments) × FitsSitEntry (sit_entry w.1)) into.old.items
        → All (λ w. (w.0 < (layout_in m.old).segments) × FitsSitEntry (sit_entry w.1)) into.new.items) }
    ensures mount { m.new ≡ m.old }
    ensures reads { Reads (D.state d.old) (D.state d.new) }
    ensures goes { Goes (D.state d.old) (D.state d.new) }
    ensures fault { IsErrOf result ShiftRefusal.DiskFault → Rose (D.state d.old).faults (D.state d.new).faults }
{
    for i in 0..blocks.div_ceil(IN_SEGMENT) {
        let old = m.sit_entry(d, targets[i])?;
        into.push((targets[i], filled(&old, kind, blocks, i)))?;
    }
    Ok(())
}

// The map of a segment without its blocks at the addresses from one on and before another.
fn without(map: &[u8; 64], addresses: &[u32], from: usize, end: usize, main: u32) -> [u8; 64]
    requires main { All (λ a. main ≤ a) addresses.now }
    requires order { from ≤ end }
    requires inside { end ≤ length addresses.now }
    ensures cleared { (j : ℕ) → from ≤ j → j < end → bit_msb result ((slice_index addresses.now j - main) % 512) ≡ false }
    ensures kept { (k : ℕ) → k < 512 → ((j : ℕ) → from ≤ j → j < end → (slice_index addresses.now j - main) % 512 ≢ k) → bit_msb result k ≡ bit_msb map.now k }
{
    let mut left = *map;
    for j in from..end {
        set_bit_msb(&mut left, ((addresses[j] - main) % 512) as usize, false);
    }
    left
}

// Where the addresses from one on, which ascend, leave its segment.
fn segment_end(addresses: &[u32], from: usize, main: u32) -> usize
    requires main { All (λ a. main ≤ a) addresses.now }
    requires ascending { IsStrictlyIncreasing addresses.now }
    requires inside { from < length addresses.now }
    ensures some { from < result }
    ensures inside { result ≤ length addresses.now }
    ensures same { (j : ℕ) → from ≤ j → j < result → (slice_index addresses.now j - main) / 512 ≡ (slice_index addresses.now from - main) / 512 }
    ensures later { (j : ℕ) → result ≤ j → j < length addresses.now → (slice_index addresses.now from - main) / 512 < (slice_index addresses.now j - main) / 512 }
{
    let segno = (addresses[from] - main) / 512;
    let mut end = from + 1;
    while end < addresses.len() && (addresses[end] - main) / 512 == segno {
        end += 1;
    }
    end
}

// Reads the entry of a segment and takes its blocks away, at the addresses from one on and before another. The type of a
// segment is below 64 in each image; on a disk that tells nothing it is cut to that.
fn left_entry<D: Disk>(
    m: &mut Mount,
    d: &mut D,
    segno: u32,
    addresses: &[u32],
    from: usize,
    end: usize,
) -> Result<SitEntry, ShiftRefusal>
    requires segment { segno < (layout_in m.old).segments }
    requires lies { (layout_in m.old).blocks ≤ (D.state d.old).size }
    requires main { All (λ a. is_main (layout_in m.old) a ≡ true) addresses.now }
    requires order { from ≤ end }
    requires inside { end ≤ length addresses.now }
    requires same { (j : ℕ) → from ≤ j → j < end → segment_of (layout_in m.old) (slice_index addresses.now j) ≡ segno }
    requires before { (j : ℕ) → j < from → segment_of (layout_in m.old) (slice_index addresses.now j) < segno }
    requires later { (j : ℕ) → end ≤ j → j < length addresses.now → segno < segment_of (layout_in m.old) (slice_index addresses.now j) }
    ensures entry { IfOk result (λ e. (image : Image) → (D.state d.old).told ≡ Some image → IsMountOf image m.old → IsEmptied image addresses.now segno (sit_entry e)) }
    ensures fits { IfOk result (λ e. FitsSitEntry (sit_entry e)) }
    ensures mount { m.new ≡ m.old }
    ensures reads { Reads (D.state d.old) (D.state d.new) }
    ensures goes { Goes (D.state d.old) (D.state d.new) }
    ensures fault { IsErrOf result ShiftRefusal.DiskFault → Rose (D.state d.old).faults (D.state d.new).faults }
{
    let main = m.layout().main;
    let old = m.sit_entry(d, segno)?;
    let map = without(&old.map, addresses, from, end, main);
    Ok(entry_with(old.kind % 64, &map, old.mtime))
}

// Whether a segment with this entry is free: no block is valid, and no log fills it.
fn is_freed(m: &Mount, segno: u32, entry: &SitEntry) -> bool
    ensures { result ≡ is_freed m.now.chosen.head (segno, entry.now) }
{
    entry.count == 0 && !was_log(m, segno)
}

// Appends the entries of the segments that the blocks at these addresses leave; the answer is how many segments are free
// then.
pub(crate) fn push_left<D: Disk>(
    m: &mut Mount,
    d: &mut D,
    addresses: &[u32],
    into: &mut Vec<(u32, SitEntry)>,
) -> Result<u32, ShiftRefusal>
    requires lies { (layout_in m.old).blocks ≤ (D.state d.old).size }
    requires main { All (λ a. is_main (layout_in m.old) a ≡ true) addresses.now }
    requires ascending { IsStrictlyIncreasing addresses.now }
    ensures entries { IfOk result (λ freed. (image : Image) → (D.state d.old).told ≡ Some image → IsMountOf image m.old → (new : List (ℕ × HeldSitEntry))
        × (into.new.items ≡ into.old.items ++ new) × AreEmptied image addresses.now new × (freed ≡ length (filter (is_freed m.old.chosen.head) new))) }
    ensures few { IfOk result (λ freed. freed ≤ (layout_in m.old).segments) }
    ensures fits { OnOk result (All (λ w. (w.0 < (layout_in m.old).segments) × FitsSitEntry (sit_entry w.1)) into.old.items
        → All (λ w. (w.0 < (layout_in m.old).segments) × FitsSitEntry (sit_entry w.1)) into.new.items) }
    ensures mount { m.new ≡ m.old }
    ensures reads { Reads (D.state d.old) (D.state d.new) }
    ensures goes { Goes (D.state d.old) (D.state d.new) }
    ensures fault { IsErrOf result ShiftRefusal.DiskFault → Rose (D.state d.old).faults (D.state d.new).faults }
{
    let main = m.layout().main;
    let mut freed = 0u32;
    let mut from = 0;
    while from < addresses.len() {
        let end = segment_end(addresses, from, main);
        let segno = (addresses[from] - main) / 512;
        let entry = left_entry(m, d, segno, addresses, from, end)?;
        if is_freed(m, segno, &entry) {
            freed += 1;
        }
        into.push((segno, entry))?;
        from = end;
    }
    Ok(freed)
}
