// The batches of a range.
ghost use Rattle.std.specs.Prelude.{◌≡◌, ◌≤◌, ◌<◌, ◌+◌, ◌*◌, ◌-◌, ◌^◌, ◌++◌, [], ◌∷◌, ◌&&◌, if◌then◌else◌, nat_le, nat_lt, ℕ, List, All, length, map, filter, true, Some, Err, IfOk, OnOk, IsErrOf};
ghost use Rattle.std.specs.List.Sorted.{IsStrictlyIncreasing};
ghost use Rattle.f2_bytes.specs.Bits.{bit_msb};
ghost use Rattle.f2_bytes.specs.Bytes.{Image};
ghost use Rattle.f2_bytes.specs.Check.{is_checked};
ghost use Rattle.f2_bytes.specs.Defragment.{Placement, occupied, part_in, defrag_batches};
ghost use Rattle.f2_bytes.specs.Superblock.{IsInOrder, is_main, place_of};
ghost use Rattle.f2_disk.specs.Disk.{Reads, Goes, Rose};
ghost use Rattle.f2_view.specs.Mounted.{layout_in, IsMountOf};
ghost use Rattle.f2_reloc.specs.Emptying.{end_of, part_of, valid_among, IsInside, IsWithin, IsCutting};
ghost use Rattle.f2_commit.specs.declared.relocating.RelocRefusal.TheVariants.{NoSpace};

use f2_bytes::{Layout, bit_msb};
use f2_commit::RelocRefusal;
use f2_disk::Disk;
use f2_sum::SitEntry;
use f2_view::Mount;
use std::alloc::{AllocError, Global};

// The most blocks that one batch moves.
pub(crate) const MOST: usize = 4096;

/// Blocks of the main area: so many addresses from one on.
#[derive(Clone, Copy, Debug, PartialEq, Eq)]
pub struct Range {
    /// The first address.
    pub start: u64,
    /// How many.
    pub blocks: u64,
}

// Main segments from one on and below another, the part of the range that one batch empties.
#[derive(Clone, Copy)]
pub struct Batch {
    pub first: u32,
    pub end: u32,
}

// Whether an address lies in a range, and bit k of a segment's map is set.
fn is_valid_in(entry: &SitEntry, k: u32, range: Range, address: u32) -> bool
    requires { k < 512 }
    ensures { result ≡ ((nat_le range.start address && nat_lt address (end_of range)) && bit_msb entry.now.map k) }
{
    let map = &entry.map;
    let bit = bit_msb(map, k as usize);
    let address = u64::from(address);
    range.start <= address && address - range.start < range.blocks && bit
}

// Appends an address, or doesn't.
pub(crate) fn push_if(into: &mut Vec<u32>, address: u32, wanted: bool) -> Result<(), AllocError>
    ensures { OnOk result (into.new.items ≡ into.old.items ++ (if wanted then address ∷ [] else [])) }
{
    if wanted {
        into.push(address)?;
    }
    Ok(())
}

// Appends the addresses of the valid blocks of a segment that lie in a range.
fn push_valid(
    l: &Layout,
    segno: u32,
    entry: &SitEntry,
    range: Range,
    into: &mut Vec<u32>,
) -> Result<(), AllocError>
    requires order { IsInOrder l.now }
    requires segment { segno < l.now.segments }
    ensures added { OnOk result (into.new.items ≡ into.old.items ++ filter (λ a. bit_msb entry.now.map (place_of l.now a)) (part_in l.now range.start (end_of range) segno)) }
{
    for k in 0..512u32 {
        let address = l.main + 512 * segno + k;
        push_if(into, address, is_valid_in(entry, k, range, address))?;
    }
    Ok(())
}

// The addresses of the valid blocks of a batch, ascending.
pub(crate) fn valid_in<D: Disk>(
    alloc: Global,
    m: &mut Mount,
    d: &mut D,
    range: Range,
    batch: Batch,
) -> Result<Vec<u32>, RelocRefusal>
    requires lies { (layout_in m.old).blocks ≤ (D.state d.old).size }
    requires range { IsInside (layout_in m.old) range }
    requires batch { IsWithin (layout_in m.old) batch }
    ensures valid { IfOk result (λ v. (image : Image) → (D.state d.old).told ≡ Some image → IsMountOf image m.old → v.items ≡ valid_among image (part_of (layout_in m.old) range batch)) }
    // Also on a disk that tells nothing: addresses of main, ascending, and no more than the segments have.
    ensures main { IfOk result (λ v. All (λ a. is_main (layout_in m.old) a ≡ true) v.items) }
    ensures rises { IfOk result (λ v. IsStrictlyIncreasing v.items) }
    ensures few { IfOk result (λ v. length v.items ≤ 512 * (batch.end - batch.first)) }
    ensures mount { m.new ≡ m.old }
    ensures reads { Reads (D.state d.old) (D.state d.new) }
    ensures goes { Goes (D.state d.old) (D.state d.new) }
    ensures fault { IsErrOf result RelocRefusal.DiskFault → Rose (D.state d.old).faults (D.state d.new).faults }
    ensures never { (need have : ℕ) → result ≡ Err (NoSpace need have) → ⊥ }
{
    let l = m.layout();
    let mut addresses = Vec::new(alloc);
    for segno in batch.first..batch.end {
        let entry = m.sit_entry(d, segno)?;
        push_valid(&l, segno, &entry, range, &mut addresses)?;
    }
    Ok(addresses)
}

// Batches that are cut, the one that takes segments, and how many of its valid blocks lie in the range.
#[derive(Drop)]
pub struct Cutting {
    pub cut: Vec<Batch>,
    pub batch: Batch,
    pub held: usize,
}

// The same with the next segment, in which so many valid blocks lie in the range.
fn with_segment(cutting: Cutting, segno: u32, more: usize) -> Result<Cutting, AllocError>
    requires next { cutting.batch.end ≡ segno }
    requires fits { segno + 1 < 2 ^ 32 }
    requires held { cutting.held ≤ 4096 }
    requires few { more ≤ 512 }
    ensures cut { IfOk result (λ c. (l : Layout) (range : Range) (nids : ℕ) (p : Placement) (parts all : List (List ℕ)) → cutting.batch.first ≤ segno → more ≡ length (occupied nids p (part_in l range.start (end_of range) segno))
        → IsCutting l range nids p (part_in l range.start (end_of range) segno ∷ parts) all cutting.cut.items cutting.batch cutting.held → IsCutting l range nids p parts all c.cut.items c.batch c.held) }
    ensures next { IfOk result (λ c. c.batch.end ≡ segno + 1) }
    ensures held { IfOk result (λ c. c.held ≤ 4096) }
    ensures within { IfOk result (λ c. (l : Layout) → segno < l.segments → All (IsWithin l) cutting.cut.items → IsWithin l cutting.batch → All (IsWithin l) c.cut.items × IsWithin l c.batch) }
    ensures count { IfOk result (λ c. length c.cut.items ≤ length cutting.cut.items + 1) }
    ensures first { IfOk result (λ c. cutting.batch.first ≤ segno → c.batch.first ≤ segno) }
{
    let Cutting {
        mut cut,
        batch,
        held,
    } = cutting;
    if held + more > MOST {
        cut.push(batch)?;
        return Ok(Cutting {
            cut,
            batch: Batch {
                first: segno,
                end: segno + 1,
            },
            held: more,
        });
    }
    Ok(Cutting {
        cut,
        batch: Batch {
            first: batch.first,
            end: segno + 1,
        },
        held: held + more,
    })
}

// The segments of a range, cut into batches: each takes segments while at most 4096 valid blocks of them lie in the range.
pub(crate) fn cut<D: Disk>(
    alloc: Global,
    m: &mut Mount,
    d: &mut D,
    range: Range,
) -> Result<Vec<Batch>, RelocRefusal>
    requires lies { (layout_in m.old).blocks ≤ (D.state d.old).size }
    requires range { IsInside (layout_in m.old) range }
    ensures batches { IfOk result (λ batches. (image : Image) → (D.state d.old).told ≡ Some image → IsMountOf image m.old → is_checked image ≡ true
        → map (part_of (layout_in m.old) range) batches.items ≡ defrag_batches image range.start (end_of range)) }
    // Also on a disk that tells nothing.
    ensures within { IfOk result (λ batches. All (IsWithin (layout_in m.old)) batches.items) }
    ensures count { IfOk result (λ batches. length batches.items ≤ (layout_in m.old).segments + 1) }
    ensures mount { m.new ≡ m.old }
    ensures reads { Reads (D.state d.old) (D.state d.new) }
    ensures goes { Goes (D.state d.old) (D.state d.new) }
    ensures fault { IsErrOf result RelocRefusal.DiskFault → Rose (D.state d.old).faults (D.state d.new).faults }
    ensures never { (need have : ℕ) → result ≡ Err (NoSpace need have) → ⊥ }
{
    let l = m.layout();
    let first = ((range.start - u64::from(l.main)) / 512) as u32;
    let last = ((range.start + (range.blocks - 1) - u64::from(l.main)) / 512) as u32;
    let mut cutting = Cutting {
        cut: Vec::new(alloc),
        batch: Batch { first, end: first },
        held: 0,
    };
    for segno in first..last + 1 {
        let part = Batch {
            first: segno,
            end: segno + 1,
        };
        let more = valid_in(alloc, m, d, range, part)?.len();
        cutting = with_segment(cutting, segno, more)?;
    }
    let Cutting { mut cut, batch, .. } = cutting;
    cut.push(batch)?;
    Ok(cut)
}
