// Whether both superblock copies pass and agree: rule 1.
ghost use Rattle.std.specs.Prelude.{◌≡◌, ◌+◌, ◌*◌, ◌≤◌, ◌<◌, ◌^◌, length, IfOk, IsErrOf, OnOk};
ghost use Rattle.f2_bytes.specs.Bytes.{Image, block_at};
ghost use Rattle.f2_bytes.specs.Superblock.{copy_of, copy_row, passes as copy_passes, is_compared_row as is_row_compared};
ghost use Rattle.f2_bytes.specs.Check.{same as same_values, digit, where_true, part_defects};
ghost use Rattle.f2_defects.specs.Collected.{Collects, Compares};
ghost use Rattle.f2_survey.specs.Parts.{part_in};
ghost use Rattle.f2_areas.specs.RuleAnswers.{Finds};
ghost use Rattle.f2_disk.specs.Disk.{Reads, Goes, Rose};
ghost use Rattle.f2_view.specs.Mounted.{layout_in};

use f2_bytes::{SUPER, passes};
use f2_defects::{CheckRefusal, Collector};
use f2_disk::{Block, Disk};
use f2_view::Mount;
use std::alloc::{AllocError, Global};

// How many rows the table of a copy's fields has.
const ROWS: usize = 33;

// Where the copy begins in its block.
const START: usize = 1024;

// Whether both copies are to agree in this row: in all but the magic number, the versions, the checksum with its place, and
// the number of extensions.
fn is_compared_row(row: usize) -> bool
    ensures { result ≡ is_row_compared row }
{
    (3 <= row && row <= 8) || (10 <= row && row <= 28) || row == 30 || row == 31
}

// The number in row `k` of the copy in a block, whether that passes or not.
fn row_in(b: &Block, k: usize) -> u64
    requires { k < 33 }
    ensures { result ≡ copy_row (copy_of b.now) k }
{
    let (_, copy) = b.bytes().split_at(START);
    SUPER.get(copy, k)
}

// Compares a row of the copies, if they are to agree there.
fn compare_row(
    c: &mut Collector,
    row: usize,
    first: &Block,
    second: &Block,
) -> Result<(), AllocError>
    requires { row < 33 }
    ensures part { c.new.part ≡ c.old.part }
    ensures compares { OnOk result (Compares c.old c.new row 0 (where_true (is_row_compared row) (same_values (copy_row (copy_of second.now) row) (copy_row (copy_of first.now) row)))) }
{
    if !is_compared_row(row) {
        return Ok(());
    }
    c.same(row as u64, 0, row_in(second, row), row_in(first, row))
}

// Compares whether the copy in a block passes.
fn compare_copy(c: &mut Collector, number: u64, b: &Block) -> Result<(), AllocError>
    ensures part { c.new.part ≡ c.old.part }
    ensures compares { OnOk result (Compares c.old c.new number 0 (same_values (digit (copy_passes b.now)) 1)) }
{
    let passed = passes(b.bytes());
    c.same(number, 0, u64::from(passed), 1)
}

// The copies that don't pass: part 1.
fn failing(alloc: Global, first: &Block, second: &Block) -> Result<Collector, AllocError>
    ensures { IfOk result (λ c. (image : Image) → block_at image 0 ≡ first.now → block_at image 1 ≡ second.now → Collects c (part_defects (part_in image 1 1))) }
{
    let mut c = Collector::new(alloc, 1);
    compare_copy(&mut c, 0, first)?;
    compare_copy(&mut c, 1, second)?;
    Ok(c)
}

// The rows in which the copies differ: part 2.
fn differing(alloc: Global, first: &Block, second: &Block) -> Result<Collector, AllocError>
    ensures { IfOk result (λ c. (image : Image) → block_at image 0 ≡ first.now → block_at image 1 ≡ second.now → Collects c (part_defects (part_in image 1 2))) }
{
    let mut c = Collector::new(alloc, 2);
    for row in 0..ROWS {
        compare_row(&mut c, row, first, second)?;
    }
    Ok(c)
}

/// The defects by rule 1: superblock copies that don't pass, and rows in which they differ.
pub fn copy_defects<D: Disk>(alloc: Global, m: &Mount, d: &mut D) -> Result<Collector, CheckRefusal>
    requires lies { (layout_in m.now).blocks ≤ (D.state d.old).size }
    ensures finds { IfOk result (Finds (D.state d.old).told m.now 1) }
    ensures reads { Reads (D.state d.old) (D.state d.new) }
    ensures goes { Goes (D.state d.old) (D.state d.new) }
    ensures fault { IsErrOf result CheckRefusal.DiskFault → Rose (D.state d.old).faults (D.state d.new).faults }
{
    // the areas begin behind both blocks
    let _ = m.layout();
    let mut first = Block::zeros();
    let mut second = Block::zeros();
    d.read(0, &mut first)?;
    d.read(1, &mut second)?;
    let mut c = failing(alloc, &first, &second)?;
    c.append(&differing(alloc, &first, &second)?)?;
    Ok(c)
}
