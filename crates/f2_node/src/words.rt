// The numbers of a block up to the last that isn't 0.
ghost use Rattle.std.specs.Prelude.{◌≡◌, ◌≢◌, ◌≤◌, ◌<◌, ◌+◌, ℕ, suc, IsTrue};
ghost use Rattle.f2_bytes.specs.Bytes.{word as word_of};

use crate::inode::word;
use f2_disk::Block;

// So many numbers are looked at in one comparison, and their bytes.
const RUN: usize = 64;

const RUN_BYTES: usize = 4 * RUN;

// Whether the 64 numbers from number `at` on are 0.
fn is_zero_run(b: &Block, at: usize) -> bool
    requires { at + 64 ≤ 1024 }
    ensures { IsTrue result → (j : ℕ) → at ≤ j → j < at + 64 → word_of b.now j ≡ 0 }
{
    let zeros = [0; RUN_BYTES];
    &b.bytes()[4 * at..4 * at + RUN_BYTES] == zeros.as_slice()
}

// How many of the numbers are left without runs of 64 zeros at their end.
fn skip_zero_runs(b: &Block, from: usize, count: usize) -> usize
    requires { from + count ≤ 1024 }
    ensures few { result ≤ count }
    ensures zeros { (j : ℕ) → result ≤ j → j < count → word_of b.now (from + j) ≡ 0 }
{
    let mut left = count;
    while left >= RUN && is_zero_run(b, from + left - RUN) {
        left -= RUN;
    }
    left
}

// How many of the numbers are left without the zeros at their end, which are looked at one by one.
fn skip_zeros(b: &Block, from: usize, count: usize) -> usize
    requires { from + count ≤ 1024 }
    ensures few { result ≤ count }
    ensures zeros { (j : ℕ) → result ≤ j → j < count → word_of b.now (from + j) ≡ 0 }
    ensures last { (j : ℕ) → suc j ≡ result → word_of b.now (from + j) ≢ 0 }
{
    let mut left = count;
    while left > 0 && word(b, from + left - 1) == 0 {
        left -= 1;
    }
    left
}

/// How many of `count` numbers of a block, from number `from` on, stand before the zeros at their end: up to the last one
/// that isn't 0.
pub fn words_used(b: &Block, from: usize, count: usize) -> usize
    requires { from + count ≤ 1024 }
    ensures few { result ≤ count }
    ensures zeros { (j : ℕ) → result ≤ j → j < count → word_of b.now (from + j) ≡ 0 }
    ensures last { (j : ℕ) → suc j ≡ result → word_of b.now (from + j) ≢ 0 }
{
    let left = skip_zero_runs(b, from, count);
    skip_zeros(b, from, left)
}
