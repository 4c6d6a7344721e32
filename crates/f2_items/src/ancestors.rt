// Which numbers are their own ancestors, in linear time: each number is marked at most three times.
ghost use Rattle.std.specs.Prelude.{◌≡◌, ℕ, ◌<◌, length, get_or, IfOk, false};
ghost use Rattle.f2_items.specs.Ancestors.{parent_in, is_own_ancestor, Climbed, CycleMarked, AreSettled, IsMarked};

use std::alloc::{AllocError, Global};

// Marks the numbers from `start` up to one that is marked, or that has no parent. Gives the marked number, else 0.
fn climb(parents: &[u32], marks: &mut [bool], start: usize) -> usize
    requires start { start < length parents.now }
    requires length { length marks.old ≡ length parents.now }
    requires parents { (i : ℕ) → i < length parents.now → get_or parents.now i 0 < length parents.now }
    ensures within { result < length parents.now }
    ensures climbed { Climbed (parent_in parents.now) marks.old marks.new start result }
{
    let mut at = start;
    while !marks[at] {
        marks[at] = true;
        let up = parents[at];
        if up == 0 {
            return 0;
        }
        at = up as usize;
    }
    at
}

// Where a climb stopped at a number that is not settled, the climb met itself: marks the numbers of the cycle.
fn mark_cycle(parents: &[u32], settled: &[bool], own: &mut [bool], stop: usize)
    requires stop { stop < length parents.now }
    requires settled { length settled.now ≡ length parents.now }
    requires own { length own.old ≡ length parents.now }
    requires parents { (i : ℕ) → i < length parents.now → get_or parents.now i 0 < length parents.now }
    ensures { CycleMarked (parent_in parents.now) settled.now own.old own.new stop }
{
    if stop == 0 {
        return;
    }
    if settled[stop] {
        return;
    }
    let _ = climb(parents, own, stop);
}

// Settles `start` and all its ancestors.
fn settle(parents: &[u32], seen: &mut [bool], settled: &mut [bool], own: &mut [bool], start: usize)
    requires start { start < length parents.now }
    requires seen { length seen.old ≡ length parents.now }
    requires settled { length settled.old ≡ length parents.now }
    requires own { length own.old ≡ length parents.now }
    requires parents { (i : ℕ) → i < length parents.now → get_or parents.now i 0 < length parents.now }
    requires before { AreSettled (parent_in parents.now) seen.old settled.old own.old }
    ensures after { AreSettled (parent_in parents.now) seen.new settled.new own.new }
    ensures start { IsMarked settled.new start }
    ensures kept { (i : ℕ) → IsMarked settled.old i → IsMarked settled.new i }
{
    let stop = climb(parents, seen, start);
    mark_cycle(parents, settled, own, stop);
    let _ = climb(parents, settled, start);
}

/// Whether each number is its own ancestor. `parents[i]` is the parent of number `i`, 0 where there is none.
///
/// Fails where memory is short.
pub fn own_ancestors(alloc: Global, parents: &[u32]) -> Result<Vec<bool>, AllocError>
    requires { (i : ℕ) → i < length parents.now → get_or parents.now i 0 < length parents.now }
    ensures length { IfOk result (λ own. length own.items ≡ length parents.now) }
    ensures own { IfOk result (λ own. (i : ℕ) → i < length parents.now → get_or own.items i false ≡ is_own_ancestor (parent_in parents.now) (length parents.now) i) }
{
    let mut seen = vec![in alloc; false; parents.len()]?;
    let mut settled = vec![in alloc; false; parents.len()]?;
    let mut own = vec![in alloc; false; parents.len()]?;
    for start in 0..parents.len() {
        settle(parents, &mut seen, &mut settled, &mut own, start);
    }
    Ok(own)
}
