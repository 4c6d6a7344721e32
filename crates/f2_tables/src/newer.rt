// The entries that go before those of a table's blocks.
ghost use Rattle.std.specs.Prelude.{◌≡◌, ℕ, ◌≤◌, ◌*◌, ◌==◌, false, if◌then◌else◌, [], ◌∷◌, ◌++◌, filter, get_or, length, Some, IfOk, OnOk, OnErr};
ghost use Rattle.f2_bytes.specs.Bytes.{numbers_below};
ghost use Rattle.f2_tables.specs.Tables.{value_at, or_at, is_dirty};

use f2_bytes::NoMemory;
use std::alloc::Global;
use std::collections::BTreeMap;
use std::marker::Model;

// The entries by their numbers, seen as a map.
#[derive(Drop)]
pub struct Newer<E: Copy> {
    alloc: Global,
    entries: BTreeMap<u32, E>,
}

impl<E: Copy> Model for Newer<E> {
    ghost use Rattle.std.specs.Prelude.{ℕ, List};

    ghost Value = { List (ℕ × E) };

    ghost view = { λ m. m.entries.entries };
}

// Appends the number of a block that is marked.
fn push_marked(dirty: &mut Vec<u32>, k: u32, marked: bool) -> Result<(), NoMemory>
    ensures { OnOk result (dirty.new.items ≡ dirty.old.items ++ (if marked then k ∷ [] else [])) }
{
    if !marked {
        return Ok(());
    }
    match dirty.push(k) {
        Ok(()) => Ok(()),
        Err(_) => Err(NoMemory),
    }
}

impl<E: Copy> Newer<E> {
    // No entry yet.
    pub fn new(alloc: Global) -> Newer<E>
        ensures { result ≡ [] }
    {
        Newer {
            alloc,
            entries: BTreeMap::new(alloc),
        }
    }

    // The entry at a number, if any.
    pub fn get(&self, n: u32) -> Option<E>
        ensures { result ≡ value_at self.now n }
    {
        self.entries.get(&n).copied()
    }

    // Puts an entry at a number. Where memory is short, all stays.
    pub fn set(&mut self, n: u32, entry: E) -> Result<(), NoMemory>
        ensures done { OnOk result ((k : ℕ) → value_at self.new k ≡ (if k == n then Some entry else value_at self.old k)) }
        ensures err { OnErr result (self.new ≡ self.old) }
    {
        match self.entries.insert(n, entry) {
            Ok(_) => Ok(()),
            Err(_) => Err(NoMemory),
        }
    }

    // Puts an entry at a number that has none; one that stands there stays. Where memory is short, all stays.
    pub fn set_first(&mut self, n: u32, entry: E) -> Result<(), NoMemory>
        ensures done { OnOk result ((k : ℕ) → value_at self.new k ≡ or_at (value_at self.old k) (n == k) entry) }
        ensures err { OnErr result (self.new ≡ self.old) }
    {
        match self.get(n) {
            Some(_) => Ok(()),
            None => self.set(n, entry),
        }
    }

    // Marks the blocks of so many entries each that have an entry below the limit.
    fn mark(&self, marks: &mut Vec<bool>, entries: u32, limit: u32)
        requires some { 1 ≤ entries }
        requires room { limit ≤ entries * length marks.old.items }
        requires none { (k : ℕ) → get_or marks.old.items k false ≡ false }
        ensures length { length marks.new.items ≡ length marks.old.items }
        ensures marks { (k : ℕ) → get_or marks.new.items k false ≡ is_dirty entries limit (value_at self.now) k }
    {
        for n in self.entries.keys() {
            if *n < limit {
                marks[(*n / entries) as usize] = true;
            }
        }
    }

    // The numbers of the blocks, so many and of so many entries each, that have an entry below the limit.
    pub fn blocks(&self, blocks: u32, entries: u32, limit: u32) -> Result<Vec<u32>, NoMemory>
        requires some { 1 ≤ entries }
        requires room { limit ≤ entries * blocks }
        ensures { IfOk result (λ v. v.items ≡ filter (is_dirty entries limit (value_at self.now)) (numbers_below blocks)) }
    {
        let mut marks = match vec![in self.alloc; false; blocks as usize] {
            Ok(marks) => marks,
            Err(_) => return Err(NoMemory),
        };
        self.mark(&mut marks, entries, limit);
        let mut dirty = Vec::new(self.alloc);
        for k in 0..blocks {
            push_marked(&mut dirty, k, marks[k as usize])?;
        }
        Ok(dirty)
    }
}
