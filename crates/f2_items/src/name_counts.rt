// How many names each file has, and which directory is the least that names it.
ghost use Rattle.std.specs.Prelude.{◌≡◌, ℕ, ◌<◌, List, [], ◌∷◌, ◌++◌, slice_index, if◌then◌else◌, OnOk, IfOk};
ghost use Rattle.f2_items.specs.Namings.{Naming, names_of, first_parent, IsTally};

use std::alloc::{AllocError, Global};

/// How many names each file has, and the first directory that names it, by the number of the file.
#[derive(Drop)]
pub struct Tallies {
    counts: Vec<u64>,
    // of a file without a name it says nothing
    parents: Vec<u32>,
}

impl Tallies {
    /// No names so far, for files with numbers below `limit`.
    pub fn new(alloc: Global, limit: usize) -> Result<Tallies, AllocError>
        ensures { IfOk result (IsTally limit []) }
    {
        Ok(Tallies {
            counts: vec![in alloc; 0; limit]?,
            parents: vec![in alloc; 0; limit]?,
        })
    }

    /// Counts a name that a directory has for a file. The directories have to come in ascending order, and a file past the
    /// limit is left out. More than 2^64 names of one file are refused as memory that is short.
    pub fn count(&mut self, directory: u32, target: u32) -> Result<(), AllocError>
        ensures { OnOk result ((limit : ℕ) (namings : List Naming) → IsTally limit namings self.old → IsTally limit (namings ++ (directory, target) ∷ []) self.new) }
    {
        let target = target as usize;
        if target >= self.counts.len() || target >= self.parents.len() {
            return Ok(());
        }
        let names = self.counts[target];
        if names == u64::MAX {
            return Err(AllocError);
        }
        if names == 0 {
            self.parents[target] = directory;
        }
        self.counts[target] = names + 1;
        Ok(())
    }

    /// Counts an item that a directory has for a file, if it is a name.
    pub fn count_name(
        &mut self,
        is_name: bool,
        directory: u32,
        target: u32,
    ) -> Result<(), AllocError>
        ensures { OnOk result ((limit : ℕ) (namings : List Naming) → IsTally limit namings self.old
            → IsTally limit (namings ++ (if is_name then (directory, target) ∷ [] else [])) self.new) }
    {
        if !is_name {
            return Ok(());
        }
        self.count(directory, target)?;
        Ok(())
    }

    /// How many names a file below the limit has.
    pub fn names(&self, target: u32) -> u64
        ensures { (limit : ℕ) (namings : List Naming) → IsTally limit namings self.now → target < limit → result ≡ names_of target namings }
    {
        self.counts.get(target as usize).copied().unwrap_or(0)
    }

    /// The first directory that names a file below the limit.
    pub fn parent(&self, target: u32) -> Option<u32>
        ensures { (limit : ℕ) (namings : List Naming) → IsTally limit namings self.now → target < limit → result ≡ first_parent target namings }
    {
        if self.names(target) == 0 {
            return None;
        }
        Some(self.parent_at(target))
    }

    // What is kept of the first directory.
    fn parent_at(&self, target: u32) -> u32
        ensures { result ≡ slice_index self.now.parents.items target }
    {
        self.parents.get(target as usize).copied().unwrap_or(0)
    }
}
