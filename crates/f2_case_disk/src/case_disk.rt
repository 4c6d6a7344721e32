// A disk in memory for cases, which tells nothing of its blocks.
ghost use Rattle.std.specs.Prelude.{◌≡◌, length};
ghost use Rattle.f2_case_disk.specs.Silent.{silent, told_none};
ghost use Rattle.f2_disk.specs.Calm.{tells_none};

use f2_bytes::NoMemory;
use f2_disk::{Block, Disk, DiskFault};
use std::alloc::Global;
use std::collections::{BTreeMap, BTreeSet};

/// What a call of a disk asks for.
#[derive(Clone, Copy, Debug, PartialEq, Eq)]
pub enum CallKind {
    Size,
    Read,
    Write,
    Sync,
}

/// A disk of zeros at first, which keeps the blocks that were put there or written.
///
/// It counts its calls since the last `begin`, notes their kinds, and fails those whose numbers were given then, counted
/// from 1. A write that finds no memory fails too.
#[derive(Drop)]
pub struct CaseDisk {
    alloc: Global,
    blocks: u64,
    places: BTreeMap<u64, usize>,
    kept: Vec<Block>,
    fails: BTreeSet<u64>,
    kinds: Vec<CallKind>,
    calls: u64,
    writes: u64,
    syncs: u64,
    pending: bool,
    faults: u64,
    called_writes: u64,
}

impl CaseDisk {
    /// So many blocks of zeros, of which no call fails.
    pub fn new(alloc: Global, blocks: u64) -> CaseDisk {
        CaseDisk {
            alloc,
            blocks,
            places: BTreeMap::new(alloc),
            kept: Vec::new(alloc),
            fails: BTreeSet::new(alloc),
            kinds: Vec::new(alloc),
            calls: 0,
            writes: 0,
            syncs: 0,
            pending: false,
            faults: 0,
            called_writes: 0,
        }
    }

    /// Another disk with the same blocks, with no calls so far, of which none fails.
    pub fn copy(&self) -> Result<CaseDisk, NoMemory> {
        let mut other = CaseDisk::new(self.alloc, self.blocks);
        for (at, place) in &self.places {
            other.places.insert(*at, *place).map_err(|_| NoMemory)?;
        }
        other
            .kept
            .extend_from_slice(&self.kept)
            .map_err(|_| NoMemory)?;
        Ok(other)
    }

    /// The length in blocks.
    pub fn blocks(&self) -> u64 {
        self.blocks
    }

    /// A block as it is now, zeros where nothing was put; no call of the disk.
    pub fn get(&self, at: u64) -> Block {
        let kept = self.places.get(&at).and_then(|place| self.kept.get(*place));
        match kept {
            Some(block) => *block,
            None => Block::zeros(),
        }
    }

    /// Puts a block, unless it lies behind the end; no call of the disk.
    pub fn set(&mut self, at: u64, b: &Block) -> Result<(), NoMemory> {
        if at >= self.blocks {
            return Ok(());
        }
        if keep(&mut self.places, &mut self.kept, at, b) {
            Ok(())
        } else {
            Err(NoMemory)
        }
    }

    /// Counts calls anew, from here on; those with these numbers fail.
    pub fn begin(&mut self, fails: &[u64]) -> Result<(), NoMemory> {
        self.fails = BTreeSet::new(self.alloc);
        for call in fails {
            self.fails.insert(*call).map_err(|_| NoMemory)?;
        }
        self.kinds = Vec::new(self.alloc);
        self.calls = 0;
        self.writes = 0;
        self.syncs = 0;
        Ok(())
    }

    /// How many calls there were since `begin`.
    pub fn calls(&self) -> u64 {
        self.calls
    }

    /// How many writes were done since then.
    pub fn writes(&self) -> u64 {
        self.writes
    }

    /// How many syncs were done since then.
    pub fn syncs(&self) -> u64 {
        self.syncs
    }

    /// What each of these calls asked for, as far as memory sufficed.
    pub fn kinds(&self) -> &[CallKind] {
        &self.kinds
    }

    /// Whether a block was put or written there.
    pub fn holds(&self, at: u64) -> bool {
        self.places.get(&at).is_some()
    }

    // Adds the numbers of the blocks that were put here and differ from the other disk's.
    fn push_differences(
        &self,
        other: &CaseDisk,
        found: &mut BTreeSet<u64>,
    ) -> Result<(), NoMemory> {
        for (at, place) in &self.places {
            let differs = match self.kept.get(*place) {
                Some(block) => block.bytes() != other.get(*at).bytes(),
                None => false,
            };
            if differs {
                found.insert(*at).map_err(|_| NoMemory)?;
            }
        }
        Ok(())
    }

    /// The numbers of the blocks in which two disks differ, ascending.
    pub fn differences(&self, other: &CaseDisk) -> Result<Vec<u64>, NoMemory> {
        let mut found = BTreeSet::new(self.alloc);
        self.push_differences(other, &mut found)?;
        other.push_differences(self, &mut found)?;
        let mut numbers = Vec::new(self.alloc);
        for at in &found {
            numbers.push(*at).map_err(|_| NoMemory)?;
        }
        Ok(numbers)
    }

    /// The numbers of the blocks that were put or written, ascending.
    pub fn held(&self) -> Result<Vec<u64>, NoMemory> {
        let mut numbers = Vec::new(self.alloc);
        for at in self.places.keys() {
            numbers.push(*at).map_err(|_| NoMemory)?;
        }
        Ok(numbers)
    }
}

// Counts a call, and answers whether it is to fail.
fn fails_now(
    calls: &mut u64,
    kinds: &mut Vec<CallKind>,
    fails: &BTreeSet<u64>,
    kind: CallKind,
) -> bool {
    *calls = calls.saturating_add(1);
    let _ = kinds.push(kind);
    let call = *calls;
    fails.contains(&call)
}

// Keeps a block. Answers whether there was memory for it.
fn keep(places: &mut BTreeMap<u64, usize>, kept: &mut Vec<Block>, at: u64, b: &Block) -> bool {
    let place = places.get(&at).copied();
    match place {
        Some(place) if place < kept.len() => {
            kept[place] = *b;
            true
        }
        _ => {
            let place = kept.len();
            kept.push(*b).is_ok() && places.insert(at, place).is_ok()
        }
    }
}

impl Disk for CaseDisk {
    ghost state = { λ d. silent d.blocks d.pending d.faults d.called_writes };

    ghost whole = { λ d image told. told_none told };

    ghost settled = { λ d c calm left. absurd left };

    ghost stays = { λ d image tells told. tells_none tells };

    ghost counts_now = { λ d t c le left. left };

    ghost only_now = { λ d c left. left };

    fn size(&mut self) -> Result<u64, DiskFault> {
        if fails_now(
            &mut self.calls,
            &mut self.kinds,
            &self.fails,
            CallKind::Size,
        ) {
            self.faults = self.faults.saturating_add(1);
            return Err(DiskFault);
        }
        Ok(self.blocks)
    }

    fn read(&mut self, at: u64, into: &mut Block) -> Result<(), DiskFault> {
        if fails_now(
            &mut self.calls,
            &mut self.kinds,
            &self.fails,
            CallKind::Read,
        ) {
            self.faults = self.faults.saturating_add(1);
            return Err(DiskFault);
        }
        *into = self.get(at);
        Ok(())
    }

    fn write(&mut self, at: u64, from: &Block) -> Result<(), DiskFault> {
        self.called_writes = self.called_writes.saturating_add(1);
        if fails_now(
            &mut self.calls,
            &mut self.kinds,
            &self.fails,
            CallKind::Write,
        ) || !keep(&mut self.places, &mut self.kept, at, from)
        {
            self.faults = self.faults.saturating_add(1);
            return Err(DiskFault);
        }
        self.writes = self.writes.saturating_add(1);
        self.pending = true;
        Ok(())
    }

    fn sync(&mut self) -> Result<(), DiskFault> {
        if fails_now(
            &mut self.calls,
            &mut self.kinds,
            &self.fails,
            CallKind::Sync,
        ) {
            self.faults = self.faults.saturating_add(1);
            return Err(DiskFault);
        }
        self.syncs = self.syncs.saturating_add(1);
        self.pending = false;
        Ok(())
    }
}
