// A disk in memory, with a record of what was done to it.
ghost use Rattle.std.specs.Prelude.{◌≡◌, ◌≤◌, ◌<◌, ◌+◌, ◌++◌, [], ◌∷◌, OnOk, OnErr, ℕ, if◌then◌else◌, ◌==◌};
ghost use Rattle.f2_disk.specs.Memory.{stored, IsCurrent};

use crate::calls::Calls;
use crate::{Block, Disk, DiskFault};
use std::alloc::Global;
use std::collections::BTreeMap;

/// What was done to a disk.
#[derive(Clone, Copy)]
pub enum Event {
    Write { at: u64, block: Block },
    Sync,
}

/// A disk in memory, of zeros at first, which keeps only the blocks that were written, and a record of all its writes
/// and syncs.
///
/// A call fails where its number is in a list, counted from 1 over all kinds of calls. A write or a sync that finds no
/// memory is a failed call, and leaves the disk as it was.
#[derive(Drop)]
pub struct MemoryDisk {
    blocks: u64,
    events: Vec<Event>,
    current: BTreeMap<u64, Block>,
    writes: u64,
    calls: Calls,
    ghost is_current: { IsCurrent blocks events.items current.entries },
}

// Keeps a write, in the record and among the blocks as read.
fn keep_write(
    events: &mut Vec<Event>,
    current: &mut BTreeMap<u64, Block>,
    at: u64,
    block: Block,
) -> Result<(), DiskFault>
    ensures done { OnOk result (events.new.items ≡ events.old.items ++ Event.Write at block ∷ []) }
    ensures put { OnOk result ((k : ℕ) → stored current.new.entries k ≡ (if k == at then block else stored current.old.entries k)) }
    ensures err { OnErr result ((events.new.items ≡ events.old.items) × (current.new.entries ≡ current.old.entries)) }
{
    if events.push(Event::Write { at, block }).is_err() {
        return Err(DiskFault);
    }
    if current.insert(at, block).is_err() {
        let _ = events.pop();
        return Err(DiskFault);
    }
    Ok(())
}

impl MemoryDisk {
    ghost use Rattle.std.specs.Prelude.{count_by, not};
    ghost use Rattle.f2_disk.specs.Calls.{none_yet};
    ghost use Rattle.f2_disk.specs.Memory.{is_write};
    ghost use Rattle.f2_disk.specs.Fakes.{memory_of};

    /// So many blocks of zeros. The calls with the numbers in `fails` fail.
    pub fn new(alloc: Global, blocks: u64, fails: Vec<u64>) -> MemoryDisk
        ensures { memory_of result ≡ record { blocks = blocks; events = []; writes = 0; calls = none_yet fails.items } }
    {
        MemoryDisk {
            blocks,
            events: Vec::new(alloc),
            current: BTreeMap::new(alloc),
            writes: 0,
            calls: Calls::new(fails),
        }
    }

    /// The number of all calls, of any kind.
    pub fn calls(&self) -> u64
        ensures { result ≡ (memory_of self.now).calls.count }
    {
        self.calls.count()
    }

    /// The number of writes that were done.
    pub fn writes(&self) -> u64
        ensures { result ≡ count_by is_write (memory_of self.now).events }
    {
        let count = self
            .events
            .iter()
            .filter(|event| matches!(event, Event::Write { .. }))
            .count();
        count as u64
    }

    /// The number of syncs that were done.
    pub fn syncs(&self) -> u64
        ensures { result ≡ count_by (λ event. not (is_write event)) (memory_of self.now).events }
    {
        let count = self
            .events
            .iter()
            .filter(|event| matches!(event, Event::Sync))
            .count();
        count as u64
    }
}

impl Disk for MemoryDisk {
    ghost use Rattle.std.specs.Prelude.{true, false, is_err, IsErr, Some, IfOk};
    ghost use Rattle.f2_bytes.specs.Bytes.{Image, block_at};
    ghost use Rattle.f2_disk.specs.Calls.{fails_next, raised, begun};
    ghost use Rattle.f2_disk.specs.Disk.{Goes, Reads, Writes, Wrote, Syncs, Rose};
    ghost use Rattle.f2_disk.specs.Memory.{state_of};
    ghost use Rattle.f2_disk.specs.Fakes.{memory_of};
    ghost use Rattle.f2_disk.specs.MemoryLaws.{whole, settled, stays, counts_now, only_now};

    ghost state = { λ d. state_of (memory_of d) };

    ghost whole = { λ d image told. whole d.blocks d.events.items image d.is_current.image told };

    ghost settled = { λ d c calm left. settled d.blocks d.events.items c calm left };

    ghost stays = { λ d image tells told. stays d.blocks d.events.items image told };

    ghost counts_now = { λ d t c le left. counts_now d.blocks d.events.items t c le left };

    ghost only_now = { λ d c left. only_now d.blocks d.events.items c left };

    fn size(&mut self) -> Result<u64, DiskFault>
        ensures size { IfOk result (λ n. n ≡ (memory_of self.old).blocks) }
        ensures reads { Reads (state_of (memory_of self.old)) (state_of (memory_of self.new)) }
        ensures goes { Goes (state_of (memory_of self.old)) (state_of (memory_of self.new)) }
        ensures fault { OnErr result (Rose (memory_of self.old).calls.faults (memory_of self.new).calls.faults) }
        ensures listed { is_err result ≡ fails_next (memory_of self.old).calls }
        ensures calls { (memory_of self.new).calls ≡ begun (memory_of self.old).calls }
    {
        if self.calls.begin() {
            return Err(DiskFault);
        }
        Ok(self.blocks)
    }

    fn read(&mut self, at: u64, into: &mut Block) -> Result<(), DiskFault>
        requires { at < (memory_of self.old).blocks }
        ensures block { OnOk result ((image : Image) → (state_of (memory_of self.old)).told ≡ Some image → into.new ≡ block_at image at) }
        ensures reads { Reads (state_of (memory_of self.old)) (state_of (memory_of self.new)) }
        ensures goes { Goes (state_of (memory_of self.old)) (state_of (memory_of self.new)) }
        ensures fault { OnErr result (Rose (memory_of self.old).calls.faults (memory_of self.new).calls.faults) }
        ensures listed { is_err result ≡ fails_next (memory_of self.old).calls }
        ensures calls { (memory_of self.new).calls ≡ begun (memory_of self.old).calls }
    {
        if self.calls.begin() {
            return Err(DiskFault);
        }
        *into = match self.current.get(&at) {
            Some(block) => *block,
            None => Block::zeros(),
        };
        Ok(())
    }

    fn write(&mut self, at: u64, from: &Block) -> Result<(), DiskFault>
        requires { at < (memory_of self.old).blocks }
        ensures done { OnOk result (Wrote at from.now (state_of (memory_of self.old)) (state_of (memory_of self.new))) }
        ensures writes { Writes at from.now (state_of (memory_of self.old)) (state_of (memory_of self.new)) }
        ensures goes { Goes (state_of (memory_of self.old)) (state_of (memory_of self.new)) }
        ensures fault { OnErr result (Rose (memory_of self.old).calls.faults (memory_of self.new).calls.faults) }
        ensures listed { fails_next (memory_of self.old).calls ≡ true → IsErr result }
        ensures calls { (memory_of self.new).calls.count ≡ raised (memory_of self.old).calls.count }
        ensures kept { OnOk result ((memory_of self.new).events ≡ (memory_of self.old).events ++ Event.Write at from.now ∷ []) }
        ensures unkept { OnErr result ((memory_of self.new).events ≡ (memory_of self.old).events) }
    {
        self.writes = self.writes.saturating_add(1);
        if self.calls.begin() {
            return Err(DiskFault);
        }
        let bytes = from.bytes();
        prove!(bytes.len() == 4096);
        match keep_write(&mut self.events, &mut self.current, at, *from) {
            Ok(()) => Ok(()),
            Err(fault) => {
                self.calls.fail();
                Err(fault)
            }
        }
    }

    fn sync(&mut self) -> Result<(), DiskFault>
        ensures done { OnOk result ((state_of (memory_of self.new)).pending ≡ false) }
        ensures failed { OnErr result (Reads (state_of (memory_of self.old)) (state_of (memory_of self.new))) }
        ensures syncs { Syncs (state_of (memory_of self.old)) (state_of (memory_of self.new)) }
        ensures goes { Goes (state_of (memory_of self.old)) (state_of (memory_of self.new)) }
        ensures fault { OnErr result (Rose (memory_of self.old).calls.faults (memory_of self.new).calls.faults) }
        ensures listed { fails_next (memory_of self.old).calls ≡ true → IsErr result }
        ensures calls { (memory_of self.new).calls.count ≡ raised (memory_of self.old).calls.count }
        ensures kept { OnOk result ((memory_of self.new).events ≡ (memory_of self.old).events ++ Event.Sync ∷ []) }
        ensures unkept { OnErr result ((memory_of self.new).events ≡ (memory_of self.old).events) }
    {
        if self.calls.begin() {
            return Err(DiskFault);
        }
        match self.events.push(Event::Sync) {
            Ok(()) => Ok(()),
            Err(_) => {
                self.calls.fail();
                Err(DiskFault)
            }
        }
    }
}
