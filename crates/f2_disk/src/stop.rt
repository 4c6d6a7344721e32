// A disk that stops in the middle of a run.
ghost use Rattle.std.specs.Prelude.{◌≡◌, ◌≤◌, ◌<◌, ◌+◌, ◌-◌, ◌^◌, min, length, false, true, OnOk, OnErr, IfOk, IsErr, not};
ghost use Rattle.std.specs.Bool.{OnTrue, OnFalse};
ghost use Rattle.f2_bytes.specs.Bytes.{Image, block_at};
ghost use Rattle.f2_disk.specs.Calls.{raised};
ghost use Rattle.f2_disk.specs.Disk.{State, Reads, Writes, Wrote, Syncs, Goes, IsTorn, Rose};
ghost use Rattle.f2_disk.specs.Stop.{half_of, is_whole, torn_block, Tears};

use crate::{Block, Disk, DiskFault};
use f2_bytes::{passes, sealed};

/// What the write at which a disk stops leaves of its block: the old bytes, the new ones, or the first 2048 new bytes
/// before the old rest.
#[derive(Clone, Copy, Debug, PartialEq, Eq)]
pub enum Torn {
    Old,
    New,
    Half,
}

/// A disk whose calls all fail from number `stop` on, counted from 1 over all kinds of calls.
///
/// Where call number `stop` is a write, `torn` says what it leaves of its block. Under `Torn::Half` the block keeps
/// its old bytes where the half-written one would be sealed or would pass as a superblock copy, since a reader would
/// take such a block for whole.
#[derive(Drop)]
pub struct StopDisk<D: Disk + Drop> {
    inner: D,
    stop: u64,
    torn: Torn,
    calls: u64,
    faults: u64,
    writes: u64,
}

// The first half of one block before the second half of the other.
fn half_written(new: &Block, old: &Block) -> Block
    ensures { result ≡ half_of new.now old.now }
{
    let (first, _) = new.bytes().split_at(2048);
    let mut half = *old;
    half.put(0, first);
    half
}

// Whether no reader takes the block for whole.
fn is_torn(b: &Block) -> bool
    ensures torn { OnTrue result (IsTorn b.now) }
    ensures whole { result ≡ not (is_whole b.now) }
{
    let bytes = b.bytes();
    !sealed(bytes) && !passes(bytes)
}

// Writes the first half of a block, unless a reader would take that for whole. Answers whether it called for a write.
fn write_half<D: Disk>(disk: &mut D, at: u64, from: &Block) -> bool
    requires { at < (D.state disk.old).size }
    ensures wrote { OnTrue result (Writes at from.now (D.state disk.old) (D.state disk.new)) }
    ensures skipped { OnFalse result (Reads (D.state disk.old) (D.state disk.new)) }
    ensures tears { Tears Torn.Half at from.now (D.state disk.old) (D.state disk.new) }
    ensures goes { Goes (D.state disk.old) (D.state disk.new) }
{
    let mut old = Block::zeros();
    if disk.read(at, &mut old).is_err() {
        return false;
    }
    let half = half_written(from, &old);
    if !is_torn(&half) {
        return false;
    }
    let _ = disk.write(at, &half);
    true
}

// The write at which the disk stops. Answers whether it called for a write below.
fn last_write<D: Disk>(disk: &mut D, torn: Torn, at: u64, from: &Block) -> bool
    requires { at < (D.state disk.old).size }
    ensures wrote { OnTrue result (Writes at from.now (D.state disk.old) (D.state disk.new)) }
    ensures skipped { OnFalse result (Reads (D.state disk.old) (D.state disk.new)) }
    ensures kept { torn ≡ Torn.Old → (result ≡ false) × (disk.new ≡ disk.old) }
    ensures tears { Tears torn at from.now (D.state disk.old) (D.state disk.new) }
    ensures goes { Goes (D.state disk.old) (D.state disk.new) }
{
    match torn {
        Torn::Old => false,
        Torn::New => {
            let _ = disk.write(at, from);
            true
        }
        Torn::Half => write_half(disk, at, from),
    }
}

impl<D: Disk + Drop> StopDisk<D> {
    /// Passes calls on to `inner`, and fails them from number `stop` on.
    pub fn new(inner: D, stop: u64, torn: Torn) -> StopDisk<D>
        ensures parts { (result.inner ≡ inner) × (result.stop ≡ stop) × (result.torn ≡ torn) }
        ensures counts { (result.calls ≡ 0) × (result.faults ≡ 0) × (result.writes ≡ 0) }
    {
        StopDisk {
            inner,
            stop,
            torn,
            calls: 0,
            faults: 0,
            writes: 0,
        }
    }

    /// The disk below, as the calls left it.
    pub fn into_inner(self) -> D
        ensures { result ≡ self.inner }
    {
        let StopDisk { inner, .. } = self;
        inner
    }

    // Counts a call, and answers whether it is at or past the stop; then it is counted as failed.
    fn stops(calls: &mut u64, faults: &mut u64, stop: u64) -> bool
        ensures calls { calls.new ≡ raised calls.old }
        ensures at_stop { OnTrue result (stop ≤ calls.new) }
        ensures before { OnFalse result (calls.new < stop) }
        ensures later { faults.old ≤ faults.new }
        ensures rose { OnTrue result (Rose faults.old faults.new) }
        ensures calm { OnFalse result (faults.new ≡ faults.old) }
    {
        *calls = calls.saturating_add(1);
        if *calls < stop {
            return false;
        }
        *faults = faults.saturating_add(1);
        true
    }
}

impl<D: Disk + Drop> Disk for StopDisk<D> {
    ghost use Rattle.f2_disk.specs.Stop.{stopped};

    ghost state = { λ d. stopped (D.state d.inner) d.writes d.faults };

    ghost whole = { λ d image told. D.whole d.inner image told };

    ghost settled = { λ d c calm left. D.settled d.inner c calm left };

    ghost stays = { λ d image tells told. D.stays d.inner image tells told };

    ghost counts_now = { λ d t c le left. D.counts_now d.inner t c le left };

    ghost only_now = { λ d c left. D.only_now d.inner c left };

    fn size(&mut self) -> Result<u64, DiskFault>
        ensures size { IfOk result (λ n. n ≡ (stopped (D.state self.old.inner) self.old.writes self.old.faults).size) }
        ensures reads { Reads (stopped (D.state self.old.inner) self.old.writes self.old.faults) (stopped (D.state self.new.inner) self.new.writes self.new.faults) }
        ensures goes { Goes (stopped (D.state self.old.inner) self.old.writes self.old.faults) (stopped (D.state self.new.inner) self.new.writes self.new.faults) }
        ensures fault { OnErr result (Rose (stopped (D.state self.old.inner) self.old.writes self.old.faults).faults (stopped (D.state self.new.inner) self.new.writes self.new.faults).faults) }
        ensures calls { self.new.calls ≡ raised self.old.calls }
        ensures stopped { self.old.stop ≤ raised self.old.calls → IsErr result }
        ensures passed { raised self.old.calls < self.old.stop → OnErr result (Rose (D.state self.old.inner).faults (D.state self.new.inner).faults) }
    {
        if Self::stops(&mut self.calls, &mut self.faults, self.stop) {
            return Err(DiskFault);
        }
        self.inner.size()
    }

    fn read(&mut self, at: u64, into: &mut Block) -> Result<(), DiskFault>
        requires { at < (stopped (D.state self.old.inner) self.old.writes self.old.faults).size }
        ensures block { OnOk result ((image : Image) → (stopped (D.state self.old.inner) self.old.writes self.old.faults).told ≡ Some image → into.new ≡ block_at image at) }
        ensures reads { Reads (stopped (D.state self.old.inner) self.old.writes self.old.faults) (stopped (D.state self.new.inner) self.new.writes self.new.faults) }
        ensures goes { Goes (stopped (D.state self.old.inner) self.old.writes self.old.faults) (stopped (D.state self.new.inner) self.new.writes self.new.faults) }
        ensures fault { OnErr result (Rose (stopped (D.state self.old.inner) self.old.writes self.old.faults).faults (stopped (D.state self.new.inner) self.new.writes self.new.faults).faults) }
        ensures calls { self.new.calls ≡ raised self.old.calls }
        ensures stopped { self.old.stop ≤ raised self.old.calls → IsErr result }
        ensures passed { raised self.old.calls < self.old.stop → OnErr result (Rose (D.state self.old.inner).faults (D.state self.new.inner).faults) }
    {
        if Self::stops(&mut self.calls, &mut self.faults, self.stop) {
            return Err(DiskFault);
        }
        self.inner.read(at, into)
    }

    fn write(&mut self, at: u64, from: &Block) -> Result<(), DiskFault>
        requires { at < (stopped (D.state self.old.inner) self.old.writes self.old.faults).size }
        ensures done { OnOk result (Wrote at from.now (stopped (D.state self.old.inner) self.old.writes self.old.faults) (stopped (D.state self.new.inner) self.new.writes self.new.faults)) }
        ensures writes { Writes at from.now (stopped (D.state self.old.inner) self.old.writes self.old.faults) (stopped (D.state self.new.inner) self.new.writes self.new.faults) }
        ensures kept { self.old.torn ≡ Torn.Old → self.old.stop ≤ raised self.old.calls → self.new.inner ≡ self.old.inner }
        ensures past { self.old.stop < raised self.old.calls → self.new.inner ≡ self.old.inner }
        ensures tears { self.old.stop ≡ raised self.old.calls
            → Tears self.old.torn at from.now (D.state self.old.inner) (D.state self.new.inner) }
        ensures goes { Goes (stopped (D.state self.old.inner) self.old.writes self.old.faults) (stopped (D.state self.new.inner) self.new.writes self.new.faults) }
        ensures fault { OnErr result (Rose (stopped (D.state self.old.inner) self.old.writes self.old.faults).faults (stopped (D.state self.new.inner) self.new.writes self.new.faults).faults) }
        ensures calls { self.new.calls ≡ raised self.old.calls }
        ensures stopped { self.old.stop ≤ raised self.old.calls → IsErr result }
        ensures passed { raised self.old.calls < self.old.stop → OnErr result (Rose (D.state self.old.inner).faults (D.state self.new.inner).faults) }
    {
        if !Self::stops(&mut self.calls, &mut self.faults, self.stop) {
            return self.inner.write(at, from);
        }
        if self.calls > self.stop || !last_write(&mut self.inner, self.torn, at, from) {
            self.writes = self.writes.saturating_add(1);
        }
        Err(DiskFault)
    }

    fn sync(&mut self) -> Result<(), DiskFault>
        ensures done { OnOk result ((stopped (D.state self.new.inner) self.new.writes self.new.faults).pending ≡ false) }
        ensures failed { OnErr result (Reads (stopped (D.state self.old.inner) self.old.writes self.old.faults) (stopped (D.state self.new.inner) self.new.writes self.new.faults)) }
        ensures syncs { Syncs (stopped (D.state self.old.inner) self.old.writes self.old.faults) (stopped (D.state self.new.inner) self.new.writes self.new.faults) }
        ensures goes { Goes (stopped (D.state self.old.inner) self.old.writes self.old.faults) (stopped (D.state self.new.inner) self.new.writes self.new.faults) }
        ensures fault { OnErr result (Rose (stopped (D.state self.old.inner) self.old.writes self.old.faults).faults (stopped (D.state self.new.inner) self.new.writes self.new.faults).faults) }
        ensures calls { self.new.calls ≡ raised self.old.calls }
        ensures stopped { self.old.stop ≤ raised self.old.calls → IsErr result }
        ensures passed { raised self.old.calls < self.old.stop → OnErr result (Rose (D.state self.old.inner).faults (D.state self.new.inner).faults) }
    {
        if Self::stops(&mut self.calls, &mut self.faults, self.stop) {
            return Err(DiskFault);
        }
        self.inner.sync()
    }
}
