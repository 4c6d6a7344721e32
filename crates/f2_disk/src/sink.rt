// A sink of bytes as all jobs see it, and one in memory.
ghost use Rattle.std.specs.Prelude.{◌≡◌, List, ℕ, Option};
ghost use Rattle.f2_disk.specs.Sink.{Puts};

use crate::calls::Calls;
use std::alloc::Global;
use std::marker::Model;
use thiserror::Error;

/// A put failed.
#[derive(Clone, Copy, Debug, PartialEq, Eq, Error)]
#[error("a put of the sink failed")]
pub struct SinkFault;

/// A sink that takes bytes in order, as standard output does.
///
/// A sink that tells its bytes at one moment tells them at every later one. A put answers `SinkFault` only where the
/// count of faults rose in that call, or stands at its type's end.
pub trait Sink {
    /// The bytes so far, where it tells them.
    ghost told: { Self → Option (List ℕ) };

    /// How many puts failed.
    ghost faults: { Self → ℕ };

    /// Appends the bytes, or at a fault a prefix of them.
    fn put(&mut self, bytes: &[u8]) -> Result<(), SinkFault>
        ensures { Puts bytes.now (told self.old) (told self.new) (faults self.old) (faults self.new) result };
}

/// A sink in memory. A put fails where its number is in a list, counted from 1, or where it finds no memory.
#[derive(Drop)]
pub struct MemorySink {
    bytes: Vec<u8>,
    calls: Calls,
}

impl Model for MemorySink {
    ghost use Rattle.f2_disk.specs.Sink.{Gathered};

    ghost Value = { Gathered };

    ghost view = { λ s. record { bytes = s.bytes.items; calls = s.calls } };
}

impl MemorySink {
    ghost use Rattle.std.specs.Prelude.{[]};
    ghost use Rattle.f2_disk.specs.Calls.{none_yet};

    /// An empty sink that fails the puts with these numbers.
    pub fn new(alloc: Global, fails: Vec<u64>) -> MemorySink
        ensures bytes { result.bytes ≡ [] }
        ensures calls { result.calls ≡ none_yet fails.items }
    {
        MemorySink {
            bytes: Vec::new(alloc),
            calls: Calls::new(fails),
        }
    }

    /// The bytes so far.
    pub fn bytes(&self) -> &[u8]
        ensures { result.now ≡ self.now.bytes }
    {
        &self.bytes
    }
}

impl Sink for MemorySink {
    ghost use Rattle.std.specs.Prelude.{true, IsErr, ◌++◌, Some, OnOk, OnErr};
    ghost use Rattle.f2_disk.specs.Calls.{fails_next, raised};

    ghost told = { λ s. Some s.bytes };

    ghost faults = { λ s. s.calls.faults };

    fn put(&mut self, bytes: &[u8]) -> Result<(), SinkFault>
        ensures puts { Puts bytes.now (Some self.old.bytes) (Some self.new.bytes) self.old.calls.faults self.new.calls.faults result }
        ensures listed { fails_next self.old.calls ≡ true → IsErr result }
        ensures counted { self.new.calls.count ≡ raised self.old.calls.count }
    {
        if self.calls.begin() {
            return Err(SinkFault);
        }
        match self.bytes.extend_from_slice(bytes) {
            Ok(()) => Ok(()),
            Err(_) => {
                self.calls.fail();
                Err(SinkFault)
            }
        }
    }
}
