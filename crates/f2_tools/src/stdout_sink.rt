// Standard output as a sink. It tells nothing of content.
ghost use Rattle.std.specs.Prelude.{None};

use f2_disk::{Sink, SinkFault};
use std::io::{Stdout, Write};

/// Standard output, which is not buffered: a put writes all its bytes before it answers, or fails.
#[derive(Drop)]
pub struct StdoutSink {
    out: Stdout,
    faults: u64,
}

impl StdoutSink {
    pub fn new(out: Stdout) -> StdoutSink {
        StdoutSink { out, faults: 0 }
    }
}

impl Sink for StdoutSink {
    ghost told = { λ s. None };

    ghost faults = { λ s. s.faults };

    fn put(&mut self, bytes: &[u8]) -> Result<(), SinkFault> {
        match self.out.write_all(bytes) {
            Ok(()) => Ok(()),
            Err(_) => {
                self.faults = self.faults.saturating_add(1);
                Err(SinkFault)
            }
        }
    }
}
