// How often each number is named.
ghost use Rattle.std.specs.Prelude.{◌≡◌, ℕ, ◌+◌, ◌-◌, ◌<◌, ◌≤◌, ◌==◌, ◌^◌, min, IfOk};
ghost use Rattle.f2_bytes.specs.Check.{digit};
ghost use Rattle.f2_items.specs.Counted.{IsCounted};

use std::alloc::{AllocError, Global};
use std::marker::Model;

/// How often each number below a limit is named, but 0, which is no number of a node. Counts end at 64 bits.
#[derive(Drop)]
pub struct Times {
    counts: Vec<u64>,
}

impl Model for Times {
    ghost use Rattle.std.specs.Prelude.{ℕ, List};

    ghost Value = { List ℕ };

    ghost view = { λ t. t.counts.items };
}

impl Times {
    /// No number is named so far.
    pub fn new(alloc: Global, limit: u32) -> Result<Times, AllocError>
        ensures none { IfOk result (λ times. IsCounted limit times (λ _. 0)) }
    {
        let counts = vec![in alloc; 0; limit as usize]?;
        Ok(Times { counts })
    }

    /// The number is named once more, if it is below the limit.
    pub fn name(&mut self, nid: u32)
        ensures { (limit : ℕ) (times : ℕ → ℕ) → IsCounted limit self.old times → IsCounted limit self.new (λ n. times n + digit (nid == n)) }
    {
        let at = nid as usize;
        if at < self.counts.len() {
            let count = self.counts[at];
            self.counts[at] = count.saturating_add(1);
        }
    }

    /// How often the number is named: 0 past the limit.
    pub fn of(&self, nid: u32) -> u64
        ensures { (limit : ℕ) (times : ℕ → ℕ) → IsCounted limit self.now times → 1 ≤ nid → nid < limit → result ≡ min (times nid) (2 ^ 64 - 1) }
    {
        let at = nid as usize;
        if at < self.counts.len() {
            self.counts[at]
        } else {
            0
        }
    }
}
