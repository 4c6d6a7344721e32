// The calls of a fake, numbered from 1, and those that are to fail.
use std::marker::Model;

#[derive(Drop)]
pub struct Calls {
    fails: Vec<u64>,
    count: u64,
    faults: u64,
}

impl Model for Calls {
    ghost use Rattle.f2_disk.specs.Calls.{CallCount};

    ghost Value = { CallCount };

    ghost view = { λ c. record { fails = c.fails.items; count = c.count; faults = c.faults } };
}

impl Calls {
    ghost use Rattle.std.specs.Prelude.{◌≡◌, ◌≤◌};
    ghost use Rattle.f2_disk.specs.Calls.{none_yet, fails_next, failed, begun};

    pub fn new(fails: Vec<u64>) -> Calls
        ensures { result ≡ none_yet fails.items }
    {
        Calls {
            fails,
            count: 0,
            faults: 0,
        }
    }

    /// How many calls there were.
    pub fn count(&self) -> u64
        ensures { result ≡ self.now.count }
    {
        self.count
    }

    /// Counts a call that failed.
    pub fn fail(&mut self)
        ensures count { self.new ≡ failed self.old }
        ensures later { self.old.faults ≤ self.new.faults }
    {
        self.faults = self.faults.saturating_add(1);
    }

    /// Counts a call, and answers whether it is to fail; then it is counted as failed.
    pub fn begin(&mut self) -> bool
        ensures answer { result ≡ fails_next self.old }
        ensures count { self.new ≡ begun self.old }
        ensures later { self.old.faults ≤ self.new.faults }
    {
        self.count = self.count.saturating_add(1);
        let fails = self.fails.contains(&self.count);
        if fails {
            self.faults = self.faults.saturating_add(1);
        }
        fails
    }
}
