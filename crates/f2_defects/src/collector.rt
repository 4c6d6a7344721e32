// Defects as they are found: the first 64, and how many there are.
ghost use Rattle.std.specs.Prelude.{◌≡◌, ℕ, ◌+◌, ◌-◌, ◌^◌, ◌<◌, ◌≤◌, ◌∷◌, [], ◌++◌, ◌==◌, not, List, length, IfOk, OnOk, Some, nat_lt};
ghost use Rattle.f2_bytes.specs.Check.{same as same_values, at_least as at_least_wanted, fails_where};
ghost use Rattle.f2_bytes.specs.Check.{Defect as FormatDefect};
ghost use Rattle.f2_defects.specs.Verdicts.{Lists};
ghost use Rattle.f2_defects.specs.Collected.{most_listed, defect_in, Collects, Compares, Keeps, Appends, Runs, run_defects};

use crate::verdict::Verdict;
use std::alloc::{AllocError, Global};
use std::marker::Model;

/// A comparison that fails: its part of the rule, its two numbers, the value that stands in the image, and the one that the
/// rest of the image wants. 2^32 stands for none.
#[derive(Clone, Copy, Debug, PartialEq, Eq)]
pub struct Defect {
    pub part: u8,
    pub a: u64,
    pub b: u64,
    pub found: u64,
    pub wanted: u64,
}

// How many defects are listed.
const MOST: usize = 64;

// How many of the n values that go up by one from `first` on are not this value.
fn failing(found: u64, first: u64, n: u64) -> u64
    requires { first + n < 2 ^ 64 }
    ensures { (part a from : ℕ) → result ≡ length (run_defects part a from n found first) }
{
    if first <= found && found < first + n {
        n - 1
    } else {
        n
    }
}

/// The defects of a part of a rule, as they are found.
#[derive(Drop)]
pub struct Collector {
    part: u8,
    kept: Vec<Defect>,
    count: u64,
}

impl Model for Collector {
    ghost use Rattle.std.specs.Prelude.{map};
    ghost use Rattle.f2_defects.specs.Collected.{Collection, defect_in};

    ghost Value = { Collection };

    ghost view = { λ c. record { part = c.part; kept = map defect_in c.kept.items; count = c.count } };
}

impl Collector {
    /// No defects of this part so far.
    pub fn new(alloc: Global, part: u8) -> Collector
        ensures part { result.part ≡ part }
        ensures none { Collects result [] }
    {
        Collector {
            part,
            kept: Vec::new(alloc),
            count: 0,
        }
    }

    // Lists a defect, where there is room.
    fn list(&mut self, defect: Defect) -> Result<(), AllocError>
        ensures part { self.new.part ≡ self.old.part }
        ensures count { self.new.count ≡ self.old.count }
        ensures lists { OnOk result (Keeps self.old self.new (defect_in defect ∷ [])) }
    {
        if self.kept.len() < MOST {
            self.kept.push(defect)?;
        }
        Ok(())
    }

    /// Takes a comparison of the value that stands in the image with the wanted one.
    pub fn compare(
        &mut self,
        a: u64,
        b: u64,
        found: u64,
        wanted: u64,
        fails: bool,
    ) -> Result<(), AllocError>
        ensures part { self.new.part ≡ self.old.part }
        ensures compares { OnOk result (Compares self.old self.new a b (fails_where fails found wanted)) }
    {
        if !fails {
            return Ok(());
        }
        self.list(Defect {
            part: self.part,
            a,
            b,
            found,
            wanted,
        })?;
        self.count = self.count.saturating_add(1);
        Ok(())
    }

    /// The same, where the values have to be the same.
    pub fn same(&mut self, a: u64, b: u64, found: u64, wanted: u64) -> Result<(), AllocError>
        ensures part { self.new.part ≡ self.old.part }
        ensures compares { OnOk result (Compares self.old self.new a b (same_values found wanted)) }
    {
        self.compare(a, b, found, wanted, found != wanted)
    }

    /// The same, where the value has to be at least the wanted one.
    pub fn at_least(&mut self, a: u64, b: u64, found: u64, wanted: u64) -> Result<(), AllocError>
        ensures part { self.new.part ≡ self.old.part }
        ensures compares { OnOk result (Compares self.old self.new a b (at_least_wanted found wanted)) }
    {
        self.compare(a, b, found, wanted, found < wanted)
    }

    /// Takes the defects of another collector, after its own.
    pub fn append(&mut self, other: &Collector) -> Result<(), AllocError>
        ensures part { self.new.part ≡ self.old.part }
        ensures appends { OnOk result (Appends self.old other.now self.new) }
    {
        let room = MOST.saturating_sub(self.kept.len());
        let taken = room.min(other.kept.len());
        self.kept.extend_from_slice(&other.kept[..taken])?;
        self.count = self.count.saturating_add(other.count);
        Ok(())
    }

    // Takes the first of the comparisons of a run, until the list is full; answers the first `b` that is left.
    fn list_run(
        &mut self,
        a: u64,
        from: u64,
        to: u64,
        found: u64,
        wanted: u64,
    ) -> Result<u64, AllocError>
        requires order { from ≤ to }
        requires fits { wanted + (to - from) < 2 ^ 64 }
        ensures part { self.new.part ≡ self.old.part }
        ensures within { IfOk result (λ b. (from ≤ b) × (b ≤ to)) }
        ensures full { IfOk result (λ b. b < to → most_listed ≤ length self.new.kept) }
        ensures runs { IfOk result (λ b. Runs self.old self.new a from (b - from) found wanted) }
    {
        for b in from..to {
            if self.kept.len() >= MOST {
                return Ok(b);
            }
            self.same(a, b, found, wanted + (b - from))?;
        }
        Ok(to)
    }

    /// Takes the comparisons of one value with those that go up by one from `wanted` on, for each `b` from `from` up to below
    /// `to`. Takes no longer for many of them than for 64.
    pub fn run(
        &mut self,
        a: u64,
        from: u64,
        to: u64,
        found: u64,
        wanted: u64,
    ) -> Result<(), AllocError>
        requires order { from ≤ to }
        requires fits { wanted + (to - from) < 2 ^ 64 }
        ensures part { self.new.part ≡ self.old.part }
        ensures runs { OnOk result (Runs self.old self.new a from (to - from) found wanted) }
    {
        let reached = self.list_run(a, from, to, found, wanted)?;
        let more = failing(found, wanted + (reached - from), to - reached);
        self.count = self.count.saturating_add(more);
        Ok(())
    }

    /// The verdict that these are the defects by a rule.
    pub fn verdict(self, rule: u8) -> Verdict
        ensures { Lists rule self result }
    {
        let Collector {
            part: _,
            kept,
            count,
        } = self;
        Verdict::Defects {
            rule,
            list: kept,
            count,
        }
    }

    /// Whether there is no defect so far.
    pub fn is_empty(&self) -> bool
        ensures { (defects : List FormatDefect) → Collects self.now defects → result ≡ (length defects == 0) }
    {
        self.count == 0
    }
}
