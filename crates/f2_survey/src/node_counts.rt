// How many nodes there are.
ghost use Rattle.std.specs.Prelude.{◌≡◌, ℕ, ◌+◌, ◌-◌, ◌^◌, ◌<◌, ◌==◌, if◌then◌else◌, get_or, length, option_map, IfOk};
ghost use Rattle.f2_bytes.specs.Bytes.{Image, count_below};
ghost use Rattle.f2_bytes.specs.NodeAddressTable.{nat};
ghost use Rattle.f2_bytes.specs.Check.{nids};
ghost use Rattle.f2_survey.specs.Known.{IsKnown, belongs_to};
ghost use Rattle.f2_survey.specs.Tallies.{AtMost, Counts, IsTally};
ghost use Rattle.f2_sum.specs.Records.{nat_entry};

use crate::nodes::Nodes;
use f2_sum::NatEntry;
use std::alloc::{AllocError, Global};

/// How many nodes there are, how many of them are inodes, and how many belong to each file.
#[derive(Drop)]
pub struct Tally {
    pub nodes: u32,
    pub inodes: u32,
    pub of_files: Vec<u32>,
}

// Adds one to the count of a number that has one.
fn count(counts: &mut Vec<u32>, at: usize)
    requires { (k : ℕ) → k < length counts.old.items → get_or counts.old.items k 0 < 2 ^ 32 - 1 }
    ensures length { length counts.new.items ≡ length counts.old.items }
    ensures counts { (k : ℕ) → k < length counts.old.items → get_or counts.new.items k 0 ≡ get_or counts.old.items k 0 + (if at == k then 1 else 0) }
{
    if at < counts.len() {
        counts[at] += 1;
    }
}

impl Tally {
    // Counts a number, which has this entry if it is that of a node.
    fn take(&mut self, nid: u32, entry: Option<NatEntry>)
        requires few { nid < 2 ^ 32 - 1 }
        requires most { AtMost nid self.old }
        ensures most { AtMost (nid + 1) self.new }
        ensures length { length self.new.of_files.items ≡ length self.old.of_files.items }
        ensures counts { (image : Image) → option_map nat_entry entry ≡ nat image nid → Counts image nid self.old → Counts image (nid + 1) self.new }
    {
        let entry = match entry {
            Some(entry) => entry,
            None => return,
        };
        self.nodes += 1;
        self.inodes += u32::from(entry.ino == nid);
        count(&mut self.of_files, entry.ino as usize);
    }

    /// Counts the nodes.
    pub fn of(alloc: Global, nodes: &Nodes) -> Result<Tally, AllocError>
        ensures { IfOk result (λ t. (image : Image) → IsKnown image nodes.now → IsTally image t) }
    {
        let limit = nodes.limit();
        let mut tally = Tally {
            nodes: 0,
            inodes: 0,
            of_files: vec![in alloc; 0; limit as usize]?,
        };
        for nid in 0..limit {
            tally.take(nid, nodes.entry(nid));
        }
        Ok(tally)
    }

    /// How many nodes belong to the file of this number, which is below the limit.
    pub fn of_file(&self, ino: u32) -> u32
        ensures { (image : Image) → IsTally image self.now → ino < nids image → result ≡ count_below (nids image) (λ nid. belongs_to image nid ino) }
    {
        let at = ino as usize;
        if at < self.of_files.len() {
            self.of_files[at]
        } else {
            0
        }
    }
}
