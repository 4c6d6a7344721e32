// How often each address stands in slots and at nodes, where some block was claimed twice.
ghost use Rattle.std.specs.Prelude.{◌≡◌, ◌+◌, ◌++◌, ◌∷◌, [], ◌==◌, List, count_by, option_map, IfOk, OnOk};
ghost use Rattle.std.specs.List.{cons_option};
ghost use Rattle.std.specs.List.Sorted.{IsNonDecreasing};
ghost use Rattle.f2_bytes.specs.Bytes.{Image};
ghost use Rattle.f2_survey.specs.Known.{IsKnown};
ghost use Rattle.f2_survey.specs.Slots.{all_slots, Slot as FormatSlot};

use crate::rule_4_addresses::is_address;
use crate::slots::Slot;
use f2_defects::Collector;
use f2_sum::NatEntry;
use f2_survey::Nodes;
use std::alloc::{AllocError, Global};

/// The addresses of all nodes, and those of blocks in slots.
#[derive(Drop)]
pub struct Claims {
    pub addresses: Vec<u32>,
}

impl Claims {
    ghost use Rattle.f2_files.specs.Addresses.{slot_of};
    ghost use Rattle.f2_files.specs.Repeats.{HasClaims};

    /// Those of nodes.
    pub fn of_nodes(alloc: Global, nodes: &Nodes) -> Result<Claims, AllocError>
        ensures { IfOk result (λ c. (image : Image) → IsKnown image nodes.now → HasClaims image [] c) }
    {
        let mut claims = Claims {
            addresses: Vec::new(alloc),
        };
        for nid in 0..nodes.limit() {
            claims.take_node(nodes.entry(nid))?;
        }
        Ok(claims)
    }

    // Takes the entry of the next number of a node, if there is one.
    fn take_node(&mut self, entry: Option<NatEntry>) -> Result<(), AllocError>
        ensures { OnOk result (self.new.addresses.items ≡ self.old.addresses.items ++ cons_option (option_map (λ e. e.addr) entry) []) }
    {
        if let Some(entry) = entry {
            self.addresses.push(entry.addr)?;
        }
        Ok(())
    }

    /// Takes the next slot.
    pub fn take(&mut self, slot: &Slot) -> Result<(), AllocError>
        ensures { OnOk result ((image : Image) (slots : List FormatSlot) → HasClaims image slots self.old → HasClaims image (slots ++ slot_of slot.now ∷ []) self.new) }
    {
        if is_address(slot.address) {
            self.addresses.push(slot.address)?;
        }
        Ok(())
    }
}

// How many of these numbers, which never fall, are this one.
fn count(numbers: &[u32], n: u32) -> u64
    requires { IsNonDecreasing numbers.now }
    ensures { result ≡ count_by (λ x. x == n) numbers.now }
{
    let below = numbers.partition_point(|x| *x < n);
    let upto = numbers.partition_point(|x| *x <= n);
    (upto - below) as u64
}

/// The defects of slots that have an address which another slot or a node has too.
#[derive(Drop)]
pub struct Repeats {
    pub addresses: Vec<u32>,
    pub defects: Collector,
    ghost rises: { IsNonDecreasing addresses.items },
}

impl Repeats {
    ghost use Rattle.f2_files.specs.Addresses.{slot_of};
    ghost use Rattle.f2_files.specs.Repeats.{HasClaims, HasRepeats};

    /// Before the first slot, with the addresses of all nodes and slots.
    pub fn of_claims(alloc: Global, claims: Claims) -> Repeats
        ensures { (image : Image) → HasClaims image (all_slots image) claims → HasRepeats image [] result }
    {
        let Claims { mut addresses } = claims;
        addresses.sort_unstable();
        Repeats {
            addresses,
            defects: Collector::new(alloc, 2),
        }
    }

    /// Takes the next slot.
    pub fn take(&mut self, slot: &Slot) -> Result<(), AllocError>
        ensures { OnOk result ((image : Image) (slots : List FormatSlot) → HasRepeats image slots self.old → HasRepeats image (slots ++ slot_of slot.now ∷ []) self.new) }
    {
        if !is_address(slot.address) {
            return Ok(());
        }
        let found = count(&self.addresses, slot.address);
        self.defects.same(u64::from(slot.ino), slot.k, found, 1)
    }
}
