// The addresses in slots: each has to be that of a main block that nobody else has.
ghost use Rattle.std.specs.Prelude.{◌≡◌, ◌++◌, ◌∷◌, [], true, false, List, IfOk, OnOk};
ghost use Rattle.std.specs.List.{cons_option};
ghost use Rattle.f2_bytes.specs.Bytes.{Image};
ghost use Rattle.f2_bytes.specs.Superblock.{layout as layout_of_image, IsInOrder};
ghost use Rattle.f2_files.specs.Addresses.{slot_of, outside_defect, HasAddresses};
ghost use Rattle.f2_bytes.specs.Check.{is_address as names_block};
ghost use Rattle.f2_bytes.specs.Check.{Defect as FormatDefect};
ghost use Rattle.f2_defects.specs.Collected.{Collects};
ghost use Rattle.f2_survey.specs.Known.{IsKnown};
ghost use Rattle.f2_survey.specs.OwnerTables.{LiesIn};
ghost use Rattle.f2_survey.specs.Slots.{Slot as FormatSlot};

use crate::slots::Slot;
use f2_bytes::Layout;
use f2_defects::Collector;
use f2_survey::{Nodes, Owners};
use std::alloc::{AllocError, Global};

// The address of a block that is reserved, and has no place yet.
const RESERVED: u32 = 0xFFFF_FFFF;

/// Whether a slot with this number has the address of a block: it is no hole, and not reserved.
pub fn is_address(slot: u32) -> bool
    ensures { result ≡ names_block slot }
{
    slot != 0 && slot != RESERVED
}

/// What is kept of the addresses in slots: who has which block, and the defects of slots outside the main area.
#[derive(Drop)]
pub struct Addresses {
    pub owners: Owners,
    pub outside: Collector,
}

impl Addresses {
    /// Before the first slot.
    pub fn new(alloc: Global, layout: &Layout, nodes: &Nodes) -> Result<Addresses, AllocError>
        ensures { IfOk result (λ a. (image : Image) → IsKnown image nodes.now → IsInOrder layout.now → layout_of_image image ≡ layout.now → HasAddresses image [] a) }
    {
        Ok(Addresses {
            owners: Owners::of_nodes(alloc, layout, nodes)?,
            outside: Collector::new(alloc, 1),
        })
    }

    /// Takes the next slot. Where nothing is spoiled: true where it has the address of a block, which is its own then.
    pub fn take(&mut self, slot: &Slot) -> Result<bool, AllocError>
        ensures takes { OnOk result ((image : Image) (slots : List FormatSlot) → HasAddresses image slots self.old
            → HasAddresses image (slots ++ slot_of slot.now ∷ []) self.new) }
        ensures first { IfOk result (λ first. self.new.owners.spoiled ≡ false → first ≡ names_block slot.now.address) }
        ensures stays { self.new.owners.spoiled ≡ false → self.old.owners.spoiled ≡ false }
    {
        if !is_address(slot.address) {
            return Ok(false);
        }
        self.look(slot)?;
        self.owners.claim(slot.address, slot.nid, slot.place)
    }

    // Compares the address of a block in a slot with where the main area begins.
    fn look(&mut self, slot: &Slot) -> Result<(), AllocError>
        ensures owners { self.new.owners ≡ self.old.owners }
        ensures part { self.new.outside.part ≡ self.old.outside.part }
        ensures outside { OnOk result ((image : Image) (defects : List FormatDefect) → LiesIn (layout_of_image image) self.old.owners → self.old.outside.part ≡ 1
            → names_block slot.now.address ≡ true → Collects self.old.outside defects
            → Collects self.new.outside (defects ++ cons_option (outside_defect image (slot_of slot.now)) [])) }
    {
        if self.owners.is_main(slot.address) {
            return Ok(());
        }
        self.outside.compare(
            u64::from(slot.ino),
            slot.k,
            u64::from(slot.address),
            u64::from(self.owners.main()),
            true,
        )
    }
}
