// The files of an image, as they are visited one after the other.
ghost use Rattle.std.specs.Prelude.{◌≡◌, ℕ, ◌+◌, ◌^◌, ◌<◌, ◌≤◌, ◌++◌, ◌∷◌, [], suc, length, filter_map, List, Some, OnOk, IfOk, IsErrOf};
ghost use Rattle.f2_bytes.specs.Bytes.{Image, numbers_below};
ghost use Rattle.f2_files.specs.Addresses.{slot_of};
ghost use Rattle.f2_bytes.specs.Check.{inode_of};
ghost use Rattle.f2_files.specs.Files.{IsAfter, IsInside, HasSlots};
ghost use Rattle.f2_survey.specs.Known.{IsKnown};
ghost use Rattle.f2_survey.specs.Slots.{file_rows, slot_in_row, Slot as FormatSlot, Row as FormatRow};
ghost use Rattle.f2_disk.specs.Disk.{Reads, Goes, Rose};
ghost use Rattle.f2_view.specs.Mounted.{layout_in, IsMountOf};

use crate::address_rows::Row;
use crate::kept_of_files::Kept;
use crate::repeated_claims::{Claims, Repeats};
use crate::slots::Slot;
use f2_defects::CheckRefusal;
use f2_disk::{Block, Disk};
use f2_survey::Nodes;
use f2_view::Mount;
use std::alloc::AllocError;

/// What is kept of the files that were visited, in ascending order of their numbers.
#[derive(Drop)]
pub enum Files {
    /// On the first tour: what the rules on files ask for.
    Kept(Kept),
    /// Where a block was claimed twice, on a second tour: all addresses.
    Claims(Claims),
    /// And on a third one: which addresses stand more than once.
    Repeats(Repeats),
}

impl Files {
    /// Begins the file of this number, which has this inode.
    pub fn begin(&mut self, nodes: &Nodes, ino: u32, inode: &Block) -> Result<(), AllocError>
        ensures begins { OnOk result ((image : Image) → IsKnown image nodes.now → inode_of image ino ≡ Some inode.now
            → IsAfter image ino self.old → IsInside image ino [] self.new) }
    {
        match self {
            Files::Kept(kept) => kept.begin(nodes, ino, inode),
            Files::Claims(_) => Ok(()),
            Files::Repeats(_) => Ok(()),
        }
    }

    // Takes the next slot of the file.
    fn take<D: Disk>(
        &mut self,
        m: &Mount,
        d: &mut D,
        nodes: &Nodes,
        slot: &Slot,
    ) -> Result<(), CheckRefusal>
        requires lies { (layout_in m.now).blocks ≤ (D.state d.old).size }
        requires number { slot.now.k < 2 ^ 32 }
        ensures takes { OnOk result ((image : Image) (slots : List FormatSlot) → (D.state d.old).told ≡ Some image → IsMountOf image m.now → IsKnown image nodes.now
            → HasSlots image slot.now.ino slots self.old → HasSlots image slot.now.ino (slots ++ slot_of slot.now ∷ []) self.new) }
        ensures reads { Reads (D.state d.old) (D.state d.new) }
        ensures goes { Goes (D.state d.old) (D.state d.new) }
        ensures fault { IsErrOf result CheckRefusal.DiskFault → Rose (D.state d.old).faults (D.state d.new).faults }
    {
        match self {
            Files::Kept(kept) => kept.take(m, d, nodes, slot),
            Files::Claims(claims) => Ok(claims.take(slot)?),
            Files::Repeats(repeats) => Ok(repeats.take(slot)?),
        }
    }

    // Takes word `j` of a row of the file, which is a slot where it is not 0.
    fn take_word<D: Disk>(
        &mut self,
        m: &Mount,
        d: &mut D,
        nodes: &Nodes,
        row: &Row,
        j: usize,
    ) -> Result<(), CheckRefusal>
        requires lies { (layout_in m.now).blocks ≤ (D.state d.old).size }
        requires word { j < length row.now.words }
        requires few { j < 1024 }
        ensures takes { OnOk result ((image : Image) (slots : List FormatSlot) → (D.state d.old).told ≡ Some image → IsMountOf image m.now → IsKnown image nodes.now
            → HasSlots image row.now.ino (slots ++ filter_map (slot_in_row row.now) (numbers_below j)) self.old
            → HasSlots image row.now.ino (slots ++ filter_map (slot_in_row row.now) (numbers_below (j + 1))) self.new) }
        ensures reads { Reads (D.state d.old) (D.state d.new) }
        ensures goes { Goes (D.state d.old) (D.state d.new) }
        ensures fault { IsErrOf result CheckRefusal.DiskFault → Rose (D.state d.old).faults (D.state d.new).faults }
    {
        let address = row.word(j);
        if address == 0 {
            return Ok(());
        }
        let slot = Slot {
            ino: row.ino(),
            k: row.first() + j as u64,
            address,
            nid: row.nid(),
            place: j as u16,
        };
        self.take(m, d, nodes, &slot)
    }

    /// Takes the next row of the file.
    pub fn row<D: Disk>(
        &mut self,
        m: &Mount,
        d: &mut D,
        nodes: &Nodes,
        row: &Row,
    ) -> Result<(), CheckRefusal>
        requires lies { (layout_in m.now).blocks ≤ (D.state d.old).size }
        ensures takes { OnOk result ((image : Image) (ino : ℕ) (rows : List FormatRow) → (D.state d.old).told ≡ Some image → IsMountOf image m.now → IsKnown image nodes.now
            → row.now.ino ≡ ino → IsInside image ino rows self.old → IsInside image ino (rows ++ row.now ∷ []) self.new) }
        ensures reads { Reads (D.state d.old) (D.state d.new) }
        ensures goes { Goes (D.state d.old) (D.state d.new) }
        ensures fault { IsErrOf result CheckRefusal.DiskFault → Rose (D.state d.old).faults (D.state d.new).faults }
    {
        for j in 0..row.used() {
            self.take_word(m, d, nodes, row, j)?;
        }
        Ok(())
    }

    /// Ends the file of this number.
    pub fn end(&mut self, nodes: &Nodes, ino: u32) -> Result<(), AllocError>
        ensures ends { OnOk result ((image : Image) (inode : List ℕ) → IsKnown image nodes.now → inode_of image ino ≡ Some inode
            → IsInside image ino (file_rows image ino) self.old → IsAfter image (suc ino) self.new) }
    {
        match self {
            Files::Kept(kept) => kept.end(nodes, ino),
            Files::Claims(_) => Ok(()),
            Files::Repeats(_) => Ok(()),
        }
    }
}
