// What is read of a mounted image.
ghost use Rattle.std.specs.Prelude.{◌≡◌, ◌≤◌, ◌<◌, length, map, All, Some, IfOk, IfSome, IsErrOf};
ghost use Rattle.f2_bytes.specs.Bytes.{Image, numbers_below};
ghost use Rattle.f2_bytes.specs.Journal.{FitsSitEntry};
ghost use Rattle.f2_bytes.specs.NodeAddressTable.{nid_limit, image_nat_entry, next_live};
ghost use Rattle.f2_bytes.specs.SegmentTable.{sit};
ghost use Rattle.f2_bytes.specs.Superblock.{layout};
ghost use Rattle.f2_disk.specs.Disk.{Reads, Goes, Rose};
ghost use Rattle.f2_sum.specs.Records.{nat_entry, sit_entry};
ghost use Rattle.f2_view.specs.Mounted.{layout_in, IsMountOf};
ghost use Rattle.f2_view.specs.Readings.{view_refusal};
ghost use Rattle.f2_view.specs.declared.readings.ViewRefusal.TheVariants.{DiskFault as Faulted, NoMemory as MemoryShort};

use crate::Mount;
use f2_disk::{Disk, DiskFault};
use f2_sum::{NatEntry, SitEntry};
use f2_tables::TableRefusal;
use std::alloc::AllocError;
use thiserror::Error;

/// Why a reading of a mounted image failed.
#[derive(Clone, Copy, Debug, PartialEq, Eq, Error)]
pub enum ViewRefusal {
    /// A call of the disk failed.
    #[error("a call of the disk failed")]
    DiskFault,
    /// No memory is left.
    #[error("no memory is left")]
    NoMemory,
}

impl From<TableRefusal> for ViewRefusal {
    ghost from_gives = { λ refusal e. e ≡ view_refusal refusal };

    fn from(refusal: TableRefusal) -> Self {
        match refusal {
            TableRefusal::DiskFault => ViewRefusal::DiskFault,
            TableRefusal::NoMemory => ViewRefusal::NoMemory,
        }
    }
}

impl From<DiskFault> for ViewRefusal {
    ghost from_gives = { λ _ e. e ≡ Faulted };

    fn from(_: DiskFault) -> Self {
        ViewRefusal::DiskFault
    }
}

impl From<AllocError> for ViewRefusal {
    ghost from_gives = { λ _ e. e ≡ MemoryShort };

    fn from(_: AllocError) -> Self {
        ViewRefusal::NoMemory
    }
}

impl Mount {
    /// The entry of the node address table for a number below `nid_limit`, whether it is that of a node or not.
    pub fn nat_entry<D: Disk>(&mut self, d: &mut D, nid: u32) -> Result<NatEntry, ViewRefusal>
        requires nid { nid < nid_limit (layout_in self.old) }
        requires lies { (layout_in self.old).blocks ≤ (D.state d.old).size }
        ensures entry { IfOk result (λ e. (image : Image) → (D.state d.old).told ≡ Some image → IsMountOf image self.old
            → nat_entry e ≡ image_nat_entry image nid) }
        ensures mount { self.new ≡ self.old }
        ensures reads { Reads (D.state d.old) (D.state d.new) }
        ensures goes { Goes (D.state d.old) (D.state d.new) }
        ensures fault { IsErrOf result ViewRefusal.DiskFault → Rose (D.state d.old).faults (D.state d.new).faults }
    {
        Ok(self.nat.get(d, nid)?)
    }

    /// The entries of all numbers below `nid_limit` in ascending order, whether they are those of nodes or not. Each block
    /// of the table is read once.
    pub fn nat_entries<D: Disk>(&mut self, d: &mut D) -> Result<Vec<NatEntry>, ViewRefusal>
        requires lies { (layout_in self.old).blocks ≤ (D.state d.old).size }
        ensures entries { IfOk result (λ entries. (image : Image) → (D.state d.old).told ≡ Some image → IsMountOf image self.old
            → map nat_entry entries.items ≡ map (image_nat_entry image) (numbers_below (nid_limit (layout_in self.old)))) }
        ensures length { IfOk result (λ entries. length entries.items ≡ nid_limit (layout_in self.old)) }
        ensures mount { self.new ≡ self.old }
        ensures reads { Reads (D.state d.old) (D.state d.new) }
        ensures goes { Goes (D.state d.old) (D.state d.new) }
        ensures fault { IsErrOf result ViewRefusal.DiskFault → Rose (D.state d.old).faults (D.state d.new).faults }
    {
        Ok(self.nat.entries(self.alloc, d)?)
    }

    /// The entry of a main segment, counted from 0.
    pub fn sit_entry<D: Disk>(&mut self, d: &mut D, segno: u32) -> Result<SitEntry, ViewRefusal>
        requires segment { segno < (layout_in self.old).segments }
        requires lies { (layout_in self.old).blocks ≤ (D.state d.old).size }
        ensures entry { IfOk result (λ e. (image : Image) → (D.state d.old).told ≡ Some image → IsMountOf image self.old
            → sit_entry e ≡ sit image segno) }
        ensures mount { self.new ≡ self.old }
        ensures reads { Reads (D.state d.old) (D.state d.new) }
        ensures goes { Goes (D.state d.old) (D.state d.new) }
        ensures fault { IsErrOf result ViewRefusal.DiskFault → Rose (D.state d.old).faults (D.state d.new).faults }
    {
        Ok(self.sit.get(d, segno)?)
    }

    /// The entries of all main segments in order. Each block of the table that has one of them is read once.
    pub fn sit_entries<D: Disk>(&mut self, d: &mut D) -> Result<Vec<SitEntry>, ViewRefusal>
        requires lies { (layout_in self.old).blocks ≤ (D.state d.old).size }
        ensures entries { IfOk result (λ entries. (image : Image) → (D.state d.old).told ≡ Some image → IsMountOf image self.old
            → map sit_entry entries.items ≡ map (sit image) (numbers_below (layout_in self.old).segments)) }
        ensures length { IfOk result (λ entries. length entries.items ≡ (layout_in self.old).segments) }
        ensures fits { IfOk result (λ entries. All (λ e. FitsSitEntry (sit_entry e)) entries.items) }
        ensures mount { self.new ≡ self.old }
        ensures reads { Reads (D.state d.old) (D.state d.new) }
        ensures goes { Goes (D.state d.old) (D.state d.new) }
        ensures fault { IsErrOf result ViewRefusal.DiskFault → Rose (D.state d.old).faults (D.state d.new).faults }
    {
        Ok(self.sit.entries(self.alloc, d)?)
    }

    /// The least number of a node from `from` on, if there is one.
    pub fn live<D: Disk>(&mut self, d: &mut D, from: u32) -> Result<Option<u32>, ViewRefusal>
        requires lies { (layout_in self.old).blocks ≤ (D.state d.old).size }
        ensures next { IfOk result (λ next. (image : Image) → (D.state d.old).told ≡ Some image → IsMountOf image self.old
            → next ≡ next_live (layout image) (image_nat_entry image) from) }
        ensures within { IfOk result (λ next. IfSome next (λ nid. (from ≤ nid) × (nid < nid_limit (layout_in self.old)))) }
        ensures mount { self.new ≡ self.old }
        ensures reads { Reads (D.state d.old) (D.state d.new) }
        ensures goes { Goes (D.state d.old) (D.state d.new) }
        ensures fault { IsErrOf result ViewRefusal.DiskFault → Rose (D.state d.old).faults (D.state d.new).faults }
    {
        Ok(self.nat.live(d, from)?)
    }
}
