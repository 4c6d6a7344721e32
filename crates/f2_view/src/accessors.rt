// What a mount keeps.
use f2_bytes::Layout;
use f2_pack::{Chosen, Log};
use f2_sum::SitEntry;
use f2_super::Found;
use f2_tables::{Nat, Sit};
use std::alloc::Global;
use std::marker::Model;

/// An image that is mounted: what is kept of its superblock and its checkpoint pack, and its two tables.
#[derive(Drop)]
pub struct Mount {
    pub(crate) alloc: Global,
    found: Found,
    chosen: Chosen,
    pub(crate) nat: Nat,
    pub(crate) sit: Sit,
}

impl Model for Mount {
    ghost use Rattle.f2_view.specs.Mounted.{Mounted, IsWhole};

    ghost Value = { Mounted };

    ghost view = { λ m. record { found = m.found; chosen = m.chosen } };

    ghost invariant = { λ m. IsWhole (record { found = m.found; chosen = m.chosen }) m.nat m.sit };
}

impl Mount {
    ghost use Rattle.std.specs.Prelude.{◌≡◌, ◌<◌, true};
    ghost use Rattle.f2_bytes.specs.Bytes.{Image};
    ghost use Rattle.f2_bytes.specs.NodeAddressTable.{nid_limit};
    ghost use Rattle.f2_view.specs.Mounted.{layout_in, IsKept, IsWhole, IsMountOf, HasCopies};
    ghost use Rattle.f2_bytes.specs.Checkpoint.{log, checkpoint_ver, nat_bits, sit_bits, pack, pack_number, has_checkpoint};
    ghost use Rattle.f2_pack.specs.Choice.{IsChosen};
    ghost use Rattle.f2_pack.specs.Held.{chosen_of};
    ghost use Rattle.f2_pack.specs.Logs.{log_of};
    ghost use Rattle.f2_tables.specs.Tables.{OpensNat, OpensSit};

    // The mount of an image with this superblock and this checkpoint pack, and the tables that were opened with them.
    pub(crate) fn of(alloc: Global, found: Found, chosen: Chosen, nat: Nat, sit: Sit) -> Mount
        requires { IsWhole (record { found = found; chosen = chosen }) nat sit }
        ensures { result ≡ record { found = found; chosen = chosen } }
    {
        Mount {
            alloc,
            found,
            chosen,
            nat,
            sit,
        }
    }

    /// Where the areas of the image lie, in blocks.
    pub fn layout(&self) -> Layout
        ensures value { result ≡ layout_in self.now }
        ensures kept { IsKept self.now }
    {
        self.found.sup.layout()
    }

    /// The superblock copy that counts.
    pub fn found(&self) -> &Found
        ensures { result.now ≡ self.now.found }
    {
        &self.found
    }

    /// What is kept of the checkpoint pack that counts.
    pub fn chosen(&self) -> &Chosen
        ensures { result.now ≡ self.now.chosen }
    {
        &self.chosen
    }

    /// Log `t`: 0 to 2 are hot, warm and cold data, 3 to 5 hot, warm and cold nodes.
    pub fn log(&self, t: usize) -> Log
        requires { t < 6 }
        ensures { log_of result ≡ log self.now.chosen.head t }
    {
        self.chosen.log(t)
    }

    /// The number of nids: each is below it.
    pub fn nid_limit(&self) -> u32
        ensures { result ≡ nid_limit (layout_in self.now) }
    {
        self.nat.limit()
    }

    /// The version of the checkpoint. It is below 2^62 in an image that was just mounted.
    pub fn version(&self) -> u64
        ensures { result ≡ checkpoint_ver self.now.chosen.head }
    {
        self.chosen.head().field(0)
    }

    /// The mount once a checkpoint was written: of each image that has the superblock copies of before, and in which the
    /// pack counts of which `c` is kept. The tables were opened with it. `changed` has the new entry of each segment
    /// whose entry differs from before; as long as a mount keeps nothing of single segments they are not looked at.
    pub fn renew(self, c: Chosen, n: Nat, s: Sit, changed: &[(u32, SitEntry)]) -> Mount
        requires chosen { IsChosen (layout_in self) c }
        requires nat { OpensNat (layout_in self) (nat_bits c.head) c.nat_journal n }
        requires sit { OpensSit (layout_in self) (sit_bits c.head) c.sit_journal s }
        ensures value { result ≡ record { found = self.found; chosen = c } }
        ensures of_image { (old image : Image) → IsMountOf old self → HasCopies image old → has_checkpoint image ≡ true
            → c ≡ chosen_of (pack image) (pack_number image) → IsMountOf image result }
    {
        let _ = changed;
        Mount::of(self.alloc, self.found, c, n, s)
    }
}
