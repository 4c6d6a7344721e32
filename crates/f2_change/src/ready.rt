// What is ready to be committed.
use f2_bytes::Layout;
use f2_disk::Block;
use f2_pack::{Chosen, NewPack};
use f2_sum::SitEntry;
use f2_tables::{Nat, Sit};
use std::marker::Model;

/// A checkpoint that is ready to be committed, with all that a mount keeps of it afterwards.
#[derive(Drop)]
pub struct Ready {
    pub(crate) layout: Layout,
    pub(crate) pack: NewPack,
    pub(crate) blocks: Vec<(u32, Block)>,
    pub(crate) chosen: Chosen,
    pub(crate) nat: Nat,
    pub(crate) sit: Sit,
    pub(crate) changed: Vec<(u32, SitEntry)>,
}

impl Model for Ready {
    ghost use Rattle.f2_change.specs.Writes.{Prepared, IsPrepared};
    ghost use Rattle.f2_change.specs.Kept.{Keeps};

    ghost Value = { Prepared };

    ghost view = { λ r. record { layout = r.layout; pack = r.pack; blocks = r.blocks.items } };

    ghost invariant = { λ r. IsPrepared (record { layout = r.layout; pack = r.pack; blocks = r.blocks.items }) × Keeps r.layout r.pack r.chosen r.nat r.sit };
}
