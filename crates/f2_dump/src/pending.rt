// A name whose line is still to be put.
use f2_dent::Name;
use std::marker::Model;

/// A name of a tree, and the number that it names.
#[derive(Drop)]
pub(crate) struct Pending {
    /// How many directories stand above it but the root.
    pub(crate) level: u32,
    /// How many levels of names may follow below it.
    pub(crate) left: u32,
    pub(crate) ino: u32,
    pub(crate) name: Name,
}

impl Model for Pending {
    ghost use Rattle.std.specs.Prelude.{◌+◌, ◌<◌, ◌^◌};
    ghost use Rattle.f2_dump.specs.Stacks.{Pending as PendingName};

    ghost Value = { PendingName };

    ghost view = { λ p. record { level = p.level; left = p.left; ino = p.ino; name = p.name } };

    ghost invariant = { λ p. p.level + p.left + 1 < 2 ^ 32 };
}
