// The nodes of a chain that were met so far.
use crate::{Chain, RollRefusal};
use std::alloc::Global;
use std::collections::BTreeSet;
use std::marker::Model;

// The addresses of the nodes so far, seen as their list. The set has the same ones, so that no test searches the list.
#[derive(Drop)]
pub struct Walked {
    nodes: Vec<u32>,
    met: BTreeSet<u32>,
}

impl Model for Walked {
    ghost use Rattle.std.specs.Prelude.{ℕ, List};
    ghost use Rattle.f2_roll.specs.Chain.{HasEach};

    ghost Value = { List ℕ };

    ghost view = { λ w. w.nodes.items };

    ghost invariant = { λ w. HasEach w.nodes.items w.met };
}

impl Walked {
    ghost use Rattle.std.specs.Prelude.{◌≡◌, ◌≢◌, ◌++◌, [], ◌∷◌, Err, IfOk};
    ghost use Rattle.f2_roll.specs.Chain.{is_among};

    // No node yet.
    pub fn new(alloc: Global) -> Walked
        ensures { result ≡ [] }
    {
        Walked {
            nodes: Vec::new(alloc),
            met: BTreeSet::new(alloc),
        }
    }

    // Whether there was a node at this address.
    pub fn has(&self, at: u32) -> bool
        ensures { result ≡ is_among self.now at }
    {
        self.met.contains(&at)
    }

    // The nodes with one more.
    pub fn with(self, at: u32) -> Result<Walked, RollRefusal>
        ensures done { IfOk result (λ walked. walked ≡ self ++ at ∷ []) }
        ensures only { result ≢ Err RollRefusal.DiskFault }
    {
        let Walked { mut nodes, mut met } = self;
        met.insert(at)?;
        nodes.push(at)?;
        Ok(Walked { nodes, met })
    }

    // The chain of these nodes, which ends at this address.
    pub fn chain(self, stop: Option<u32>) -> Chain
        ensures { result ≡ record { nodes = self; stop = stop } }
    {
        let Walked { nodes, met } = self;
        drop(met);
        Chain::of(nodes, stop)
    }
}
