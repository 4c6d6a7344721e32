// The nodes behind a checkpoint.
use std::marker::Model;

/// The nodes that were written after a checkpoint.
#[derive(Drop)]
pub struct Chain {
    nodes: Vec<u32>,
    stop: Option<u32>,
}

impl Model for Chain {
    ghost use Rattle.f2_roll.specs.Chain.{Followed};

    ghost Value = { Followed };

    ghost view = { λ c. record { nodes = c.nodes.items; stop = c.stop } };
}

impl Chain {
    ghost use Rattle.std.specs.Prelude.{◌≡◌};

    // The chain of these nodes, which ends at this address.
    pub(crate) fn of(nodes: Vec<u32>, stop: Option<u32>) -> Chain
        ensures { result ≡ record { nodes = nodes.items; stop = stop } }
    {
        Chain { nodes, stop }
    }

    /// The addresses of the nodes, in the order in which they were written.
    pub fn nodes(&self) -> &[u32]
        ensures { result.now ≡ self.now.nodes }
    {
        &self.nodes
    }

    /// The address at which the chain ends, where that lies in the main area.
    pub fn stop(&self) -> Option<u32>
        ensures { result ≡ self.now.stop }
    {
        self.stop
    }
}
