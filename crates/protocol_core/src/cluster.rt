// On how many nodes a run begins, and how many workers may run at once on each.

ghost use Rattle.std.specs.Prelude.{◌≡◌, IfSome, IfNone};
ghost use Rattle.protocol_core.specs.Clusters.{IsCluster, Size};

use std::marker::Model;

/// How many nodes a cluster may begin with.
const MOST_NODES: u8 = 64;

/// How many slots a node may have.
const MOST_SLOTS: u8 = 64;

/// The nodes that a run begins with, and the slots of each: both from 1 to 64.
#[derive(Clone, Copy, PartialEq, Eq, Debug)]
pub struct Cluster {
    nodes: u8,
    slots: u8,
}

impl Model for Cluster {
    ghost use Rattle.std.specs.Prelude.{ℕ};
    ghost use Rattle.protocol_core.specs.Clusters.{IsCluster, Size};

    ghost Value = { Size };

    ghost view = { λ c. record { nodes = c.nodes; slots = c.slots } };

    ghost inverse = { λ c. record { nodes = c.nodes; slots = c.slots } };

    ghost invariant = { λ c. IsCluster (record { nodes = c.nodes; slots = c.slots }) };
}

impl Cluster {
    /// So many nodes with so many slots each; None for numbers that aren't from 1 to 64.
    pub fn new(nodes: u8, slots: u8) -> Option<Cluster>
        ensures some { IfSome result (λ c. (c.nodes ≡ nodes) × (c.slots ≡ slots)) }
        ensures none { IfNone result (IsCluster (record { nodes = nodes; slots = slots }) → ⊥) }
    {
        if nodes == 0 || nodes > MOST_NODES || slots == 0 || slots > MOST_SLOTS {
            return None;
        }
        Some(Cluster { nodes, slots })
    }

    /// How many nodes there are at first.
    pub fn nodes(self) -> u8
        ensures nodes { result ≡ self.nodes }
        ensures cluster { IsCluster self }
    {
        self.nodes
    }

    /// How many workers may run at once on each node.
    pub fn slots(self) -> u8
        ensures { result ≡ self.slots }
    {
        self.slots
    }
}
