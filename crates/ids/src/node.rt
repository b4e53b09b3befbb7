// The ids of nodes, which are numbered from 1, and their texts, as `n1`.

use std::fmt;
use std::marker::Model;

/// A node's number, counted from 1. Its text is `n1`.
#[derive(Clone, Copy, PartialEq, Eq, PartialOrd, Ord, Hash, Debug)]
pub struct NodeId(pub u32);

impl Model for NodeId {
    ghost use Rattle.std.specs.Prelude.{ℕ};

    ghost Value = { ℕ };

    ghost view = { λ n. n.0 };

    ghost inverse = { λ n. record { 0 = n } };
}

impl fmt::Display for NodeId {
    ghost use Rattle.std.specs.Prelude.{Some};
    ghost use Rattle.ids.specs.Texts.{node_text};

    ghost output = { λ n. Some (node_text n) };

    fn fmt<W: fmt::Write>(&self, f: &mut fmt::Formatter<W>) -> fmt::Result {
        let number = self.0;
        write!(f, "n{number}")
    }
}

impl NodeId {
    ghost use Rattle.std.specs.Prelude.{◌≡◌, ◌==◌};

    /// Whether the numbers are the same.
    pub fn is(self, other: NodeId) -> bool
        ensures { result ≡ (self == other) }
    {
        self.0 == other.0
    }
}
