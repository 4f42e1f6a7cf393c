//! How many nodes a world has.

ghost use Rattle.std.specs.Prelude.{◌≡◌, IfSome, IfNone};
ghost use Rattle.command_line.specs.Nodes.{IsNodeCount};

use std::marker::Model;

/// The greatest number of nodes of a world.
pub const MOST_NODES: u32 = 16;

/// A number of nodes from 1 to 16.
#[derive(Clone, Copy, Debug, PartialEq, Eq)]
pub struct NodesArgument {
    count: u8,
}

impl Model for NodesArgument {
    ghost use Rattle.std.specs.Prelude.{ℕ};
    ghost use Rattle.command_line.specs.Nodes.{IsNodeCount};

    ghost Value = { ℕ };

    ghost view = { λ n. n.count };

    ghost invariant = { λ n. IsNodeCount n.count };

    ghost inverse = { λ n. record { count = n } };
}

impl NodesArgument {
    /// A number of nodes; none at 0 and above 16.
    pub fn new(count: u32) -> Option<NodesArgument>
        ensures some { IfSome result (λ n. n ≡ count) }
        ensures within { IfSome result IsNodeCount }
        ensures none { IfNone result (¬ IsNodeCount count) }
    {
        if 1 <= count && count <= MOST_NODES {
            Some(NodesArgument { count: count as u8 })
        } else {
            None
        }
    }

    /// Two nodes.
    pub fn with_defaults() -> NodesArgument
        ensures { result ≡ 2 }
    {
        NodesArgument { count: 2 }
    }

    /// How many nodes.
    pub fn get(self) -> u8
        ensures value { result ≡ self }
        ensures within { IsNodeCount result }
    {
        self.count
    }
}
