//! Events.

use identity::{JobId, Key};
use sequences::Sequence;

/// Keys in the order in which they were named, possibly with repetitions.
pub type Keys = Sequence<Key>;

/// What can happen to the nodes of a world. Nodes are counted from 0, and so are messages, in the order in which they were sent.
#[derive(Debug, Drop)]
pub enum Event {
    /// The node makes the fact of a tile from what it holds, as a message to itself.
    Make { node: u8, key: Key },
    /// The node retires the job of these identities, by a message to itself.
    Retire { node: u8, ids: JobId },
    /// The node sends all facts of the keys that it holds, and all retirements, to another one, or to itself.
    Send { node: u8, to: u8, keys: Keys },
    /// A message comes to the node, perhaps not for the first time.
    Deliver { node: u8, message: u64 },
    /// The node takes what another one holds.
    Merge { node: u8, other: u8 },
    /// The node keeps what it holds.
    Keep { node: u8 },
    /// The node begins again with what it kept.
    Restart { node: u8 },
}
