//! Leases, and what is recorded of calls.

use identity::Key;

/// A node's lease of a key. Times are numbers of 64 bits, of whatever unit the callers count in.
#[derive(Clone, Copy, Debug, PartialEq, Eq)]
pub struct Lease {
    /// The node that has it.
    pub node: u8,
    /// When it begins.
    pub from: u64,
    /// The first time at which it is over.
    pub until: u64,
}

/// What is recorded of a call.
#[derive(Clone, Copy, Debug, PartialEq, Eq)]
pub enum LeaseEntry {
    /// A claim of a key of which no lease was in force.
    Granted { key: Key, lease: Lease },
    /// A claim by the node whose lease was in force.
    Renewed { key: Key, lease: Lease },
    /// A claim by this node while another's lease was in force.
    Held { key: Key, node: u8, time: u64 },
    /// A release by the node whose lease was in force.
    Released { key: Key, node: u8, time: u64 },
}
