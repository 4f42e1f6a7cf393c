//! Answers to calls.

ghost use Rattle.std.specs.Prelude.{◌≡◌};

use crate::entry::{Lease, LeaseEntry};
use identity::Key;

/// The answer to a claim.
#[derive(Clone, Copy, Debug, PartialEq, Eq)]
pub enum Claim {
    /// No lease of the key was in force; the node's lease lasts until then.
    Granted { until: u64 },
    /// The node's own lease was in force; it has a new one, which lasts until then.
    Renewed { until: u64 },
    /// Another node's lease is in force until then.
    Held { by: u8, until: u64 },
    /// There was no memory for it. The claim has no effect.
    Memory,
}

impl Claim {
    ghost use Rattle.leases.specs.Rules.{claim_by, lease_of, claim_entry};

    // How the rules answer a node's claim when that lease is in force.
    pub(crate) fn from_lease_in_force(
        in_force: Option<Lease>,
        time: u64,
        node: u8,
        ttl: u64,
    ) -> Claim
        ensures { result ≡ claim_by in_force time node ttl }
    {
        let until = time.saturating_add(ttl);
        match in_force {
            None => Claim::Granted { until },
            Some(lease) if lease.node == node => Claim::Renewed { until },
            Some(lease) => Claim::Held {
                by: lease.node,
                until: lease.until,
            },
        }
    }

    // The lease that a node gets by it.
    pub(crate) fn to_lease(self, time: u64, node: u8) -> Option<Lease>
        ensures { result ≡ lease_of time node self }
    {
        match self {
            Claim::Granted { until } | Claim::Renewed { until } => Some(Lease {
                node,
                from: time,
                until,
            }),
            Claim::Held { .. } | Claim::Memory => None,
        }
    }

    // What is recorded of it.
    pub(crate) fn to_lease_entry(self, time: u64, node: u8, key: &Key) -> Option<LeaseEntry>
        ensures { result ≡ claim_entry time node key.now self }
    {
        let key = *key;
        let from = time;
        match self {
            Claim::Granted { until } => Some(LeaseEntry::Granted {
                key,
                lease: Lease { node, from, until },
            }),
            Claim::Renewed { until } => Some(LeaseEntry::Renewed {
                key,
                lease: Lease { node, from, until },
            }),
            Claim::Held { .. } => Some(LeaseEntry::Held { key, node, time }),
            Claim::Memory => None,
        }
    }
}

/// The answer to a release.
#[derive(Clone, Copy, Debug, PartialEq, Eq)]
pub enum Release {
    /// The node's lease was in force, and is over.
    Released,
    /// No lease of the node's was in force.
    NotHolder,
}

impl Release {
    ghost use Rattle.leases.specs.Rules.{release_by, release_entry};

    // How the rules answer a node's release when that lease is in force.
    pub(crate) fn from_lease_in_force(in_force: Option<Lease>, node: u8) -> Release
        ensures { result ≡ release_by in_force node }
    {
        match in_force {
            Some(lease) if lease.node == node => Release::Released,
            _ => Release::NotHolder,
        }
    }

    // What is recorded of it.
    pub(crate) fn to_lease_entry(self, time: u64, node: u8, key: &Key) -> Option<LeaseEntry>
        ensures { result ≡ release_entry time node key.now self }
    {
        let key = *key;
        match self {
            Release::Released => Some(LeaseEntry::Released { key, node, time }),
            Release::NotHolder => None,
        }
    }
}
