//! The desk: a clock, and the latest lease of each key.

ghost use Rattle.std.specs.Prelude.{◌≡◌, ◌≢◌, ◌+◌, ◌^◌, ◌<◌, ◌≤◌, ℕ, Option, Some, None, List, [], max};
ghost use Rattle.leases.specs.declared.answer.Claim.{Claim};
ghost use Rattle.leases.specs.declared.answer.Release.{Release};
ghost use Rattle.leases.specs.declared.entry.LeaseEntry.{LeaseEntry};

use crate::answer::{Claim, Release};
use crate::entry::Lease;
use identity::Key;
use std::alloc::Global;
use std::collections::BTreeMap;

/// Leases by a clock. The time of a call is the greatest `now` of all calls so far, its own included; a claim that is answered
/// `Memory` has no effect.
#[derive(Drop)]
pub struct Desk {
    clock: u64,
    leases: BTreeMap<Key, Lease>,
}

impl Desk {
    ghost use Rattle.leases.specs.Leases.{in_force};
    ghost use Rattle.leases.specs.Rules.{claim_answer, release_answer, holder_of, with_entry, claim_entry, release_entry, time_after};
    ghost use Rattle.leases.specs.Standing.{StandsFor, shown_lease, lease_count};

    /// A desk with no leases, at time 0.
    pub fn new(alloc: Global) -> Desk
        ensures stands { StandsFor result [] 0 }
        ensures kept { lease_count result ≡ 0 }
    {
        Desk {
            clock: 0,
            leases: BTreeMap::new(alloc),
        }
    }

    // The lease of a key, if it is not over at the time.
    fn find_lease_in_force(&self, key: &Key, time: u64) -> Option<Lease>
        ensures { result ≡ shown_lease time self.now key.now }
    {
        let lease = *self.leases.get(key)?;
        if time < lease.until {
            Some(lease)
        } else {
            None
        }
    }

    /// Claims a key for a node, for `ttl` from the time of the call on, at most until the greatest number of 64 bits. A claim by
    /// the node that has the key renews its lease. With `Memory` the desk and its time are unchanged; it is answered instead of
    /// `Granted` alone.
    pub fn claim(&mut self, now: u64, node: u8, key: Key, ttl: u64) -> Claim
        ensures answer { (h : List LeaseEntry) (t : ℕ) → StandsFor self.old h t → result ≢ Claim.Memory
            → result ≡ claim_answer h (max t now) node key ttl }
        ensures memory { (h : List LeaseEntry) (t : ℕ) → StandsFor self.old h t → result ≡ Claim.Memory
            → in_force key (max t now) h ≡ None }
        ensures stands { (h : List LeaseEntry) (t : ℕ) → StandsFor self.old h t
            → StandsFor self.new (with_entry h (claim_entry (max t now) node key result))
            (time_after t now result) }
        ensures kept { lease_count self.new ≤ lease_count self.old + 1 }
    {
        let time = self.clock.max(now);
        let claim = Claim::from_lease_in_force(
            self.find_lease_in_force(&key, time),
            time,
            node,
            ttl,
        );
        if let Some(lease) = claim.to_lease(time, node) {
            let Ok(_) = self.leases.insert(key, lease) else {
                return Claim::Memory;
            };
        }
        self.clock = time;
        claim
    }

    /// Ends the lease of a node, if it is in force.
    pub fn release(&mut self, now: u64, node: u8, key: &Key) -> Release
        ensures answer { (h : List LeaseEntry) (t : ℕ) → StandsFor self.old h t
            → result ≡ release_answer h (max t now) node key.now }
        ensures stands { (h : List LeaseEntry) (t : ℕ) → StandsFor self.old h t
            → StandsFor self.new (with_entry h (release_entry (max t now) node key.now result))
            (max t now) }
        ensures kept { lease_count self.new ≤ lease_count self.old }
        ensures fewer { result ≡ Release.Released → lease_count self.new + 1 ≤ lease_count self.old }
    {
        self.clock = self.clock.max(now);
        let release = Release::from_lease_in_force(self.find_lease_in_force(key, self.clock), node);
        if let Release::Released = release {
            self.leases.remove(key);
        }
        release
    }

    /// The node whose lease of a key is in force. The call moves the time.
    pub fn holder(&mut self, now: u64, key: &Key) -> Option<u8>
        ensures answer { (h : List LeaseEntry) (t : ℕ) → StandsFor self.old h t
            → result ≡ holder_of h (max t now) key.now }
        ensures stands { (h : List LeaseEntry) (t : ℕ) → StandsFor self.old h t
            → StandsFor self.new h (max t now) }
        ensures kept { lease_count self.new ≡ lease_count self.old }
    {
        self.clock = self.clock.max(now);
        self.find_lease_in_force(key, self.clock)
            .map(|lease| lease.node)
    }

    // The time of a call.
    pub(crate) fn compute_call_time(&self, now: u64) -> u64
        ensures { (h : List LeaseEntry) (t : ℕ) → StandsFor self.now h t → result ≡ max t now }
    {
        self.clock.max(now)
    }

    // How many leases it keeps.
    pub(crate) fn count_leases(&self) -> usize
        ensures kept { result ≡ lease_count self.now }
        ensures small { result < 2 ^ 63 }
    {
        self.leases.len()
    }
}
