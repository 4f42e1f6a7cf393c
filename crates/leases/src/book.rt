//! A desk with its history.

ghost use Rattle.std.specs.Prelude.{◌≡◌, ◌≢◌, [], max};
ghost use Rattle.leases.specs.declared.answer.Claim.{Claim};

use crate::answer::{Claim, Release};
use crate::desk::Desk;
use crate::entry::LeaseEntry;
use identity::Key;
use std::alloc::Global;
use std::marker::Model;

/// A desk with the history of its calls. The desk always stands for the history, which is of the calls of this book alone. So no
/// key ever has two holders at one time. A claim reserves capacity for the release that may follow.
#[derive(Drop)]
pub struct DeskBook {
    desk: Desk,
    history: Vec<LeaseEntry>,
}

impl Model for DeskBook {
    ghost use Rattle.leases.specs.Books.{Book, IsBook};

    ghost Value = { Book };

    ghost view = { λ b. record { time = b.desk.clock; history = b.history.items } };

    ghost invariant = { λ b. IsBook b.desk b.history };
}

impl DeskBook {
    ghost use Rattle.leases.specs.Rules.{IsLegal, claim_answer, release_answer};
    ghost use Rattle.leases.specs.Rules.{holder_of, with_entry, claim_entry, release_entry, time_after};
    ghost use Rattle.leases.specs.Standing.{StandsFor};

    /// A desk with no leases, at time 0, of which nothing is recorded.
    pub fn new(alloc: Global) -> DeskBook
        ensures { result ≡ record { time = 0; history = [] } }
    {
        DeskBook {
            desk: Desk::new(alloc),
            history: Vec::new(alloc),
        }
    }

    /// The entries of all calls so far.
    pub fn history(&self) -> &[LeaseEntry]
        ensures entries { result.now ≡ self.now.history }
        ensures legal { IsLegal self.now.history self.now.time }
    {
        self.history.as_slice()
    }

    /// The desk, which stands for the history.
    pub fn desk(&self) -> &Desk
        ensures { StandsFor result.now self.now.history self.now.time }
    {
        &self.desk
    }

    /// Claims a key for a node, as `Desk::claim` does, and records it. With `Memory` nothing changes.
    pub fn claim(&mut self, now: u64, node: u8, key: Key, ttl: u64) -> Claim
        ensures legal { IsLegal self.old.history self.old.time }
        ensures answer { result ≢ Claim.Memory
            → result ≡ claim_answer self.old.history (max self.old.time now) node key ttl }
        ensures history { self.new.history
            ≡ with_entry self.old.history (claim_entry (max self.old.time now) node key result) }
        ensures time { self.new.time ≡ time_after self.old.time now result }
    {
        // for this entry, for those of the leases, and for that of a new one
        if self.history.reserve(self.desk.count_leases() + 2).is_err() {
            return Claim::Memory;
        }
        let time = self.desk.compute_call_time(now);
        let claim = self.desk.claim(now, node, key, ttl);
        if let Some(entry) = claim.to_lease_entry(time, node, &key) {
            self.history.push_reserved(entry);
        }
        claim
    }

    /// Ends the lease of a node, as `Desk::release` does, and records it if it was in force.
    pub fn release(&mut self, now: u64, node: u8, key: &Key) -> Release
        ensures legal { IsLegal self.old.history self.old.time }
        ensures answer { result
            ≡ release_answer self.old.history (max self.old.time now) node key.now }
        ensures history { self.new.history
            ≡ with_entry self.old.history (release_entry (max self.old.time now) node key.now result) }
        ensures time { self.new.time ≡ max self.old.time now }
    {
        let time = self.desk.compute_call_time(now);
        let release = self.desk.release(now, node, key);
        if let Some(entry) = release.to_lease_entry(time, node, key) {
            self.history.push_reserved(entry);
        }
        release
    }

    /// The node whose lease of a key is in force. The call moves the time, and is not recorded.
    pub fn holder(&mut self, now: u64, key: &Key) -> Option<u8>
        ensures legal { IsLegal self.old.history self.old.time }
        ensures answer { result ≡ holder_of self.old.history (max self.old.time now) key.now }
        ensures history { self.new.history ≡ self.old.history }
        ensures time { self.new.time ≡ max self.old.time now }
    {
        self.desk.holder(now, key)
    }
}
