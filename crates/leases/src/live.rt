//! A desk that threads share.

ghost use Rattle.leases.specs.Logs.{IsLegalLog};
ghost use Rattle.leases.specs.Rules.{with_entry};
ghost use Rattle.leases.specs.Shared.{IsClaimIn, IsHolderIn, IsReleaseIn};
ghost use Rattle.leases.specs.declared.answer.Claim.{Claim as ClaimOf};
ghost use Rattle.leases.specs.declared.entry.LeaseEntry.{LeaseEntry as EntryOf};
ghost use Rattle.std.specs.Prelude.{◌≡◌, ◌≢◌, ◌<◌, ◌^◌, [], Option, length};
ghost use mathlib.Core.List.{IsPrefix};

use crate::answer::{Claim, Release};
use crate::book::DeskBook;
use crate::entry::LeaseEntry;
use crate::log::{LeaseLog, NamedDesk, NewLeaseLog, SeenLeases};
use identity::Key;
use std::alloc::Global;
use std::sync::{Mutex, Wait};

/// A desk with its record, which threads share. Calls take turns under a lock. Each answer is what the rules give at one point of
/// the desk's one history. The point is not before what the caller had seen, and the caller has then seen the history up to there.
/// So no key has two holders at one time, whichever callers were told of them.
#[derive(Drop)]
pub struct LiveDesk<J: NamedDesk> {
    log: LeaseLog<J>,
    desk: Mutex<SharedDesk<J>>,
}

impl<J: NamedDesk> LiveDesk<J> {
    /// A desk with no leases, at time 0, and a caller's view of its history.
    pub fn open(alloc: Global, log: NewLeaseLog) -> (LiveDesk<J>, SeenLeases<J>)
        requires { log.seen.book ≡ J.book }
        ensures { result.1 ≡ [] }
    {
        let (log, seen) = log.into_named::<J>();
        let desk = SharedDesk {
            book: DeskBook::new(alloc),
            all: seen.again(),
        };
        let desk = LiveDesk {
            log,
            desk: Mutex::new(desk),
        };
        (desk, seen)
    }

    /// Claims a key for a node, as `DeskBook::claim` does.
    pub fn claim<R: Wait>(
        &self,
        rt: &R,
        seen: &mut SeenLeases<J>,
        now: u64,
        node: u8,
        key: Key,
        ttl: u64,
    ) -> Claim
        ensures answer { result ≢ ClaimOf.Memory → IsClaimIn seen.old seen.new now node key ttl result }
        ensures longer { IsPrefix seen.old seen.new }
    {
        self.desk
            .lock(rt)
            .claim(rt, &self.log, seen, now, node, key, ttl)
    }

    /// Ends the lease of a node, as `DeskBook::release` does.
    pub fn release<R: Wait>(
        &self,
        rt: &R,
        seen: &mut SeenLeases<J>,
        now: u64,
        node: u8,
        key: &Key,
    ) -> Release
        ensures answer { IsReleaseIn seen.old seen.new now node key.now result }
        ensures longer { IsPrefix seen.old seen.new }
    {
        self.desk
            .lock(rt)
            .release(rt, &self.log, seen, now, node, key)
    }

    /// The node whose lease of a key is in force, as `DeskBook::holder` reports it.
    pub fn holder<R: Wait>(
        &self,
        rt: &R,
        seen: &mut SeenLeases<J>,
        now: u64,
        key: &Key,
    ) -> Option<u8>
        ensures answer { IsHolderIn seen.old seen.new now key.now result }
        ensures longer { IsPrefix seen.old seen.new }
    {
        self.desk.lock(rt).holder(rt, seen, now, key)
    }
}

// A desk with its record, and the history of which its callers have seen a beginning.
#[derive(Drop)]
struct SharedDesk<J: NamedDesk> {
    book: DeskBook,
    all: SeenLeases<J>,
    ghost same: { all ≡ book.history },
}

impl<J: NamedDesk> SharedDesk<J> {
    fn claim<R: Wait>(
        &mut self,
        rt: &R,
        log: &LeaseLog<J>,
        seen: &mut SeenLeases<J>,
        now: u64,
        node: u8,
        key: Key,
        ttl: u64,
    ) -> Claim
        ensures answer { result ≢ ClaimOf.Memory → IsClaimIn seen.old seen.new now node key ttl result }
        ensures longer { IsPrefix seen.old seen.new }
    {
        self.wait_unless_desk_has_entries(rt, seen);
        let claim = self.book.claim(now, node, key, ttl);
        add_lease_entry_of_call(rt, log, &mut self.all, self.book.history());
        *seen = seen.longer(&self.all);
        claim
    }

    fn release<R: Wait>(
        &mut self,
        rt: &R,
        log: &LeaseLog<J>,
        seen: &mut SeenLeases<J>,
        now: u64,
        node: u8,
        key: &Key,
    ) -> Release
        ensures answer { IsReleaseIn seen.old seen.new now node key.now result }
        ensures longer { IsPrefix seen.old seen.new }
    {
        self.wait_unless_desk_has_entries(rt, seen);
        let release = self.book.release(now, node, key);
        add_lease_entry_of_call(rt, log, &mut self.all, self.book.history());
        *seen = seen.longer(&self.all);
        release
    }

    fn holder<R: Wait>(
        &mut self,
        rt: &R,
        seen: &mut SeenLeases<J>,
        now: u64,
        key: &Key,
    ) -> Option<u8>
        ensures answer { IsHolderIn seen.old seen.new now key.now result }
        ensures longer { IsPrefix seen.old seen.new }
    {
        self.wait_unless_desk_has_entries(rt, seen);
        let holder = self.book.holder(now, key);
        *seen = seen.longer(&self.all);
        holder
    }

    // Goes on where the desk has all that a caller has seen. A caller that has seen more has seen another desk, and waits forever.
    fn wait_unless_desk_has_entries<R: Wait>(&self, rt: &R, seen: &SeenLeases<J>)
        ensures { IsPrefix seen.now self.now.all }
    {
        if seen.is_beginning_of(&self.all) {
            return;
        }
        for _ in rt.forever() {}
        unreachable!()
    }
}

// Adds what was recorded of a call, if anything was, to the history that callers see. Only the desk under the lock adds to it, so
// that no other entry is ever found there; if one were, this would wait forever.
fn add_lease_entry_of_call<J: NamedDesk, R: Wait>(
    rt: &R,
    log: &LeaseLog<J>,
    all: &mut SeenLeases<J>,
    history: &[LeaseEntry],
)
    requires one { (entry : Option EntryOf) × (history.now ≡ with_entry all.old entry) }
    requires legal { IsLegalLog history.now }
    ensures { all.new ≡ history.now }
{
    let Some(entry) = history.get(all.count_entries() as usize) else {
        return;
    };
    if all.add_entry(log, *entry) {
        return;
    }
    for _ in rt.forever() {}
    unreachable!()
}
