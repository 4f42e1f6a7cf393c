//! The history of a desk, as its callers have seen it.

ghost use Rattle.leases.specs.Logs.{IsLegalLog, head_of};
ghost use Rattle.std.specs.Bool.{OnTrue};
ghost use Rattle.std.specs.Prelude.{◌≡◌, ◌+◌, ◌<◌, ◌^◌, ◌++◌, ◌∷◌, ◌⊎◌, [], length};
ghost use mathlib.Core.List.{IsPrefix};

use crate::entry::LeaseEntry;
use crate::steps::{EntryAdding, LeaseRule, NoGain};
use logbook::{Offer, Seen, Start, Word};
use std::marker::{Brand, Model, PhantomData};

/// Which desk it is. Each call of a program picks it.
pub trait NamedDesk {
    ghost use Rattle.logbook.specs.Pages.{Book};

    ghost book: { Book };
}

impl NamedDesk for Brand {
    ghost book = { record { number = 0; log_name = 0; cells_name = 0 } };
}

/// A history without entries, of a desk that has no name yet.
#[derive(Drop)]
pub struct NewLeaseLog {
    head: Word<LeaseEntry, u64, LeaseRule>,
    seen: Seen<LeaseEntry, u64, LeaseRule>,
    pub ghost empty: { seen.log ≡ [] },
    pub ghost head_is: { head ≡ head_of seen.book },
}

impl NewLeaseLog {
    /// No memory is allocated.
    pub fn new() -> NewLeaseLog {
        let (seen, mut first, _second) = Seen::open(Start::alone(), 0, 0);
        NewLeaseLog {
            head: Word::tracked(0, &mut first),
            seen,
        }
    }

    // The history under a name, and a caller that has seen nothing of it.
    pub(crate) fn into_named<J: NamedDesk>(self) -> (LeaseLog<J>, SeenLeases<J>)
        requires { self.seen.book ≡ J.book }
        ensures { result.1 ≡ [] }
    {
        let NewLeaseLog { head, seen } = self;
        let log = LeaseLog {
            head,
            of: PhantomData,
        };
        let none = SeenLeases {
            count: 0,
            seen,
            of: PhantomData,
        };
        (log, none)
    }
}

// How many entries the history of a desk has. The entries themselves are in proofs alone.
#[derive(Drop)]
pub(crate) struct LeaseLog<J: NamedDesk> {
    head: Word<LeaseEntry, u64, LeaseRule>,
    of: PhantomData<J>,
    ghost head_is: { head ≡ head_of J.book },
}

/// What a caller has seen of the history of a desk, from its first entry on. Contracts see the entries, and none of them takes
/// memory. What two callers have seen of one desk are beginnings of one legal history.
#[derive(Drop)]
pub struct SeenLeases<J: NamedDesk> {
    count: u64,
    seen: Seen<LeaseEntry, u64, LeaseRule>,
    of: PhantomData<J>,
}

impl<J: NamedDesk> Model for SeenLeases<J> {
    ghost use Rattle.leases.specs.Logs.{IsLegalLog};
    ghost use Rattle.leases.specs.declared.entry.LeaseEntry.{LeaseEntry};
    ghost use Rattle.std.specs.Prelude.{◌≡◌, List, length};

    ghost Value = { List LeaseEntry };

    ghost view = { λ it. it.seen.log };

    ghost invariant = { λ it. (it.count ≡ length it.seen.log) × (it.seen.book ≡ J.book) × IsLegalLog it.seen.log };
}

impl<J: NamedDesk> SeenLeases<J> {
    /// How many entries there are.
    pub fn count_entries(&self) -> u64
        ensures count { result ≡ length self.now }
        ensures legal { IsLegalLog self.now }
    {
        self.count
    }

    /// The same, for another caller.
    pub fn again(&self) -> SeenLeases<J>
        ensures { result ≡ self.now }
    {
        SeenLeases {
            count: self.count,
            seen: self.seen.again(),
            of: PhantomData,
        }
    }

    /// The longer one of two, which begins as the other.
    pub fn longer(&self, other: &SeenLeases<J>) -> SeenLeases<J>
        ensures one { (result ≡ self.now) ⊎ (result ≡ other.now) }
        ensures this { IsPrefix self.now result }
        ensures that { IsPrefix other.now result }
        ensures legal { IsLegalLog result }
    {
        let mut both = self.seen.again();
        both.learn(&other.seen);
        if self.count < other.count {
            other.again()
        } else {
            self.again()
        }
    }

    // Whether the other one has all of these entries: what two callers have seen of one desk begins as what the one has that saw more.
    pub(crate) fn is_beginning_of(&self, other: &SeenLeases<J>) -> bool
        ensures { OnTrue result (IsPrefix self.now other.now) }
    {
        let mut both = self.seen.again();
        both.learn(&other.seen);
        self.count <= other.count
    }

    // Adds an entry to all that was seen, and returns whether it did. It did not where the history is longer.
    pub(crate) fn add_entry(&mut self, log: &LeaseLog<J>, entry: LeaseEntry) -> bool
        requires room { length self.old < 2 ^ 63 }
        requires legal { IsLegalLog (self.old ++ entry ∷ []) }
        ensures { OnTrue result (self.new ≡ self.old ++ entry ∷ []) }
    {
        let mut offer: Offer<LeaseEntry, u64, LeaseRule, NoGain> = self
            .seen
            .plain::<NoGain, LeaseEntry, EntryAdding>(&entry);
        let mut pen = self.seen.no_pen();
        let count = self.count;
        let found = log
            .head
            .compare_exchange::<EntryAdding, NoGain>(
                count,
                count + 1,
                &mut self.seen,
                &mut offer,
                &mut pen,
            );
        self.count = if found == count { count + 1 } else { found };
        found == count
    }
}
