//! What the definitions amount to, proved once for the crates above. A law is a function that does nothing: its clauses are the
//! law.

ghost use Rattle.std.specs.Prelude.{◌≡◌, ◌≤◌, ℕ, List, All, AllPairs, Contains, IsTrue};
ghost use Rattle.identity.specs.declared.key.Key.{Key};
ghost use Rattle.leases.specs.declared.entry.LeaseEntry.{LeaseEntry};
ghost use Rattle.leases.specs.declared.entry.Lease.{Lease};
ghost use Rattle.leases.specs.Leases.{leases_of, lasts, time_of};
ghost use Rattle.leases.specs.Rules.{IsLegal};

/// By a history of calls the leases of one key are disjoint in time: each is over before the next begins. So no key has two
/// holders at one time: two of its leases that are in force then are one.
pub fn leases_are_disjoint()
    ensures apart { (h : List LeaseEntry) (t : ℕ) (q : Key) → IsLegal h t
        → AllPairs (λ a b. a.until ≤ b.from) (leases_of q h) }
    ensures one_holder { (h : List LeaseEntry) (t x : ℕ) (q : Key) (a b : Lease) → IsLegal h t
        → Contains (leases_of q h) a → Contains (leases_of q h) b
        → IsTrue (lasts x a) → IsTrue (lasts x b) → a ≡ b }
{}

/// The times of the entries never fall, and the time of the history is not before them.
pub fn lease_times_never_fall()
    ensures rises { (h : List LeaseEntry) (t : ℕ) → IsLegal h t
        → AllPairs (λ a b. time_of a ≤ time_of b) h }
    ensures last { (h : List LeaseEntry) (t : ℕ) → IsLegal h t → All (λ e. time_of e ≤ t) h }
{}
