//! What keeps a finite set of facts.

ghost use Rattle.fact_store.specs.Facts.{FactSet, nothing, with_fact, join, holds, lacked, facts_of, least, least_above, without};
ghost use Rattle.std.specs.Option.{option_copied};
ghost use Rattle.std.specs.Prelude.{◌≡◌, ◌<◌, ◌^◌, OnOk, OnErr, IfOk, IfErr, length, slice_get, not, false};

use identity::{JobId, Key};
use std::alloc::{AllocError, AllocFailed, Global};
use tile_fact::Fact;

/// A store of facts, each once, true or not. Contracts see its content, a finite set, and not how it keeps this. A store
/// takes its memory from the allocator that it is made with.
pub trait FactStore: Drop + Sized {
    /// The facts that it has.
    ghost content: { Self → FactSet };

    /// A store of no facts. No memory is allocated.
    fn new(alloc: Global) -> Self
        ensures { content result ≡ nothing };

    /// A store of the same facts, which share their numbers with these.
    fn copy(&self) -> Result<Self, AllocError>
        ensures { IfOk result (λ copy. content copy ≡ content self.now) };

    /// Adds a fact, and returns whether it is new. If memory runs out for a new fact, it is handed back, and the store is
    /// unchanged.
    fn add_fact(&mut self, fact: Fact) -> Result<bool, AllocFailed<Fact>>
        ensures added { OnOk result (content self.new ≡ with_fact (content self.old) fact) }
        ensures new { IfOk result (λ new. new ≡ not (holds (content self.old) fact)) }
        ensures handed_back { IfErr result (λ back. back.value ≡ fact) }
        ensures only_new { IfErr result (λ _. holds (content self.old) fact ≡ false) }
        ensures unchanged { OnErr result (content self.new ≡ content self.old) };

    /// Adds the facts of another store, and returns how many of them are new. If memory runs out, the store is unchanged.
    fn join_facts(&mut self, other: &Self) -> Result<usize, AllocError>
        ensures joined { OnOk result
            (content self.new ≡ join (content self.old) (content other.now)) }
        ensures new { IfOk result
            (λ count. count ≡ length (lacked (content self.old) (content self.new))) }
        ensures few { IfOk result (λ count. count < 2 ^ 63) }
        ensures unchanged { OnErr result (content self.new ≡ content self.old) };

    /// Removes the facts of the tiles of these jobs. No memory is allocated.
    fn remove_facts_of_jobs(&mut self, jobs: &[JobId])
        ensures { content self.new ≡ without (content self.old) jobs.now };

    /// How many facts of a key there are.
    fn count_facts_of_key(&self, key: &Key) -> usize
        ensures { result ≡ length (facts_of (content self.now) key.now) };

    /// The fact of a key that has exactly `n` facts of the key below it.
    fn find_nth_fact_of_key(&self, key: &Key, n: usize) -> Option<&Fact>
        ensures { option_copied result ≡ slice_get (facts_of (content self.now) key.now) n };

    /// The least fact.
    fn find_least_fact_of_all_keys(&self) -> Option<&Fact>
        ensures { option_copied result ≡ least (content self.now) };

    /// The least fact above a given one, which need not be in the store.
    fn find_least_fact_above(&self, fact: &Fact) -> Option<&Fact>
        ensures { option_copied result ≡ least_above (content self.now) fact.now };
}
