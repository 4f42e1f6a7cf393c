//! What a node holds.

ghost use Rattle.held_facts.specs.Answers.{taken_of, known_of};
ghost use Rattle.held_facts.specs.Facts.{nothing, holds, with_fact, without, join, lacked, facts_in, facts_of, least, least_above, names_one};
ghost use Rattle.std.specs.Option.{option_copied};
ghost use Rattle.std.specs.Prelude.{◌≡◌, ◌<◌, ◌^◌, OnOk, OnErr, IfOk, IfErr, length, slice_get, filter, false};

use crate::answers::{Known, Taken};
use fact_store::{FactStore, TableFacts, is_fact_set_key_of_jobs};
use identity::{JobId, Key};
use std::alloc::{AllocError, AllocFailed, Global};
use std::marker::Model;
use tile_fact::Fact;

/// What a node holds: facts, each once, true or not. Contracts see the set of them. Their memory is taken from the allocator that
/// they are made with.
#[derive(Drop)]
pub struct HeldFacts<S: FactStore = TableFacts> {
    pub(crate) alloc: Global,
    store: S,
}

impl<S: FactStore> Model for HeldFacts<S> {
    ghost use Rattle.fact_store.specs.Facts.{FactSet, coded_set};

    ghost Value = { FactSet };

    ghost coded = { coded_set };

    ghost view = { λ held. S.content held.store };
}

impl<S: FactStore> HeldFacts<S> {
    /// No facts. No memory is taken.
    pub fn new(alloc: Global) -> HeldFacts<S>
        ensures { result ≡ nothing }
    {
        HeldFacts {
            alloc,
            store: S::new(alloc),
        }
    }

    /// The same facts. Copies of a fact share its numbers.
    pub fn copy(&self) -> Result<HeldFacts<S>, AllocError>
        ensures { IfOk result (λ copy. copy ≡ self.now) }
    {
        let store = self.store.copy()?;
        Ok(HeldFacts {
            alloc: self.alloc,
            store,
        })
    }

    /// Adds a fact, and reports whether it was new. If memory runs out for a new fact, it is handed back and what is held is
    /// unchanged.
    pub fn hold_fact(&mut self, fact: Fact) -> Result<Taken, AllocFailed<Fact>>
        ensures added { OnOk result (self.new ≡ with_fact self.old fact) }
        ensures new { IfOk result (λ taken. taken ≡ taken_of self.old fact) }
        ensures handed_back { IfErr result (λ back. back.value ≡ fact) }
        ensures only_new { IfErr result (λ _. holds self.old fact ≡ false) }
        ensures unchanged { OnErr result (self.new ≡ self.old) }
    {
        if self.store.add_fact(fact)? {
            Ok(Taken::New)
        } else {
            Ok(Taken::Already)
        }
    }

    /// Adds other facts, and reports how many of them are new. If memory runs out, what is held is unchanged.
    pub fn merge(&mut self, other: &HeldFacts<S>) -> Result<usize, AllocError>
        ensures joined { OnOk result (self.new ≡ join self.old other.now) }
        ensures new { IfOk result (λ count. count ≡ length (lacked self.old self.new)) }
        ensures few { IfOk result (λ count. count < 2 ^ 63) }
        ensures unchanged { OnErr result (self.new ≡ self.old) }
    {
        self.store.join_facts(&other.store)
    }

    /// Removes the facts of the tiles of these jobs. No memory is taken.
    pub fn remove_facts_of_jobs(&mut self, jobs: &[JobId])
        ensures { self.new ≡ without self.old jobs.now }
    {
        if !jobs.is_empty() {
            self.store.remove_facts_of_jobs(jobs);
        }
    }

    /// How many facts of the key are held: none, one or several. No memory is taken.
    pub fn classify_fact_count_of_key(&self, key: &Key) -> Known
        ensures { result ≡ known_of self.now key.now }
    {
        match self.store.count_facts_of_key(key) {
            0 => Known::Nothing,
            1 => Known::One,
            _ => Known::Disputed,
        }
    }

    /// How many facts of the key are held.
    pub fn count_facts_of_key(&self, key: &Key) -> usize
        ensures { result ≡ length (facts_of self.now key.now) }
    {
        self.store.count_facts_of_key(key)
    }

    /// The held fact of the key with exactly `n` held facts of the key below it.
    pub fn find_nth_fact_of_key(&self, key: &Key, n: usize) -> Option<&Fact>
        ensures { option_copied result ≡ slice_get (facts_of self.now key.now) n }
    {
        self.store.find_nth_fact_of_key(key, n)
    }

    /// The least fact that is held.
    pub fn find_least_fact_of_all_keys(&self) -> Option<&Fact>
        ensures { option_copied result ≡ least self.now }
    {
        self.store.find_least_fact_of_all_keys()
    }

    /// The least held fact above a given one, which need not be held.
    pub fn find_least_fact_above(&self, fact: &Fact) -> Option<&Fact>
        ensures { option_copied result ≡ least_above self.now fact.now }
    {
        self.store.find_least_fact_above(fact)
    }

    /// All held facts, rising.
    pub fn list_facts(&self) -> Result<Vec<Fact>, AllocError>
        ensures { IfOk result (λ facts. facts.items ≡ facts_in self.now) }
    {
        let mut facts = Vec::new(self.alloc);
        let mut next = self.find_least_fact_of_all_keys();
        while let Some(fact) = next {
            facts.push(fact.clone()?)?;
            next = self.find_least_fact_above(fact);
        }
        Ok(facts)
    }

    /// How many facts are of tiles of these jobs. If they are too many to be counted, this fails as if memory ran out.
    pub fn count_facts_of_jobs(&self, jobs: &[JobId]) -> Result<usize, AllocError>
        ensures { IfOk result
            (λ count. count ≡ length (filter (λ f. names_one jobs.now f.key) (facts_in self.now))) }
    {
        if jobs.is_empty() {
            return Ok(0);
        }
        let mut passed: usize = 0;
        let mut count = 0;
        let mut next = self.find_least_fact_of_all_keys();
        while let Some(fact) = next {
            passed = passed.checked_add(1).ok_or(AllocError)?;
            count += usize::from(is_fact_set_key_of_jobs(jobs, fact.key()));
            next = self.find_least_fact_above(fact);
        }
        Ok(count)
    }
}
