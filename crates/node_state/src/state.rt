//! The state of a node.

ghost use Rattle.identity.specs.Keys.{ids_in};
ghost use Rattle.node_state.specs.Answers.{known_of, retired_of, taken_of};
ghost use Rattle.node_state.specs.States.{IsState, count_lacked, facts_in, holds, join, nothing, retired_in, retires, with_fact, with_retired};
ghost use Rattle.std.specs.Prelude.{◌≡◌, ◌<◌, ◌^◌, OnOk, OnErr, IfOk, IfErr, length, false};
ghost use Rattle.tile_fact.specs.FactFile.{fact_file};

use fact_store::{FactStore, TableFacts};
use held_facts::{HeldFacts, Known, Taken};
use id_lists::IdList;
use identity::{JobId, Key};
use std::alloc::{AllocError, AllocFailed, Global};
use std::marker::Model;
use tile_fact::{Fact, encode};

/// What a node knows: facts, each once, true or not, and which jobs are retired. It holds no fact of a retired job. A state
/// allocates its memory from the allocator that it is made with.
#[derive(Drop)]
pub struct NodeState<S: FactStore = TableFacts> {
    pub(crate) alloc: Global,
    pub(crate) held: HeldFacts<S>,
    pub(crate) retired: IdList,
}

impl<S: FactStore> Model for NodeState<S> {
    ghost use Rattle.node_state.specs.States.{IsState, State, coded_state};

    ghost Value = { State };

    ghost coded = { coded_state };

    ghost view = { λ state. record { facts = state.held; retired = state.retired } };

    ghost invariant = { λ state. IsState (record { facts = state.held; retired = state.retired }) };
}

impl<S: FactStore> NodeState<S> {
    /// The state that holds no fact and knows of no retired job. No memory is allocated.
    pub fn new(alloc: Global) -> NodeState<S>
        ensures { result ≡ nothing }
    {
        NodeState {
            alloc,
            held: HeldFacts::new(alloc),
            retired: IdList::new(alloc),
        }
    }

    /// The same state. Copies of a fact share its numbers.
    pub fn copy(&self) -> Result<NodeState<S>, AllocError>
        ensures { IfOk result (λ copy. copy ≡ self.now) }
    {
        let held = self.held.copy()?;
        let retired = self.retired.copy(self.alloc)?;
        Ok(NodeState {
            alloc: self.alloc,
            held,
            retired,
        })
    }

    /// The facts that are held.
    pub fn held(&self) -> &HeldFacts<S>
        ensures facts { result.now ≡ self.now.facts }
        ensures state { IsState self.now }
    {
        &self.held
    }

    /// The identities of the jobs that are retired, rising. No memory is allocated.
    pub fn retired(&self) -> &[JobId]
        ensures ids { result.now ≡ retired_in self.now }
        ensures state { IsState self.now }
    {
        self.retired.as_slice()
    }

    /// Whether the job of these identities is retired.
    pub fn has_retired_job(&self, ids: &JobId) -> bool
        ensures retired { result ≡ retires self.now ids.now }
        ensures state { IsState self.now }
    {
        self.retired.has_job_id(ids)
    }

    /// Adds a fact, unless its job is retired, and reports whether it was new. Where memory runs out for a new fact it is handed
    /// back, and the state is unchanged.
    pub fn take(&mut self, fact: Fact) -> Result<Taken, AllocFailed<Fact>>
        ensures added { OnOk result (self.new ≡ with_fact self.old fact) }
        ensures new { IfOk result (λ taken. taken ≡ taken_of self.old fact) }
        ensures handed_back { IfErr result (λ back. back.value ≡ fact) }
        ensures only_new { IfErr result (λ _. holds self.old fact ≡ false) }
        ensures only_live { IfErr result (λ _. retires self.old (ids_in fact.key) ≡ false) }
        ensures unchanged { OnErr result (self.new ≡ self.old) }
    {
        if self.has_retired_job(&JobId::from_key(fact.key())) {
            return Ok(Taken::Retired);
        }
        self.held.hold_fact(fact)
    }

    /// Retires a job, drops the job's facts, and reports whether the retirement was new. Where memory runs out the state is
    /// unchanged.
    pub fn retire(&mut self, ids: &JobId) -> Result<Taken, AllocError>
        ensures retired { OnOk result (self.new ≡ with_retired self.old ids.now) }
        ensures new { IfOk result (λ taken. taken ≡ retired_of self.old ids.now) }
        ensures only_new { IfErr result (λ _. retires self.old ids.now ≡ false) }
        ensures unchanged { OnErr result (self.new ≡ self.old) }
    {
        if self.has_retired_job(ids) {
            return Ok(Taken::Already);
        }
        self.retired.add_job_id(ids)?;
        self.held.remove_facts_of_jobs(&[*ids]);
        Ok(Taken::New)
    }

    /// Adds what another state knows, and reports how many facts and retirements of the new state the old one lacked. Where
    /// memory runs out the state is unchanged.
    pub fn merge(&mut self, other: &NodeState<S>) -> Result<usize, AllocError>
        ensures joined { OnOk result (self.new ≡ join self.old other.now) }
        ensures new { IfOk result (λ count. count ≡ count_lacked self.old self.new) }
        ensures unchanged { OnErr result (self.new ≡ self.old) }
    {
        let retired = self.retired.build_union(self.alloc, &other.retired)?;
        let again = other.held.count_facts_of_jobs(self.retired.as_slice())?;
        let more = self.retired.count_job_ids_only_in_other(&retired);
        let new = self.held.merge(&other.held)?;
        self.held.remove_facts_of_jobs(retired.as_slice());
        self.retired = retired;
        Ok(new - again + more)
    }

    /// How many facts of the key are held: none, one or several; or that its job is retired. No memory is allocated.
    pub fn knows(&self, key: &Key) -> Known
        ensures { result ≡ known_of self.now key.now }
    {
        if self.has_retired_job(&JobId::from_key(key)) {
            Known::Retired
        } else {
            self.held.classify_fact_count_of_key(key)
        }
    }

    /// The fact file of the state. For more than 4,294,967,295 facts or retired jobs there is none: the result is the same as if
    /// memory ran out.
    pub fn export(&self) -> Result<Vec<u8>, AllocError>
        ensures file { IfOk result
            (λ bytes. bytes.items ≡ fact_file (retired_in self.now) (facts_in self.now)) }
        ensures count { IfOk result (λ _. length (facts_in self.now) < 2 ^ 32) }
        ensures retired { IfOk result (λ _. length (retired_in self.now) < 2 ^ 32) }
    {
        let facts = self.held.list_facts()?;
        let retired = self.retired();
        if facts.len() > u32::MAX as usize || retired.len() > u32::MAX as usize {
            return Err(AllocError);
        }
        encode(self.alloc, retired, &facts)
    }
}
