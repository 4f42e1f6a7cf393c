//! How the tiles of a job are made, and its answer.

ghost use Rattle.std.specs.Option.{ForSome};
ghost use Rattle.std.specs.Prelude.{◌≡◌, IfOk, []};
ghost use Rattle.accumulators.specs.Answers.{IsAnswer};
ghost use Rattle.catalog.specs.Entries.{entry_of};
ghost use Rattle.fact_audit.specs.TrueFacts.{IsTrueFact};
ghost use Rattle.farm_answers.specs.inside.Missing.{CanMake, HoldsAnswerOf, IsLeft};
ghost use Rattle.gossip_core.specs.Finishing.{lacked_work};
ghost use Rattle.job.specs.Kept.{pipeline_in};
ghost use Rattle.netpbm.specs.Image.{IsImage};

use accumulators::Answer;
use catalog::Catalog;
use grouping::Schedule;
use held_facts::{AnswerFault, HeldFacts, MakeFault};
use identity::Key;
use job::Job;
use overlap_tiles::list_work_keys;
use std::alloc::{AllocError, Global};
use tile_fact::Fact;

/// A job of a catalog, and a schedule of it.
#[derive(Clone, Copy)]
pub struct FarmAnswerPlan<'a> {
    pub catalog: &'a Catalog,
    pub job: &'a Job,
    pub schedule: &'a Schedule,
}

impl FarmAnswerPlan<'_> {
    /// The keys of the work tiles of which nothing is held.
    pub fn list_missing_work_keys(
        &self,
        alloc: Global,
        held: &HeldFacts,
    ) -> Result<Vec<Key>, AllocError>
        ensures { IfOk result (λ keys. keys.items
            ≡ lacked_work held.now (entry_of self.now.job.now) self.now.schedule.now.inlining) }
    {
        let mut keys = list_work_keys(alloc, self.job, self.schedule)?;
        keys.retain(|key| held.count_facts_of_key(key) == 0);
        Ok(keys)
    }

    /// Makes the tiles of these keys one after another, and adds their facts. They are all that is missing of the job's work.
    pub fn make_missing_facts(&self, held: HeldFacts, keys: &[Key]) -> Result<HeldFacts, AllocError>
        requires { IsLeft self.now.catalog.now (entry_of self.now.job.now)
            self.now.schedule.now.inlining held keys.now }
        ensures { IfOk result (λ full. IsLeft self.now.catalog.now (entry_of self.now.job.now)
            self.now.schedule.now.inlining full []) }
    {
        let mut held = held;
        for key in keys {
            let fact = self.make_fact_of_key_from_held_facts(&held, key)?;
            held.hold_fact(fact)?;
        }
        Ok(held)
    }

    /// The fact of a key, which is made unless memory is refused.
    fn make_fact_of_key_from_held_facts(
        &self,
        held: &HeldFacts,
        key: &Key,
    ) -> Result<Fact, AllocError>
        requires { CanMake self.now.catalog.now held.now self.now.schedule.now.inlining key.now }
        ensures key { IfOk result (λ fact. fact.key ≡ key.now) }
        ensures is_true { IfOk result (IsTrueFact self.now.catalog.now) }
    {
        match held.make(self.catalog, self.schedule, key) {
            Ok(fact) => Ok(fact),
            Err(MakeFault::Memory) => Err(AllocError),
            Err(_) => unreachable!(),
        }
    }

    /// The answer of the job, if all that is held is true, and all that the answer is composed from is held.
    pub fn compose_answer(&self, held: &HeldFacts) -> Result<Answer, AllocError>
        requires { HoldsAnswerOf self.now.catalog.now held.now (entry_of self.now.job.now) }
        ensures answer { IfOk result (IsAnswer (pipeline_in self.now.job.now)) }
        ensures image { IfOk result (λ answer. ForSome answer.picture IsImage) }
    {
        match held.answer(self.job) {
            Ok(answer) => Ok(answer),
            Err(AnswerFault::Memory) => Err(AllocError),
            Err(AnswerFault::Missing(_)) => unreachable!(),
            Err(AnswerFault::Disputed(_)) => unreachable!(),
            Err(AnswerFault::Misshapen(_)) => unreachable!(),
            Err(AnswerFault::Retired) => unreachable!(),
        }
    }
}
