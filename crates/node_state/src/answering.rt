//! What a node answers for a job, and which facts it lacks for that.

ghost use Rattle.held_facts.specs.HeldAnswers.{missing_keys};
ghost use Rattle.job.specs.Kept.{pipeline_in, program_id_in};
ghost use Rattle.netpbm.specs.Image.{IsImage};
ghost use Rattle.node_state.specs.HeldAnswers.{IsAnswerFault, IsHeldAnswer};
ghost use Rattle.overlap_tiles.specs.Needs.{IsKeyBefore};
ghost use Rattle.std.specs.Option.{ForSome};
ghost use Rattle.std.specs.Prelude.{◌≡◌, AllPairs, IfErr, IfOk};

use crate::state::NodeState;
use accumulators::Answer;
use catalog::compute_catalog_job_ids;
use fact_store::FactStore;
use held_facts::AnswerFault;
use identity::Key;
use job::Job;
use std::alloc::AllocError;

impl<S: FactStore> NodeState<S> {
    /// The keys of the tiles of the job's outputs and accumulators of which no fact is held, rising: all of them, if the job is
    /// retired. The job's input is hashed at most once.
    ///
    /// # Errors
    ///
    /// Fails only where memory is refused.
    pub fn missing(&self, job: &Job) -> Result<Vec<Key>, AllocError>
        ensures missing { IfOk result (λ keys. keys.items
            ≡ missing_keys self.now.facts (program_id_in job.now) (pipeline_in job.now)) }
        ensures rising { IfOk result (λ keys. AllPairs IsKeyBefore keys.items) }
    {
        self.held.list_missing_keys_of_results(job)
    }

    /// The answer of a job by the held facts of its outputs and accumulators, whether these are true or not. The picture has
    /// their numbers, each clamped to 0 and the greatest sample. Each bin of an accumulator has its partials' numbers there,
    /// joined.
    ///
    /// # Errors
    ///
    /// Fails where the job is retired. Fails at the least wanted key of which not exactly one fact is held, or one that does not
    /// fit the tile, before memory is allocated. Fails where memory is refused.
    pub fn answer(&self, job: &Job) -> Result<Answer, AnswerFault>
        ensures answer { IfOk result
            (IsHeldAnswer self.now (program_id_in job.now) (pipeline_in job.now)) }
        ensures image { IfOk result (λ answer. ForSome answer.picture IsImage) }
        ensures fault { IfErr result
            (IsAnswerFault self.now (program_id_in job.now) (pipeline_in job.now)) }
    {
        if self.has_retired_job(&compute_catalog_job_ids(job)) {
            return Err(AnswerFault::Retired);
        }
        self.held.answer(job)
    }
}
