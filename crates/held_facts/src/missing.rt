//! The tiles of a job's answer that a node lacks.

ghost use Rattle.job.specs.Kept.{pipeline_in, program_id_in};
ghost use Rattle.held_facts.specs.HeldAnswers.{missing_keys};
ghost use Rattle.overlap_tiles.specs.Needs.{IsKeyBefore};
ghost use Rattle.std.specs.Prelude.{◌≡◌, AllPairs, IfOk};

use crate::facts::HeldFacts;
use fact_store::FactStore;
use identity::Key;
use job::Job;
use overlap_tiles::list_work_keys_of_results;
use std::alloc::AllocError;

impl<S: FactStore> HeldFacts<S> {
    /// The keys of the tiles of the job's outputs and accumulators of which nothing is held, rising. The program's input is
    /// hashed at most once.
    ///
    /// # Errors
    ///
    /// Fails only where memory is refused.
    pub fn list_missing_keys_of_results(&self, job: &Job) -> Result<Vec<Key>, AllocError>
        ensures missing { IfOk result (λ keys. keys.items
            ≡ missing_keys self.now (program_id_in job.now) (pipeline_in job.now)) }
        ensures rising { IfOk result (λ keys. AllPairs IsKeyBefore keys.items) }
    {
        let mut keys = list_work_keys_of_results(self.alloc, job)?;
        keys.retain(|key| self.count_facts_of_key(key) == 0);
        Ok(keys)
    }
}
