//! The answer of a job from what a node holds.

ghost use Rattle.job.specs.Kept.{pipeline_in, program_id_in};
ghost use Rattle.netpbm.specs.Image.{IsImage};
ghost use Rattle.held_facts.specs.HeldAnswers.{IsAnswerFault, IsHeldAnswer};
ghost use Rattle.std.specs.Option.{ForSome};
ghost use Rattle.std.specs.Prelude.{IfErr, IfOk};

use crate::answer_fault::AnswerFault;
use crate::facts::HeldFacts;
use crate::held::HeldJobFacts;
use accumulators::Answer;
use fact_store::FactStore;
use job::Job;
use pictures::assemble_image;

impl<S: FactStore> HeldFacts<S> {
    /// The answer of a job from the facts that are held of its outputs and accumulators, true or not. The picture has the
    /// numbers, each clamped to 0 and the greatest sample. Each bin of an accumulator has what its partials have there, joined.
    /// The program's input is hashed at most once.
    ///
    /// # Errors
    ///
    /// Fails at the least wanted key of which not exactly one fact is held, or one that does not fit the tile. This is found
    /// before memory is taken. Also fails where memory is refused.
    pub fn answer(&self, job: &Job) -> Result<Answer, AnswerFault>
        ensures answer { IfOk result
            (IsHeldAnswer self.now (program_id_in job.now) (pipeline_in job.now)) }
        ensures image { IfOk result (λ answer. ForSome answer.picture IsImage) }
        ensures fault { IfErr result
            (IsAnswerFault self.now (program_id_in job.now) (pipeline_in job.now)) }
    {
        let held = HeldJobFacts::new(self, job);
        held.check_facts_of_wanted_tiles()?;
        let picture = assemble_image(self.alloc, job, &held)?;
        let totals = held.accumulate_totals(self.alloc)?;
        Ok(Answer { picture, totals })
    }
}
