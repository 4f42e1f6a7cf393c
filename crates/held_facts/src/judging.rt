//! Whether all tiles that the answer of a job takes are ready.

ghost use Rattle.job.specs.Kept.{pipeline_in, program_id_in};
ghost use Rattle.held_facts.specs.Answers.{known_of};
ghost use Rattle.held_facts.specs.HeldAnswers.{AllAreReady, IsAnswerFault, IsReady};
ghost use Rattle.held_facts.specs.declared.answers.Known.TheVariants.{One};
ghost use Rattle.held_facts.specs.inside.Judging.{IsFaultAt, RowIsReady, RowHasFault, StageIsReady, StageHasFault};
ghost use Rattle.std.specs.Prelude.{◌≡◌, ◌<◌, OnOk, IfErr};

use crate::answer_fault::AnswerFault;
use crate::answers::Known;
use crate::held::HeldJobFacts;
use fact_audit::is_well_shaped_fact;
use fact_store::FactStore;
use identity::Key;

impl<S: FactStore> HeldJobFacts<'_, S> {
    /// Whether each wanted key is ready; if not, the fault of the least that is not. No memory is taken.
    pub(crate) fn check_facts_of_wanted_tiles(&self) -> Result<(), AnswerFault>
        ensures ready { OnOk result (AllAreReady self.now.state.now
            (program_id_in self.now.job.now) (pipeline_in self.now.job.now)) }
        ensures fault { IfErr result (IsAnswerFault self.now.state.now
            (program_id_in self.now.job.now) (pipeline_in self.now.job.now)) }
    {
        for stage in 0..self.job.stages().len() {
            if self.job.is_result(stage) {
                self.check_facts_of_stage_tiles(stage)?;
            }
        }
        Ok(())
    }

    // The tiles of a stage, if it has any.
    fn check_facts_of_stage_tiles(&self, stage: usize) -> Result<(), AnswerFault>
        ensures ready { OnOk result (StageIsReady self.now.state.now
            (program_id_in self.now.job.now) (pipeline_in self.now.job.now) stage) }
        ensures fault { IfErr result (λ fault. StageHasFault self.now.state.now
            (program_id_in self.now.job.now) (pipeline_in self.now.job.now) fault stage) }
    {
        if let Some(grid) = self.job.grid(stage) {
            for row in 0..grid.tile_rows() {
                self.check_facts_of_row_tiles(stage, row, grid.tile_cols())?;
            }
        }
        Ok(())
    }

    // The first tiles of a row.
    fn check_facts_of_row_tiles(&self, stage: usize, row: u32, cols: u32) -> Result<(), AnswerFault>
        requires { stage < 65536 }
        ensures ready { OnOk result (RowIsReady self.now.state.now
            (program_id_in self.now.job.now) (pipeline_in self.now.job.now) stage cols row) }
        ensures fault { IfErr result (λ fault. RowHasFault self.now.state.now
            (program_id_in self.now.job.now) (pipeline_in self.now.job.now) stage cols fault row) }
    {
        for col in 0..cols {
            self.check_fact_of_tile(&self.build_held_tile_key(stage, row, col))?;
        }
        Ok(())
    }

    // One tile.
    fn check_fact_of_tile(&self, key: &Key) -> Result<(), AnswerFault>
        ensures ready { OnOk result
            (IsReady self.now.state.now (pipeline_in self.now.job.now) key.now) }
        ensures fault { IfErr result
            (IsFaultAt self.now.state.now (pipeline_in self.now.job.now) key.now) }
    {
        match self.state.classify_fact_count_of_key(key) {
            Known::Nothing => Err(AnswerFault::Missing(*key)),
            Known::One => self.check_shape_of_held_fact(key),
            Known::Disputed => Err(AnswerFault::Disputed(*key)),
            Known::Retired => unreachable!(),
        }
    }

    // One tile of which one fact is held.
    fn check_shape_of_held_fact(&self, key: &Key) -> Result<(), AnswerFault>
        requires { known_of self.now.state.now key.now ≡ One }
        ensures ready { OnOk result
            (IsReady self.now.state.now (pipeline_in self.now.job.now) key.now) }
        ensures fault { IfErr result
            (IsFaultAt self.now.state.now (pipeline_in self.now.job.now) key.now) }
    {
        match self.state.find_nth_fact_of_key(key, 0) {
            Some(fact) if is_well_shaped_fact(self.job, fact) => Ok(()),
            _ => Err(AnswerFault::Misshapen(*key)),
        }
    }
}
