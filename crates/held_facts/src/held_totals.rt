//! Totals that are assembled from the partials that a node holds.

ghost use Rattle.accumulators.specs.Answers.{gathered};
ghost use Rattle.accumulators.specs.Gatherings.{gathered_from};
ghost use Rattle.domains.specs.Span.{Ends, len_of};
ghost use Rattle.job.specs.Kept.{pipeline_in, program_id_in};
ghost use Rattle.job.specs.Readers.{stage_bins};
ghost use Rattle.held_facts.specs.HeldAnswers.{held_partials, held_totals, partials_of, AllAreReady, IsReady};
ghost use Rattle.held_facts.specs.inside.Gathering.{CameIn, row_partials};
ghost use Rattle.held_facts.specs.inside.Judging.{RowIsReady, StageIsReady};
ghost use Rattle.std.specs.Prelude.{◌≡◌, ◌<◌, ◌++◌, ◌∷◌, [], Some, length, map, slice_get, IfNone, IfOk, IfSome, OnOk};

use crate::held::HeldJobFacts;
use accumulators::{RunningTotal, Total};
use fact_store::FactStore;
use identity::Key;
use std::alloc::{AllocError, Global};
use tile_fact::Body;

impl<S: FactStore> HeldJobFacts<'_, S> {
    /// What the accumulators accumulate from the partials that are held, in the order of the stages.
    ///
    /// # Errors
    ///
    /// Fails only where memory is refused.
    #[tactic(auto, using(tile_boxes::proofs::Lists::flat_map_range_more))]
    pub(crate) fn accumulate_totals(&self, alloc: Global) -> Result<Vec<Total>, AllocError>
        requires { AllAreReady self.now.state.now (program_id_in self.now.job.now)
            (pipeline_in self.now.job.now) }
        ensures { IfOk result (λ totals. map gathered totals.items
            ≡ held_totals self.now.state.now (program_id_in self.now.job.now)
            (pipeline_in self.now.job.now)) }
    {
        let mut totals = Vec::new(alloc);
        for stage in 0..self.job.stages().len() {
            self.push_total_if_accumulator_stage(&mut totals, alloc, stage)?;
        }
        Ok(totals)
    }

    // Adds what a stage accumulates, if it is an accumulator.
    fn push_total_if_accumulator_stage(
        &self,
        totals: &mut Vec<Total>,
        alloc: Global,
        stage: usize,
    ) -> Result<(), AllocError>
        requires { AllAreReady self.now.state.now (program_id_in self.now.job.now)
            (pipeline_in self.now.job.now) }
        ensures { OnOk result (map gathered totals.new.items
            ≡ map gathered totals.old.items
            ++ gathered_from (pipeline_in self.now.job.now) stage
            (held_partials self.now.state.now (program_id_in self.now.job.now)
            (pipeline_in self.now.job.now) stage)) }
    {
        if let Some(mut gathering) = RunningTotal::from_job(alloc, self.job, stage)? {
            self.accumulate_stage_partials(stage, &mut gathering);
            totals.push(gathering.into_total())?;
        }
        Ok(())
    }

    // Accumulates the partials of all tiles of a stage.
    fn accumulate_stage_partials(&self, stage: usize, gathering: &mut RunningTotal)
        requires span { stage_bins (slice_get (pipeline_in self.now.job.now).stages stage)
            ≡ Some gathering.old.span }
        requires ready { StageIsReady self.now.state.now (program_id_in self.now.job.now)
            (pipeline_in self.now.job.now) stage }
        ensures { CameIn (pipeline_in self.now.job.now) stage
            (held_partials self.now.state.now (program_id_in self.now.job.now)
            (pipeline_in self.now.job.now) stage) gathering.old gathering.new }
    {
        if let Some(grid) = self.job.grid(stage) {
            for row in 0..grid.tile_rows() {
                self.accumulate_row_partials(stage, row, grid.tile_cols(), gathering);
            }
        }
    }

    // Those of the first tiles of a row.
    fn accumulate_row_partials(
        &self,
        stage: usize,
        row: u32,
        cols: u32,
        gathering: &mut RunningTotal,
    )
        requires stage { stage < 65536 }
        requires span { stage_bins (slice_get (pipeline_in self.now.job.now).stages stage)
            ≡ Some gathering.old.span }
        requires ready { RowIsReady self.now.state.now (program_id_in self.now.job.now)
            (pipeline_in self.now.job.now) stage cols row }
        ensures { CameIn (pipeline_in self.now.job.now) stage
            (row_partials self.now.state.now (program_id_in self.now.job.now)
            (pipeline_in self.now.job.now) stage cols row) gathering.old gathering.new }
    {
        for col in 0..cols {
            if let Some(bins) = self.find_partial_bins(&self.build_held_tile_key(stage, row, col)) {
                gathering.join_partial(bins);
            }
        }
    }

    // The bins of the one fact that is held of a key, if it is a partial.
    fn find_partial_bins(&self, key: &Key) -> Option<&[i64]>
        requires { IsReady self.now.state.now (pipeline_in self.now.job.now) key.now }
        ensures some { IfSome result
            (λ bins. partials_of self.now.state.now key.now ≡ bins.now ∷ []) }
        ensures none { IfNone result (partials_of self.now.state.now key.now ≡ []) }
        ensures count { IfSome result (λ bins. (span : Ends)
            → stage_bins (slice_get (pipeline_in self.now.job.now).stages key.now.stage) ≡ Some span
            → length bins.now ≡ len_of span) }
    {
        match self.state.find_nth_fact_of_key(key, 0)?.body() {
            Body::Partial(bins) => Some(bins.as_slice()),
            Body::Tile(_) => None,
        }
    }
}
