#![tactic(auto)]
//! The steps of a plan, taken from one row to the next.

ghost use Rattle.std.specs.Prelude.{◌≡◌, ◌<◌, ◌≤◌, ◌+◌, drop, slice_get, Some, All, IfOk, IfSome};
ghost use Rattle.std.proofs.Props.{props};
ghost use Rattle.job.specs.Kept.{pipeline_in};
ghost use Rattle.row_plans.specs.Plans.{IsOutputKept, IsRunnable};
ghost use Rattle.row_plans.specs.Rows.{numbers_kept};
ghost use Rattle.row_rings.specs.Rings.{states_in, IsOutputForm};
ghost use Rattle.row_streams.specs.Once.{IsRunnable-prop};

use job::Job;
use ring_inputs::add_ring_inputs_to_totals;
use row_plans::{PlanStep, make_row_plan};
use row_rings::JobRings;
use row_totals::RowTotals;
use std::alloc::{AllocError, Global};

/// The steps of a plan that are not yet taken, up to before a row, and the rings whose rows they make.
#[derive(Drop)]
pub(crate) struct RowStreamSteps<'a> {
    pub(crate) job: &'a Job,
    // The functions whose rows are output, if any are.
    pub(crate) outputs: &'a [usize],
    pub(crate) rings: JobRings<'a>,
    pub(crate) steps: Vec<PlanStep>,
    // The next step.
    pub(crate) at: usize,
    // The next row.
    pub(crate) row: usize,
    // The row before which the steps end.
    pub(crate) end: usize,
    ghost own: { rings.job.now ≡ job.now },
    ghost formed_rings: { All (IsOutputForm rings) outputs.now } by { Prim.hlevel props },
    ghost runnable: { IsRunnable (pipeline_in job.now) outputs.now end row (states_in rings)
        (drop at steps.items) } by { IsRunnable-prop (pipeline_in job.now) outputs.now end row
            (states_in rings) (drop at steps.items) },
}

impl<'a> RowStreamSteps<'a> {
    /// The steps for rows of these outputs from row `first` up to before row `end`, and for those that the accumulators `summed` read
    /// along with them. None if no plan is found that keeps at most `most` numbers.
    ///
    /// # Errors
    ///
    /// Fails only where memory is refused.
    pub(crate) fn new(
        alloc: Global,
        job: &'a Job,
        outputs: &'a [usize],
        summed: &[usize],
        first: usize,
        end: usize,
        most: u64,
    ) -> Result<Option<RowStreamSteps<'a>>, AllocError>
        ensures job { IfOk result (λ found. IfSome found (λ steps. steps.job.now ≡ job.now)) }
        ensures outputs { IfOk result
            (λ found. IfSome found (λ steps. steps.outputs.now ≡ outputs.now)) }
        ensures row { IfOk result (λ found. IfSome found (λ steps. steps.row ≡ first)) }
        ensures end { IfOk result (λ found. IfSome found (λ steps. steps.end ≡ end)) }
        ensures few { IfOk result
            (λ found. IfSome found (λ steps. numbers_kept (states_in steps.rings) ≤ most)) }
    {
        let Some(plan) = make_row_plan(alloc, job, outputs, summed, first, end, most)? else {
            return Ok(None);
        };
        let rings = JobRings::new(alloc, job, &plan.states, outputs, summed)?;
        Ok(Some(RowStreamSteps {
            job,
            outputs,
            rings,
            steps: plan.steps,
            at: 0,
            row: first,
            end,
        }))
    }

    /// Makes the rows of stages that are made before the next row is given.
    pub(crate) fn make_rows_before_next_streamed_row(&mut self)
        requires { self.old.row < self.old.end }
        ensures next { slice_get self.new.steps.items self.new.at ≡ Some PlanStep.Output }
        ensures row { self.new.row ≡ self.old.row }
        ensures job { self.new.job ≡ self.old.job }
        ensures outputs { self.new.outputs ≡ self.old.outputs }
        ensures end { self.new.end ≡ self.old.end }
    {
        while let PlanStep::Make(stage) = self.steps[self.at] {
            self.rings.make_next_ring_row(stage as usize);
            self.at += 1;
        }
    }

    /// Goes on behind the next row, once it is given.
    pub(crate) fn pass_next_streamed_row(&mut self)
        requires left { self.old.row < self.old.end }
        requires next { slice_get self.old.steps.items self.old.at ≡ Some PlanStep.Output }
        ensures row { self.new.row ≡ self.old.row + 1 }
        ensures job { self.new.job ≡ self.old.job }
        ensures outputs { self.new.outputs ≡ self.old.outputs }
        ensures end { self.new.end ≡ self.old.end }
    {
        self.at += 1;
        self.row += 1;
    }

    /// Accumulates the next rows of each of these accumulators, of those before row `end` whose reads are all there since the last row was
    /// given.
    ///
    /// # Errors
    ///
    /// Fails only where memory is refused.
    pub(crate) fn add_streamed_row_to_totals(
        &self,
        totals: &mut RowTotals<'_>,
    ) -> Result<(), AllocError>
        requires { totals.old.job.now ≡ self.now.job.now }
        ensures { totals.new.job ≡ totals.old.job }
    {
        add_ring_inputs_to_totals(&self.rings, self.end, totals)
    }

    /// Takes all steps that are left, and accumulates rows of each of these accumulators with each row.
    ///
    /// # Errors
    ///
    /// Fails only where memory is refused.
    pub(crate) fn add_all_streamed_rows_to_totals(
        &mut self,
        totals: &mut RowTotals<'_>,
    ) -> Result<(), AllocError>
        requires { totals.old.job.now ≡ self.old.job.now }
        ensures { totals.new.job ≡ totals.old.job }
    {
        while self.row < self.end {
            self.make_rows_before_next_streamed_row();
            self.pass_next_streamed_row();
            self.add_streamed_row_to_totals(totals)?;
        }
        Ok(())
    }
}
