#![tactic(auto)]
//! Plans of rows.

ghost use Rattle.std.specs.Prelude.{◌≡◌, ◌≤◌, All, IfOk, IfSome};
ghost use Rattle.job.specs.Kept.{pipeline_in};
ghost use Rattle.row_plans.specs.Plans.{IsRunnable};
ghost use Rattle.row_plans.specs.Rows.{numbers_kept};

use crate::row_plan_check::is_row_plan_runnable;
use crate::row_planner::RowPlanner;
use crate::row_state::{RowState, are_row_states_at_start, count_numbers_kept_in_row_states};
use crate::stage_rows_read::list_rows_read_of_stages;
use job::Job;
use std::alloc::{AllocError, Global};

/// The most numbers that are kept of all stages together, for all rows of a picture.
pub const MOST_NUMBERS: u64 = 33_554_432;

/// A step of a plan.
#[derive(Clone, Copy, Debug, PartialEq, Eq)]
pub enum PlanStep {
    /// Make the next row of the stage of this number.
    Make(u32),
    /// Output the next row of the picture.
    Output,
}

/// The steps of a plan, and how many rows of each stage are kept for them. Nothing is made yet.
#[derive(Debug, Drop)]
pub struct RowPlan {
    pub steps: Vec<PlanStep>,
    pub states: Vec<RowState>,
}

/// A plan that outputs the rows of the picture from row `first` up to row `end`, excluded. `outputs` are the numbers of its
/// functions; with none it outputs rows of nothing. When a row is output, what the accumulators `summed` read in their rows of the same
/// place is made and kept. No clause says so: who accumulates asks for it. None if no plan is found: if more than `most` numbers would be
/// kept, say.
///
/// # Errors
///
/// Fails only where memory is refused.
pub fn make_row_plan(
    alloc: Global,
    job: &Job,
    outputs: &[usize],
    summed: &[usize],
    first: usize,
    end: usize,
    most: u64,
) -> Result<Option<RowPlan>, AllocError>
    ensures begun { IfOk result (λ found. IfSome found
        (λ plan. All (λ state. state.next ≡ state.first) plan.states.items)) }
    ensures runnable { IfOk result (λ found. IfSome found
        (λ plan. IsRunnable (pipeline_in job.now) outputs.now end first plan.states.items
        plan.steps.items)) }
    ensures few { IfOk result
        (λ found. IfSome found (λ plan. numbers_kept plan.states.items ≤ most)) }
{
    let Some(rows) = list_rows_read_of_stages(alloc, job)? else {
        return Ok(None);
    };
    let planner = RowPlanner::new(alloc, &rows, outputs, summed)?;
    let (plan, repeated) = planner.plan_rows(alloc, first, end)?;
    let Some(numbers) = count_numbers_kept_in_row_states(&plan.states) else {
        return Ok(None);
    };
    if numbers > most
        || !are_row_states_at_start(&plan.states)
        || !is_row_plan_runnable(alloc, job, &rows, &plan, repeated, outputs, first, end)?
    {
        return Ok(None);
    }
    Ok(Some(plan))
}
