#![tactic(auto)]
//! Checks of plans: whether each row is made of rows that are kept, and no row is output that is not kept.

ghost use Rattle.std.specs.Prelude.{◌≡◌, ◌+◌, ◌*◌, ◌<◌, ℕ, true, List, All, IfOk, IfSome, Some, length, slice_get, slice_set, ◌∷◌, []};
ghost use Rattle.job.specs.Kept.{pipeline_in};
ghost use Rattle.row_plans.specs.Plans.{IsRunnable, states_after};
ghost use Rattle.row_plans.specs.Checks.{AreStagesRead, AreStatesOf};
ghost use Rattle.row_plans.specs.Leads.{CanMakeRow, IsOutputRowKept, IsTaken, IsTakenThrough};
ghost use Rattle.row_plans.specs.Windows.{AreWindowsOf};
ghost use Rattle.row_plans.specs.declared.plan.PlanStep.{PlanStep};
ghost use Rattle.row_plans.specs.declared.row_state.RowState.{RowState};

use crate::plan::{PlanStep, RowPlan};
use crate::repeated_plan_steps::{RepeatedPlanSteps, count_repeated_plan_steps};
use crate::row_state::RowState;
use crate::row_state_repeats::list_repeated_row_state_windows;
use crate::row_state_window::RowStateWindow;
use crate::row_state_windows::list_row_state_windows;
use crate::stage_rows_read::StageRowsRead;
use job::Job;
use std::alloc::{AllocError, Global};

impl<'a> StageRowsRead<'a> {
    // Whether a state has the stage's domain.
    fn has_area_of_row_state(&self, state: &RowState) -> bool
        ensures { result ≡ true → state.now.area ≡ self.now.stage.now.domain }
    {
        state.has_area(&self.area())
    }
}

// Takes the step that makes the next row of a stage, and returns whether the row can be made.
#[inline]
fn take_plan_step_of_stage(
    rows: &[StageRowsRead],
    windows: &mut [RowStateWindow],
    stage: usize,
) -> bool
    ensures { result ≡ true → (states : List RowState) → AreWindowsOf states windows.old
        → CanMakeRow rows.now states stage × AreWindowsOf (states_after states stage) windows.new }
{
    let (Some(read), Some(window)) = (rows.get(stage), windows.get(stage)) else {
        return false;
    };
    if !read.has_planned_rows()
        || !window.has_next_row()
        || !read.are_rows_read_kept(windows, stage, window.next())
    {
        return false;
    }
    windows[stage] = window.make_next_row();
    true
}

// Whether a row of the picture is kept in a plane.
fn is_planned_row_kept_for_output(windows: &[RowStateWindow], row: usize, output: usize) -> bool
    ensures { result ≡ true → (states : List RowState) → AreWindowsOf states windows.now
        → IsOutputRowKept states row output }
{
    match windows.get(output) {
        Some(window) => window.keeps_row_of_place(row),
        None => false,
    }
}

// Whether a row of the picture is kept in all its planes.
fn is_planned_row_kept_for_all_outputs(
    windows: &[RowStateWindow],
    row: usize,
    outputs: &[usize],
) -> bool
    ensures { result ≡ true → (states : List RowState) → AreWindowsOf states windows.now
        → All (IsOutputRowKept states row) outputs.now }
{
    for output in outputs {
        if !is_planned_row_kept_for_output(windows, row, *output) {
            return false;
        }
    }
    true
}

// Whether each state has the domain of the stage of its number.
fn are_row_states_of_stages(rows: &[StageRowsRead], states: &[RowState]) -> bool
    ensures { result ≡ true → AreStatesOf rows.now states.now }
{
    if rows.len() != states.len() {
        return false;
    }
    for stage in 0..rows.len() {
        if !rows[stage].has_area_of_row_state(&states[stage]) {
            return false;
        }
    }
    true
}

// Takes a step of a plan, and returns the next row of the picture. None if the step cannot be taken.
fn take_plan_step(
    rows: &[StageRowsRead],
    windows: &mut [RowStateWindow],
    step: PlanStep,
    outputs: &[usize],
    row: usize,
    end: usize,
) -> Option<usize>
    ensures { IfSome result (λ next. (states : List RowState) → AreWindowsOf states windows.old
        → IsTaken rows.now outputs.now row states (step ∷ []) next windows.new) }
{
    match step {
        PlanStep::Make(stage) => {
            if take_plan_step_of_stage(rows, windows, stage as usize) {
                Some(row)
            } else {
                None
            }
        }
        PlanStep::Output => {
            if row < end && is_planned_row_kept_for_all_outputs(windows, row, outputs) {
                Some(row + 1)
            } else {
                None
            }
        }
    }
}

// Takes steps of a plan one after the other, and returns the next row of the picture. None if one of them cannot be taken.
fn take_plan_steps(
    rows: &[StageRowsRead],
    windows: &mut [RowStateWindow],
    steps: &[PlanStep],
    outputs: &[usize],
    row: usize,
    end: usize,
) -> Option<usize>
    ensures { IfSome result (λ next. (states : List RowState) → AreWindowsOf states windows.old
        → IsTaken rows.now outputs.now row states steps.now next windows.new) }
{
    let mut next = row;
    for step in steps {
        match take_plan_step(rows, windows, *step, outputs, next, end) {
            Some(after) => next = after,
            None => return None,
        }
    }
    Some(next)
}

// The row of the picture after more periods of as many rows as lie between two others. None if there is no such number.
fn find_row_after_planned_repeats(row: usize, next: usize, times: usize) -> Option<usize>
    ensures { IfSome result (λ after. (r : ℕ) → next ≡ row + r → after ≡ next + times * r) }
{
    next.checked_add(times.checked_mul(next.checked_sub(row)?)?)
}

// Takes steps of a plan that begin with a period. Copies of it are not taken step by step, if all that is read moves with the rows.
fn take_repeated_plan_steps(
    alloc: Global,
    rows: &[StageRowsRead],
    windows: &mut [RowStateWindow],
    steps: &[PlanStep],
    count: usize,
    outputs: &[usize],
    row: usize,
    end: usize,
) -> Result<Option<usize>, AllocError>
    ensures { IfOk result (λ found. IfSome found (λ next. (states : List RowState)
        → length states ≡ length windows.old → AreWindowsOf states windows.old
        → IsTakenThrough rows.now outputs.now row states steps.now next)) }
{
    let (period, rest) = steps.split_at(count.min(steps.len()));
    let begun = windows.to_vec(alloc)?;
    let Some(next) = take_plan_steps(rows, windows, period, outputs, row, end) else {
        return Ok(None);
    };
    let (times, left) = count_repeated_plan_steps(period, rest);
    let moved = list_repeated_row_state_windows(
        alloc,
        rows,
        &begun,
        windows,
        outputs,
        next.saturating_sub(row),
        times,
    )?;
    if let (Some(mut moved), Some(after)) = (
        moved,
        find_row_after_planned_repeats(row, next, times),
    ) {
        return Ok(take_plan_steps(rows, &mut moved, left, outputs, after, end));
    }
    Ok(take_plan_steps(rows, windows, rest, outputs, next, end))
}

// Takes all steps of a plan.
fn take_all_plan_steps(
    alloc: Global,
    rows: &[StageRowsRead],
    windows: &mut [RowStateWindow],
    steps: &[PlanStep],
    repeated: RepeatedPlanSteps,
    outputs: &[usize],
    row: usize,
    end: usize,
) -> Result<Option<usize>, AllocError>
    ensures { IfOk result (λ found. IfSome found (λ next. (states : List RowState)
        → length states ≡ length windows.old → AreWindowsOf states windows.old
        → IsTakenThrough rows.now outputs.now row states steps.now next)) }
{
    let (before, rest) = steps.split_at(repeated.before.min(steps.len()));
    match take_plan_steps(rows, windows, before, outputs, row, end) {
        Some(next) => {
            take_repeated_plan_steps(
                alloc,
                rows,
                windows,
                rest,
                repeated.count,
                outputs,
                next,
                end,
            )
        }
        None => Ok(None),
    }
}

/// Whether the steps of a plan can be taken one after the other, from row `first` of the picture up to before row `end`.
///
/// # Errors
///
/// Fails only where memory is refused.
pub(crate) fn is_row_plan_runnable(
    alloc: Global,
    job: &Job,
    rows: &[StageRowsRead],
    plan: &RowPlan,
    repeated: RepeatedPlanSteps,
    outputs: &[usize],
    first: usize,
    end: usize,
) -> Result<bool, AllocError>
    requires { AreStagesRead (pipeline_in job.now) rows.now }
    ensures { IfOk result (λ runs. runs ≡ true → IsRunnable (pipeline_in job.now) outputs.now end first
        plan.now.states.items plan.now.steps.items) }
{
    if !are_row_states_of_stages(rows, &plan.states) {
        return Ok(false);
    }
    let Some(mut windows) = list_row_state_windows(alloc, &plan.states)? else {
        return Ok(false);
    };
    match take_all_plan_steps(
        alloc,
        rows,
        &mut windows,
        &plan.steps,
        repeated,
        outputs,
        first,
        end,
    )? {
        Some(row) => Ok(row == end),
        None => Ok(false),
    }
}
