#![tactic(auto)]
//! The capacity that the operands of formulas need.

ghost use Rattle.std.specs.Prelude.{◌≡◌, map, length};
ghost use Rattle.job.specs.Kept.{pipeline_in};
ghost use Rattle.overlap_tiles.specs.Views.{step_view};
ghost use Rattle.tile_eval.specs.Counted.{IsLeast};
ghost use Rattle.one_tile.specs.inside.Steps.{HasStepRoom, HasStepsRoom};

use crate::steps::find_tile_step_function;
use job::Job;
use overlap_tiles::TileStep;
use tile_eval::compute_operand_capacity_of_function;

// The least capacity for the operands of a step, if that many numbers can be counted; 0 for a stage that is no function.
fn compute_operand_capacity_of_tile_step(job: &Job, step: &TileStep) -> Option<usize>
    ensures { IsLeast (HasStepRoom (pipeline_in job.now) (step_view step.now)) result }
{
    match find_tile_step_function(job, step.stage) {
        Some(function) => compute_operand_capacity_of_function(
            function,
            step.area.cols.len() as usize,
        ),
        None => Some(0),
    }
}

/// The least capacity for the operands of each of these steps, if that many numbers can be counted.
pub(crate) fn find_greatest_tile_operand_capacity(job: &Job, steps: &[TileStep]) -> Option<usize>
    ensures { IsLeast (HasStepsRoom (pipeline_in job.now) (map step_view steps.now)) result }
{
    let mut room = 0;
    for step in steps {
        room = compute_operand_capacity_of_tile_step(job, step)?.max(room);
    }
    Some(room)
}
