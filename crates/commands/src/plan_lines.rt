//! What a schedule does with the functions and accumulators of a job, as lines.

ghost use Rattle.std.specs.Prelude.{◌≡◌, ◌++◌, ◌<◌, IfOk, OnOk, length};
ghost use Rattle.job.specs.Kept.{pipeline_in};
ghost use Rattle.tile_boxes.specs.Costs.{cost};
ghost use Rattle.grouping.specs.Inlining.{IsScheduleOf};
ghost use Rattle.commands.specs.Planning.{plan_bytes, plan_line, plan_line_at};

use grouping::Schedule;
use job::{Job, StageKind};
use pipe_tokens::Name;
use std::alloc::{AllocError, Global};

/// A line for each function and each accumulator, in the order of the stages.
pub fn make_plan_lines(alloc: Global, job: &Job, schedule: &Schedule) -> Result<Vec<u8>, AllocError>
    requires { IsScheduleOf (pipeline_in job.now) schedule.now }
    ensures { IfOk result
        (λ lines. lines.items ≡ plan_bytes (pipeline_in job.now) schedule.now.inlining) }
{
    let mut lines = Vec::new(alloc);
    for number in 0..job.stages().len() {
        put_plan_line_of_stage_unless_plane(alloc, &mut lines, job, schedule, number)?;
    }
    Ok(lines)
}

/// The line of the stage of this number, if it has tiles.
fn put_plan_line_of_stage_unless_plane(
    alloc: Global,
    lines: &mut Vec<u8>,
    job: &Job,
    schedule: &Schedule,
    number: usize,
) -> Result<(), AllocError>
    requires schedule { IsScheduleOf (pipeline_in job.now) schedule.now }
    requires there { number < length (pipeline_in job.now).stages }
    ensures { OnOk result (lines.new.items
        ≡ lines.old.items ++ plan_line_at (pipeline_in job.now) schedule.now.inlining number) }
{
    match (job.kind(number), job.name(number)) {
        (Some(StageKind::Function | StageKind::Accumulator), Some(name)) => {
            put_plan_line_of_name_and_cost(
                alloc,
                lines,
                &name,
                find_plan_line_cost_of_stage(job, schedule, number),
            )
        }
        _ => Ok(()),
    }
}

/// What the stage of this number costs by the schedule.
fn find_plan_line_cost_of_stage(job: &Job, schedule: &Schedule, number: usize) -> Option<u64>
    requires schedule { IsScheduleOf (pipeline_in job.now) schedule.now }
    requires there { number < length (pipeline_in job.now).stages }
    ensures { result ≡ cost (pipeline_in job.now) schedule.now.inlining number }
{
    schedule.cost(number)
}

fn put_plan_line_of_name_and_cost(
    alloc: Global,
    lines: &mut Vec<u8>,
    name: &Name,
    cost: Option<u64>,
) -> Result<(), AllocError>
    ensures { OnOk result (lines.new.items ≡ lines.old.items ++ plan_line name.now cost) }
{
    match cost {
        Some(points) => {
            lines.extend_from_slice(b"stored ")?;
            lines.extend_from_slice(name.as_bytes())?;
            let cost = format!(in alloc; " cost {points}\n")?;
            lines.extend_from_slice(cost.as_bytes())?;
        }
        None => {
            lines.extend_from_slice(b"inlined ")?;
            lines.extend_from_slice(name.as_bytes())?;
            lines.push(b'\n')?;
        }
    }
    Ok(())
}
