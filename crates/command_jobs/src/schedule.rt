//! The schedule that the options request.

ghost use Rattle.std.specs.Prelude.{◌≡◌, IfOk};
ghost use Rattle.grouping.specs.Inlining.{IsScheduleOf};
ghost use Rattle.tile_boxes.specs.Costs.{AllFitScratch};
ghost use Rattle.job.specs.Kept.{pipeline_in};
ghost use Rattle.command_jobs.specs.RequestedSchedule.{requested_inlining};

use command_line::Options;
use grouping::Schedule;
use job::Job;
use std::alloc::{AllocError, Global};

/// The schedule that stores all functions, or else the greedy one. Each of its tiles fits in scratch memory.
///
/// # Errors
///
/// Fails only where memory is refused.
pub fn make_requested_schedule(
    alloc: Global,
    job: &Job,
    options: &Options,
) -> Result<Schedule, AllocError>
    ensures schedule { IfOk result (IsScheduleOf (pipeline_in job.now)) }
    ensures fits { IfOk result (λ s. AllFitScratch (pipeline_in job.now) s.inlining) }
    ensures inlining { IfOk result (λ s. s.inlining
        ≡ requested_inlining options.now.stored options.now.percent (pipeline_in job.now)) }
{
    if options.stored {
        Schedule::stored(alloc, job)
    } else {
        Schedule::greedy(alloc, job, options.percent.get())
    }
}
