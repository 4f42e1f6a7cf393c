//! What a job answers, by tiles.

ghost use Rattle.std.specs.Prelude.{◌≡◌, IfOk};
ghost use Rattle.command_jobs.specs.Results.{result_bytes};
ghost use Rattle.command_outcomes.specs.Replies.{reply_bytes};
ghost use Rattle.job.specs.Kept.{pipeline_in};

use command_jobs::{make_requested_schedule, make_result_reply};
use command_line::Options;
use command_outcomes::JobReply;
use job::Job;
use std::alloc::AllocError;
use std::thread::Threads;
use tile_run::RunFault;

/// The result of a job: the picture of its output, if it has one, and a line for each of its accumulators. Each tile by which it is
/// computed fits into scratch memory.
///
/// # Errors
///
/// Fails only where memory is refused.
pub fn compute_eval_reply(
    rt: &(impl AllocGlobal + Threads + Sync),
    job: &Job,
    options: &Options,
) -> Result<JobReply, AllocError>
    ensures { IfOk result (λ reply. reply_bytes reply ≡ result_bytes (pipeline_in job.now)) }
{
    let schedule = make_requested_schedule(rt.alloc(), job, options)?;
    match accumulators::evaluate_job(rt, rt.alloc(), job, &schedule) {
        Ok(answer) => make_result_reply(rt.alloc(), job, answer),
        Err(RunFault::Memory) => Err(AllocError),
        Err(RunFault::ScratchTooBig(_)) => unreachable!(),
    }
}
