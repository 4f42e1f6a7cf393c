//! The result of a job, by its answer.

ghost use Rattle.std.specs.Prelude.{◌≡◌, IfOk};
ghost use Rattle.accumulators.specs.Answers.{IsAnswer};
ghost use Rattle.job.specs.Kept.{pipeline_in};
ghost use Rattle.command_outcomes.specs.Replies.{reply_bytes};
ghost use Rattle.command_jobs.specs.Results.{result_bytes};

use crate::totals::make_total_lines;
use accumulators::Answer;
use command_outcomes::JobReply;
use job::Job;
use std::alloc::{AllocError, Global};

/// The result of a job with this answer: the picture of its output, if it has one, and a line for each of its accumulators.
pub fn make_result_reply(alloc: Global, job: &Job, answer: Answer) -> Result<JobReply, AllocError>
    requires { IsAnswer (pipeline_in job.now) answer }
    ensures { IfOk result (λ reply. reply_bytes reply ≡ result_bytes (pipeline_in job.now)) }
{
    let Answer { picture, totals } = answer;
    let lines = make_total_lines(alloc, job, totals.as_slice())?;
    Ok(JobReply { picture, lines })
}
