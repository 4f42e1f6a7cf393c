//! What is to be written about a job.

ghost use Rattle.std.specs.Prelude.{◌≡◌, IfOk, List};
ghost use Rattle.job.specs.Kept.{pipeline_in, program_text_in};
ghost use Rattle.pipe_print.specs.Canonical.{canonical};
ghost use Rattle.pipe_tree.specs.Tree.{Declaration};
ghost use Rattle.commands.specs.Planning.{IsPlan};
ghost use Rattle.command_jobs.specs.RequestedSchedule.{requested_inlining};
ghost use Rattle.command_outcomes.specs.Replies.{reply_bytes};
ghost use Rattle.commands.specs.inside.Questions.{saying_of};

use crate::answer::compute_eval_reply;
use crate::plan_lines::make_plan_lines;
use crate::question::JobQuestion;
use crate::stage_lines::make_check_lines;
use command_jobs::make_requested_schedule;
use command_line::Options;
use command_outcomes::JobReply;
use job::Job;
use std::alloc::{AllocError, Global};
use std::thread::Threads;

/// The reply to a question about the job.
pub fn compute_eval_check_or_plan_reply(
    rt: &(impl AllocGlobal + Threads + Sync),
    question: JobQuestion,
    options: &Options,
    job: Job,
) -> Result<JobReply, AllocError>
    ensures { IfOk result (λ reply. (tree : List Declaration)
        → program_text_in job ≡ canonical tree
        → saying_of question options.now.stored options.now.percent tree (pipeline_in job)
        (reply_bytes reply)) }
{
    let alloc = rt.alloc();
    match question {
        JobQuestion::Answer => compute_eval_reply(rt, &job, options),
        JobQuestion::Stages => Ok(JobReply::from_lines(make_check_lines(alloc, &job)?)),
        JobQuestion::Plan => Ok(JobReply::from_lines(make_requested_plan_lines(
            alloc, options, &job,
        )?)),
    }
}

/// The lines of the schedule that the options request.
fn make_requested_plan_lines(
    alloc: Global,
    options: &Options,
    job: &Job,
) -> Result<Vec<u8>, AllocError>
    ensures { let job = pipeline_in job.now in
        IfOk result (λ lines. IsPlan job (requested_inlining options.now.stored options.now.percent job)
        lines.items) }
{
    let schedule = make_requested_schedule(alloc, job, options)?;
    make_plan_lines(alloc, job, &schedule)
}
