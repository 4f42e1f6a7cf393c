//! The job by which a question is answered.

ghost use Rattle.std.specs.Prelude.{◌≡◌, ℕ, Bool, IfOk, List};
ghost use Rattle.job.specs.Kept.{pipeline_in, program_text_in};
ghost use Rattle.pipe_tree.specs.Tree.{Declaration};
ghost use Rattle.commands.specs.inside.Questions.{saying_of};

use crate::question::JobQuestion;
use job::Job;
use normal_jobs::make_normal_job;
use std::alloc::{AllocError, Global};

/// The job by which a question is answered. A result is that of the job in normal form; all else is said of the job as it is.
pub fn make_job_of_eval_check_or_plan(
    alloc: Global,
    question: JobQuestion,
    job: Job,
) -> Result<Job, AllocError>
    ensures text { IfOk result (λ made. program_text_in made ≡ program_text_in job) }
    ensures saying { IfOk result
        (λ made. (stored : Bool) (percent : ℕ) (tree : List Declaration) (bytes : List ℕ)
        → saying_of question stored percent tree (pipeline_in made) bytes
        → saying_of question stored percent tree (pipeline_in job) bytes) }
{
    match question {
        JobQuestion::Answer => make_normal_job(alloc, job),
        JobQuestion::Stages | JobQuestion::Plan => Ok(job),
    }
}
