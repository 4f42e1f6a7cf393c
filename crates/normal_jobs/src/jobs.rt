#![tactic(auto)]
//! Jobs whose formulas are joined and in normal form.

ghost use Rattle.std.specs.Prelude.{◌≡◌, IfOk, IfSome, map};
ghost use Rattle.job.specs.Kept.{pipeline_in, program_id_in, program_text_in};
ghost use Rattle.job.specs.Reads.{IsRanked};
ghost use Rattle.job.specs.Views.{stage_view};
ghost use Rattle.normal_jobs.specs.Alike.{AnswersAlike};
ghost use Rattle.normal_jobs.specs.StandIns.{StandForStages};

use crate::joins::list_normal_joins;
use crate::ranks::{find_normal_ranks, have_normal_ranks};
use crate::splitting::split_normal_job;
use crate::stages::make_normal_stages;
use job::{Job, Stage};
use joined_formulas::StageFormula;
use std::alloc::{AllocError, Global};

// The stages of a job in normal form, if they have the ranks that they are given.
fn make_ranked_normal_stages(
    alloc: Global,
    known: &[StageFormula],
    stages: &[Stage],
) -> Result<Option<Vec<Stage>>, AllocError>
    ensures stages { IfOk result (λ found. IfSome found (λ made. StandForStages known.now (map stage_view stages.now)
        (map stage_view made.items))) }
    ensures ranks { IfOk result (λ found. IfSome found (λ made. IsRanked (map stage_view made.items))) }
{
    let made = make_normal_stages(alloc, known, stages, &[])?;
    if have_normal_ranks(&made) {
        return Ok(Some(made));
    }
    let ranks = find_normal_ranks(alloc, &made)?;
    let made = make_normal_stages(alloc, known, stages, &ranks)?;
    if have_normal_ranks(&made) {
        return Ok(Some(made));
    }
    Ok(None)
}

// The job with all formulas joined and in normal form.
fn join_normal_job(alloc: Global, job: Job) -> Result<Job, AllocError>
    ensures alike { IfOk result (λ made. AnswersAlike (pipeline_in job) (pipeline_in made)) }
    ensures text { IfOk result (λ made. program_text_in made ≡ program_text_in job) }
    ensures program { IfOk result (λ made. program_id_in made ≡ program_id_in job) }
{
    let known = list_normal_joins(alloc, &job)?;
    match make_ranked_normal_stages(alloc, &known, job.stages())? {
        Some(stages) => Ok(job.with_stages(stages)),
        None => Ok(job),
    }
}

/// The job with all formulas joined and in normal form, whose kernels go down columns first and then along rows where that is faster. It
/// answers what the job answers, keeps its text and has its identities.
///
/// # Errors
///
/// Fails only where memory is refused.
pub fn make_normal_job(alloc: Global, job: Job) -> Result<Job, AllocError>
    ensures alike { IfOk result (λ made. AnswersAlike (pipeline_in job) (pipeline_in made)) }
    ensures text { IfOk result (λ made. program_text_in made ≡ program_text_in job) }
    ensures program { IfOk result (λ made. program_id_in made ≡ program_id_in job) }
{
    let joined = join_normal_job(alloc, job)?;
    split_normal_job(alloc, joined)
}
