#![tactic(auto)]
//! Jobs in which parts that formulas repeat, and columns of kernels, are stages of their own.

ghost use Rattle.std.specs.Prelude.{◌≡◌, ◌++◌, IfOk, IfSome, map};
ghost use Rattle.part_stages.specs.HasMore.{HasMore};
ghost use Rattle.job.specs.Kept.{pipeline_in, program_id_in, program_text_in};
ghost use Rattle.job.specs.Reads.{IsRanked};
ghost use Rattle.job.specs.Views.{stage_view};
ghost use Rattle.normal_jobs.specs.Alike.{AnswersAlike};
ghost use Rattle.normal_jobs.specs.StandIns.{StandForStages};

use crate::ranks::{find_normal_ranks, have_normal_ranks};
use crate::stages::make_normal_stages;
use job::{Job, Stage};
use part_stages::{PartStages, find_part_stages};
use std::alloc::{AllocError, Global};

// How often parts of parts are looked for.
const ROUNDS: usize = 4;

// All stages, those for parts behind the others, in formulas that read these. They have these ranks; their own where none is given.
fn make_split_normal_stages(
    alloc: Global,
    stages: &[Stage],
    parts: &PartStages,
    ranks: &[usize],
) -> Result<Vec<Stage>, AllocError>
    ensures { IfOk result (λ made. StandForStages parts.now.known.items
        (map stage_view stages.now ++ map stage_view parts.now.stages.items)
        (map stage_view made.items)) }
{
    let own = ranks.get(..stages.len()).unwrap_or(&[]);
    let rest = ranks.get(stages.len()..).unwrap_or(&[]);
    let mut made = make_normal_stages(alloc, &parts.known, stages, own)?;
    let mut behind = make_normal_stages(alloc, &parts.known, &parts.stages, rest)?;
    made.append(&mut behind)?;
    Ok(made)
}

// The same with ranks that they have by what they read, if these are found.
fn make_ranked_split_normal_stages(
    alloc: Global,
    stages: &[Stage],
    parts: &PartStages,
) -> Result<Option<Vec<Stage>>, AllocError>
    ensures stages { IfOk result (λ found. IfSome found (λ made. StandForStages parts.now.known.items
        (map stage_view stages.now ++ map stage_view parts.now.stages.items)
        (map stage_view made.items))) }
    ensures ranks { IfOk result (λ found. IfSome found (λ made. IsRanked (map stage_view made.items))) }
{
    let made = make_split_normal_stages(alloc, stages, parts, &[])?;
    let ranks = find_normal_ranks(alloc, &made)?;
    let made = make_split_normal_stages(alloc, stages, parts, &ranks)?;
    if have_normal_ranks(&made) {
        Ok(Some(made))
    } else {
        Ok(None)
    }
}

// The job whose formulas read the stages of these parts.
fn split_normal_job_by_parts(alloc: Global, job: Job, parts: &PartStages) -> Result<Job, AllocError>
    requires { HasMore (pipeline_in job) parts.now }
    ensures alike { IfOk result (λ made. AnswersAlike (pipeline_in job) (pipeline_in made)) }
    ensures text { IfOk result (λ made. program_text_in made ≡ program_text_in job) }
    ensures program { IfOk result (λ made. program_id_in made ≡ program_id_in job) }
{
    match make_ranked_split_normal_stages(alloc, job.stages(), parts)? {
        Some(stages) => Ok(job.with_stages(stages)),
        None => Ok(job),
    }
}

// The job in which parts that formulas repeat became stages, and so many times more parts that these repeat.
fn split_normal_job_in_rounds(alloc: Global, job: Job, rounds: usize) -> Result<Job, AllocError>
    ensures alike { IfOk result (λ made. AnswersAlike (pipeline_in job) (pipeline_in made)) }
    ensures text { IfOk result (λ made. program_text_in made ≡ program_text_in job) }
    ensures program { IfOk result (λ made. program_id_in made ≡ program_id_in job) }
{
    if rounds == 0 {
        return Ok(job);
    }
    let Some(parts) = find_part_stages(alloc, &job)? else {
        return Ok(job);
    };
    let split = split_normal_job_by_parts(alloc, job, &parts)?;
    split_normal_job_in_rounds(alloc, split, rounds - 1)
}

/// The job in which parts that formulas repeat are stages, as are parts that these repeat. Each kernel that is a product of a column
/// and a row, and is faster in two steps, goes down first and then along.
///
/// # Errors
///
/// Fails only where memory is refused.
pub(crate) fn split_normal_job(alloc: Global, job: Job) -> Result<Job, AllocError>
    ensures alike { IfOk result (λ made. AnswersAlike (pipeline_in job) (pipeline_in made)) }
    ensures text { IfOk result (λ made. program_text_in made ≡ program_text_in job) }
    ensures program { IfOk result (λ made. program_id_in made ≡ program_id_in job) }
{
    split_normal_job_in_rounds(alloc, job, ROUNDS)
}
