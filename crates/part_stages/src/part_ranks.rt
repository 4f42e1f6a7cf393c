#![tactic(auto)]
//! Ranks of what is read.

ghost use Rattle.std.specs.Prelude.{◌≡◌, ◌<◌, All, IsTrue, length, map};
ghost use Rattle.domains.specs.Greatest.{greatest};
ghost use Rattle.job.specs.Pipeline.{rank_of};
ghost use Rattle.job.specs.ReadViews.{read_view};
ghost use Rattle.job.specs.Reads.{reads_of, stage_read};
ghost use Rattle.job.specs.Views.{stage_view};
ghost use Rattle.job.specs.Kept.{pipeline_in};
ghost use Rattle.part_stages.specs.Parts.{IsClosed};

use job::{Job, Read, Stage};

// The rank of the stage of this number.
fn find_part_rank(stages: &[Stage], number: usize) -> usize
    ensures { result ≡ rank_of (map stage_view stages.now) number }
{
    match stages.get(number) {
        Some(stage) => stage.rank(),
        None => 0,
    }
}

/// The greatest rank of the stages that are read; 0 where nothing is.
pub fn find_greatest_part_rank(stages: &[Stage], reads: &[Read]) -> usize
    ensures { result ≡ greatest
        (map (λ x. rank_of (map stage_view stages.now) (stage_read x)) (map read_view reads.now)) }
{
    let mut greatest = 0;
    for read in reads {
        greatest = find_part_rank(stages, read.stage()).max(greatest);
    }
    greatest
}

/// How many stages a job has.
pub(crate) fn count_stages_of_part_ranks(job: &Job) -> usize
    ensures { result ≡ length (pipeline_in job.now).stages }
{
    job.stages().len()
}

/// Whether all stages that are read have numbers below this one.
pub(crate) fn are_part_reads_below(reads: &[Read], count: usize) -> bool
    ensures { IsTrue result → All (λ x. stage_read (read_view x) < count) reads.now }
{
    for read in reads {
        if read.stage() >= count {
            return false;
        }
    }
    true
}

/// Whether a stage reads none from this number on.
pub(crate) fn has_part_reads_below(stage: &Stage, count: usize) -> bool
    ensures { IsTrue result → All (λ x. stage_read x < count) (reads_of (stage_view stage.now).body) }
{
    are_part_reads_below(stage.reads(), count)
}

/// Whether the stages of a job read no others.
pub(crate) fn has_own_part_reads(job: &Job) -> bool
    ensures { IsTrue result → IsClosed (pipeline_in job.now) }
{
    let stages = job.stages();
    for stage in stages {
        if !has_part_reads_below(stage, stages.len()) {
            return false;
        }
    }
    true
}
