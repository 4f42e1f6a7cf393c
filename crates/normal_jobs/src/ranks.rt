#![tactic(auto)]
//! Ranks of stages whose reads changed.

ghost use Rattle.std.specs.Prelude.{◌≡◌, IsTrue, map};
ghost use Rattle.job.specs.Reads.{IsRanked, rank_by};
ghost use Rattle.job.specs.Views.{stage_view};

use job::{Body, Stage};
use part_stages::find_greatest_part_rank;
use std::alloc::{AllocError, Global};

// Whether a stage has the rank that it has by those which it reads.
fn has_normal_rank(stages: &[Stage], stage: &Stage) -> bool
    ensures { IsTrue result → (stage_view stage.now).rank
        ≡ rank_by (map stage_view stages.now) (stage_view stage.now).body }
{
    match stage.body() {
        Body::Plane(_) => stage.rank() == 0,
        Body::Function(_) | Body::Accumulator(_) => {
            let below = find_greatest_part_rank(stages, stage.reads());
            stage.rank().checked_sub(1) == Some(below)
        }
    }
}

/// Whether each stage has the rank that it has by those which it reads.
pub(crate) fn have_normal_ranks(stages: &[Stage]) -> bool
    ensures { IsTrue result → IsRanked (map stage_view stages.now) }
{
    for stage in stages {
        if !has_normal_rank(stages, stage) {
            return false;
        }
    }
    true
}

// The rank of a stage by those of the stages that it reads.
fn find_normal_rank_of_stage(ranks: &[usize], stage: &Stage) -> usize {
    let mut rank = 1;
    for read in stage.reads() {
        if let Some(below) = ranks.get(read.stage()) {
            rank = below.saturating_add(1).max(rank);
        }
    }
    match stage.body() {
        Body::Plane(_) => 0,
        Body::Function(_) | Body::Accumulator(_) => rank,
    }
}

// Writes the rank of each stage by those of the stages that it reads.
fn write_normal_ranks(ranks: &mut Vec<usize>, stages: &[Stage]) {
    for (number, stage) in stages.iter().enumerate() {
        let found = find_normal_rank_of_stage(ranks, stage);
        if let Some(own) = ranks.get_mut(number) {
            *own = found;
        }
    }
}

/// The ranks of stages by what they read. What stages read in the end has its rank once they were written as often as there are ranks.
///
/// # Errors
///
/// Fails only where memory is refused.
pub(crate) fn find_normal_ranks(alloc: Global, stages: &[Stage]) -> Result<Vec<usize>, AllocError> {
    let mut ranks = Vec::with_capacity(alloc, stages.len())?;
    for _ in stages {
        ranks.push(0)?;
    }
    for _ in 0..stages.len() {
        write_normal_ranks(&mut ranks, stages);
    }
    Ok(ranks)
}
