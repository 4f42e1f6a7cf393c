#![tactic(auto)]
//! What a job answers: the picture of its output and the totals of its accumulators.

ghost use Rattle.std.specs.Prelude.{◌≡◌, None, IfOk, IfErr};
ghost use Rattle.std.specs.Option.{ForSome};
ghost use Rattle.grouping.specs.Inlining.{IsScheduleOf};
ghost use Rattle.job.specs.Kept.{pipeline_in, program_id_in};
ghost use Rattle.netpbm.specs.Image.{IsImage};
ghost use Rattle.tile_sources.specs.KnownTiles.{AreTrue};
ghost use Rattle.tile_run.specs.Stored.{stored_tiles, GivesAllTiles};
ghost use Rattle.tile_run.specs.Work.{first_too_big, is_accumulator_at, is_stored_function, IsRunFault};
ghost use Rattle.accumulators.specs.Answers.{IsAnswer, IsEvaluationFault};

use crate::computed::ComputedJob;
use grouping::Schedule;
use job::Job;
use netpbm::Picture;
use pictures::assemble_image;
use std::alloc::Global;
use std::thread::Threads;
use tile_run::{RunFault, StoredTiles, TiledStages, find_key_of_first_oversized_tile, run_all};

/// The totals of an accumulator: its stage, its first bin, and the values of its bins from there on.
#[derive(Debug, Drop)]
pub struct Total {
    pub stage: usize,
    pub lo: i32,
    pub bins: Vec<i64>,
}

/// The picture of a job's output, if it has one, and the totals of its accumulators, in the order of the stages.
#[derive(Debug, Drop)]
pub struct Answer {
    pub picture: Option<Picture>,
    pub totals: Vec<Total>,
}

/// Computes the answer of a job from the tiles of all stored functions. The picture is made row by row. The totals are joined
/// tile by tile as the tiles are made, by several threads where the work is worth it.
///
/// # Errors
///
/// Fails before anything is computed if a tile of an accumulator takes too much scratch memory. The fault names the first such
/// tile by dependence order, row and column. Fails also where memory is refused.
pub fn compute_answer_from_function_tiles(
    rt: &(impl Threads + Sync),
    alloc: Global,
    job: &Job,
    schedule: &Schedule,
    stored: &StoredTiles,
) -> Result<Answer, RunFault>
    requires schedule { IsScheduleOf (pipeline_in job.now) schedule.now }
    requires all { GivesAllTiles (pipeline_in job.now) schedule.now.inlining
        (stored_tiles stored.now.stages.items) }
    requires values { AreTrue (pipeline_in job.now) (stored_tiles stored.now.stages.items) }
    ensures answer { IfOk result (IsAnswer (pipeline_in job.now)) }
    ensures image { IfOk result (λ answer. ForSome answer.picture IsImage) }
    ensures fits { IfOk result (λ answer. first_too_big (pipeline_in job.now) schedule.now.inlining
        (is_accumulator_at (pipeline_in job.now)) ≡ None) }
    ensures fault { IfErr result (IsRunFault (program_id_in job.now) (pipeline_in job.now)
        schedule.now.inlining (is_accumulator_at (pipeline_in job.now))) }
{
    if let Some(key) = find_key_of_first_oversized_tile(
        alloc,
        job,
        schedule,
        TiledStages::Accumulators,
    )? {
        return Err(RunFault::ScratchTooBig(key));
    }
    let computed = ComputedJob {
        job,
        schedule,
        stored,
    };
    let picture = assemble_image(alloc, job, stored)?;
    let totals = computed.compute_totals(rt, alloc)?;
    Ok(Answer { picture, totals })
}

/// Computes the answer of a job from the tiles of all its stored functions, each after those that it reads. Several threads share
/// the rows of tiles of a stage where the work is worth it.
///
/// # Errors
///
/// Fails before anything is computed if a tile of a stored function takes too much scratch memory. The fault names the first such
/// tile by dependence order, row and column. If all of these fit, it names the first tile of an accumulator that does not. Fails
/// also where memory is refused.
pub fn evaluate_job(
    rt: &(impl Threads + Sync),
    alloc: Global,
    job: &Job,
    schedule: &Schedule,
) -> Result<Answer, RunFault>
    requires schedule { IsScheduleOf (pipeline_in job.now) schedule.now }
    ensures answer { IfOk result (IsAnswer (pipeline_in job.now)) }
    ensures image { IfOk result (λ answer. ForSome answer.picture IsImage) }
    ensures functions { IfOk result (λ answer. first_too_big (pipeline_in job.now)
        schedule.now.inlining
        (is_stored_function (pipeline_in job.now) schedule.now.inlining) ≡ None) }
    ensures accumulators { IfOk result (λ answer. first_too_big (pipeline_in job.now)
        schedule.now.inlining (is_accumulator_at (pipeline_in job.now)) ≡ None) }
    ensures fault { IfErr result (IsEvaluationFault (program_id_in job.now) (pipeline_in job.now)
        schedule.now.inlining) }
{
    let stored = run_all(rt, alloc, job, schedule)?;
    compute_answer_from_function_tiles(rt, alloc, job, schedule, &stored)
}
