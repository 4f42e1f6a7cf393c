#![tactic(auto)]
//! Which tiles exceed the capacity of scratch memory.

ghost use Rattle.std.specs.Prelude.{◌≡◌, IfOk};
ghost use Rattle.job.specs.Kept.{pipeline_in};
ghost use Rattle.overlap_tiles.specs.Needs.{key_tile};
ghost use Rattle.overlap_tiles.specs.Work.{is_tile_over_scratch_limit, find_key_over_scratch_limit};

use grouping::{MOST_SCRATCH, Schedule};
use identity::Key;
use job::Job;
use std::alloc::{AllocError, Global};

/// Whether there is a tile of this stage, row and column whose boxes of what is inlined have more points together than
/// `grouping::MOST_SCRATCH`. The identities of the key are not read.
///
/// # Errors
///
/// Fails only where memory is refused.
pub fn is_tile_over_scratch_limit(
    alloc: Global,
    job: &Job,
    schedule: &Schedule,
    key: &Key,
) -> Result<bool, AllocError>
    ensures { IfOk result (λ b. b
        ≡ is_tile_over_scratch_limit (pipeline_in job.now) schedule.now.inlining (key_tile key.now)) }
{
    let stage = usize::from(key.stage);
    let Some(grid) = job.grid(stage) else {
        return Ok(false);
    };
    let Some(area) = grid.tile(key.row, key.col) else {
        return Ok(false);
    };
    let points = schedule.count_scratch_points(alloc, job, stage, area)?;
    Ok(points > MOST_SCRATCH)
}

/// The first of these keys whose tile exceeds that capacity.
///
/// # Errors
///
/// Fails only where memory is refused.
pub fn find_key_over_scratch_limit(
    alloc: Global,
    job: &Job,
    schedule: &Schedule,
    keys: &[Key],
) -> Result<Option<Key>, AllocError>
    ensures { IfOk result (λ found. found
        ≡ find_key_over_scratch_limit (pipeline_in job.now) schedule.now.inlining keys.now) }
{
    for key in keys {
        if is_tile_over_scratch_limit(alloc, job, schedule, key)? {
            return Ok(Some(*key));
        }
    }
    Ok(None)
}
