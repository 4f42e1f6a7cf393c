#![tactic(auto)]
//! How the rows of tiles of a stage are partitioned among threads.

ghost use Rattle.std.specs.Prelude.{◌≡◌, ◌<◌};
ghost use Rattle.tile_run.specs.Pieces.{rows_worth_a_thread};

use crate::work_of_points::count_point_run_work;
use grouping::Schedule;
use job::Job;

/// How many sequential reads and operators are worth a thread of their own: some 600 microseconds' worth. Starting the thread
/// takes some 50; the others are for what threads lose to each other where both touch pages for the first time.
const LEAST_WORK: u64 = 4_194_304;

/// How many of these the layout of a tile is worth, whatever its points.
pub const WORK_OF_TILE: u64 = 8_192;

/// How many rows of tiles of a stage are worth a thread of their own. The work is estimated: the schedule specifies how many
/// points its tiles have together, and each counts as one of the stage's own.
pub fn estimate_least_tile_rows_per_thread(job: &Job, schedule: &Schedule, stage: usize) -> usize
    ensures { 0 < result }
{
    match (job.stage(stage), job.grid(stage), schedule.cost(stage)) {
        (Some(found), Some(grid), Some(points)) => {
            let work = points
                .saturating_mul(count_point_run_work(found))
                .saturating_add(grid.tiles().saturating_mul(WORK_OF_TILE));
            compute_least_tile_rows_per_thread(grid.tile_rows(), work)
        }
        _ => 1,
    }
}

// Of rows that are so much work together, how many are worth a thread of their own.
fn compute_least_tile_rows_per_thread(rows: u32, work: u64) -> usize
    requires { 0 < rows }
    ensures number { result ≡ rows_worth_a_thread rows work }
    ensures some { 0 < result }
{
    (LEAST_WORK * u64::from(rows)).div_ceil(work.max(1)) as usize
}
