#![tactic(auto)]
//! Whether the tiles that a run makes fit in scratch memory.

ghost use Rattle.std.specs.Prelude.{◌≡◌, ◌<◌, Some, filter, find, All, IfOk};
ghost use Rattle.std.specs.List.{flat_map};
ghost use Rattle.std.specs.Option.{option_map};
ghost use Rattle.domains.specs.Tiles.{HasTile, tile_rows, tiles_of};
ghost use Rattle.job.specs.Answers.{tiles};
ghost use Rattle.job.specs.Kept.{pipeline_in, program_id_in};
ghost use Rattle.job.specs.Readers.{grid_at};
ghost use Rattle.grouping.specs.Inlining.{IsScheduleOf};
ghost use Rattle.overlap_tiles.specs.Needs.{key_of, tile_of_stage};
ghost use Rattle.overlap_tiles.specs.Work.{is_tile_over_scratch_limit};
ghost use Rattle.tile_run.specs.Work.{wanted_by, first_too_big};
ghost use Rattle.tile_run.specs.inside.Room.{row_tiles};

use domains::Grid;
use grouping::{MOST_SCRATCH, Schedule, order_stages_by_rank};
use identity::Key;
use job::{Job, StageKind};
use std::alloc::{AllocError, Global};

/// Of which stages tiles are made.
#[derive(Clone, Copy, Debug, PartialEq, Eq)]
pub enum TiledStages {
    /// Functions that are not inlined.
    Functions,
    /// All accumulators.
    Accumulators,
}

// Whether the tiles of a stage belong to the work.
fn is_stage_among_tiled_stages_of_run(
    job: &Job,
    schedule: &Schedule,
    work: TiledStages,
    stage: usize,
) -> bool
    ensures { result ≡ wanted_by (pipeline_in job.now) schedule.now.inlining work stage }
{
    match work {
        TiledStages::Functions => {
            job.kind(stage) == Some(StageKind::Function) && !schedule.inlined(stage)
        }
        TiledStages::Accumulators => job.kind(stage) == Some(StageKind::Accumulator),
    }
}

// The tiles of one stage.
#[derive(Clone, Copy)]
struct OversizedTileSearch<'a> {
    job: &'a Job,
    schedule: &'a Schedule,
    stage: usize,
    grid: Grid,
    ghost parted: { grid_at (pipeline_in job.now) stage ≡ Some grid },
}

impl OversizedTileSearch<'_> {
    // Whether a tile takes too much scratch memory.
    fn is_oversized_tile(&self, alloc: Global, row: u32, col: u32) -> Result<bool, AllocError>
        requires tile { HasTile self.now.grid row col }
        ensures { IfOk result (λ big. big
            ≡ is_tile_over_scratch_limit (pipeline_in self.now.job.now) self.now.schedule.now.inlining
            (tile_of_stage self.now.stage (row, col))) }
    {
        let Some(area) = self.grid.tile(row, col) else {
            return Ok(false);
        };
        let points = self
            .schedule
            .count_scratch_points(alloc, self.job, self.stage, area)?;
        Ok(points > MOST_SCRATCH)
    }

    // The first tile of a row that does.
    fn find_oversized_tile_in_row(
        &self,
        alloc: Global,
        row: u32,
    ) -> Result<Option<(u32, u32)>, AllocError>
        requires row { row < tile_rows self.now.grid }
        ensures { IfOk result (λ found. found
            ≡ find (λ t. is_tile_over_scratch_limit (pipeline_in self.now.job.now) self.now.schedule.now.inlining
            (tile_of_stage self.now.stage t)) (row_tiles self.now.grid row)) }
    {
        for col in 0..self.grid.tile_cols() {
            if self.is_oversized_tile(alloc, row, col)? {
                return Ok(Some((row, col)));
            }
        }
        Ok(None)
    }

    // The first tile that does.
    fn find_oversized_tile(&self, alloc: Global) -> Result<Option<(u32, u32)>, AllocError>
        ensures { IfOk result (λ found. found
            ≡ find (λ t. is_tile_over_scratch_limit (pipeline_in self.now.job.now) self.now.schedule.now.inlining
            (tile_of_stage self.now.stage t)) (tiles_of self.now.grid)) }
    {
        for row in 0..self.grid.tile_rows() {
            let found = self.find_oversized_tile_in_row(alloc, row)?;
            if found.is_some() {
                return Ok(found);
            }
        }
        Ok(None)
    }
}

// The key of a tile.
fn build_oversized_tile_key(job: &Job, stage: usize, row: u32, col: u32) -> Key
    requires { stage < 65536 }
    ensures { result
        ≡ key_of (program_id_in job.now) (pipeline_in job.now) (tile_of_stage stage (row, col)) }
{
    Key {
        program: job.program_id(),
        input: job.input_id(),
        stage: stage as u16,
        row,
        col,
    }
}

// The key of the first tile of a stage that takes too much scratch memory.
fn find_oversized_tile_key_in_stage(
    alloc: Global,
    job: &Job,
    schedule: &Schedule,
    stage: usize,
) -> Result<Option<Key>, AllocError>
    ensures { IfOk result (λ found. found
        ≡ option_map (key_of (program_id_in job.now) (pipeline_in job.now))
        (find (is_tile_over_scratch_limit (pipeline_in job.now) schedule.now.inlining)
        (tiles (pipeline_in job.now) stage))) }
{
    let Some(grid) = job.grid(stage) else {
        return Ok(None);
    };
    let tiles = OversizedTileSearch {
        job,
        schedule,
        stage,
        grid,
    };
    match tiles.find_oversized_tile(alloc)? {
        Some((row, col)) => Ok(Some(build_oversized_tile_key(job, stage, row, col))),
        None => Ok(None),
    }
}

// The same of several stages, in this order.
fn find_oversized_tile_key_in_stages(
    alloc: Global,
    job: &Job,
    schedule: &Schedule,
    work: TiledStages,
    order: &[usize],
) -> Result<Option<Key>, AllocError>
    ensures { IfOk result (λ found. found
        ≡ option_map (key_of (program_id_in job.now) (pipeline_in job.now))
        (find (is_tile_over_scratch_limit (pipeline_in job.now) schedule.now.inlining)
        (flat_map (tiles (pipeline_in job.now)) (filter
        (wanted_by (pipeline_in job.now) schedule.now.inlining work) order.now)))) }
{
    for number in order {
        if is_stage_among_tiled_stages_of_run(job, schedule, work, *number) {
            let found = find_oversized_tile_key_in_stage(alloc, job, schedule, *number)?;
            if found.is_some() {
                return Ok(found);
            }
        }
    }
    Ok(None)
}

/// The key of the first tile, in dependence order and row by row, that takes more scratch memory than `grouping::MOST_SCRATCH`
/// points. If the schedule is known to fit, nothing is searched.
///
/// # Errors
///
/// Fails only where memory is refused.
pub fn find_key_of_first_oversized_tile(
    alloc: Global,
    job: &Job,
    schedule: &Schedule,
    work: TiledStages,
) -> Result<Option<Key>, AllocError>
    requires schedule { IsScheduleOf (pipeline_in job.now) schedule.now }
    ensures { IfOk result (λ found. found
        ≡ option_map (key_of (program_id_in job.now) (pipeline_in job.now))
        (first_too_big (pipeline_in job.now) schedule.now.inlining
        (wanted_by (pipeline_in job.now) schedule.now.inlining work))) }
{
    if schedule.fits() {
        return Ok(None);
    }
    find_oversized_tile_key_in_stages(
        alloc,
        job,
        schedule,
        work,
        &order_stages_by_rank(alloc, job.stages())?,
    )
}
