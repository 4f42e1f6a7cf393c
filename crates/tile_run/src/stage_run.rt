#![tactic(auto)]
//! The tiles of a stored function, row by row.

ghost use Rattle.std.specs.Prelude.{◌≡◌, ◌<◌, map, IfOk};
ghost use Rattle.std.specs.List.{range_with_len};
ghost use Rattle.domains.specs.Tiles.{HasTile, tile_rows, tile_cols};
ghost use Rattle.job.specs.Kept.{pipeline_in};
ghost use Rattle.overlap_tiles.specs.Plans.{IsTileLayout};
ghost use Rattle.tile_run.specs.StageRuns.{row_numbers, tile_values, row_values, IsStageReady};
ghost use Rattle.tile_run.specs.Stored.{stored_tiles};
ghost use Rattle.tile_run.specs.inside.Running.{grid_values};

use crate::pieces::estimate_least_tile_rows_per_thread;
use crate::stored::StoredTiles;
use domains::Grid;
use grouping::Schedule;
use job::Job;
use one_tile::{StageTiles, TileJob, TileRow, TileScratch};
use overlap_tiles::{PlanFault, TileLayout};
use rayon::prelude::*;
use std::alloc::{AllocError, Global};
use std::thread::Threads;

/// A stored function of a job, whose tiles are to be made: its number, its grid, and what is stored of the functions that it
/// reads.
#[derive(Clone, Copy)]
pub(crate) struct StageRun<'a> {
    pub(crate) job: &'a Job,
    pub(crate) schedule: &'a Schedule,
    pub(crate) stored: &'a StoredTiles,
    pub(crate) stage: usize,
    pub(crate) grid: Grid,
}

impl StageRun<'_> {
    // The layout of a tile.
    fn build_tile_layout(
        &self,
        alloc: Global,
        row: u32,
        col: u32,
    ) -> Result<TileLayout<'_>, AllocError>
        requires ready { IsStageReady (pipeline_in self.now.job.now) self.now.schedule.now.inlining
            (stored_tiles self.now.stored.now.stages.items) self.now.stage self.now.grid }
        requires tile { HasTile self.now.grid row col }
        ensures { IfOk result (IsTileLayout (pipeline_in self.now.job.now)
            self.now.schedule.now.inlining self.now.stage row col) }
    {
        match TileLayout::new(alloc, self.job, self.schedule, self.stage, row, col) {
            Ok(layout) => Ok(layout),
            Err(PlanFault::NoSuchTile | PlanFault::ScratchTooBig) => unreachable!(),
            Err(PlanFault::Memory) => Err(AllocError),
        }
    }

    // The values of a tile.
    fn compute_tile(
        &self,
        alloc: Global,
        row: u32,
        col: u32,
        scratch: &mut TileScratch,
    ) -> Result<Vec<i32>, AllocError>
        requires ready { IsStageReady (pipeline_in self.now.job.now) self.now.schedule.now.inlining
            (stored_tiles self.now.stored.now.stages.items) self.now.stage self.now.grid }
        requires tile { HasTile self.now.grid row col }
        ensures { IfOk result (λ values. values.items
            ≡ tile_values (pipeline_in self.now.job.now) self.now.stage self.now.grid row col) }
    {
        let layout = self.build_tile_layout(alloc, row, col)?;
        let tile = TileJob {
            job: self.job,
            layout: &layout,
            known: self.stored,
        };
        tile.compute_values_if_stage_is_function(alloc, scratch)
    }

    // The values of a row of tiles, tile by tile.
    fn compute_tile_row(
        &self,
        alloc: Global,
        row: u32,
        scratch: &mut TileScratch,
    ) -> Result<TileRow, AllocError>
        requires ready { IsStageReady (pipeline_in self.now.job.now) self.now.schedule.now.inlining
            (stored_tiles self.now.stored.now.stages.items) self.now.stage self.now.grid }
        requires row { row < tile_rows self.now.grid }
        ensures { IfOk result (λ tiles. row_numbers tiles
            ≡ row_values (pipeline_in self.now.job.now) self.now.stage self.now.grid row
            (tile_cols self.now.grid)) }
    {
        let mut tiles = Vec::new(alloc);
        for col in 0..self.grid.tile_cols() {
            tiles.push(self.compute_tile(alloc, row, col, scratch)?)?;
        }
        Ok(TileRow { tiles })
    }

    /// Those of all rows: several rows to a thread, if there is work for more than one thread.
    ///
    /// # Errors
    ///
    /// Fails only where memory is refused.
    pub(crate) fn compute_tiles(
        &self,
        rt: &(impl Threads + Sync),
        alloc: Global,
        scratch: &mut TileScratch,
    ) -> Result<StageTiles, AllocError>
        requires ready { IsStageReady (pipeline_in self.now.job.now) self.now.schedule.now.inlining
            (stored_tiles self.now.stored.now.stages.items) self.now.stage self.now.grid }
        ensures { IfOk result (λ tiles. map row_numbers tiles.rows.items
            ≡ grid_values (pipeline_in self.now.job.now) self.now.stage self.now.grid
            (tile_rows self.now.grid)) }
    {
        let least = estimate_least_tile_rows_per_thread(self.job, self.schedule, self.stage);
        let rows = if self.grid.tile_rows() as usize / 2 < least {
            self.compute_tile_rows_in_turn(alloc, scratch)?
        } else {
            self.compute_tile_rows_in_parallel(rt, alloc, least)?
        };
        Ok(StageTiles { rows })
    }

    // Those of all rows, row by row.
    fn compute_tile_rows_in_turn(
        &self,
        alloc: Global,
        scratch: &mut TileScratch,
    ) -> Result<Vec<TileRow>, AllocError>
        requires ready { IsStageReady (pipeline_in self.now.job.now) self.now.schedule.now.inlining
            (stored_tiles self.now.stored.now.stages.items) self.now.stage self.now.grid }
        ensures { IfOk result (λ rows. map row_numbers rows.items
            ≡ grid_values (pipeline_in self.now.job.now) self.now.stage self.now.grid
            (tile_rows self.now.grid)) }
    {
        let mut rows = Vec::new(alloc);
        for row in 0..self.grid.tile_rows() {
            rows.push(self.compute_tile_row(alloc, row, scratch)?)?;
        }
        Ok(rows)
    }

    // Those of all rows: each thread has at least this many, and scratch memory of its own.
    fn compute_tile_rows_in_parallel(
        &self,
        rt: &(impl Threads + Sync),
        alloc: Global,
        least: usize,
    ) -> Result<Vec<TileRow>, AllocError>
        requires ready { IsStageReady (pipeline_in self.now.job.now) self.now.schedule.now.inlining
            (stored_tiles self.now.stored.now.stages.items) self.now.stage self.now.grid }
        ensures { IfOk result (λ rows. map row_numbers rows.items
            ≡ grid_values (pipeline_in self.now.job.now) self.now.stage self.now.grid
            (tile_rows self.now.grid)) }
    {
        (0..self.grid.tile_rows())
            .into_par_iter()
            .with_min_len(least)
            .map_init(
                || TileScratch::new(alloc),
                |scratch: &mut TileScratch, row: u32| -> Result<TileRow, AllocError>
                    requires { IsStageReady (pipeline_in self.now.job.now) self.now.schedule.now.inlining
                        (stored_tiles self.now.stored.now.stages.items) self.now.stage self.now.grid
                        × (row < tile_rows self.now.grid) }
                    ensures { IfOk result (λ tiles. row_numbers tiles
                        ≡ row_values (pipeline_in self.entry.now.job.now) self.entry.now.stage
                        self.entry.now.grid row (tile_cols self.entry.now.grid)) }
                { self.compute_tile_row(alloc, row, scratch) },
            )
            .collect::<Result<Vec<_>, AllocError>>(rt, alloc)?
    }
}
