#![tactic(auto)]
//! The totals of a job, joined from tiles as these are made.

ghost use Rattle.std.specs.Prelude.{◌≡◌, ◌<◌, ◌++◌, ◌∷◌, [], map, fold, All, IfOk, IfSome, IfNone, OnOk};
ghost use Rattle.std.specs.List.{range_with_len};
ghost use Rattle.domains.specs.Tiles.{HasTile, tile_cols, tile_rows, tiles_of};
ghost use Rattle.job.specs.Kept.{pipeline_in};
ghost use Rattle.overlap_tiles.specs.Plans.{IsTileLayout};
ghost use Rattle.accumulators.specs.Answers.{all_gathered, gathered, gathered_at};
ghost use Rattle.reductions.specs.Accumulating.{AreBins};
ghost use Rattle.reductions.specs.GatherRooms.{IsAccumulatorOf};
ghost use Rattle.accumulators.specs.inside.Making.{AreTotalsOfRow, IsComputed, IsTally, TotalsFit, totals_of_row, with_tile};

use crate::answer::Total;
use crate::computed::ComputedJob;
use crate::parting::is_one_thread_enough_for_rows;
use crate::totals_scratch::TotalsScratch;
use domains::Grid;
use job::{Accumulator, Body, Job};
use overlap_tiles::{PlanFault, TileLayout};
use partials::accumulate_tile_partial;
use rayon::prelude::*;
use reductions::{create_start_bins, join_all_lists_into_bins};
use std::alloc::{AllocError, Global};
use std::thread::Threads;
use tile_run::{TileJob, estimate_least_tile_rows_per_thread};

// Least number of points per bin in a row of tiles at which the rows are split among threads.
const POINTS_OF_BIN: u64 = 16;

/// An accumulator of a job, whose totals are computed.
#[derive(Clone, Copy)]
pub(crate) struct TiledAccumulation<'a> {
    of: ComputedJob<'a>,
    stage: usize,
    accumulator: &'a Accumulator,
    grid: Grid,
}

impl ComputedJob<'_> {
    /// The totals of all accumulators, in the order of the stages, if each of their tiles fits into scratch memory.
    #[tactic(auto, using(tile_boxes::proofs::Lists::flat_map_range_more))]
    pub(crate) fn compute_totals(
        &self,
        rt: &(impl Threads + Sync),
        alloc: Global,
    ) -> Result<Vec<Total>, AllocError>
        requires computed { IsComputed self.now }
        requires fits { TotalsFit self.now }
        ensures { IfOk result
            (λ all. map gathered all.items ≡ all_gathered (pipeline_in self.now.job.now)) }
    {
        let mut room = TotalsScratch::new(alloc);
        let mut all = Vec::new(alloc);
        for stage in 0..self.job.stages().len() {
            self.compute_and_push_accumulator_total(&mut all, rt, alloc, &mut room, stage)?;
        }
        Ok(all)
    }

    // Adds the total of a stage, if it is an accumulator.
    fn compute_and_push_accumulator_total(
        &self,
        all: &mut Vec<Total>,
        rt: &(impl Threads + Sync),
        alloc: Global,
        room: &mut TotalsScratch,
        stage: usize,
    ) -> Result<(), AllocError>
        requires computed { IsComputed self.now }
        requires fits { TotalsFit self.now }
        ensures { OnOk result (map gathered all.new.items
            ≡ map gathered all.old.items ++ gathered_at (pipeline_in self.now.job.now) stage) }
    {
        let Some(tally) = self.find_accumulation_of_stage(stage) else {
            return Ok(());
        };
        let total = tally.compute_accumulator_total(rt, alloc, room)?;
        all.push(total)?;
        Ok(())
    }

    // The stage of this number, if it is an accumulator.
    fn find_accumulation_of_stage(&self, stage: usize) -> Option<TiledAccumulation<'_>>
        requires computed { IsComputed self.now }
        requires fits { TotalsFit self.now }
        ensures stage { IfSome result (λ tally. tally.stage ≡ stage) }
        ensures of { IfSome result (λ tally. tally.of.job.now ≡ self.now.job.now) }
        ensures tally { IfSome result IsTally }
        ensures none { IfNone result (gathered_at (pipeline_in self.now.job.now) stage ≡ []) }
    {
        let grid = self.job.grid(stage)?;
        let accumulator = find_accumulator_of_stage_for_answer(self.job, stage)?;
        Some(TiledAccumulation {
            of: *self,
            stage,
            accumulator,
            grid,
        })
    }
}

// The accumulator of this number.
fn find_accumulator_of_stage_for_answer(job: &Job, stage: usize) -> Option<&Accumulator>
    ensures some { IfSome result
        (λ accumulator. IsAccumulatorOf (pipeline_in job.now) stage accumulator.now) }
    ensures none { IfNone result (gathered_at (pipeline_in job.now) stage ≡ []) }
{
    match job.stage(stage)?.body() {
        Body::Accumulator(accumulator) => Some(accumulator),
        Body::Plane(_) | Body::Function(_) => None,
    }
}

impl TiledAccumulation<'_> {
    // Its totals over all tiles.
    fn compute_accumulator_total(
        &self,
        rt: &(impl Threads + Sync),
        alloc: Global,
        room: &mut TotalsScratch,
    ) -> Result<Total, AllocError>
        requires { IsTally self.now }
        ensures { IfOk result (λ total. gathered_at (pipeline_in self.now.of.job.now) self.now.stage
            ≡ gathered total ∷ []) }
    {
        let accumulator = self.accumulator;
        let mut bins = create_start_bins(alloc, accumulator.fold(), accumulator.bins())?;
        self.accumulate_all_tiles_into_bins(rt, alloc, room, &mut bins)?;
        Ok(Total {
            stage: self.stage,
            lo: accumulator.bins().lo(),
            bins,
        })
    }

    // Joins to each bin the totals over all tiles.
    fn accumulate_all_tiles_into_bins(
        &self,
        rt: &(impl Threads + Sync),
        alloc: Global,
        room: &mut TotalsScratch,
        bins: &mut [i64],
    ) -> Result<(), AllocError>
        requires tally { IsTally self.now }
        requires bins { AreBins self.now.accumulator.now bins.old }
        ensures { OnOk result (bins.new
            ≡ fold (with_tile (pipeline_in self.now.of.job.now) self.now.stage
            self.now.accumulator.now.fold self.now.grid) bins.old (tiles_of self.now.grid)) }
    {
        let least = estimate_least_tile_rows_per_thread(self.of.job, self.of.schedule, self.stage);
        if self.has_few_points_per_bin_and_tile_row()
            || is_one_thread_enough_for_rows(rt, self.grid.tile_rows(), least)
        {
            return self.accumulate_tile_rows_in_turn(alloc, room, bins);
        }
        let all = self.compute_totals_of_each_tile_row(rt, alloc, least)?;
        join_all_lists_into_bins(self.accumulator.fold(), bins, &all);
        Ok(())
    }

    // Whether a row of tiles has few points per bin. Clearing and joining the bins of each row then costs more than threads gain.
    fn has_few_points_per_bin_and_tile_row(&self) -> bool {
        let bins = u64::from(self.accumulator.bins().len());
        let rows = u64::from(self.grid.tile_rows());
        self.grid.area.points() < POINTS_OF_BIN.saturating_mul(bins).saturating_mul(rows)
    }

    // The totals over each row of tiles, by several threads. Each thread has at least a given number of rows.
    fn compute_totals_of_each_tile_row(
        &self,
        rt: &(impl Threads + Sync),
        alloc: Global,
        least: usize,
    ) -> Result<Vec<Vec<i64>>, AllocError>
        requires { IsTally self.now }
        ensures are { IfOk result
            (λ all. All (λ bins. AreBins self.now.accumulator.now bins.items) all.items) }
        ensures totals { IfOk result (λ all. map (λ bins. bins.items) all.items
            ≡ map (totals_of_row self.now) (range_with_len 0 (tile_rows self.now.grid))) }
    {
        (0..self.grid.tile_rows())
            .into_par_iter()
            .with_min_len(least)
            .map_init(
                || TotalsScratch::new(alloc),
                |room: &mut TotalsScratch, row: u32| -> Result<Vec<i64>, AllocError>
                    requires { IsTally self.now × (row < tile_rows self.now.grid) }
                    ensures { IfOk result
                        (λ bins. AreTotalsOfRow self.entry.now row bins.items) }
                { self.compute_totals_of_one_tile_row(alloc, room, row) },
            )
            .collect::<Result<Vec<_>, AllocError>>(rt, alloc)?
    }

    // The totals over one row of tiles.
    fn compute_totals_of_one_tile_row(
        &self,
        alloc: Global,
        room: &mut TotalsScratch,
        row: u32,
    ) -> Result<Vec<i64>, AllocError>
        requires tally { IsTally self.now }
        requires row { row < tile_rows self.now.grid }
        ensures { IfOk result (λ bins. AreTotalsOfRow self.now row bins.items) }
    {
        let mut bins = create_start_bins(alloc, self.accumulator.fold(), self.accumulator.bins())?;
        self.accumulate_tile_row(alloc, room, row, &mut bins)?;
        Ok(bins)
    }

    // Joins to each bin the totals over all tiles, row by row.
    fn accumulate_tile_rows_in_turn(
        &self,
        alloc: Global,
        room: &mut TotalsScratch,
        bins: &mut [i64],
    ) -> Result<(), AllocError>
        requires tally { IsTally self.now }
        requires bins { AreBins self.now.accumulator.now bins.old }
        ensures { OnOk result (bins.new
            ≡ fold (with_tile (pipeline_in self.now.of.job.now) self.now.stage
            self.now.accumulator.now.fold self.now.grid) bins.old (tiles_of self.now.grid)) }
    {
        for row in 0..self.grid.tile_rows() {
            self.accumulate_tile_row(alloc, room, row, bins)?;
        }
        Ok(())
    }

    // Joins to each bin the totals over each tile of a row.
    fn accumulate_tile_row(
        &self,
        alloc: Global,
        room: &mut TotalsScratch,
        row: u32,
        bins: &mut [i64],
    ) -> Result<(), AllocError>
        requires tally { IsTally self.now }
        requires row { row < tile_rows self.now.grid }
        requires bins { AreBins self.now.accumulator.now bins.old }
        ensures are { OnOk result (AreBins self.now.accumulator.now bins.new) }
        ensures bins { OnOk result (bins.new
            ≡ fold (with_tile (pipeline_in self.now.of.job.now) self.now.stage
            self.now.accumulator.now.fold self.now.grid) bins.old
            (map (λ j. (row, j)) (range_with_len 0 (tile_cols self.now.grid)))) }
    {
        for col in 0..self.grid.tile_cols() {
            self.accumulate_one_tile(alloc, room, row, col, bins)?;
        }
        Ok(())
    }

    // Joins to each bin the totals over one tile.
    fn accumulate_one_tile(
        &self,
        alloc: Global,
        room: &mut TotalsScratch,
        row: u32,
        col: u32,
        bins: &mut [i64],
    ) -> Result<(), AllocError>
        requires tally { IsTally self.now }
        requires tile { HasTile self.now.grid row col }
        requires bins { AreBins self.now.accumulator.now bins.old }
        ensures { OnOk result (bins.new
            ≡ with_tile (pipeline_in self.now.of.job.now) self.now.stage
            self.now.accumulator.now.fold self.now.grid bins.old (row, col)) }
    {
        let of = &self.of;
        let layout = self.build_tile_layout(alloc, row, col)?;
        let tile = TileJob {
            job: of.job,
            layout: &layout,
            known: of.stored,
        };
        accumulate_tile_partial(
            alloc,
            &tile,
            self.accumulator,
            &mut room.scratch,
            &mut room.rows,
            bins,
        )
    }

    // The layout of a tile.
    fn build_tile_layout(
        &self,
        alloc: Global,
        row: u32,
        col: u32,
    ) -> Result<TileLayout<'_>, AllocError>
        requires tally { IsTally self.now }
        requires tile { HasTile self.now.grid row col }
        ensures { IfOk result (IsTileLayout (pipeline_in self.now.of.job.now)
            self.now.of.schedule.now.inlining self.now.stage row col) }
    {
        let of = &self.of;
        match TileLayout::new(alloc, of.job, of.schedule, self.stage, row, col) {
            Ok(layout) => Ok(layout),
            Err(PlanFault::NoSuchTile) => unreachable!(),
            Err(PlanFault::ScratchTooBig) => unreachable!(),
            Err(PlanFault::Memory) => Err(AllocError),
        }
    }
}
