#![tactic(auto)]
//! What stages cost: how many points are computed for their tiles.

ghost use Rattle.std.specs.Prelude.{◌≡◌, ◌<◌, ◌+◌, ◌^◌, ◌++◌, ◌&&◌, ℕ, true, [], ◌∷◌, map, nat_le, slice_get, All, IfOk, OnOk};
ghost use Rattle.std.specs.Option.{option_map, option_map_or};
ghost use Rattle.std.specs.List.{sum};
ghost use Rattle.domains.specs.Tiles.{tile_rows, tile_cols};
ghost use Rattle.job.specs.Kept.{pipeline_in};
ghost use Rattle.job.specs.Views.{stage_view};
ghost use Rattle.job.specs.Reads.{reads_of};
ghost use Rattle.tile_boxes.specs.Order.{order_stages_by_rank};
ghost use Rattle.tile_boxes.specs.Targets.{IsTarget, box};
ghost use Rattle.tile_boxes.specs.Walks.{target_of, cut_hull};
ghost use Rattle.tile_boxes.specs.Costs.{scratch, most_scratch, cost};
ghost use Rattle.tile_boxes.specs.Costs.{AllFitScratch, survey_stage_costs};
ghost use Rattle.tile_boxes.specs.Costs.{stage_fits};
ghost use Rattle.tile_boxes.specs.Tallies.{list_tile_columns, area_of, list_tile_areas, over, count_points_of_inlined_stage_or_zero, points_over, all_have_scratch, has_only_stored_reads};

use crate::inlining::InlinedStages;
use crate::order::order_stages_by_rank;
use crate::target::BoxWalk;
use domains::{Area, Grid, Span};
use job::{Job, Stage};
use std::alloc::{AllocError, Global};

/// The most points that a tile may have in scratch memory.
pub const MOST_SCRATCH: u64 = 67_108_864;

// The columns of the tiles in a row.
fn list_tile_columns(alloc: Global, grid: &Grid, count: u32) -> Result<Vec<Span>, AllocError>
    requires some { 0 < tile_rows grid.now }
    requires count { count ≡ tile_cols grid.now }
    ensures { IfOk result (λ v. v.items ≡ list_tile_columns grid.now count) }
{
    let mut columns = Vec::with_capacity(alloc, count as usize)?;
    for j in 0..count {
        if let Some(tile) = grid.tile(0, j) {
            columns.push(tile.cols)?;
        }
    }
    Ok(columns)
}

// Puts the areas of these rows, and of each of these columns, after the others.
fn push_tile_areas_of_row(
    areas: &mut Vec<Area>,
    rows: &Span,
    columns: &[Span],
) -> Result<(), AllocError>
    ensures { OnOk result (areas.new.items ≡ areas.old.items ++ map (area_of rows.now) columns.now) }
{
    for cols in columns {
        areas.push(Area {
            rows: *rows,
            cols: *cols,
        })?;
    }
    Ok(())
}

/// The areas of a grid's tiles, row by row.
///
/// # Errors
///
/// Fails only where memory is refused.
pub fn list_tile_areas(alloc: Global, grid: &Grid) -> Result<Vec<Area>, AllocError>
    ensures { IfOk result (λ areas. areas.items ≡ list_tile_areas grid.now) }
{
    let rows = grid.tile_rows();
    let columns = list_tile_columns(alloc, grid, grid.tile_cols())?;
    let mut areas = Vec::with_capacity(alloc, grid.tiles() as usize)?;
    for i in 0..rows {
        if let Some(tile) = grid.tile(i, 0) {
            push_tile_areas_of_row(&mut areas, &tile.rows, &columns)?;
        }
    }
    Ok(areas)
}

/// How many points some tiles take together, and whether each of them fits in scratch memory.
#[derive(Clone, Copy)]
pub(crate) struct TileTally {
    pub points: u64,
    pub fits: bool,
}

impl TileTally {
    // Adds one tile, with `scratch` points in scratch memory and `own` points of its own.
    fn add_tile(self, scratch: u64, own: u64) -> TileTally
        requires few { self.points + (scratch + own) < 2 ^ 64 }
        ensures points { result.points ≡ self.points + (scratch + own) }
        ensures fits { result.fits ≡ (self.fits && nat_le scratch most_scratch) }
    {
        TileTally {
            points: self.points + (scratch + own),
            fits: self.fits && scratch <= MOST_SCRATCH,
        }
    }
}

impl<'a> BoxWalk<'a> {
    // The same stage over another region.
    fn copy_box_walk_with_region(&self, region: Area) -> BoxWalk<'a>
        ensures { target_of result ≡ over (target_of self.now) region }
    {
        BoxWalk {
            job: self.job,
            schedule: self.schedule,
            stage: self.stage,
            region,
        }
    }
}

impl BoxWalk<'_> {
    fn count_points_of_inlined_stage_or_zero(&self, hulls: &[Option<Area>], number: usize) -> u64
        requires boxes { (g : ℕ) → cut_hull (pipeline_in self.now.job.now).stages hulls.now g
            ≡ box (target_of self.now) g }
        ensures { result ≡ count_points_of_inlined_stage_or_zero (target_of self.now) number }
    {
        if self.schedule.inlined(number) && self.is_function_other_than_target(number) {
            match self.find_stage_box(hulls, number) {
                Some(area) => area.points(),
                None => 0,
            }
        } else {
            0
        }
    }

    fn sum_inlined_points(&self, hulls: &[Option<Area>], numbers: &[usize]) -> u64
        requires boxes { (g : ℕ) → cut_hull (pipeline_in self.now.job.now).stages hulls.now g
            ≡ box (target_of self.now) g }
        requires few { sum (map (count_points_of_inlined_stage_or_zero (target_of self.now)) numbers.now) < 2 ^ 64 }
        ensures { result ≡ sum (map (count_points_of_inlined_stage_or_zero (target_of self.now)) numbers.now) }
    {
        let mut total = 0;
        for number in numbers {
            total += self.count_points_of_inlined_stage_or_zero(hulls, *number);
        }
        total
    }

    /// The points of the boxes of inlined functions.
    ///
    /// # Errors
    ///
    /// Fails only where memory is refused.
    pub fn count_scratch_points(&self, alloc: Global, order: &[usize]) -> Result<u64, AllocError>
        requires target { IsTarget (target_of self.now) }
        requires order { order.now ≡ order_stages_by_rank (pipeline_in self.now.job.now).stages }
        ensures { IfOk result (λ n. n ≡ scratch (target_of self.now)) }
    {
        let hulls = self.find_bounding_boxes(alloc, order)?;
        Ok(self.sum_inlined_points(&hulls, order))
    }

    // The points of the boxes of inlined functions; none for a stage that reads no inlined function.
    fn count_scratch_if_reading_inlined(
        &self,
        alloc: Global,
        order: &[usize],
        is_alone: bool,
    ) -> Result<u64, AllocError>
        requires target { IsTarget (target_of self.now) }
        requires order { order.now ≡ order_stages_by_rank (pipeline_in self.now.job.now).stages }
        requires alone { is_alone ≡ true → scratch (target_of self.now) ≡ 0 }
        ensures { IfOk result (λ n. n ≡ scratch (target_of self.now)) }
    {
        if is_alone {
            Ok(0)
        } else {
            self.count_scratch_points(alloc, order)
        }
    }

    // What the stage takes over each of these areas.
    #[tactic(auto, using(crate::proofs::CostsAddUp::points_is))]
    fn tally_stage_over_tile_areas(
        &self,
        alloc: Global,
        order: &[usize],
        areas: &[Area],
        is_alone: bool,
    ) -> Result<TileTally, AllocError>
        requires targets { All (λ a. IsTarget (over (target_of self.now) a)) areas.now }
        requires order { order.now ≡ order_stages_by_rank (pipeline_in self.now.job.now).stages }
        requires alone { is_alone ≡ true → (a : Area) → scratch (over (target_of self.now) a) ≡ 0 }
        requires few { points_over (target_of self.now) areas.now < 2 ^ 64 }
        ensures points { IfOk result (λ t. t.points ≡ points_over (target_of self.now) areas.now) }
        ensures fits { IfOk result (λ t. t.fits ≡ all_have_scratch (target_of self.now) areas.now) }
    {
        let mut tally = TileTally {
            points: 0,
            fits: true,
        };
        for area in areas {
            let walk = self.copy_box_walk_with_region(*area);
            let scratch = walk.count_scratch_if_reading_inlined(alloc, order, is_alone)?;
            tally = tally.add_tile(scratch, area.points());
        }
        Ok(tally)
    }
}

/// Whether a stage reads nothing that is inlined.
pub(crate) fn has_only_stored_reads(inlining: &InlinedStages, stage: &Stage) -> bool
    ensures { result ≡ has_only_stored_reads inlining.now (reads_of (stage_view stage.now).body) }
{
    for read in stage.reads() {
        if inlining.inlined(read.stage()) {
            return false;
        }
    }
    true
}

/// What the tiles of a stage take, if it has a cost.
pub(crate) fn tally_stage_tiles(
    alloc: Global,
    job: &Job,
    inlining: &InlinedStages,
    order: &[usize],
    number: usize,
) -> Result<Option<TileTally>, AllocError>
    requires order { order.now ≡ order_stages_by_rank (pipeline_in job.now).stages }
    ensures cost { IfOk result (λ t. option_map (λ t. t.points) t
        ≡ cost (pipeline_in job.now) inlining.now number) }
    ensures fits { IfOk result (λ t. option_map_or (λ t. t.fits) t true
        ≡ stage_fits (pipeline_in job.now) inlining.now number
        (slice_get (pipeline_in job.now).stages number)) }
{
    if inlining.inlined(number) {
        return Ok(None);
    }
    let Some(grid) = job.grid(number) else {
        return Ok(None);
    };
    let Some(stage) = job.stage(number) else {
        return Ok(None);
    };
    let is_alone = has_only_stored_reads(inlining, stage);
    let areas = list_tile_areas(alloc, &grid)?;
    let walk = BoxWalk {
        job,
        schedule: inlining,
        stage: number,
        region: grid.area,
    };
    Ok(Some(walk.tally_stage_over_tile_areas(alloc, order, &areas, is_alone)?))
}

/// What the stages of a job cost, and whether each of their tiles fits in scratch memory.
#[derive(Drop)]
pub struct CostSurvey {
    pub costs: Vec<Option<u64>>,
    pub fits: bool,
}

impl CostSurvey {
    fn add_stage_tally(&mut self, tally: Option<TileTally>) -> Result<(), AllocError>
        ensures costs { OnOk result (self.new.costs.items
            ≡ self.old.costs.items ++ option_map (λ t. t.points) tally ∷ []) }
        ensures fits { OnOk result (self.new.fits
            ≡ (self.old.fits && option_map_or (λ t. t.fits) tally true)) }
    {
        match tally {
            Some(tally) => {
                self.costs.push(Some(tally.points))?;
                self.fits = self.fits && tally.fits;
            }
            None => self.costs.push(None)?,
        }
        Ok(())
    }
}

/// What each stage costs.
///
/// # Errors
///
/// Fails only where memory is refused.
pub fn survey_stage_costs(
    alloc: Global,
    job: &Job,
    inlining: &InlinedStages,
) -> Result<CostSurvey, AllocError>
    ensures costs { IfOk result (λ s. s.costs.items ≡ survey_stage_costs (pipeline_in job.now) inlining.now) }
    ensures fits { IfOk result (λ s. s.fits ≡ true
        → AllFitScratch (pipeline_in job.now) inlining.now) }
{
    let order = order_stages_by_rank(alloc, job.stages())?;
    let mut survey = CostSurvey {
        costs: Vec::new(alloc),
        fits: true,
    };
    for number in 0..job.stages().len() {
        survey.add_stage_tally(tally_stage_tiles(alloc, job, inlining, &order, number)?)?;
    }
    Ok(survey)
}
