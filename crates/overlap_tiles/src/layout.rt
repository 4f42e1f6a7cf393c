#![tactic(auto)]
//! The layout of a tile: its plan without identities.

ghost use Rattle.std.specs.Prelude.{◌≡◌, ◌≤◌, ◌++◌, ◌∷◌, [], map, IfOk, IfErr, IfSome, IfNone};
ghost use Rattle.domains.specs.Area.{IsArea};
ghost use Rattle.job.specs.Identity.{HasTileAt};
ghost use Rattle.job.specs.Kept.{pipeline_in};
ghost use Rattle.tile_boxes.specs.Costs.{points_in, most_scratch};
ghost use Rattle.tile_boxes.specs.Schedules.{is_inlined};
ghost use Rattle.tile_boxes.specs.Targets.{boxes, target_over};
ghost use Rattle.overlap_tiles.specs.Plans.{IsTileAt, IsTileLayout, IsFittingLayout, IsTargetFault, IsPlanFault};
ghost use Rattle.overlap_tiles.specs.Places.{IsPlaceOf, HasNoPlace};
ghost use Rattle.overlap_tiles.specs.Ranges.{LieWithin};
ghost use Rattle.overlap_tiles.specs.Views.{step_view, need_view};
ghost use Rattle.overlap_tiles.specs.inside.Made.{list_last_reader_places_by_stage, ranges_by};
ghost use Rattle.overlap_tiles.specs.inside.Placed.{ArePlaces};

use crate::fault::PlanFault;
use crate::lives::{list_last_reader_places_by_stage, record_stage_as_last_reader};
use crate::needs::{NeededTile, list_tile_needs};
use crate::places::{list_step_places_by_stage, look_up_step_place};
use crate::ranges::{assign_scratch_ranges, find_size_of_scratch_ranges};
use crate::steps::{
    TileStep, append_target_to_tile_plan, count_points_of_stage_area,
    list_inlined_boxes_as_tile_plan_steps, sum_points_within_scratch_limit,
};
use domains::Area;
use grouping::Schedule;
use job::Job;
use std::alloc::{AllocError, Global};
use std::marker::Model;

/// How one tile is computed, without identities: the stored tiles that it needs, what is computed in which order, and where each
/// step but the last lies in scratch memory. It is made by one schedule. Nothing is hashed for it. Only `new` makes one.
#[derive(Debug, Drop)]
pub struct TileLayout<'a> {
    schedule: &'a Schedule,
    needs: Vec<NeededTile>,
    steps: Vec<TileStep>,
    points: u64,
    ranges: Vec<(usize, usize)>,
    scratch: usize,
    places: Vec<Option<usize>>,
    ghost placed: { ArePlaces (map step_view steps.items) places.items },
}

impl<'a> Model for TileLayout<'a> {
    ghost use Rattle.std.specs.Prelude.{map};
    ghost use Rattle.overlap_tiles.specs.Plans.{TileLayout as Outline};
    ghost use Rattle.overlap_tiles.specs.Views.{step_view, need_view};

    ghost Value = { Outline };

    ghost view = { λ l. record {
      needs =
          map need_view l.needs.items;
      steps =
          map step_view l.steps.items;
      points =
          l.points;
      ranges =
          l.ranges.items;
      scratch = l.scratch;
      inlining = l.schedule.now.inlining;
    } };
}

// The area of a tile of a function or accumulator.
fn find_area_of_target_tile(job: &Job, stage: usize, row: u32, col: u32) -> Option<Area>
    ensures some { IfSome result (IsTileAt (pipeline_in job.now) stage row col) }
    ensures within { IfSome result IsArea }
    ensures none { IfNone result (¬ (HasTileAt (pipeline_in job.now) stage row col)) }
{
    job.grid(stage)?.tile(row, col)
}

// The ranges of the steps before the target.
fn assign_inner_scratch_ranges(
    alloc: Global,
    job: &Job,
    inner: &[TileStep],
    target: TileStep,
) -> Result<Vec<(usize, usize)>, AllocError>
    requires { points_in (map step_view inner.now) ≤ most_scratch }
    ensures ranges { IfOk result (λ ranges. ranges.items
        ≡ ranges_by (list_last_reader_places_by_stage (pipeline_in job.now)
        (map step_view inner.now ++ step_view target ∷ []))
        (map step_view inner.now)) }
    ensures within { IfOk result (λ ranges. LieWithin most_scratch ranges.items) }
{
    if inner.is_empty() {
        return Ok(Vec::new(alloc));
    }
    let mut lasts = list_last_reader_places_by_stage(alloc, job, inner)?;
    record_stage_as_last_reader(&mut lasts, job, target.stage, inner.len());
    assign_scratch_ranges(alloc, inner, &lasts)
}

impl<'a> TileLayout<'a> {
    /// The layout of the tile in this row and this column of a function's or accumulator's grid.
    ///
    /// # Errors
    ///
    /// Fails where there is no such tile, where the boxes of what is inlined have more points together than
    /// `grouping::MOST_SCRATCH`, and where memory is refused.
    pub fn new(
        alloc: Global,
        job: &Job,
        schedule: &'a Schedule,
        stage: usize,
        row: u32,
        col: u32,
    ) -> Result<TileLayout<'a>, PlanFault>
        ensures layout { IfOk result
            (IsTileLayout (pipeline_in job.now) schedule.now.inlining stage row col) }
        ensures fault { IfErr result
            (IsPlanFault (pipeline_in job.now) schedule.now.inlining stage row col) }
    {
        let Some(area) = find_area_of_target_tile(job, stage, row, col) else {
            return Err(PlanFault::NoSuchTile);
        };
        let target = TileStep { stage, area };
        let boxes = schedule.boxes(alloc, job, stage, target.area)?;
        TileLayout::from_boxes(alloc, job, schedule, target, &boxes)
    }

    // The layout of a target that has these boxes.
    fn from_boxes(
        alloc: Global,
        job: &Job,
        schedule: &'a Schedule,
        target: TileStep,
        found: &[(usize, Area)],
    ) -> Result<TileLayout<'a>, PlanFault>
        requires area { IsArea target.area }
        requires boxes { found.now
            ≡ boxes (target_over (pipeline_in job.now) schedule.now.inlining target.stage
            target.area) }
        ensures layout { IfOk result (IsFittingLayout
            (target_over (pipeline_in job.now) schedule.now.inlining target.stage target.area)) }
        ensures fault { IfErr result (IsTargetFault
            (target_over (pipeline_in job.now) schedule.now.inlining target.stage target.area)) }
    {
        let steps = list_inlined_boxes_as_tile_plan_steps(alloc, schedule, found)?;
        let Some(inner) = sum_points_within_scratch_limit(&steps) else {
            return Err(PlanFault::ScratchTooBig);
        };
        let needs = list_tile_needs(alloc, job, schedule, found)?;
        let places = list_step_places_by_stage(alloc, job, &steps)?;
        let ranges = assign_inner_scratch_ranges(alloc, job, &steps, target)?;
        let scratch = find_size_of_scratch_ranges(&ranges);
        let all = append_target_to_tile_plan(steps, target)?;
        Ok(TileLayout {
            schedule,
            needs,
            steps: all,
            points: inner + count_points_of_stage_area(&target.area),
            ranges,
            scratch,
            places,
        })
    }

    /// The tiles of stored functions that it reads, each once: stage by stage, and those of a stage row by row.
    pub fn needs(&self) -> &[NeededTile]
        ensures { map need_view result.now ≡ self.now.needs }
    {
        &self.needs
    }

    /// What is computed, in this order: the inlined stages that it needs, each over its box, and at last the tile.
    pub fn steps(&self) -> &[TileStep]
        ensures { map step_view result.now ≡ self.now.steps }
    {
        &self.steps
    }

    /// The number of points that are computed.
    pub(crate) fn points(&self) -> u64
        ensures { result ≡ self.now.points }
    {
        self.points
    }

    /// Where the steps but the last lie in scratch memory, each by its start and its length. In their order each starts at the
    /// least place where it meets no range that is still to be read.
    pub fn ranges(&self) -> &[(usize, usize)]
        ensures { result.now ≡ self.now.ranges }
    {
        &self.ranges
    }

    /// The number of points of the scratch memory.
    pub fn scratch(&self) -> usize
        ensures { result ≡ self.now.scratch }
    {
        self.scratch
    }

    /// The place of this stage among the steps but the last; none if it is not one of them.
    pub fn find_step_place(&self, stage: usize) -> Option<usize>
        ensures some { IfSome result (IsPlaceOf self.now.steps stage) }
        ensures none { IfNone result (HasNoPlace self.now.steps stage) }
    {
        look_up_step_place(&self.places, stage)
    }

    /// Whether the stage of this number is inlined by the schedule of the layout.
    pub fn inlined(&self, stage: usize) -> bool
        ensures { result ≡ is_inlined self.now.inlining stage }
    {
        self.schedule.inlined(stage)
    }
}
