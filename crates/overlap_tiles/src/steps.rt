#![tactic(auto)]
//! What is computed for a tile, step by step.

ghost use Rattle.std.specs.Prelude.{◌≡◌, ◌≤◌, ◌<◌, ◌^◌, ◌++◌, ◌∷◌, [], map, filter, IfOk, IfSome, IfNone};
ghost use Rattle.domains.specs.Area.{point_count};
ghost use Rattle.tile_boxes.specs.Schedules.{is_inlined};
ghost use Rattle.tile_boxes.specs.Costs.{points_in, most_scratch};
ghost use Rattle.overlap_tiles.specs.Views.{step_view};

use domains::Area;
use grouping::{MOST_SCRATCH, Schedule};
use std::alloc::{AllocError, Global};

/// A stage, and the area over which it is computed.
#[derive(Clone, Copy, Debug, PartialEq, Eq)]
pub struct TileStep {
    pub stage: usize,
    pub area: Area,
}

/// The steps of those boxes whose stages are inlined.
pub(crate) fn list_inlined_boxes_as_tile_plan_steps(
    alloc: Global,
    schedule: &Schedule,
    boxes: &[(usize, Area)],
) -> Result<Vec<TileStep>, AllocError>
    ensures { IfOk result (λ steps. map step_view steps.items
        ≡ filter (λ s. is_inlined schedule.now.inlining s.0) boxes.now) }
{
    let mut steps = Vec::new(alloc);
    for found in boxes {
        let (stage, area) = *found;
        if schedule.inlined(stage) {
            steps.push(TileStep { stage, area })?;
        }
    }
    Ok(steps)
}

/// These steps, and the target as the last.
pub(crate) fn append_target_to_tile_plan(
    steps: Vec<TileStep>,
    target: TileStep,
) -> Result<Vec<TileStep>, AllocError>
    ensures { IfOk result (λ all. all.items ≡ steps.items ++ target ∷ []) }
{
    let mut all = steps;
    all.push(target)?;
    Ok(all)
}

// The points of an area are few enough that those of many areas can be added.
#[tactic(auto, using(crate::proofs::PointsAreFew::few_points))]
pub(crate) fn count_points_of_stage_area(area: &Area) -> u64
    ensures number { result ≡ point_count area.now }
    ensures few { result < 2 ^ 43 }
{
    area.points()
}

/// The points of the steps' areas together; none if they are more than scratch memory may have.
pub(crate) fn sum_points_within_scratch_limit(steps: &[TileStep]) -> Option<u64>
    ensures number { IfSome result (λ n. n ≡ points_in (map step_view steps.now)) }
    ensures few { IfSome result (λ n. n ≤ most_scratch) }
    ensures many { IfNone result (most_scratch < points_in (map step_view steps.now)) }
{
    let mut total = 0;
    for step in steps {
        total += count_points_of_stage_area(&step.area);
        if total > MOST_SCRATCH {
            return None;
        }
    }
    Some(total)
}
