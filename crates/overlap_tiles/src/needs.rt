#![tactic(auto)]
//! Which tiles of stored functions are needed.

ghost use Rattle.std.specs.Prelude.{◌≡◌, ◌++◌, length, map, IfOk, OnOk};
ghost use Rattle.std.specs.List.{flat_map, range_with_len};
ghost use Rattle.job.specs.Kept.{pipeline_in};
ghost use Rattle.overlap_tiles.specs.Needs.{tile_of_stage};
ghost use Rattle.overlap_tiles.specs.inside.Made.{find_stage_area_in_boxes, stage_needs};
ghost use Rattle.overlap_tiles.specs.Views.{need_view};

use domains::Area;
use grouping::Schedule;
use job::Job;
use std::alloc::{AllocError, Global};

/// A stored tile that is read: the number of its stage, and its row and column in the stage's grid.
#[derive(Clone, Copy, Debug, PartialEq, Eq)]
pub struct NeededTile {
    pub stage: usize,
    pub row: u32,
    pub col: u32,
}

// The area of a stage in a list.
fn find_stage_area_in_boxes(boxes: &[(usize, Area)], stage: usize) -> Option<Area>
    ensures { result ≡ find_stage_area_in_boxes boxes.now stage }
{
    boxes
        .iter()
        .find(|found| found.0 == stage)
        .map(|found| found.1)
}

fn push_listed_tiles_as_tile_needs(
    needs: &mut Vec<NeededTile>,
    stage: usize,
    tiles: &[(u32, u32)],
) -> Result<(), AllocError>
    ensures { OnOk result (map need_view needs.new.items
        ≡ map need_view needs.old.items ++ map (tile_of_stage stage) tiles.now) }
{
    for tile in tiles {
        let (row, col) = *tile;
        needs.push(NeededTile { stage, row, col })?;
    }
    Ok(())
}

// Adds the tiles of a stored stage that meet its box.
fn push_tile_needs_of_stage(
    needs: &mut Vec<NeededTile>,
    alloc: Global,
    job: &Job,
    schedule: &Schedule,
    boxes: &[(usize, Area)],
    stage: usize,
) -> Result<(), AllocError>
    ensures { OnOk result (map need_view needs.new.items
        ≡ map need_view needs.old.items
        ++ stage_needs (pipeline_in job.now) schedule.now.inlining boxes.now stage) }
{
    if schedule.inlined(stage) {
        return Ok(());
    }
    if let (Some(grid), Some(area)) = (job.grid(stage), find_stage_area_in_boxes(boxes, stage)) {
        push_listed_tiles_as_tile_needs(needs, stage, &grid.cover(alloc, &area)?)?;
    }
    Ok(())
}

/// The tiles of stored stages that meet their boxes, stage by stage.
#[tactic(auto, using(tile_boxes::proofs::Lists::flat_map_range_more))]
pub(crate) fn list_tile_needs(
    alloc: Global,
    job: &Job,
    schedule: &Schedule,
    boxes: &[(usize, Area)],
) -> Result<Vec<NeededTile>, AllocError>
    ensures { IfOk result (λ needs. map need_view needs.items
        ≡ flat_map (stage_needs (pipeline_in job.now) schedule.now.inlining boxes.now)
        (range_with_len 0 (length (pipeline_in job.now).stages))) }
{
    let mut needs = Vec::new(alloc);
    for stage in 0..job.stages().len() {
        push_tile_needs_of_stage(&mut needs, alloc, job, schedule, boxes, stage)?;
    }
    Ok(needs)
}
