#![tactic(auto)]
//! The sizes of a job's stages.

ghost use Rattle.std.specs.Prelude.{All, ◌≡◌, ◌↔◌, IsTrue, IfSome, IfNone, slice_get, slice_index, length};
ghost use Rattle.std.specs.Option.{option_map_or};
ghost use Rattle.domains.specs.Span.{len_of};
ghost use Rattle.job.specs.Answers.{height_of, width_of};
ghost use Rattle.job.specs.Views.{stage_view, output_view, pipeline_of};
ghost use Rattle.binding.specs.Fits.{HasSides, IsShaped, ShapesFit, TilesFit, tile_count};
ghost use Rattle.binding.specs.BindFaults.{IsSizeFault, IsFirstCrowded};

use crate::fault::BindFault;
use domains::Grid;
use job::{Body, BoundPipeline, Output, Stage};
use netpbm::LONGEST_SIDE;

/// The most tiles that a stage may have.
const MOST_TILES: u64 = 65536;

// How many rows the domain of a stage has.
fn count_resolved_stage_rows(pipeline: &BoundPipeline, stage: usize) -> u32
    ensures { result ≡ height_of (pipeline_of pipeline.now) stage }
{
    match pipeline.stages.as_slice().get(stage) {
        Some(stage) => stage.domain().rows.len(),
        None => 0,
    }
}

fn count_resolved_stage_columns(pipeline: &BoundPipeline, stage: usize) -> u32
    ensures { result ≡ width_of (pipeline_of pipeline.now) stage }
{
    match pipeline.stages.as_slice().get(stage) {
        Some(stage) => stage.domain().cols.len(),
        None => 0,
    }
}

fn is_resolved_stage_of_exact_size(
    pipeline: &BoundPipeline,
    rows: u32,
    columns: u32,
    stage: usize,
) -> bool
    ensures { IsTrue result ↔ HasSides (pipeline_of pipeline.now) rows columns stage }
{
    count_resolved_stage_rows(pipeline, stage) == rows
        && count_resolved_stage_columns(pipeline, stage) == columns
}

fn are_resolved_stages_of_exact_size(
    pipeline: &BoundPipeline,
    rows: u32,
    columns: u32,
    stages: &[usize],
) -> bool
    ensures { IsTrue result ↔ All (HasSides (pipeline_of pipeline.now) rows columns) stages.now }
{
    for stage in stages {
        if !is_resolved_stage_of_exact_size(pipeline, rows, columns, *stage) {
            return false;
        }
    }
    true
}

fn can_bind_output_shape(pipeline: &BoundPipeline, output: &Output) -> bool
    ensures { IsTrue result ↔ IsShaped (pipeline_of pipeline.now) (output_view output.now) }
{
    let first = output.first_stage();
    let rows = count_resolved_stage_rows(pipeline, first);
    let columns = count_resolved_stage_columns(pipeline, first);
    rows <= LONGEST_SIDE
        && columns <= LONGEST_SIDE
        && are_resolved_stages_of_exact_size(pipeline, rows, columns, output.stages())
}

fn can_bind_output_if_any(pipeline: &BoundPipeline) -> bool
    ensures { IsTrue result ↔ ShapesFit (pipeline_of pipeline.now) }
{
    match &pipeline.output {
        Some(output) => can_bind_output_shape(pipeline, output),
        None => true,
    }
}

fn count_resolved_stage_tiles(pipeline: &BoundPipeline, stage: &Stage) -> u64
    ensures { result ≡ tile_count (pipeline_of pipeline.now) (stage_view stage.now) }
{
    match stage.body() {
        Body::Plane(_) => 0,
        Body::Function(_) | Body::Accumulator(_) => Grid::new(
            *stage.domain(),
            pipeline.sides,
        ).tiles(),
    }
}

// The first stage that has too many tiles.
fn find_resolved_stage_with_too_many_tiles(pipeline: &BoundPipeline) -> Option<usize>
    ensures some { IfSome result (IsFirstCrowded (pipeline_of pipeline.now)) }
    ensures none { IfNone result (TilesFit (pipeline_of pipeline.now)) }
{
    for (number, stage) in pipeline.stages.iter().enumerate() {
        if count_resolved_stage_tiles(pipeline, stage) > MOST_TILES {
            return Some(number);
        }
    }
    None
}

/// The fault of the sizes of the stages, if there is one.
pub(crate) fn find_bind_fault_of_sizes(pipeline: &BoundPipeline) -> Option<BindFault>
    ensures some { IfSome result (IsSizeFault (pipeline_of pipeline.now)) }
    ensures none { IfNone result
        (ShapesFit (pipeline_of pipeline.now) × TilesFit (pipeline_of pipeline.now)) }
{
    if !can_bind_output_if_any(pipeline) {
        return Some(BindFault::OutputShapes);
    }
    match find_resolved_stage_with_too_many_tiles(pipeline) {
        Some(stage) => Some(BindFault::TooManyTiles(stage)),
        None => None,
    }
}
