#![tactic(auto)]
//! The keys of the tiles that a job computes by a schedule, and of those that its answer consists of.

ghost use Rattle.std.specs.Prelude.{◌≡◌, ◌++◌, map, filter, length, AllPairs, IfOk, OnOk};
ghost use Rattle.std.specs.List.{flat_map, range_with_len};
ghost use Rattle.domains.specs.Tiles.{tiles_of};
ghost use Rattle.job.specs.Answers.{tiles, is_result};
ghost use Rattle.job.specs.Kept.{pipeline_in, program_id_in};
ghost use Rattle.tile_boxes.specs.Order.{order_stages_by_rank};
ghost use Rattle.overlap_tiles.specs.Needs.{key_of, IsKeyBefore};
ghost use Rattle.overlap_tiles.specs.Work.{is_stored_or_accumulator_work_stage, work_keys, wanted_keys};
ghost use Rattle.overlap_tiles.specs.inside.Keyed.{key_at, row_keys, Names};

use domains::Grid;
use grouping::{Schedule, order_stages_by_rank};
use identity::Key;
use job::{Job, StageKind};
use std::alloc::{AllocError, Global};

/// The keys of all tiles of the stored functions and of the accumulators: stage by stage in dependence order, and row by row. The
/// job's input is hashed at most once.
///
/// # Errors
///
/// Fails only where memory is refused.
pub fn list_work_keys(alloc: Global, job: &Job, schedule: &Schedule) -> Result<Vec<Key>, AllocError>
    ensures { IfOk result (λ keys. keys.items
        ≡ work_keys (program_id_in job.now) (pipeline_in job.now) schedule.now.inlining) }
{
    let stages = list_work_stages(alloc, job, schedule)?;
    list_work_keys_of_tiles_of_stages(alloc, job, &stages)
}

/// The keys of the tiles that the answer of a job consists of: those of its outputs and accumulators. They rise. The job's input
/// is hashed at most once.
///
/// # Errors
///
/// Fails only where memory is refused.
pub fn list_work_keys_of_results(alloc: Global, job: &Job) -> Result<Vec<Key>, AllocError>
    ensures list { IfOk result (λ keys. keys.items
        ≡ wanted_keys (program_id_in job.now) (pipeline_in job.now)) }
    ensures rising { IfOk result (λ keys. AllPairs IsKeyBefore keys.items) }
{
    let stages = list_result_work_stages(alloc, job)?;
    let keys = list_work_keys_of_tiles_of_stages(alloc, job, &stages)?;
    Ok(keys)
}

// Whether the tiles of a stage are computed.
fn is_stored_or_accumulator_work_stage(job: &Job, schedule: &Schedule, stage: usize) -> bool
    ensures { result ≡ is_stored_or_accumulator_work_stage (pipeline_in job.now) schedule.now.inlining stage }
{
    match job.kind(stage) {
        Some(StageKind::Function) => !schedule.inlined(stage),
        Some(StageKind::Accumulator) => true,
        Some(StageKind::Plane) | None => false,
    }
}

// The stages whose tiles are computed, in dependence order.
fn list_work_stages(alloc: Global, job: &Job, schedule: &Schedule) -> Result<Vec<usize>, AllocError>
    ensures { IfOk result (λ made. made.items
        ≡ filter (is_stored_or_accumulator_work_stage (pipeline_in job.now) schedule.now.inlining)
        (order_stages_by_rank (pipeline_in job.now).stages)) }
{
    let mut made = Vec::new(alloc);
    let order = order_stages_by_rank(alloc, job.stages())?;
    for stage in order.iter() {
        if is_stored_or_accumulator_work_stage(job, schedule, *stage) {
            made.push(*stage)?;
        }
    }
    Ok(made)
}

// The stages whose tiles belong to the answer, rising.
#[tactic(auto, using(tile_boxes::proofs::Lists::passes_more, tile_boxes::proofs::Lists::fails_more))]
fn list_result_work_stages(alloc: Global, job: &Job) -> Result<Vec<usize>, AllocError>
    ensures { IfOk result (λ results. results.items
        ≡ filter (is_result (pipeline_in job.now))
        (range_with_len 0 (length (pipeline_in job.now).stages))) }
{
    let mut results = Vec::new(alloc);
    for stage in 0..job.stages().len() {
        if job.is_result(stage) {
            results.push(stage)?;
        }
    }
    Ok(results)
}

// The keys of the tiles of these stages, stage by stage and row by row.
fn list_work_keys_of_tiles_of_stages(
    alloc: Global,
    job: &Job,
    stages: &[usize],
) -> Result<Vec<Key>, AllocError>
    ensures { IfOk result (λ keys. keys.items
        ≡ map (key_of (program_id_in job.now) (pipeline_in job.now))
        (flat_map (tiles (pipeline_in job.now)) stages.now)) }
{
    let mut keys = Vec::new(alloc);
    let named = Key {
        program: job.program_id(),
        input: job.input_id(),
        stage: 0,
        row: 0,
        col: 0,
    };
    for stage in stages {
        push_work_keys_of_tiles_of_stage(&mut keys, job, &named, *stage)?;
    }
    Ok(keys)
}

// Adds the keys of the tiles of a stage. The key that is passed has the identities of the program and of its input.
fn push_work_keys_of_tiles_of_stage(
    keys: &mut Vec<Key>,
    job: &Job,
    named: &Key,
    stage: usize,
) -> Result<(), AllocError>
    requires { Names (program_id_in job.now) (pipeline_in job.now) named.now }
    ensures { OnOk result (keys.new.items
        ≡ keys.old.items ++ map (key_of (program_id_in job.now) (pipeline_in job.now))
        (tiles (pipeline_in job.now) stage)) }
{
    if let Some(grid) = job.grid(stage) {
        let first = Key {
            program: named.program,
            input: named.input,
            stage: stage as u16,
            row: 0,
            col: 0,
        };
        push_work_keys_of_grid(keys, &first, &grid)?;
    }
    Ok(())
}

// Adds the keys of the tiles of a grid, row by row.
#[tactic(auto, using(tile_boxes::proofs::Lists::flat_map_range_more))]
fn push_work_keys_of_grid(keys: &mut Vec<Key>, first: &Key, grid: &Grid) -> Result<(), AllocError>
    ensures { OnOk result (keys.new.items
        ≡ keys.old.items ++ map (key_at first.now) (tiles_of grid.now)) }
{
    let cols = grid.tile_cols();
    for row in 0..grid.tile_rows() {
        push_work_keys_of_tile_row(keys, first, row, cols)?;
    }
    Ok(())
}

// Adds the keys of the first tiles of a row.
#[tactic(auto, using(tile_boxes::proofs::Lists::map_range_more))]
fn push_work_keys_of_tile_row(
    keys: &mut Vec<Key>,
    first: &Key,
    row: u32,
    cols: u32,
) -> Result<(), AllocError>
    ensures { OnOk result (keys.new.items ≡ keys.old.items ++ row_keys first.now cols row) }
{
    for col in 0..cols {
        keys.push(Key {
            program: first.program,
            input: first.input,
            stage: first.stage,
            row,
            col,
        })?;
    }
    Ok(())
}
