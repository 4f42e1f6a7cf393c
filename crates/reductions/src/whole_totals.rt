#![tactic(auto)]
//! What an accumulator accumulates from stages that are computed whole, without tiles.

ghost use Rattle.std.specs.Prelude.{◌≡◌, ℤ, List, IfSome, IfNone, IfOk};
ghost use Rattle.domains.specs.Area.{IsArea};
ghost use Rattle.domains.specs.declared.area.Area.{Area};
ghost use Rattle.job.specs.Kept.{pipeline_in};
ghost use Rattle.job.specs.Totals.{totals, totals_over};
ghost use Rattle.whole_stages.specs.Known.{IsServed};
ghost use Rattle.reductions.specs.TruePartials.{IsAccumulatorTile, IsTruePartial, IsDomainPart};

use crate::gather::compute_area_totals;
use domains::{Area, Grid};
use job::{Body, Job};
use std::alloc::{AllocError, Global};
use whole_stages::ComputedWholeStages;

// What a stage accumulates over a part of its domain; nothing if it is no accumulator.
fn compute_true_area_totals(
    alloc: Global,
    stages: &ComputedWholeStages<'_>,
    stage: usize,
    area: &Area,
) -> Result<Vec<i64>, AllocError>
    requires served { IsServed (pipeline_in stages.now.job.now) stages.now.known.buffers.items
        stage }
    requires part { IsDomainPart (pipeline_in stages.now.job.now) stage area.now }
    ensures { IfOk result
        (λ bins. bins.items ≡ totals_over (pipeline_in stages.now.job.now) area.now stage) }
{
    let Some(found) = stages.job().stage(stage) else {
        return Ok(Vec::new(alloc));
    };
    match found.body() {
        Body::Accumulator(accumulator) => compute_area_totals(
            alloc,
            stages.known_buffers(),
            accumulator,
            area,
        ),
        Body::Plane(_) | Body::Function(_) => Ok(Vec::new(alloc)),
    }
}

/// The area of an accumulator's tile in this row and column of its grid; none where it has no such tile, or no accumulator has this
/// number.
pub fn find_accumulator_tile_area(job: &Job, stage: usize, row: u32, col: u32) -> Option<Area>
    ensures some { IfSome result (IsAccumulatorTile (pipeline_in job.now) stage row col) }
    ensures area { IfSome result IsArea }
    ensures none { IfNone result
        ((area : Area) → ¬ (IsAccumulatorTile (pipeline_in job.now) stage row col area)) }
{
    let found = job.stage(stage)?;
    match found.body() {
        Body::Accumulator(_) => Grid::new(*found.domain(), job.sides()).tile(row, col),
        Body::Plane(_) | Body::Function(_) => None,
    }
}

/// What an accumulator accumulates in its bins, rising, over all that it reduces. Each stage that it reads is computed whole
/// first, without tiles. There are no bins if the stage of this number is no accumulator, or there is none.
///
/// # Errors
///
/// Fails only where memory is refused.
pub fn whole(alloc: Global, job: &Job, stage: usize) -> Result<Vec<i64>, AllocError>
    ensures { IfOk result (λ bins. bins.items ≡ totals (pipeline_in job.now) stage) }
{
    let Some(domain) = job.domain(stage) else {
        return Ok(Vec::new(alloc));
    };
    let stages = ComputedWholeStages::from_job(alloc, job, &[stage])?;
    compute_true_area_totals(alloc, &stages, stage, &domain)
}

/// What an accumulator accumulates in its bins, rising, over its tile in this row and column of its grid. It reads stages that
/// are computed whole. None if it has no such tile, or no accumulator has this number.
///
/// # Errors
///
/// Fails only where memory is refused.
pub fn compute_true_partial(
    alloc: Global,
    stages: &ComputedWholeStages<'_>,
    stage: usize,
    row: u32,
    col: u32,
) -> Result<Option<Vec<i64>>, AllocError>
    requires { IsServed (pipeline_in stages.now.job.now) stages.now.known.buffers.items stage }
    ensures some { IfOk result (λ found. IfSome found
        (λ bins. IsTruePartial (pipeline_in stages.now.job.now) stage row col bins.items)) }
    ensures none { IfOk result (λ found. IfNone found
        ((bins : List ℤ) → ¬ (IsTruePartial (pipeline_in stages.now.job.now) stage row col bins))) }
{
    match find_accumulator_tile_area(stages.job(), stage, row, col) {
        Some(area) => Ok(Some(compute_true_area_totals(alloc, stages, stage, &area)?)),
        None => Ok(None),
    }
}
