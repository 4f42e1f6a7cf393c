#![tactic(auto)]
//! What an accumulator accumulates over a tile, from what is supplied.

ghost use Rattle.std.specs.Prelude.{◌≡◌, ℕ, Bool, List, None, IfOk, IfErr, OnOk, OnErr};
ghost use Rattle.job.specs.Kept.{pipeline_in, program_id_in};
ghost use Rattle.overlap_tiles.specs.Plans.{IsTilePlan, IsTileLayout};
ghost use Rattle.tile_sources.specs.KnownTiles.{AreTrue, AreWhole};
ghost use Rattle.one_tile.specs.Runs.{first_missing, NeedsGiven, IsSomeLayout, IsEvalFault};
ghost use Rattle.overlap_tiles.specs.Views.{step_view};
ghost use Rattle.reductions.specs.Bins.{joined_bins};
ghost use Rattle.reductions.specs.Accumulating.{AreBins};
ghost use Rattle.reductions.specs.GatherRooms.{IsAccumulatorOf};
ghost use Rattle.partials.specs.Partials.{TookLocalTotals};
ghost use Rattle.partials.specs.inside.LastSteps.{IsLastStep};
ghost use Rattle.partials.specs.Partials.{local_totals, AreLocalTotals, AreTotalsOn, IsAccumulatorPlan};

use job::{Accumulator, Body, Job};
use one_tile::{EvalFault, TileInputs, TileJob, TileScratch, find_first_key_of_unsupplied_tile};
use overlap_tiles::{TilePlan, TileStep};
use reductions::{AccumulatorBuffers, create_start_bins};
use std::alloc::{AllocError, Global};
use tile_sources::TileSource;

// Joins to each bin what an accumulator accumulates in it over the last step's area. All buffers are grown before the first value
// is computed.
fn accumulate_last_step_partial<K: TileSource>(
    alloc: Global,
    tile: &TileJob<'_, K>,
    step: &TileStep,
    accumulator: &Accumulator,
    scratch: &mut TileScratch,
    rows: &mut AccumulatorBuffers,
    bins: &mut [i64],
) -> Result<(), AllocError>
    requires layout { IsSomeLayout (pipeline_in tile.now.job.now) tile.now.layout.now }
    requires needs { NeedsGiven (K.given tile.now.known.now) tile.now.layout.now.needs }
    requires last { IsLastStep tile.now.layout.now.steps (step_view step.now) }
    requires accumulator { IsAccumulatorOf (pipeline_in tile.now.job.now) step.now.stage
        accumulator.now }
    requires bins { AreBins accumulator.now bins.old }
    ensures ok { OnOk result (bins.new
        ≡ joined_bins accumulator.now.fold bins.old (local_totals (pipeline_in tile.now.job.now)
        tile.now.layout.now.inlining (K.given tile.now.known.now) step.now.area step.now.stage)) }
    ensures err { OnErr result (bins.new ≡ bins.old) }
{
    rows.grow_for_area(accumulator, &step.area)?;
    let boxes = tile.compute_values_of_inlined_boxes(alloc, scratch)?;
    let tile = *tile;
    let inputs = TileInputs { tile, boxes };
    rows.accumulate_area_into_bins(&inputs, accumulator, &step.area, bins);
    Ok(())
}

/// Joins to each bin what an accumulator accumulates in it over its tile.
///
/// # Errors
///
/// Fails only where memory is refused; then the bins are unchanged.
pub fn accumulate_tile_partial<K: TileSource>(
    alloc: Global,
    tile: &TileJob<'_, K>,
    accumulator: &Accumulator,
    scratch: &mut TileScratch,
    rows: &mut AccumulatorBuffers,
    bins: &mut [i64],
) -> Result<(), AllocError>
    requires layout { IsSomeLayout (pipeline_in tile.now.job.now) tile.now.layout.now }
    requires needs { NeedsGiven (K.given tile.now.known.now) tile.now.layout.now.needs }
    requires accumulator { (inlining : List Bool) (g i j : ℕ)
        → IsTileLayout (pipeline_in tile.now.job.now) inlining g i j tile.now.layout.now
        → IsAccumulatorOf (pipeline_in tile.now.job.now) g accumulator.now }
    requires bins { AreBins accumulator.now bins.old }
    ensures ok { OnOk result ((inlining : List Bool) (g i j : ℕ)
        → IsTileLayout (pipeline_in tile.now.job.now) inlining g i j tile.now.layout.now
        → TookLocalTotals (pipeline_in tile.now.job.now) inlining (K.given tile.now.known.now) g i j
        accumulator.now.fold bins.old bins.new) }
    ensures err { OnErr result (bins.new ≡ bins.old) }
{
    let Some(step) = tile.layout.steps().last() else {
        unreachable!()
    };
    accumulate_last_step_partial(alloc, tile, step, accumulator, scratch, rows, bins)
}

// What an accumulator accumulates over the last step's area.
fn compute_last_step_partial_of_accumulator<K: TileSource>(
    alloc: Global,
    tile: &TileJob<'_, K>,
    step: &TileStep,
    accumulator: &Accumulator,
    scratch: &mut TileScratch,
) -> Result<Vec<i64>, AllocError>
    requires layout { IsSomeLayout (pipeline_in tile.now.job.now) tile.now.layout.now }
    requires needs { NeedsGiven (K.given tile.now.known.now) tile.now.layout.now.needs }
    requires last { IsLastStep tile.now.layout.now.steps (step_view step.now) }
    requires accumulator { IsAccumulatorOf (pipeline_in tile.now.job.now) step.now.stage
        accumulator.now }
    ensures { IfOk result (λ bins. bins.items
        ≡ local_totals (pipeline_in tile.now.job.now) tile.now.layout.now.inlining
        (K.given tile.now.known.now) step.now.area step.now.stage) }
{
    let mut bins = create_start_bins(alloc, accumulator.fold(), accumulator.bins())?;
    let mut rows = AccumulatorBuffers::new(alloc);
    accumulate_last_step_partial(
        alloc,
        tile,
        step,
        accumulator,
        scratch,
        &mut rows,
        &mut bins,
    )?;
    Ok(bins)
}

// What the last step's stage accumulates over its area; nothing if it is no accumulator.
fn compute_last_step_partial_if_any<K: TileSource>(
    alloc: Global,
    tile: &TileJob<'_, K>,
    step: &TileStep,
    scratch: &mut TileScratch,
) -> Result<Vec<i64>, AllocError>
    requires layout { IsSomeLayout (pipeline_in tile.now.job.now) tile.now.layout.now }
    requires needs { NeedsGiven (K.given tile.now.known.now) tile.now.layout.now.needs }
    requires last { IsLastStep tile.now.layout.now.steps (step_view step.now) }
    ensures { IfOk result (λ bins. bins.items
        ≡ local_totals (pipeline_in tile.now.job.now) tile.now.layout.now.inlining
        (K.given tile.now.known.now) step.now.area step.now.stage) }
{
    let Some(found) = tile.job.stage(step.stage) else {
        return Ok(Vec::new(alloc));
    };
    match found.body() {
        Body::Accumulator(accumulator) => compute_last_step_partial_of_accumulator(
            alloc,
            tile,
            step,
            accumulator,
            scratch,
        ),
        Body::Plane(_) | Body::Function(_) => Ok(Vec::new(alloc)),
    }
}

/// What the tile's stage accumulates in its bins, rising, if it is an accumulator.
///
/// # Errors
///
/// Fails only where memory is refused.
pub(crate) fn compute_tile_partial<K: TileSource>(
    alloc: Global,
    tile: &TileJob<'_, K>,
    scratch: &mut TileScratch,
) -> Result<Vec<i64>, AllocError>
    requires layout { IsSomeLayout (pipeline_in tile.now.job.now) tile.now.layout.now }
    requires needs { NeedsGiven (K.given tile.now.known.now) tile.now.layout.now.needs }
    ensures { IfOk result (λ bins. (inlining : List Bool) (g i j : ℕ)
        → IsTileLayout (pipeline_in tile.now.job.now) inlining g i j tile.now.layout.now
        → AreLocalTotals (pipeline_in tile.now.job.now) inlining (K.given tile.now.known.now) g i j
        bins.items) }
{
    let Some(step) = tile.layout.steps().last() else {
        return Ok(Vec::new(alloc));
    };
    compute_last_step_partial_if_any(alloc, tile, step, scratch)
}

/// What an accumulator accumulates in its bins over a tile, rising, by the tile's plan and from whatever is supplied. If all that
/// is supplied is true, it is what the job accumulates there.
///
/// # Errors
///
/// Fails with the least tile that the plan needs and that is not supplied, before memory is allocated; and where memory is
/// refused.
pub fn partial<K: TileSource>(
    alloc: Global,
    job: &Job,
    plan: &TilePlan<'_>,
    scratch: &mut TileScratch,
    known: &K,
) -> Result<Vec<i64>, EvalFault>
    requires whole { AreWhole (pipeline_in job.now) (K.given known.now) }
    requires plan { IsAccumulatorPlan (program_id_in job.now) (pipeline_in job.now) plan.now }
    ensures totals { IfOk result (λ bins. (inlining : List Bool) (g i j : ℕ)
        → IsTilePlan (program_id_in job.now) (pipeline_in job.now) inlining g i j plan.now
        → AreLocalTotals (pipeline_in job.now) inlining (K.given known.now) g i j bins.items) }
    ensures right { AreTrue (pipeline_in job.now) (K.given known.now)
        → IfOk result (λ bins. (inlining : List Bool) (g i j : ℕ)
        → IsTilePlan (program_id_in job.now) (pipeline_in job.now) inlining g i j plan.now
        → AreTotalsOn (pipeline_in job.now) g i j bins.items) }
    ensures given { IfOk result (λ bins. first_missing (K.given known.now) plan.now.needs ≡ None) }
    ensures fault { IfErr result (IsEvalFault (K.given known.now) plan.now.needs) }
{
    if let Some(key) = find_first_key_of_unsupplied_tile(plan.needs(), known) {
        return Err(EvalFault::Missing(key));
    }
    let tile = TileJob {
        job,
        layout: plan.layout(),
        known,
    };
    let bins = compute_tile_partial(alloc, &tile, scratch)?;
    Ok(bins)
}
