//! The numbers of a tile from those of the tiles that it needs.

ghost use Rattle.std.specs.Prelude.{◌≡◌, List, Bool, None, IfOk};
ghost use Rattle.fact_audit.specs.TrueFacts.{BodyIsTrue};
ghost use Rattle.tile_boxes.specs.Targets.{target_over};
ghost use Rattle.job.specs.Kept.{pipeline_in, program_id_in};
ghost use Rattle.held_facts.specs.Making.{IsLocalBody, tiles_in};
ghost use Rattle.held_facts.specs.inside.Needing.{IsPlanOfKey};
ghost use Rattle.overlap_tiles.specs.Plans.{IsTilePlan};
ghost use Rattle.tile_fact.specs.Bodies.{IsWithin};
ghost use Rattle.tile_sources.specs.KnownTiles.{AreTrue, AreWhole};
ghost use Rattle.one_tile.specs.Runs.{first_missing};

use crate::held_tiles::HeldTiles;
use identity::Key;
use job::{Job, StageKind};
use overlap_tiles::TilePlan;
use partials::partial;
use std::alloc::{AllocError, Global};
use tile_fact::{Bins, Body, Samples};
use tile_run::{TileScratch, run_tile};

/// The body of the fact of this key, by its tile's plan, from facts that supply each tile that the plan needs.
///
/// # Errors
///
/// Fails only where memory is refused.
pub(crate) fn compute_fact_body_from_held_tiles(
    alloc: Global,
    job: &Job,
    plan: &TilePlan<'_>,
    key: &Key,
    held: &HeldTiles,
) -> Result<Body, AllocError>
    requires plan { IsPlanOfKey (program_id_in job.now) (pipeline_in job.now) key.now plan.now }
    requires whole { AreWhole (pipeline_in job.now) (tiles_in held.now.facts.items) }
    requires given { first_missing (tiles_in held.now.facts.items) plan.now.needs ≡ None }
    ensures local { IfOk result (λ body. (inlining : List Bool)
        → (is : IsTilePlan (program_id_in job.now) (pipeline_in job.now) inlining
        key.now.stage key.now.row key.now.col plan.now)
        → IsLocalBody (target_over (pipeline_in job.now) inlining key.now.stage is.area)
        (tiles_in held.now.facts.items) body) }
    ensures right { AreTrue (pipeline_in job.now) (tiles_in held.now.facts.items)
        → IfOk result (BodyIsTrue (pipeline_in job.now) key.now) }
    ensures within { IfOk result IsWithin }
{
    // No need is missing, so the fault can only be that memory is.
    let mut scratch = TileScratch::new(alloc);
    match job.kind(usize::from(key.stage)) {
        Some(StageKind::Function) => {
            let Ok(samples) = run_tile(alloc, job, plan, &mut scratch, held) else {
                return Err(AllocError);
            };
            Ok(Body::Tile(Samples::new(samples)?))
        }
        Some(StageKind::Accumulator) => {
            let Ok(bins) = partial(alloc, job, plan, &mut scratch, held) else {
                return Err(AllocError);
            };
            Ok(Body::Partial(Bins::new(bins)?))
        }
        Some(StageKind::Plane) | None => unreachable!(),
    }
}
