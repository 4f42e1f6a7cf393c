#![tactic(auto)]
//! A tile of a function, from what is supplied.

ghost use Rattle.std.specs.Prelude.{◌≡◌, ◌++◌, ◌∷◌, [], ℕ, List, Bool, None, map, IfOk, IfErr, IfSome, IfNone};
ghost use Rattle.std.specs.Option.{option_map};
ghost use Rattle.domains.specs.declared.area.Area.{Area};
ghost use Rattle.job.specs.Kept.{pipeline_in, program_id_in};
ghost use Rattle.job.specs.Views.{case_view, formula_view};
ghost use Rattle.overlap_tiles.specs.Plans.{IsTilePlan, IsTileLayout};
ghost use Rattle.overlap_tiles.specs.Views.{step_view};
ghost use Rattle.tile_eval.specs.Raster.{raster};
ghost use Rattle.tile_sources.specs.KnownTiles.{AreTrue, AreWhole};
ghost use Rattle.one_tile.specs.Local.{local_value};
ghost use Rattle.one_tile.specs.Runs.{is_missing, first_missing, AreLocalOn, AreValuesOn, NeedsGiven, IsFunctionPlan, IsEvalFault};
ghost use Rattle.one_tile.specs.Layouts.{IsFunctionLayout};
ghost use Rattle.one_tile.specs.inside.Steps.{IsFunctionAt};

use crate::memory::{TileScratch, take_and_grow_tile_operand_vector};
use crate::steps::find_tile_step_function;
use crate::tile_fault::EvalFault;
use crate::tile_inputs::TileInputs;
use crate::tile_job::TileJob;
use identity::Key;
use job::{Function, Job};
use overlap_tiles::{TilePlan, TileStep};
use std::alloc::{AllocError, Global};
use tile_eval::compute_operand_capacity_of_function;
use tile_sources::TileSource;

fn is_tile_unsupplied<K: TileSource>(known: &K, key: &Key) -> bool
    ensures { result ≡ is_missing (K.given known.now) key.now }
{
    known
        .borrow_tile(usize::from(key.stage), key.row, key.col)
        .is_none()
}

/// The first of these keys whose tile is not supplied.
pub fn find_first_key_of_unsupplied_tile<K: TileSource>(needs: &[Key], known: &K) -> Option<Key>
    ensures { result ≡ first_missing (K.given known.now) needs.now }
{
    needs
        .iter()
        .copied()
        .find(|key| is_tile_unsupplied(known, key))
}

// The last step.
fn find_last_tile_step(steps: &[TileStep]) -> Option<&TileStep>
    ensures some { IfSome result (λ step. (inner : List (ℕ × Area)) (last : ℕ × Area)
        → map step_view steps.now ≡ inner ++ last ∷ [] → step_view step.now ≡ last) }
    ensures none { IfNone result (steps.now ≡ []) }
{
    match steps.split_last() {
        Some((last, _)) => Some(last),
        None => None,
    }
}

impl<K: TileSource> TileJob<'_, K> {
    // The values of a function over the last step's area. All buffers are grown before the first value is computed.
    fn compute_function_values(
        &self,
        alloc: Global,
        step: &TileStep,
        function: &Function,
        scratch: &mut TileScratch,
    ) -> Result<Vec<i32>, AllocError>
        requires layout { IsFunctionLayout (pipeline_in self.now.job.now) self.now.layout.now }
        requires needs { NeedsGiven (K.given self.now.known.now) self.now.layout.now.needs }
        requires last { (inner : List (ℕ × Area)) (last : ℕ × Area)
            → self.now.layout.now.steps ≡ inner ++ last ∷ [] → step_view step.now ≡ last }
        requires function { IsFunctionAt (pipeline_in self.now.job.now) step.now.stage
            (map case_view function.now.cases.items)
            (option_map formula_view function.now.otherwise) }
        ensures { IfOk result (λ values. values.items
            ≡ raster step.now.area (local_value (pipeline_in self.now.job.now)
            self.now.layout.now.inlining (K.given self.now.known.now) step.now.stage)) }
    {
        let area = &step.area;
        let room = compute_operand_capacity_of_function(function, area.cols.len() as usize).ok_or(
            AllocError,
        )?;
        let mut operands = take_and_grow_tile_operand_vector(alloc, &mut scratch.operands, room)?;
        let mut values = vec![in alloc; 0; area.points() as usize]?;
        let boxes = self.compute_values_of_inlined_boxes(alloc, scratch)?;
        let tile = *self;
        let inputs = TileInputs { tile, boxes };
        inputs.write_function_values(
            step.stage,
            function,
            area,
            &mut values,
            &mut operands[..room],
        );
        scratch.operands = operands;
        Ok(values)
    }

    /// The local values of the tile, row by row, if its stage is a function.
    ///
    /// # Errors
    ///
    /// Fails only where memory is refused.
    pub fn compute_values_if_stage_is_function(
        &self,
        alloc: Global,
        scratch: &mut TileScratch,
    ) -> Result<Vec<i32>, AllocError>
        requires layout { IsFunctionLayout (pipeline_in self.now.job.now) self.now.layout.now }
        requires needs { NeedsGiven (K.given self.now.known.now) self.now.layout.now.needs }
        ensures { IfOk result (λ values. (inlining : List Bool) (g i j : ℕ)
            → IsTileLayout (pipeline_in self.now.job.now) inlining g i j self.now.layout.now
            → AreLocalOn (pipeline_in self.now.job.now) inlining (K.given self.now.known.now) g i j
            values.items) }
    {
        let Some(last) = find_last_tile_step(self.layout.steps()) else {
            return Ok(Vec::new(alloc));
        };
        match find_tile_step_function(self.job, last.stage) {
            Some(function) => self.compute_function_values(alloc, last, function, scratch),
            None => Ok(Vec::new(alloc)),
        }
    }
}

/// The local values of a tile of a function, row by row, by its plan and from whatever is supplied. If all that is supplied is
/// true, they are the values of the job.
///
/// # Errors
///
/// Fails with the least tile that the plan needs and that is not supplied, before memory is allocated; and where memory is
/// refused.
pub fn run_tile<K: TileSource>(
    alloc: Global,
    job: &Job,
    plan: &TilePlan<'_>,
    scratch: &mut TileScratch,
    known: &K,
) -> Result<Vec<i32>, EvalFault>
    requires whole { AreWhole (pipeline_in job.now) (K.given known.now) }
    requires plan { IsFunctionPlan (program_id_in job.now) (pipeline_in job.now) plan.now }
    ensures values { IfOk result (λ values. (inlining : List Bool) (g i j : ℕ)
        → IsTilePlan (program_id_in job.now) (pipeline_in job.now) inlining g i j plan.now
        → AreLocalOn (pipeline_in job.now) inlining (K.given known.now) g i j values.items) }
    ensures right { AreTrue (pipeline_in job.now) (K.given known.now)
        → IfOk result (λ values. (inlining : List Bool) (g i j : ℕ)
        → IsTilePlan (program_id_in job.now) (pipeline_in job.now) inlining g i j plan.now
        → AreValuesOn (pipeline_in job.now) g i j values.items) }
    ensures given { IfOk result
        (λ values. first_missing (K.given known.now) plan.now.needs ≡ None) }
    ensures fault { IfErr result (IsEvalFault (K.given known.now) plan.now.needs) }
{
    if let Some(key) = find_first_key_of_unsupplied_tile(plan.needs(), known) {
        return Err(EvalFault::Missing(key));
    }
    let tile = TileJob {
        job,
        layout: plan.layout(),
        known,
    };
    let values = tile.compute_values_if_stage_is_function(alloc, scratch)?;
    Ok(values)
}
