#![tactic(auto)]
//! The place of each stage among the steps.

ghost use Rattle.std.specs.Prelude.{◌≡◌, ◌<◌, ◌++◌, ◌∷◌, [], ℕ, map, length, All, slice_set, slice_index_or, IfOk};
ghost use Rattle.domains.specs.declared.area.Area.{Area as Region};
ghost use Rattle.job.specs.Kept.{pipeline_in};
ghost use Rattle.overlap_tiles.specs.inside.Placed.{ArePlaces};
ghost use Rattle.overlap_tiles.specs.Views.{step_view};

use crate::steps::TileStep;
use job::Job;
use std::alloc::{AllocError, Global};

// Records that the stage has this place.
fn record_step_place(places: &mut Vec<Option<usize>>, stage: usize, place: usize)
    ensures { places.new.items ≡ slice_set places.old.items stage (Some place) }
{
    if stage < places.len() {
        places[stage] = Some(place);
    }
}

/// The place of a stage in a table.
pub(crate) fn look_up_step_place(places: &[Option<usize>], stage: usize) -> Option<usize>
    ensures { result ≡ slice_index_or places.now stage None }
{
    match places.get(stage) {
        Some(place) => *place,
        None => None,
    }
}

/// A table by the numbers of stages: the place of each among these steps, which exclude the target.
pub(crate) fn list_step_places_by_stage(
    alloc: Global,
    job: &Job,
    steps: &[TileStep],
) -> Result<Vec<Option<usize>>, AllocError>
    requires { All (λ s. s.0 < length (pipeline_in job.now).stages) (map step_view steps.now) }
    ensures { IfOk result (λ places. (target : ℕ × Region)
        → ArePlaces (map step_view steps.now ++ target ∷ []) places.items) }
{
    let mut places = vec![in alloc; None; job.stages().len()]?;
    for (place, step) in steps.iter().enumerate() {
        record_step_place(&mut places, step.stage, place);
    }
    Ok(places)
}
