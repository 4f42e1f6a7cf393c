#![tactic(auto)]
//! The last steps that read a stage.

ghost use Rattle.std.specs.Prelude.{◌≡◌, map, slice_set, IfOk};
ghost use Rattle.job.specs.Kept.{pipeline_in};
ghost use Rattle.job.specs.ReadViews.{read_view};
ghost use Rattle.grouping.specs.Greedy.{reads_at};
ghost use Rattle.overlap_tiles.specs.inside.Made.{marked, marked_by, list_last_reader_places_by_stage};
ghost use Rattle.overlap_tiles.specs.Views.{step_view};

use crate::steps::TileStep;
use job::{Job, Read};
use std::alloc::{AllocError, Global};

// Records that the stage is read at this place.
fn record_last_reader(lasts: &mut [usize], stage: usize, place: usize)
    ensures { lasts.new ≡ slice_set lasts.old stage place }
{
    if stage < lasts.len() {
        lasts[stage] = place;
    }
}

// Records that each of these reads is made at this place.
fn record_last_reader_of_each_read(lasts: &mut [usize], reads: &[Read], place: usize)
    ensures { lasts.new ≡ marked place lasts.old (map read_view reads.now) }
{
    for read in reads {
        record_last_reader(lasts, read.stage(), place);
    }
}

/// Records what a stage reads whose step is at this place, after all steps that were recorded before.
pub(crate) fn record_stage_as_last_reader(
    lasts: &mut Vec<usize>,
    job: &Job,
    stage: usize,
    place: usize,
)
    ensures { lasts.new.items ≡ marked place lasts.old.items (reads_at (pipeline_in job.now) stage) }
{
    if let Some(reads) = job.reads(stage) {
        record_last_reader_of_each_read(lasts, reads, place);
    }
}

/// For each stage the last place among the steps at which it is read; 0 where it is not.
pub(crate) fn list_last_reader_places_by_stage(
    alloc: Global,
    job: &Job,
    steps: &[TileStep],
) -> Result<Vec<usize>, AllocError>
    ensures { IfOk result (λ lasts. lasts.items
        ≡ list_last_reader_places_by_stage (pipeline_in job.now) (map step_view steps.now)) }
{
    let mut lasts = vec![in alloc; 0; job.stages().len()]?;
    for (place, step) in steps.iter().enumerate() {
        record_stage_as_last_reader(&mut lasts, job, step.stage, place);
    }
    Ok(lasts)
}
