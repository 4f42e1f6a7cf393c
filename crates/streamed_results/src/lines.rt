#![tactic(auto)]
//! The lines of accumulators.

ghost use Rattle.std.specs.Prelude.{◌≡◌, ◌++◌, [], true, false, IfOk, IfSome};
ghost use Rattle.command_jobs.specs.Results.{line_at, total_lines};
ghost use Rattle.job.specs.Kept.{pipeline_in};

use command_jobs::put_total_line_of_stage;
use job::Job;
use row_totals::RowTotals;
use std::alloc::{AllocError, Global};

/// Whether a job has accumulators, whose lines are written after the picture.
#[tactic(auto, using(tile_boxes::proofs::Lists::flat_map_range_more))]
pub(crate) fn has_lines_in_streamed_result(job: &Job) -> bool
    ensures { result ≡ false → total_lines (pipeline_in job.now) ≡ [] }
{
    for stage in 0..job.stages().len() {
        if job.is_accumulator(stage) {
            return true;
        }
    }
    false
}

/// The lines of all accumulators, by their totals. None if one of these is not over all rows.
///
/// # Errors
///
/// Fails only where memory is refused.
#[tactic(auto, using(tile_boxes::proofs::Lists::flat_map_range_more))]
pub(crate) fn make_lines_of_streamed_result(
    alloc: Global,
    job: &Job,
    totals: &RowTotals<'_>,
) -> Result<Option<Vec<u8>>, AllocError>
    requires { totals.now.job.now ≡ job.now }
    ensures { IfOk result (λ found. IfSome found
        (λ lines. lines.items ≡ total_lines (pipeline_in job.now))) }
{
    let mut lines = Vec::new(alloc);
    for stage in 0..job.stages().len() {
        if !put_line_of_streamed_result(alloc, &mut lines, job, totals, stage)? {
            return Ok(None);
        }
    }
    Ok(Some(lines))
}

// Adds the line of a stage, if it is an accumulator. False if its total is not over all rows.
fn put_line_of_streamed_result(
    alloc: Global,
    lines: &mut Vec<u8>,
    job: &Job,
    totals: &RowTotals<'_>,
    stage: usize,
) -> Result<bool, AllocError>
    requires { totals.now.job.now ≡ job.now }
    ensures { IfOk result (λ put. put ≡ true
        → lines.new.items ≡ lines.old.items ++ line_at (pipeline_in job.now) stage) }
{
    if !job.is_accumulator(stage) {
        return Ok(true);
    }
    let Some(bins) = totals.borrow_bins_of_whole_total(stage) else {
        return Ok(false);
    };
    put_total_line_of_stage(alloc, lines, job, stage, bins)?;
    Ok(true)
}
