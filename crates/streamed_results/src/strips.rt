#![tactic(auto)]
//! Rows in strips, one for each thread. All strips share what may be kept of rows, so the fewer there are, the more each keeps.

ghost use Rattle.std.specs.Prelude.{◌≡◌, ◌<◌, All, IfOk, IfSome};
ghost use Rattle.job.specs.Kept.{pipeline_in};
ghost use Rattle.job.specs.Views.{output_view};
ghost use Rattle.job.specs.WellFormed.{IsOutput};
ghost use Rattle.raw_rows.specs.Rows.{raw_rows};
ghost use Rattle.row_streams.specs.Strips.{row_count};
ghost use Rattle.row_streams.specs.StripsMade.{strips_joined};

use crate::work::count_streamed_result_threads;
use job::{Job, Output};
use row_streams::{StripStream, make_strip_stream_totals, make_strip_streams};
use row_totals::RowTotals;
use std::alloc::{AllocError, Global};
use std::thread::Threads;

// How often the number of strips is halved at most: a number of 64 bits is none then.
const HALVINGS: usize = 64;

// How many rows each of so many strips has.
fn count_rows_of_result_strip(height: usize, strips: usize) -> usize
    ensures { 0 < result }
{
    height.div_ceil(strips.max(1)).max(1)
}

/// The rows of a picture in as many strips as there are threads, or in half as many, and so on. None if no two strips have a plan.
///
/// # Errors
///
/// Fails only where memory is refused.
pub(crate) fn make_result_strips<'a>(
    rt: &(impl Threads + Sync),
    alloc: Global,
    job: &'a Job,
    output: &'a Output,
    summed: &[usize],
    height: usize,
    threads: usize,
) -> Result<Option<Vec<StripStream<'a>>>, AllocError>
    requires { IsOutput (pipeline_in job.now) (output_view output.now) }
    ensures bytes { IfOk result (λ found. IfSome found (λ strips. strips_joined strips.items
        ≡ raw_rows (pipeline_in job.now) (output_view output.now) 0
        (row_count (pipeline_in job.now) (output_view output.now)))) }
    ensures totals { IfOk result (λ found. IfSome found
        (λ strips. All (λ strip. strip.totals.job.now ≡ job.now) strips.items)) }
{
    let mut count = threads;
    for _ in 0..HALVINGS {
        if count < 2 {
            return Ok(None);
        }
        let len = count_rows_of_result_strip(height, count);
        if let Some(strips) = make_strip_streams(rt, alloc, job, output, summed, len)? {
            return Ok(Some(strips));
        }
        count /= 2;
    }
    Ok(None)
}

/// What accumulators accumulate in as many strips as pay off, or in half as many, and so on down to one. None if no plan of rows is
/// found.
///
/// # Errors
///
/// Fails only where memory is refused.
pub(crate) fn make_totals_of_result_strips<'a>(
    rt: &(impl Threads + Sync),
    alloc: Global,
    job: &'a Job,
    summed: &[usize],
    height: usize,
) -> Result<Option<Vec<RowTotals<'a>>>, AllocError>
    ensures { IfOk result (λ found. IfSome found
        (λ strips. All (λ totals. totals.job.now ≡ job.now) strips.items)) }
{
    let mut count = count_streamed_result_threads(rt, job, None);
    for _ in 0..HALVINGS {
        let len = count_rows_of_result_strip(height, count);
        let found = make_strip_stream_totals(rt, alloc, job, summed, height, len)?;
        if count < 2 || found.is_some() {
            return Ok(found);
        }
        count /= 2;
    }
    Ok(None)
}
