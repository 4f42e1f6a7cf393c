#![tactic(auto)]
//! The result of a job with accumulators. Accumulators that have as many rows as the picture are fed with its rows; others with rows of their
//! own, those of one height together. Rows of an accumulator are accumulated while rows of the picture are made.

ghost use Rattle.std.specs.Prelude.{◌≡◌, ◌<◌, ◌++◌, [], All, IfOk, IfSome};
ghost use Rattle.std.specs.Option.{option_map_or};
ghost use Rattle.command_jobs.specs.Results.{result_bytes};
ghost use Rattle.job.specs.Answers.{image};
ghost use Rattle.job.specs.Kept.{pipeline_in};
ghost use Rattle.job.specs.Views.{output_view};
ghost use Rattle.job.specs.WellFormed.{IsOutput};
ghost use Rattle.netpbm.specs.Spelling.{spelling};
ghost use Rattle.raw_rows.specs.Rows.{raw_rows};
ghost use Rattle.row_streams.specs.Strips.{row_count};
ghost use Rattle.row_streams.specs.StripsMade.{strips_joined};
ghost use Rattle.streamed_results.specs.StreamedBytes.{streamed_bytes};

use crate::header::make_result_header;
use crate::lines::make_lines_of_streamed_result;
use crate::result::{StreamedResult, StreamedResultRows};
use crate::strips::{make_result_strips, make_totals_of_result_strips};
use crate::work::count_streamed_result_threads;
use job::{Job, Output};
use row_streams::{StripStream, make_strip_streams};
use row_totals::RowTotals;
use std::alloc::{AllocError, Global};
use std::thread::Threads;

/// The header and all rows of a picture; nothing if a job has no output.
#[derive(Drop)]
struct StreamedResultPicture<'a> {
    header: Vec<u8>,
    strips: Vec<StripStream<'a>>,
}

/// The result of a job that has accumulators, as it is to be written. None if no plan of rows is found.
///
/// # Errors
///
/// Fails only where memory is refused.
pub(crate) fn prepare_streamed_result_with_lines<'a>(
    rt: &(impl Threads + Sync),
    alloc: Global,
    job: &'a Job,
) -> Result<Option<StreamedResult<'a>>, AllocError>
    ensures { IfOk result (λ found. IfSome found
        (λ made. streamed_bytes made ≡ result_bytes (pipeline_in job.now))) }
{
    let summed = list_accumulators_of_streamed_result(alloc, job, None)?;
    let mut totals = RowTotals::new(alloc, job, &summed, 0)?;
    let Some(picture) = make_picture_of_streamed_result(rt, alloc, job, &mut totals)? else {
        return Ok(None);
    };
    if !add_other_rows_of_streamed_result(rt, alloc, job, &mut totals)? {
        return Ok(None);
    }
    let Some(lines) = make_lines_of_streamed_result(alloc, job, &totals)? else {
        return Ok(None);
    };
    let StreamedResultPicture { header, strips } = picture;
    Ok(Some(StreamedResult {
        header,
        rows: StreamedResultRows::Strips(strips),
        lines,
    }))
}

// The accumulators of a job: all, or those that have so many rows.
fn list_accumulators_of_streamed_result(
    alloc: Global,
    job: &Job,
    height: Option<usize>,
) -> Result<Vec<usize>, AllocError> {
    let mut found = Vec::new(alloc);
    for stage in 0..job.stages().len() {
        if job.is_accumulator(stage) && has_rows_of_streamed_result(job, stage, height) {
            found.push(stage)?;
        }
    }
    Ok(found)
}

// Whether a stage has so many rows, if any number is asked for.
fn has_rows_of_streamed_result(job: &Job, stage: usize, height: Option<usize>) -> bool {
    match (job.domain(stage), height) {
        (Some(domain), Some(rows)) => domain.rows.len() as usize == rows,
        _ => true,
    }
}

// The rows of a picture in strips, as many as pay off and have a plan, or in one.
fn make_summed_result_strips<'a>(
    rt: &(impl Threads + Sync),
    alloc: Global,
    job: &'a Job,
    output: &'a Output,
    summed: &[usize],
    height: usize,
) -> Result<Option<Vec<StripStream<'a>>>, AllocError>
    requires output { IsOutput (pipeline_in job.now) (output_view output.now) }
    ensures bytes { IfOk result (λ found. IfSome found (λ strips. strips_joined strips.items
        ≡ raw_rows (pipeline_in job.now) (output_view output.now) 0
        (row_count (pipeline_in job.now) (output_view output.now)))) }
    ensures totals { IfOk result (λ found. IfSome found
        (λ strips. All (λ strip. strip.totals.job.now ≡ job.now) strips.items)) }
{
    let threads = count_streamed_result_threads(rt, job, Some(output));
    match make_result_strips(rt, alloc, job, output, summed, height, threads)? {
        Some(strips) => Ok(Some(strips)),
        None => make_strip_streams(rt, alloc, job, output, summed, height.max(1)),
    }
}

// The picture of a job. What accumulators of its height accumulate is joined to these totals.
fn make_picture_of_streamed_result<'a>(
    rt: &(impl Threads + Sync),
    alloc: Global,
    job: &'a Job,
    totals: &mut RowTotals<'a>,
) -> Result<Option<StreamedResultPicture<'a>>, AllocError>
    requires { totals.old.job.now ≡ job.now }
    ensures job { totals.new.job ≡ totals.old.job }
    ensures picture { IfOk result (λ found. IfSome found
        (λ picture. picture.header.items ++ strips_joined picture.strips.items
        ≡ option_map_or spelling (image (pipeline_in job.now)) [])) }
{
    let Some(output) = job.output() else {
        return Ok(Some(StreamedResultPicture {
            header: Vec::new(alloc),
            strips: Vec::new(alloc),
        }));
    };
    let Some(area) = job.domain(output.first_stage()) else {
        return Ok(None);
    };
    let header = make_result_header(alloc, output.stages().len(), &area, output.max())?;
    let height = area.rows.len() as usize;
    let summed = list_accumulators_of_streamed_result(alloc, job, Some(height))?;
    let Some(strips) = make_summed_result_strips(rt, alloc, job, output, &summed, height)? else {
        return Ok(None);
    };
    if !join_totals_of_result_strips(&strips, totals) {
        return Ok(None);
    }
    Ok(Some(StreamedResultPicture { header, strips }))
}

// Joins the totals of strips, one after the other. False if one of them does not follow.
fn join_totals_of_result_strips(strips: &[StripStream<'_>], totals: &mut RowTotals<'_>) -> bool
    requires { All (λ strip. strip.totals.job.now ≡ totals.old.job.now) strips.now }
    ensures { totals.new.job ≡ totals.old.job }
{
    for strip in strips {
        if !totals.join_following_row_totals(&strip.totals) {
            return false;
        }
    }
    true
}

// Joins totals of strips without rows of a picture, one after the other. False if one of them does not follow.
fn join_all_totals_of_result_strips(strips: &[RowTotals<'_>], totals: &mut RowTotals<'_>) -> bool
    requires { All (λ others. others.job.now ≡ totals.old.job.now) strips.now }
    ensures { totals.new.job ≡ totals.old.job }
{
    for others in strips {
        if !totals.join_following_row_totals(others) {
            return false;
        }
    }
    true
}

// Accumulates the rows of all accumulators that are not accumulated with the picture. False if no plan of rows is found for some.
fn add_other_rows_of_streamed_result(
    rt: &(impl Threads + Sync),
    alloc: Global,
    job: &Job,
    totals: &mut RowTotals<'_>,
) -> Result<bool, AllocError>
    requires { totals.old.job.now ≡ job.now }
    ensures { totals.new.job ≡ totals.old.job }
{
    for stage in 0..job.stages().len() {
        if job.is_accumulator(stage)
            && totals.borrow_bins_of_whole_total(stage).is_none()
            && !add_rows_of_one_height_of_streamed_result(rt, alloc, job, stage, totals)?
        {
            return Ok(false);
        }
    }
    Ok(true)
}

// Accumulates the rows of all accumulators that have as many as this one. False if no plan of rows is found.
fn add_rows_of_one_height_of_streamed_result(
    rt: &(impl Threads + Sync),
    alloc: Global,
    job: &Job,
    stage: usize,
    totals: &mut RowTotals<'_>,
) -> Result<bool, AllocError>
    requires { totals.old.job.now ≡ job.now }
    ensures { totals.new.job ≡ totals.old.job }
{
    let Some(domain) = job.domain(stage) else {
        return Ok(false);
    };
    let height = domain.rows.len() as usize;
    let summed = list_accumulators_of_streamed_result(alloc, job, Some(height))?;
    match make_totals_of_result_strips(rt, alloc, job, &summed, height)? {
        Some(strips) => Ok(join_all_totals_of_result_strips(&strips, totals)),
        None => Ok(false),
    }
}
