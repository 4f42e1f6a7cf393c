#![tactic(auto)]
//! The result of a job, before its first byte is written.

ghost use Rattle.std.specs.Prelude.{◌≡◌, IfOk, IfSome};
ghost use Rattle.domains.specs.Span.{len_of};
ghost use Rattle.command_faults.specs.Taking.{Takes};
ghost use Rattle.command_jobs.specs.Results.{result_bytes};
ghost use Rattle.job.specs.Kept.{pipeline_in};
ghost use Rattle.job.specs.Views.{output_view};
ghost use Rattle.job.specs.WellFormed.{IsOutput};
ghost use Rattle.raw_rows.specs.Rows.{raw_rows};
ghost use Rattle.row_streams.specs.Strips.{row_count};
ghost use Rattle.row_streams.specs.StripsMade.{strips_joined};
ghost use Rattle.streamed_results.specs.StreamedBytes.{rows_bytes, streamed_bytes};

use crate::header::make_result_header;
use crate::lines::has_lines_in_streamed_result;
use crate::pieces::StreamedPieces;
use crate::strips::make_result_strips;
use crate::summed::prepare_streamed_result_with_lines;
use crate::work::count_streamed_result_threads;
use domains::Area;
use job::{Job, Output};
use row_streams::{MOST_NUMBERS, RowStream, StripStream};
use std::alloc::{AllocError, Global};
use std::thread::Threads;
use streams::{Sink, WriteFailed, write_all_bytes};

/// The rows of a picture: made while they are written, or made already.
#[derive(Drop)]
pub(crate) enum StreamedResultRows<'a> {
    Pieces(StreamedPieces<'a>),
    Strips(Vec<StripStream<'a>>),
}

/// The result of a job: the header and the rows of its picture, and the lines of its accumulators. All memory is taken that it takes to
/// write it.
#[derive(Drop)]
pub struct StreamedResult<'a> {
    pub(crate) header: Vec<u8>,
    pub(crate) rows: StreamedResultRows<'a>,
    pub(crate) lines: Vec<u8>,
}

/// The result of a job, as it is to be written. None if the job has no output and no accumulator, or if no plan of rows is found.
/// Where there is work for several threads, each has made a strip of the rows. If there are accumulators, all rows are made before the
/// first is written.
///
/// # Errors
///
/// Fails only where memory is refused.
pub fn prepare_streamed_result<'a>(
    rt: &(impl Threads + Sync),
    alloc: Global,
    job: &'a Job,
) -> Result<Option<StreamedResult<'a>>, AllocError>
    ensures { IfOk result (λ found. IfSome found
        (λ made. streamed_bytes made ≡ result_bytes (pipeline_in job.now))) }
{
    if has_lines_in_streamed_result(job) {
        return prepare_streamed_result_with_lines(rt, alloc, job);
    }
    let Some(output) = job.output() else {
        return Ok(None);
    };
    let Some(area) = job.domain(output.first_stage()) else {
        return Ok(None);
    };
    let header = make_result_header(alloc, output.stages().len(), &area, output.max())?;
    let Some(rows) = StreamedResultRows::new(rt, alloc, job, output, &area)? else {
        return Ok(None);
    };
    Ok(Some(StreamedResult {
        header,
        rows,
        lines: Vec::new(alloc),
    }))
}

impl<'a> StreamedResult<'a> {
    /// Writes the result. It takes no memory.
    pub fn write<W: Sink>(self, writer: &mut W) -> Result<(), WriteFailed>
        ensures { Takes result (streamed_bytes self.entry)
            (W.contents writer.old) (W.contents writer.new)
            (W.failures writer.old) (W.failures writer.new) }
    {
        let StreamedResult {
            header,
            rows,
            lines,
        } = self;
        write_all_bytes(writer, &header)?;
        rows.write(writer)?;
        write_all_bytes(writer, &lines)
    }
}

impl<'a> StreamedResultRows<'a> {
    // The rows of the picture of this output, whose first plane has this area; if a plan is found for them.
    fn new(
        rt: &(impl Threads + Sync),
        alloc: Global,
        job: &'a Job,
        output: &'a Output,
        area: &Area,
    ) -> Result<Option<StreamedResultRows<'a>>, AllocError>
        requires output { IsOutput (pipeline_in job.now) (output_view output.now) }
        requires height { len_of area.now.rows ≡ row_count (pipeline_in job.now) (output_view output.now) }
        ensures { IfOk result (λ found. IfSome found (λ rows. rows_bytes rows
            ≡ raw_rows (pipeline_in job.now) (output_view output.now) 0 (len_of area.now.rows))) }
    {
        let height = area.rows.len() as usize;
        let threads = count_streamed_result_threads(rt, job, Some(output));
        let strips = make_result_strips(rt, alloc, job, output, &[], height, threads)?;
        if let Some(strips) = strips {
            return Ok(Some(StreamedResultRows::Strips(strips)));
        }
        let stream = RowStream::new(alloc, job, output, &[], 0, height, MOST_NUMBERS)?;
        let Some(stream) = stream else {
            return Ok(None);
        };
        Ok(Some(StreamedResultRows::Pieces(StreamedPieces::new(alloc, stream)?)))
    }

    // Writes the rows.
    fn write<W: Sink>(self, writer: &mut W) -> Result<(), WriteFailed>
        ensures { Takes result (rows_bytes self.entry)
            (W.contents writer.old) (W.contents writer.new)
            (W.failures writer.old) (W.failures writer.new) }
    {
        match self {
            StreamedResultRows::Pieces(pieces) => pieces.write_all_streamed_pieces(writer),
            StreamedResultRows::Strips(strips) => write_each_result_strip(&strips, writer),
        }
    }
}

// Writes the strips, one after the other.
fn write_each_result_strip<W: Sink>(
    strips: &[StripStream<'_>],
    writer: &mut W,
) -> Result<(), WriteFailed>
    ensures { Takes result (strips_joined strips.now)
        (W.contents writer.old) (W.contents writer.new)
        (W.failures writer.old) (W.failures writer.new) }
{
    for strip in strips {
        write_all_bytes(writer, &strip.bytes)?;
    }
    Ok(())
}
