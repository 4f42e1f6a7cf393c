#![tactic(auto)]
//! The rows of a picture in strips, each made by a thread of its own.

ghost use Rattle.std.specs.Prelude.{◌≡◌, ◌<◌, All, IfOk, IfSome};
ghost use Rattle.job.specs.Kept.{pipeline_in};
ghost use Rattle.job.specs.Views.{output_view};
ghost use Rattle.job.specs.WellFormed.{IsOutput};
ghost use Rattle.raw_rows.specs.Rows.{raw_rows};
ghost use Rattle.row_streams.specs.Once.{IsOutput-prop};
ghost use Rattle.row_streams.specs.Strips.{row_count};
ghost use Rattle.row_streams.specs.StripsMade.{strips_joined, IsStrip};

use crate::row_stream::RowStream;
use crate::row_strips::RowStrips;
use job::{Job, Output};
use rayon::prelude::*;
use row_totals::RowTotals;
use std::alloc::{AllocError, Global};
use std::thread::Threads;

/// Why a strip is not made.
#[derive(Clone, Copy)]
pub(crate) enum StripStreamFault {
    /// No plan is found for its rows.
    NoPlan,
    Memory,
}

impl From<AllocError> for StripStreamFault {
    fn from(_: AllocError) -> StripStreamFault {
        StripStreamFault::Memory
    }
}

/// A strip of the rows of a picture: its bytes, and what accumulators have in their bins of the rows of the same places.
#[derive(Drop)]
pub struct StripStream<'a> {
    pub bytes: Vec<u8>,
    pub totals: RowTotals<'a>,
}

/// The rows of a picture in strips, of so many rows each but the last.
#[derive(Drop)]
struct StripStreamMaker<'a, 'b> {
    job: &'a Job,
    output: &'a Output,
    summed: &'b [usize],
    strips: RowStrips,
    ghost formed: { IsOutput (pipeline_in job.now) (output_view output.now) } by { IsOutput-prop (pipeline_in job.now) (output_view output.now) },
    ghost high: { strips.height ≡ row_count (pipeline_in job.now) (output_view output.now) },
}

/// The bytes of all rows of the picture of this output, in strips of `len` rows each but the last, with what the accumulators `summed` have
/// in their bins of the rows of the same places. A thread of its own makes each strip. None if no plan is found for one of them: if all
/// together would keep more than 33,554,432 numbers, say.
///
/// # Errors
///
/// Fails only where memory is refused.
pub fn make_strip_streams<'a>(
    rt: &(impl Threads + Sync),
    alloc: Global,
    job: &'a Job,
    output: &'a Output,
    summed: &[usize],
    len: usize,
) -> Result<Option<Vec<StripStream<'a>>>, AllocError>
    requires output { IsOutput (pipeline_in job.now) (output_view output.now) }
    requires len { 0 < len }
    ensures bytes { IfOk result (λ found. IfSome found (λ strips. strips_joined strips.items
        ≡ raw_rows (pipeline_in job.now) (output_view output.now) 0
        (row_count (pipeline_in job.now) (output_view output.now)))) }
    ensures totals { IfOk result (λ found. IfSome found
        (λ strips. All (λ strip. strip.totals.job.now ≡ job.now) strips.items)) }
{
    let Some(area) = job.domain(output.first_stage()) else {
        return Ok(None);
    };
    let maker = StripStreamMaker {
        job,
        output,
        summed,
        strips: RowStrips::new(area.rows.len() as usize, len),
    };
    match maker.make_all_strip_streams(rt, alloc) {
        Ok(strips) => Ok(Some(strips)),
        Err(StripStreamFault::NoPlan) => Ok(None),
        Err(StripStreamFault::Memory) => Err(AllocError),
    }
}

impl<'a, 'b> StripStreamMaker<'a, 'b> {
    // Each strip.
    fn make_all_strip_streams(
        &self,
        rt: &(impl Threads + Sync),
        alloc: Global,
    ) -> Result<Vec<StripStream<'a>>, StripStreamFault>
        ensures bytes { IfOk result (λ strips. strips_joined strips.items
            ≡ raw_rows (pipeline_in self.now.job.now) (output_view self.now.output.now) 0
            (row_count (pipeline_in self.now.job.now) (output_view self.now.output.now))) }
        ensures totals { IfOk result
            (λ strips. All (λ strip. strip.totals.job.now ≡ self.now.job.now) strips.items) }
    {
        (0..self.strips.count_row_strips())
            .into_par_iter()
            .with_min_len(1)
            .map(
                |number: usize| -> Result<StripStream<'_>, StripStreamFault>
                    ensures { IfOk result (IsStrip self.entry.now.job.now
                        (output_view self.entry.now.output.now) self.entry.now.strips.len number) }
                { self.make_strip_stream(alloc, number) },
            )
            .collect::<Result<Vec<_>, StripStreamFault>>(rt, alloc)?
    }

    // The strip of this number.
    fn make_strip_stream(
        &self,
        alloc: Global,
        number: usize,
    ) -> Result<StripStream<'a>, StripStreamFault>
        ensures { IfOk result (IsStrip self.now.job.now (output_view self.now.output.now)
            self.now.strips.len number) }
    {
        let first = self.strips.find_row_strip_start(number);
        let end = self.strips.find_row_strip_end(number);
        let Some(mut stream) = RowStream::new(
            alloc,
            self.job,
            self.output,
            self.summed,
            first,
            end,
            self.strips.find_row_strip_share(),
        )?
        else {
            return Err(StripStreamFault::NoPlan);
        };
        let mut totals = RowTotals::new(alloc, self.job, self.summed, first)?;
        let mut bytes = vec![in alloc; 0u8; stream.count_bytes_of_streamed_rows(end - first)]?;
        stream.encode_next_streamed_rows_with_totals(&mut bytes, end - first, &mut totals)?;
        Ok(StripStream { bytes, totals })
    }
}
