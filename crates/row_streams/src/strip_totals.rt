#![tactic(auto)]
//! The rows of accumulators in strips, each accumulated by a thread of its own.

ghost use Rattle.std.specs.Prelude.{◌≡◌, ◌<◌, All, IfOk, IfSome};

use crate::row_steps::RowStreamSteps;
use crate::row_strips::RowStrips;
use crate::strip_streams::StripStreamFault;
use job::Job;
use rayon::prelude::*;
use row_totals::RowTotals;
use std::alloc::{AllocError, Global};
use std::thread::Threads;

/// The rows of accumulators in strips, of so many rows each but the last.
#[derive(Drop)]
struct StripTotalsMaker<'a, 'b> {
    job: &'a Job,
    summed: &'b [usize],
    strips: RowStrips,
}

/// What the accumulators `summed` have in their bins of their first `height` rows, in strips of `len` rows each but the last, without rows of
/// a picture. A thread of its own makes each strip. None if no plan is found for one of them: if all together would keep more than
/// 33,554,432 numbers, say.
///
/// # Errors
///
/// Fails only where memory is refused.
pub fn make_strip_stream_totals<'a>(
    rt: &(impl Threads + Sync),
    alloc: Global,
    job: &'a Job,
    summed: &[usize],
    height: usize,
    len: usize,
) -> Result<Option<Vec<RowTotals<'a>>>, AllocError>
    requires { 0 < len }
    ensures { IfOk result (λ found. IfSome found
        (λ strips. All (λ totals. totals.job.now ≡ job.now) strips.items)) }
{
    let maker = StripTotalsMaker {
        job,
        summed,
        strips: RowStrips::new(height, len),
    };
    match maker.make_totals_of_all_strip_streams(rt, alloc) {
        Ok(strips) => Ok(Some(strips)),
        Err(StripStreamFault::NoPlan) => Ok(None),
        Err(StripStreamFault::Memory) => Err(AllocError),
    }
}

impl<'a, 'b> StripTotalsMaker<'a, 'b> {
    // The totals of each strip.
    fn make_totals_of_all_strip_streams(
        &self,
        rt: &(impl Threads + Sync),
        alloc: Global,
    ) -> Result<Vec<RowTotals<'a>>, StripStreamFault>
        ensures { IfOk result
            (λ strips. All (λ totals. totals.job.now ≡ self.now.job.now) strips.items) }
    {
        (0..self.strips.count_row_strips())
            .into_par_iter()
            .with_min_len(1)
            .map(
                |number: usize| -> Result<RowTotals<'_>, StripStreamFault>
                    ensures { IfOk result (λ totals. totals.job.now ≡ self.entry.now.job.now) }
                { self.make_totals_of_strip_stream(alloc, number) },
            )
            .collect::<Result<Vec<_>, StripStreamFault>>(rt, alloc)?
    }

    // The totals of the strip of this number.
    fn make_totals_of_strip_stream(
        &self,
        alloc: Global,
        number: usize,
    ) -> Result<RowTotals<'a>, StripStreamFault>
        ensures { IfOk result (λ totals. totals.job.now ≡ self.now.job.now) }
    {
        let first = self.strips.find_row_strip_start(number);
        let end = self.strips.find_row_strip_end(number);
        let most = self.strips.find_row_strip_share();
        let found = RowStreamSteps::new(alloc, self.job, &[], self.summed, first, end, most)?;
        let Some(mut steps) = found else {
            return Err(StripStreamFault::NoPlan);
        };
        let mut totals = RowTotals::new(alloc, self.job, self.summed, first)?;
        steps.add_all_streamed_rows_to_totals(&mut totals)?;
        Ok(totals)
    }
}
