#![tactic(auto)]
//! Rows of a picture, one after the other.

ghost use Rattle.std.specs.Prelude.{◌≡◌, ◌<◌, ◌≤◌, ◌+◌, ◌-◌, ◌*◌, length, All, IfOk, IfSome, OnOk};
ghost use Rattle.job.specs.Kept.{pipeline_in};
ghost use Rattle.job.specs.Views.{output_view};
ghost use Rattle.job.specs.WellFormed.{IsOutput};
ghost use Rattle.netpbm.specs.Raw.{raw_raster, width_of};
ghost use Rattle.raw_rows.specs.Lines.{line_samples, AreEven, plane_count, pixel_count};
ghost use Rattle.raw_rows.specs.Rows.{bytes_per_row, raw_row, raw_rows};
ghost use Rattle.row_plans.specs.Plans.{IsOutputKept};
ghost use Rattle.row_plans.specs.Rows.{numbers_kept};
ghost use Rattle.row_rings.specs.Rings.{states_in, IsWideIn, IsNarrowIn};
ghost use Rattle.row_streams.specs.Once.{IsOutput-prop};

use crate::row_steps::RowStreamSteps;
use job::{Job, Output};
use raw_rows::{RawRowLines, count_raw_row_bytes, encode_raw_row};
use row_totals::RowTotals;
use std::alloc::{AllocError, Global};

/// The rows of a picture from one row up to before another, as far as they are not yet given. No memory is taken for them any more.
#[derive(Drop)]
pub struct RowStream<'a> {
    output: &'a Output,
    steps: RowStreamSteps<'a>,
    // How many bytes a row has.
    row_len: usize,
    ghost formed: { IsOutput (pipeline_in steps.job.now) (output_view output.now) } by { IsOutput-prop (pipeline_in steps.job.now) (output_view output.now) },
    ghost planes: { steps.outputs.now ≡ (output_view output.now).stages },
    ghost wide: { row_len ≡ bytes_per_row (pipeline_in steps.job.now) (output_view output.now) },
}

impl<'a> RowStream<'a> {
    /// The rows of the picture of this output from row `first` up to before row `end`, with what the accumulators `summed` read in their
    /// rows of the same places. None if no plan is found for them that keeps at most `most` numbers.
    ///
    /// # Errors
    ///
    /// Fails only where memory is refused.
    pub fn new(
        alloc: Global,
        job: &'a Job,
        output: &'a Output,
        summed: &[usize],
        first: usize,
        end: usize,
        most: u64,
    ) -> Result<Option<RowStream<'a>>, AllocError>
        requires { IsOutput (pipeline_in job.now) (output_view output.now) }
        ensures job { IfOk result (λ found. IfSome found (λ stream. stream.steps.job.now ≡ job.now)) }
        ensures output { IfOk result
            (λ found. IfSome found (λ stream. stream.output.now ≡ output.now)) }
        ensures row { IfOk result (λ found. IfSome found (λ stream. stream.steps.row ≡ first)) }
        ensures end { IfOk result (λ found. IfSome found (λ stream. stream.steps.end ≡ end)) }
        ensures few { IfOk result
            (λ found. IfSome found (λ stream. numbers_kept (states_in stream.steps.rings) ≤ most)) }
    {
        let Some(area) = job.domain(output.first_stage()) else {
            return Ok(None);
        };
        let outputs = output.stages();
        let Some(steps) = RowStreamSteps::new(alloc, job, outputs, summed, first, end, most)? else {
            return Ok(None);
        };
        let row_len = count_raw_row_bytes(
            output.stages().len(),
            area.cols.len() as usize,
            output.max() as u16,
        );
        Ok(Some(RowStream {
            output,
            steps,
            row_len,
        }))
    }

    /// How many rows are not yet given.
    pub fn count_streamed_rows_left(&self) -> usize
        ensures { result ≡ self.now.steps.end - self.now.steps.row }
    {
        self.steps.end.saturating_sub(self.steps.row)
    }

    /// How many bytes so many rows have.
    pub fn count_bytes_of_streamed_rows(&self, count: usize) -> usize
        requires { count ≤ 4096 }
        ensures rows { result ≡ count
            * bytes_per_row (pipeline_in self.now.steps.job.now) (output_view self.now.output.now) }
        ensures most { result ≤ 100663296 }
    {
        count * self.row_len
    }

    /// Writes the bytes of the next `count` rows. It takes no memory.
    pub fn encode_next_streamed_rows(&mut self, out: &mut [u8], count: usize)
        requires left { self.old.steps.row + count ≤ self.old.steps.end }
        requires len { length out.old
            ≡ count * bytes_per_row (pipeline_in self.old.steps.job.now) (output_view self.old.output.now) }
        ensures bytes { out.new
            ≡ raw_rows (pipeline_in self.old.steps.job.now) (output_view self.old.output.now) self.old.steps.row count }
        ensures row { self.new.steps.row ≡ self.old.steps.row + count }
        ensures job { self.new.steps.job ≡ self.old.steps.job }
        ensures output { self.new.output ≡ self.old.output }
        ensures end { self.new.steps.end ≡ self.old.steps.end }
    {
        let len = self.row_len;
        for k in 0..count {
            self.steps.make_rows_before_next_streamed_row();
            let from = k * len;
            let lines = self.borrow_streamed_row_lines();
            encode_raw_row(&mut out[from..from + len], lines, self.output.max() as u16);
            self.steps.pass_next_streamed_row();
        }
    }

    /// Writes the bytes of the next `count` rows, and accumulates the next row of each of these accumulators with each of them, if all is
    /// there that it reads.
    ///
    /// # Errors
    ///
    /// Fails only where memory is refused.
    pub(crate) fn encode_next_streamed_rows_with_totals(
        &mut self,
        out: &mut [u8],
        count: usize,
        totals: &mut RowTotals<'_>,
    ) -> Result<(), AllocError>
        requires left { self.old.steps.row + count ≤ self.old.steps.end }
        requires len { length out.old
            ≡ count * bytes_per_row (pipeline_in self.old.steps.job.now) (output_view self.old.output.now) }
        requires totals { totals.old.job.now ≡ self.old.steps.job.now }
        ensures bytes { OnOk result (out.new
            ≡ raw_rows (pipeline_in self.old.steps.job.now) (output_view self.old.output.now) self.old.steps.row count) }
        ensures totals { totals.new.job ≡ totals.old.job }
    {
        let len = self.row_len;
        for k in 0..count {
            let start = k * len;
            self.encode_next_streamed_rows(&mut out[start..start + len], 1);
            self.steps.add_streamed_row_to_totals(totals)?;
        }
        Ok(())
    }

    // The numbers of the next row of each plane.
    fn borrow_streamed_row_lines(&self) -> RawRowLines<'_>
        requires { All (IsOutputKept (pipeline_in self.now.steps.job.now) (states_in self.now.steps.rings)
            self.now.steps.row) (output_view self.now.output.now).stages }
        ensures even { AreEven result }
        ensures len { bytes_per_row (pipeline_in self.now.steps.job.now) (output_view self.now.output.now)
            ≡ width_of self.now.output.now.max * (plane_count result * pixel_count result) }
        ensures bytes { raw_raster self.now.output.now.max (line_samples self.now.output.now.max result)
            ≡ raw_row (pipeline_in self.now.steps.job.now) (output_view self.now.output.now) self.now.steps.row }
    {
        if self.steps.rings.has_narrow_output_rings() {
            self.borrow_narrow_streamed_row_lines()
        } else {
            self.borrow_wide_streamed_row_lines()
        }
    }

    // The same, if they are kept as numbers of 16 bits.
    fn borrow_narrow_streamed_row_lines(&self) -> RawRowLines<'_>
        requires kept { All (IsOutputKept (pipeline_in self.now.steps.job.now) (states_in self.now.steps.rings)
            self.now.steps.row) (output_view self.now.output.now).stages }
        requires narrow { All (IsNarrowIn self.now.steps.rings) (output_view self.now.output.now).stages }
        ensures even { AreEven result }
        ensures len { bytes_per_row (pipeline_in self.now.steps.job.now) (output_view self.now.output.now)
            ≡ width_of self.now.output.now.max * (plane_count result * pixel_count result) }
        ensures bytes { raw_raster self.now.output.now.max (line_samples self.now.output.now.max result)
            ≡ raw_row (pipeline_in self.now.steps.job.now) (output_view self.now.output.now) self.now.steps.row }
    {
        match self.output.stages() {
            [grey] => RawRowLines::NarrowGrey(
                self.steps
                    .rings
                    .borrow_narrow_ring_row(*grey, self.steps.row),
            ),
            [red, green, blue] => RawRowLines::NarrowColour(
                self.steps
                    .rings
                    .borrow_narrow_ring_row(*red, self.steps.row),
                self.steps
                    .rings
                    .borrow_narrow_ring_row(*green, self.steps.row),
                self.steps
                    .rings
                    .borrow_narrow_ring_row(*blue, self.steps.row),
            ),
            _ => unreachable!(),
        }
    }

    // The same, if they are kept as numbers of 32 bits.
    fn borrow_wide_streamed_row_lines(&self) -> RawRowLines<'_>
        requires kept { All (IsOutputKept (pipeline_in self.now.steps.job.now) (states_in self.now.steps.rings)
            self.now.steps.row) (output_view self.now.output.now).stages }
        requires wide { All (IsWideIn self.now.steps.rings) (output_view self.now.output.now).stages }
        ensures even { AreEven result }
        ensures len { bytes_per_row (pipeline_in self.now.steps.job.now) (output_view self.now.output.now)
            ≡ width_of self.now.output.now.max * (plane_count result * pixel_count result) }
        ensures bytes { raw_raster self.now.output.now.max (line_samples self.now.output.now.max result)
            ≡ raw_row (pipeline_in self.now.steps.job.now) (output_view self.now.output.now) self.now.steps.row }
    {
        match self.output.stages() {
            [grey] => RawRowLines::Grey(self.steps.rings.borrow_ring_row(*grey, self.steps.row)),
            [red, green, blue] => RawRowLines::Colour(
                self.steps.rings.borrow_ring_row(*red, self.steps.row),
                self.steps.rings.borrow_ring_row(*green, self.steps.row),
                self.steps.rings.borrow_ring_row(*blue, self.steps.row),
            ),
            _ => unreachable!(),
        }
    }
}
