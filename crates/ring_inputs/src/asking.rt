#![tactic(auto)]
//! Whether all that an accumulator reads in a row is available.

ghost use Rattle.std.specs.Prelude.{ℕ, ◌≡◌, ◌<◌, ◌≤◌, ◌+◌, true, All};
ghost use Rattle.domains.specs.Index.{index_at};
ghost use Rattle.job.specs.Kept.{pipeline_in};
ghost use Rattle.job.specs.ReadViews.{read_view};
ghost use Rattle.operators.specs.Values.{under};
ghost use Rattle.ring_inputs.specs.RingInputs.{EachRowTaken, IsInputRow, IsRingInput};
ghost use Rattle.row_totals.specs.RowTotals.{IsRowRead};

use crate::inputs::RingInputs;
use domains::Index;
use job::{Body, Read};
use tile_eval::find_span_number_at_position;

// The highest kernel.
const MOST_HEIGHT: usize = 4096;

impl<'r, 'a> RingInputs<'r, 'a> {
    /// How many rows of an accumulator, of `most` from place `first` on, are available in all that they read: those before the first
    /// row that is not.
    pub(crate) fn count_rows_with_ring_inputs(
        &self,
        stage: usize,
        first: usize,
        most: usize,
    ) -> usize
        requires { first + most < 18446744073709551616 }
        ensures most { result ≤ most }
        ensures each { (k : ℕ) → k < result → IsRowRead (IsRingInput (pipeline_in self.now.rings.now.job.now)
            self.now.rings.now.wide.rings.items) (pipeline_in self.now.rings.now.job.now) stage (first + k) }
    {
        for k in 0..most {
            if !self.has_ring_inputs_in_row(stage, first + k) {
                return k;
            }
        }
        most
    }

    // Whether all that an accumulator reads in the row at this place of its domain is available.
    fn has_ring_inputs_in_row(&self, stage: usize, place: usize) -> bool
        ensures { result ≡ true → IsRowRead (IsRingInput (pipeline_in self.now.rings.now.job.now)
            self.now.rings.now.wide.rings.items) (pipeline_in self.now.rings.now.job.now) stage place }
    {
        let Some(found) = self.rings.job_of_rings().stage(stage) else {
            return false;
        };
        let rows = found.domain().rows;
        if place >= rows.len() as usize {
            return false;
        }
        let row = find_span_number_at_position(&rows, place as u32);
        self.has_ring_inputs_of_all_reads(found.reads(), row)
    }

    // Whether all rows that some reads take at a row are available.
    fn has_ring_inputs_of_all_reads(&self, reads: &[Read], row: i32) -> bool
        ensures { result ≡ true → All (λ x. EachRowTaken (IsInputRow (pipeline_in self.now.rings.now.job.now)
            self.now.rings.now.wide.rings.items) (read_view x) row) reads.now }
    {
        for read in reads {
            if !self.has_ring_inputs_of_read(read, row) {
                return false;
            }
        }
        true
    }

    // Whether all rows that a read takes at a row are available.
    fn has_ring_inputs_of_read(&self, read: &Read, row: i32) -> bool
        ensures { result ≡ true → EachRowTaken (IsInputRow (pipeline_in self.now.rings.now.job.now)
            self.now.rings.now.wide.rings.items) (read_view read.now) row }
    {
        match read {
            Read::Point(stage, index, _) => self.has_ring_input_at_index(*stage, index, row),
            Read::Window(stage, kernel) => {
                self.has_ring_inputs_under_kernel(*stage, kernel.as_slice().len(), row)
            }
        }
    }

    // Whether the row of a stage that an index takes at a row is available.
    fn has_ring_input_at_index(&self, stage: usize, index: &Index, row: i32) -> bool
        ensures { result ≡ true → IsInputRow (pipeline_in self.now.rings.now.job.now)
            self.now.rings.now.wide.rings.items stage (index_at index.now row) }
    {
        if row < -32_767 || row > 32_768 {
            return false;
        }
        self.has_ring_input_row(stage, index.at(row))
    }

    // Whether all rows of a stage under a kernel of this height are available.
    fn has_ring_inputs_under_kernel(&self, stage: usize, height: usize, row: i32) -> bool
        ensures { result ≡ true → (a : ℕ) → a < height → IsInputRow (pipeline_in self.now.rings.now.job.now)
            self.now.rings.now.wide.rings.items stage (under row height a) }
    {
        if height > MOST_HEIGHT || row < -32_767 || row > 32_768 {
            return false;
        }
        for a in 0..height {
            if !self.has_ring_input_row(stage, row + a as i32 - (height / 2) as i32) {
                return false;
            }
        }
        true
    }

    // Whether a row of a stage is available.
    fn has_ring_input_row(&self, stage: usize, row: i32) -> bool
        ensures { result ≡ true → IsInputRow (pipeline_in self.now.rings.now.job.now)
            self.now.rings.now.wide.rings.items stage row }
    {
        let Some(found) = self.rings.job_of_rings().stage(stage) else {
            return false;
        };
        match found.body() {
            Body::Plane(_) => true,
            Body::Function(_) => self.rings.borrow_wide_rings().keeps_ring_row(stage, row),
            Body::Accumulator(_) => false,
        }
    }
}
