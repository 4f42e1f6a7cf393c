#![tactic(auto)]
//! Samples of stages whose values are known.

ghost use Rattle.std.specs.Prelude.{◌≡◌, ◌≢◌, Some, slice_get, IfSome, IfNone};
ghost use Rattle.whole_stages.specs.Known.{sample_in, IsKnownAt};

use crate::buffers::{StageBuffer, StageBuffers};
use domains::Index;
use tile_eval::{BufferView, RowSource, RowSpan};

impl StageBuffer {
    /// The values with their area.
    pub(crate) fn view(&self) -> BufferView<'_>
        ensures area { result.area ≡ self.now.area }
        ensures values { result.values.now ≡ self.now.values.items }
    {
        BufferView::new(self.area, &self.values)
    }
}

impl StageBuffers {
    /// The values of a stage, if they are known.
    pub(crate) fn borrow_buffer_of_stage(&self, stage: usize) -> Option<&StageBuffer>
        ensures some { IfSome result
            (λ whole. slice_get self.now.buffers.items stage ≡ Some (Some whole.now)) }
        ensures none { IfNone result
            ((whole : StageBuffer) → slice_get self.now.buffers.items stage ≢ Some (Some whole)) }
    {
        self.buffers.get(stage)?.as_ref()
    }
}

impl RowSource for StageBuffers {
    ghost has = { λ known g r c. IsKnownAt known.buffers.items g r c };

    ghost samples = { λ known g r c. sample_in (slice_get known.buffers.items g) r c };

    fn read_row(&self, stage: usize, row: i32, first: i32, out: &mut [i32]) {
        if let Some(whole) = self.borrow_buffer_of_stage(stage) {
            whole.view().read_row(row, first, out);
        }
    }

    fn borrow_row(&self, stage: usize, row: i32, first: i32, count: usize) -> Option<&[i32]> {
        Some(
            self.borrow_buffer_of_stage(stage)?
                .view()
                .slice_row(row, first, count),
        )
    }

    fn gather_row(&self, stage: usize, row: i32, col: &Index, points: &RowSpan, out: &mut [i32]) {
        if let Some(whole) = self.borrow_buffer_of_stage(stage) {
            whole.view().gather_row(row, col, points, out);
        }
    }

    fn read_sample(&self, stage: usize, row: i32, col: i32) -> i32 {
        match self.borrow_buffer_of_stage(stage) {
            Some(whole) => whole.view().read_sample(row, col),
            None => 0,
        }
    }
}
