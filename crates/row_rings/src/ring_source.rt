#![tactic(auto)]
//! Rings of 32 bits as a source of the samples that formulas read.

ghost use Rattle.row_rings.specs.RingRows.{sample_in, IsKeptPoint};

use crate::ring::RowRings;
use domains::Index;
use row_kernels::gather_index_columns;
use tile_eval::{RowSource, RowSpan};

impl RowSource for RowRings<i32> {
    ghost has = { λ known g r c. IsKeptPoint known.rings.items g r c };

    ghost samples = { λ known g r c. sample_in known.rings.items g r c };

    fn read_row(&self, stage: usize, row: i32, first: i32, out: &mut [i32]) {
        out.copy_from_slice(self.slice_ring_row(stage, row, first, out.len()));
    }

    fn borrow_row(&self, stage: usize, row: i32, first: i32, count: usize) -> Option<&[i32]> {
        Some(self.slice_ring_row(stage, row, first, count))
    }

    fn gather_row(&self, stage: usize, row: i32, col: &Index, points: &RowSpan, out: &mut [i32]) {
        if !out.is_empty() {
            let (line, from) = self.rings[stage].borrow_gathered_row(row, col, points);
            gather_index_columns(line, from, col, points, out);
        }
    }

    fn read_sample(&self, stage: usize, row: i32, col: i32) -> i32 {
        self.slice_ring_row(stage, row, col, 1)[0]
    }
}
