#![tactic(auto)]
//! Rings of 16 bits as a source of the samples that formulas read.

ghost use Rattle.std.proofs.Props.{props};
ghost use Rattle.job.specs.Kept.{pipeline_in};
ghost use Rattle.job.specs.Values.{value};
ghost use Rattle.row_rings.specs.RingRows.{IsKeptPoint};
ghost use Rattle.row_rings.specs.TrueRings.{AreTrueRings};

use crate::ring::RowRings;
use domains::Index;
use job::Job;
use narrow_kernels::gather_narrow_index_columns;
use narrow_sums::NarrowSource;
use tile_eval::RowSpan;

/// Rings of 16 bits whose numbers are the values of a job.
#[derive(Clone, Copy)]
pub(crate) struct NarrowRingSource<'a> {
    pub(crate) job: &'a Job,
    pub(crate) known: &'a RowRings<i16>,
    ghost right: { AreTrueRings (pipeline_in job.now) known.now.rings.items } by { Prim.hlevel props },
}

impl<'a> NarrowSource for NarrowRingSource<'a> {
    ghost has = { λ source g r c. IsKeptPoint source.known.now.rings.items g r c };

    ghost samples = { λ source g r c. value (pipeline_in source.job.now) g r c };

    fn borrow_narrow_row(&self, stage: usize, row: i32, first: i32, count: usize) -> &[i16] {
        self.known.slice_ring_row(stage, row, first, count)
    }

    fn gather_narrow_row(
        &self,
        stage: usize,
        row: i32,
        col: &Index,
        points: &RowSpan,
        out: &mut [i16],
    ) {
        if !out.is_empty() {
            let (line, from) = self.known.rings[stage].borrow_gathered_row(row, col, points);
            gather_narrow_index_columns(line, from, col, points, out);
        }
    }
}
