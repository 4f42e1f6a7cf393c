#![tactic(auto)]
//! The rows that a ring keeps.

ghost use Rattle.std.specs.Prelude.{◌≡◌, ◌<◌, ◌≤◌, ◌+◌, ◌+ℤ◌, pos, length, slice_index_or};
ghost use Rattle.std.specs.Int.{int_gap};
ghost use Rattle.domains.specs.Index.{index_at};
ghost use Rattle.domains.specs.Span.{Holds, len_of};
ghost use Rattle.row_kernels.specs.Columns.{column_gap};
ghost use Rattle.row_loops.specs.Rows.{EachPlace};
ghost use Rattle.row_plans.specs.Rows.{IsKeptRow};
ghost use Rattle.row_rings.specs.RingRows.{row_at, ring_row, number_at, number_in, IsKeptPoint};
ghost use Rattle.row_rings.specs.inside.Places.{IsGatheredLine};

use crate::ring::{RowRing, RowRings};
use domains::{Index, Span};
use tile_eval::RowSpan;

// How far a number of a span lies after the first.
fn count_ring_steps(span: &Span, v: i32) -> usize
    requires { Holds span.now v }
    ensures number { result ≡ int_gap span.now.lo v }
    ensures below { result < len_of span.now }
{
    (v - span.lo()) as usize
}

impl<T> RowRing<T> {
    // The numbers of a row that is kept, which is counted from the first one of the domain.
    pub(crate) fn borrow_counted_row(&self, row: usize) -> &[T]
        requires made { row < self.now.state.next }
        requires kept { self.now.state.next ≤ row + self.now.state.kept }
        ensures numbers { result.now ≡ row_at self.now row }
        ensures count { length result.now ≡ len_of self.now.state.area.cols }
    {
        &self.rows[self.state.kept - (self.state.next - row)]
    }

    // The numbers of the row of this number.
    fn borrow_row_of_number(&self, row: i32) -> &[T]
        requires { IsKeptRow self.now.state row }
        ensures numbers { result.now ≡ ring_row self.now row }
        ensures count { length result.now ≡ len_of self.now.state.area.cols }
    {
        self.borrow_counted_row(count_ring_steps(&self.state.area.rows, row))
    }

    // `count` numbers of a row that is kept, from a column on.
    fn slice_kept_row(&self, row: i32, first: i32, count: usize) -> &[T]
        requires row { IsKeptRow self.now.state row }
        requires some { 0 < count }
        requires columns { EachPlace count
            (λ k. Holds self.now.state.area.cols (first +ℤ pos k)) }
        ensures count { length result.now ≡ count }
        ensures values { (d : T) → EachPlace count
            (λ k. slice_index_or result.now k d ≡ number_at d self.now row (first +ℤ pos k)) }
    {
        let line = self.borrow_row_of_number(row);
        let from = count_ring_steps(&self.state.area.cols, first);
        &line[from..from + count]
    }

    // A row that is kept, and the place in it of the column that an index takes at the first of some points.
    pub(crate) fn borrow_gathered_row(
        &self,
        row: i32,
        col: &Index,
        points: &RowSpan,
    ) -> (&[T], usize)
        requires row { IsKeptRow self.now.state row }
        requires some { 0 < points.now.len }
        requires columns { EachPlace points.now.len
            (λ k. Holds self.now.state.area.cols (index_at col.now (points.now.col +ℤ pos k))) }
        ensures { IsGatheredLine self.now row col.now points.now.col points.now.len result.0.now result.1 }
    {
        let line = self.borrow_row_of_number(row);
        let from = count_ring_steps(&self.state.area.cols, col.at(points.col));
        (line, from)
    }
}

impl<T> RowRings<T> {
    // `count` numbers of a row of a stage, from a column on.
    pub(crate) fn slice_ring_row(&self, stage: usize, row: i32, first: i32, count: usize) -> &[T]
        requires { EachPlace count
            (λ k. IsKeptPoint self.now.rings.items stage row (first +ℤ pos k)) }
        ensures count { length result.now ≡ count }
        ensures values { (d : T) → EachPlace count (λ k. slice_index_or result.now k d
            ≡ number_in d self.now.rings.items stage row (first +ℤ pos k)) }
    {
        if count == 0 {
            return &[];
        }
        self.rings[stage].slice_kept_row(row, first, count)
    }
}
