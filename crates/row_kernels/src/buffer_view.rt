#![tactic(auto)]
//! The numbers at the points of an area.

ghost use Rattle.std.specs.Prelude.{◌≡◌, ◌≤◌, ◌<◌, ◌+◌, ◌*◌, ◌+ℤ◌, ◌≤ℤ◌, pos, length};
ghost use Rattle.std.specs.Int.{int_gap};
ghost use Rattle.domains.specs.Area.{HoldsPoint, point_count};
ghost use Rattle.domains.specs.Index.{index_at};
ghost use Rattle.domains.specs.Span.{Holds, len_of};
ghost use Rattle.row_loops.specs.Rows.{EachPlace, at};
ghost use Rattle.row_kernels.specs.Places.{place_of};

use crate::gathering::gather_index_columns;
use crate::row_span::RowSpan;
use domains::{Area, Index, Span};

/// The numbers at the points of an area, row by row.
#[derive(Clone, Copy, Debug)]
pub struct BufferView<'a> {
    pub(crate) area: Area,
    pub(crate) values: &'a [i32],
    ghost size: { length values.now ≡ point_count area },
}

// How far a number of a span lies after the first.
pub(crate) fn count_span_steps_to_number(span: &Span, v: i32) -> usize
    requires { Holds span.now v }
    ensures number { result ≡ int_gap span.now.lo v }
    ensures below { result < len_of span.now }
    ensures few { len_of span.now ≤ 2097153 }
{
    (v - span.lo()) as usize
}

// `count` numbers from a place on.
fn slice_buffer_view_values_from_place(values: &[i32], place: usize, count: usize) -> &[i32]
    requires { place + count ≤ length values.now }
    ensures count { length result.now ≡ count }
    ensures values { EachPlace count (λ k. at result.now k ≡ at values.now (place + k)) }
{
    &values[place..place + count]
}

fn read_value_at_place(values: &[i32], place: usize) -> i32
    requires { place < length values.now }
    ensures { result ≡ at values.now place }
{
    values[place]
}

impl<'a> BufferView<'a> {
    /// The numbers of an area: as many as it has points.
    pub fn new(area: Area, values: &'a [i32]) -> BufferView<'a>
        requires { length values.now ≡ point_count area }
        ensures area { result.area ≡ area }
        ensures values { result.values.now ≡ values.now }
    {
        BufferView { area, values }
    }

    /// The columns of the area.
    pub fn columns(&self) -> &Span
        ensures { result.now ≡ self.now.area.cols }
    {
        &self.area.cols
    }

    /// Writes the values along a row, from a column on.
    pub fn read_row(&self, row: i32, first: i32, out: &mut [i32])
        requires { EachPlace (length out.old) (λ k. HoldsPoint self.now.area row (first +ℤ pos k)) }
        ensures { EachPlace (length out.old) (λ k. at out.new k
            ≡ at self.now.values.now (place_of self.now.area row (first +ℤ pos k))) }
    {
        out.copy_from_slice(self.slice_row(row, first, out.len()));
    }

    /// `count` values along a row, from a column on.
    pub fn slice_row(&self, row: i32, first: i32, count: usize) -> &'a [i32]
        requires { EachPlace count (λ k. HoldsPoint self.now.area row (first +ℤ pos k)) }
        ensures count { length result.now ≡ count }
        ensures values { EachPlace count (λ k. at result.now k
            ≡ at self.now.values.now (place_of self.now.area row (first +ℤ pos k))) }
    {
        if count == 0 {
            return &[];
        }
        slice_buffer_view_values_from_place(self.values, self.locate_point(row, first), count)
    }

    /// Writes the values along a row, at the columns that an index takes at the columns of some points.
    pub fn gather_row(&self, row: i32, col: &Index, points: &RowSpan, out: &mut [i32])
        requires fits { length out.old ≡ points.now.len }
        requires there { EachPlace (length out.old)
            (λ k. HoldsPoint self.now.area row (index_at col.now (points.now.col +ℤ pos k))) }
        ensures { EachPlace (length out.old) (λ k. at out.new k
            ≡ at self.now.values.now
            (place_of self.now.area row (index_at col.now (points.now.col +ℤ pos k)))) }
    {
        if out.is_empty() {
            return;
        }
        let place = self.locate_point(row, col.at(points.col));
        gather_index_columns(self.values, place, col, points, out);
    }

    /// One value.
    pub fn read_sample(&self, row: i32, col: i32) -> i32
        requires { HoldsPoint self.now.area row col }
        ensures { result ≡ at self.now.values.now (place_of self.now.area row col) }
    {
        read_value_at_place(self.values, self.locate_point(row, col))
    }

    // The place of a point among the values.
    fn locate_point(&self, row: i32, col: i32) -> usize
        requires { HoldsPoint self.now.area row col }
        ensures { result ≡ place_of self.now.area row col }
    {
        let cols = &self.area.cols;
        count_span_steps_to_number(&self.area.rows, row) * cols.len() as usize
            + count_span_steps_to_number(cols, col)
    }
}
