#![tactic(auto)]
//! Rows of points.

ghost use Rattle.std.specs.Prelude.{◌≡◌, ◌<◌, ◌≤◌, ◌-◌, ◌≤ℤ◌, ◌+ℤ◌, ◌-ℤ◌, pos, negsuc, Some};
ghost use Rattle.domains.specs.Index.{index_at};
ghost use Rattle.domains.specs.Span.{len_of};
ghost use Rattle.operators.specs.Values.{under};
ghost use Rattle.operators.specs.Limits.{InDomainRange};

use domains::{Area, Index, Span};

/// Adjacent points of a row: the row, the first column, and how many they are.
#[derive(Clone, Copy, Debug)]
pub struct RowSpan {
    pub row: i32,
    pub col: i32,
    pub len: usize,
    ghost row_least: { negsuc 16383 ≤ℤ row },
    ghost row_most: { row ≤ℤ pos 16384 },
    ghost col_least: { negsuc 16383 ≤ℤ col },
    ghost within: { (col +ℤ pos len) ≤ℤ pos 16385 },
}

/// The number `k` after `first`.
#[inline]
#[tactic(auto, using(std::proofs::lemmas::Int::ints))]
pub fn compute_coordinate_at_place(first: i32, k: usize) -> i32
    requires least { negsuc 1048575 ≤ℤ first }
    requires most { (first +ℤ pos k) ≤ℤ pos 1048576 }
    ensures { result ≡ first +ℤ pos k }
{
    first + k as i32
}

impl RowSpan {
    /// Row number `row` of an area.
    pub fn from_area_row(area: &Area, row: usize) -> RowSpan
        requires rows { InDomainRange area.now.rows }
        requires cols { InDomainRange area.now.cols }
        requires row { row < len_of area.now.rows }
        ensures row { result.row ≡ area.now.rows.lo +ℤ pos row }
        ensures col { result.col ≡ area.now.cols.lo }
        ensures len { result.len ≡ len_of area.now.cols }
    {
        RowSpan {
            row: compute_coordinate_at_place(area.rows.lo(), row),
            col: area.cols.lo(),
            len: area.cols.len() as usize,
        }
    }

    /// The first row of an area.
    pub fn from_area_top(area: &Area) -> RowSpan
        requires rows { InDomainRange area.now.rows }
        requires cols { InDomainRange area.now.cols }
        ensures row { result.row ≡ area.now.rows.lo }
        ensures col { result.col ≡ area.now.cols.lo }
        ensures len { result.len ≡ len_of area.now.cols }
    {
        RowSpan {
            row: area.rows.lo(),
            col: area.cols.lo(),
            len: area.cols.len() as usize,
        }
    }

    /// The column of point number `k`.
    pub fn column(&self, k: usize) -> i32
        requires { k < self.now.len }
        ensures { result ≡ self.now.col +ℤ pos k }
    {
        compute_coordinate_at_place(self.col, k)
    }

    /// The first `n` points.
    pub fn first_points(&self, n: usize) -> RowSpan
        requires { n ≤ self.now.len }
        ensures row { result.row ≡ self.now.row }
        ensures col { result.col ≡ self.now.col }
        ensures len { result.len ≡ n }
    {
        RowSpan {
            row: self.row,
            col: self.col,
            len: n,
        }
    }

    /// The points from number `from` up to before number `to`.
    pub fn slice_points(&self, from: usize, to: usize) -> RowSpan
        requires order { from ≤ to }
        requires most { to ≤ self.now.len }
        ensures row { result.row ≡ self.now.row }
        ensures col { result.col ≡ self.now.col +ℤ pos from }
        ensures len { result.len ≡ to - from }
    {
        RowSpan {
            row: self.row,
            col: compute_coordinate_at_place(self.col, from),
            len: to - from,
        }
    }

    /// The row that an index takes.
    pub fn row_at_index(&self, index: &Index) -> i32
        ensures { result ≡ index_at index.now self.now.row }
    {
        index.at(self.row)
    }

    /// The first column that an index takes.
    pub fn first_column_at_index(&self, index: &Index) -> i32
        ensures { result ≡ index_at index.now self.now.col }
    {
        index.at(self.col)
    }

    /// The row that row number `a` of a kernel of `rows` rows reads.
    #[tactic(auto, using(std::proofs::lemmas::Int::ints))]
    pub fn row_under_kernel(&self, rows: usize, a: usize) -> i32
        requires rows { rows ≤ 15 }
        requires a { a < rows }
        ensures { result ≡ under self.now.row rows a }
    {
        self.row + a as i32 - (rows / 2) as i32
    }

    /// The first column that a kernel of `cols` columns reads.
    #[tactic(auto, using(std::proofs::lemmas::Int::ints))]
    pub fn first_column_under_kernel(&self, cols: usize) -> i32
        requires { cols ≤ 15 }
        ensures { result ≡ under self.now.col cols 0 }
    {
        self.col - (cols / 2) as i32
    }

    /// The columns of the points.
    pub fn columns(&self) -> Option<Span>
        requires { 0 < self.now.len }
        ensures { result
            ≡ Some (record { lo = self.now.col; hi = self.now.col +ℤ pos self.now.len -ℤ pos 1 }) }
    {
        Span::new(self.col, self.column(self.len - 1))
    }

    /// How far a column lies after the first.
    #[tactic(auto, using(std::proofs::lemmas::Int::ints))]
    pub fn column_offset(&self, col: i32) -> usize
        requires least { self.now.col ≤ℤ col }
        requires most { col ≤ℤ pos 1048576 }
        ensures { self.now.col +ℤ pos result ≡ col }
    {
        (col - self.col) as usize
    }

    /// The points that lie `rows` further down.
    pub fn copy_moved_down_by_rows(&self, rows: usize) -> RowSpan
        requires { (self.now.row +ℤ pos rows) ≤ℤ pos 16384 }
        ensures row { result.row ≡ self.now.row +ℤ pos rows }
        ensures col { result.col ≡ self.now.col }
        ensures len { result.len ≡ self.now.len }
    {
        RowSpan {
            row: compute_coordinate_at_place(self.row, rows),
            col: self.col,
            len: self.len,
        }
    }
}
