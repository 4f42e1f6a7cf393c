#![tactic(auto)]
//! Reads whose samples can be borrowed.

ghost use Rattle.std.specs.Prelude.{◌≡◌, ◌+ℤ◌, pos, length, IfSome, IsTrue};
ghost use Rattle.domains.specs.Index.{index_at};
ghost use Rattle.job.specs.Values.{formula_value};
ghost use Rattle.job.specs.Views.{formula_view};
ghost use Rattle.row_loops.specs.Rows.{EachPlace, at};
ghost use Rattle.tile_eval.specs.Reading.{ReadsWithin};
ghost use Rattle.narrow_sums.specs.SumTerms.{read_formula};

use crate::narrow_source::NarrowSource;
use crate::terms::NarrowSumRead;
use domains::Index;
use job::Formula;
use row_kernels::RowSpan;

// Whether an index only adds.
#[inline]
fn is_adding_narrow_sum_read_index(index: &Index) -> bool
    ensures { IsTrue result → (index.now.mul ≡ pos 1) × (index.now.div ≡ pos 1) }
{
    index.mul() == 1 && index.div() == 1
}

/// The read that a formula is, if its samples can be borrowed.
pub fn match_narrow_sum_read(formula: &Formula) -> Option<NarrowSumRead>
    ensures { IfSome result (λ it. read_formula it ≡ formula_view formula.now) }
{
    match formula {
        Formula::Read(stage, row, col) if is_adding_narrow_sum_read_index(col) => {
            Some(NarrowSumRead {
                stage: *stage,
                row: *row,
                col: *col,
            })
        }
        _ => None,
    }
}

// The row that a read takes, without a division if its index only adds.
#[inline]
fn find_row_of_narrow_sum_read(read: &NarrowSumRead, points: &RowSpan) -> i32
    ensures { result ≡ index_at read.now.row points.now.row }
{
    if is_adding_narrow_sum_read_index(&read.row) {
        points.row + read.row.add()
    } else {
        points.row_at_index(&read.row)
    }
}

// The first column that a read takes.
#[inline]
fn find_first_column_of_narrow_sum_read(read: &NarrowSumRead, points: &RowSpan) -> i32
    ensures { result ≡ index_at read.now.col points.now.col }
{
    points.col + read.col.add()
}

/// The samples that a read takes along the points.
#[inline]
pub fn borrow_narrow_sum_read_line<'a, S: NarrowSource>(
    source: &'a S,
    read: &NarrowSumRead,
    points: &RowSpan,
) -> &'a [i16]
    requires { ReadsWithin (S.has source.now) (read_formula read.now) points.now.row points.now.col
        points.now.len }
    ensures count { length result.now ≡ points.now.len }
    ensures values { EachPlace points.now.len (λ k. at result.now k
        ≡ formula_value (S.samples source.now) (read_formula read.now) points.now.row
        (points.now.col +ℤ pos k)) }
{
    let row = find_row_of_narrow_sum_read(read, points);
    let first = find_first_column_of_narrow_sum_read(read, points);
    source.borrow_narrow_row(read.stage, row, first, points.len)
}
