#![tactic(auto)]
//! What reads take along rows of points.

ghost use Rattle.std.specs.Prelude.{◌≡◌, ◌+ℤ◌, ◌≤ℤ◌, pos, length, slice_index, IfSome, IsTrue};
ghost use Rattle.domains.specs.Index.{index_at};
ghost use Rattle.job.specs.Values.{formula_value};
ghost use Rattle.job.specs.Views.{formula_view};
ghost use Rattle.row_loops.specs.Rows.{EachPlace, at};
ghost use Rattle.tile_eval.specs.Reading.{ReadsWithin};

use crate::source::RowSource;
use crate::source_row::SourceRow;
use domains::Index;
use job::Formula;

// Whether an index only adds, so that it takes adjacent columns to adjacent columns.
fn is_index_shifting_along_row(index: &Index) -> bool
    ensures { IsTrue result → (index.now.mul ≡ pos 1) × (index.now.div ≡ pos 1) }
{
    index.mul() == 1 && index.div() == 1
}

impl<'a, S: RowSource> SourceRow<'a, S> {
    /// The samples that a read takes.
    pub(crate) fn write_samples_of_read_along_row(
        &self,
        stage: usize,
        row: &Index,
        col: &Index,
        out: &mut [i32],
    )
        requires fits { length out.old ≡ self.now.points.len }
        requires reads { EachPlace (length out.old) (λ k. S.has self.now.source.now stage
            (index_at row.now self.now.points.row)
            (index_at col.now (self.now.points.col +ℤ pos k))) }
        ensures { EachPlace (length out.old) (λ k. at out.new k
            ≡ S.samples self.now.source.now stage (index_at row.now self.now.points.row)
            (index_at col.now (self.now.points.col +ℤ pos k))) }
    {
        let own = self.points.row_at_index(row);
        if is_index_shifting_along_row(col) {
            self.source
                .read_row(stage, own, self.points.first_column_at_index(col), out);
        } else {
            self.source.gather_row(stage, own, col, &self.points, out);
        }
    }

    // The samples at the columns of an index that only adds, if they can be borrowed from the source.
    fn borrow_shifted_row(&self, stage: usize, row: &Index, col: &Index) -> Option<&'a [i32]>
        requires mul { col.now.mul ≡ pos 1 }
        requires div { col.now.div ≡ pos 1 }
        requires reads { EachPlace self.now.points.len (λ k. S.has self.now.source.now stage
            (index_at row.now self.now.points.row)
            (index_at col.now (self.now.points.col +ℤ pos k))) }
        ensures { IfSome result (λ line. (length line.now ≡ self.now.points.len)
            × EachPlace self.now.points.len (λ k. at line.now k
            ≡ S.samples self.now.source.now stage (index_at row.now self.now.points.row)
            (index_at col.now (self.now.points.col +ℤ pos k)))) }
    {
        let row = self.points.row_at_index(row);
        let first = self.points.first_column_at_index(col);
        self.source.borrow_row(stage, row, first, self.points.len)
    }

    /// The values of a formula, if it is a read whose samples can be borrowed from the source.
    pub(crate) fn borrow_samples_of_read_formula(&self, formula: &Formula) -> Option<&'a [i32]>
        requires { ReadsWithin (S.has self.now.source.now) (formula_view formula.now)
            self.now.points.row self.now.points.col self.now.points.len }
        ensures { IfSome result (λ line. (length line.now ≡ self.now.points.len)
            × EachPlace self.now.points.len (λ k. at line.now k
            ≡ formula_value (S.samples self.now.source.now) (formula_view formula.now)
            self.now.points.row (self.now.points.col +ℤ pos k))) }
    {
        match formula {
            Formula::Read(stage, row, col) if is_index_shifting_along_row(col) =>
                self.borrow_shifted_row(*stage, row, col),
            _ => None,
        }
    }

    // The samples at the columns of an index that only adds, if they are bytes that can be borrowed from the source.
    fn borrow_shifted_byte_row(&self, stage: usize, row: &Index, col: &Index) -> Option<&'a [u8]>
        requires mul { col.now.mul ≡ pos 1 }
        requires div { col.now.div ≡ pos 1 }
        requires reads { EachPlace self.now.points.len (λ k. S.has self.now.source.now stage
            (index_at row.now self.now.points.row)
            (index_at col.now (self.now.points.col +ℤ pos k))) }
        ensures { IfSome result (λ line. (length line.now ≡ self.now.points.len)
            × EachPlace self.now.points.len (λ k. pos (slice_index line.now k)
            ≡ S.samples self.now.source.now stage (index_at row.now self.now.points.row)
            (index_at col.now (self.now.points.col +ℤ pos k)))) }
    {
        let row = self.points.row_at_index(row);
        let first = self.points.first_column_at_index(col);
        self.source
            .borrow_byte_row(stage, row, first, self.points.len)
    }

    /// The values of a formula, if it is a read of samples that are adjacent bytes of the source.
    pub fn borrow_bytes_of_read_along_row(&self, formula: &Formula) -> Option<&'a [u8]>
        requires { ReadsWithin (S.has self.now.source.now) (formula_view formula.now)
            self.now.points.row self.now.points.col self.now.points.len }
        ensures { IfSome result (λ line. (length line.now ≡ self.now.points.len)
            × EachPlace self.now.points.len (λ k. pos (slice_index line.now k)
            ≡ formula_value (S.samples self.now.source.now) (formula_view formula.now)
            self.now.points.row (self.now.points.col +ℤ pos k))) }
    {
        match formula {
            Formula::Read(stage, row, col) if is_index_shifting_along_row(col) =>
                self.borrow_shifted_byte_row(*stage, row, col),
            _ => None,
        }
    }
}
