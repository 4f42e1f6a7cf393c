#![tactic(auto)]
//! Reads of steps of divisions, which take adjacent samples at adjacent points.

ghost use Rattle.std.specs.Prelude.{◌≡◌, IfSome};
ghost use Rattle.job.specs.Views.{formula_view};
ghost use Rattle.wide_divisions.specs.Reads.{read_formula, IsAdjacentRead, IsReadAlong, IsLineOf};

use domains::Index;
use job::Formula;
use row_kernels::RowSpan;
use tile_eval::RowSource;

/// A read of a stage. Where it takes adjacent samples at adjacent points, the index of its column only adds.
#[derive(Clone, Copy)]
pub struct DivisionStepRead<'a> {
    pub stage: usize,
    pub row: &'a Index,
    pub col: &'a Index,
}

/// The read that a formula is, if it takes adjacent samples at adjacent points.
pub(crate) fn match_division_step_read(formula: &Formula) -> Option<DivisionStepRead<'_>>
    ensures some { IfSome result (λ it. formula_view formula.now ≡ read_formula it) }
    ensures adjacent { IfSome result IsAdjacentRead }
{
    match formula {
        Formula::Read(stage, row, col) if col.mul() == 1 && col.div() == 1 => {
            Some(DivisionStepRead {
                stage: *stage,
                row,
                col,
            })
        }
        _ => None,
    }
}

/// The samples that a read takes along the points, if they are adjacent in memory.
#[inline]
pub(crate) fn borrow_division_step_read<'a, S: RowSource>(
    source: &'a S,
    read: &DivisionStepRead<'_>,
    points: &RowSpan,
) -> Option<&'a [i32]>
    requires adjacent { IsAdjacentRead read.now }
    requires reads { IsReadAlong (S.has source.now) read.now points.now }
    ensures { IfSome result (λ line. IsLineOf (S.samples source.now) read.now points.now line.now) }
{
    let row = points.row_at_index(read.row);
    let first = points.first_column_at_index(read.col);
    source.borrow_row(read.stage, row, first, points.len)
}
