#![tactic(auto)]
//! What is available along a row without computing: numbers of the text, and samples.

ghost use Rattle.std.specs.Prelude.{◌≡◌, ◌+ℤ◌, pos, length, List, ℤ, IfSome, IfNone, FitsSigned};
ghost use Rattle.std.specs.Int.{w16};
ghost use Rattle.domains.specs.Index.{index_at};
ghost use Rattle.job.specs.Values.{formula_value};
ghost use Rattle.narrow_kernels.specs.NarrowOperands.{narrow_operand_at, ServesNarrow, IsGivenNarrow};
ghost use Rattle.narrow_sums.specs.SumTerms.{read_formula};
ghost use Rattle.row_loops.specs.Rows.{EachPlace, at};
ghost use Rattle.tile_eval.specs.Reading.{ReadsWithin};
ghost use Rattle.narrow_eval.specs.NarrowPrograms.{program_formula};

use crate::narrow_points::NarrowPoints;
use crate::narrow_program::NarrowProgram;
use domains::Index;
use narrow_kernels::NarrowOperand;
use narrow_sums::{NarrowSource, NarrowSumRead, borrow_narrow_sum_read_line};

// A number of the text, if it fits in 16 bits.
#[tactic(auto, using(std::proofs::lemmas::Int::ints))]
pub(crate) fn find_number_of_narrow_program(number: i32) -> Option<i16>
    ensures some { IfSome result (λ it. it ≡ number) }
    ensures none { IfNone result (¬ (FitsSigned w16 number)) }
{
    if number < -32768 || number > 32767 {
        return None;
    }
    Some(number as i16)
}

impl<'a, S: NarrowSource> NarrowPoints<'a, S> {
    /// The samples that a read takes.
    #[inline(always)]
    pub(crate) fn borrow_narrow_program_line(&self, read: &NarrowSumRead) -> &'a [i16]
        requires { ReadsWithin (S.has self.now.source.now) (read_formula read.now)
            self.now.points.row self.now.points.col self.now.points.len }
        ensures count { length result.now ≡ self.now.points.len }
        ensures values { EachPlace self.now.points.len (λ k. at result.now k
            ≡ formula_value (S.samples self.now.source.now) (read_formula read.now)
            self.now.points.row (self.now.points.col +ℤ pos k)) }
    {
        borrow_narrow_sum_read_line(self.source, read, &self.points)
    }

    /// Writes the samples of a stage at the columns that an index takes.
    pub(crate) fn gather_narrow_program_samples(
        &self,
        stage: usize,
        row: &Index,
        col: &Index,
        out: &mut [i16],
    )
        requires fits { length out.old ≡ self.now.points.len }
        requires reads { EachPlace (length out.old) (λ k. S.has self.now.source.now stage
            (index_at row.now self.now.points.row)
            (index_at col.now (self.now.points.col +ℤ pos k))) }
        ensures { EachPlace (length out.old) (λ k. at out.new k
            ≡ S.samples self.now.source.now stage (index_at row.now self.now.points.row)
            (index_at col.now (self.now.points.col +ℤ pos k))) }
    {
        let own = self.points.row_at_index(row);
        self.source
            .gather_narrow_row(stage, own, col, &self.points, out);
    }

    /// What a program gives as an operand, if nothing is to be computed.
    #[inline]
    pub(crate) fn borrow_available_narrow_program(
        &self,
        program: &NarrowProgram,
    ) -> Option<NarrowOperand<'a>>
        requires { ReadsWithin (S.has self.now.source.now) (program_formula program.now)
            self.now.points.row self.now.points.col self.now.points.len }
        ensures serves { IfSome result (ServesNarrow self.now.points.len) }
        ensures given { IfSome result IsGivenNarrow }
        ensures values { IfSome result (λ it. (out : List ℤ)
            → EachPlace self.now.points.len (λ k. narrow_operand_at it out k
            ≡ formula_value (S.samples self.now.source.now) (program_formula program.now)
            self.now.points.row (self.now.points.col +ℤ pos k))) }
    {
        match program {
            NarrowProgram::Number(number) => Some(NarrowOperand::Number(
                find_number_of_narrow_program(*number)?,
            )),
            NarrowProgram::Line(read) => Some(NarrowOperand::Line(self.borrow_narrow_program_line(
                read,
            ))),
            _ => None,
        }
    }
}
