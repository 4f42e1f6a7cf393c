#![tactic(auto)]
//! Programs along rows of points, in 16 bits: one instruction after another.

ghost use Rattle.std.specs.Prelude.{◌≡◌, ◌≤◌, ◌-◌, ◌+◌, ℕ, ◌+ℤ◌, ℤ, pos, length, List, IfSome};
ghost use Rattle.job.specs.Values.{formula_value};
ghost use Rattle.job.specs.WellFormed.{IsFormula};
ghost use Rattle.narrow_kernels.specs.NarrowOperands.{narrow_operand_at, ServesNarrow, IsGivenNarrow};
ghost use Rattle.narrow_sums.specs.NarrowFormulas.{NarrowWithin};
ghost use Rattle.narrow_sums.specs.SumRows.{joined_sum_formula};
ghost use Rattle.row_loops.specs.Rows.{EachPlace, at};
ghost use Rattle.tile_eval.specs.Reading.{ReadsWithin, HasRoom};
ghost use Rattle.narrow_eval.specs.NarrowPrograms.{program_formula};

use crate::narrow_points::NarrowPoints;
use crate::narrow_program::NarrowProgram;
use crate::narrow_reads::find_number_of_narrow_program;
use narrow_kernels::{
    NarrowOperand, fill_narrow_row, write_narrow_absolute_differences, write_narrow_binary_results,
    write_narrow_greatest_of_three_lines, write_narrow_least_of_three_lines,
    write_narrow_literal_op_results, write_narrow_medians_of_three_lines, write_narrow_selection,
    write_narrow_ternary_results, write_narrow_unary_results,
};
use narrow_sums::{NarrowSource, NarrowSumRow, join_narrow_sum_row, write_narrow_sum_row};
use row_kernels::RowSpan;

// What a program gives as an operand along a row of points: what is available, or values computed into `own`.
#[cycle(run_narrow_program)]
fn obtain_narrow_program_operand<'a, S: NarrowSource>(
    source: &'a S,
    points: &RowSpan,
    program: &NarrowProgram,
    own: &'a mut [i16],
    temps: &mut [i16],
) -> NarrowOperand<'a>
    requires fits { length own.old ≡ points.now.len }
    requires formula { IsFormula (program_formula program.now) }
    requires narrow { NarrowWithin (S.samples source.now) (program_formula program.now) points.now.row
        points.now.col (length own.old) }
    requires reads { ReadsWithin (S.has source.now) (program_formula program.now) points.now.row
        points.now.col (length own.old) }
    requires room { HasRoom (program_formula program.now) (length own.old) (length temps.old) }
    ensures serves { ServesNarrow (length own.old) result }
    ensures given { IsGivenNarrow result }
    ensures values { (out : List ℤ) → EachPlace (length own.old) (λ k. narrow_operand_at result out k
        ≡ formula_value (S.samples source.now) (program_formula program.now) points.now.row
        (points.now.col +ℤ pos k)) }
{
    let row = NarrowPoints {
        source,
        points: *points,
    };
    match row.borrow_available_narrow_program(program) {
        Some(it) => it,
        None => {
            row.run_narrow_program(program, own, temps);
            NarrowOperand::Line(own)
        }
    }
}

// What a program gives as the right operand, which is computed into the row itself unless the left one is there.
#[cycle(run_narrow_program)]
fn obtain_right_narrow_program_operand<'a, S: NarrowSource>(
    source: &'a S,
    points: &RowSpan,
    left: NarrowOperand,
    program: &NarrowProgram,
    out: &mut [i16],
    temps: &'a mut [i16],
) -> NarrowOperand<'a>
    requires fits { length out.old ≡ points.now.len }
    requires formula { IsFormula (program_formula program.now) }
    requires narrow { NarrowWithin (S.samples source.now) (program_formula program.now) points.now.row
        points.now.col (length out.old) }
    requires reads { ReadsWithin (S.has source.now) (program_formula program.now) points.now.row
        points.now.col (length out.old) }
    requires own { length out.old ≤ length temps.old }
    requires room { HasRoom (program_formula program.now) (length out.old)
        (length temps.old - length out.old) }
    ensures left { (k : ℕ) → narrow_operand_at left.entry out.new k
        ≡ narrow_operand_at left.entry out.old k }
    ensures serves { ServesNarrow (length out.old) result }
    ensures values { EachPlace (length out.old) (λ k. narrow_operand_at result out.new k
        ≡ formula_value (S.samples source.now) (program_formula program.now) points.now.row
        (points.now.col +ℤ pos k)) }
{
    let (own, rest) = temps.split_at_mut(out.len());
    match left {
        NarrowOperand::Written => obtain_narrow_program_operand(source, points, program, own, rest),
        _ => {
            let row = NarrowPoints {
                source,
                points: *points,
            };
            row.borrow_or_run_narrow_program(program, out, rest)
        }
    }
}

impl<'a, S: NarrowSource> NarrowPoints<'a, S> {
    // What a program gives as an operand, which is computed into the row itself if it is not available.
    #[cycle(run_narrow_program)]
    fn borrow_or_run_narrow_program(
        &self,
        program: &NarrowProgram,
        out: &mut [i16],
        temps: &mut [i16],
    ) -> NarrowOperand<'a>
        requires fits { length out.old ≡ self.now.points.len }
        requires formula { IsFormula (program_formula program.now) }
        requires narrow { NarrowWithin (S.samples self.now.source.now) (program_formula program.now)
            self.now.points.row self.now.points.col (length out.old) }
        requires reads { ReadsWithin (S.has self.now.source.now) (program_formula program.now)
            self.now.points.row self.now.points.col (length out.old) }
        requires room { HasRoom (program_formula program.now) (length out.old) (length temps.old) }
        ensures serves { ServesNarrow (length out.old) result }
        ensures values { EachPlace (length out.old) (λ k. narrow_operand_at result out.new k
            ≡ formula_value (S.samples self.now.source.now) (program_formula program.now)
            self.now.points.row (self.now.points.col +ℤ pos k)) }
    {
        match self.borrow_available_narrow_program(program) {
            Some(it) => it,
            None => {
                self.run_narrow_program(program, out, temps);
                NarrowOperand::Written
            }
        }
    }

    // Runs a sum that begins with what a program gives.
    #[cycle(run_narrow_program)]
    fn run_narrow_program_of_joined_sum(
        &self,
        start: &NarrowProgram,
        sum: &NarrowSumRow,
        out: &mut [i16],
        temps: &mut [i16],
    )
        requires fits { length out.old ≡ self.now.points.len }
        requires formula { IsFormula (joined_sum_formula (program_formula start.now) sum.now) }
        requires narrow { NarrowWithin (S.samples self.now.source.now) (joined_sum_formula (program_formula start.now) sum.now)
            self.now.points.row self.now.points.col (length out.old) }
        requires reads { ReadsWithin (S.has self.now.source.now) (joined_sum_formula (program_formula start.now) sum.now)
            self.now.points.row self.now.points.col (length out.old) }
        requires room { HasRoom (joined_sum_formula (program_formula start.now) sum.now) (length out.old) (length temps.old) }
        ensures { EachPlace (length out.old) (λ k. at out.new k
            ≡ formula_value (S.samples self.now.source.now) (joined_sum_formula (program_formula start.now) sum.now)
            self.now.points.row (self.now.points.col +ℤ pos k)) }
    {
        self.run_narrow_program(start, out, temps);
        join_narrow_sum_row(self.source, sum, &self.points, out);
    }

    // Runs a program: its reads take what the source has.
    #[cycle(run_narrow_program)]
    pub(crate) fn run_narrow_program(
        &self,
        program: &NarrowProgram,
        out: &mut [i16],
        temps: &mut [i16],
    )
        requires fits { length out.old ≡ self.now.points.len }
        requires formula { IsFormula (program_formula program.now) }
        requires narrow { NarrowWithin (S.samples self.now.source.now) (program_formula program.now)
            self.now.points.row self.now.points.col (length out.old) }
        requires reads { ReadsWithin (S.has self.now.source.now) (program_formula program.now)
            self.now.points.row self.now.points.col (length out.old) }
        requires room { HasRoom (program_formula program.now) (length out.old) (length temps.old) }
        ensures { EachPlace (length out.old) (λ k. at out.new k
            ≡ formula_value (S.samples self.now.source.now) (program_formula program.now)
            self.now.points.row (self.now.points.col +ℤ pos k)) }
    {
        match program {
            NarrowProgram::Number(number) => {
                if let Some(number) = find_number_of_narrow_program(*number) {
                    fill_narrow_row(out, number);
                }
            }
            NarrowProgram::Coordinate(_) | NarrowProgram::Lookup(_, _) => {}
            NarrowProgram::Line(read) => out.copy_from_slice(self.borrow_narrow_program_line(read)),
            NarrowProgram::Gather(stage, row, col) => {
                self.gather_narrow_program_samples(*stage, row, col, out)
            }
            NarrowProgram::Unary(op, a) => {
                let of = self.borrow_or_run_narrow_program(a, out, temps);
                write_narrow_unary_results(*op, out, of);
            }
            NarrowProgram::Binary(op, a, b) => {
                let first = self.borrow_or_run_narrow_program(a, out, temps);
                let (source, points) = (self.source, &self.points);
                let second = obtain_right_narrow_program_operand(
                    source, points, first, b, out, temps,
                );
                write_narrow_binary_results(*op, out, first, second);
            }
            NarrowProgram::Ternary(op, a, b, c) => {
                let first = self.borrow_or_run_narrow_program(a, out, temps);
                let n = out.len();
                let (second, rest) = temps.split_at_mut(n);
                let (third, rest) = rest.split_at_mut(n);
                let (source, points) = (self.source, &self.points);
                let second = obtain_narrow_program_operand(source, points, b, second, rest);
                let third = obtain_narrow_program_operand(source, points, c, third, rest);
                write_narrow_ternary_results(*op, out, first, second, third);
            }
            NarrowProgram::Literal(op, a, number) => {
                let left = self.borrow_or_run_narrow_program(a, out, temps);
                write_narrow_literal_op_results(*op, out, left, *number);
            }
            NarrowProgram::Select(a, relation, b, then, other) => {
                let first = self.borrow_or_run_narrow_program(then, out, temps);
                let n = out.len();
                let (left, rest) = temps.split_at_mut(n);
                let (right, rest) = rest.split_at_mut(n);
                let (second, rest) = rest.split_at_mut(n);
                let (source, points) = (self.source, &self.points);
                let left = obtain_narrow_program_operand(source, points, a, left, rest);
                let right = obtain_narrow_program_operand(source, points, b, right, rest);
                let second = obtain_narrow_program_operand(source, points, other, second, rest);
                write_narrow_selection(out, left, *relation, right, first, second);
            }
            NarrowProgram::Stencil(stage, divisor, kernel) => {
                self.evaluate_narrow_stencil(*stage, *divisor, kernel, out)
            }
            NarrowProgram::Distance(a, b) => {
                let (a, b) = (
                    self.borrow_narrow_program_line(a),
                    self.borrow_narrow_program_line(b),
                );
                write_narrow_absolute_differences(out, a, b);
            }
            NarrowProgram::Least(a, b, c) => {
                let (a, b) = (
                    self.borrow_narrow_program_line(a),
                    self.borrow_narrow_program_line(b),
                );
                write_narrow_least_of_three_lines(out, a, b, self.borrow_narrow_program_line(c));
            }
            NarrowProgram::Greatest(a, b, c) => {
                let (a, b) = (
                    self.borrow_narrow_program_line(a),
                    self.borrow_narrow_program_line(b),
                );
                write_narrow_greatest_of_three_lines(out, a, b, self.borrow_narrow_program_line(c));
            }
            NarrowProgram::Median(a, b, c) => {
                let (a, b) = (
                    self.borrow_narrow_program_line(a),
                    self.borrow_narrow_program_line(b),
                );
                write_narrow_medians_of_three_lines(out, a, b, self.borrow_narrow_program_line(c));
            }
            NarrowProgram::Sum(sum) => write_narrow_sum_row(self.source, sum, &self.points, out),
            NarrowProgram::JoinedSum(start, sum) => {
                self.run_narrow_program_of_joined_sum(start, sum, out, temps)
            }
        }
    }
}
