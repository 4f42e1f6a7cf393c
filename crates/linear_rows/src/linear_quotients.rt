#![tactic(auto)]
//! Quotients of sums of products: found once, and written part by part.

ghost use Rattle.std.specs.Prelude.{◌≡◌, ◌≤◌, ◌<◌, ◌+ℤ◌, ℤ, pos, length, IsTrue, IfOk, IfSome};
ghost use Rattle.domains.specs.Arithmetic.{wrapped};
ghost use Rattle.job.specs.Reads.{EachRead};
ghost use Rattle.job.specs.Values.{formula_value};
ghost use Rattle.job.specs.Views.{formula_view};
ghost use Rattle.narrow_sums.specs.NarrowFormulas.{FitsWithin};
ghost use Rattle.row_loops.specs.Rows.{EachPlace, at};
ghost use Rattle.operators.specs.declared.operator.LiteralOp.TheVariants.{Shr};
ghost use Rattle.linear_rows.specs.inside.LinearSums.{made, shifted, sum_value, AreTapsRead};

use crate::linear_formulas::match_linear_formula;
use crate::linear_lines::{LinearPair, write_shifted_linear_numbers, write_shifted_linear_term};
use crate::linear_make::{LinearMake, LinearShift};
use crate::linear_quotient::LinearQuotient;
use crate::linear_sums::{LinearSumFault, borrow_linear_line, write_linear_sums};
use crate::linear_taps::LinearSum;
use job::Formula;
use narrow_sums::NarrowSource;
use operators::LiteralOp;
use row_kernels::{Operand, RowSpan, write_literal_op_results_to_row};
use std::alloc::{AllocError, Global};

// How many points are computed at once, so that their sums stay near the processor.
const PART: usize = 512;

/// The quotient that a formula is, if it is one of a sum.
///
/// # Errors
///
/// Fails only where memory is refused.
pub(crate) fn find_linear_quotient<'a>(
    alloc: Global,
    formula: &'a Formula,
) -> Result<Option<LinearQuotient<'a>>, AllocError>
    ensures { IfOk result (λ found. IfSome found (λ it. it.formula.now ≡ formula.now)) }
{
    let Some((of, make)) = match_linear_formula(formula) else {
        return Ok(None);
    };
    match LinearSum::from_formula(alloc, of) {
        Ok(sum) => Ok(Some(LinearQuotient { formula, sum, make })),
        Err(LinearSumFault::NoSum) => Ok(None),
        Err(LinearSumFault::Memory) => Err(AllocError),
    }
}

impl LinearMake {
    // How numbers are shifted and clamped that have been divided, all but by these bits.
    fn shift_linear_quotients(self, bits: u32) -> LinearShift
        requires { bits < 32 }
        ensures bits { result.bits ≡ bits }
        ensures low { result.low ≡ self.low }
        ensures high { result.high ≡ self.high }
    {
        LinearShift {
            bits,
            low: self.low,
            high: self.high,
        }
    }

    // Divides sums, all but by the bits that are returned: these are left to a shift.
    fn divide_linear_sums(self, out: &mut [i32]) -> LinearShift
        ensures { EachPlace (length out.old) (λ k. shifted result (at out.new k) ≡ made self (at out.old k)) }
    {
        match self.op {
            LiteralOp::Shr => self.shift_linear_quotients(self.literal),
            op => {
                write_literal_op_results_to_row(op, out, Operand::Written, self.literal);
                self.shift_linear_quotients(0)
            }
        }
    }
}

impl<'a> LinearQuotient<'a> {
    // Writes the values at up to 512 points, from their sums of 32 bits.
    fn write_linear_part<S: NarrowSource>(&self, source: &S, points: &RowSpan, out: &mut [i16])
        requires few { length out.old ≤ 512 }
        requires fits { length out.old ≡ points.now.len }
        requires reads { EachPlace points.now.len (λ k. AreTapsRead (S.has source.now) points.now.row
            (points.now.col +ℤ pos k) self.now.sum.taps.items) }
        requires narrow { FitsWithin (S.samples source.now) (formula_view self.now.formula.now)
            points.now.row points.now.col points.now.len }
        ensures { EachPlace (length out.old) (λ k. at out.new k
            ≡ formula_value (S.samples source.now) (formula_view self.now.formula.now)
            points.now.row (points.now.col +ℤ pos k)) }
    {
        let mut sums = [0i32; PART];
        let sums = &mut sums[..out.len()];
        write_linear_sums(source, &self.sum, points, sums);
        let make = self.make.divide_linear_sums(sums);
        write_shifted_linear_numbers(out, sums, make);
    }

    // Writes the values in one pass, if at most four products are added and the sum is shifted. Returns whether this is done.
    fn try_few_linear_taps<S: NarrowSource>(
        &self,
        source: &S,
        points: &RowSpan,
        out: &mut [i16],
    ) -> bool
        requires fits { length out.old ≡ points.now.len }
        requires reads { EachPlace points.now.len (λ k. AreTapsRead (S.has source.now) points.now.row
            (points.now.col +ℤ pos k) self.now.sum.taps.items) }
        requires narrow { FitsWithin (S.samples source.now) (formula_view self.now.formula.now)
            points.now.row points.now.col points.now.len }
        ensures { IsTrue result → EachPlace (length out.old) (λ k. at out.new k
            ≡ formula_value (S.samples source.now) (formula_view self.now.formula.now)
            points.now.row (points.now.col +ℤ pos k)) }
    {
        let LiteralOp::Shr = self.make.op else {
            return false;
        };
        let make = self.make.shift_linear_quotients(self.make.literal);
        let number = self.sum.number;
        match &self.sum.taps[..] {
            [a] => {
                let a = borrow_linear_line(source, a, points);
                write_shifted_linear_term(out, number, a, make);
            }
            [a, b] => {
                let a = borrow_linear_line(source, a, points);
                let b = borrow_linear_line(source, b, points);
                write_shifted_linear_term(out, number, LinearPair(a, b), make);
            }
            [a, b, c] => {
                let a = borrow_linear_line(source, a, points);
                let b = borrow_linear_line(source, b, points);
                let c = borrow_linear_line(source, c, points);
                write_shifted_linear_term(out, number, LinearPair(a, LinearPair(b, c)), make);
            }
            [a, b, c, d] => {
                let a = borrow_linear_line(source, a, points);
                let b = borrow_linear_line(source, b, points);
                let back = LinearPair(
                    borrow_linear_line(source, c, points),
                    borrow_linear_line(source, d, points),
                );
                write_shifted_linear_term(out, number, LinearPair(a, LinearPair(b, back)), make);
            }
            _ => return false,
        }
        true
    }
}

// Writes the values part by part.
fn write_linear_parts<S: NarrowSource>(
    source: &S,
    quotient: &LinearQuotient<'_>,
    points: &RowSpan,
    out: &mut [i16],
)
    requires fits { length out.old ≡ points.now.len }
    requires reads { EachPlace points.now.len (λ k. AreTapsRead (S.has source.now) points.now.row
        (points.now.col +ℤ pos k) quotient.now.sum.taps.items) }
    requires narrow { FitsWithin (S.samples source.now) (formula_view quotient.now.formula.now)
        points.now.row points.now.col points.now.len }
    ensures { EachPlace (length out.old) (λ k. at out.new k
        ≡ formula_value (S.samples source.now) (formula_view quotient.now.formula.now)
        points.now.row (points.now.col +ℤ pos k)) }
{
    if out.len() <= PART {
        quotient.write_linear_part(source, points, out);
    } else {
        let (front, back) = out.split_at_mut(PART);
        quotient.write_linear_part(source, &points.first_points(PART), front);
        let rest = points.slice_points(PART, points.len);
        write_linear_parts(source, quotient, &rest, back);
    }
}

/// Writes the values of a quotient at a row of points, which fit in 16 bits.
pub(crate) fn write_linear_quotient<S: NarrowSource>(
    source: &S,
    quotient: &LinearQuotient<'_>,
    points: &RowSpan,
    out: &mut [i16],
)
    requires fits { length out.old ≡ points.now.len }
    requires reads { EachPlace points.now.len (λ k. EachRead (S.has source.now)
        (formula_view quotient.now.formula.now) points.now.row (points.now.col +ℤ pos k)) }
    requires narrow { FitsWithin (S.samples source.now) (formula_view quotient.now.formula.now)
        points.now.row points.now.col points.now.len }
    ensures { EachPlace (length out.old) (λ k. at out.new k
        ≡ formula_value (S.samples source.now) (formula_view quotient.now.formula.now)
        points.now.row (points.now.col +ℤ pos k)) }
{
    if !quotient.try_few_linear_taps(source, points, out) {
        write_linear_parts(source, quotient, points, out);
    }
}
