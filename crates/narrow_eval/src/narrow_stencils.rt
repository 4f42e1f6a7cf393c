#![tactic(auto)]
//! Stencils along rows of points, in 16 bits.

ghost use Rattle.std.specs.Prelude.{◌≡◌, ◌<◌, ◌≤◌, ◌+◌, ◌*◌, ◌^◌, ◌+ℤ◌, pos, suc, neg_ℤ, ℕ, ℤ, true, length, IfSome};
ghost use Rattle.std.specs.Int.{w16, int_wrap};
ghost use Rattle.domains.specs.Arithmetic.{wrapped, floor_div};
ghost use Rattle.job.specs.Values.{kernel_row, kernel_column, weighted_sum};
ghost use Rattle.job.specs.WellFormed.{IsDivisor, IsKernel};
ghost use Rattle.row_loops.specs.Rows.{EachPlace, at};
ghost use Rattle.tile_eval.specs.Reading.{KernelWithin};
ghost use Rattle.value_ranges.specs.Narrow.{IsNarrowStencil, steps_before_division};
ghost use Rattle.tile_eval.specs.inside.Stencil.{IsUnder};
ghost use Rattle.narrow_eval.specs.NarrowStencils.{rows_below, line_total};
ghost use Rattle.narrow_sums.specs.NarrowSums.{HasAddends, GivesSum};

use crate::narrow_points::NarrowPoints;
use job::Kernel;
use narrow_kernels::{NarrowOperand, write_narrow_binary_results};
use narrow_sums::{NarrowSource, NarrowSum};
use operators::BinaryOp;
use row_kernels::RowSpan;
use value_ranges::count_narrow_steps_before_division;

// Adds the products of factors and the numbers of a line, which begins with those of the first factor.
fn add_narrow_stencil_products<'a>(
    line: &'a [i16],
    factors: &[i32],
    sum: &mut NarrowSum<'a>,
    out: &mut [i16],
)
    requires line { length out.old + length factors.now ≤ length line.now + 1 }
    requires addends { HasAddends (length out.old) sum.old }
    ensures addends { HasAddends (length out.old) sum.new }
    ensures sum { (f : ℕ → ℤ) → GivesSum (length out.old) f sum.old out.old
        → GivesSum (length out.old) (λ k. f k +ℤ line_total (length factors.now) factors.now line.now k)
        sum.new out.new }
{
    for b in 0..factors.len() {
        let part = &line[b..b + out.len()];
        sum.push_narrow_sum_product(part, factors[b], out);
    }
}

/// The samples under a row of a kernel, from the first column under it on.
pub fn borrow_narrow_stencil_line<'a, S: NarrowSource>(
    source: &'a S,
    stage: usize,
    kernel: &Kernel,
    a: usize,
    points: &RowSpan,
    count: usize,
) -> &'a [i16]
    requires kernel { IsKernel kernel.now }
    requires a { a < length kernel.now }
    requires reads { EachPlace count (λ j. S.has source.now stage
        (kernel_row kernel.now points.now.row a) (kernel_column kernel.now points.now.col j)) }
    ensures count { length result.now ≡ count }
    ensures under { IsUnder kernel.now (S.samples source.now stage) points.now.row points.now.col a
        result.now }
{
    let rows = kernel.as_slice();
    let row = points.row_under_kernel(rows.len(), a);
    let col = points.first_column_under_kernel(rows[0].as_slice().len());
    source.borrow_narrow_row(stage, row, col, count)
}

// 0 less a number up to 2^15.
#[tactic(auto, using(std::proofs::lemmas::Int::ints))]
fn negate_narrow_stencil_number(number: u32) -> i16
    requires { number ≤ 32768 }
    ensures { result ≡ neg_ℤ (pos number) }
{
    (-(number as i32)) as i16
}

impl<'a, S: NarrowSource> NarrowPoints<'a, S> {
    // Adds what a row of a kernel gives.
    fn add_narrow_stencil_row(
        &self,
        stage: usize,
        kernel: &Kernel,
        a: usize,
        sum: &mut NarrowSum<'a>,
        out: &mut [i16],
    )
        requires fits { length out.old ≡ self.now.points.len }
        requires kernel { IsKernel kernel.now }
        requires a { a < length kernel.now }
        requires reads { KernelWithin (S.has self.now.source.now stage) kernel.now
            self.now.points.row self.now.points.col (length out.old) }
        requires addends { HasAddends (length out.old) sum.old }
        ensures addends { HasAddends (length out.old) sum.new }
        ensures sum { GivesSum (length out.old) (λ k. rows_below a kernel.now
            (S.samples self.now.source.now stage) self.now.points.row
            (self.now.points.col +ℤ pos k)) sum.old out.old
            → GivesSum (length out.old) (λ k. rows_below (suc a) kernel.now
            (S.samples self.now.source.now stage) self.now.points.row
            (self.now.points.col +ℤ pos k)) sum.new out.new }
    {
        let factors = kernel.as_slice()[a].as_slice();
        let n = out.len();
        let count = n + factors.len() - 1;
        let line = borrow_narrow_stencil_line(self.source, stage, kernel, a, &self.points, count);
        add_narrow_stencil_products(line, factors, sum, out);
    }

    // The sums of a stencil and a number, wrapped at 16 bits and divided.
    fn write_narrow_stencil_quotients(
        &self,
        stage: usize,
        divisor: u32,
        kernel: &Kernel,
        number: i16,
        out: &mut [i16],
    )
        requires fits { length out.old ≡ self.now.points.len }
        requires divisor { IsDivisor divisor }
        requires kernel { IsKernel kernel.now }
        requires reads { KernelWithin (S.has self.now.source.now stage) kernel.now
            self.now.points.row self.now.points.col (length out.old) }
        ensures { EachPlace (length out.old) (λ k. at out.new k
            ≡ floor_div (int_wrap w16 (weighted_sum kernel.now (S.samples self.now.source.now stage)
            self.now.points.row (self.now.points.col +ℤ pos k) +ℤ number)) (pos divisor)) }
    {
        let mut sum = NarrowSum::of_no_narrow_addends();
        for a in 0..kernel.as_slice().len() {
            self.add_narrow_stencil_row(stage, kernel, a, &mut sum, out);
        }
        sum.divide_narrow_sum(number, divisor, out);
    }

    // The values of a stencil, from its sums without whole divisors, of which there are `steps`.
    fn write_narrow_stencil_in_steps(
        &self,
        stage: usize,
        divisor: u32,
        kernel: &Kernel,
        steps: u32,
        out: &mut [i16],
    )
        requires fits { length out.old ≡ self.now.points.len }
        requires divisor { IsDivisor divisor }
        requires kernel { IsKernel kernel.now }
        requires steps { steps ≡ steps_before_division divisor }
        requires few { steps ≤ 254 }
        requires sum { steps * divisor ≤ 32768 }
        requires narrow { EachPlace (length out.old)
            (λ k. IsNarrowStencil (S.samples self.now.source.now stage) divisor kernel.now
            self.now.points.row (self.now.points.col +ℤ pos k)) }
        requires reads { KernelWithin (S.has self.now.source.now stage) kernel.now
            self.now.points.row self.now.points.col (length out.old) }
        ensures { EachPlace (length out.old) (λ k. at out.new k
            ≡ floor_div (wrapped (weighted_sum kernel.now (S.samples self.now.source.now stage)
            self.now.points.row (self.now.points.col +ℤ pos k))) (pos divisor)) }
    {
        let number = negate_narrow_stencil_number(steps * divisor);
        self.write_narrow_stencil_quotients(stage, divisor, kernel, number, out);
        if steps > 0 {
            let steps = NarrowOperand::Number(steps as i16);
            write_narrow_binary_results(BinaryOp::Add, out, NarrowOperand::Written, steps);
        }
    }

    /// The values of a stencil.
    #[inline(never)]
    pub(crate) fn evaluate_narrow_stencil(
        &self,
        stage: usize,
        divisor: u32,
        kernel: &Kernel,
        out: &mut [i16],
    )
        requires fits { length out.old ≡ self.now.points.len }
        requires divisor { IsDivisor divisor }
        requires kernel { IsKernel kernel.now }
        requires narrow { EachPlace (length out.old)
            (λ k. IsNarrowStencil (S.samples self.now.source.now stage) divisor kernel.now
            self.now.points.row (self.now.points.col +ℤ pos k)) }
        requires reads { KernelWithin (S.has self.now.source.now stage) kernel.now
            self.now.points.row self.now.points.col (length out.old) }
        ensures { EachPlace (length out.old) (λ k. at out.new k
            ≡ floor_div (wrapped (weighted_sum kernel.now (S.samples self.now.source.now stage)
            self.now.points.row (self.now.points.col +ℤ pos k))) (pos divisor)) }
    {
        let steps = count_narrow_steps_before_division(divisor);
        self.write_narrow_stencil_in_steps(stage, divisor, kernel, steps, out);
    }
}
