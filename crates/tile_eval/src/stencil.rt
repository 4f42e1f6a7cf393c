#![tactic(auto)]
//! Stencils along rows of points.

ghost use Rattle.std.specs.Prelude.{◌≡◌, ◌≤◌, ◌<◌, ◌+◌, ◌+ℤ◌, ℤ, pos, length, IfSome, IsTrue, IsFalse};
ghost use Rattle.domains.specs.Arithmetic.{wrapped, floor_div};
ghost use Rattle.job.specs.Values.{kernel_row, kernel_column, weighted_sum};
ghost use Rattle.job.specs.WellFormed.{IsDivisor, IsKernel};
ghost use Rattle.row_loops.specs.Rows.{EachPlace, at};
ghost use Rattle.stencil_kernels.specs.Separable.{IsSeparable};
ghost use Rattle.tile_eval.specs.Reading.{KernelWithin};
ghost use Rattle.tile_eval.specs.inside.Stencil.{row_sum, column_sum, IsUnder, IsUnderTwoRows};

use crate::source::RowSource;
use crate::source_row::SourceRow;
use job::Kernel;
use row_kernels::{Operand, write_quotients_by_literal_to_row};
use row_loops::{Sum, fill_row, write_combination_of_two_rows};
use stencil_kernels::{SeparableKernel, add_line_times_factor, add_tap_sums, write_tap_sums};

// Along rows of fewer points, splitting a kernel costs more time than it saves.
const WIDE: usize = 128;

// Whether a kernel has at least three rows and columns, and more than three of one of them.
fn is_kernel_over_3x3_for_separable_stencil(kernel: &Kernel) -> bool {
    match kernel.as_slice() {
        [first, _, _, _, ..] => first.as_slice().len() >= 3,
        [first, _, _, ..] => first.as_slice().len() > 3,
        _ => false,
    }
}

impl<'a, S: RowSource> SourceRow<'a, S> {
    // The samples under a row of a kernel.
    fn read_line_under_kernel_row(&self, stage: usize, kernel: &Kernel, a: usize, line: &mut [i32])
        requires kernel { IsKernel kernel.now }
        requires a { a < length kernel.now }
        requires reads { EachPlace (length line.old) (λ j. S.has self.now.source.now stage
            (kernel_row kernel.now self.now.points.row a)
            (kernel_column kernel.now self.now.points.col j)) }
        ensures { IsUnder kernel.now (S.samples self.now.source.now stage) self.now.points.row
            self.now.points.col a line.new }
    {
        let rows = kernel.as_slice();
        let row = self.points.row_under_kernel(rows.len(), a);
        let col = self
            .points
            .first_column_under_kernel(rows[0].as_slice().len());
        self.source.read_row(stage, row, col, line);
    }

    // The samples under a row of a kernel, if they can be borrowed from the source.
    fn borrow_line_under_kernel_row(
        &self,
        stage: usize,
        kernel: &Kernel,
        a: usize,
        count: usize,
    ) -> Option<&'a [i32]>
        requires kernel { IsKernel kernel.now }
        requires a { a < length kernel.now }
        requires reads { EachPlace count (λ j. S.has self.now.source.now stage
            (kernel_row kernel.now self.now.points.row a)
            (kernel_column kernel.now self.now.points.col j)) }
        ensures { IfSome result (λ line. (length line.now ≡ count)
            × IsUnder kernel.now (S.samples self.now.source.now stage) self.now.points.row
            self.now.points.col a line.now) }
    {
        let rows = kernel.as_slice();
        let row = self.points.row_under_kernel(rows.len(), a);
        let col = self
            .points
            .first_column_under_kernel(rows[0].as_slice().len());
        self.source.borrow_row(stage, row, col, count)
    }

    // The samples under a row of a kernel: borrowed from the source, or else written to the buffer for them.
    fn borrow_or_read_line_under_kernel_row<'b>(
        &'b self,
        stage: usize,
        kernel: &Kernel,
        a: usize,
        room: &'b mut [i32],
    ) -> &'b [i32]
        requires kernel { IsKernel kernel.now }
        requires a { a < length kernel.now }
        requires reads { EachPlace (length room.old) (λ j. S.has self.now.source.now stage
            (kernel_row kernel.now self.now.points.row a)
            (kernel_column kernel.now self.now.points.col j)) }
        ensures many { length result.now ≡ length room.old }
        ensures line { IsUnder kernel.now (S.samples self.now.source.now stage) self.now.points.row
            self.now.points.col a result.now }
    {
        if let Some(line) = self.borrow_line_under_kernel_row(stage, kernel, a, room.len()) {
            return line;
        }
        self.read_line_under_kernel_row(stage, kernel, a, room);
        room
    }

    // Adds what a row of a kernel gives.
    fn add_kernel_row_sums(
        &self,
        stage: usize,
        kernel: &Kernel,
        a: usize,
        out: &mut [i32],
        temps: &mut [i32],
    )
        requires kernel { IsKernel kernel.now }
        requires a { a < length kernel.now }
        requires reads { KernelWithin (S.has self.now.source.now stage) kernel.now
            self.now.points.row self.now.points.col (length out.old) }
        requires room { length out.old + 14 ≤ length temps.old }
        ensures { EachPlace (length out.old) (λ k. (s : ℤ) → at out.old k ≡ wrapped s
            → at out.new k
            ≡ wrapped (s
            +ℤ row_sum kernel.now (S.samples self.now.source.now stage) self.now.points.row
            (self.now.points.col +ℤ pos k) a)) }
    {
        let factors = kernel.as_slice()[a].as_slice();
        let count = out.len() + factors.len() - 1;
        let line = self.borrow_or_read_line_under_kernel_row(stage, kernel, a, &mut temps[..count]);
        add_tap_sums(out, line, factors);
    }

    // The sums of the samples under two rows of a kernel. Returns false if not all of them can be borrowed from the source.
    fn try_line_sums_under_kernel_rows(
        &self,
        stage: usize,
        kernel: &Kernel,
        a: usize,
        b: usize,
        sums: &mut [i32],
    ) -> bool
        requires kernel { IsKernel kernel.now }
        requires a { a < length kernel.now }
        requires b { b < length kernel.now }
        requires first { EachPlace (length sums.old) (λ j. S.has self.now.source.now stage
            (kernel_row kernel.now self.now.points.row a)
            (kernel_column kernel.now self.now.points.col j)) }
        requires second { EachPlace (length sums.old) (λ j. S.has self.now.source.now stage
            (kernel_row kernel.now self.now.points.row b)
            (kernel_column kernel.now self.now.points.col j)) }
        ensures { IsTrue result
            → IsUnderTwoRows kernel.now (S.samples self.now.source.now stage)
            self.now.points.row self.now.points.col a b sums.new }
    {
        let Some(first) = self.borrow_line_under_kernel_row(stage, kernel, a, sums.len()) else {
            return false;
        };
        let Some(second) = self.borrow_line_under_kernel_row(stage, kernel, b, sums.len()) else {
            return false;
        };
        write_combination_of_two_rows(sums, first, second, Sum);
        true
    }

    // Adds what two rows of a kernel with the same factors give: the samples under them are added first. Returns false, and adds
    // nothing, if the factors differ, or if not all samples can be borrowed from the source.
    fn try_sums_of_equal_kernel_rows(
        &self,
        stage: usize,
        kernel: &Kernel,
        a: usize,
        b: usize,
        out: &mut [i32],
        temps: &mut [i32],
    ) -> bool
        requires kernel { IsKernel kernel.now }
        requires a { a < length kernel.now }
        requires b { b < length kernel.now }
        requires reads { KernelWithin (S.has self.now.source.now stage) kernel.now
            self.now.points.row self.now.points.col (length out.old) }
        requires room { length out.old + 14 ≤ length temps.old }
        ensures added { IsTrue result → EachPlace (length out.old) (λ k. (s : ℤ)
            → at out.old k ≡ wrapped s
            → at out.new k
            ≡ wrapped (s
            +ℤ row_sum kernel.now (S.samples self.now.source.now stage) self.now.points.row
            (self.now.points.col +ℤ pos k) a
            +ℤ row_sum kernel.now (S.samples self.now.source.now stage) self.now.points.row
            (self.now.points.col +ℤ pos k) b)) }
        ensures nothing { IsFalse result → out.new ≡ out.old }
    {
        let factors = kernel.as_slice()[a].as_slice();
        let equal = factors == kernel.as_slice()[b].as_slice();
        if !equal {
            return false;
        }
        let count = out.len() + factors.len() - 1;
        let sums = &mut temps[..count];
        if !self.try_line_sums_under_kernel_rows(stage, kernel, a, b, sums) {
            return false;
        }
        add_tap_sums(out, sums, factors);
        true
    }

    // The sums of a stencil, a row of the kernel at a time. A row is added together with the last one that is left, if that has the same
    // factors.
    fn evaluate_stencil_sums_by_kernel_rows(
        &self,
        stage: usize,
        kernel: &Kernel,
        out: &mut [i32],
        temps: &mut [i32],
    )
        requires kernel { IsKernel kernel.now }
        requires reads { KernelWithin (S.has self.now.source.now stage) kernel.now
            self.now.points.row self.now.points.col (length out.old) }
        requires room { length out.old + 14 ≤ length temps.old }
        ensures { EachPlace (length out.old) (λ k. at out.new k
            ≡ wrapped (weighted_sum kernel.now (S.samples self.now.source.now stage)
            self.now.points.row (self.now.points.col +ℤ pos k))) }
    {
        fill_row(out, 0);
        let mut a = 0;
        let mut end = kernel.as_slice().len();
        while a < end {
            let last = end - 1;
            if a < last && self.try_sums_of_equal_kernel_rows(stage, kernel, a, last, out, temps) {
                end = last;
            } else {
                self.add_kernel_row_sums(stage, kernel, a, out, temps);
            }
            a += 1;
        }
    }

    // Adds up the samples in each column under a kernel, each times the factor of its row. Returns false if not all of them can
    // be borrowed from the source.
    fn try_weighted_sums_down_columns(
        &self,
        stage: usize,
        kernel: &Kernel,
        down: &[i32],
        sums: &mut [i32],
    ) -> bool
        requires kernel { IsKernel kernel.now }
        requires down { length kernel.now ≡ length down.now }
        requires reads { EachPlace (length down.now) (λ a. EachPlace (length sums.old)
            (λ j. S.has self.now.source.now stage (kernel_row kernel.now self.now.points.row a)
            (kernel_column kernel.now self.now.points.col j))) }
        ensures { IsTrue result
            → EachPlace (length sums.old) (λ j. at sums.new j
            ≡ wrapped (column_sum kernel.now (S.samples self.now.source.now stage)
            self.now.points.row self.now.points.col down.now j)) }
    {
        fill_row(sums, 0);
        for a in 0..down.len() {
            let Some(line) = self.borrow_line_under_kernel_row(stage, kernel, a, sums.len()) else {
                return false;
            };
            add_line_times_factor(sums, line, down[a]);
        }
        true
    }

    // The sums of a stencil whose kernel is separable, first down and then along: n + m products for n rows and m columns.
    // Returns false, and writes no sums, if not all that it reads can be borrowed from the source.
    fn try_stencil_down_and_along(
        &self,
        stage: usize,
        kernel: &Kernel,
        separable: &SeparableKernel,
        out: &mut [i32],
        temps: &mut [i32],
    ) -> bool
        requires kernel { IsKernel kernel.now }
        requires separable { IsSeparable kernel.now separable.now.down.items
            separable.now.along.items }
        requires reads { KernelWithin (S.has self.now.source.now stage) kernel.now
            self.now.points.row self.now.points.col (length out.old) }
        requires room { length out.old + 14 ≤ length temps.old }
        ensures { IsTrue result
            → EachPlace (length out.old) (λ k. at out.new k
            ≡ wrapped (weighted_sum kernel.now (S.samples self.now.source.now stage)
            self.now.points.row (self.now.points.col +ℤ pos k))) }
    {
        let along = separable.borrow_factor_of_each_column();
        let sums = &mut temps[..out.len() + along.len() - 1];
        if !self.try_weighted_sums_down_columns(
            stage,
            kernel,
            separable.borrow_factor_of_each_row(),
            sums,
        ) {
            return false;
        }
        write_tap_sums(out, sums, along);
        true
    }

    // The sums of a stencil along a wide row, if its kernel has many factors and is separable, likewise.
    fn try_separable_stencil(
        &self,
        stage: usize,
        kernel: &Kernel,
        out: &mut [i32],
        temps: &mut [i32],
    ) -> bool
        requires kernel { IsKernel kernel.now }
        requires reads { KernelWithin (S.has self.now.source.now stage) kernel.now
            self.now.points.row self.now.points.col (length out.old) }
        requires room { length out.old + 14 ≤ length temps.old }
        ensures { IsTrue result
            → EachPlace (length out.old) (λ k. at out.new k
            ≡ wrapped (weighted_sum kernel.now (S.samples self.now.source.now stage)
            self.now.points.row (self.now.points.col +ℤ pos k))) }
    {
        if out.len() < WIDE || !is_kernel_over_3x3_for_separable_stencil(kernel) {
            return false;
        }
        match SeparableKernel::from_kernel(kernel) {
            Some(separable) => self.try_stencil_down_and_along(
                stage, kernel, &separable, out, temps,
            ),
            None => false,
        }
    }

    /// The values of a stencil. (Apart from the other formulas: it has lists of taps to prepare, which those need not pay for.)
    #[inline(never)]
    pub(crate) fn evaluate_stencil(
        &self,
        stage: usize,
        divisor: u32,
        kernel: &Kernel,
        out: &mut [i32],
        temps: &mut [i32],
    )
        requires divisor { IsDivisor divisor }
        requires kernel { IsKernel kernel.now }
        requires reads { KernelWithin (S.has self.now.source.now stage) kernel.now
            self.now.points.row self.now.points.col (length out.old) }
        requires room { length out.old + 14 ≤ length temps.old }
        ensures { EachPlace (length out.old) (λ k. at out.new k
            ≡ floor_div (wrapped (weighted_sum kernel.now (S.samples self.now.source.now stage)
            self.now.points.row (self.now.points.col +ℤ pos k))) (pos divisor)) }
    {
        if !self.try_separable_stencil(stage, kernel, out, temps) {
            self.evaluate_stencil_sums_by_kernel_rows(stage, kernel, out, temps);
        }
        write_quotients_by_literal_to_row(out, Operand::Written, divisor);
    }
}
