#![tactic(auto)]
//! Means of nine adjacent values, which are linear rows.

ghost use Rattle.std.specs.Prelude.{◌≡◌, ◌+ℤ◌, pos, length, IfSome};
ghost use Rattle.job.specs.Formula.{stencil};
ghost use Rattle.job.specs.Reads.{EachRead};
ghost use Rattle.job.specs.Values.{formula_value};
ghost use Rattle.row_loops.specs.Rows.{EachPlace, at};
ghost use Rattle.linear_rows.specs.RowFormulas.{is_row_of_ones, is_kernel_of_ones, mean_formula, IsRightMean};

use job::{Kernel, KernelFactors};
use narrow_eval::borrow_narrow_stencil_line;
use narrow_kernels::write_narrow_means_of_nine;
use narrow_sums::NarrowSource;
use row_kernels::RowSpan;

/// A stage, and a kernel of nine factors that are 1.
#[derive(Clone, Copy)]
pub struct LinearMean<'a> {
    pub(crate) stage: usize,
    pub(crate) kernel: &'a Kernel,
}

// Whether a row of a kernel is three factors of 1.
fn is_linear_row_of_ones(row: &[i32]) -> bool
    ensures { result ≡ is_row_of_ones row.now }
{
    match row {
        [a, b, c] => *a == 1 && *b == 1 && *c == 1,
        _ => false,
    }
}

// Whether a kernel is three such rows.
fn is_linear_kernel_of_ones(rows: &[KernelFactors]) -> bool
    ensures { result ≡ is_kernel_of_ones rows.now }
{
    match rows {
        [a, b, c] => {
            is_linear_row_of_ones(a.as_slice())
                && is_linear_row_of_ones(b.as_slice())
                && is_linear_row_of_ones(c.as_slice())
        }
        _ => false,
    }
}

/// A stencil that is the mean of nine values.
pub(crate) fn match_linear_mean(
    stage: usize,
    divisor: u32,
    kernel: &Kernel,
) -> Option<LinearMean<'_>>
    ensures some { IfSome result (λ it. stencil stage divisor kernel.now ≡ mean_formula it) }
    ensures right { IfSome result IsRightMean }
{
    if divisor == 9 && is_linear_kernel_of_ones(kernel.as_slice()) {
        Some(LinearMean { stage, kernel })
    } else {
        None
    }
}

/// The means of nine values at a row of points.
pub(crate) fn write_linear_mean<S: NarrowSource>(
    source: &S,
    mean: &LinearMean<'_>,
    points: &RowSpan,
    out: &mut [i16],
)
    requires fits { length out.old ≡ points.now.len }
    requires right { IsRightMean mean.now }
    requires reads { EachPlace points.now.len (λ k. EachRead (S.has source.now)
        (mean_formula mean.now) points.now.row (points.now.col +ℤ pos k)) }
    ensures { EachPlace (length out.old) (λ k. at out.new k
        ≡ formula_value (S.samples source.now) (mean_formula mean.now) points.now.row
        (points.now.col +ℤ pos k)) }
{
    if out.is_empty() {
        return;
    }
    let count = out.len() + 2;
    let above = borrow_narrow_stencil_line(source, mean.stage, mean.kernel, 0, points, count);
    let own = borrow_narrow_stencil_line(source, mean.stage, mean.kernel, 1, points, count);
    let below = borrow_narrow_stencil_line(source, mean.stage, mean.kernel, 2, points, count);
    write_narrow_means_of_nine(out, above, own, below);
}
