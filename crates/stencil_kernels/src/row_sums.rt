#![tactic(auto)]
//! The sums of a kernel's row along a line of numbers, written in one pass if the row is short.

ghost use Rattle.std.specs.Prelude.{◌≡◌, ◌<◌, ◌≤◌, ◌+◌, ◌*ℤ◌, length};
ghost use Rattle.domains.specs.Arithmetic.{wrapped};
ghost use Rattle.operators.specs.Values.{sum_below};
ghost use Rattle.row_loops.specs.Rows.{EachPlace, at};
ghost use Rattle.stencil_kernels.specs.Stencil.{tap_sum};

use crate::quintuple::FactorQuintuple;
use crate::stencil::add_tap_sums;
use crate::symmetric::SymmetricFactors;
use row_loops::fill_row;

// Writes the sums of the products of the first five factors of a line, if there are so many; else of none. Returns how many.
fn write_first_tap_sums_and_count_taps(out: &mut [i32], line: &[i32], factors: &[i32]) -> usize
    requires { length line.now + 1 ≡ length out.old + length factors.now }
    ensures within { result ≤ length factors.now }
    ensures sums { EachPlace (length out.old) (λ k. at out.new k
        ≡ wrapped (sum_below result (λ b. at factors.now b *ℤ at line.now (k + b)))) }
{
    if let Some(five) = SymmetricFactors::from_first_factors(factors) {
        five.write_symmetric_sums(out, line);
        return 5;
    }
    if let Some(five) = FactorQuintuple::from_first_factors(factors) {
        five.write_sums(out, line);
        return 5;
    }
    fill_row(out, 0);
    0
}

/// Writes the sums of the products of factors and the samples of a line, which begins with those of the first factor.
pub fn write_tap_sums(out: &mut [i32], line: &[i32], factors: &[i32])
    requires { length line.now + 1 ≡ length out.old + length factors.now }
    ensures { EachPlace (length out.old)
        (λ k. at out.new k ≡ wrapped (tap_sum factors.now line.now k)) }
{
    let b = write_first_tap_sums_and_count_taps(out, line, factors);
    if b < factors.len() {
        add_tap_sums(out, &line[b..], &factors[b..]);
    }
}
