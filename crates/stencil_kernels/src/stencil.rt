#![tactic(auto)]
//! A row of a kernel along a line of numbers.

ghost use Rattle.std.specs.Prelude.{◌≡◌, ◌<◌, ◌≤◌, ◌+◌, ◌+ℤ◌, ◌*ℤ◌, ℤ, length};
ghost use Rattle.domains.specs.Arithmetic.{wrapped};
ghost use Rattle.operators.specs.Values.{sum_below};
ghost use Rattle.row_loops.specs.Rows.{EachPlace, at};
ghost use Rattle.stencil_kernels.specs.Stencil.{tap_sum};

use crate::quintuple::FactorQuintuple;
use crate::symmetric::SymmetricFactors;
use row_loops::{ScaledRightOperand, Sum, combine_row_in_place};

/// Adds the products of a factor and the samples of a line.
pub fn add_line_times_factor(out: &mut [i32], line: &[i32], factor: i32)
    requires { length line.now ≡ length out.old }
    ensures { EachPlace (length out.old) (λ k. (s : ℤ) → at out.old k ≡ wrapped s
        → at out.new k ≡ wrapped (s +ℤ factor *ℤ at line.now k)) }
{
    match factor {
        0 => {}
        1 => combine_row_in_place(out, line, Sum),
        _ => combine_row_in_place(out, line, ScaledRightOperand(Sum, factor)),
    }
}

// Adds the products of the first five factors of a line, if there are so many; else of one. Returns how many.
fn add_first_tap_sums_and_count_taps(out: &mut [i32], line: &[i32], factors: &[i32]) -> usize
    requires some { 0 < length factors.now }
    requires line { length line.now + 1 ≡ length out.old + length factors.now }
    ensures more { 0 < result }
    ensures within { result ≤ length factors.now }
    ensures sums { EachPlace (length out.old) (λ k. (s : ℤ) → at out.old k ≡ wrapped s
        → at out.new k
        ≡ wrapped (s +ℤ sum_below result (λ b. at factors.now b *ℤ at line.now (k + b)))) }
{
    if let Some(five) = SymmetricFactors::from_first_factors(factors) {
        five.add_symmetric_product_sums(out, line);
        return 5;
    }
    if let Some(five) = FactorQuintuple::from_first_factors(factors) {
        five.add_product_sums(out, line);
        return 5;
    }
    add_line_times_factor(out, &line[..out.len()], factors[0]);
    1
}

/// Adds the products of factors and the samples of a line, which begins with those of the first factor.
pub fn add_tap_sums(out: &mut [i32], line: &[i32], factors: &[i32])
    requires { length line.now + 1 ≡ length out.old + length factors.now }
    ensures { EachPlace (length out.old) (λ k. (s : ℤ) → at out.old k ≡ wrapped s
        → at out.new k ≡ wrapped (s +ℤ tap_sum factors.now line.now k)) }
{
    let mut b = 0;
    while b < factors.len() {
        b += add_first_tap_sums_and_count_taps(out, &line[b..], &factors[b..]);
    }
}
