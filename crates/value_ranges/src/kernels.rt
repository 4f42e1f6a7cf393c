#![tactic(auto)]
//! Ranges of the sums of stencils.

ghost use Rattle.std.specs.Prelude.{◌≡◌, ◌<◌, ◌*ℤ◌, ℕ, ℤ, pos, length, true, IfSome, slice_index_or};
ghost use Rattle.domains.specs.Arithmetic.{wrapped};
ghost use Rattle.job.specs.Values.{factors, sum_below, weighted_sum};
ghost use Rattle.value_ranges.specs.Narrow.{Fits16, IsNarrowStencil, sum_before_division};
ghost use Rattle.value_ranges.specs.Ranges.{InRange};
ghost use Rattle.value_ranges.specs.inside.Found.{IsBetween, AreUnderKernel};

use crate::narrow_sums::count_narrow_steps_before_division;
use crate::operands::find_value_range_product_ends;
use crate::value_range::{ValueRange, full_value_range, wrap_value_range};
use job::{Kernel, KernelFactors};

// How many rows and columns a small kernel has at most.
const MAX_SIDE: usize = 7;

// The least and the greatest product of a factor with a number in a range.
fn find_value_range_product_ends_of_factor(factor: i32, range: ValueRange) -> (i64, i64)
    ensures { (v : ℤ) → InRange range v → IsBetween result (factor *ℤ v) }
{
    let weight = ValueRange {
        lo: factor,
        hi: factor,
    };
    find_value_range_product_ends(weight, range)
}

// The ends of the sums of a row's factors times numbers in a range, where they can be counted.
fn find_value_range_sum_ends_of_factors(factors: &[i32], range: ValueRange) -> Option<(i64, i64)>
    ensures { IfSome result (λ ends. (f : ℕ → ℤ)
        → ((b : ℕ) → b < length factors.now → InRange range (f b))
        → IsBetween ends (sum_below (length factors.now)
        (λ b. slice_index_or factors.now b (pos 0) *ℤ f b))) }
{
    let mut least: i64 = 0;
    let mut greatest: i64 = 0;
    for factor in factors {
        let (lo, hi) = find_value_range_product_ends_of_factor(*factor, range);
        least = least.checked_add(lo)?;
        greatest = greatest.checked_add(hi)?;
    }
    Some((least, greatest))
}

// The same of all rows of a kernel.
fn find_value_range_sum_ends_of_kernel(kernel: &Kernel, range: ValueRange) -> Option<(i64, i64)>
    ensures { IfSome result (λ ends. (f : ℕ → ℕ → ℤ)
        → ((a b : ℕ) → a < length kernel.now → b < length (factors kernel.now a)
        → InRange range (f a b))
        → IsBetween ends (sum_below (length kernel.now) (λ a. sum_below (length (factors kernel.now a))
        (λ b. slice_index_or (factors kernel.now a) b (pos 0) *ℤ f a b)))) }
{
    let mut least: i64 = 0;
    let mut greatest: i64 = 0;
    for factors in kernel.as_slice() {
        let (lo, hi) = find_value_range_sum_ends_of_factors(factors.as_slice(), range)?;
        least = least.checked_add(lo)?;
        greatest = greatest.checked_add(hi)?;
    }
    Some((least, greatest))
}

// The range of the sum of a stencil, before it is divided.
pub(crate) fn find_value_range_of_kernel_sum(kernel: &Kernel, range: ValueRange) -> ValueRange
    ensures { (f : ℤ → ℤ → ℤ) (r c : ℤ) → AreUnderKernel range kernel.now f r c
        → InRange result (wrapped (weighted_sum kernel.now f r c)) }
{
    match find_value_range_sum_ends_of_kernel(kernel, range) {
        Some((least, greatest)) => wrap_value_range(least, greatest),
        None => full_value_range(),
    }
}

// Whether sums in a range fit in 16 bits without whole divisors that are taken from them before they are divided.
#[tactic(auto, using(std::proofs::lemmas::Int::ints))]
fn is_narrow_range_before_division(range: ValueRange, divisor: u32) -> bool
    ensures { result ≡ true → (v : ℤ) → InRange range v → Fits16 (sum_before_division divisor v) }
{
    let less = (count_narrow_steps_before_division(divisor) * divisor) as i32;
    less - 32768 <= range.lo && range.hi <= less + 32767
}

// Whether a row of factors is a multiple of another one.
fn is_narrow_multiple(row: &[i32], other: &[i32]) -> bool {
    let (Some(factor), Some(of)) = (row.first(), other.first()) else {
        return false;
    };
    row.iter().zip(other).all(|(a, b)| i64::from(*a) * i64::from(*of)
        == i64::from(*b) * i64::from(*factor))
}

// Whether each row of a kernel is a multiple of its first one. (In 32 bits the columns are added first then, and the row of their sums.)
fn is_separable_narrow_kernel(rows: &[KernelFactors]) -> bool {
    match rows.first() {
        Some(first) => rows
            .iter()
            .all(|row| is_narrow_multiple(row.as_slice(), first.as_slice())),
        None => false,
    }
}

// Whether a kernel has few rows and columns.
fn is_small_narrow_kernel(rows: &[KernelFactors]) -> bool {
    rows.len() <= MAX_SIDE && rows.iter().all(|row| row.as_slice().len() <= MAX_SIDE)
}

// Whether the sums under a kernel are computed in 16 bits, by a range of its reads.
pub(crate) fn is_narrow_kernel(kernel: &Kernel, divisor: u32, range: ValueRange) -> bool
    ensures { result ≡ true → (f : ℤ → ℤ → ℤ) (r c : ℤ) → AreUnderKernel range kernel.now f r c
        → IsNarrowStencil f divisor kernel.now r c }
{
    let sum = find_value_range_of_kernel_sum(kernel, range);
    let rows = kernel.as_slice();
    is_narrow_range_before_division(sum, divisor)
        && (count_narrow_steps_before_division(divisor) == 0
            || (is_small_narrow_kernel(rows) && !is_separable_narrow_kernel(rows)))
}
