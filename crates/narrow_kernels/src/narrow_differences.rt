#![tactic(auto)]
//! Sums of clamped differences of lines of numbers of 16 bits, wrapped at 16 bits, several of them in one pass.

ghost use Rattle.std.specs.Prelude.{◌≡◌, ◌<◌, ◌≤◌, ◌+ℤ◌, ℤ, length};
ghost use Rattle.std.specs.Int.{w16, int_wrap};
ghost use Rattle.narrow_kernels.specs.NarrowDifferences.{narrow_difference_at, narrow_difference_sum, HaveDifferenceLines};
ghost use Rattle.row_loops.specs.Rows.{EachPlace, at};

use crate::narrow_maps::SameNarrowNumber;
use crate::narrow_terms::{
    NarrowNothing, NarrowTerm, NarrowTermForm, map_few_narrow_terms,
    multiply_wrapping_narrow_numbers, subtract_wrapping_narrow_numbers,
};
use crate::narrow_trees::NarrowWritten;

/// The difference of the numbers of two lines, clamped to at least `low` and then to at most `high`, times a factor.
#[derive(Clone, Copy, Debug)]
pub struct NarrowClampedDifference<'a> {
    pub factor: i16,
    pub left: &'a [i16],
    pub right: &'a [i16],
    pub low: i16,
    pub high: i16,
}

/// The clamped differences, times their factors.
#[derive(Clone, Copy)]
struct NarrowClampedProducts;

impl<'a> NarrowTermForm<NarrowClampedDifference<'a>> for NarrowClampedProducts {
    ghost has = { λ _ d k. (k < length d.left.now) × (k < length d.right.now) };

    ghost exact = { λ _ d k. narrow_difference_at d k };

    #[inline]
    fn compute_narrow_term_of_item(&self, of: &NarrowClampedDifference<'a>, k: usize) -> i16 {
        let gap = subtract_wrapping_narrow_numbers(of.left[k], of.right[k]);
        multiply_wrapping_narrow_numbers(of.factor, gap.max(of.low).min(of.high))
    }
}

// Adds up to four clamped differences to a term, wrapped at 16 bits, in one pass.
fn add_few_narrow_differences<S: NarrowTerm>(
    out: &mut [i16],
    start: S,
    differences: &[NarrowClampedDifference<'_>],
)
    requires few { length differences.now ≤ 4 }
    requires start { EachPlace (length out.old) (S.has start) }
    requires lines { HaveDifferenceLines (length out.old) differences.now }
    ensures { EachPlace (length out.old) (λ k. at out.new k ≡ int_wrap w16
        (S.exact start (at out.old k) k +ℤ narrow_difference_sum differences.now k)) }
{
    map_few_narrow_terms(
        out,
        start,
        NarrowClampedProducts,
        differences,
        SameNarrowNumber,
    );
}

/// Writes the sums of clamped differences, wrapped at 16 bits.
pub fn write_narrow_difference_sums(out: &mut [i16], differences: &[NarrowClampedDifference<'_>])
    requires { HaveDifferenceLines (length out.old) differences.now }
    ensures { EachPlace (length out.old)
        (λ k. at out.new k ≡ int_wrap w16 (narrow_difference_sum differences.now k)) }
{
    let (front, back) = differences.split_at(differences.len().min(4));
    add_few_narrow_differences(out, NarrowNothing, front);
    add_narrow_difference_sums(out, back);
}

/// Adds the sums of clamped differences, wrapped at 16 bits.
pub fn add_narrow_difference_sums(out: &mut [i16], differences: &[NarrowClampedDifference<'_>])
    requires { HaveDifferenceLines (length out.old) differences.now }
    ensures { EachPlace (length out.old) (λ k. (s : ℤ) → at out.old k ≡ int_wrap w16 s
        → at out.new k ≡ int_wrap w16 (s +ℤ narrow_difference_sum differences.now k)) }
{
    if differences.is_empty() {
        return;
    }
    let (front, back) = differences.split_at(differences.len().min(4));
    add_few_narrow_differences(out, NarrowWritten, front);
    add_narrow_difference_sums(out, back);
}
