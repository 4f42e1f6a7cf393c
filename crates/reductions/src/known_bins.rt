#![tactic(auto)]
//! Rows of bin numbers that are looked over once, so that none of them is tested where its bin accumulates.

ghost use Rattle.std.specs.Prelude.{◌≡◌, ◌<◌, ◌+ℤ◌, ◌≤ℤ◌, pos, length, replicate, fold, true};
ghost use Rattle.std.specs.Int.{int_min, int_max};
ghost use Rattle.operators.specs.declared.operator.ReductionOp.TheVariants.{Sum};
ghost use Rattle.tile_eval.specs.Rows.{EachPlace, at};
ghost use Rattle.reductions.specs.inside.Gathering.{IsAmongBins, after_values, values_of_bin};

use crate::bins::{accumulate_value_at_bin_place, find_place_of_bin_number};
use operators::ReductionOp;

// The least and the greatest of a number and of a row of bin numbers.
fn find_least_and_greatest_bin_number(first: i32, bins_of: &[i32]) -> (i32, i32)
    ensures least { result.0 ≡ fold int_min first bins_of.now }
    ensures greatest { result.1 ≡ fold int_max first bins_of.now }
{
    let (mut least, mut greatest) = (first, first);
    for k in 0..bins_of.len() {
        least = least.min(bins_of[k]);
        greatest = greatest.max(bins_of[k]);
    }
    (least, greatest)
}

/// Whether each bin number of a row is one of `count` bins from `lo` on. (Where there is no bin at all, it need not be found.)
pub(crate) fn are_row_bins_among(lo: i32, count: usize, bins_of: &[i32]) -> bool
    requires { count < 4611686018427387904 }
    ensures among { result ≡ true → EachPlace (length bins_of.now) (λ k. IsAmongBins lo count (at bins_of.now k)) }
    ensures found { 0 < count → EachPlace (length bins_of.now) (λ k. IsAmongBins lo count (at bins_of.now k))
        → result ≡ true }
{
    let (least, greatest) = find_least_and_greatest_bin_number(lo, bins_of);
    if least < lo {
        return false;
    }
    matches!(find_place_of_bin_number(lo, count, greatest), Some(_))
}

// The place of a bin that is not below the first bin.
#[inline]
fn find_place_of_known_bin(lo: i32, bin: i32) -> usize
    requires { lo ≤ℤ bin }
    ensures { lo +ℤ pos result ≡ bin }
{
    (i64::from(bin) - i64::from(lo)).cast_unsigned() as usize
}

/// Adds a number to the bin of each point of a row, where each of these is one of the bins, from `lo` on.
#[inline]
pub(crate) fn add_number_to_known_bin_of_each_point(
    lo: i32,
    bins: &mut [i64],
    number: i32,
    bins_of: &[i32],
)
    requires { EachPlace (length bins_of.now) (λ k. IsAmongBins lo (length bins.old) (at bins_of.now k)) }
    ensures { EachPlace (length bins.old) (λ j. at bins.new j
        ≡ after_values Sum (at bins.old j)
        (values_of_bin (replicate (length bins_of.now) number) bins_of.now (lo +ℤ pos j))) }
{
    for k in 0..bins_of.len() {
        let place = find_place_of_known_bin(lo, bins_of[k]);
        accumulate_value_at_bin_place(ReductionOp::Sum, bins, place, number);
    }
}
