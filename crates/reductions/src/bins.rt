#![tactic(auto)]
//! Bins that accumulate values.

ghost use Rattle.std.specs.Prelude.{◌≡◌, ◌≢◌, ◌<◌, ◌+ℤ◌, ℕ, ℤ, pos, length, replicate, IfSome, IfNone};
ghost use Rattle.std.specs.Ordering.{int_eq};
ghost use Rattle.operators.specs.declared.operator.ReductionOp.TheVariants.{Sum};
ghost use Rattle.tile_eval.specs.Rows.{EachPlace, at};
ghost use Rattle.reductions.specs.inside.Gathering.{once_came, after_values, values_of_bin};

use crate::join::join_two_numbers_of_bin;
use crate::known_bins::{add_number_to_known_bin_of_each_point, are_row_bins_among};
use operators::ReductionOp;

/// The place of a bin, if it is one of `count` bins from `lo` on.
#[inline]
pub(crate) fn find_place_of_bin_number(lo: i32, count: usize, bin: i32) -> Option<usize>
    requires { count < 4611686018427387904 }
    ensures some { IfSome result (λ place. (place < count) × (lo +ℤ pos place ≡ bin)) }
    ensures none { IfNone result ((place : ℕ) → place < count → lo +ℤ pos place ≢ bin) }
{
    // a bin below `lo` gives a very large unsigned place, so that one comparison covers both ends
    let place = (i64::from(bin) - i64::from(lo)).cast_unsigned() as usize;
    if place < count { Some(place) } else { None }
}

/// Accumulates a value in the bin at a place, whatever the first bin is.
#[inline]
pub(crate) fn accumulate_value_at_bin_place(
    op: ReductionOp,
    bins: &mut [i64],
    place: usize,
    value: i32,
)
    requires { place < length bins.old }
    ensures { (lo : ℤ) → EachPlace (length bins.old) (λ j. at bins.new j
        ≡ once_came op (int_eq (lo +ℤ pos place) (lo +ℤ pos j)) (at bins.old j) value) }
{
    bins[place] = join_two_numbers_of_bin(op, bins[place], i64::from(value));
}

// Accumulates a value in its bin; a value whose bin is none of these, from `lo` on, changes nothing.
#[inline]
fn accumulate_value_in_bin(op: ReductionOp, lo: i32, bins: &mut [i64], value: i32, bin: i32)
    ensures { EachPlace (length bins.old) (λ j. at bins.new j
        ≡ once_came op (int_eq bin (lo +ℤ pos j)) (at bins.old j) value) }
{
    if let Some(place) = find_place_of_bin_number(lo, bins.len(), bin) {
        accumulate_value_at_bin_place(op, bins, place, value);
    }
}

// Accumulates a row of values in their bins by an operation.
#[inline]
fn accumulate_each_value_in_its_bin(
    op: ReductionOp,
    lo: i32,
    bins: &mut [i64],
    values: &[i32],
    bins_of: &[i32],
)
    requires { length bins_of.now ≡ length values.now }
    ensures { EachPlace (length bins.old) (λ j. at bins.new j
        ≡ after_values op (at bins.old j)
        (values_of_bin values.now bins_of.now (lo +ℤ pos j))) }
{
    for k in 0..values.len() {
        accumulate_value_in_bin(op, lo, bins, values[k], bins_of[k]);
    }
}

/// Accumulates a row of values in their bins, from `lo` on. A second row has the bin of each value.
pub(crate) fn accumulate_row_of_values_in_bins(
    op: ReductionOp,
    lo: i32,
    bins: &mut [i64],
    values: &[i32],
    bins_of: &[i32],
)
    requires { length bins_of.now ≡ length values.now }
    ensures { EachPlace (length bins.old) (λ j. at bins.new j
        ≡ after_values op (at bins.old j)
        (values_of_bin values.now bins_of.now (lo +ℤ pos j))) }
{
    // each operation has a loop of its own, so that it is not selected again at each point
    match op {
        ReductionOp::Sum => accumulate_each_value_in_its_bin(
            ReductionOp::Sum,
            lo,
            bins,
            values,
            bins_of,
        ),
        ReductionOp::Min => accumulate_each_value_in_its_bin(
            ReductionOp::Min,
            lo,
            bins,
            values,
            bins_of,
        ),
        ReductionOp::Max => accumulate_each_value_in_its_bin(
            ReductionOp::Max,
            lo,
            bins,
            values,
            bins_of,
        ),
    }
}

// Adds a number to the bin of each point of a row, where some of these may be none of the bins, from `lo` on.
fn add_number_to_any_bin_of_each_point(lo: i32, bins: &mut [i64], number: i32, bins_of: &[i32])
    ensures { EachPlace (length bins.old) (λ j. at bins.new j
        ≡ after_values Sum (at bins.old j)
        (values_of_bin (replicate (length bins_of.now) number) bins_of.now (lo +ℤ pos j))) }
{
    for k in 0..bins_of.len() {
        accumulate_value_in_bin(ReductionOp::Sum, lo, bins, number, bins_of[k]);
    }
}

/// Adds a number to the bin of each point of a row.
pub(crate) fn add_number_to_bin_of_each_point(
    lo: i32,
    bins: &mut [i64],
    number: i32,
    bins_of: &[i32],
)
    ensures { EachPlace (length bins.old) (λ j. at bins.new j
        ≡ after_values Sum (at bins.old j)
        (values_of_bin (replicate (length bins_of.now) number) bins_of.now (lo +ℤ pos j))) }
{
    if !are_row_bins_among(lo, bins.len(), bins_of) {
        add_number_to_any_bin_of_each_point(lo, bins, number, bins_of);
    } else if lo == 0 {
        // the first bin is mostly bin 0: each bin is then its own place
        add_number_to_known_bin_of_each_point(0, bins, number, bins_of);
    } else {
        add_number_to_known_bin_of_each_point(lo, bins, number, bins_of);
    }
}
