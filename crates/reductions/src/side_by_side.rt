#![tactic(auto)]
//! Rows of values whose bins are adjacent, or are all one bin.

ghost use Rattle.std.specs.Prelude.{◌≡◌, ◌<◌, ◌≤◌, ◌+◌, ◌+ℤ◌, ℤ, pos, length, replicate};
ghost use Rattle.domains.specs.Span.{numbers_from};
ghost use Rattle.tile_eval.specs.Rows.{EachPlace, at};
ghost use Rattle.reductions.specs.inside.Gathering.{after_values, values_of_bin};

use crate::bin_values::BinValues;
use crate::bins::{accumulate_value_at_bin_place, find_place_of_bin_number};
use crate::join::join_two_numbers_of_bin;
use operators::ReductionOp;

// Accumulates a row of values by an operation, each in the bin after that of the one before.
#[inline]
fn accumulate_each_in_adjacent_bins<V: BinValues>(
    op: ReductionOp,
    bins: &mut [i64],
    place: usize,
    values: V,
)
    requires { place + length (V.values values) ≤ length bins.old }
    ensures { (lo : ℤ) → EachPlace (length bins.old) (λ j. at bins.new j
        ≡ after_values op (at bins.old j) (values_of_bin (V.values values)
        (numbers_from (lo +ℤ pos place) (length (V.values values))) (lo +ℤ pos j))) }
{
    for k in 0..values.count_bin_values() {
        accumulate_value_at_bin_place(op, bins, place + k, values.read_bin_value(k));
    }
}

/// Accumulates a row of values in the bins from a place on, whatever the first bin is: each in the bin after that of the one
/// before.
pub(crate) fn accumulate_values_in_adjacent_bins<V: BinValues>(
    op: ReductionOp,
    bins: &mut [i64],
    place: usize,
    values: V,
)
    requires { place + length (V.values values) ≤ length bins.old }
    ensures { (lo : ℤ) → EachPlace (length bins.old) (λ j. at bins.new j
        ≡ after_values op (at bins.old j) (values_of_bin (V.values values)
        (numbers_from (lo +ℤ pos place) (length (V.values values))) (lo +ℤ pos j))) }
{
    // each operation has a loop of its own, over adjacent numbers
    match op {
        ReductionOp::Sum => accumulate_each_in_adjacent_bins(ReductionOp::Sum, bins, place, values),
        ReductionOp::Min => accumulate_each_in_adjacent_bins(ReductionOp::Min, bins, place, values),
        ReductionOp::Max => accumulate_each_in_adjacent_bins(ReductionOp::Max, bins, place, values),
    }
}

// The content of a bin after it accumulated a row of values by an operation.
#[inline]
fn reduce_each_value_into_total<V: BinValues>(op: ReductionOp, total: i64, values: V) -> i64
    ensures { result ≡ after_values op total (V.values values) }
{
    let mut so_far = total;
    for k in 0..values.count_bin_values() {
        so_far = join_two_numbers_of_bin(op, so_far, i64::from(values.read_bin_value(k)));
    }
    so_far
}

// The content of a bin after it accumulated a row of values.
fn reduce_row_values_into_bin_total<V: BinValues>(op: ReductionOp, total: i64, values: V) -> i64
    ensures { result ≡ after_values op total (V.values values) }
{
    match op {
        ReductionOp::Sum => reduce_each_value_into_total(ReductionOp::Sum, total, values),
        ReductionOp::Min => reduce_each_value_into_total(ReductionOp::Min, total, values),
        ReductionOp::Max => reduce_each_value_into_total(ReductionOp::Max, total, values),
    }
}

/// Accumulates a row of values in one bin, if it is one of these, from `lo` on.
pub(crate) fn accumulate_values_in_one_bin<V: BinValues>(
    op: ReductionOp,
    lo: i32,
    bins: &mut [i64],
    values: V,
    bin: i32,
)
    ensures { EachPlace (length bins.old) (λ j. at bins.new j
        ≡ after_values op (at bins.old j) (values_of_bin (V.values values)
        (replicate (length (V.values values)) bin) (lo +ℤ pos j))) }
{
    if let Some(place) = find_place_of_bin_number(lo, bins.len(), bin) {
        bins[place] = reduce_row_values_into_bin_total(op, bins[place], values);
    }
}
