#![tactic(auto)]
//! Rows of bytes that are the bins of their points, as in the histogram of a plane.

ghost use Rattle.std.specs.Prelude.{◌≡◌, ◌≤◌, ◌+ℤ◌, IsTrue, pos, map, length, replicate};
ghost use Rattle.job.specs.Totals.{joined};
ghost use Rattle.operators.specs.declared.operator.ReductionOp.TheVariants.{Sum};
ghost use Rattle.tile_eval.specs.Rows.{EachPlace, at};
ghost use Rattle.reductions.specs.inside.Gathering.{after_values, values_of_bin};

use crate::bins::accumulate_value_at_bin_place;
use crate::join::join_into;
use operators::ReductionOp;

/// Whether each byte is one of `count` bins from `lo` on, and the place of its bin too.
pub(crate) fn is_each_byte_place_of_its_bin(lo: i32, count: usize) -> bool
    ensures first { IsTrue result → lo ≡ pos 0 }
    ensures count { IsTrue result → 256 ≤ count }
{
    lo == 0 && count >= 256
}

// Adds a number to the bin of each byte of a row, one after the other.
fn add_number_to_bin_of_each_byte_in_turn(bins: &mut [i64], number: i32, bytes: &[u8])
    requires { 256 ≤ length bins.old }
    ensures { EachPlace (length bins.old) (λ j. at bins.new j
        ≡ after_values Sum (at bins.old j)
        (values_of_bin (replicate (length bytes.now) number) (map pos bytes.now) (pos 0 +ℤ pos j))) }
{
    for k in 0..bytes.len() {
        accumulate_value_at_bin_place(ReductionOp::Sum, bins, usize::from(bytes[k]), number);
    }
}

// Adds a number to the bin of each byte of a row. Bytes at odd places have bins of their own, in a second table. Neighbouring bytes
// are often equal, and an addition to the same number waits for the one before.
#[inline]
fn add_number_to_bins_of_byte_pairs(bins: &mut [i64], second: &mut [i64], number: i32, bytes: &[u8])
    requires bins { 256 ≤ length bins.old }
    requires second { 256 ≤ length second.old }
    ensures { EachPlace (length bins.old) (λ j. joined Sum (at bins.new j) (at second.new j)
        ≡ after_values Sum (joined Sum (at bins.old j) (at second.old j))
        (values_of_bin (replicate (length bytes.now) number) (map pos bytes.now) (pos 0 +ℤ pos j))) }
{
    let op = ReductionOp::Sum;
    for k in 0..bytes.len() / 2 {
        accumulate_value_at_bin_place(op, bins, usize::from(bytes[2 * k]), number);
        accumulate_value_at_bin_place(op, second, usize::from(bytes[2 * k + 1]), number);
    }
    if bytes.len() % 2 == 1 {
        accumulate_value_at_bin_place(op, bins, usize::from(bytes[bytes.len() - 1]), number);
    }
}

// Adds a number to the bin of each byte of a row, in two tables. Eight bytes are read as one number, before the bin of any of them
// is written.
fn add_number_to_bins_of_byte_words(bins: &mut [i64], second: &mut [i64], number: i32, bytes: &[u8])
    requires bins { 256 ≤ length bins.old }
    requires second { 256 ≤ length second.old }
    ensures { EachPlace (length bins.old) (λ j. joined Sum (at bins.new j) (at second.new j)
        ≡ after_values Sum (joined Sum (at bins.old j) (at second.old j))
        (values_of_bin (replicate (length bytes.now) number) (map pos bytes.now) (pos 0 +ℤ pos j))) }
{
    let (words, rest) = bytes.as_chunks::<8>();
    for word in words {
        let word = u64::from_le_bytes(*word).to_le_bytes();
        add_number_to_bins_of_byte_pairs(bins, second, number, &word);
    }
    add_number_to_bins_of_byte_pairs(bins, second, number, rest);
}

// Each bin is a number of 64 bits, so that a sum with 0 leaves it. What the loop reads is not used, so it is compiled to nothing.
#[inline]
fn sum_with_zero_leaves_each_bin(bins: &[i64])
    ensures { EachPlace (length bins.now) (λ j. joined Sum (at bins.now j) (pos 0) ≡ at bins.now j) }
{
    for j in 0..bins.len() {
        let _number = bins[j];
    }
}

// Adds each number of a table to the bin of its place.
fn add_table_to_bins(bins: &mut [i64], table: &[i64])
    requires { length table.now ≤ length bins.old }
    ensures { EachPlace (length bins.old)
        (λ j. at bins.new j ≡ joined Sum (at bins.old j) (at table.now j)) }
{
    sum_with_zero_leaves_each_bin(bins);
    let (first, _) = bins.split_at_mut(table.len());
    join_into(ReductionOp::Sum, first, table);
}

// Least bytes of a row for which a second table pays off. It is cleared and joined once a row.
const MIN_BYTES_FOR_SECOND_TABLE: usize = 1024;

/// Adds a number to the bin of each byte of a row. The first bin is bin 0, and each byte has one.
pub(crate) fn add_number_to_bin_of_each_byte(bins: &mut [i64], number: i32, bytes: &[u8])
    requires { 256 ≤ length bins.old }
    ensures { EachPlace (length bins.old) (λ j. at bins.new j
        ≡ after_values Sum (at bins.old j)
        (values_of_bin (replicate (length bytes.now) number) (map pos bytes.now) (pos 0 +ℤ pos j))) }
{
    if bytes.len() < MIN_BYTES_FOR_SECOND_TABLE {
        return add_number_to_bin_of_each_byte_in_turn(bins, number, bytes);
    }
    sum_with_zero_leaves_each_bin(bins);
    let mut second = [0i64; 256];
    add_number_to_bins_of_byte_words(bins, &mut second, number, bytes);
    add_table_to_bins(bins, &second);
}
