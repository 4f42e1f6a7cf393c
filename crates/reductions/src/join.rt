#![tactic(auto)]
//! The join of bins with bins.

ghost use Rattle.std.specs.Prelude.{◌≡◌, length, map, fold, All};
ghost use Rattle.job.specs.Totals.{joined as joined_of};
ghost use Rattle.reductions.specs.Bins.{joined_bins};

use operators::ReductionOp;

/// Joins two numbers of one bin: sums wrap at 64 bits.
#[tactic(auto, using(std::proofs::lemmas::Int::wraps))]
pub(crate) fn join_two_numbers_of_bin(op: ReductionOp, first: i64, second: i64) -> i64
    ensures { result ≡ joined_of op first second }
{
    match op {
        ReductionOp::Sum => first.wrapping_add(second),
        ReductionOp::Min => first.min(second),
        ReductionOp::Max => first.max(second),
    }
}

// Joins each bin with the other bin of its place by an operation.
#[inline]
fn join_each_bin(op: ReductionOp, bins: &mut [i64], others: &[i64])
    requires { length others.now ≡ length bins.old }
    ensures { bins.new ≡ joined_bins op bins.old others.now }
{
    for k in 0..bins.len() {
        bins[k] = join_two_numbers_of_bin(op, bins[k], others[k]);
    }
}

/// Joins each bin with the other bin of its place: sums wrap at 64 bits.
pub fn join_into(op: ReductionOp, bins: &mut [i64], others: &[i64])
    requires { length others.now ≡ length bins.old }
    ensures { bins.new ≡ joined_bins op bins.old others.now }
{
    match op {
        ReductionOp::Sum => join_each_bin(ReductionOp::Sum, bins, others),
        ReductionOp::Min => join_each_bin(ReductionOp::Min, bins, others),
        ReductionOp::Max => join_each_bin(ReductionOp::Max, bins, others),
    }
}

/// Joins each of these with the bins, one after the other.
pub fn join_all_lists_into_bins(op: ReductionOp, bins: &mut [i64], all: &[Vec<i64>])
    requires { All (λ others. length others.items ≡ length bins.old) all.now }
    ensures { bins.new ≡ fold (joined_bins op) bins.old (map (λ others. others.items) all.now) }
{
    for others in all {
        join_into(op, bins, others);
    }
}
