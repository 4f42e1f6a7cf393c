#![tactic(auto)]
//! The bins of a row of points that are known without a row of bins.

ghost use Rattle.std.specs.Prelude.{◌≡◌, ◌<◌, ◌≤◌, ◌+◌, ◌+ℤ◌, ◌≤ℤ◌, ◌≢◌, ℕ, pos, negsuc, IfSome, IfNone};
ghost use Rattle.domains.specs.Span.{len_of};
ghost use Rattle.operators.specs.declared.point_test.Axis.TheVariants.{Column};
ghost use Rattle.job.specs.declared.formula.Formula.TheVariants.{Coordinate};
ghost use Rattle.job.specs.Values.{Valuation, formula_value};
ghost use Rattle.job.specs.Views.{formula_view};

use crate::bins::find_place_of_bin_number;
use domains::{LIMIT, Span};
use job::{Axis, Formula};
use operators::BinaryOp;
use tile_eval::{RowSpan, find_constant_along_row};

// The number, if it is in the range of the numbers of spans.
fn keep_bin_number_if_within_limits(number: i32) -> Option<i32>
    ensures number { IfSome result (λ it. it ≡ number) }
    ensures least { IfSome result (λ it. negsuc 1048575 ≤ℤ it) }
    ensures most { IfSome result (λ it. it ≤ℤ pos 1048576) }
    ensures none { IfNone result (negsuc 1048575 ≤ℤ number → ¬ (number ≤ℤ pos 1048576)) }
{
    if -LIMIT <= number && number <= LIMIT {
        Some(number)
    } else {
        None
    }
}

// The first number of a formula along a row of points, if it rises by one from each point to the next: the column, or the column
// with a number added or subtracted.
fn find_first_bin_if_row_bins_rise_by_one(formula: &Formula, points: &RowSpan) -> Option<i32>
    ensures least { IfSome result (λ first. negsuc 1048575 ≤ℤ first) }
    ensures most { IfSome result (λ first. first ≤ℤ pos 1048576) }
    ensures values { IfSome result (λ first. (env : Valuation) (k : ℕ) → k < points.now.len
        → formula_value env (formula_view formula.now) points.now.row (points.now.col +ℤ pos k)
        ≡ first +ℤ pos k) }
    ensures column { IfSome result
        (λ first. formula.now ≡ Coordinate Column → first ≡ points.now.col) }
    ensures none { IfNone result (formula.now ≢ Coordinate Column) }
{
    match formula {
        Formula::Coordinate(Axis::Column) => Some(points.col),
        Formula::Binary(BinaryOp::Add, a, b) => {
            let first = find_first_bin_if_row_bins_rise_by_one(a, points)?;
            keep_bin_number_if_within_limits(first.checked_add(find_constant_along_row(
                b, points,
            )?)?)
        }
        Formula::Binary(BinaryOp::Sub, a, b) => {
            let first = find_first_bin_if_row_bins_rise_by_one(a, points)?;
            keep_bin_number_if_within_limits(first.checked_sub(find_constant_along_row(
                b, points,
            )?)?)
        }
        _ => None,
    }
}

/// The place of the first of the bins that a formula has along a row of points, if these are adjacent and each is one of `bins`.
/// If the formula is the column and all columns are bins, the place is found.
#[tactic(auto, using(std::proofs::lemmas::Int::ints))]
pub(crate) fn find_adjacent_bins_place(
    formula: &Formula,
    points: &RowSpan,
    bins: &Span,
) -> Option<usize>
    ensures within { IfSome result (λ place. place + points.now.len ≤ len_of bins.now) }
    ensures values { IfSome result (λ place. (env : Valuation) (k : ℕ) → k < points.now.len
        → formula_value env (formula_view formula.now) points.now.row (points.now.col +ℤ pos k)
        ≡ bins.now.lo +ℤ pos place +ℤ pos k) }
    ensures none { IfNone result (formula.now ≡ Coordinate Column → 0 < points.now.len
        → (place : ℕ) → bins.now.lo +ℤ pos place ≡ points.now.col
        → ¬ (place + points.now.len ≤ len_of bins.now)) }
{
    let first = find_first_bin_if_row_bins_rise_by_one(formula, points)?;
    let count = bins.len() as usize;
    let place = find_place_of_bin_number(bins.lo(), count, first)?;
    if points.len <= count - place {
        Some(place)
    } else {
        None
    }
}
