#![tactic(auto)]
//! Rows of 16 bits whose numbers are replaced where tests of their points hold.

ghost use Rattle.std.specs.Prelude.{◌≡◌, ◌<◌, ◌==◌, ◌%◌, ◌+ℤ◌, pos, length, map, All, if◌then◌else◌};
ghost use Rattle.std.specs.Ordering.{int_eq};
ghost use Rattle.domains.specs.Arithmetic.{floor_rem};
ghost use Rattle.operators.specs.Values.{all_passed};
ghost use Rattle.operators.specs.Bounds.{BoundsHold};
ghost use Rattle.operators.specs.Limits.{IsDivisor, IsTest};
ghost use Rattle.operators.specs.Views.{test_view};
ghost use Rattle.row_loops.specs.Rows.{EachPlace, at};
ghost use Rattle.row_kernels.specs.RowMask.{HoldsWhere};

use crate::narrow_conversions::narrow_number_of_wide;
use crate::narrow_selection::choose_narrow_number;
use operators::PointTest;
use row_kernels::{
    RowMask, RowSpan, copy_row_where_mask_holds, count_columns_to_first_with_remainder,
};

// Takes the numbers of the other row at every second place. (Each place is written, which allows vector code.)
fn copy_narrow_places_with_remainder_by_two(out: &mut [i16], other: &[i16], first: u16)
    requires other { length other.now ≡ length out.old }
    requires short { length out.old < 65536 }
    ensures { EachPlace (length out.old) (λ k. at out.new k
        ≡ (if k % 2 == first then at other.now k else at out.old k)) }
{
    for k in 0..out.len() {
        let (mine, its) = (out[k], other[k]);
        out[k] = choose_narrow_number(k as u16 % 2 == first, its, mine);
    }
}

// Takes the numbers of the other row in the columns whose remainder by `modulus` is `rest`.
fn copy_narrow_columns_with_remainder(
    out: &mut [i16],
    other: &[i16],
    modulus: u32,
    rest: u32,
    points: &RowSpan,
)
    requires other { length other.now ≡ length out.old }
    requires modulus { IsDivisor modulus }
    requires fits { length out.old ≡ points.now.len }
    ensures { EachPlace (length out.old) (λ k. at out.new k
        ≡ (if int_eq (floor_rem (points.now.col +ℤ pos k) (pos modulus)) (pos rest)
        then at other.now k else at out.old k)) }
{
    if rest >= modulus {
        return;
    }
    let first = count_columns_to_first_with_remainder(points.col, modulus, rest);
    if modulus == 2 {
        return copy_narrow_places_with_remainder_by_two(out, other, first as u16);
    }
    let mut k = first;
    while k < out.len() {
        out[k] = other[k];
        k += modulus as usize;
    }
}

// The number of the other row at a point where all tests hold, else the own one.
fn choose_narrow_number_where_mask_holds(
    own: i16,
    its: i16,
    tests: &[PointTest],
    passed: RowMask,
    point: &RowSpan,
) -> i16
    requires tests { All (λ t. IsTest (test_view t)) tests.now }
    requires point { point.now.len ≡ 1 }
    requires bounds { BoundsHold (map test_view tests.now) point.now.row point.now.col }
    requires passed { HoldsWhere passed (map test_view tests.now) point.now.row }
    ensures { result ≡ (if all_passed (map test_view tests.now) point.now.row point.now.col
        then its else own) }
{
    let mut number = [i32::from(own)];
    copy_row_where_mask_holds(&mut number, &[i32::from(its)], tests, passed, point);
    narrow_number_of_wide(number[0])
}

// Takes the numbers of the other row where all tests hold, point by point.
fn copy_narrow_row_by_points(
    out: &mut [i16],
    other: &[i16],
    tests: &[PointTest],
    passed: RowMask,
    points: &RowSpan,
)
    requires other { length other.now ≡ length out.old }
    requires tests { All (λ t. IsTest (test_view t)) tests.now }
    requires fits { length out.old ≡ points.now.len }
    requires bounds { EachPlace (length out.old)
        (λ k. BoundsHold (map test_view tests.now) points.now.row (points.now.col +ℤ pos k)) }
    requires passed { HoldsWhere passed (map test_view tests.now) points.now.row }
    ensures { EachPlace (length out.old) (λ k. at out.new k
        ≡ (if all_passed (map test_view tests.now) points.now.row (points.now.col +ℤ pos k)
        then at other.now k else at out.old k)) }
{
    for k in 0..out.len() {
        let point = points.slice_points(k, k + 1);
        out[k] = choose_narrow_number_where_mask_holds(out[k], other[k], tests, passed, &point);
    }
}

/// Takes the numbers of the other row where all tests hold, in a row of points that lie in the bounds.
pub fn copy_narrow_row_where_mask_holds(
    out: &mut [i16],
    other: &[i16],
    tests: &[PointTest],
    passed: RowMask,
    points: &RowSpan,
)
    requires other { length other.now ≡ length out.old }
    requires tests { All (λ t. IsTest (test_view t)) tests.now }
    requires fits { length out.old ≡ points.now.len }
    requires bounds { EachPlace (length out.old)
        (λ k. BoundsHold (map test_view tests.now) points.now.row (points.now.col +ℤ pos k)) }
    requires passed { HoldsWhere passed (map test_view tests.now) points.now.row }
    ensures { EachPlace (length out.old) (λ k. at out.new k
        ≡ (if all_passed (map test_view tests.now) points.now.row (points.now.col +ℤ pos k)
        then at other.now k else at out.old k)) }
{
    match passed {
        RowMask::Leaving(modulus, rest) => {
            copy_narrow_columns_with_remainder(out, other, modulus, rest, points)
        }
        _ => copy_narrow_row_by_points(out, other, tests, passed, points),
    }
}
