#![tactic(auto)]
//! Tests along rows of points.

ghost use Rattle.std.specs.Prelude.{◌≡◌, ◌≢◌, ◌<◌, ◌==◌, ◌%◌, ◌+ℤ◌, ◌≤ℤ◌, ℤ, pos, length, map, All, if◌then◌else◌};
ghost use Rattle.std.specs.Ordering.{int_eq};
ghost use Rattle.domains.specs.Arithmetic.{floor_rem};
ghost use Rattle.operators.specs.Values.{along, is_related, is_passed, all_passed};
ghost use Rattle.operators.specs.Bounds.{BoundsHold};
ghost use Rattle.operators.specs.Limits.{IsDivisor, IsTest};
ghost use Rattle.operators.specs.Views.{axis_view, test_view};
ghost use Rattle.row_loops.specs.Rows.{EachPlace, at};
ghost use Rattle.row_kernels.specs.RowMask.{HoldsWhere};

use crate::row_span::RowSpan;
use domains::arithmetic::floor_rem;
use operators::{Axis, PointTest, Relation};
use row_loops::choose_number;

fn select_coordinate_for_mask_test(axis: Axis, row: i32, col: i32) -> i32
    ensures { result ≡ along (axis_view axis) row col }
{
    match axis {
        Axis::Row => row,
        Axis::Column => col,
    }
}

fn is_related(relation: Relation, v: i128, bound: i128) -> bool
    ensures { result ≡ is_related relation v bound }
{
    match relation {
        Relation::AtMost => v <= bound,
        Relation::AtLeast => v >= bound,
        Relation::Equals => v == bound,
    }
}

fn has_remainder(v: i32, modulus: u32, rest: u32) -> bool
    requires modulus { IsDivisor modulus }
    requires rest { rest < modulus }
    ensures { result ≡ int_eq (floor_rem v (pos modulus)) (pos rest) }
{
    floor_rem(v, modulus as i32) == rest as i32
}

// Whether a test holds at the point.
fn is_mask_test_passed_at_point(test: &PointTest, row: i32, col: i32) -> bool
    requires { IsTest (test_view test.now) }
    ensures { result ≡ is_passed (test_view test.now) row col }
{
    match test {
        PointTest::Compare(axis, relation, bound) => {
            is_related(
                *relation,
                i128::from(select_coordinate_for_mask_test(*axis, row, col)),
                *bound,
            )
        }
        PointTest::Remainder(axis, modulus, rest) => has_remainder(
            select_coordinate_for_mask_test(*axis, row, col),
            *modulus,
            *rest,
        ),
    }
}

// Whether all tests hold at the point.
fn is_every_mask_test_passed_at_point(tests: &[PointTest], row: i32, col: i32) -> bool
    requires { All (λ t. IsTest (test_view t)) tests.now }
    ensures { result ≡ all_passed (map test_view tests.now) row col }
{
    for test in tests {
        if !is_mask_test_passed_at_point(test, row, col) {
            return false;
        }
    }
    true
}

/// Where in a row of points that lie in the bounds all tests hold.
#[derive(Clone, Copy, Debug)]
pub enum RowMask {
    Nowhere,
    Everywhere,
    /// The columns with a remainder: their division by the first number leaves the second.
    Leaving(u32, u32),
    /// Each point is to be tested.
    Unknown,
}

/// Where in a row of points in the bounds all tests hold, as far as this is known without testing each point.
pub fn find_row_mask(tests: &[PointTest], points: &RowSpan) -> RowMask
    requires { All (λ t. IsTest (test_view t)) tests.now }
    ensures { HoldsWhere result (map test_view tests.now) points.now.row }
{
    match tests {
        [] => RowMask::Everywhere,
        [PointTest::Compare(_, _, _), more @ ..] => find_row_mask(more, points),
        [PointTest::Remainder(Axis::Row, modulus, rest), more @ ..] => {
            if has_remainder(points.row, *modulus, *rest) {
                find_row_mask(more, points)
            } else {
                RowMask::Nowhere
            }
        }
        [PointTest::Remainder(Axis::Column, modulus, rest), more @ ..] => {
            match find_row_mask(more, points) {
                RowMask::Nowhere => RowMask::Nowhere,
                RowMask::Everywhere => RowMask::Leaving(*modulus, *rest),
                _ => RowMask::Unknown,
            }
        }
    }
}

// The remainder of the division of a number.
fn compute_column_remainder(v: i32, modulus: u32) -> u32
    requires { IsDivisor modulus }
    ensures number { pos result ≡ floor_rem v (pos modulus) }
    ensures below { result < modulus }
{
    floor_rem(v, modulus as i32) as u32
}

// How far after a number with the remainder `left` the first number with the remainder `rest` lies.
fn count_columns_to_remainder(left: u32, modulus: u32, rest: u32) -> usize
    requires modulus { IsDivisor modulus }
    requires left { left < modulus }
    requires rest { rest < modulus }
    ensures few { result < modulus }
    ensures lands { (v : ℤ) → pos left ≡ floor_rem v (pos modulus)
        → floor_rem (v +ℤ pos result) (pos modulus) ≡ pos rest }
    ensures first { (v : ℤ) → pos left ≡ floor_rem v (pos modulus)
        → EachPlace result (λ d. floor_rem (v +ℤ pos d) (pos modulus) ≢ pos rest) }
{
    let gap = if rest < left {
        rest + (modulus - left)
    } else {
        rest - left
    };
    gap as usize
}

/// How far after a column the first one lies whose remainder by `modulus` is `rest`.
pub fn count_columns_to_first_with_remainder(col: i32, modulus: u32, rest: u32) -> usize
    requires modulus { IsDivisor modulus }
    requires rest { rest < modulus }
    ensures few { result < modulus }
    ensures lands { floor_rem (col +ℤ pos result) (pos modulus) ≡ pos rest }
    ensures first { EachPlace result (λ d. floor_rem (col +ℤ pos d) (pos modulus) ≢ pos rest) }
{
    count_columns_to_remainder(compute_column_remainder(col, modulus), modulus, rest)
}

// Takes the numbers of the other row at every second place. (Each place is written, which allows vector code.)
fn copy_places_with_remainder_by_two(out: &mut [i32], other: &[i32], first: u32)
    requires other { length other.now ≡ length out.old }
    requires short { length out.old < 65536 }
    ensures { EachPlace (length out.old) (λ k. at out.new k
        ≡ (if k % 2 == first then at other.now k else at out.old k)) }
{
    for k in 0..out.len() {
        let (mine, its) = (out[k], other[k]);
        out[k] = choose_number(k as u32 % 2 == first, its, mine);
    }
}

// Takes the numbers of the other row in the columns whose remainder by `modulus` is `rest`.
fn copy_columns_with_remainder(
    out: &mut [i32],
    other: &[i32],
    modulus: u32,
    rest: u32,
    points: &RowSpan,
)
    requires other { length other.now ≡ length out.old }
    requires modulus { IsDivisor modulus }
    requires fits { length out.old ≡ points.now.len }
    ensures { EachPlace (length out.old) (λ k. at out.new k
        ≡ (if int_eq (floor_rem (points.now.col +ℤ pos k) (pos modulus)) (pos rest)
        then at other.now k else at out.old k)) }
{
    if rest >= modulus {
        return;
    }
    let first = count_columns_to_first_with_remainder(points.col, modulus, rest);
    if modulus == 2 {
        return copy_places_with_remainder_by_two(out, other, first as u32);
    }
    let mut k = first;
    while k < out.len() {
        out[k] = other[k];
        k += modulus as usize;
    }
}

// Takes the numbers of the other row where all tests hold, by testing each point.
fn copy_row_where_mask_tests_pass(
    out: &mut [i32],
    other: &[i32],
    tests: &[PointTest],
    points: &RowSpan,
)
    requires other { length other.now ≡ length out.old }
    requires tests { All (λ t. IsTest (test_view t)) tests.now }
    requires fits { length out.old ≡ points.now.len }
    ensures { EachPlace (length out.old) (λ k. at out.new k
        ≡ (if all_passed (map test_view tests.now) points.now.row (points.now.col +ℤ pos k)
        then at other.now k else at out.old k)) }
{
    for k in 0..out.len() {
        if is_every_mask_test_passed_at_point(tests, points.row, points.column(k)) {
            out[k] = other[k];
        }
    }
}

/// Takes the numbers of the other row where all tests hold, in a row of points that lie in the bounds.
pub fn copy_row_where_mask_holds(
    out: &mut [i32],
    other: &[i32],
    tests: &[PointTest],
    passed: RowMask,
    points: &RowSpan,
)
    requires other { length other.now ≡ length out.old }
    requires tests { All (λ t. IsTest (test_view t)) tests.now }
    requires fits { length out.old ≡ points.now.len }
    requires bounds { EachPlace (length out.old)
        (λ k. BoundsHold (map test_view tests.now) points.now.row (points.now.col +ℤ pos k)) }
    requires passed { HoldsWhere passed (map test_view tests.now) points.now.row }
    ensures { EachPlace (length out.old) (λ k. at out.new k
        ≡ (if all_passed (map test_view tests.now) points.now.row (points.now.col +ℤ pos k)
        then at other.now k else at out.old k)) }
{
    match passed {
        RowMask::Leaving(modulus, rest) => copy_columns_with_remainder(
            out, other, modulus, rest, points,
        ),
        _ => copy_row_where_mask_tests_pass(out, other, tests, points),
    }
}
