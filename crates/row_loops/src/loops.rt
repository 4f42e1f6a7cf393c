#![tactic(auto)]
//! Rows whose numbers are computed place by place.

ghost use Rattle.std.specs.Prelude.{◌≡◌, ◌≤ℤ◌, ◌+ℤ◌, pos, length, if◌then◌else◌};
ghost use Rattle.row_loops.specs.Rows.{EachPlace, at};

use crate::pairs::PairMap;
use crate::row_change::NumberMap;

/// Each place has the number.
pub fn fill_row(out: &mut [i32], number: i32)
    ensures { EachPlace (length out.old) (λ k. at out.new k ≡ number) }
{
    for x in out.iter_mut() {
        *x = number;
    }
}

/// The numbers count up from the first.
pub fn fill_row_counting_up(out: &mut [i32], first: i32)
    requires { (first +ℤ pos (length out.old)) ≤ℤ pos 1000000 }
    ensures { EachPlace (length out.old) (λ k. at out.new k ≡ first +ℤ pos k) }
{
    let mut next = first;
    for k in 0..out.len() {
        out[k] = next;
        next += 1;
    }
}

/// Applies a change to each number of a row.
pub fn map_row_in_place<C: NumberMap>(out: &mut [i32], make: C)
    ensures { EachPlace (length out.old) (λ k. at out.new k ≡ C.value make (at out.old k)) }
{
    for k in 0..out.len() {
        out[k] = make.apply_to_number(out[k]);
    }
}

/// Writes what a change makes of the numbers of a line.
pub fn write_mapped_row<C: NumberMap>(out: &mut [i32], line: &[i32], make: C)
    requires { length line.now ≡ length out.old }
    ensures { EachPlace (length out.old) (λ k. at out.new k ≡ C.value make (at line.now k)) }
{
    for k in 0..out.len() {
        out[k] = make.apply_to_number(line[k]);
    }
}

/// Replaces each number by what a pair makes of it and of the number of a line.
pub fn combine_row_in_place<P: PairMap<Made = i32>>(out: &mut [i32], right: &[i32], make: P)
    requires { length right.now ≡ length out.old }
    ensures { EachPlace (length out.old)
        (λ k. at out.new k ≡ P.value make (at out.old k) (at right.now k)) }
{
    for k in 0..out.len() {
        out[k] = make.apply_to_pair(out[k], right[k]);
    }
}

/// Writes what a pair makes of the numbers of two lines.
pub fn write_combination_of_two_rows<P: PairMap<Made = i32>>(
    out: &mut [i32],
    left: &[i32],
    right: &[i32],
    make: P,
)
    requires left { length left.now ≡ length out.old }
    requires right { length right.now ≡ length out.old }
    ensures { EachPlace (length out.old)
        (λ k. at out.new k ≡ P.value make (at left.now k) (at right.now k)) }
{
    for k in 0..out.len() {
        out[k] = make.apply_to_pair(left[k], right[k]);
    }
}

/// Joins each number with that of a line, and the result with that of another line.
pub fn combine_row_with_two_rows_in_place<P: PairMap<Made = i32>, Q: PairMap<Made = i32>>(
    out: &mut [i32],
    second: &[i32],
    third: &[i32],
    inner: P,
    outer: Q,
)
    requires second { length second.now ≡ length out.old }
    requires third { length third.now ≡ length out.old }
    ensures { EachPlace (length out.old) (λ k. at out.new k
        ≡ Q.value outer (P.value inner (at out.old k) (at second.now k)) (at third.now k)) }
{
    for k in 0..out.len() {
        out[k] = outer.apply_to_pair(inner.apply_to_pair(out[k], second[k]), third[k]);
    }
}

/// Writes the numbers of two lines, joined, and then joined with those of a third.
pub fn write_combination_of_three_rows<P: PairMap<Made = i32>, Q: PairMap<Made = i32>>(
    out: &mut [i32],
    first: &[i32],
    second: &[i32],
    third: &[i32],
    inner: P,
    outer: Q,
)
    requires first { length first.now ≡ length out.old }
    requires second { length second.now ≡ length out.old }
    requires third { length third.now ≡ length out.old }
    ensures { EachPlace (length out.old) (λ k. at out.new k
        ≡ Q.value outer (P.value inner (at first.now k) (at second.now k)) (at third.now k)) }
{
    for k in 0..out.len() {
        out[k] = outer.apply_to_pair(inner.apply_to_pair(first[k], second[k]), third[k]);
    }
}

/// One of two numbers. (Both are available when it is called: a choice between places to read from does not give vector code.)
#[inline]
pub fn choose_number(holds: bool, one: i32, other: i32) -> i32
    ensures { result ≡ (if holds then one else other) }
{
    if holds { one } else { other }
}
