#![tactic(auto)]
//! Sums of products of factors and lines, and of a number, that are divided in the pass that adds them.

ghost use Rattle.std.specs.Prelude.{◌≡◌, ◌≤◌, ◌+ℤ◌, ℤ, length, pos};
ghost use Rattle.std.specs.Int.{w16, int_wrap};
ghost use Rattle.domains.specs.Arithmetic.{floor_div};
ghost use Rattle.operators.specs.Limits.{IsDivisor};
ghost use Rattle.narrow_kernels.specs.NarrowTaps.{tap_sum, HaveTapLines};
ghost use Rattle.row_loops.specs.Rows.{EachPlace, at};

use crate::narrow_maps::SameNarrowNumber;
use crate::narrow_quotients::{NarrowPart, NarrowReciprocal, find_narrow_right_shift};
use crate::narrow_taps::{NarrowTap, map_narrow_tap_sums};
use crate::narrow_terms::{NarrowTerm, NarrowTermPair};
use crate::narrow_trees::{NarrowNumber, NarrowWritten};

// Adds up to nine taps to a term, and divides the sums, wrapped at 16 bits. They are rounded down. (The compiler knows the least odd
// divisors.)
fn divide_narrow_tap_sums<S: NarrowTerm>(
    out: &mut [i16],
    start: S,
    taps: &[NarrowTap<'_>],
    divisor: u32,
)
    requires few { length taps.now ≤ 9 }
    requires start { EachPlace (length out.old) (S.has start) }
    requires lines { HaveTapLines (length out.old) taps.now }
    requires divisor { IsDivisor divisor }
    ensures { EachPlace (length out.old) (λ k. at out.new k ≡ floor_div (int_wrap w16
        (S.exact start (at out.old k) k +ℤ tap_sum taps.now k)) (pos divisor)) }
{
    if divisor == 1 {
        return map_narrow_tap_sums(out, start, taps, SameNarrowNumber);
    }
    if let Some(shift) = find_narrow_right_shift(divisor) {
        return map_narrow_tap_sums(out, start, taps, shift);
    }
    match divisor {
        3 => map_narrow_tap_sums(out, start, taps, NarrowPart::<3>),
        5 => map_narrow_tap_sums(out, start, taps, NarrowPart::<5>),
        7 => map_narrow_tap_sums(out, start, taps, NarrowPart::<7>),
        9 => map_narrow_tap_sums(out, start, taps, NarrowPart::<9>),
        _ => map_narrow_tap_sums(out, start, taps, NarrowReciprocal::new(divisor)),
    }
}

/// Writes the sums of the products of up to nine factors and lines, and of a number, wrapped at 16 bits and divided, rounded down.
pub fn write_divided_narrow_tap_sums(
    out: &mut [i16],
    taps: &[NarrowTap<'_>],
    number: i16,
    divisor: u32,
)
    requires few { length taps.now ≤ 9 }
    requires lines { HaveTapLines (length out.old) taps.now }
    requires divisor { IsDivisor divisor }
    ensures { EachPlace (length out.old) (λ k. at out.new k
        ≡ floor_div (int_wrap w16 (tap_sum taps.now k +ℤ number)) (pos divisor)) }
{
    divide_narrow_tap_sums(out, NarrowNumber(number), taps, divisor);
}

/// Adds the products of up to nine factors and lines, and a number, to the numbers of a row, and divides the sums, wrapped at 16 bits. They are
/// rounded down.
pub fn add_and_divide_narrow_tap_sums(
    out: &mut [i16],
    taps: &[NarrowTap<'_>],
    number: i16,
    divisor: u32,
)
    requires few { length taps.now ≤ 9 }
    requires lines { HaveTapLines (length out.old) taps.now }
    requires divisor { IsDivisor divisor }
    ensures { EachPlace (length out.old) (λ k. at out.new k
        ≡ floor_div (int_wrap w16 (at out.old k +ℤ (tap_sum taps.now k +ℤ number))) (pos divisor)) }
{
    let start = NarrowTermPair(NarrowWritten, NarrowNumber(number));
    divide_narrow_tap_sums(out, start, taps, divisor);
}
