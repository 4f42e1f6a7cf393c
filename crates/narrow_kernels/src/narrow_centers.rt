#![tactic(auto)]
//! Sums of clamped differences of lines of numbers of 16 bits from one line, their center, wrapped at 16 bits, eight of them in one pass.

ghost use Rattle.std.specs.Prelude.{◌≡◌, ◌≤◌, ◌<◌, ◌≤ℤ◌, ◌+ℤ◌, ◌-ℤ◌, ◌*ℤ◌, ℕ, ℤ, pos, negsuc, neg_ℤ, length, IfSome};
ghost use Rattle.std.specs.Int.{w16, int_wrap};
ghost use Rattle.domains.specs.Arithmetic.{clamped};
ghost use Rattle.narrow_kernels.specs.NarrowTaps.{HaveTapLines};
ghost use Rattle.narrow_kernels.specs.NarrowCenters.{centered_tap_sum, IsCenter};
ghost use Rattle.narrow_kernels.specs.NarrowNearTaps.{near_tap_at, near_tap_sum, factor_sum, near_quad_at, HasNearQuad};
ghost use Rattle.row_loops.specs.Rows.{EachPlace, at};

use crate::narrow_maps::SameNarrowNumber;
use crate::narrow_taps::{NarrowProducts, NarrowTap};
use crate::narrow_terms::{
    NarrowItem, NarrowTerm, NarrowTermForm, NarrowTermPair, add_wrapping_narrow_numbers,
    map_narrow_term, map_narrow_terms, multiply_wrapping_narrow_numbers,
    subtract_wrapping_narrow_numbers,
};
use crate::narrow_trees::NarrowWritten;

/// A line, and the bounds of how far numbers of other lines count as lying from its own.
#[derive(Clone, Copy, Debug)]
pub struct NarrowCenter<'a> {
    pub line: &'a [i16],
    pub low: i16,
    pub high: i16,
}

// The nearest number of 16 bits. (Vector code has one operation for it.)
#[inline]
fn saturate_to_narrow_number(number: i32) -> i16
    ensures { result ≡ clamped number (negsuc 32767) (pos 32767) }
{
    number.max(-32768).min(32767) as i16
}

// The number of 16 bits that is nearest to `a + b`.
#[inline]
fn add_saturating_narrow_numbers(a: i16, b: i16) -> i16
    ensures { result ≡ clamped (a +ℤ b) (negsuc 32767) (pos 32767) }
{
    saturate_to_narrow_number(i32::from(a) + i32::from(b))
}

// The number that lies nearest to another one, within bounds around a center. (Where a bound is saturated, no number lies beyond it.)
#[inline]
fn find_nearest_narrow_number(number: i16, center: i16, low: i16, high: i16) -> i16
    requires low { low ≤ℤ pos 0 }
    requires high { pos 0 ≤ℤ high }
    ensures { result ≡ center +ℤ clamped (number -ℤ center) low high }
{
    number
        .max(add_saturating_narrow_numbers(center, low))
        .min(add_saturating_narrow_numbers(center, high))
}

// A tap's line counts as lying no further from the center than its bounds.
impl<'a, 'b> NarrowTermForm<NarrowTap<'b>> for NarrowCenter<'a> {
    ghost has = { λ c tap k. (k < length c.line.now) × (k < length tap.line.now) × (c.low ≤ℤ pos 0) × (pos 0 ≤ℤ c.high) };

    ghost exact = { λ c tap k. near_tap_at c tap k };

    #[inline]
    fn compute_narrow_term_of_item(&self, tap: &NarrowTap<'b>, k: usize) -> i16 {
        let NarrowCenter { line, low, high } = *self;
        let near = find_nearest_narrow_number(tap.line[k], line[k], low, high);
        multiply_wrapping_narrow_numbers(tap.factor, near)
    }
}

/// Four lines, whose numbers count as lying no further from a center than its bounds, and the factor of their sum.
#[derive(Clone, Copy)]
pub(crate) struct NarrowNearQuad<'a> {
    center: NarrowCenter<'a>,
    factor: i16,
    a: &'a [i16],
    b: &'a [i16],
    c: &'a [i16],
    d: &'a [i16],
}

impl<'a> NarrowTerm for NarrowNearQuad<'a> {
    ghost has = { λ q k. HasNearQuad q k };

    ghost exact = { λ q _ k. near_quad_at q k };

    #[inline]
    fn compute_narrow_term_at_place(&self, _own: i16, k: usize) -> i16 {
        let NarrowCenter { line, low, high } = self.center;
        let own = line[k];
        let front = add_wrapping_narrow_numbers(
            find_nearest_narrow_number(self.a[k], own, low, high),
            find_nearest_narrow_number(self.b[k], own, low, high),
        );
        let back = add_wrapping_narrow_numbers(
            find_nearest_narrow_number(self.c[k], own, low, high),
            find_nearest_narrow_number(self.d[k], own, low, high),
        );
        multiply_wrapping_narrow_numbers(self.factor, add_wrapping_narrow_numbers(front, back))
    }
}

// The four taps, if they have one factor.
fn match_four_near_narrow_taps<'a>(
    center: NarrowCenter<'a>,
    taps: &[NarrowTap<'a>],
) -> Option<NarrowNearQuad<'a>>
    ensures has { (n : ℕ) → IsCenter n center.entry → HaveTapLines n taps.now
        → IfSome result (λ quad. EachPlace n (HasNearQuad quad)) }
    ensures exact { IfSome result
        (λ quad. (k : ℕ) → near_quad_at quad k ≡ near_tap_sum center.entry taps.now k) }
{
    match taps {
        [a, b, c, d] if a.factor == b.factor && a.factor == c.factor && a.factor == d.factor => {
            Some(NarrowNearQuad {
                center,
                factor: a.factor,
                a: a.line,
                b: b.line,
                c: c.line,
                d: d.line,
            })
        }
        _ => None,
    }
}

// The first four of eight taps, and the last four, if each four have one factor.
fn match_eight_near_narrow_taps<'a>(
    center: NarrowCenter<'a>,
    taps: &[NarrowTap<'a>],
) -> Option<(NarrowNearQuad<'a>, NarrowNearQuad<'a>)>
    ensures has { (n : ℕ) → IsCenter n center.entry → HaveTapLines n taps.now → IfSome result
        (λ both. EachPlace n (HasNearQuad both.0) × EachPlace n (HasNearQuad both.1)) }
    ensures exact { IfSome result (λ both. (k : ℕ) → near_quad_at both.0 k +ℤ near_quad_at both.1 k
        ≡ near_tap_sum center.entry taps.now k) }
{
    if taps.len() < 4 {
        return None;
    }
    let (front, back) = taps.split_at(4);
    Some((
        match_four_near_narrow_taps(center, front)?,
        match_four_near_narrow_taps(center, back)?,
    ))
}

// The sum of the factors of taps with the other sign, wrapped at 16 bits.
fn negate_sum_of_narrow_tap_factors(taps: &[NarrowTap<'_>]) -> i16
    ensures { result ≡ int_wrap w16 (neg_ℤ (factor_sum taps.now)) }
{
    let mut sum = 0;
    for tap in taps {
        sum = subtract_wrapping_narrow_numbers(sum, tap.factor);
    }
    sum
}

/// Adds the sums of the clamped differences of up to eight taps from a center, wrapped at 16 bits. If there are eight, and the first
/// four have one factor and the last four too, each four are added before they are multiplied.
pub fn add_centered_narrow_tap_sums(
    out: &mut [i16],
    center: NarrowCenter<'_>,
    taps: &[NarrowTap<'_>],
)
    requires count { length taps.now ≤ 8 }
    requires center { IsCenter (length out.old) center }
    requires taps { HaveTapLines (length out.old) taps.now }
    ensures { EachPlace (length out.old) (λ k. (s : ℤ) → at out.old k ≡ int_wrap w16 s
        → at out.new k ≡ int_wrap w16 (s +ℤ centered_tap_sum center.entry taps.now k)) }
{
    let own = NarrowTap {
        line: center.line,
        factor: negate_sum_of_narrow_tap_factors(taps),
    };
    let start = NarrowTermPair(NarrowWritten, NarrowItem(NarrowProducts, own));
    match match_eight_near_narrow_taps(center, taps) {
        Some((front, back)) => {
            let all = NarrowTermPair(start, NarrowTermPair(front, back));
            map_narrow_term(out, all, SameNarrowNumber);
        }
        None => map_narrow_terms(out, start, center, taps, SameNarrowNumber),
    }
}
