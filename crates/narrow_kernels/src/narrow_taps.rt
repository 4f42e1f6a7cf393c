#![tactic(auto)]
//! Sums of products of factors and lines of numbers of 16 bits, wrapped at 16 bits.

ghost use Rattle.std.specs.Prelude.{◌≡◌, ◌<◌, ◌≤◌, ◌+ℤ◌, ℤ, length};
ghost use Rattle.std.specs.Int.{w16, int_wrap};
ghost use Rattle.narrow_kernels.specs.NarrowTaps.{tap_at, tap_sum, HaveTapLines};
ghost use Rattle.row_loops.specs.Rows.{EachPlace, at};

use crate::narrow_maps::{NarrowNumberMap, SameNarrowNumber};
use crate::narrow_terms::{
    NarrowTerm, NarrowTermForm, NarrowTermPair, map_narrow_terms, multiply_wrapping_narrow_numbers,
};
use crate::narrow_trees::{NarrowNumber, NarrowWritten};
use domains::arithmetic::floor_rem;

/// A factor, and the line of numbers that it multiplies.
#[derive(Clone, Copy, Debug)]
pub struct NarrowTap<'a> {
    pub line: &'a [i16],
    pub factor: i16,
}

/// A factor wrapped at 16 bits.
pub fn wrap_factor_to_narrow_number(factor: i32) -> i16
    ensures { result ≡ int_wrap w16 factor }
{
    let rest = floor_rem(factor, 65536);
    if rest < 32768 {
        rest as i16
    } else {
        (rest - 65536) as i16
    }
}

/// The product of each tap's factor and number.
#[derive(Clone, Copy)]
pub(crate) struct NarrowProducts;

impl<'a> NarrowTermForm<NarrowTap<'a>> for NarrowProducts {
    ghost has = { λ _ tap k. k < length tap.line.now };

    ghost exact = { λ _ tap k. tap_at tap k };

    #[inline]
    fn compute_narrow_term_of_item(&self, tap: &NarrowTap<'a>, k: usize) -> i16 {
        multiply_wrapping_narrow_numbers(tap.factor, tap.line[k])
    }
}

/// Adds up to nine taps to a term, and writes what an operation makes of the sums, wrapped at 16 bits, in one pass.
pub(crate) fn map_narrow_tap_sums<S: NarrowTerm, C: NarrowNumberMap>(
    out: &mut [i16],
    start: S,
    taps: &[NarrowTap<'_>],
    make: C,
)
    requires few { length taps.now ≤ 9 }
    requires start { EachPlace (length out.old) (S.has start) }
    requires lines { HaveTapLines (length out.old) taps.now }
    requires fits { (z : ℤ) → C.fits make z }
    ensures { EachPlace (length out.old) (λ k. at out.new k ≡ C.value make (int_wrap w16
        (S.exact start (at out.old k) k +ℤ tap_sum taps.now k))) }
{
    map_narrow_terms(out, start, NarrowProducts, taps, make);
}

/// Writes the sums of the products of factors and lines, wrapped at 16 bits.
pub fn write_narrow_tap_sums(out: &mut [i16], taps: &[NarrowTap<'_>])
    requires { HaveTapLines (length out.old) taps.now }
    ensures { EachPlace (length out.old)
        (λ k. at out.new k ≡ int_wrap w16 (tap_sum taps.now k)) }
{
    let (front, back) = taps.split_at(taps.len().min(9));
    map_narrow_tap_sums(out, NarrowNumber(0), front, SameNarrowNumber);
    add_narrow_tap_sums(out, back);
}

/// Adds the sums of the products of factors and lines, wrapped at 16 bits.
pub fn add_narrow_tap_sums(out: &mut [i16], taps: &[NarrowTap<'_>])
    requires { HaveTapLines (length out.old) taps.now }
    ensures { EachPlace (length out.old) (λ k. (s : ℤ) → at out.old k ≡ int_wrap w16 s
        → at out.new k ≡ int_wrap w16 (s +ℤ tap_sum taps.now k)) }
{
    if taps.is_empty() {
        return;
    }
    let (front, back) = taps.split_at(taps.len().min(9));
    let start = NarrowTermPair(NarrowWritten, NarrowNumber(0));
    map_narrow_tap_sums(out, start, front, SameNarrowNumber);
    add_narrow_tap_sums(out, back);
}
