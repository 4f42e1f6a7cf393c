#![tactic(auto)]
//! Products of factors and lines of 16 bits, added up in 32 bits.

ghost use Rattle.std.specs.Prelude.{◌≡◌, ◌<◌, ◌+ℤ◌, ℕ, ℤ, pos, negsuc, length, FitsSigned};
ghost use Rattle.std.specs.Int.{w16};
ghost use Rattle.domains.specs.Arithmetic.{wrapped, clamped};
ghost use Rattle.row_loops.specs.Rows.{EachPlace, at};
ghost use Rattle.linear_rows.specs.inside.LinearSums.{line_at, shifted};

use crate::linear_make::LinearShift;
use domains::arithmetic::{floor_shr, wrapping_add, wrapping_mul};

/// A term of a sum: a whole number at each place of a row.
pub(crate) trait LinearTerm: Copy {
    /// Whether it is defined at a place.
    ghost has: { Self → ℕ → Type 0 };
    /// And the number there, exactly.
    ghost exact: { Self → ℕ → ℤ };

    /// Computes it, wrapped at 32 bits.
    fn compute_linear_term(&self, k: usize) -> i32
        requires { has self.now k }
        ensures { result ≡ wrapped (exact self.now k) };
}

/// A factor, and the line that it multiplies.
#[derive(Clone, Copy)]
pub(crate) struct LinearLine<'a> {
    pub(crate) factor: i16,
    pub(crate) line: &'a [i16],
}

impl<'a> LinearTerm for LinearLine<'a> {
    ghost has = { λ s k. k < length s.line.now };

    ghost exact = { λ s k. line_at s k };

    #[inline]
    fn compute_linear_term(&self, k: usize) -> i32 {
        wrapping_mul(i32::from(self.factor), i32::from(self.line[k]))
    }
}

/// The sum of two terms.
#[derive(Clone, Copy)]
pub(crate) struct LinearPair<S: LinearTerm, T: LinearTerm>(pub(crate) S, pub(crate) T);

impl<S: LinearTerm, T: LinearTerm> LinearTerm for LinearPair<S, T> {
    ghost has = { λ p k. S.has p.0 k × T.has p.1 k };

    ghost exact = { λ p k. S.exact p.0 k +ℤ T.exact p.1 k };

    #[inline]
    fn compute_linear_term(&self, k: usize) -> i32 {
        wrapping_add(self.0.compute_linear_term(k), self.1.compute_linear_term(k))
    }
}

// A number plus the term at a place, wrapped at 32 bits.
#[inline]
fn add_linear_term_to_number<T: LinearTerm>(sum: i32, term: T, k: usize) -> i32
    requires { T.has term k }
    ensures { result ≡ wrapped (sum +ℤ T.exact term k) }
{
    wrapping_add(sum, term.compute_linear_term(k))
}

/// Writes a number plus a term at each place.
pub(crate) fn write_linear_term<T: LinearTerm>(out: &mut [i32], number: i32, term: T)
    requires { EachPlace (length out.old) (T.has term) }
    ensures { EachPlace (length out.old) (λ k. at out.new k ≡ wrapped (number +ℤ T.exact term k)) }
{
    for k in 0..out.len() {
        out[k] = add_linear_term_to_number(number, term, k);
    }
}

/// Adds a term at each place.
pub(crate) fn add_linear_term<T: LinearTerm>(out: &mut [i32], term: T)
    requires { EachPlace (length out.old) (T.has term) }
    ensures { EachPlace (length out.old) (λ k. (s : ℤ) → at out.old k ≡ wrapped s
        → at out.new k ≡ wrapped (s +ℤ T.exact term k)) }
{
    for k in 0..out.len() {
        out[k] = add_linear_term_to_number(out[k], term, k);
    }
}

impl LinearShift {
    // The clamped quotient, if it fits in 16 bits. (The number is cut to 16 bits first: vector code has one operation for it.)
    #[inline]
    fn shift_linear_number(&self, number: i32) -> i16
        requires { FitsSigned w16 (shifted self.now number) }
        ensures { result ≡ shifted self.now number }
    {
        cut_linear_number(floor_shr(number, self.bits))
            .max(cut_linear_number(self.low))
            .min(cut_linear_number(self.high))
    }
}

// The nearest number of 16 bits.
#[inline]
fn cut_linear_number(number: i32) -> i16
    ensures { result ≡ clamped number (negsuc 32767) (pos 32767) }
{
    number.max(-32768).min(32767) as i16
}

// A number plus the term at a place, wrapped at 32 bits, shifted and clamped.
#[inline]
fn shift_linear_term<T: LinearTerm>(number: i32, term: T, make: LinearShift, k: usize) -> i16
    requires has { T.has term k }
    requires fits { FitsSigned w16 (shifted make (wrapped (number +ℤ T.exact term k))) }
    ensures { result ≡ shifted make (wrapped (number +ℤ T.exact term k)) }
{
    make.shift_linear_number(add_linear_term_to_number(number, term, k))
}

/// Writes a number plus a term at each place, shifted and clamped.
pub(crate) fn write_shifted_linear_term<T: LinearTerm>(
    out: &mut [i16],
    number: i32,
    term: T,
    make: LinearShift,
)
    requires has { EachPlace (length out.old) (T.has term) }
    requires fits { EachPlace (length out.old) (λ k. FitsSigned w16
        (shifted make (wrapped (number +ℤ T.exact term k)))) }
    ensures { EachPlace (length out.old) (λ k. at out.new k
        ≡ shifted make (wrapped (number +ℤ T.exact term k))) }
{
    for k in 0..out.len() {
        out[k] = shift_linear_term(number, term, make, k);
    }
}

/// Writes numbers of 32 bits, shifted and clamped.
pub(crate) fn write_shifted_linear_numbers(out: &mut [i16], line: &[i32], make: LinearShift)
    requires line { length line.now ≡ length out.old }
    requires fits { EachPlace (length out.old) (λ k. FitsSigned w16
        (shifted make (at line.now k))) }
    ensures { EachPlace (length out.old) (λ k. at out.new k
        ≡ shifted make (at line.now k)) }
{
    for k in 0..out.len() {
        out[k] = make.shift_linear_number(line[k]);
    }
}
