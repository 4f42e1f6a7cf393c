#![tactic(auto)]
//! Operations on one number of 16 bits.

ghost use Rattle.std.specs.Prelude.{◌≡◌, ◌<◌, ◌^◌, ℤ, pos, neg_ℤ, ◌*ℤ◌, unsigned_abs, FitsSigned};
ghost use Rattle.std.specs.Int.{w16};
ghost use Rattle.domains.specs.Arithmetic.{wrapped, clamped, floor_rem};

use domains::arithmetic::{floor_rem, wrapping_shl};

/// An operation on one number of 16 bits.
pub trait NarrowNumberMap: Copy {
    /// Its result at 32 bits.
    ghost value: { Self → ℤ → ℤ };
    /// Whether that fits in 16 bits.
    ghost fits: { Self → ℤ → Type 0 };

    /// Computes it.
    fn apply_to_narrow_number(&self, number: i16) -> i16
        requires { fits self.now number }
        ensures { result ≡ value self.now number };
}

/// The number itself.
#[derive(Clone, Copy)]
pub(crate) struct SameNarrowNumber;

impl NarrowNumberMap for SameNarrowNumber {
    ghost value = { λ _ a. a };

    ghost fits = { λ _ _. Unit {0} };

    #[inline]
    fn apply_to_narrow_number(&self, number: i16) -> i16 {
        number
    }
}

/// Its negation.
#[derive(Clone, Copy)]
pub(crate) struct NarrowNegation;

impl NarrowNumberMap for NarrowNegation {
    ghost value = { λ _ a. wrapped (neg_ℤ a) };

    ghost fits = { λ _ a. FitsSigned w16 (wrapped (neg_ℤ a)) };

    #[inline]
    fn apply_to_narrow_number(&self, number: i16) -> i16 {
        -number
    }
}

/// Its absolute value.
#[derive(Clone, Copy)]
pub(crate) struct NarrowAbsoluteValue;

impl NarrowNumberMap for NarrowAbsoluteValue {
    ghost value = { λ _ a. wrapped (pos (unsigned_abs a)) };

    ghost fits = { λ _ a. FitsSigned w16 (wrapped (pos (unsigned_abs a))) };

    #[inline]
    fn apply_to_narrow_number(&self, number: i16) -> i16 {
        number.wrapping_abs()
    }
}

/// The number clamped to at least `low`, and then to at most `high`.
#[derive(Clone, Copy)]
pub(crate) struct NarrowClamping {
    pub(crate) low: i16,
    pub(crate) high: i16,
}

impl NarrowNumberMap for NarrowClamping {
    ghost value = { λ s a. clamped a s.low s.high };

    ghost fits = { λ _ _. Unit {0} };

    #[inline]
    fn apply_to_narrow_number(&self, number: i16) -> i16 {
        number.max(self.low).min(self.high)
    }
}

/// The number times a power of two.
#[derive(Clone, Copy)]
pub(crate) struct NarrowLeftShift {
    pub(crate) bits: u32,
    ghost few: { bits < 32 },
}

impl NarrowNumberMap for NarrowLeftShift {
    ghost value = { λ s a. wrapped (a *ℤ pos (2 ^ s.bits)) };

    ghost fits = { λ s a. FitsSigned w16 (wrapped (a *ℤ pos (2 ^ s.bits))) };

    #[inline]
    fn apply_to_narrow_number(&self, number: i16) -> i16 {
        wrapping_shl(i32::from(number), self.bits) as i16
    }
}

/// The remainder of the division by a number, rounded down.
#[derive(Clone, Copy)]
pub(crate) struct NarrowRemainder {
    pub(crate) divisor: u32,
    ghost some: { 0 < divisor },
    ghost most: { divisor < 2 ^ 31 },
}

impl NarrowNumberMap for NarrowRemainder {
    ghost value = { λ s a. floor_rem a (pos s.divisor) };

    ghost fits = { λ s a. FitsSigned w16 (floor_rem a (pos s.divisor)) };

    #[inline]
    fn apply_to_narrow_number(&self, number: i16) -> i16 {
        floor_rem(i32::from(number), self.divisor as i32) as i16
    }
}

/// What an operation makes of the result of another one.
#[derive(Clone, Copy)]
pub(crate) struct NarrowThen<S: NarrowNumberMap, C: NarrowNumberMap>(pub(crate) S, pub(crate) C);

impl<S: NarrowNumberMap, C: NarrowNumberMap> NarrowNumberMap for NarrowThen<S, C> {
    ghost value = { λ s a. C.value s.1 (S.value s.0 a) };

    ghost fits = { λ s a. S.fits s.0 a × C.fits s.1 (S.value s.0 a) };

    #[inline]
    fn apply_to_narrow_number(&self, number: i16) -> i16 {
        self.1
            .apply_to_narrow_number(self.0.apply_to_narrow_number(number))
    }
}
