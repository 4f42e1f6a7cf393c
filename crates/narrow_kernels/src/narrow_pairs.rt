#![tactic(auto)]
//! Operations on two numbers of 16 bits.

ghost use Rattle.std.specs.Prelude.{◌≡◌, ℕ, ℤ, ◌+ℤ◌, ◌-ℤ◌, ◌*ℤ◌, FitsSigned};
ghost use Rattle.std.specs.Int.{w16, int_min, int_max};
ghost use Rattle.domains.specs.Arithmetic.{wrapped};

/// An operation on two numbers of 16 bits at a place of a row. It may depend on the number that is there before, its own.
pub trait NarrowPairMap: Copy {
    /// Its result at 32 bits.
    ghost value: { Self → ℤ → ℕ → ℤ → ℤ → ℤ };
    /// Whether it is defined and fits in 16 bits.
    ghost fits: { Self → ℤ → ℕ → ℤ → ℤ → Type 0 };

    /// Computes it.
    fn apply_to_narrow_pair(&self, left: i16, right: i16, own: i16, k: usize) -> i16
        requires { fits self.now own k left right }
        ensures { result ≡ value self.now own k left right };
}

/// Their sum.
#[derive(Clone, Copy)]
pub(crate) struct NarrowSum;

impl NarrowPairMap for NarrowSum {
    ghost value = { λ _ _ _ a b. wrapped (a +ℤ b) };

    ghost fits = { λ _ _ _ a b. FitsSigned w16 (wrapped (a +ℤ b)) };

    #[inline]
    fn apply_to_narrow_pair(&self, left: i16, right: i16, _own: i16, _k: usize) -> i16 {
        left + right
    }
}

/// Their difference.
#[derive(Clone, Copy)]
pub(crate) struct NarrowDifference;

impl NarrowPairMap for NarrowDifference {
    ghost value = { λ _ _ _ a b. wrapped (a -ℤ b) };

    ghost fits = { λ _ _ _ a b. FitsSigned w16 (wrapped (a -ℤ b)) };

    #[inline]
    fn apply_to_narrow_pair(&self, left: i16, right: i16, _own: i16, _k: usize) -> i16 {
        left - right
    }
}

/// Their product.
#[derive(Clone, Copy)]
pub(crate) struct NarrowProduct;

impl NarrowPairMap for NarrowProduct {
    ghost value = { λ _ _ _ a b. wrapped (a *ℤ b) };

    ghost fits = { λ _ _ _ a b. FitsSigned w16 (wrapped (a *ℤ b)) };

    #[inline]
    fn apply_to_narrow_pair(&self, left: i16, right: i16, _own: i16, _k: usize) -> i16 {
        left * right
    }
}

/// The lesser of them.
#[derive(Clone, Copy)]
pub(crate) struct NarrowLeast;

impl NarrowPairMap for NarrowLeast {
    ghost value = { λ _ _ _. int_min };

    ghost fits = { λ _ _ _ _ _. Unit {0} };

    #[inline]
    fn apply_to_narrow_pair(&self, left: i16, right: i16, _own: i16, _k: usize) -> i16 {
        left.min(right)
    }
}

/// The greater of them.
#[derive(Clone, Copy)]
pub(crate) struct NarrowGreatest;

impl NarrowPairMap for NarrowGreatest {
    ghost value = { λ _ _ _. int_max };

    ghost fits = { λ _ _ _ _ _. Unit {0} };

    #[inline]
    fn apply_to_narrow_pair(&self, left: i16, right: i16, _own: i16, _k: usize) -> i16 {
        left.max(right)
    }
}
