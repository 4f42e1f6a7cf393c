#![tactic(auto)]
//! Operations on two numbers.

ghost use Rattle.std.specs.Prelude.{◌≡◌, ℤ, ◌+ℤ◌, ◌-ℤ◌, ◌*ℤ◌, int_le};
ghost use Rattle.std.specs.Int.{int_min, int_max};
ghost use Rattle.std.specs.Ordering.{int_eq};
ghost use Rattle.domains.specs.Arithmetic.{wrapped};

use domains::arithmetic::{wrapping_add, wrapping_mul, wrapping_sub};

/// An operation on two numbers: it gives another number, or whether they are related.
pub trait PairMap: Copy {
    type Made;

    /// Its result.
    ghost value: { Self → ℤ → ℤ → Self.Made };

    /// Computes it.
    fn apply_to_pair(&self, left: i32, right: i32) -> Self::Made
        ensures { result ≡ value self.now left right };
}

/// Their sum.
#[derive(Clone, Copy)]
pub struct Sum;

impl PairMap for Sum {
    type Made = i32;

    ghost value = { λ _ a b. wrapped (a +ℤ b) };

    #[inline]
    fn apply_to_pair(&self, left: i32, right: i32) -> i32 {
        wrapping_add(left, right)
    }
}

/// Their difference.
#[derive(Clone, Copy)]
pub struct Difference;

impl PairMap for Difference {
    type Made = i32;

    ghost value = { λ _ a b. wrapped (a -ℤ b) };

    #[inline]
    fn apply_to_pair(&self, left: i32, right: i32) -> i32 {
        wrapping_sub(left, right)
    }
}

/// Their product.
#[derive(Clone, Copy)]
pub struct Product;

impl PairMap for Product {
    type Made = i32;

    ghost value = { λ _ a b. wrapped (a *ℤ b) };

    #[inline]
    fn apply_to_pair(&self, left: i32, right: i32) -> i32 {
        wrapping_mul(left, right)
    }
}

/// The lesser of them.
#[derive(Clone, Copy)]
pub struct Least;

impl PairMap for Least {
    type Made = i32;

    ghost value = { λ _. int_min };

    #[inline]
    fn apply_to_pair(&self, left: i32, right: i32) -> i32 {
        left.min(right)
    }
}

/// The greater of them.
#[derive(Clone, Copy)]
pub struct Greatest;

impl PairMap for Greatest {
    type Made = i32;

    ghost value = { λ _. int_max };

    #[inline]
    fn apply_to_pair(&self, left: i32, right: i32) -> i32 {
        left.max(right)
    }
}

/// Whether the left one is at most the right one.
#[derive(Clone, Copy)]
pub struct AtMost;

impl PairMap for AtMost {
    type Made = bool;

    ghost value = { λ _ a b. int_le a b };

    #[inline]
    fn apply_to_pair(&self, left: i32, right: i32) -> bool {
        left <= right
    }
}

/// Whether they are equal.
#[derive(Clone, Copy)]
pub struct Equal;

impl PairMap for Equal {
    type Made = bool;

    ghost value = { λ _. int_eq };

    #[inline]
    fn apply_to_pair(&self, left: i32, right: i32) -> bool {
        left == right
    }
}

/// What a pair makes of the numbers when they are exchanged.
#[derive(Clone, Copy)]
pub struct SwappedOperands<P: PairMap>(pub P);

impl<P: PairMap> PairMap for SwappedOperands<P> {
    type Made = P::Made;

    ghost value = { λ s a b. P.value s.0 b a };

    #[inline]
    fn apply_to_pair(&self, left: i32, right: i32) -> P::Made {
        self.0.apply_to_pair(right, left)
    }
}

/// What a pair makes of a number and of the other one times a factor.
#[derive(Clone, Copy)]
pub struct ScaledRightOperand<P: PairMap>(pub P, pub i32);

impl<P: PairMap> PairMap for ScaledRightOperand<P> {
    type Made = P::Made;

    ghost value = { λ s a b. P.value s.0 a (wrapped (s.1 *ℤ b)) };

    #[inline]
    fn apply_to_pair(&self, left: i32, right: i32) -> P::Made {
        self.0.apply_to_pair(left, wrapping_mul(self.1, right))
    }
}
