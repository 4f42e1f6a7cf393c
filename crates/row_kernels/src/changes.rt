#![tactic(auto)]
//! Operations on one number.

ghost use Rattle.std.specs.Prelude.{◌≡◌, ℤ, ◌<◌, ◌^◌, ◌*ℤ◌, pos, neg_ℤ, unsigned_abs};
ghost use Rattle.domains.specs.Arithmetic.{wrapped, clamped, floor_div, floor_rem};
ghost use Rattle.row_kernels.specs.Added.{added};

use crate::reciprocal::Reciprocal;
use domains::arithmetic::{
    floor_shr, wrapping_abs, wrapping_add, wrapping_neg, wrapping_shl, wrapping_sub,
};
use row_loops::{NumberMap, PairMap};

/// Its negation.
#[derive(Clone, Copy)]
pub(crate) struct Negation;

impl NumberMap for Negation {
    ghost value = { λ _ a. wrapped (neg_ℤ a) };

    #[inline]
    fn apply_to_number(&self, number: i32) -> i32 {
        wrapping_neg(number)
    }
}

/// Its absolute value.
#[derive(Clone, Copy)]
pub(crate) struct AbsoluteValue;

impl NumberMap for AbsoluteValue {
    ghost value = { λ _ a. wrapped (pos (unsigned_abs a)) };

    #[inline]
    fn apply_to_number(&self, number: i32) -> i32 {
        wrapping_abs(number)
    }
}

/// The number clamped to at least `low`, and then to at most `high`.
#[derive(Clone, Copy, Debug)]
pub struct Clamping {
    pub(crate) low: i32,
    pub(crate) high: i32,
}

impl NumberMap for Clamping {
    ghost value = { λ s a. clamped a s.low s.high };

    #[inline]
    fn apply_to_number(&self, number: i32) -> i32 {
        number.max(self.low).min(self.high)
    }
}

// The quotient by its divisor, rounded down.
impl NumberMap for Reciprocal {
    ghost value = { λ s a. floor_div a (pos s.divisor) };

    #[inline]
    fn apply_to_number(&self, number: i32) -> i32 {
        self.floor_quotient(number)
    }
}

/// The remainder of its division, rounded down.
#[derive(Clone, Copy)]
pub(crate) struct DivisionRemainder(pub(crate) Reciprocal);

impl NumberMap for DivisionRemainder {
    ghost value = { λ s a. floor_rem a (pos s.0.divisor) };

    #[inline]
    fn apply_to_number(&self, number: i32) -> i32 {
        self.0.floor_remainder(number)
    }
}

/// How far numbers of 32 bits are shifted.
#[derive(Clone, Copy, Debug)]
pub struct ShiftCount {
    pub(crate) bits: u32,
    ghost few: { bits < 32 },
}

/// The number times a power of two.
#[derive(Clone, Copy)]
pub(crate) struct LeftShift(pub(crate) ShiftCount);

impl NumberMap for LeftShift {
    ghost value = { λ s a. wrapped (a *ℤ pos (2 ^ s.0.bits)) };

    #[inline]
    fn apply_to_number(&self, number: i32) -> i32 {
        wrapping_shl(number, self.0.bits)
    }
}

/// The number divided by a power of two, rounded down.
#[derive(Clone, Copy)]
pub(crate) struct RightShift(pub(crate) ShiftCount);

impl NumberMap for RightShift {
    ghost value = { λ s a. floor_div a (pos (2 ^ s.0.bits)) };

    #[inline]
    fn apply_to_number(&self, number: i32) -> i32 {
        floor_shr(number, self.0.bits)
    }
}

/// The sum with a number, divided by a power of two, rounded down.
#[derive(Clone, Copy, Debug)]
pub struct ShiftEpilogue {
    pub(crate) add: i32,
    pub(crate) count: ShiftCount,
}

impl NumberMap for ShiftEpilogue {
    ghost value = { λ s a. floor_div (added a s.add) (pos (2 ^ s.count.bits)) };

    #[inline]
    fn apply_to_number(&self, number: i32) -> i32 {
        floor_shr(
            add_epilogue_addend_to_number(number, self.add),
            self.count.bits,
        )
    }
}

// The sum of two numbers. (Nothing is added where the right one is 0, so that there is nothing to choose.)
#[inline]
fn add_epilogue_addend_to_number(left: i32, right: i32) -> i32
    ensures { result ≡ added left right }
{
    wrapping_add(left, right)
}

/// A change, and then another change of its result.
#[derive(Clone, Copy)]
pub(crate) struct ChainedMaps<C: NumberMap, D: NumberMap>(pub(crate) C, pub(crate) D);

impl<C: NumberMap, D: NumberMap> NumberMap for ChainedMaps<C, D> {
    ghost value = { λ s a. D.value s.1 (C.value s.0 a) };

    #[inline]
    fn apply_to_number(&self, number: i32) -> i32 {
        self.1.apply_to_number(self.0.apply_to_number(number))
    }
}

/// What a pair makes of a fixed left number and of the number.
#[derive(Clone, Copy)]
pub(crate) struct FixedLeftOperand<P: PairMap<Made = i32>>(pub(crate) i32, pub(crate) P);

impl<P: PairMap<Made = i32>> NumberMap for FixedLeftOperand<P> {
    ghost value = { λ s a. P.value s.1 s.0 a };

    #[inline]
    fn apply_to_number(&self, number: i32) -> i32 {
        self.1.apply_to_pair(self.0, number)
    }
}

/// What a pair makes of the number and itself.
#[derive(Clone, Copy)]
pub(crate) struct SameOperands<P: PairMap<Made = i32>>(pub(crate) P);

impl<P: PairMap<Made = i32>> NumberMap for SameOperands<P> {
    ghost value = { λ s a. P.value s.0 a a };

    #[inline]
    fn apply_to_number(&self, number: i32) -> i32 {
        self.0.apply_to_pair(number, number)
    }
}

/// The remainder of the division by a power of two, rounded down.
#[derive(Clone, Copy)]
pub(crate) struct LastBits {
    pub(crate) count: ShiftCount,
}

impl NumberMap for LastBits {
    ghost value = { λ s a. floor_rem a (pos (2 ^ s.count.bits)) };

    #[inline]
    fn apply_to_number(&self, number: i32) -> i32 {
        let bits = self.count.bits;
        wrapping_sub(number, wrapping_shl(floor_shr(number, bits), bits))
    }
}

/// A pair, and then a change of its result.
#[derive(Clone, Copy)]
pub(crate) struct PairWithEpilogue<P: PairMap<Made = i32>, C: NumberMap>(
    pub(crate) P,
    pub(crate) C,
);

impl<P: PairMap<Made = i32>, C: NumberMap> PairMap for PairWithEpilogue<P, C> {
    type Made = i32;

    ghost value = { λ s a b. C.value s.1 (P.value s.0 a b) };

    #[inline]
    fn apply_to_pair(&self, left: i32, right: i32) -> i32 {
        self.1.apply_to_number(self.0.apply_to_pair(left, right))
    }
}
