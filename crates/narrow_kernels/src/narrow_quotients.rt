#![tactic(auto)]
//! Quotients of numbers of 16 bits, rounded down, without a division for each number.

ghost use Rattle.std.specs.Prelude.{◌≡◌, ◌<◌, ◌≤◌, ◌*◌, ◌/◌, ◌^◌, ◌+ℤ◌, pos, IfSome};
ghost use Rattle.domains.specs.Arithmetic.{floor_div};
ghost use Rattle.narrow_kernels.specs.NarrowReciprocals.{IsNarrowReciprocal, IsNarrowShift, narrow_complement, narrow_uncomplement};

use crate::narrow_maps::NarrowNumberMap;

/// A divisor, with a factor. The upper half of the product with the factor, shifted to the right, is used instead of a division.
#[derive(Clone, Copy, Debug)]
pub struct NarrowReciprocal {
    divisor: u32,
    factor: u16,
    shift: u32,
    ghost few: { shift < 16 },
    ghost exact: { IsNarrowReciprocal divisor factor shift },
}

impl NarrowReciprocal {
    /// The reciprocal of a divisor from 2 to 2^15.
    pub(crate) fn new(divisor: u32) -> NarrowReciprocal
        requires least { 2 ≤ divisor }
        requires most { divisor ≤ 32768 }
        ensures { result.divisor ≡ divisor }
    {
        let shift = (divisor - 1).ilog2();
        NarrowReciprocal {
            divisor,
            factor: ((65536u32 << shift) / divisor + 1) as u16,
            shift,
        }
    }

    /// `n / divisor`.
    #[inline]
    fn divide_narrow_magnitude(&self, n: u16) -> u16
        requires { n < 2 ^ 15 }
        ensures { result ≡ n / self.now.divisor }
    {
        multiply_narrow_numbers_to_upper_half(n, self.factor) >> self.shift
    }
}

// The upper half of the product of two numbers. (Vector code has one operation for it.)
#[inline]
fn multiply_narrow_numbers_to_upper_half(a: u16, b: u16) -> u16
    ensures { result ≡ a * b / 65536 }
{
    ((u32::from(a) * u32::from(b)) >> 16) as u16
}

// The quotient by its divisor, rounded down.
impl NarrowNumberMap for NarrowReciprocal {
    ghost value = { λ s a. floor_div a (pos s.divisor) };

    ghost fits = { λ _ _. Unit {0} };

    #[inline]
    fn apply_to_narrow_number(&self, number: i16) -> i16 {
        undo_narrow_complement(
            number,
            self.divide_narrow_magnitude(complement_narrow_number(number)),
        )
    }
}

/// How far a number lies from 0, and one below 0 from -1.
#[inline]
#[tactic(auto, using(std::proofs::lemmas::Int::ints))]
fn complement_narrow_number(a: i16) -> u16
    ensures is { result ≡ narrow_complement a }
    ensures most { result < 2 ^ 15 }
{
    if a < 0 { (-1 - a) as u16 } else { a as u16 }
}

/// `n` if `a` is at least 0, else -1 - `n`.
#[inline]
#[tactic(auto, using(std::proofs::lemmas::Int::ints))]
fn undo_narrow_complement(a: i16, n: u16) -> i16
    requires { n < 2 ^ 15 }
    ensures { result ≡ narrow_uncomplement a n }
{
    if a < 0 { -1 - n as i16 } else { n as i16 }
}

/// The quotient by a divisor that is known when the program is compiled: an operation or two of vector code.
#[derive(Clone, Copy)]
pub(crate) struct NarrowPart<const DIVISOR: u16>;

impl<const DIVISOR: u16> NarrowNumberMap for NarrowPart<DIVISOR> {
    ghost value = { λ _ a. floor_div a (pos DIVISOR) };

    ghost fits = { λ _ _. 0 < DIVISOR };

    #[inline]
    fn apply_to_narrow_number(&self, number: i16) -> i16 {
        undo_narrow_complement(number, complement_narrow_number(number) / DIVISOR)
    }
}

/// A divisor by which a shift divides numbers of 16 bits: a power of two, or one beyond them.
#[derive(Clone, Copy)]
pub(crate) struct NarrowRightShift {
    divisor: u32,
    bits: u32,
    ghost few: { bits < 16 },
    ghost exact: { IsNarrowShift divisor bits },
}

impl NarrowNumberMap for NarrowRightShift {
    ghost value = { λ s a. floor_div a (pos s.divisor) };

    ghost fits = { λ _ _. Unit {0} };

    #[inline]
    fn apply_to_narrow_number(&self, number: i16) -> i16 {
        number >> self.bits
    }
}

/// The shift by which numbers of 16 bits are divided by a divisor, if there is one.
pub(crate) fn find_narrow_right_shift(divisor: u32) -> Option<NarrowRightShift>
    requires { 0 < divisor }
    ensures some { IfSome result (λ shift. shift.divisor ≡ divisor) }
    ensures none { result ≡ None → (2 ≤ divisor) × (divisor ≤ 32768) }
{
    let bits = divisor.ilog2();
    if divisor > 32768 {
        Some(NarrowRightShift { divisor, bits: 15 })
    } else if divisor == 1 << bits {
        Some(NarrowRightShift { divisor, bits })
    } else {
        None
    }
}
