#![tactic(auto)]
//! Division by a fixed number, without a division for each number.

ghost use Rattle.std.specs.Prelude.{◌≡◌, ◌<◌, ◌≤◌, ◌*◌, ◌/◌, ◌^◌, ◌+ℤ◌, pos};
ghost use Rattle.domains.specs.Arithmetic.{floor_div, floor_rem};
ghost use Rattle.row_kernels.specs.inside.Reciprocal.{IsReciprocal, complement_negative_dividend, undo_complement_of_dividend};

/// A divisor, with a factor. The product with the factor, without its last `shift` bits, is used instead of a division.
#[derive(Clone, Copy, Debug)]
pub struct Reciprocal {
    divisor: u32,
    factor: u32,
    shift: u32,
    ghost few: { shift < 64 },
    ghost least: { 2 ≤ divisor },
    ghost most: { divisor < 2 ^ 31 },
    ghost exact: { IsReciprocal divisor factor shift },
}

impl Reciprocal {
    /// The reciprocal of a divisor of at least 2.
    pub fn new(divisor: u32) -> Reciprocal
        requires least { 2 ≤ divisor }
        requires most { divisor < 2 ^ 31 }
        ensures { result.divisor ≡ divisor }
    {
        let shift = 32 + (divisor - 1).ilog2();
        let factor = (1u64 << shift) / u64::from(divisor) + 1;
        Reciprocal {
            divisor,
            factor: factor as u32,
            shift,
        }
    }

    /// The divisor.
    pub fn divisor(&self) -> u32
        ensures { result ≡ self.now.divisor }
    {
        self.divisor
    }

    /// `n / divisor`.
    #[inline]
    pub fn quotient(&self, n: u32) -> u32
        requires { n < 2 ^ 31 }
        ensures { result ≡ n / self.now.divisor }
    {
        ((u64::from(n) * u64::from(self.factor)) >> self.shift) as u32
    }

    /// `a / divisor`, rounded down.
    #[inline]
    pub fn floor_quotient(&self, a: i32) -> i32
        ensures { result ≡ floor_div a (pos self.now.divisor) }
    {
        undo_complement_of_dividend(a, self.quotient(complement_negative_dividend(a)))
    }

    /// The remainder of that division, from 0 up to below the divisor.
    #[inline]
    pub fn floor_remainder(&self, a: i32) -> i32
        ensures { result ≡ floor_rem a (pos self.now.divisor) }
    {
        let n = complement_negative_dividend(a);
        let rest = n - self.quotient(n) * self.divisor;
        (if a < 0 { self.divisor - 1 - rest } else { rest }) as i32
    }
}

// How far a number lies from 0, and one below 0 from -1.
#[inline]
#[tactic(auto, using(std::proofs::lemmas::Int::ints))]
fn complement_negative_dividend(a: i32) -> u32
    ensures is { result ≡ complement_negative_dividend a }
    ensures most { result < 2 ^ 31 }
{
    if a < 0 { (-1 - a) as u32 } else { a as u32 }
}

// `n` if `a` is at least 0, else -1 - `n`.
#[inline]
#[tactic(auto, using(std::proofs::lemmas::Int::ints))]
fn undo_complement_of_dividend(a: i32, n: u32) -> i32
    requires { n < 2 ^ 31 }
    ensures { result ≡ undo_complement_of_dividend a n }
{
    if a < 0 { -1 - n as i32 } else { n as i32 }
}
