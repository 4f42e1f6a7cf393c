#![tactic(auto)]
//! A digit of a quotient, at each place of a row.

ghost use Rattle.std.specs.Prelude.{◌≡◌, ◌<◌, ◌^◌, ◌*ℤ◌, pos, length};
ghost use Rattle.std.specs.Int.{int_min};
ghost use Rattle.domains.specs.Arithmetic.{wrapped, floor_rem};
ghost use Rattle.row_loops.specs.Rows.{EachPlace, at};
ghost use Rattle.wide_divisions.specs.DivisionSteps.{rest_after, rest_before, step_result, IsRightStep};

use crate::step::{DivisionStep, DivisionStepRest};
use domains::arithmetic::{floor_shr, wrapping_add, wrapping_mul, wrapping_shl, wrapping_sub};
use row_loops::{PairMap, choose_number, write_combination_of_two_rows};

// A step at each place, by a divisor that is not shifted: how many bits the remainder has, and what is added.
#[derive(Clone, Copy)]
struct DivisionStepDigit {
    bits: u32,
    digit: i32,
    ghost low: { bits < 32 },
}

// The lower bits of a number. (The compiler makes one mask of the two shifts.)
#[inline]
fn compute_division_step_remainder(number: i32, bits: u32) -> i32
    requires { bits < 32 }
    ensures { result ≡ floor_rem number (pos (2 ^ bits)) }
{
    wrapping_sub(number, wrapping_shl(floor_shr(number, bits), bits))
}

impl PairMap for DivisionStepDigit {
    type Made = i32;

    ghost value = { λ s rest divisor. rest_after s.bits s.digit rest divisor };

    #[inline]
    fn apply_to_pair(&self, left: i32, right: i32) -> i32 {
        let remainder = compute_division_step_remainder(left, self.bits);
        let less = wrapping_add(wrapping_sub(left, right), self.digit);
        choose_number(right <= remainder, less, left)
    }
}

// A step by a divisor that is shifted to the left first.
#[derive(Clone, Copy)]
struct DivisionStepShiftedDigit {
    digit: DivisionStepDigit,
    shift: u32,
    ghost few: { shift < 32 },
}

impl PairMap for DivisionStepShiftedDigit {
    type Made = i32;

    ghost value = { λ s rest divisor. rest_after s.digit.bits s.digit.digit rest
        (wrapped (divisor *ℤ pos (2 ^ s.shift))) };

    #[inline]
    fn apply_to_pair(&self, left: i32, right: i32) -> i32 {
        self.digit
            .apply_to_pair(left, wrapping_shl(right, self.shift))
    }
}

// A step that begins with `factor * min(sample, most)`.
#[derive(Clone, Copy)]
struct CappedDivisionStep<P: PairMap<Made = i32>> {
    factor: i32,
    most: i32,
    step: P,
}

impl<P: PairMap<Made = i32>> PairMap for CappedDivisionStep<P> {
    type Made = i32;

    ghost value = { λ s number divisor. P.value s.step (wrapped (s.factor *ℤ int_min number s.most)) divisor };

    #[inline]
    fn apply_to_pair(&self, left: i32, right: i32) -> i32 {
        let rest = wrapping_mul(self.factor, left.min(self.most));
        self.step.apply_to_pair(rest, right)
    }
}

// Writes what a step makes of the samples that it begins with and of the divisors of two lines.
fn write_division_steps_from_rests<P: PairMap<Made = i32>>(
    out: &mut [i32],
    samples: &[i32],
    divisors: &[i32],
    rest: &DivisionStepRest<'_>,
    step: P,
)
    requires samples { length samples.now ≡ length out.old }
    requires divisors { length divisors.now ≡ length out.old }
    ensures { EachPlace (length out.old) (λ k. at out.new k
        ≡ P.value step (rest_before rest.now (at samples.now k)) (at divisors.now k)) }
{
    match rest {
        DivisionStepRest::Read(_) => write_combination_of_two_rows(out, samples, divisors, step),
        DivisionStepRest::Capped { factor, most, .. } => {
            let capped = CappedDivisionStep {
                factor: *factor,
                most: *most,
                step,
            };
            write_combination_of_two_rows(out, samples, divisors, capped);
        }
    }
}

/// Writes what a step makes of the samples that it begins with and of the divisors of two lines.
pub(crate) fn write_division_step_results(
    out: &mut [i32],
    samples: &[i32],
    divisors: &[i32],
    step: &DivisionStep<'_>,
)
    requires samples { length samples.now ≡ length out.old }
    requires divisors { length divisors.now ≡ length out.old }
    requires right { IsRightStep step.now }
    ensures { EachPlace (length out.old)
        (λ k. at out.new k ≡ step_result step.now (at samples.now k) (at divisors.now k)) }
{
    let digit = DivisionStepDigit {
        bits: step.bits,
        digit: step.digit,
    };
    match step.shift {
        Some(shift) => {
            let make = DivisionStepShiftedDigit { digit, shift };
            write_division_steps_from_rests(out, samples, divisors, &step.rest, make);
        }
        None => write_division_steps_from_rests(out, samples, divisors, &step.rest, digit),
    }
}
