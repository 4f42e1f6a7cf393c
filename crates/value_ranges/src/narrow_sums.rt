#![tactic(auto)]
//! Sums that are divided in 16 bits.

ghost use Rattle.std.specs.Prelude.{◌≡◌, ◌≤◌, ◌*◌};
ghost use Rattle.value_ranges.specs.Narrow.{steps_before_division};

/// How many divisors are taken from a sum in 16 bits before it is divided. Its quotient is that much less. By a divisor from 129 to 257,
/// as of weights that add up to 2^8, whole divisors are taken from 2^15, so that sums of samples of 8 bits fit.
pub fn count_narrow_steps_before_division(divisor: u32) -> u32
    ensures steps { result ≡ steps_before_division divisor }
    ensures few { result ≤ 254 }
    ensures sum { result * divisor ≤ 32768 }
{
    if 128 < divisor && divisor < 258 {
        32768 / divisor
    } else {
        0
    }
}
